// The rows of the table of refusals that look at one point.
ghost use Rattle.std.specs.Prelude.{◌≡◌, ◌||◌};
ghost use Rattle.rules.specs.Rows.{first_of, passing, too_far, too_soon, initial_rows};

use crate::limits::Asked;
use crate::steps::DAY;
use market::{Directory, Fuel, Point, Refusal, Role, Status};

// A rule of its own, not that of securing.
const FIVE_O_CLOCK: u64 = 1_020;

// A rule of its own, not that of how far a working day is looked for.
const FURTHEST: u64 = 28;

// Whether a request that is received at `clock` may not start on the day.
fn may_not_start(clock: u32, day: u32) -> bool
    ensures { result ≡ (too_far clock day || too_soon clock day) }
{
    let (clock, day) = (u64::from(clock), u64::from(day));
    let today = clock / DAY;
    let notice = if clock % DAY >= FIVE_O_CLOCK { 2 } else { 1 };
    day > today + FURTHEST || day < today + notice
}

// The rows from 7 on that an initial request meets before its notices are counted, in their order.
pub fn check_initial<D: Directory>(
    directory: &D,
    clock: u32,
    point: Point,
    asked: Asked,
) -> Result<(), Refusal>
    ensures { result ≡ passing (first_of (initial_rows (D.parties directory.now) clock point asked)) }
{
    let (gainer, shipper) = (asked.gainer, asked.shipper);
    let gas = point.fuel == Fuel::Gas;
    if may_not_start(clock, asked.start) {
        return Err(Refusal::DayNotAllowed);
    }
    if !directory.is_qualified(gainer, Role::Gainer)
        || gas && !shipper.is_some_and(|who| directory.is_qualified(who, Role::GainingShipper))
    {
        return Err(Refusal::NotQualified);
    }
    if directory.is_sanctioned(gainer, Role::Gainer)
        || gas && shipper.is_some_and(|who| directory.is_sanctioned(who, Role::GainingShipper))
    {
        return Err(Refusal::Sanctioned);
    }
    if gas && !shipper.is_some_and(|who| directory.is_linked(gainer, who))
        || !gas && shipper.is_some()
    {
        return Err(Refusal::WrongForFuel);
    }
    if point.request.is_some() {
        return Err(Refusal::RequestPending);
    }
    if point.supplier.is_some() {
        return Err(Refusal::WrongRegistration);
    }
    if point.status == Status::Terminated || gas && point.status == Status::Created {
        return Err(Refusal::WrongStatus);
    }
    Ok(())
}
