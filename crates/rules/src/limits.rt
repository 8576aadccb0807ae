// The first row: numbers as received become values within their limits, or the call is refused.
ghost use Rattle.std.specs.Prelude.{◌≡◌};
ghost use Rattle.rules.specs.Limits.{new_point, asked_of, or_outside, moment_of, between};
ghost use Rattle.rules.specs.Changes.{initial_request};

pub use market::limits::{LAST_DAY, LAST_MOMENT, LAST_POINT};
use market::limits::{is_point, party, yes_no};
use market::{
    Fuel, NewPoint, NewRequest, Point, Refusal, Request, RequestKind, RequestState, Status,
};

// The last number of a party, which has sixteen bits.
pub const LAST_PARTY: u64 = 65_535;

const _: () = prove!(LAST_PARTY == u16::MAX as u64);

// The point as it is created, with nobody registered. No `TryFrom`: both types are of the crate below.
pub fn new_point(new: NewPoint) -> Result<Point, Refusal>
    ensures { result ≡ or_outside (new_point new.number new.fuel new.domestic new.status) }
{
    if !is_point(new.number) {
        return Err(Refusal::OutsideLimits);
    }
    let fuel = Fuel::try_from(new.fuel)?;
    let domestic = yes_no(new.domestic)?;
    let status = Status::try_from(new.status)?;
    if status == Status::Terminated {
        return Err(Refusal::OutsideLimits);
    }
    Ok(Point {
        number: new.number,
        fuel,
        domestic,
        status,
        ..Point::BLANK
    })
}

// What a request asks for: a point, the gainer and its shipper, and the day to start.
#[derive(Clone, Copy, Debug, PartialEq, Eq)]
pub struct Asked {
    pub point: u64,
    pub gainer: u16,
    pub shipper: Option<u16>,
    pub start: u32,
}

impl TryFrom<NewRequest> for Asked {
    type Error = Refusal;

    ghost try_from_gives = { λ new result. result ≡ or_outside (asked_of new.point new.gainer new.shipper new.start) };

    fn try_from(new: NewRequest) -> Result<Asked, Refusal> {
        if !is_point(new.point) {
            return Err(Refusal::OutsideLimits);
        }
        Ok(Asked {
            point: new.point,
            gainer: party(new.gainer)?.ok_or(Refusal::OutsideLimits)?,
            shipper: party(new.shipper)?,
            start: between(new.start, 1, LAST_DAY)?,
        })
    }
}

impl Asked {
    // An initial request has nobody to object, so it stands confirmed at once and has no window.
    pub fn initial_request(self) -> Request
        ensures { result ≡ initial_request self }
    {
        Request {
            state: RequestState::Confirmed,
            kind: RequestKind::Initial,
            gainer: self.gainer,
            shipper: self.shipper,
            start: self.start,
            window: None,
        }
    }
}

// The number, where it is at least and at most that.
fn between(number: u64, least: u32, most: u32) -> Result<u32, Refusal>
    ensures { result ≡ or_outside (between least most number) }
{
    match u32::try_from(number) {
        Ok(number) if (least..=most).contains(&number) => Ok(number),
        _ => Err(Refusal::OutsideLimits),
    }
}

// No `TryFrom`: both types are numbers.
pub fn moment(number: u64) -> Result<u32, Refusal>
    ensures { result ≡ or_outside (moment_of number) }
{
    between(number, 0, LAST_MOMENT)
}
