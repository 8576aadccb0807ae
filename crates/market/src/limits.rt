// The greatest numbers of each sort, and what a number as received may stand for.
ghost use Rattle.std.specs.Prelude.{◌≡◌};
ghost use Rattle.std.specs.Option.{ok_or};
ghost use Rattle.market.specs.Limits.{is_point, party_of, yes_no_of};
ghost use Rattle.market.specs.Numbers.{unknown};

use crate::refusals::UnknownNumber;

pub const LAST_POINT: u64 = 9_999_999_999_999;

// The last moment that the clock can reach.
pub const LAST_MOMENT: u32 = 143_999_999;

// The last day of a start or a leaving.
pub const LAST_DAY: u32 = 99_999;

// Whether a point can have this number.
pub fn is_point(number: u64) -> bool
    ensures { result ≡ is_point number }
{
    (1..=LAST_POINT).contains(&number)
}

// The party with this number, 0 for none. No `TryFrom` here and below: both types are std's.
pub fn party(number: u64) -> Result<Option<u16>, UnknownNumber>
    ensures { result ≡ ok_or (party_of number) unknown }
{
    match u16::try_from(number) {
        Ok(0) => Ok(None),
        Ok(party) => Ok(Some(party)),
        Err(_) => Err(UnknownNumber),
    }
}

// 1 for yes, 0 for no.
pub fn yes_no(number: u64) -> Result<bool, UnknownNumber>
    ensures { result ≡ ok_or (yes_no_of number) unknown }
{
    match number {
        0 => Ok(false),
        1 => Ok(true),
        _ => Err(UnknownNumber),
    }
}
