// A meter point and what is known of it.
ghost use Rattle.std.specs.Prelude.{◌≡◌};
ghost use Rattle.std.specs.Option.{ok_or};
ghost use Rattle.market.specs.Numbers.{fuel_number, status_number, state_number, request_kind_number, fuel_of, status_of, unknown};

use crate::refusals::UnknownNumber;

#[derive(Clone, Copy, Debug, PartialEq, Eq)]
pub enum Fuel {
    Gas = 1,
    Electricity = 2,
}

// The number of the fuel.
impl From<Fuel> for u8 {
    ghost from_gives = { λ fuel number. number ≡ fuel_number fuel };

    fn from(fuel: Fuel) -> u8 {
        fuel as u8
    }
}

// The fuel with this number. By cases, here and at the other enums: one text for all would want a trait for
// their numbers beside `From`.
impl TryFrom<u64> for Fuel {
    type Error = UnknownNumber;

    ghost try_from_gives = { λ number result. result ≡ ok_or (fuel_of number) unknown };

    fn try_from(number: u64) -> Result<Fuel, UnknownNumber> {
        match number {
            1 => Ok(Fuel::Gas),
            2 => Ok(Fuel::Electricity),
            _ => Err(UnknownNumber),
        }
    }
}

#[derive(Clone, Copy, Debug, PartialEq, Eq)]
pub enum Status {
    Created = 1,
    Operational = 2,
    Dormant = 3,
    Terminated = 4,
}

// The number of the status.
impl From<Status> for u8 {
    ghost from_gives = { λ status number. number ≡ status_number status };

    fn from(status: Status) -> u8 {
        status as u8
    }
}

// The status with this number.
impl TryFrom<u64> for Status {
    type Error = UnknownNumber;

    ghost try_from_gives = { λ number result. result ≡ ok_or (status_of number) unknown };

    fn try_from(number: u64) -> Result<Status, UnknownNumber> {
        match number {
            1 => Ok(Status::Created),
            2 => Ok(Status::Operational),
            3 => Ok(Status::Dormant),
            4 => Ok(Status::Terminated),
            _ => Err(UnknownNumber),
        }
    }
}

// How far a pending request has come.
#[derive(Clone, Copy, Debug, PartialEq, Eq)]
pub enum RequestState {
    Validated = 1,
    Confirmed = 2,
    Secured = 3,
}

// The number of the state.
impl From<RequestState> for u8 {
    ghost from_gives = { λ state number. number ≡ state_number state };

    fn from(state: RequestState) -> u8 {
        state as u8
    }
}

#[derive(Clone, Copy, Debug, PartialEq, Eq)]
pub enum RequestKind {
    // The point moves from one supplier to another.
    Switch = 1,
    // The point gets its first supplier, or one after it was left.
    Initial = 2,
}

// The number of the kind.
impl From<RequestKind> for u8 {
    ghost from_gives = { λ kind number. number ≡ request_kind_number kind };

    fn from(kind: RequestKind) -> u8 {
        kind as u8
    }
}

// A pending request for the supply of a point.
#[derive(Clone, Copy, Debug, PartialEq, Eq)]
pub struct Request {
    pub state: RequestState,
    pub kind: RequestKind,
    // The supplier who asks, and the shipper it brings (gas only).
    pub gainer: u16,
    pub shipper: Option<u16>,
    // The day from whose 00:00 on the gainer supplies.
    pub start: u32,
    // The moment up to which the losing supplier may object (switches only).
    pub window: Option<u32>,
}

#[derive(Clone, Copy, Debug, PartialEq, Eq)]
pub struct Point {
    pub number: u64,
    pub fuel: Fuel,
    pub domestic: bool,
    pub status: Status,
    // The registered supplier, its shipper, and the day since when. Three options and no value for all three: an
    // image of a register may hold one without the others.
    pub supplier: Option<u16>,
    pub shipper: Option<u16>,
    pub since: Option<u32>,
    // The agents: metering equipment manager, data collector, data aggregator, meter asset provider.
    pub mem: Option<u16>,
    pub dc: Option<u16>,
    pub da: Option<u16>,
    pub map: Option<u16>,
    // The day at whose 00:00 the registered supplier leaves.
    pub leaving: Option<u32>,
    pub request: Option<Request>,
}

impl Point {
    // What stands in a place that no point has taken.
    pub const BLANK: Point = Point {
        number: 0,
        fuel: Fuel::Gas,
        domestic: false,
        status: Status::Created,
        supplier: None,
        shipper: None,
        since: None,
        mem: None,
        dc: None,
        da: None,
        map: None,
        leaving: None,
        request: None,
    };
}
