// Why a call is refused: the rows of the table of refusals, in its order; and why a store refuses a change.
ghost use Rattle.std.specs.Prelude.{◌≡◌};
ghost use Rattle.market.specs.Numbers.{refusal_number};
ghost use Rattle.market.specs.Refusals.{row_of_unknown, row_of_add};

// A row of the table, by its number.
#[derive(Clone, Copy, Debug, PartialEq, Eq)]
pub enum Refusal {
    OutsideLimits = 1,
    BeforeClock = 2,
    StepDue = 3,
    NoSuchPoint = 4,
    AlreadyThere = 5,
    NoPlace = 6,
    DayNotAllowed = 7,
    NotQualified = 8,
    Sanctioned = 9,
    WrongForFuel = 10,
    RequestPending = 11,
    WrongRegistration = 12,
    LeavingStands = 13,
    WrongStatus = 14,
    Standstill = 15,
    NothingPending = 16,
    WrongSender = 17,
    WrongState = 18,
    OutboxFull = 19,
    NotANotice = 20,
}

// The number of the row.
impl From<Refusal> for u8 {
    ghost from_gives = { λ refusal number. number ≡ refusal_number refusal };

    fn from(refusal: Refusal) -> u8 {
        refusal as u8
    }
}

// A number that stands for no case.
#[derive(Clone, Copy, Debug, PartialEq, Eq)]
pub struct UnknownNumber;

impl From<UnknownNumber> for Refusal {
    ghost from_gives = { λ unknown refusal. refusal ≡ row_of_unknown unknown };

    fn from(_: UnknownNumber) -> Refusal {
        Refusal::OutsideLimits
    }
}

// Why a store does not take a new record.
#[derive(Clone, Copy, Debug, PartialEq, Eq)]
pub enum AddError {
    // One of its key is there.
    AlreadyThere,
    // There is no place for its key.
    NoPlace,
}

impl From<AddError> for Refusal {
    ghost from_gives = { λ error refusal. refusal ≡ row_of_add error };

    fn from(error: AddError) -> Refusal {
        match error {
            AddError::AlreadyThere => Refusal::AlreadyThere,
            AddError::NoPlace => Refusal::NoPlace,
        }
    }
}

// A store has no record of the key whose record is to be replaced.
#[derive(Clone, Copy, Debug, PartialEq, Eq)]
pub struct Absent;

// An outbox has no free place for a notice.
#[derive(Clone, Copy, Debug, PartialEq, Eq)]
pub struct OutboxFull;
