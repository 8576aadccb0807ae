// What can be asked of the engine, and what it answers.
use market::{NewPoint, NewRequest, Notice};
use rules::Turn;

// A call with its numbers as received, whatever they are.
#[derive(Clone, Copy, Debug, PartialEq, Eq)]
pub enum Call {
    // A new point.
    Create(NewPoint),
    // A request for a point that has no supplier.
    Initial(NewRequest),
    // The earliest step up to the moment, or else the clock moves there.
    Advance { moment: u64 },
    // The oldest waiting notice.
    Take,
}

#[derive(Clone, Copy, Debug, PartialEq, Eq)]
pub enum Answer {
    // Accepted, and there is no more to say.
    Done,
    // The notice that was taken, if one waited.
    Taken(Option<Notice>),
    // The step that was done, with its own moment.
    Stepped { point: u64, turn: Turn, moment: u32 },
    // No step was left up to this moment.
    Reached(u32),
}
