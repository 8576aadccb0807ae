// The reply to a line, as a value and as text.
ghost use Rattle.std.specs.Prelude.{◌≡◌, Some};
ghost use Rattle.desk.specs.Replies.{text_of, reply_to, added_reply};

use engine::Answer;
use market::{Notice, Refusal};
use std::fmt;
use words::FaultReport;

#[derive(Clone, Copy, Debug, PartialEq, Eq)]
pub enum Reply {
    // Accepted, with the engine's answer; an addition to the directory is done.
    Accepted(Answer),
    Refused(Refusal),
    Fault(FaultReport),
}

// The reply to a call.
impl From<Result<Answer, Refusal>> for Reply {
    ghost from_gives = { λ answer reply. reply ≡ reply_to answer };

    fn from(answer: Result<Answer, Refusal>) -> Reply {
        match answer {
            Ok(answer) => Reply::Accepted(answer),
            Err(refusal) => Reply::Refused(refusal),
        }
    }
}

// The reply to an addition to the directory.
impl From<Result<(), Refusal>> for Reply {
    ghost from_gives = { λ answer reply. reply ≡ added_reply answer };

    fn from(answer: Result<(), Refusal>) -> Reply {
        Reply::from(answer.map(|()| Answer::Done))
    }
}

impl fmt::Display for Reply {
    ghost output = { λ x. Some (text_of x) };

    fn fmt<W: fmt::Write>(&self, f: &mut fmt::Formatter<W>) -> fmt::Result {
        match *self {
            Reply::Accepted(Answer::Done) => write!(f, "ok"),
            Reply::Accepted(
                Answer::Taken(
                    Some(
                        Notice {
                            point,
                            moment,
                            party,
                            kind,
                            role,
                        },
                    ),
                ),
            ) => {
                let (kind, role) = (u8::from(kind), u8::from(role));
                write!(f, "notice {kind} {role} {party} {point} {moment}")
            }
            Reply::Accepted(Answer::Taken(None)) => write!(f, "none"),
            Reply::Accepted(
                Answer::Stepped {
                    point,
                    turn,
                    moment,
                },
            ) => write!(f, "step {point} {turn} {moment}"),
            Reply::Accepted(Answer::Reached(moment)) => write!(f, "reached {moment}"),
            Reply::Refused(refusal) => write!(f, "refused {}", u8::from(refusal)),
            Reply::Fault(report) => write!(f, "{report}"),
        }
    }
}
