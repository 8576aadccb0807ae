// The next step of a point, and what a step makes of it.
ghost use Rattle.std.specs.Prelude.{◌≡◌, Some};
ghost use Rattle.rules.specs.Steps.{request_step, step_of, turned, turn_name};
ghost use Rattle.rules.specs.Changes.{owed_at};
ghost use Rattle.rules.specs.Owing.{listed};

use crate::owed::Owed;
use crate::sending::{Audience, Mailing};
use market::{NoticeKind, Point, Request, RequestState};
use std::fmt;

// What a step makes of a point's request or registration.
#[derive(Clone, Copy, Debug, PartialEq, Eq)]
pub enum Turn {
    Confirmed,
    Secured,
    Completed,
    Left,
}

impl fmt::Display for Turn {
    ghost output = { λ turn. Some (turn_name turn) };

    fn fmt<W: fmt::Write>(&self, f: &mut fmt::Formatter<W>) -> fmt::Result {
        match self {
            Turn::Confirmed => write!(f, "confirmed"),
            Turn::Secured => write!(f, "secured"),
            Turn::Completed => write!(f, "completed"),
            Turn::Left => write!(f, "left"),
        }
    }
}

// A step that stands before a point, and the moment at which it is due.
#[derive(Clone, Copy, Debug, PartialEq, Eq)]
pub struct Step {
    pub point: Point,
    pub turn: Turn,
    pub moment: u64,
}

// The minutes of a day: a moment counts them from 00:00 of day 0 on.
pub const DAY: u64 = 1_440;

// The minute of the day at which a request is secured.
pub const SECURING: u64 = 1_020;

// The step of a pending request.
fn request_step(request: Request) -> Option<(Turn, u64)>
    ensures { result ≡ request_step (Some request) }
{
    let start = u64::from(request.start);
    match request.state {
        RequestState::Validated => Some((Turn::Confirmed, u64::from(request.window?))),
        RequestState::Confirmed => Some((Turn::Secured, start.saturating_sub(1) * DAY + SECURING)),
        RequestState::Secured => Some((Turn::Completed, start * DAY)),
    }
}

impl Step {
    // The step of the point, if one stands before it.
    pub fn of(point: Point) -> Option<Step>
        ensures { result ≡ step_of point }
    {
        let (turn, moment) = match point.leaving {
            Some(day) => (Turn::Left, u64::from(day) * DAY),
            None => request_step(point.request?)?,
        };
        Some(Step {
            point,
            turn,
            moment,
        })
    }

    // The point after the step.
    pub fn done(self) -> Point
        ensures { result ≡ turned self.turn self.point }
    {
        let point = self.point;
        match (self.turn, point.request) {
            (Turn::Confirmed, Some(request)) => Point {
                request: Some(Request {
                    state: RequestState::Confirmed,
                    ..request
                }),
                ..point
            },
            (Turn::Secured, Some(request)) => Point {
                request: Some(Request {
                    state: RequestState::Secured,
                    ..request
                }),
                ..point
            },
            (Turn::Completed, Some(request)) => Point {
                supplier: Some(request.gainer),
                shipper: request.shipper,
                since: Some(request.start),
                request: None,
                ..point
            },
            (Turn::Left, _) => Point {
                supplier: None,
                shipper: None,
                since: None,
                leaving: None,
                ..point
            },
            (_, None) => point,
        }
    }

    // What the step owes, where the clock then stands at `clock`.
    pub fn owed(self, clock: u32) -> Owed
        ensures { listed result ≡ owed_at self.turn self.point clock }
    {
        let (kind, audience) = match self.turn {
            Turn::Confirmed => (NoticeKind::Confirmed, Audience::Confirmation),
            Turn::Secured => (NoticeKind::Secured, Audience::Securing),
            Turn::Completed | Turn::Left => return Owed::none(),
        };
        Mailing {
            kind,
            audience,
            point: self.point,
            request: self.point.request,
            moment: clock,
        }
        .owed()
    }
}
