//! The vocabulary of the registration engine: meter points, notices, refusals, and the traits
//! by which the engine sees a register, a calendar, an outbox and a directory.
//!
//! Nothing is stored and nothing is decided here.
#![tactic(auto)]

pub mod codes;
pub mod limits;
pub mod notices;
pub mod points;
pub mod received;
pub mod refusals;
pub mod stores;

pub use notices::{Notice, NoticeKind, Role};
pub use points::{Fuel, Point, Request, RequestKind, RequestState, Status};
pub use received::{NewLink, NewParty, NewPoint, NewRequest};
pub use refusals::{Absent, AddError, OutboxFull, Refusal, UnknownNumber};
pub use stores::{Calendar, Directory, Outbox, Register};
