//! The calls of the registration engine, over any register, calendar, outbox and directory.
#![tactic(auto)]

pub mod calls;
pub mod engines;
mod settling;

pub use calls::{Answer, Call};
pub use engines::Engine;
