//! Outboxes of notices over memory that the caller lends.
#![tactic(auto)]

mod cells;
mod places;
pub mod rings;
mod slots;

pub use rings::{ByteRing, PlaceRing, Ring};
