//! Calendars of working days.
#![tactic(auto)]

pub mod bits;
pub mod weeks;

pub use bits::Bits;
pub use weeks::Week;
