//! The words of a line: a reader that hands them out as parts of it, the decimal numbers that they
//! write, and what can be wrong with a field, with a line and with a feed.
#![tactic(auto)]

pub mod faults;
pub mod numbers;
pub mod readers;

pub use faults::{FaultReport, FeedFault, FieldFault, LineFault};
pub use numbers::number;
pub use readers::{Reader, Word};
