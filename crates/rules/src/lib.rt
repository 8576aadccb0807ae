//! What is decided about one point, with no store in sight: limits, days, the rows of the table of
//! refusals, a point's next step, what a change makes of a point, and the notices it owes.
#![tactic(auto)]

pub mod limits;
pub mod owed;
pub mod rows;
pub mod sending;
pub mod steps;

pub use limits::Asked;
pub use owed::Owed;
pub use sending::{Audience, Mailing};
pub use steps::{Step, Turn};
