//! Registers of points.
#![tactic(auto)]

mod point_table;
mod roll;
mod split;

pub use point_table::PointTable;
pub use roll::Roll;
pub use split::Split;
