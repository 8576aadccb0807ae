//! One line of a feed: what it does to everything that the feed holds, and the reply to it.
#![tactic(auto)]

pub mod desks;
pub mod replies;

pub use desks::Desk;
pub use replies::Reply;
