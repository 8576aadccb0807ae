//! The lines of a feed: the command that a line gives, or what is wrong with it.
#![tactic(auto)]

pub mod commands;
pub mod decoding;
mod verbs;

pub use commands::Command;
pub use decoding::{accept, decode};
