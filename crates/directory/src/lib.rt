//! The directory of the market's parties: who is listed in which role, whether qualified or
//! sanctioned there, and which shippers ship for which suppliers.
#![tactic(auto)]

mod book;
mod entries;
mod limits;

pub use book::PartyBook;
pub use entries::{LinkEntry, PartyEntry};
