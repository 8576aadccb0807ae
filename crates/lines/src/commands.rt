// What a line can ask, with its numbers as received, whatever they are.
use engine::Call;
use market::{NewLink, NewParty};

#[derive(Clone, Copy, Debug, PartialEq, Eq)]
pub enum Command {
    // What the directory knows of a party in a role.
    Party(NewParty),
    // The shipper ships for the supplier.
    Link(NewLink),
    // A call of the engine.
    Call(Call),
}
