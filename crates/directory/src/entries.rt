// What is listed of a party and of a link, and in which order.
ghost use Rattle.std.proofs.lemmas.Map.Lookups.{exact_pairs, exact_unsigned};
ghost use Rattle.std.specs.Ordering.{nat_cmp};
ghost use Rattle.directory.specs.Entries.{party_key, link_key};

use market::Role;
use tables::Keyed;

// A party in one of its roles.
#[derive(Clone, Copy, Debug, PartialEq, Eq)]
pub struct PartyEntry {
    pub number: u16,
    pub role: Role,
    pub qualified: bool,
    pub sanctioned: bool,
}

// The shipper ships for the supplier.
#[derive(Clone, Copy, Debug, PartialEq, Eq)]
pub struct LinkEntry {
    pub supplier: u16,
    pub shipper: u16,
}

impl PartyEntry {
    // What stands in a place that no party has taken.
    pub const BLANK: PartyEntry = PartyEntry {
        number: 0,
        role: Role::Gainer,
        qualified: false,
        sanctioned: false,
    };
}

impl LinkEntry {
    // What stands in a place that no link has taken.
    pub const BLANK: LinkEntry = LinkEntry {
        supplier: 0,
        shipper: 0,
    };
}

// Parties by their numbers, and one party's entries by their roles' numbers.
impl Keyed for PartyEntry {
    type Key = (u16, u8);

    ghost own = { party_key };

    ghost exact = { exact_pairs nat_cmp nat_cmp exact_unsigned exact_unsigned };

    fn key(&self) -> (u16, u8) {
        (self.number, u8::from(self.role))
    }
}

// Links by their suppliers, and one supplier's links by their shippers.
impl Keyed for LinkEntry {
    type Key = (u16, u16);

    ghost own = { link_key };

    ghost exact = { exact_pairs nat_cmp nat_cmp exact_unsigned exact_unsigned };

    fn key(&self) -> (u16, u16) {
        (self.supplier, self.shipper)
    }
}
