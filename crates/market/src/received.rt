// What is received with numbers that may be anything: none of them is checked yet.

// A new point: fuel and status by their numbers, domestic 1 for yes and 0 for no.
#[derive(Clone, Copy, Debug, PartialEq, Eq)]
pub struct NewPoint {
    pub number: u64,
    pub fuel: u64,
    pub domestic: u64,
    pub status: u64,
}

// A request for the supply of a point from the day `start` on; shipper 0 for none.
#[derive(Clone, Copy, Debug, PartialEq, Eq)]
pub struct NewRequest {
    pub point: u64,
    pub gainer: u64,
    pub shipper: u64,
    pub start: u64,
}

// A party in a role, by the role's number; the last two 1 for yes and 0 for no.
#[derive(Clone, Copy, Debug, PartialEq, Eq)]
pub struct NewParty {
    pub number: u64,
    pub role: u64,
    pub qualified: u64,
    pub sanctioned: u64,
}

// The shipper ships for the supplier.
#[derive(Clone, Copy, Debug, PartialEq, Eq)]
pub struct NewLink {
    pub supplier: u64,
    pub shipper: u64,
}
