// Parties in a directory of one or two places.
use directory::{LinkEntry, PartyBook, PartyEntry};
use market::{Directory, NewLink, NewParty, Refusal, Role};

fn refused(answer: Result<(), Refusal>, row: u8) -> bool {
    match answer {
        Ok(()) => false,
        Err(refusal) => u8::from(refusal) == row,
    }
}

fn party(number: u64, role: u64, qualified: u64, sanctioned: u64) -> NewParty {
    NewParty {
        number,
        role,
        qualified,
        sanctioned,
    }
}

fn link(supplier: u64, shipper: u64) -> NewLink {
    NewLink { supplier, shipper }
}

#[test]
fn a_party_is_listed_by_role(rt: HostRuntime) {
    let mut parties = [PartyEntry::BLANK; 2];
    let mut links = [LinkEntry::BLANK; 1];
    let mut book = PartyBook::new(&mut parties, &mut links);
    assert!(rt; book.add_party(party(65535, 8, 1, 1)).is_ok());
    assert!(rt; book.add_party(party(65535, 1, 0, 1)).is_ok());
    assert!(rt; book.is_qualified(65535, Role::Map) && !book.is_qualified(65535, Role::Gainer));
    assert!(rt; book.is_sanctioned(65535, Role::Gainer) && !book.is_sanctioned(1, Role::Gainer));
}

#[test]
fn refusals_come_in_order(rt: HostRuntime) {
    let mut parties = [PartyEntry::BLANK; 1];
    let mut links = [LinkEntry::BLANK; 0];
    let mut book = PartyBook::new(&mut parties, &mut links);
    assert!(rt; book.add_party(party(5, 3, 1, 0)).is_ok());
    assert!(rt; refused(book.add_party(party(5, 2, 1, 0)), 1));
    assert!(rt; refused(book.add_party(party(5, 3, 0, 0)), 5));
    assert!(rt; refused(book.add_party(party(6, 3, 1, 0)), 6));
    assert!(rt; refused(book.add_link(link(5, 65536)), 1));
    assert!(rt; refused(book.add_link(link(5, 6)), 6));
}
