// The directory over two slices that the caller lends: one for parties in roles, one for links.
ghost use Rattle.std.specs.Prelude.{◌≡◌, true, false, [], length, is_ok};
ghost use Rattle.directory.specs.Additions.{party_answer, link_answer, PartyAdded, LinkAdded};
ghost use Rattle.directory.specs.Entries.{entry_of, link_key, linked_in, parties_of, party_key, qualified_in, sanctioned_in};
ghost use Rattle.market.specs.Numbers.{role_number};
ghost use Rattle.tables.specs.Orders.{pair_cmp};
ghost use Rattle.tables.specs.Tables.{Sound};

use crate::entries::{LinkEntry, PartyEntry};
use market::{Directory, NewLink, NewParty, Refusal, Role};
use tables::OrderedTable;

#[derive(Drop)]
pub struct PartyBook<'a, 'b> {
    parties: OrderedTable<'a, PartyEntry>,
    links: OrderedTable<'b, LinkEntry>,
}

impl<'a, 'b> PartyBook<'a, 'b> {
    // A directory in which nobody is listed, with places for as many as the slices are long.
    pub fn new(parties: &'a mut [PartyEntry], links: &'b mut [LinkEntry]) -> Self
        ensures empty { (result.parties.items ≡ []) × (result.links.items ≡ []) }
        ensures sizes { (result.parties.size ≡ length parties.old) × (result.links.size ≡ length links.old) }
    {
        PartyBook {
            parties: OrderedTable::new(parties),
            links: OrderedTable::new(links),
        }
    }

    fn entry(&self, party: u16, role: Role) -> Option<PartyEntry>
        ensures value { result ≡ entry_of self.now.parties.items party (role_number role) }
        ensures sound { Sound party_key pair_cmp self.now.parties }
    {
        self.parties.read((party, u8::from(role)))
    }

    // Lists a party in a role.
    pub fn add_party(&mut self, new: NewParty) -> Result<(), Refusal>
        ensures value { result ≡ party_answer self.old.parties.items self.old.parties.size new }
        ensures after { PartyAdded new self.old.parties.items (is_ok result) self.new.parties.items }
        ensures refused { is_ok result ≡ false → self.new ≡ self.old }
        ensures same { self.new.links ≡ self.old.links }
        ensures sizes { self.new.parties.size ≡ self.old.parties.size }
        ensures sound { is_ok result ≡ true → Sound party_key pair_cmp self.new.parties }
    {
        let entry = PartyEntry::try_from(new)?;
        self.parties.add(entry)?;
        Ok(())
    }

    // Lists that the shipper ships for the supplier.
    pub fn add_link(&mut self, new: NewLink) -> Result<(), Refusal>
        ensures value { result ≡ link_answer self.old.links.items self.old.links.size new }
        ensures after { LinkAdded new self.old.links.items (is_ok result) self.new.links.items }
        ensures refused { is_ok result ≡ false → self.new ≡ self.old }
        ensures same { self.new.parties ≡ self.old.parties }
        ensures sizes { self.new.links.size ≡ self.old.links.size }
        ensures sound { is_ok result ≡ true → Sound link_key pair_cmp self.new.links }
    {
        let link = LinkEntry::try_from(new)?;
        self.links.add(link)?;
        Ok(())
    }
}

impl<'a, 'b> Directory for PartyBook<'a, 'b> {
    ghost parties = { λ s. parties_of s.parties.items s.links.items };

    fn is_qualified(&self, party: u16, role: Role) -> bool
        ensures value { result ≡ qualified_in self.now.parties.items party (role_number role) }
        ensures sound { Sound party_key pair_cmp self.now.parties }
    {
        self.entry(party, role).is_some_and(|entry| entry.qualified)
    }

    fn is_sanctioned(&self, party: u16, role: Role) -> bool
        ensures value { result ≡ sanctioned_in self.now.parties.items party (role_number role) }
        ensures sound { Sound party_key pair_cmp self.now.parties }
    {
        self.entry(party, role)
            .is_some_and(|entry| entry.sanctioned)
    }

    fn is_linked(&self, supplier: u16, shipper: u16) -> bool
        ensures value { result ≡ linked_in self.now.links.items supplier shipper }
        ensures sound { Sound link_key pair_cmp self.now.links }
    {
        self.links.read((supplier, shipper)).is_some()
    }
}
