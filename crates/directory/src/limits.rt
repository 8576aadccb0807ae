// From numbers as received to an entry; refused where one of them is outside its limits.
ghost use Rattle.std.specs.Prelude.{◌≡◌, true, MatchResult};
ghost use Rattle.market.specs.Numbers.{role_number};
ghost use Rattle.market.specs.Limits.{is_party};
ghost use Rattle.directory.specs.Limits.{is_listable, party_within, link_within, PartyRead, LinkRead, Outside};

use crate::entries::{LinkEntry, PartyEntry};
use market::limits::{party, yes_no};
use market::{NewLink, NewParty, Refusal, Role};

// The entry that the numbers stand for.
impl TryFrom<NewParty> for PartyEntry {
    type Error = Refusal;

    ghost try_from_gives = { λ new result. MatchResult result (PartyRead new) (Outside (party_within new)) };

    fn try_from(new: NewParty) -> Result<PartyEntry, Refusal> {
        Ok(PartyEntry {
            number: party_number(new.number)?,
            role: listable_role(new.role)?,
            qualified: yes_no(new.qualified)?,
            sanctioned: yes_no(new.sanctioned)?,
        })
    }
}

// The link that the numbers stand for.
impl TryFrom<NewLink> for LinkEntry {
    type Error = Refusal;

    ghost try_from_gives = { λ new result. MatchResult result (LinkRead new) (Outside (link_within new)) };

    fn try_from(new: NewLink) -> Result<LinkEntry, Refusal> {
        Ok(LinkEntry {
            supplier: party_number(new.supplier)?,
            shipper: party_number(new.shipper)?,
        })
    }
}

// No `TryFrom` here and below: the types are std's or another crate's.
fn party_number(number: u64) -> Result<u16, Refusal>
    ensures { MatchResult result (λ n. (is_party number ≡ true) × (n ≡ number)) (Outside (is_party number)) }
{
    party(number)?.ok_or(Refusal::OutsideLimits)
}

// The roles that a party can be listed in.
fn listable_role(number: u64) -> Result<Role, Refusal>
    ensures { MatchResult result (λ x. (is_listable number ≡ true) × (role_number x ≡ number)) (Outside (is_listable number)) }
{
    match Role::try_from(number)? {
        role @ (Role::Gainer
        | Role::GainingShipper
        | Role::Mem
        | Role::Dc
        | Role::Da
        | Role::Map) => Ok(role),
        _ => Err(Refusal::OutsideLimits),
    }
}
