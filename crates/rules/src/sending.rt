// The notices that a change owes.
ghost use Rattle.std.specs.Prelude.{◌≡◌, true};
ghost use Rattle.rules.specs.Notices.{reaches, needs_supplier, party_in, notice_to, mailed};
ghost use Rattle.rules.specs.Lists.{ListsStand};
ghost use Rattle.rules.specs.Owing.{listed};

use crate::owed::Owed;
use market::{Fuel, Notice, NoticeKind, Point, Request, Role};

// Who hears of a change.
#[derive(Clone, Copy, Debug, PartialEq, Eq)]
pub enum Audience {
    Validation,
    Confirmation,
    Securing,
    Deregistration,
}

impl Audience {
    // Whether the role stands on the list.
    pub fn reaches(self, fuel: Fuel, role: Role) -> bool
        ensures { result ≡ reaches self fuel role }
    {
        let gas = fuel == Fuel::Gas;
        let gainer = self != Audience::Deregistration;
        let agents = self != Audience::Validation;
        match role {
            Role::Supplier | Role::Dcc => true,
            Role::Gainer => gainer,
            Role::GainingShipper => gainer && gas,
            Role::Shipper | Role::Des | Role::GasAgent => gas,
            Role::Mem => agents,
            Role::Dc | Role::Da => agents && !gas,
            Role::Map => matches!(self, Audience::Securing | Audience::Deregistration),
            Role::Ecoes | Role::ElectricityAgent => !gas,
        }
    }
}

// A change to tell of: the point as it was before, the request it concerns, and the clock after.
#[derive(Clone, Copy, Debug, PartialEq, Eq)]
pub struct Mailing {
    pub kind: NoticeKind,
    pub audience: Audience,
    pub point: Point,
    pub request: Option<Request>,
    pub moment: u32,
}

// Whether the role drops out where nobody is registered.
fn needs_supplier(role: Role) -> bool
    ensures { result ≡ needs_supplier role }
{
    matches!(
        role,
        Role::Supplier | Role::Shipper | Role::Mem | Role::Dc | Role::Da
    )
}

// Who holds the role; a central service has the number 0.
fn party_in(point: Point, request: Option<Request>, role: Role) -> Option<u16>
    ensures { result ≡ party_in point request role }
{
    match role {
        Role::Gainer => Some(request?.gainer),
        Role::Supplier => point.supplier,
        Role::GainingShipper => request?.shipper,
        Role::Shipper => point.shipper,
        Role::Mem => point.mem,
        Role::Dc => point.dc,
        Role::Da => point.da,
        Role::Map => point.map,
        Role::Dcc | Role::Des | Role::GasAgent | Role::Ecoes | Role::ElectricityAgent => Some(0),
    }
}

impl Mailing {
    fn notice_to(self, role: Role) -> Option<Notice>
        ensures { result ≡ notice_to self role }
    {
        let point = self.point;
        if !self.audience.reaches(point.fuel, role) {
            return None;
        }
        if needs_supplier(role) && point.supplier.is_none() {
            return None;
        }
        let party = party_in(point, self.request, role)?;
        Some(Notice {
            point: point.number,
            moment: self.moment,
            party,
            kind: self.kind,
            role,
        })
    }

    // All that the mailing owes, roles rising.
    pub fn owed(self) -> Owed
        ensures { listed result ≡ mailed self }
    {
        let mut owed = Owed::none();
        for role in Role::ALL {
            if let Some(notice) = self.notice_to(role) {
                owed.push(notice);
            }
        }
        owed
    }
}

// That the lists are, role by role, the ones that the market agreed on. It only carries its promise.
pub fn lists_stand() -> bool
    ensures stand { ListsStand }
    ensures value { result ≡ true }
{
    true
}
