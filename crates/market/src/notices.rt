// A notice to a party of the market.
ghost use Rattle.std.specs.Prelude.{◌≡◌, nat_lt};
ghost use Rattle.std.specs.Option.{ok_or};
ghost use Rattle.market.specs.Numbers.{role_number, notice_kind_number, role_of, notice_kind_of, unknown};

use crate::refusals::UnknownNumber;

// In what role a notice reaches its receiver. The last five are central services and have no party number.
#[derive(Clone, Copy, Debug, PartialEq, Eq)]
pub enum Role {
    Gainer = 1,
    Supplier = 2,
    GainingShipper = 3,
    Shipper = 4,
    Mem = 5,
    Dc = 6,
    Da = 7,
    Map = 8,
    Dcc = 9,
    Des = 10,
    GasAgent = 11,
    Ecoes = 12,
    ElectricityAgent = 13,
}

impl Role {
    // The thirteen roles, rising.
    pub const ALL: [Role; 13] = [
        Role::Gainer,
        Role::Supplier,
        Role::GainingShipper,
        Role::Shipper,
        Role::Mem,
        Role::Dc,
        Role::Da,
        Role::Map,
        Role::Dcc,
        Role::Des,
        Role::GasAgent,
        Role::Ecoes,
        Role::ElectricityAgent,
    ];

    // Whether it is a central service's.
    pub fn is_central(self) -> bool
        ensures { result ≡ nat_lt 8 (role_number self) }
    {
        matches!(
            self,
            Role::Dcc | Role::Des | Role::GasAgent | Role::Ecoes | Role::ElectricityAgent
        )
    }
}

// The number of the role.
impl From<Role> for u8 {
    ghost from_gives = { λ role number. number ≡ role_number role };

    fn from(role: Role) -> u8 {
        role as u8
    }
}

// The role with this number.
impl TryFrom<u64> for Role {
    type Error = UnknownNumber;

    ghost try_from_gives = { λ number result. result ≡ ok_or (role_of number) unknown };

    fn try_from(number: u64) -> Result<Role, UnknownNumber> {
        match number {
            1 => Ok(Role::Gainer),
            2 => Ok(Role::Supplier),
            3 => Ok(Role::GainingShipper),
            4 => Ok(Role::Shipper),
            5 => Ok(Role::Mem),
            6 => Ok(Role::Dc),
            7 => Ok(Role::Da),
            8 => Ok(Role::Map),
            9 => Ok(Role::Dcc),
            10 => Ok(Role::Des),
            11 => Ok(Role::GasAgent),
            12 => Ok(Role::Ecoes),
            13 => Ok(Role::ElectricityAgent),
            _ => Err(UnknownNumber),
        }
    }
}

#[derive(Clone, Copy, Debug, PartialEq, Eq)]
pub enum NoticeKind {
    Validated = 1,
    Invitation = 2,
    Confirmed = 3,
    Rejected = 4,
    Withdrawn = 5,
    Annulled = 6,
    Cancelled = 7,
    Secured = 8,
    Deregistered = 9,
    MemAppointed = 10,
}

// The number of the kind.
impl From<NoticeKind> for u8 {
    ghost from_gives = { λ kind number. number ≡ notice_kind_number kind };

    fn from(kind: NoticeKind) -> u8 {
        kind as u8
    }
}

// The kind with this number.
impl TryFrom<u64> for NoticeKind {
    type Error = UnknownNumber;

    ghost try_from_gives = { λ number result. result ≡ ok_or (notice_kind_of number) unknown };

    fn try_from(number: u64) -> Result<NoticeKind, UnknownNumber> {
        match number {
            1 => Ok(NoticeKind::Validated),
            2 => Ok(NoticeKind::Invitation),
            3 => Ok(NoticeKind::Confirmed),
            4 => Ok(NoticeKind::Rejected),
            5 => Ok(NoticeKind::Withdrawn),
            6 => Ok(NoticeKind::Annulled),
            7 => Ok(NoticeKind::Cancelled),
            8 => Ok(NoticeKind::Secured),
            9 => Ok(NoticeKind::Deregistered),
            10 => Ok(NoticeKind::MemAppointed),
            _ => Err(UnknownNumber),
        }
    }
}

#[derive(Clone, Copy, Debug, PartialEq, Eq)]
pub struct Notice {
    pub point: u64,
    // The clock after the change that owes the notice.
    pub moment: u32,
    // The receiver's number, 0 for a central service. No Option: `Some(0)` would be a second value of
    // the same bytes, and what was written would not be what is read back.
    pub party: u16,
    pub kind: NoticeKind,
    pub role: Role,
}
