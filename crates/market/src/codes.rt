// The sixteen bytes of a notice: point (8), moment (4), party (2), kind and role, highest byte first.
ghost use Rattle.std.specs.Prelude.{◌≡◌, Decides, MatchResult, ◌≢◌};
ghost use Rattle.market.specs.declared.notices.Notice.{Notice as Notified};
ghost use Rattle.market.specs.declared.refusals.Refusal.TheVariants as row;
ghost use Rattle.market.specs.Blanks.{blank};
ghost use Rattle.market.specs.Codes.{bytes_of, read_of, Valid};

use crate::limits::{LAST_MOMENT, is_point};
use crate::notices::{Notice, NoticeKind, Role};
use crate::refusals::Refusal;

impl Notice {
    // What stands in a place that no notice has taken.
    pub const BLANK: Notice = Notice {
        point: 0,
        moment: 0,
        party: 0,
        kind: NoticeKind::Validated,
        role: Role::Gainer,
    };
}

// No derive: it would name what a blank notice is a second time.
impl Default for Notice {
    ghost is_default = { λ notice. notice ≡ blank };

    fn default() -> Notice {
        Notice::BLANK
    }
}

impl From<Notice> for [u8; 16] {
    // Read, they are the notice again.
    ghost from_gives = { λ notice bytes. (bytes ≡ bytes_of notice) × (read_of bytes ≡ notice) };

    fn from(notice: Notice) -> [u8; 16] {
        let [a, b, c, d, e, f, g, h] = notice.point.to_be_bytes();
        let [i, j, k, l] = notice.moment.to_be_bytes();
        let [m, n] = notice.party.to_be_bytes();
        let (kind, role) = (u8::from(notice.kind), u8::from(notice.role));
        [a, b, c, d, e, f, g, h, i, j, k, l, m, n, kind, role]
    }
}

// The notice within its limits that has these bytes; refused exactly where none has them.
impl<'a> TryFrom<&'a [u8]> for Notice {
    type Error = Refusal;

    ghost try_from_gives = { λ bytes result. MatchResult result (λ n. Valid n × (bytes_of n ≡ bytes.now)) (λ e. (e ≡ row.NotANotice) × ((n : Notified) → Valid n → bytes_of n ≢ bytes.now)) };

    fn try_from(bytes: &'a [u8]) -> Result<Notice, Refusal> {
        // No `?`: the error of a wrong length would have to be thrown away by a closure first.
        let Ok(code) = <[u8; 16]>::try_from(bytes) else {
            return Err(Refusal::NotANotice);
        };
        let notice = Notice::read(code);
        // Bytes that name no kind or no role are not those of the notice that they are read as.
        if notice.is_valid() && <[u8; 16]>::from(notice) == code {
            Ok(notice)
        } else {
            Err(Refusal::NotANotice)
        }
    }
}

impl Notice {
    // What sixteen bytes are read as, whatever they are: a kind or role that does not exist as the first one. No
    // `From`: bytes that are no notice's are read, too.
    pub fn read(code: [u8; 16]) -> Notice
        ensures { result ≡ read_of code }
    {
        let [a, b, c, d, e, f, g, h, i, j, k, l, m, n, kind, role] = code;
        Notice {
            point: u64::from_be_bytes([a, b, c, d, e, f, g, h]),
            moment: u32::from_be_bytes([i, j, k, l]),
            party: u16::from_be_bytes([m, n]),
            kind: NoticeKind::try_from(u64::from(kind)).unwrap_or(NoticeKind::Validated),
            role: Role::try_from(u64::from(role)).unwrap_or(Role::Gainer),
        }
    }

    // Whether its numbers keep their limits, and it has a party exactly where its role is not a central service's.
    pub fn is_valid(self) -> bool
        ensures { Decides result (Valid self) }
    {
        is_point(self.point)
            && self.moment <= LAST_MOMENT
            && (self.party == 0) == self.role.is_central()
    }
}
