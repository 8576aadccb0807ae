// The sixteen bytes of a notice, and bytes that are not one's.
use market::{Notice, NoticeKind, Role};

const SECURED: [u8; 16] = [0, 0, 0, 0, 0, 0, 0, 7, 0, 0, 3, 0xfc, 0, 0, 8, 9];

#[test]
fn secured_to_the_dcc(rt: HostRuntime) {
    let notice = Notice {
        point: 7,
        moment: 1020,
        party: 0,
        kind: NoticeKind::Secured,
        role: Role::Dcc,
    };
    assert!(rt; <[u8; 16]>::from(notice) == SECURED);
    assert!(rt; matches!(Notice::try_from(&SECURED[..]), Ok(read) if read == notice));
}

// A byte too few, kind 11, role 14, a central service with a party, point 0, and a moment past the last.
#[test]
fn refused(rt: HostRuntime) {
    assert!(rt; Notice::try_from(&SECURED[0..15]).is_err());
    assert!(rt;
        Notice::try_from(&[0, 0, 0, 0, 0, 0, 0, 7, 0, 0, 3, 0xfc, 0, 0, 11, 9][..]).is_err()
    );
    assert!(rt;
        Notice::try_from(&[0, 0, 0, 0, 0, 0, 0, 7, 0, 0, 3, 0xfc, 0, 0, 8, 14][..]).is_err()
    );
    assert!(rt;
        Notice::try_from(&[0, 0, 0, 0, 0, 0, 0, 7, 0, 0, 3, 0xfc, 0, 1, 8, 9][..]).is_err()
    );
    assert!(rt;
        Notice::try_from(&[0, 0, 0, 0, 0, 0, 0, 0, 0, 0, 3, 0xfc, 0, 0, 8, 9][..]).is_err()
    );
    assert!(rt;
        Notice::try_from(&[0, 0, 0, 0, 0, 0, 0, 7, 0x08, 0x95, 0x44, 0, 0, 0, 8, 9][..]).is_err()
    );
}
