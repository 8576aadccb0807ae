// Notices in a ring of bytes.
use market::{Notice, NoticeKind, Outbox, OutboxFull, Role};
use outboxes::ByteRing;

fn secured(point: u64) -> Notice {
    Notice {
        point,
        moment: 1020,
        party: 0,
        kind: NoticeKind::Secured,
        role: Role::Dcc,
    }
}

#[test]
fn lies_in_its_bytes(rt: HostRuntime) {
    let mut bytes = [0u8; 16];
    let mut outbox = ByteRing::new(&mut bytes);
    assert!(rt; outbox.put(secured(7)).is_ok());
    assert!(rt; bytes == [0, 0, 0, 0, 0, 0, 0, 7, 0, 0, 3, 252, 0, 0, 8, 9]);
}

// 47 bytes are two places, which serve a third notice once the first has gone.
#[test]
fn goes_round(rt: HostRuntime) {
    let mut bytes = [0u8; 47];
    let mut outbox = ByteRing::new(&mut bytes);
    assert!(rt; outbox.put(secured(1)).is_ok() && outbox.put(secured(2)).is_ok());
    assert!(rt; outbox.put(secured(3)) == Err(OutboxFull));
    assert!(rt; outbox.take() == Some(secured(1)));
    assert!(rt; outbox.put(secured(3)).is_ok() && outbox.free() == 0);
    assert!(rt; outbox.take() == Some(secured(2)));
    assert!(rt; outbox.take() == Some(secured(3)) && outbox.free() == 2);
}
