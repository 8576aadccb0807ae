// An outbox over places, used as a ring.
ghost use Rattle.std.specs.Prelude.{◌≡◌, ◌+◌, ◌-◌, ◌%◌, ◌/◌, ◌<◌, ◌≤◌, [], ◌∷◌, ◌++◌, length, is_ok, nat_lt, if◌then◌else◌};
ghost use Rattle.market.specs.Waits.{oldest, others};
ghost use Rattle.outboxes.specs.Rings.{empty};

use crate::cells::Cells;
use crate::places::Places;
use crate::slots::Slots;
use market::{Notice, Outbox, OutboxFull};
use std::marker::Model;

// `count` notices wait, from the place `first` on and round at the end. What the other places hold does
// not matter. No heap here: the memory is what the caller lends.
#[derive(Drop)]
pub struct Ring<P: Places> {
    places: P,
    first: usize,
    count: usize,
}

// A clause sees the outbox, and not where its first place is.
impl<P: Places> Model for Ring<P> {
    ghost use Rattle.std.specs.Prelude.{◌-◌, ◌≤◌, length};
    ghost use Rattle.market.specs.Stores.{Queue};
    ghost use Rattle.outboxes.specs.Rings.{queue_of};

    ghost Value = { Queue };

    ghost view = { λ r. queue_of (P.notices r.places) r.first r.count };

    ghost invariant = { λ r. (r.first ≤ length (P.notices r.places) - 1) × (r.count ≤ length (P.notices r.places)) };
}

// An outbox over lent notices.
pub type PlaceRing<'a> = Ring<Slots<'a>>;

// An outbox over lent bytes.
pub type ByteRing<'a> = Ring<Cells<'a>>;

impl<P: Places> Ring<P> {
    // An empty outbox with all the places; with none it refuses every notice.
    pub(crate) fn over(places: P) -> Self
        ensures { result ≡ empty (length (P.notices places)) }
    {
        Ring {
            places,
            first: 0,
            count: 0,
        }
    }
}

impl<'a> Ring<Slots<'a>> {
    // An empty outbox with a place for each of the notices.
    pub fn new(notices: &'a mut [Notice]) -> Self
        ensures { result ≡ empty (length notices.old) }
    {
        Ring::over(Slots::new(notices))
    }
}

impl<'a> Ring<Cells<'a>> {
    // An empty outbox with a place for each sixteen bytes.
    #[tactic(auto, using(crate::proofs::Written::records_count))]
    pub fn new(bytes: &'a mut [u8]) -> Self
        ensures { result ≡ empty (length bytes.old / 16) }
    {
        Ring::over(Cells::new(bytes))
    }
}

impl<P: Places> Outbox for Ring<P> {
    ghost queue = { λ s. s };

    // As any outbox, here and below; and the free places are the size less the waiting notices.
    #[tactic(auto, using(crate::proofs::Rolls::counts))]
    fn free(&self) -> usize
        ensures value { result ≡ self.now.room }
        ensures empty { self.now.waiting ≡ [] → self.now.room ≡ self.now.size }
        ensures exact { self.now.room + length self.now.waiting ≡ self.now.size }
    {
        self.places.len() - self.count
    }

    #[tactic(auto, using(crate::proofs::Rolls::puts))]
    fn put(&mut self, notice: Notice) -> Result<(), OutboxFull>
        ensures value { is_ok result ≡ nat_lt 0 self.old.room }
        ensures after { self.new.waiting
            ≡ (if is_ok result then self.old.waiting ++ notice ∷ [] else self.old.waiting) }
        ensures left { self.new.room ≡ self.old.room - 1 }
        ensures size { self.new.size ≡ self.old.size }
        ensures exact { self.new.room + length self.new.waiting ≡ self.new.size }
    {
        if self.count >= self.places.len() {
            return Err(OutboxFull);
        }
        let at = place(self.first, self.count, self.places.len());
        self.places.set(at, notice);
        self.count += 1;
        Ok(())
    }

    #[tactic(auto, using(crate::proofs::Rolls::takes))]
    fn take(&mut self) -> Option<Notice>
        ensures value { result ≡ oldest self.old.waiting }
        ensures after { self.new.waiting ≡ others self.old.waiting }
        ensures left { self.old.room ≤ self.new.room }
        ensures empty { self.new.waiting ≡ [] → self.new.room ≡ self.new.size }
        ensures size { self.new.size ≡ self.old.size }
        ensures exact { self.new.room + length self.new.waiting ≡ self.new.size }
    {
        let left = self.count.checked_sub(1)?;
        let notice = self.places.get(self.first);
        self.first = place(self.first, 1, self.places.len());
        self.count = left;
        Some(notice)
    }
}

// The place so many places after the first, and round at the end of a ring of the size.
fn place(first: usize, after: usize, size: usize) -> usize
    requires start { first < size }
    requires within { after ≤ size }
    ensures { result ≡ (first + after) % size }
{
    // How many places there are before the ring turns.
    let ahead = size - first;
    if after < ahead {
        first + after
    } else {
        after - ahead
    }
}
