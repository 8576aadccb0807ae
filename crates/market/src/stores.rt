// What the engine is built on, by meaning and not by make: a register of points, a calendar of
// working days, an outbox of notices and a directory of parties.
ghost use Rattle.std.specs.Prelude.{◌≡◌, ℕ, ◌-◌, ◌≤◌, Bool, true, [], ◌∷◌, ◌++◌, is_ok, IfSome, if◌then◌else◌, None, nat_lt};
ghost use Rattle.market.specs.Looks.{LowestFrom};
ghost use Rattle.market.specs.Stores.{Registered, Queue, Parties, Added, Replaced};
ghost use Rattle.market.specs.Waits.{oldest, others};

use crate::notices::{Notice, Role};
use crate::points::Point;
use crate::refusals::{Absent, AddError, OutboxFull};

// A set of points, no two of one number, with a place for some of the absent numbers.
pub trait Register {
    ghost known: { Self → Registered };

    // The point with this number, or nothing.
    fn read(&self, number: u64) -> Option<Point>
        ensures value { result ≡ (known self.now).look number }
        ensures named { IfSome result (λ p. p.number ≡ number) };

    // The lowest point at or above the number.
    fn lowest_from(&self, number: u64) -> Option<Point>
        ensures { LowestFrom (known self.now).look number result };

    // Whether the number is absent and has a place.
    fn has_place(&self, number: u64) -> bool
        ensures value { result ≡ (known self.now).place number }
        ensures absent { result ≡ true → (known self.now).look number ≡ None };

    // Joins a new point where its place exists; after that a place may be gone, but none appears.
    fn add(&mut self, point: Point) -> Result<(), AddError>
        ensures { Added point result (known self.old) (known self.new) };

    // Puts the point in the place of the one of its number; an absent number is refused.
    fn replace(&mut self, point: Point) -> Result<(), Absent>
        ensures { Replaced point result (known self.old) (known self.new) };
}

// A set of working days.
pub trait Calendar {
    ghost works: { Self → ℕ → Bool };

    fn works(&self, day: u32) -> bool
        ensures { result ≡ works self.now day };
}

// Waiting notices, a count of free places and a fixed size. How many places a taking frees is open.
pub trait Outbox {
    ghost queue: { Self → Queue };

    // How many places are free.
    fn free(&self) -> usize
        ensures value { result ≡ (queue self.now).room }
        ensures empty { (queue self.now).waiting ≡ [] → (queue self.now).room ≡ (queue self.now).size };

    // Puts the notice at the end, where a place is free.
    fn put(&mut self, notice: Notice) -> Result<(), OutboxFull>
        ensures value { is_ok result ≡ nat_lt 0 (queue self.old).room }
        ensures after { (queue self.new).waiting ≡ (if is_ok result then (queue self.old).waiting ++ notice ∷ [] else (queue self.old).waiting) }
        ensures left { (queue self.new).room ≡ (queue self.old).room - 1 }
        ensures size { (queue self.new).size ≡ (queue self.old).size };

    // Hands out the oldest notice, or nothing where none waits.
    fn take(&mut self) -> Option<Notice>
        ensures value { result ≡ oldest (queue self.old).waiting }
        ensures after { (queue self.new).waiting ≡ others (queue self.old).waiting }
        ensures left { (queue self.old).room ≤ (queue self.new).room }
        ensures empty { (queue self.new).waiting ≡ [] → (queue self.new).room ≡ (queue self.new).size }
        ensures size { (queue self.new).size ≡ (queue self.old).size };
}

// Parties in roles, and which shippers ship for which suppliers.
pub trait Directory {
    ghost parties: { Self → Parties };

    fn is_qualified(&self, party: u16, role: Role) -> bool
        ensures { result ≡ (parties self.now).qualified party role };

    fn is_sanctioned(&self, party: u16, role: Role) -> bool
        ensures { result ≡ (parties self.now).sanctioned party role };

    fn is_linked(&self, supplier: u16, shipper: u16) -> bool
        ensures { result ≡ (parties self.now).linked supplier shipper };
}

// A register that is lent serves as one.
impl<R: Register> Register for &mut R {
    ghost known = { λ s. R.known s.now };

    fn read(&self, number: u64) -> Option<Point> {
        (**self).read(number)
    }

    fn lowest_from(&self, number: u64) -> Option<Point> {
        (**self).lowest_from(number)
    }

    fn has_place(&self, number: u64) -> bool {
        (**self).has_place(number)
    }

    fn add(&mut self, point: Point) -> Result<(), AddError> {
        (**self).add(point)
    }

    fn replace(&mut self, point: Point) -> Result<(), Absent> {
        (**self).replace(point)
    }
}

// A calendar that is lent serves as one.
impl<C: Calendar> Calendar for &C {
    ghost works = { λ s. C.works s.now };

    fn works(&self, day: u32) -> bool {
        (**self).works(day)
    }
}

// An outbox that is lent serves as one.
impl<O: Outbox> Outbox for &mut O {
    ghost queue = { λ s. O.queue s.now };

    fn free(&self) -> usize {
        (**self).free()
    }

    fn put(&mut self, notice: Notice) -> Result<(), OutboxFull> {
        (**self).put(notice)
    }

    fn take(&mut self) -> Option<Notice> {
        (**self).take()
    }
}
