// Two registers as one: the first holds below a bound and the second from the bound up.
ghost use Rattle.std.specs.Prelude.{◌≡◌, true, false, nat_lt};
ghost use Rattle.market.specs.Stores.{Added, Replaced};
ghost use Rattle.registers.specs.Splits.{known_of};

use market::{Absent, AddError, Point, Register};

// What the first holds from the bound up, and the second below it, is not seen.
#[derive(Drop)]
pub struct Split<A: Register, B: Register> {
    first: A,
    second: B,
    bound: u64,
}

impl<A: Register, B: Register> Split<A, B> {
    // The two as they stand, parted at the bound.
    pub fn new(first: A, second: B, bound: u64) -> Self
        ensures first { result.first ≡ first }
        ensures second { result.second ≡ second }
        ensures bound { result.bound ≡ bound }
    {
        Split {
            first,
            second,
            bound,
        }
    }

    // Whether the number falls to the first.
    fn is_below(&self, number: u64) -> bool
        ensures { result ≡ nat_lt number self.now.bound }
    {
        number < self.bound
    }
}

impl<A: Register, B: Register> Register for Split<A, B> {
    ghost known = { known_of A.Register.known B.Register.known };

    fn read(&self, number: u64) -> Option<Point> {
        if self.is_below(number) {
            self.first.read(number)
        } else {
            self.second.read(number)
        }
    }

    // The lowest of the first may stand at the bound or above, and then it is not seen.
    fn lowest_from(&self, number: u64) -> Option<Point> {
        if !self.is_below(number) {
            return self.second.lowest_from(number);
        }
        match self.first.lowest_from(number) {
            Some(point) if self.is_below(point.number) => Some(point),
            _ => self.second.lowest_from(self.bound),
        }
    }

    fn has_place(&self, number: u64) -> bool {
        if self.is_below(number) {
            self.first.has_place(number)
        } else {
            self.second.has_place(number)
        }
    }

    // As any register; and the other of the two stays, also where it is not seen.
    fn add(&mut self, point: Point) -> Result<(), AddError>
        ensures added { Added point result (known_of A.known B.known self.old) (known_of A.known B.known self.new) }
        ensures second { nat_lt point.number self.old.bound ≡ true → self.new.second ≡ self.old.second }
        ensures first { nat_lt point.number self.old.bound ≡ false → self.new.first ≡ self.old.first }
        ensures bound { self.new.bound ≡ self.old.bound }
    {
        if self.is_below(point.number) {
            self.first.add(point)
        } else {
            self.second.add(point)
        }
    }

    fn replace(&mut self, point: Point) -> Result<(), Absent>
        ensures replaced { Replaced point result (known_of A.known B.known self.old) (known_of A.known B.known self.new) }
        ensures second { nat_lt point.number self.old.bound ≡ true → self.new.second ≡ self.old.second }
        ensures first { nat_lt point.number self.old.bound ≡ false → self.new.first ≡ self.old.first }
        ensures bound { self.new.bound ≡ self.old.bound }
    {
        if self.is_below(point.number) {
            self.first.replace(point)
        } else {
            self.second.replace(point)
        }
    }
}
