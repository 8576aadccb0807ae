// Points by their numbers.
ghost use Rattle.tables.specs.Points.{number_of};
ghost use Rattle.std.proofs.lemmas.Map.Lookups.{exact_unsigned};

use crate::Keyed;
use market::Point;

impl Keyed for Point {
    type Key = u64;

    ghost own = { number_of };

    ghost exact = { exact_unsigned };

    fn key(&self) -> u64 {
        self.number
    }
}
