// Points in the order of their numbers, in a slice that the caller lends.
ghost use Rattle.std.specs.Prelude.{◌≡◌, true, [], length, None};
ghost use Rattle.std.specs.Ordering.{nat_cmp};
ghost use Rattle.market.specs.Stores.{Added, Replaced};
ghost use Rattle.registers.specs.Points.{place_in, point_in, points_of};
ghost use Rattle.tables.specs.Points.{number_of};
ghost use Rattle.tables.specs.Tables.{Sound};

use market::{Absent, AddError, Point, Register};
use tables::OrderedTable;

#[derive(Drop)]
pub struct PointTable<'a> {
    table: OrderedTable<'a, Point>,
}

impl<'a> PointTable<'a> {
    // A register with no point, and with a place for as many as the slice is long.
    pub fn new(items: &'a mut [Point]) -> Self
        ensures { result.table ≡ record { items = []; size = length items.old } }
    {
        PointTable {
            table: OrderedTable::new(items),
        }
    }
}

impl<'a> Register for PointTable<'a> {
    ghost known = { λ s. points_of s.table };

    fn read(&self, number: u64) -> Option<Point> {
        self.table.read(number)
    }

    fn lowest_from(&self, number: u64) -> Option<Point> {
        self.table.first_from(number)
    }

    // As any register; and its numbers rise, no more of them than there is room for.
    fn has_place(&self, number: u64) -> bool
        ensures value { result ≡ place_in self.now.table.items self.now.table.size number }
        ensures absent { result ≡ true → point_in self.now.table.items number ≡ None }
        ensures sound { Sound number_of nat_cmp self.now.table }
    {
        self.table.has_place(number)
    }

    // As any register; and it has room for as many as before.
    fn add(&mut self, point: Point) -> Result<(), AddError>
        ensures added { Added point result (points_of self.old.table) (points_of self.new.table) }
        ensures size { self.new.table.size ≡ self.old.table.size }
        ensures sound { Sound number_of nat_cmp self.new.table }
    {
        self.table.add(point)
    }

    fn replace(&mut self, point: Point) -> Result<(), Absent>
        ensures replaced { Replaced point result (points_of self.old.table) (points_of self.new.table) }
        ensures size { self.new.table.size ≡ self.old.table.size }
        ensures sound { Sound number_of nat_cmp self.new.table }
    {
        self.table.replace(point)
    }
}
