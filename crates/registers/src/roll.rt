// Points in the order of their arrival, in a slice that the caller lends.
ghost use Rattle.std.specs.Prelude.{◌≡◌, true, [], length, None, MatchOption};
ghost use Rattle.market.specs.Looks.{LowestFrom};
ghost use Rattle.market.specs.Stores.{Added, Replaced};
ghost use Rattle.registers.specs.Arrivals.{Apart, Arrived, Stands, lower};
ghost use Rattle.registers.specs.Points.{place_in, point_in, points_of};

use market::{Absent, AddError, Point, Register};
use std::marker::Model;

// The points stand first in the slice. Every place of the slice can be used. No Vec: there is no heap here,
// and the memory is what the caller lends.
#[derive(Drop)]
pub struct Roll<'a> {
    items: &'a mut [Point],
    count: usize,
}

// A clause sees the points in the order of their arrival, and how many there is room for in all.
impl<'a> Model for Roll<'a> {
    ghost use Rattle.std.specs.Prelude.{◌≤◌, length, take};
    ghost use Rattle.market.specs.declared.points.Point.{Point as MeterPoint};
    ghost use Rattle.tables.specs.Tables.{Records};
    ghost use Rattle.registers.specs.Arrivals.{Apart};

    ghost Value = { Records MeterPoint };

    ghost view = { λ r. record { items = take r.count r.items.now; size = length r.items.now } };

    ghost invariant = { λ r. (r.count ≤ length r.items.now) × Apart (take r.count r.items.now) };
}

impl<'a> Roll<'a> {
    // A register with no point, and with a place for as many as the slice is long.
    pub fn new(items: &'a mut [Point]) -> Self
        ensures { result ≡ record { items = []; size = length items.old } }
    {
        Roll { items, count: 0 }
    }

    fn records(&self) -> &[Point]
        ensures all { result.now ≡ self.now.items }
        ensures apart { Apart result.now }
    {
        let items = &*self.items;
        &items[..self.count]
    }

    // Where the point with the number stands. Only one can have it, so the walk may go on past it.
    fn locate(&self, number: u64) -> Option<usize>
        ensures { MatchOption result (point_in self.now.items number ≡ None) (Stands self.now.items number) }
    {
        let records = self.records();
        let mut at = None;
        // By index, and no iterator: by rule, a roll's readings are `for` loops over the indices of its records.
        for i in 0..records.len() {
            if records[i].number == number {
                at = Some(i);
            }
        }
        at
    }
}

impl<'a> Register for Roll<'a> {
    ghost known = { points_of };

    fn read(&self, number: u64) -> Option<Point> {
        let at = self.locate(number)?;
        Some(self.records()[at])
    }

    fn lowest_from(&self, number: u64) -> Option<Point> {
        lowest_of(self.records(), number)
    }

    // As any register; and no two of its points have one number, no more of them than there is room for.
    fn has_place(&self, number: u64) -> bool
        ensures value { result ≡ place_in self.now.items self.now.size number }
        ensures absent { result ≡ true → point_in self.now.items number ≡ None }
        ensures sound { Arrived self.now }
    {
        self.read(number).is_none() && self.count < self.items.len()
    }

    // As any register; and it has room for as many as before.
    fn add(&mut self, point: Point) -> Result<(), AddError>
        ensures added { Added point result (points_of self.old) (points_of self.new) }
        ensures size { self.new.size ≡ self.old.size }
        ensures sound { Arrived self.new }
    {
        match self.locate(point.number) {
            Some(_) => Err(AddError::AlreadyThere),
            None if self.count == self.items.len() => Err(AddError::NoPlace),
            None => {
                self.items[self.count] = point;
                self.count += 1;
                Ok(())
            }
        }
    }

    fn replace(&mut self, point: Point) -> Result<(), Absent>
        ensures replaced { Replaced point result (points_of self.old) (points_of self.new) }
        ensures size { self.new.size ≡ self.old.size }
        ensures sound { Arrived self.new }
    {
        let at = self.locate(point.number).ok_or(Absent)?;
        self.items[at] = point;
        Ok(())
    }
}

// The lowest point from the number on.
fn lowest_of(records: &[Point], number: u64) -> Option<Point>
    ensures { LowestFrom (point_in records.now) number result }
{
    let mut lowest: Option<Point> = None;
    // By index, and no iterator, as every reading of a roll.
    for i in 0..records.len() {
        lowest = lower_of(number, records[i], lowest);
    }
    lowest
}

// The lower of the lowest so far and a point that comes next, which counts from the number on.
fn lower_of(number: u64, point: Point, lowest: Option<Point>) -> Option<Point>
    ensures { result ≡ lower number point lowest }
{
    match lowest {
        _ if point.number < number => lowest,
        Some(other) if other.number <= point.number => lowest,
        _ => Some(point),
    }
}
