//! Records in the order of their keys, in a slice that the caller lends.
//!
//! A key is found by halving the records that may still have it. The table has a place for one
//! more record exactly while it holds fewer than the slice has elements.
#![tactic(auto)]

ghost use Rattle.std.specs.Prelude.{◌≡◌, ◌+◌, ◌<◌, ◌≤◌, true, [], length, take, insert, slice_set, is_ok, is_some, IfSome, MatchResult, if◌then◌else◌};
ghost use Rattle.market.specs.Stores.{addition};
ghost use Rattle.tables.specs.Keys.{find, find_put, seek, join, swap, in_order};
ghost use Rattle.tables.specs.Orders.{Exact};
ghost use Rattle.tables.specs.Places.{IsFirstFrom, Found, Missing};
ghost use Rattle.tables.specs.Tables.{Sound, has_room, placed};

use market::{Absent, AddError};
use std::marker::Model;

mod points;

// A record with a key. Its keys have the order of their type.
pub trait Keyed {
    type Key: Ord + Copy;

    // The record's own key.
    ghost own: { Self → Self.Key };

    fn key(&self) -> Self::Key
        ensures { result ≡ own self.now };

    // Keys that compare as equal are one key.
    ghost exact: { Exact Self.Key.cmp };
}

// Records in the order of their keys, no two of one key. They stand first in the slice. No map and no Vec:
// there is no heap here, and the memory is what the caller lends.
#[derive(Drop)]
pub struct OrderedTable<'a, T: Keyed + Copy> {
    items: &'a mut [T],
    count: usize,
}

// A clause sees the records in order, and how many there is room for in all.
impl<'a, T: Keyed + Copy> Model for OrderedTable<'a, T> {
    ghost use Rattle.std.specs.Prelude.{◌≡◌, ◌≤◌, true, length, take};
    ghost use Rattle.tables.specs.Keys.{in_order};
    ghost use Rattle.tables.specs.Tables.{Records};

    ghost Value = { Records T };

    ghost view = { λ t. record { items = take t.count t.items.now; size = length t.items.now } };

    ghost invariant = { λ t. (t.count ≤ length t.items.now) × (in_order T.own T.Key.cmp (take t.count t.items.now) ≡ true) };
}

impl<'a, T: Keyed + Copy> OrderedTable<'a, T> {
    // An empty table over all of the slice.
    pub fn new(items: &'a mut [T]) -> Self
        ensures { result ≡ record { items = []; size = length items.old } }
    {
        OrderedTable { items, count: 0 }
    }

    // The record with the key.
    pub fn read(&self, key: T::Key) -> Option<T>
        ensures value { result ≡ find T.own T.Key.cmp key self.now.items }
        ensures named { IfSome result (λ x. T.own x ≡ key) }
        ensures sound { Sound T.own T.Key.cmp self.now }
    {
        let at = self.locate(key).ok()?;
        Some(self.records()[at])
    }

    // The first record whose key is this one or above.
    pub fn first_from(&self, key: T::Key) -> Option<T>
        ensures value { result ≡ seek T.own T.Key.cmp key self.now.items }
        ensures lowest { IsFirstFrom T.own T.Key.cmp self.now.items key result }
        ensures sound { Sound T.own T.Key.cmp self.now }
    {
        let records = self.records();
        match self.locate(key) {
            Ok(at) | Err(at) => records.get(at).copied(),
        }
    }

    // Whether the key is absent and there is room for one more record.
    pub fn has_place(&self, key: T::Key) -> bool
        ensures value { result ≡ placed T.own T.Key.cmp self.now key }
        ensures sound { Sound T.own T.Key.cmp self.now }
    {
        self.read(key).is_none() && self.count < self.items.len()
    }

    // Joins the record where its key has a place.
    pub fn add(&mut self, x: T) -> Result<(), AddError>
        ensures value { result ≡ addition (find T.own T.Key.cmp (T.own x) self.old.items) (has_room self.old) }
        ensures after { self.new ≡ record self.old { items = (if is_ok result then join T.own T.Key.cmp x self.old.items else self.old.items) } }
        ensures by_key { (k : T.Key) → find T.own T.Key.cmp k self.new.items ≡ find_put T.own T.Key.cmp (is_ok result) x self.old.items k }
        ensures count { length self.new.items ≡ (if is_ok result then length self.old.items + 1 else length self.old.items) }
        ensures sound { Sound T.own T.Key.cmp self.new }
    {
        match self.locate(x.key()) {
            Ok(_) => Err(AddError::AlreadyThere),
            Err(_) if self.count == self.items.len() => Err(AddError::NoPlace),
            Err(at) => {
                insert_at(self.items, self.count, at, x);
                self.count += 1;
                Ok(())
            }
        }
    }

    // Puts the record in the place of the one with its key.
    pub fn replace(&mut self, x: T) -> Result<(), Absent>
        ensures value { is_ok result ≡ is_some (find T.own T.Key.cmp (T.own x) self.old.items) }
        ensures after { self.new ≡ record self.old { items = swap T.own T.Key.cmp x self.old.items } }
        ensures by_key { (k : T.Key) → find T.own T.Key.cmp k self.new.items ≡ find_put T.own T.Key.cmp (is_ok result) x self.old.items k }
        ensures count { length self.new.items ≡ length self.old.items }
        ensures sound { Sound T.own T.Key.cmp self.new }
    {
        let at = self.locate(x.key()).map_err(|_| Absent)?;
        write_at(self.items, self.count, at, x);
        Ok(())
    }

    fn records(&self) -> &[T]
        ensures all { result.now ≡ self.now.items }
        ensures sound { Sound T.own T.Key.cmp self.now }
    {
        let items = &*self.items;
        &items[..self.count]
    }

    // Where the key stands, or else where it would.
    fn locate(&self, key: T::Key) -> Result<usize, usize>
        ensures place { MatchResult result (Found T.own T.Key.cmp self.now.items key) (Missing T.own T.Key.cmp self.now.items key) }
        ensures lowest { IsFirstFrom T.own T.Key.cmp self.now.items key (seek T.own T.Key.cmp key self.now.items) }
        ensures sound { Sound T.own T.Key.cmp self.now }
    {
        self.records().binary_search_by_key(&key, |item| item.key())
    }
}

// Puts x at `at` among the first `count`, and what stood from there on one place further. A count beside the
// slice, since the slice is lent whole and only so much of it is in use.
#[tactic(auto, using(crate::proofs::Shifts::inserted))]
fn insert_at<T: Copy>(items: &mut [T], count: usize, at: usize, x: T)
    requires room { count < length items.old }
    requires within { at ≤ count }
    ensures { take (count + 1) items.new ≡ insert (take count items.old) at x }
{
    items.copy_within(at..count, at + 1);
    items[at] = x;
}

// Puts x at `at` among the first `count`, which are in use of a slice that is lent whole.
#[tactic(auto, using(crate::proofs::Shifts::writes))]
fn write_at<T: Copy>(items: &mut [T], count: usize, at: usize, x: T)
    requires room { count ≤ length items.old }
    requires within { at < count }
    ensures { take count items.new ≡ slice_set (take count items.old) at x }
{
    items[at] = x;
}
