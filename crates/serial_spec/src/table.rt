//! One plain table.
ghost use Rattle.std.specs.Prelude.{◌≡◌, ℕ, ◌+◌, ◌^◌, ◌<◌, ◌≤◌, ◌↔◌, pos, neg_ℤ, ◌≤ℤ◌, List, [], length, slice_get, Some, None, IfSome, IsSome, IsTrue, IsOk, OnOk, OnErr, IfOk};
ghost use Rattle.std.specs.Option.{option_map};
ghost use Rattle.std.specs.List.{AllByRecursion};
ghost use Rattle.txn_names.specs.Groups.{has};
ghost use Rattle.txn_names.specs.Text.{IsKey};
ghost use Rattle.serial_spec.specs.Changes.{AreRising, overlay};
ghost use Rattle.serial_spec.specs.Rows.{IsRising, value_in};
ghost use Rattle.serial_spec.specs.Serial.{put, reply_at};
ghost use Rattle.serial_spec.specs.Sums.{sum_in};
ghost use Rattle.serial_spec.specs.declared.target.Asked.TheVariants.{Over};
ghost use Rattle.serial_spec.specs.Places.{is_below, matching, part, rank, sum_rows};

use crate::NoMemory;
use crate::changing::change_all;
use crate::operation::Reply;
use slot_list::SlotList;
use std::alloc::Global;
use std::marker::Model;
use txn_names::{Change, Group, Key};

/// A table of keys and their values, in the byte order of the keys. A row stays where it lies in
/// memory while others come and go.
#[derive(Drop)]
pub struct PlainTable {
    rows: SlotList<(Key, i64)>,
}

impl Model for PlainTable {
    ghost use Rattle.std.specs.Prelude.{◌-◌, length};
    ghost use Rattle.serial_spec.specs.Rows.{IsRising, Table};

    ghost Value = { Table };

    ghost view = { λ t. record {
      rows = t.rows.items;
      room = t.rows.capacity - length t.rows.items;
    } };

    ghost invariant = { λ t. IsRising t.rows.items };
}

// Whether the row at this place, if there is one, has a key below this one.
fn is_below_at(rows: &SlotList<(Key, i64)>, place: usize, key: &Key) -> bool
    ensures { IfSome (slice_get rows.now.items place) (λ r. result ≡ is_below r.0 key.now) }
{
    match rows.get(place) {
        Some(row) => row.0 < *key,
        None => false,
    }
}

// How many rows have keys below this one, which is its place.
fn place_of(rows: &SlotList<(Key, i64)>, key: &Key) -> usize
    requires { IsRising rows.now.items }
    ensures place { result ≡ rank rows.now.items key.now }
    ensures within { result ≤ length rows.now.items }
{
    let mut low = 0;
    let mut high = rows.len();
    while low < high {
        let middle = low + (high - low) / 2;
        if is_below_at(rows, middle, key) {
            low = middle + 1;
        } else {
            high = middle;
        }
    }
    low
}

fn value_at(rows: &SlotList<(Key, i64)>, place: usize, key: &Key) -> Option<i64>
    ensures { result ≡ matching (slice_get rows.now.items place) key.now }
{
    match rows.get(place) {
        Some(row) => { if row.0 == *key { Some(row.1) } else { None } }
        None => None,
    }
}

impl PlainTable {
    /// No rows. It takes no memory yet.
    pub fn new(alloc: Global) -> Self
        ensures { result.rows ≡ [] }
    {
        PlainTable {
            rows: SlotList::new(alloc),
        }
    }

    /// A table of the same rows. The only error is that memory runs out.
    pub fn copy(&self) -> Result<Self, NoMemory>
        ensures { IfOk result (λ t. t.rows ≡ self.now.rows) }
    {
        let rows = self.rows.copy()?;
        Ok(PlainTable { rows })
    }

    /// The rows stand in byte order of their keys, one for each. The call does nothing: it tells
    /// the prover so.
    pub fn has_rising_rows(&self)
        ensures { IsRising self.now.rows }
    {
        let _ = &self.rows;
    }

    /// The key's value.
    pub fn get(&self, key: &Key) -> Option<i64>
        ensures { result ≡ value_in self.now.rows key.now }
    {
        let place = place_of(&self.rows, key);
        value_at(&self.rows, place, key)
    }

    /// Makes room for more rows, and changes none. The only error is that memory runs out. Where
    /// there is room for so many already, it succeeds.
    pub fn reserve(&mut self, additional: usize) -> Result<(), NoMemory>
        ensures rows { self.new.rows ≡ self.old.rows }
        ensures room { OnOk result (additional ≤ self.new.room) }
        ensures succeeds { additional ≤ self.old.room → IsOk result }
        ensures kept { self.old.room ≤ self.new.room }
    {
        self.rows.reserve(additional)
    }

    /// Gives the key a value, or takes its row out. It takes no memory where there is room, where
    /// the key has a row, or where the row goes. If memory runs out, which is the only error, the
    /// table is as before.
    pub fn put(&mut self, key: &Key, value: Option<i64>) -> Result<(), NoMemory>
        ensures ok { OnOk result (value_in self.new.rows ≡
            put (value_in self.old.rows) key.now value) }
        ensures err { OnErr result (self.new ≡ self.old) }
        ensures succeeds { 0 < self.old.room → IsOk result }
        ensures replaced { IsSome (value_in self.old.rows key.now) → IsOk result }
        ensures taken_out { value ≡ None → IsOk result }
        ensures room { self.old.room ≤ self.new.room + 1 }
    {
        match value {
            Some(value) => self.set(key, value),
            None => {
                self.take_out(key);
                Ok(())
            }
        }
    }

    /// Makes rising changes, for which there is room, from the last to the first. It takes no
    /// memory, and no row moves: of each row behind one that is put in or taken out only its number
    /// does, of four bytes.
    pub fn change(&mut self, changes: &[Change])
        requires rising { AreRising changes.now }
        requires room { length changes.now ≤ self.old.room }
        ensures values { value_in self.new.rows ≡ overlay changes.now (value_in self.old.rows) }
        ensures room { self.old.room ≤ self.new.room + length changes.now }
    {
        change_all(self, changes);
    }

    // Gives the key a value.
    fn set(&mut self, key: &Key, value: i64) -> Result<(), NoMemory>
        ensures ok { OnOk result (value_in self.new.rows ≡
            put (value_in self.old.rows) key.now (Some value)) }
        ensures err { OnErr result (self.new ≡ self.old) }
        ensures succeeds { 0 < self.old.room → IsOk result }
        ensures replaced { IsSome (value_in self.old.rows key.now) → IsOk result }
        ensures room { self.old.room ≤ self.new.room + 1 }
    {
        let place = place_of(&self.rows, key);
        let row = (*key, value);
        if value_at(&self.rows, place, key).is_some() {
            let _ = self.rows.replace(place, row);
            return Ok(());
        }
        self.rows.reserve(1)?;
        self.rows.insert_reserved(place, row);
        Ok(())
    }

    // Takes the key's row out, if there is one.
    fn take_out(&mut self, key: &Key)
        ensures value { value_in self.new.rows ≡ put (value_in self.old.rows) key.now None }
        ensures room { self.old.room ≤ self.new.room }
    {
        let place = place_of(&self.rows, key);
        if value_at(&self.rows, place, key).is_some() {
            let _ = self.rows.remove(place, (*key, 0));
        }
    }

    /// The number of rows.
    pub fn len(&self) -> usize
        ensures len { result ≡ length self.now.rows }
        ensures rising { IsRising self.now.rows }
    {
        self.rows.len()
    }

    /// Whether there are no rows.
    pub fn is_empty(&self) -> bool
        ensures { IsTrue result ↔ (self.now.rows ≡ []) }
    {
        self.rows.is_empty()
    }

    /// The row at this place, from 0, in byte order of the keys.
    pub fn at(&self, place: usize) -> Option<(&Key, i64)>
        ensures { option_map (λ r. (r.0.now, r.1)) result ≡ slice_get self.now.rows place }
    {
        match self.rows.get(place) {
            Some(row) => Some((&row.0, row.1)),
            None => None,
        }
    }
}

// What the row adds to the sum of the group.
fn part_of(row: &(Key, i64), group: &Group) -> i64
    ensures part { result ≡ part group.now row.now }
    ensures key { IsKey row.now.0 }
{
    let _bytes = row.0.as_bytes();
    if group.has(&row.0) { row.1 } else { 0 }
}

// The sum of the values of the group's rows, which stand together. Each is 2 ^ 63 at most by its
// amount, and rows are fewer than 2 ^ 59.
fn sum_rows(rows: &SlotList<(Key, i64)>, group: &Group) -> i128
    requires { IsRising rows.now.items }
    ensures sum { result ≡ sum_rows rows.now.items group.now }
    ensures least { neg_ℤ (pos (2 ^ 122)) ≤ℤ result }
    ensures most { result ≤ℤ pos (2 ^ 122) }
    ensures keys { AllByRecursion (λ r. IsTrue (has group.now r.0) → IsKey r.0) rows.now.items }
{
    let mut sum: i128 = 0;
    let mut at = place_of(rows, &group.first_key());
    while at < rows.len() && group.has(&rows.at(at).0) {
        sum += i128::from(part_of(rows.at(at), group));
        at += 1;
    }
    sum
}

/// The sum of the values of the group's rows, 0 where there are none. No partial sum is lost, since
/// an i128 holds each. It goes through the group's rows alone, and takes no memory.
pub fn sum_of(table: &PlainTable, group: &Group) -> i128
    ensures sum { result ≡ sum_in (value_in table.now.rows) group.now }
    ensures least { neg_ℤ (pos (2 ^ 122)) ≤ℤ result }
    ensures most { result ≤ℤ pos (2 ^ 122) }
{
    sum_rows(&table.rows, group)
}

/// What a sum over the group replies: its value, or overflow where that is not an i64. It takes no
/// memory.
pub fn act_sum(table: &PlainTable, group: &Group) -> Reply
    ensures { result ≡ reply_at (value_in table.now.rows) (Over group.now) }
{
    match i64::try_from(sum_of(table, group)) {
        Ok(sum) => Reply::Value(sum),
        Err(_) => Reply::Overflow,
    }
}
