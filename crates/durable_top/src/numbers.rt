//! The numbers of a table beside its values, and the greatest of them.
ghost use Rattle.std.specs.Prelude.{◌≡◌, ◌⊎◌, ◌≤◌, ◌<◌, ◌+◌, ◌≤ℤ◌, ◌<ℤ◌, ◌+ℤ◌, pos, [], ℕ, ℤ, List, None, Some, length, slice_get, IfOk, IfSome, OnOk, OnErr, IsOk, IsFalse, IsTrue, ◌↔◌};
ghost use Rattle.std.specs.Option.{option_map};
ghost use Rattle.serial_spec.specs.Changes.{AreRising};
ghost use Rattle.serial_spec.specs.Rows.{value_in};
ghost use Rattle.serial_spec.specs.Serial.{put};
ghost use Rattle.indexmap.specs.IndexMap.{spare};
ghost use Rattle.durable_top.specs.Numbered.{AreNumbered, entries_in, last_number, numbers_of};
ghost use Rattle.durable_top.specs.Numbers.{IsKept, IsTopIn, IsTopOf, HasValue, numbers_in, renumbered, with_first};

use crate::store::Row;
use indexmap::IndexMap;
use serial_spec::NoMemory;
use std::alloc::{AllocError, Global};
use std::marker::Model;
use txn_names::{Change, Key};

/// What number each key has, and the greatest of them, 0 where there is none.
#[derive(Drop)]
pub struct NumberTable {
    numbers: IndexMap<Key, i64>,
    top: i64,
}

impl Model for NumberTable {
    ghost use Rattle.indexmap.specs.IndexMap.{spare};
    ghost use Rattle.serial_spec.specs.Rows.{value_in};
    ghost use Rattle.durable_top.specs.Numbers.{IsTopIn, Numbers};

    ghost Value = { Numbers };

    ghost view = { λ m. record { rows = m.numbers.entries; room = spare m.numbers; top = m.top } };

    ghost invariant = { λ m. IsTopIn (value_in m.numbers.entries) m.top };
}

/// The number above this one, where an i64 holds it.
pub fn next_number(top: i64) -> Option<i64>
    ensures above { IfSome result (λ number. number ≡ top +ℤ pos 1) }
    ensures fits { IfSome result (λ number. number ≤ℤ last_number) }
    ensures none { result ≡ None → top ≡ last_number }
{
    top.checked_add(1)
}

// The key's number.
fn number_in(numbers: &IndexMap<Key, i64>, key: &Key) -> Option<i64>
    ensures { result ≡ value_in numbers.now.entries key.now }
{
    numbers.get(key).copied()
}

// The greater of this number and the one at the place.
fn greater_at(numbers: &IndexMap<Key, i64>, place: usize, top: i64) -> i64
    requires { place < length numbers.now.entries }
    ensures least { top ≤ℤ result }
    ensures bound { IfSome (slice_get numbers.now.entries place) (λ e. e.1 ≤ℤ result) }
    ensures met { (result ≡ top) ⊎ ((k : List ℕ) × (value_in numbers.now.entries k ≡ Some result)) }
{
    let (_, number) = numbers.get_index(place).unwrap();
    if *number > top { *number } else { top }
}

// The greatest of the numbers, 0 where there is none.
fn top_in(numbers: &IndexMap<Key, i64>) -> i64
    ensures { IsTopOf numbers.now.entries result }
{
    let mut top = 0;
    for place in 0..numbers.len() {
        top = greater_at(numbers, place, top);
    }
    top
}

// Gives the row's key its number where it has none.
fn put_first(numbers: &mut IndexMap<Key, i64>, row: &Row) -> Result<(), NoMemory>
    ensures { OnOk result (value_in numbers.new.entries
        ≡ with_first (value_in numbers.old.entries) row.now.key row.now.commit) }
{
    if number_in(numbers, &row.key).is_some() {
        return Ok(());
    }
    match numbers.insert(row.key, row.commit) {
        Ok(_) => Ok(()),
        Err(_) => Err(AllocError),
    }
}

// The numbers of these rows. Of several rows with one key the first counts.
fn numbers_from(alloc: Global, rows: &[Row]) -> Result<IndexMap<Key, i64>, NoMemory>
    ensures { IfOk result (λ numbers. value_in numbers.entries ≡ value_in (numbers_in rows.now)) }
{
    let mut numbers = IndexMap::new(alloc);
    for row in rows {
        put_first(&mut numbers, row)?;
    }
    Ok(numbers)
}

// Makes a change under the number, for which there is room.
fn put_reserved(numbers: &mut IndexMap<Key, i64>, number: i64, change: &Change)
    requires { 0 < spare numbers.old }
    ensures put { value_in numbers.new.entries
        ≡ put (value_in numbers.old.entries) change.now.key
        (option_map (λ _. number) change.now.value) }
    ensures room { spare numbers.old ≤ spare numbers.new + 1 }
{
    if change.value.is_some() {
        numbers.insert(change.key, number).unwrap();
    } else {
        let _ = numbers.swap_remove(&change.key);
    }
}

// Makes the changes under the number, for which there is room.
fn renumber(numbers: &mut IndexMap<Key, i64>, number: i64, changes: &[Change])
    requires { length changes.now ≤ spare numbers.old }
    ensures { value_in numbers.new.entries
        ≡ renumbered number changes.now (value_in numbers.old.entries) }
{
    for change in changes {
        put_reserved(numbers, number, change);
    }
}

// Whether one of the changes gives a value.
fn has_value(changes: &[Change]) -> bool
    ensures { IsTrue result ↔ HasValue changes.now }
{
    for change in changes {
        if change.value.is_some() {
            return true;
        }
    }
    false
}

// Whether one of the changes is at a key that has this number.
fn is_changed(numbers: &IndexMap<Key, i64>, number: i64, changes: &[Change]) -> bool
    ensures { IsFalse result → IsKept (value_in numbers.now.entries) number changes.now }
{
    for change in changes {
        if number_in(numbers, &change.key) == Some(number) {
            return true;
        }
    }
    false
}

impl NumberTable {
    /// No numbers. It takes no memory yet.
    pub fn new(alloc: Global) -> NumberTable
        ensures rows { result.rows ≡ [] }
        ensures top { result.top ≡ pos 0 }
    {
        NumberTable {
            numbers: IndexMap::new(alloc),
            top: 0,
        }
    }

    /// The numbers of these rows, which are at least 0. The only error is that memory runs out.
    #[tactic(auto, using(crate::proofs::Numbering::top_of_rows))]
    pub fn of_rows(alloc: Global, rows: &[Row]) -> Result<NumberTable, NoMemory>
        requires { AreNumbered rows.now }
        ensures { IfOk result (λ table. value_in table.rows ≡ numbers_of (entries_in rows.now)) }
    {
        let numbers = numbers_from(alloc, rows)?;
        let top = top_in(&numbers);
        Ok(NumberTable { numbers, top })
    }

    /// The key's number.
    pub fn number(&self, key: &Key) -> Option<i64>
        ensures { result ≡ value_in self.now.rows key.now }
    {
        number_in(&self.numbers, key)
    }

    /// No number is below 0. The call does nothing: it tells the prover so.
    pub fn has_none_below_0(&self)
        ensures { IsTopIn (value_in self.now.rows) self.now.top }
    {
        let _ = &self.numbers;
    }

    /// The greatest number, 0 where there is none. It is kept, and nothing is looked through.
    pub fn top(&self) -> i64
        ensures is { result ≡ self.now.top }
        ensures greatest { IsTopIn (value_in self.now.rows) result }
    {
        self.top
    }

    /// Makes room for more rows, and changes none. The only error is that memory runs out. Where
    /// there is room for so many already, it succeeds.
    pub fn reserve(&mut self, additional: usize) -> Result<(), NoMemory>
        ensures rows { self.new.rows ≡ self.old.rows }
        ensures top { self.new.top ≡ self.old.top }
        ensures room { OnOk result (additional ≤ self.new.room) }
        ensures succeeds { additional ≤ self.old.room → IsOk result }
    {
        self.numbers.reserve(additional)
    }

    /// Makes the changes under a number above the greatest, for which there is room: a key that is
    /// given a value has this number, and one that is given none has no number. Where none of them
    /// gives a value and one of them takes the greatest number away, it looks once through all
    /// numbers for the greatest.
    pub fn change(&mut self, number: i64, changes: &[Change])
        requires room { length changes.now ≤ self.old.room }
        requires above { self.old.top <ℤ number }
        requires rising { AreRising changes.now }
        ensures { value_in self.new.rows ≡ renumbered number changes.now (value_in self.old.rows) }
    {
        let raises = has_value(changes);
        let loses = !raises && is_changed(&self.numbers, self.top, changes);
        renumber(&mut self.numbers, number, changes);
        if raises {
            self.top = number;
        } else if loses {
            self.top = top_in(&self.numbers);
        }
    }
}
