//! What many transactions have at one key, found by their numbers.
ghost use Rattle.std.specs.Prelude.{◌≡◌, ◌≤◌, ◌<◌, ◌+◌, ◌||◌, nat_eq, [], length, slice_get, IsFalse, IfNone, IfOk, IfSome, OnErr, OnOk, Some, None, ℕ};
ghost use Rattle.std.specs.List.{list_any};
ghost use Rattle.std.specs.List.Sorted.{IsStrictlyIncreasing};
ghost use Rattle.std.specs.Map.{keys_of};
ghost use Rattle.indexmap.specs.IndexMap.{spare};
ghost use Rattle.txn_cells.specs.Kept.{IsChangedAt, content_of, holds};

use crate::few_cells::FewCells;
use crate::few_contents::IN_VALUE;
use crate::many_numbers::ManyNumbers;
use crate::numbers::{find, place_for};
use indexmap::IndexMap;
use serial_spec::NoMemory;
use std::alloc::{AllocError, Global};
use std::marker::Model;
use txn_tree::TxnNo;

/// What each of many transactions has. They stand in an order that is of no account, in which one
/// is found by its number without a search and goes without moving those behind it. The numbers
/// alone are kept in their order.
#[derive(Drop)]
pub(crate) struct ManyCells<V: Copy> {
    numbers: ManyNumbers,
    contents: IndexMap<TxnNo, Option<V>>,
}

impl<V: Copy> Model for ManyCells<V> {
    ghost use Rattle.txn_cells.specs.Kept.{AreHolders, Held};

    ghost Value = { Held V };

    ghost view = { λ c. c.contents.entries };

    ghost invariant = { λ c. AreHolders c.numbers c.contents.entries };
}

impl<V: Copy> ManyCells<V> {
    /// Nobody has a place. It takes no memory yet.
    pub(crate) fn new(alloc: Global) -> Self
        ensures { result ≡ [] }
    {
        ManyCells {
            numbers: ManyNumbers::new(alloc),
            contents: IndexMap::new(alloc),
        }
    }

    /// How many have a place.
    pub(crate) fn len(&self) -> usize
        ensures { result ≡ length self.now }
    {
        self.contents.len()
    }

    /// The numbers of those that have a place, rising.
    pub(crate) fn numbers(&self) -> &[TxnNo]
        ensures each { (u : ℕ) → list_any (nat_eq u) result.now ≡ holds self.now u }
        ensures rising { IsStrictlyIncreasing result.now }
        ensures count { length result.now ≡ length self.now }
    {
        self.numbers.as_slice()
    }

    /// What the transaction has.
    pub(crate) fn get(&self, txn: TxnNo) -> Option<V>
        ensures { result ≡ content_of self.now txn }
    {
        *self.contents.get(&txn)?
    }

    /// What the transaction has, if it stands at this index.
    #[inline(always)]
    pub(crate) fn recall(&self, index: usize, txn: TxnNo) -> Option<Option<V>>
        ensures at { IfSome result (λ had. slice_get (keys_of self.now) index ≡ Some txn) }
        ensures had { IfSome result (λ had. had ≡ content_of self.now txn) }
    {
        let (number, content) = self.contents.get_index(index)?;
        if *number == txn { Some(*content) } else { None }
    }

    /// The index at which the transaction stands, and what it has.
    #[inline(always)]
    pub(crate) fn found(&self, txn: TxnNo) -> Option<(usize, Option<V>)>
        ensures at { IfSome result (λ found. slice_get (keys_of self.now) found.0 ≡ Some txn) }
        ensures had { IfSome result (λ found. found.1 ≡ content_of self.now txn) }
        ensures none { IfNone result (IsFalse (holds self.now txn)) }
    {
        let (index, _, content) = self.contents.get_full(&txn)?;
        Some((index, *content))
    }

    /// Sets what the transaction at this index has. It takes no memory.
    #[inline(always)]
    pub(crate) fn put(&mut self, index: usize, value: V)
        requires { index < length self.old }
        ensures keys { keys_of self.new ≡ keys_of self.old }
        ensures changed { (t : ℕ) → slice_get (keys_of self.old) index ≡ Some t →
            IsChangedAt self.old self.new t (Some (Some value)) }
    {
        *self.contents.get_index_mut(index).unwrap() = Some(value);
    }

    /// Gives the transaction, which has none, an empty place, and tells its index. The only error
    /// is that memory runs out, and then nothing changes.
    pub(crate) fn insert(&mut self, txn: TxnNo) -> Result<usize, NoMemory>
        requires { IsFalse (holds self.old txn) }
        ensures at { IfOk result (λ index. slice_get (keys_of self.new) index ≡ Some txn) }
        ensures changed { OnOk result (IsChangedAt self.old self.new txn (Some None)) }
        ensures more { OnOk result (length self.new ≡ length self.old + 1) }
        ensures err { OnErr result (self.new ≡ self.old) }
    {
        let place = place_for(self.numbers.as_slice(), txn);
        self.numbers.insert(place, txn)?;
        make_room(&mut self.contents);
        match self.contents.insert_full(txn, None) {
            Ok((index, _)) => Ok(index),
            Err(_) => {
                self.numbers.remove(place);
                Err(AllocError)
            }
        }
    }

    /// As `insert`, where nobody has a place yet: these few take over theirs.
    pub(crate) fn fill(&mut self, few: &FewCells<V>, txn: TxnNo) -> Result<usize, NoMemory>
        requires bare { self.old ≡ [] }
        requires fresh { IsFalse (holds few.now txn) }
        ensures at { IfOk result (λ index. slice_get (keys_of self.new) index ≡ Some txn) }
        ensures changed { OnOk result (IsChangedAt few.now self.new txn (Some None)) }
        ensures more { OnOk result (length self.new ≡ length few.now + 1) }
        ensures err { OnErr result (self.new ≡ self.old) }
    {
        let numbers = few.numbers();
        let place = place_for(numbers, txn);
        self.contents.reserve(2 * IN_VALUE)?;
        self.numbers.fill(numbers, place, txn)?;
        take_over(&mut self.contents, few);
        let (index, _) = self.contents.insert_full(txn, None).unwrap();
        Ok(index)
    }

    /// Takes the transaction out, and gives what it had. It takes no memory.
    #[inline(always)]
    pub(crate) fn remove(&mut self, txn: TxnNo) -> Option<V>
        ensures had { result ≡ content_of self.old txn }
        ensures changed { IsChangedAt self.old self.new txn None }
        ensures fewer { length self.new ≤ length self.old }
    {
        match find(self.numbers.as_slice(), txn) {
            Ok(place) => {
                self.numbers.remove(place);
                self.contents.swap_remove(&txn).unwrap()
            }
            Err(_) => None,
        }
    }
}

// Where there is no room for one more, makes room for four times as many as there are, so that they are
// seldom hashed anew. Where that is refused, whoever puts one in asks for room for that one.
#[inline(always)]
fn make_room<V: Copy>(contents: &mut IndexMap<TxnNo, Option<V>>)
    ensures { contents.new.entries ≡ contents.old.entries }
{
    let count = contents.len();
    if count == contents.capacity() {
        let _ = contents.reserve(count.saturating_mul(3));
    }
}

// Puts what these few have into the map, in which there is nothing, but room for more than all.
fn take_over<V: Copy>(contents: &mut IndexMap<TxnNo, Option<V>>, few: &FewCells<V>)
    requires bare { contents.old.entries ≡ [] }
    requires room { length few.now < spare contents.old }
    ensures entries { contents.new.entries ≡ few.now }
    ensures room { 0 < spare contents.new }
{
    for txn in few.numbers() {
        contents.insert(*txn, few.get(*txn)).unwrap();
    }
}
