//! What a few transactions have at one key, in the value itself.
ghost use Rattle.std.specs.Prelude.{◌≡◌, ◌≤◌, ◌<◌, ◌+◌, [], length, slice_get, IsFalse, IfNone, IfSome, Some, None, ℕ};
ghost use Rattle.std.specs.List.{zip};
ghost use Rattle.std.specs.List.Sorted.{IsStrictlyIncreasing};
ghost use Rattle.std.specs.Map.{keys_of};
ghost use Rattle.txn_cells.specs.Kept.{IsChangedAt, content_of, holds, in_value};

use crate::few_contents::{FewContents, IN_VALUE};
use crate::numbers::{find, place_for};
use arrayvec::ArrayVec;
use std::marker::Model;
use txn_tree::TxnNo;

/// What at most `IN_VALUE` transactions have, in the order of their numbers. It takes no memory.
#[derive(Drop)]
pub(crate) struct FewCells<V: Copy> {
    numbers: ArrayVec<TxnNo, IN_VALUE>,
    contents: FewContents<V>,
}

impl<V: Copy> Model for FewCells<V> {
    ghost use Rattle.std.specs.Prelude.{◌≡◌, length};
    ghost use Rattle.std.specs.List.{zip};
    ghost use Rattle.std.specs.List.Sorted.{IsStrictlyIncreasing};
    ghost use Rattle.txn_cells.specs.Kept.{Held};

    ghost Value = { Held V };

    ghost view = { λ c. zip c.numbers.items c.contents };

    ghost invariant = { λ c. IsStrictlyIncreasing c.numbers.items
        × (length c.contents ≡ length c.numbers.items) };
}

impl<V: Copy> FewCells<V> {
    /// Nobody has a place.
    pub(crate) fn new() -> Self
        ensures { result ≡ [] }
    {
        FewCells {
            numbers: ArrayVec::new(),
            contents: FewContents::new(),
        }
    }

    /// How many have a place.
    pub(crate) fn len(&self) -> usize
        ensures is { result ≡ length self.now }
        ensures fits { result ≤ in_value }
    {
        self.contents.len()
    }

    /// The numbers of those that have a place, rising.
    pub(crate) fn numbers(&self) -> &[TxnNo]
        ensures is { result.now ≡ keys_of self.now }
        ensures rising { IsStrictlyIncreasing result.now }
        ensures fits { length result.now ≤ in_value }
    {
        self.numbers.as_slice()
    }

    /// What the transaction has.
    #[inline(always)]
    pub(crate) fn get(&self, txn: TxnNo) -> Option<V>
        ensures { result ≡ content_of self.now txn }
    {
        match find(self.numbers.as_slice(), txn) {
            Ok(index) => self.contents.at(index),
            Err(_) => None,
        }
    }

    /// What the transaction has, if it stands at this index.
    #[inline(always)]
    pub(crate) fn recall(&self, index: usize, txn: TxnNo) -> Option<Option<V>>
        ensures at { IfSome result (λ had. slice_get (keys_of self.now) index ≡ Some txn) }
        ensures had { IfSome result (λ had. had ≡ content_of self.now txn) }
    {
        let numbers = self.numbers.as_slice();
        if index < numbers.len() && numbers[index] == txn {
            Some(self.contents.at(index))
        } else {
            None
        }
    }

    /// The index at which the transaction stands, and what it has.
    #[inline(always)]
    pub(crate) fn found(&self, txn: TxnNo) -> Option<(usize, Option<V>)>
        ensures at { IfSome result (λ found. slice_get (keys_of self.now) found.0 ≡ Some txn) }
        ensures had { IfSome result (λ found. found.1 ≡ content_of self.now txn) }
        ensures none { IfNone result (IsFalse (holds self.now txn)) }
    {
        match find(self.numbers.as_slice(), txn) {
            Ok(index) => Some((index, self.contents.at(index))),
            Err(_) => None,
        }
    }

    /// Sets what the transaction at this index has.
    #[inline(always)]
    pub(crate) fn put(&mut self, index: usize, value: V)
        requires { index < length self.old }
        ensures keys { keys_of self.new ≡ keys_of self.old }
        ensures changed { (t : ℕ) → slice_get (keys_of self.old) index ≡ Some t →
            IsChangedAt self.old self.new t (Some (Some value)) }
    {
        self.contents.put(index, Some(value));
    }

    /// Gives the transaction, which has none, an empty place, and tells its index.
    pub(crate) fn insert(&mut self, txn: TxnNo) -> usize
        requires fresh { IsFalse (holds self.old txn) }
        requires room { length self.old < in_value }
        ensures at { slice_get (keys_of self.new) result ≡ Some txn }
        ensures changed { IsChangedAt self.old self.new txn (Some None) }
        ensures more { length self.new ≡ length self.old + 1 }
    {
        let place = place_for(self.numbers.as_slice(), txn);
        self.numbers.insert(place, txn);
        self.contents.insert(place);
        place
    }

    /// Takes the transaction out, and gives what it had.
    #[inline(always)]
    pub(crate) fn remove(&mut self, txn: TxnNo) -> Option<V>
        ensures had { result ≡ content_of self.old txn }
        ensures changed { IsChangedAt self.old self.new txn None }
        ensures fewer { length self.new ≤ length self.old }
    {
        match find(self.numbers.as_slice(), txn) {
            Ok(index) => {
                self.numbers.remove(index);
                self.contents.remove(index)
            }
            Err(_) => None,
        }
    }
}
