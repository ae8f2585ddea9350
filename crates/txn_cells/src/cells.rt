//! What each of the transactions with a place at one key has, few or many.
ghost use Rattle.std.specs.Prelude.{◌≡◌, ◌≤◌, ◌<◌, ◌+◌, nat_eq, [], length, slice_get, IsFalse, IfNone, IfOk, IfSome, OnErr, OnOk, Some, None, ℕ};
ghost use Rattle.std.specs.List.{list_any};
ghost use Rattle.std.specs.List.Sorted.{IsStrictlyIncreasing};
ghost use Rattle.std.specs.Map.{keys_of};
ghost use Rattle.txn_cells.specs.Kept.{IsChangedAt, content_of, holds};

use crate::few_cells::FewCells;
use crate::few_contents::IN_VALUE;
use crate::many_cells::ManyCells;
use serial_spec::NoMemory;
use std::alloc::Global;
use std::marker::Model;
use txn_tree::TxnNo;

/// What each of the transactions with a place has. A few lie in the value itself, so that most keys
/// take no memory for them. Once there are more, all are found by their numbers until none is left.
/// Each stands at an index, which may change where one comes or goes.
#[derive(Drop)]
pub(crate) struct Cells<V: Copy> {
    few: FewCells<V>,
    many: ManyCells<V>,
}

impl<V: Copy> Model for Cells<V> {
    ghost use Rattle.std.specs.Prelude.{◌≡◌, ◌<◌, ◌++◌, [], length};
    ghost use Rattle.txn_cells.specs.Kept.{Held};

    ghost Value = { Held V };

    ghost view = { λ c. c.few ++ c.many };

    ghost invariant = { λ c. 0 < length c.many → c.few ≡ [] };
}

impl<V: Copy> Cells<V> {
    /// Nobody has a place. It takes no memory yet.
    pub(crate) fn new(alloc: Global) -> Self
        ensures { result ≡ [] }
    {
        Cells {
            few: FewCells::new(),
            many: ManyCells::new(alloc),
        }
    }

    /// How many have a place.
    #[inline(always)]
    pub(crate) fn len(&self) -> usize
        ensures { result ≡ length self.now }
    {
        if self.many.len() == 0 {
            self.few.len()
        } else {
            self.many.len()
        }
    }

    /// The numbers of those that have a place, rising.
    #[inline(always)]
    pub(crate) fn numbers(&self) -> &[TxnNo]
        ensures each { (u : ℕ) → list_any (nat_eq u) result.now ≡ holds self.now u }
        ensures rising { IsStrictlyIncreasing result.now }
        ensures count { length result.now ≡ length self.now }
    {
        if self.many.len() == 0 {
            self.few.numbers()
        } else {
            self.many.numbers()
        }
    }

    /// What the transaction has.
    #[inline(always)]
    pub(crate) fn get(&self, txn: TxnNo) -> Option<V>
        ensures { result ≡ content_of self.now txn }
    {
        if self.many.len() == 0 {
            self.few.get(txn)
        } else {
            self.many.get(txn)
        }
    }

    /// What the transaction has, if it stands at this index.
    #[inline(always)]
    pub(crate) fn recall(&self, index: usize, txn: TxnNo) -> Option<Option<V>>
        ensures at { IfSome result (λ had. slice_get (keys_of self.now) index ≡ Some txn) }
        ensures had { IfSome result (λ had. had ≡ content_of self.now txn) }
    {
        if self.many.len() == 0 {
            self.few.recall(index, txn)
        } else {
            self.many.recall(index, txn)
        }
    }

    /// The index at which the transaction stands, and what it has.
    #[inline(always)]
    pub(crate) fn found(&self, txn: TxnNo) -> Option<(usize, Option<V>)>
        ensures at { IfSome result (λ found. slice_get (keys_of self.now) found.0 ≡ Some txn) }
        ensures had { IfSome result (λ found. found.1 ≡ content_of self.now txn) }
        ensures none { IfNone result (IsFalse (holds self.now txn)) }
    {
        if self.many.len() == 0 {
            self.few.found(txn)
        } else {
            self.many.found(txn)
        }
    }

    /// Sets what the transaction at this index has. It takes no memory.
    #[inline(always)]
    pub(crate) fn put(&mut self, index: usize, value: V)
        requires { index < length self.old }
        ensures keys { keys_of self.new ≡ keys_of self.old }
        ensures changed { (t : ℕ) → slice_get (keys_of self.old) index ≡ Some t →
            IsChangedAt self.old self.new t (Some (Some value)) }
    {
        if self.many.len() == 0 {
            self.few.put(index, value);
        } else {
            self.many.put(index, value);
        }
    }

    /// Gives the transaction, which has none, an empty place, and tells its index. The only error
    /// is that memory runs out, and then nothing changes.
    pub(crate) fn insert(&mut self, txn: TxnNo) -> Result<usize, NoMemory>
        requires { IsFalse (holds self.old txn) }
        ensures at { IfOk result (λ index. slice_get (keys_of self.new) index ≡ Some txn) }
        ensures changed { OnOk result (IsChangedAt self.old self.new txn (Some None)) }
        ensures more { OnOk result (length self.new ≡ length self.old + 1) }
        ensures err { OnErr result (self.new ≡ self.old) }
    {
        if self.many.len() > 0 {
            return self.many.insert(txn);
        }
        if self.few.len() < IN_VALUE {
            return Ok(self.few.insert(txn));
        }
        let index = self.many.fill(&self.few, txn)?;
        self.few = FewCells::new();
        Ok(index)
    }

    /// Takes the transaction out, and gives what it had. It takes no memory.
    #[inline(always)]
    pub(crate) fn remove(&mut self, txn: TxnNo) -> Option<V>
        ensures had { result ≡ content_of self.old txn }
        ensures changed { IsChangedAt self.old self.new txn None }
        ensures fewer { length self.new ≤ length self.old }
    {
        if self.many.len() == 0 {
            self.few.remove(txn)
        } else {
            self.many.remove(txn)
        }
    }
}
