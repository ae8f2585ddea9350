//! What all transactions have at one key.
ghost use Rattle.std.specs.Prelude.{◌≡◌, ◌&&◌, ◌||◌, not, nat_eq, [], slice_get, IsFalse, IsOk, IsTrue, IfOk, IfNone, IfSome, OnErr, OnOk, Option, ℕ, if◌then◌else◌, Some, None};
ghost use Rattle.std.specs.List.{list_any};
ghost use Rattle.std.specs.List.Sorted.{IsStrictlyIncreasing};
ghost use Rattle.std.specs.Map.{keys_of};
ghost use Rattle.txn_cells.specs.Cells.{handed_up_here, joined_here};
ghost use Rattle.txn_cells.specs.Kept.{content_of, holds, stands};

use crate::cells::Cells;
use crate::inherit::Inherit;
use crate::marks::{FEW, make_room_to_mark};
use crate::numbers::{put_in, take_from};
use serial_spec::NoMemory;
use std::alloc::Global;
use std::marker::Model;
use txn_tree::TxnNo;

/// What all transactions have at one key. Where those with a place are more than a few, at least
/// those whose content stands out are marked by their numbers, rising, and there is room to mark
/// all. Of a few no marks are kept, since it costs less to go through them all. The index of the
/// one that `add` found or made last is remembered, since what is set is mostly set right after a
/// place was asked for.
#[derive(Drop)]
pub struct KeyCells<V: Inherit> {
    cells: Cells<V>,
    marked: Vec<TxnNo>,
    recent: usize,
}

impl<V: Inherit> Model for KeyCells<V> {
    ghost use Rattle.std.specs.Prelude.{vec_capacity};
    ghost use Rattle.txn_cells.specs.Kept.{HasMarksPastFew, Held};

    ghost Value = { Held V };

    ghost view = { λ h. h.cells };

    ghost invariant = { λ h.
        HasMarksPastFew V.outstanding h.cells h.marked.items (vec_capacity h.marked) };
}

impl<V: Inherit> KeyCells<V> {
    /// Nobody has a place. It takes no memory yet.
    pub(crate) fn new(alloc: Global) -> Self
        ensures { result ≡ [] }
    {
        KeyCells {
            cells: Cells::new(alloc),
            marked: Vec::new(alloc),
            recent: 0,
        }
    }

    /// The transactions that have a place, each once, in the order in which they began. No other
    /// has anything here.
    pub fn holders(&self) -> &[TxnNo]
        ensures each { (u : ℕ) → list_any (nat_eq u) result.now ≡ holds self.now u }
        ensures rising { IsStrictlyIncreasing result.now }
        ensures elsewhere { (u : ℕ) → IsFalse (holds self.now u) → content_of self.now u ≡ None }
    {
        self.cells.numbers()
    }

    /// Of these all whose content stands out, in the same order, and maybe some whose content does
    /// not: where only a few have a place, all of them.
    pub fn standing_out(&self) -> &[TxnNo]
        ensures all { (u : ℕ) → IsTrue (stands V.outstanding (content_of self.now u)) →
            IsTrue (list_any (nat_eq u) result.now) }
        ensures places { (u : ℕ) → IsTrue (list_any (nat_eq u) result.now) →
            IsTrue (holds self.now u) }
        ensures rising { IsStrictlyIncreasing result.now }
    {
        if self.cells.len() <= FEW {
            self.cells.numbers()
        } else {
            self.marked.as_slice()
        }
    }

    // The index at which the transaction stands, and what it has here. The remembered index is
    // compared first, which costs less than to look the number up.
    #[inline(always)]
    fn found(&self, txn: TxnNo) -> Option<(usize, Option<V>)>
        ensures at { IfSome result (λ found. slice_get (keys_of self.now) found.0 ≡ Some txn) }
        ensures had { IfSome result (λ found. found.1 ≡ content_of self.now txn) }
        ensures none { IfNone result (IsFalse (holds self.now txn)) }
    {
        match self.cells.recall(self.recent, txn) {
            Some(had) => Some((self.recent, had)),
            None => self.cells.found(txn),
        }
    }

    /// What the transaction has here.
    pub fn get(&self, txn: TxnNo) -> Option<V>
        ensures { result ≡ content_of self.now txn }
    {
        self.cells.get(txn)
    }

    /// Makes an empty place for the transaction, if it has none, and tells whether it had none.
    pub(crate) fn add(&mut self, txn: TxnNo) -> Result<bool, NoMemory>
        ensures made { IfOk result (λ made. made ≡ not (holds self.old txn)) }
        ensures contents { (u : ℕ) → content_of self.new u ≡ content_of self.old u }
        ensures ok { OnOk result ((u : ℕ) → holds self.new u ≡ (nat_eq txn u || holds self.old u)) }
        ensures err { OnErr result (self.new ≡ self.old) }
        ensures succeeds { IsTrue (holds self.old txn) → IsOk result }
    {
        if let Some((index, _)) = self.found(txn) {
            self.recent = index;
            return Ok(false);
        }
        make_room_to_mark(&mut self.marked, &self.cells)?;
        self.recent = self.cells.insert(txn)?;
        Ok(true)
    }

    // Sets what the transaction has, which stands at this index.
    #[inline(always)]
    fn put_at(&mut self, index: usize, txn: TxnNo, value: V)
        requires { slice_get (keys_of self.old) index ≡ Some txn }
        ensures contents { (u : ℕ) → content_of self.new u ≡ (if nat_eq txn u then Some value
            else content_of self.old u) }
        ensures places { (u : ℕ) → holds self.new u ≡ holds self.old u }
    {
        self.cells.put(index, value);
        if self.cells.len() > FEW && value.stands_out() {
            put_in(&mut self.marked, txn);
        }
    }

    /// Sets what the transaction has. It takes no memory.
    pub(crate) fn set(&mut self, txn: TxnNo, value: V)
        requires { IsTrue (holds self.old txn) }
        ensures contents { (u : ℕ) → content_of self.new u ≡ (if nat_eq txn u then Some value
            else content_of self.old u) }
        ensures places { (u : ℕ) → holds self.new u ≡ holds self.old u }
    {
        if let Some((index, _)) = self.found(txn) {
            self.put_at(index, txn, value);
        }
    }

    /// Adds this to what the transaction has, as an access of its own. It takes no memory.
    pub(crate) fn join(&mut self, txn: TxnNo, added: V)
        requires { IsTrue (holds self.old txn) }
        ensures contents { (u : ℕ) → content_of self.new u
            ≡ joined_here (content_of self.old) txn (V.joined added) u }
        ensures places { (u : ℕ) → holds self.new u ≡ holds self.old u }
    {
        if let Some((index, had)) = self.found(txn) {
            self.put_at(index, txn, V::join(added, had));
        }
    }

    /// Makes a place for the transaction, if it has none, and adds this to what it has, as an
    /// access of its own. It tells whether it had no place. The only error is that memory runs out,
    /// and then nothing changes.
    #[inline(always)]
    pub(crate) fn take(&mut self, txn: TxnNo, added: V) -> Result<bool, NoMemory>
        ensures made { IfOk result (λ made. made ≡ not (holds self.old txn)) }
        ensures contents { OnOk result ((u : ℕ) → content_of self.new u
            ≡ joined_here (content_of self.old) txn (V.joined added) u) }
        ensures ok { OnOk result ((u : ℕ) → holds self.new u ≡ (nat_eq txn u || holds self.old u)) }
        ensures err { OnErr result (self.new ≡ self.old) }
        ensures succeeds { IsTrue (holds self.old txn) → IsOk result }
    {
        if let Some((index, own)) = self.found(txn) {
            self.recent = index;
            self.put_at(index, txn, V::join(added, own));
            return Ok(false);
        }
        make_room_to_mark(&mut self.marked, &self.cells)?;
        let index = self.cells.insert(txn)?;
        self.recent = index;
        self.put_at(index, txn, V::join(added, None));
        Ok(true)
    }

    // Takes the transaction out, and gives what it had.
    fn remove(&mut self, txn: TxnNo) -> Option<V>
        ensures had { result ≡ content_of self.old txn }
        ensures contents { (u : ℕ) → content_of self.new u ≡ (if nat_eq txn u then None
            else content_of self.old u) }
        ensures places { (u : ℕ) → holds self.new u ≡ (not (nat_eq txn u) && holds self.old u) }
    {
        let had = self.cells.remove(txn);
        if self.cells.len() > FEW {
            take_from(&mut self.marked, txn);
        }
        had
    }

    /// Takes the child out. Its parent, if there is one, inherits what it had. It takes no memory.
    pub(crate) fn hand_up(&mut self, child: TxnNo, parent: Option<TxnNo>)
        requires other { IfSome parent (λ p. IsFalse (nat_eq child p)) }
        requires place { IfSome parent (λ p. IsTrue (holds self.old p)) }
        ensures contents { (u : ℕ) → content_of self.new u
            ≡ handed_up_here V.inherited (content_of self.old) child parent u }
        ensures places { (u : ℕ) → holds self.new u ≡ (not (nat_eq child u) && holds self.old u) }
    {
        let had = self.remove(child);
        if let Some(value) = had {
            if let Some(parent) = parent {
                if let Some((index, own)) = self.found(parent) {
                    self.put_at(index, parent, V::inherit(value, own));
                }
            }
        }
    }
}
