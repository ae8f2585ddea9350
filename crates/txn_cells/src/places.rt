//! What is held at each key.
ghost use Rattle.std.specs.Prelude.{◌≡◌, not, nat_eq, false, length, slice_get, [], IsFalse, IsOk, IsTrue, IfNone, IfOk, IfSome, OnErr, OnOk, List, ℕ, Some, None};
ghost use Rattle.std.specs.List.Sorted.{IsStrictlyIncreasing};
ghost use Rattle.std.specs.Map.{keys_of};
ghost use Rattle.txn_names.specs.Path.{label_eq};
ghost use Rattle.txn_cells.specs.Cells.{is_it, with_place, AreGivenUp, AreHandedUp, HasJoined, is_among, with_content, with_joined};
ghost use Rattle.txn_cells.specs.Kept.{AreAt, StayAt, content_kept, held_at, place_kept, stands};

use crate::inherit::Inherit;
use crate::key_cells::KeyCells;
use crate::key_lists::KeyList;
use indexmap::IndexMap;
use serial_spec::NoMemory;
use std::alloc::{AllocError, Global};
use std::marker::Model;
use txn_names::Key;
use txn_tree::TxnNo;

/// What is held at each key. A key stays when its last holder goes, and so stands at one place
/// among all keys for good. The place that `place_for` gave last is remembered, since what is set
/// at a key is mostly set right after a place was asked for there.
#[derive(Drop)]
pub(crate) struct Places<V: Inherit> {
    alloc: Global,
    holders: IndexMap<Key, KeyCells<V>>,
    recent: usize,
}

impl<V: Inherit> Model for Places<V> {
    ghost use Rattle.txn_cells.specs.Kept.{AtKeys};

    ghost Value = { AtKeys V };

    ghost view = { λ p. p.holders.entries };
}

impl<V: Inherit> Places<V> {
    /// No key has places. It takes no memory yet.
    pub(crate) fn new(alloc: Global) -> Self
        ensures { result ≡ [] }
    {
        Places {
            alloc,
            holders: IndexMap::new(alloc),
            recent: 0,
        }
    }

    // The remembered place, if it is that of the key. To compare costs less than to look the key
    // up.
    fn remembered(&self, key: &Key) -> Option<usize>
        ensures { IfSome result (λ p. slice_get (keys_of self.now) p ≡ Some key.now) }
    {
        let (recent, _) = self.holders.get_index(self.recent)?;
        if *recent == *key {
            Some(self.recent)
        } else {
            None
        }
    }

    // The place of the key among all keys, if it is among them.
    fn index_of(&self, key: &Key) -> Option<usize>
        ensures some { IfSome result (λ p. slice_get (keys_of self.now) p ≡ Some key.now) }
        ensures none { IfNone result ((u : ℕ) → IsFalse (place_kept self.now u key.now)) }
    {
        match self.remembered(key) {
            Some(place) => Some(place),
            None => self.holders.get_index_of(key),
        }
    }

    /// What all transactions have at the key, if it is among the keys.
    pub(crate) fn at(&self, key: &Key) -> Option<&KeyCells<V>>
        ensures some { IfSome result (λ cells. held_at self.now key.now ≡ cells.now) }
        ensures none { IfNone result (held_at self.now key.now ≡ []) }
    {
        self.holders.get(key)
    }

    /// What is held at this place among all keys, if the key stands there.
    pub(crate) fn at_place(&self, place: usize, key: &Key) -> Option<&KeyCells<V>>
        ensures { IfSome result (λ cells. held_at self.now key.now ≡ cells.now) }
    {
        let (found, cells) = self.holders.get_index(place)?;
        if *found == *key { Some(cells) } else { None }
    }

    /// As `at`, where the key mostly stands at this place among all keys: it is compared first,
    /// which costs less than to look the key up.
    pub(crate) fn near(&self, place: usize, key: &Key) -> Option<&KeyCells<V>>
        ensures some { IfSome result (λ cells. held_at self.now key.now ≡ cells.now) }
        ensures none { IfNone result (held_at self.now key.now ≡ []) }
    {
        match self.at_place(place, key) {
            Some(cells) => Some(cells),
            None => self.at(key),
        }
    }

    /// As `at`, where the key's place is mostly the remembered one.
    pub(crate) fn at_remembered(&self, key: &Key) -> Option<&KeyCells<V>>
        ensures some { IfSome result (λ cells. held_at self.now key.now ≡ cells.now) }
        ensures none { IfNone result (held_at self.now key.now ≡ []) }
    {
        self.near(self.recent, key)
    }

    /// Remembers the place of the key, if it is among the keys.
    pub(crate) fn remember(&mut self, key: &Key)
        ensures { self.new ≡ self.old }
    {
        if let Some(place) = self.holders.get_index_of(key) {
            self.recent = place;
        }
    }

    /// The remembered place.
    #[inline(always)]
    pub(crate) fn recent(&self) -> usize {
        self.recent
    }

    /// Takes this place for the remembered one.
    pub(crate) fn expect(&mut self, place: usize)
        ensures { self.new ≡ self.old }
    {
        self.recent = place;
    }

    /// The place of the key among all keys. One that is not among them yet goes last, with no
    /// holders.
    pub(crate) fn place_for(&mut self, key: &Key) -> Result<usize, NoMemory>
        ensures held { (q : List ℕ) → held_at self.new q ≡ held_at self.old q }
        ensures place { IfOk result (λ p. slice_get (keys_of self.new) p ≡ Some key.now) }
        ensures stay { StayAt (keys_of self.old) (keys_of self.new) }
        ensures succeeds { (u : ℕ) → IsTrue (place_kept self.old u key.now) → IsOk result }
    {
        if let Some(recent) = self.remembered(key) {
            return Ok(recent);
        }
        if let Some(place) = self.holders.get_index_of(key) {
            self.recent = place;
            return Ok(place);
        }
        let place = self.holders.len();
        match self.holders.insert(*key, KeyCells::new(self.alloc)) {
            Ok(_) => {
                self.recent = place;
                Ok(place)
            }
            Err(_) => Err(AllocError),
        }
    }

    /// Makes an empty place for the transaction, if it has none, at the key that has this index
    /// among all keys, and tells whether it had none.
    pub(crate) fn add(&mut self, txn: TxnNo, key: &Key, place: usize) -> Result<bool, NoMemory>
        requires at { slice_get (keys_of self.old) place ≡ Some key.now }
        ensures keys { keys_of self.new ≡ keys_of self.old }
        ensures made { IfOk result (λ made. made ≡ not (place_kept self.old txn key.now)) }
        ensures contents { (u : ℕ) → (q : List ℕ) → content_kept self.new u q
            ≡ content_kept self.old u q }
        ensures ok { OnOk result ((u : ℕ) → (q : List ℕ) → place_kept self.new u q
            ≡ with_place (place_kept self.old) txn key.now u q) }
        ensures err { OnErr result ((u : ℕ) → (q : List ℕ) → place_kept self.new u q
            ≡ place_kept self.old u q) }
        ensures succeeds { IsTrue (place_kept self.old txn key.now) → IsOk result }
    {
        self.holders.get_index_mut(place).unwrap().add(txn)
    }

    /// Makes a place for the transaction, if it has none, at the key that has this index among all
    /// keys, and adds this to what it has there, as an access of its own. It tells whether it had no
    /// place. The only error is that memory runs out, and then nothing changes.
    #[inline(always)]
    pub(crate) fn take(
        &mut self,
        txn: TxnNo,
        key: &Key,
        place: usize,
        added: V,
    ) -> Result<bool, NoMemory>
        requires at { slice_get (keys_of self.old) place ≡ Some key.now }
        ensures keys { keys_of self.new ≡ keys_of self.old }
        ensures made { IfOk result (λ made. made ≡ not (place_kept self.old txn key.now)) }
        ensures contents { OnOk result (HasJoined (V.joined added) txn key.now
            (content_kept self.old) (content_kept self.new)) }
        ensures ok { OnOk result ((u : ℕ) → (q : List ℕ) → place_kept self.new u q
            ≡ with_place (place_kept self.old) txn key.now u q) }
        ensures err { OnErr result ((q : List ℕ) → held_at self.new q ≡ held_at self.old q) }
        ensures succeeds { IsTrue (place_kept self.old txn key.now) → IsOk result }
    {
        self.holders.get_index_mut(place).unwrap().take(txn, added)
    }

    /// Sets what the transaction has at the key. It takes no memory.
    pub(crate) fn set(&mut self, txn: TxnNo, key: &Key, value: V)
        requires { IsTrue (place_kept self.old txn key.now) }
        ensures keys { keys_of self.new ≡ keys_of self.old }
        ensures contents { (u : ℕ) → (q : List ℕ) → content_kept self.new u q
            ≡ with_content (content_kept self.old) txn key.now value u q }
        ensures places { (u : ℕ) → (q : List ℕ) → place_kept self.new u q
            ≡ place_kept self.old u q }
    {
        let place = self.index_of(key).unwrap();
        self.holders.get_index_mut(place).unwrap().set(txn, value);
    }

    /// Adds this to what the transaction has at the key, as an access of its own. It takes no
    /// memory.
    pub(crate) fn join(&mut self, txn: TxnNo, key: &Key, added: V)
        requires { IsTrue (place_kept self.old txn key.now) }
        ensures keys { keys_of self.new ≡ keys_of self.old }
        ensures contents { (u : ℕ) (q : List ℕ) → content_kept self.new u q
            ≡ with_joined (content_kept self.old) txn key.now (V.joined added) u q }
        ensures places { (u : ℕ) → (q : List ℕ) → place_kept self.new u q
            ≡ place_kept self.old u q }
    {
        let place = self.index_of(key).unwrap();
        self.holders.get_index_mut(place).unwrap().join(txn, added);
    }

    /// Takes the child out of those at the key that has this index among all keys. Its parent, if
    /// there is one, inherits what it had there. It takes no memory.
    pub(crate) fn hand_up(&mut self, key: &Key, place: usize, child: TxnNo, parent: Option<TxnNo>)
        requires at { slice_get (keys_of self.old) place ≡ Some key.now }
        requires other { IfSome parent (λ p. IsFalse (nat_eq child p)) }
        requires place { IfSome parent (λ p. IsTrue (place_kept self.old p key.now)) }
        ensures keys { keys_of self.new ≡ keys_of self.old }
        ensures contents { AreHandedUp (label_eq key.now) V.inherited child parent
            (content_kept self.old) (content_kept self.new) }
        ensures places { AreGivenUp (label_eq key.now) child (place_kept self.old)
            (place_kept self.new) }
    {
        self.holders
            .get_index_mut(place)
            .unwrap()
            .hand_up(child, parent);
    }

    /// Hands up what the child has at each key of the list, as `hand_up` does at one.
    pub(crate) fn hand_up_all(&mut self, list: &KeyList, child: TxnNo, parent: &Option<TxnNo>)
        requires at { AreAt (keys_of self.old) list.now }
        requires other { IfSome parent.now (λ p. IsFalse (nat_eq child p)) }
        requires places { IfSome parent.now (λ p. (q : List ℕ)
            → IsTrue (is_among (keys_of list.now) q) → IsTrue (place_kept self.old p q)) }
        ensures keys { keys_of self.new ≡ keys_of self.old }
        ensures contents { AreHandedUp (is_among (keys_of list.now)) V.inherited child parent.now
            (content_kept self.old) (content_kept self.new) }
        ensures places { AreGivenUp (is_among (keys_of list.now)) child (place_kept self.old)
            (place_kept self.new) }
    {
        for index in 0..list.len() {
            if let Some(entry) = list.get(index) {
                self.hand_up(&entry.0, entry.1, child, *parent);
            }
        }
    }
}
