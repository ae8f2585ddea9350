//! The keys of each transaction.
ghost use Rattle.std.specs.Prelude.{◌≡◌, ◌≤◌, ◌<◌, ◌++◌, ◌∷◌, [], nat_eq, length, slice_get, IfSome, IsFalse, IsOk, IsTrue, Some, OnErr, OnOk, ℕ, if◌then◌else◌};
ghost use Rattle.std.specs.List.{IsDistinct, list_any};
ghost use Rattle.std.specs.Map.{keys_of};
ghost use Rattle.txn_names.specs.Path.{label_eq};
ghost use Rattle.txn_cells.specs.Kept.{busy_in, keys_at, listed_at, listed_with};

use serial_spec::NoMemory;
use std::alloc::{AllocError, Global};
use std::marker::Model;
use std::mem;
use txn_names::Key;
use txn_tree::TxnNo;

/// Keys, each once, and the place of each among all keys.
#[derive(Drop)]
pub(crate) struct KeyList {
    keys: Vec<Key>,
    places: Vec<usize>,
}

impl Model for KeyList {
    ghost use Rattle.std.specs.Prelude.{◌≡◌, length};
    ghost use Rattle.std.specs.List.{IsDistinct, zip};
    ghost use Rattle.txn_names.specs.Path.{label_eq};
    ghost use Rattle.txn_cells.specs.Kept.{Listed};

    ghost Value = { Listed };

    ghost view = { λ l. zip l.keys.items l.places.items };

    ghost invariant = { λ l. IsDistinct label_eq l.keys.items × (length l.places.items ≡ length l.keys.items) };
}

/// A list's first room is for so many keys. Most transactions access few, so that their lists are
/// allocated once.
const FIRST_ROOM: usize = 16;

// For how many keys more a list of this length makes room at least.
fn growth(len: usize) -> usize
    ensures { 0 < result }
{
    if len == 0 { FIRST_ROOM } else { 1 }
}

impl KeyList {
    fn new(alloc: Global) -> Self
        ensures { result ≡ [] }
    {
        KeyList {
            keys: Vec::new(alloc),
            places: Vec::new(alloc),
        }
    }

    /// How many keys the list has.
    pub(crate) fn len(&self) -> usize
        ensures { result ≡ length self.now }
    {
        self.keys.len()
    }

    fn keys(&self) -> &[Key]
        ensures same { result.now ≡ keys_of self.now }
        ensures once { IsDistinct label_eq result.now }
    {
        self.keys.as_slice()
    }

    /// The key at an index, with its place.
    pub(crate) fn get(&self, index: usize) -> Option<(Key, usize)>
        ensures { result ≡ slice_get self.now index }
    {
        if index < self.keys.len() {
            Some((self.keys[index], self.places[index]))
        } else {
            None
        }
    }

    fn add(&mut self, key: &Key, place: usize) -> Result<(), NoMemory>
        requires { IsFalse (list_any (label_eq key.now) (keys_of self.old)) }
        ensures ok { OnOk result (self.new ≡ self.old ++ (key.now, place) ∷ []) }
        ensures err { OnErr result (self.new ≡ self.old) }
    {
        let more = growth(self.keys.len());
        self.places.reserve(more)?;
        self.keys.reserve(more)?;
        self.keys.push(*key).unwrap();
        self.places.push(place).unwrap();
        Ok(())
    }
}

/// The list of each transaction, at its number, and how many of the lists have keys. A number past
/// the last list has no keys.
#[derive(Drop)]
pub(crate) struct KeyLists {
    alloc: Global,
    lists: Vec<KeyList>,
    busy: usize,
}

impl Model for KeyLists {
    ghost use Rattle.std.specs.Prelude.{◌≡◌};
    ghost use Rattle.txn_cells.specs.Kept.{Lists, busy_in};

    ghost Value = { Lists };

    ghost view = { λ l. l.lists.items };

    ghost invariant = { λ l. l.busy ≡ busy_in l.lists.items };
}

impl KeyLists {
    /// No transaction has keys. It takes no memory yet.
    pub(crate) fn new(alloc: Global) -> Self
        ensures { result ≡ [] }
    {
        KeyLists {
            alloc,
            lists: Vec::new(alloc),
            busy: 0,
        }
    }

    /// Whether nobody has any keys.
    pub(crate) fn is_empty(&self) -> bool
        ensures { result ≡ nat_eq (busy_in self.now) 0 }
    {
        self.busy == 0
    }

    /// The keys of the transaction.
    pub(crate) fn keys(&self, txn: TxnNo) -> &[Key]
        ensures same { result.now ≡ keys_at self.now txn }
        ensures once { IsDistinct label_eq result.now }
    {
        match self.lists.get(txn.place() as usize) {
            Some(list) => list.keys(),
            None => &[],
        }
    }

    /// How many keys the transaction has.
    pub(crate) fn count(&self, txn: TxnNo) -> usize
        ensures { result ≡ length (listed_at self.now txn) }
    {
        match self.lists.get(txn.place() as usize) {
            Some(list) => list.len(),
            None => 0,
        }
    }

    /// The transaction's key at an index, with its place.
    pub(crate) fn get(&self, txn: TxnNo, index: usize) -> Option<(Key, usize)>
        ensures { result ≡ slice_get (listed_at self.now txn) index }
    {
        self.lists.get(txn.place() as usize)?.get(index)
    }

    /// The place of the transaction's last key, if that is this one.
    pub(crate) fn place_if_last(&self, txn: TxnNo, key: &Key) -> Option<usize>
        ensures { IfSome result (λ place. (index : ℕ)
            × (slice_get (listed_at self.now txn) index ≡ Some (key.now, place))) }
    {
        let last = self.count(txn).checked_sub(1)?;
        let (found, place) = self.get(txn, last)?;
        if found == *key { Some(place) } else { None }
    }

    // Gives each number up to the transaction's a list, empty as yet.
    fn grow(&mut self, txn: TxnNo) -> Result<(), NoMemory>
        ensures lists { (u : ℕ) → listed_at self.new u ≡ listed_at self.old u }
        ensures ok { OnOk result (txn < length self.new) }
    {
        let place = txn.place() as usize;
        while self.lists.len() <= place {
            if self.lists.push(KeyList::new(self.alloc)).is_err() {
                return Err(AllocError);
            }
        }
        Ok(())
    }

    // Adds a key to a list that is there.
    fn add_at(&mut self, list: usize, key: &Key, place: usize) -> Result<(), NoMemory>
        requires within { list < length self.old }
        requires fresh { IsFalse (list_any (label_eq key.now) (keys_at self.old list)) }
        ensures ok { OnOk result
            ((u : ℕ) → listed_at self.new u ≡ listed_with self.old list (key.now, place) u) }
        ensures err { OnErr result ((u : ℕ) → listed_at self.new u ≡ listed_at self.old u) }
    {
        let first = self.lists[list].len() == 0;
        self.lists[list].add(key, place)?;
        if first {
            self.busy += 1;
        }
        Ok(())
    }

    /// Adds a key that stands at a place to the transaction's list. If memory runs out, each list
    /// has the keys that it had.
    pub(crate) fn add(&mut self, txn: TxnNo, key: &Key, place: usize) -> Result<(), NoMemory>
        requires fresh { IsFalse (list_any (label_eq key.now) (keys_at self.old txn)) }
        ensures ok { OnOk result
            ((u : ℕ) → listed_at self.new u ≡ listed_with self.old txn (key.now, place) u) }
        ensures err { OnErr result ((u : ℕ) → listed_at self.new u ≡ listed_at self.old u) }
    {
        self.grow(txn)?;
        self.add_at(txn.place() as usize, key, place)
    }

    /// Takes the transaction's list out. Its number has no keys then. It takes no memory.
    pub(crate) fn take(&mut self, txn: TxnNo) -> KeyList
        ensures taken { result ≡ listed_at self.old txn }
        ensures lists { (u : ℕ) → listed_at self.new u ≡ (if nat_eq txn u then []
            else listed_at self.old u) }
    {
        let place = txn.place() as usize;
        let empty = KeyList::new(self.alloc);
        if self.lists.len() <= place {
            return empty;
        }
        let taken = mem::replace(&mut self.lists[place], empty);
        if taken.len() > 0 {
            self.busy -= 1;
        }
        taken
    }
}
