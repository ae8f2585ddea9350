//! The records of waits, in a slab.
ghost use Rattle.std.specs.Prelude.{◌≡◌, ◌≢◌, ◌+◌, ◌<◌, ◌≤◌, ◌∷◌, ◌++◌, [], ℕ, length, slice_get, slice_set, IsOk, IfNone, IfSome, OnErr, OnOk, None, Some, vec_capacity};
ghost use Rattle.std.specs.Option.{option_copied};
ghost use Rattle.slab.specs.Slab.{ContainsKey, get, slab_len};
ghost use Rattle.wait_cycles.specs.Stored.{AreInTable, IsRecord};
ghost use Rattle.wait_cycles.specs.Waiting.{AreOnce, IsTaken, wait_of};

use crate::waits::Wait;
use serial_spec::{Asked, By, NoMemory};
use slab::Slab;
use std::alloc::Global;
use std::marker::Model;
use txn_tree::{MOST_TRANSACTIONS, TxnNo};

/// A wait, and its place among all.
#[derive(Clone, Copy, Debug, PartialEq, Eq)]
pub(crate) struct Record {
    pub(crate) wait: Wait,
    pub(crate) place: usize,
}

/// Waits at places, at most one of a transaction, each in a slab: its key stands at its place, and
/// in a table at the number of its transaction. A number that is past the table is looked for among
/// all; the table has a place for each that a tree gives.
#[derive(Drop)]
pub(crate) struct Records {
    slab: Slab<Record>,
    keys: Vec<usize>,
    table: Vec<Option<usize>>,
    room: usize,
}

impl Model for Records {
    ghost use Rattle.std.specs.Prelude.{vec_capacity};
    ghost use Rattle.wait_cycles.specs.Stored.{AreStored, HasRoom, waits_under};
    ghost use Rattle.wait_cycles.specs.Waiting.{Waiting};

    ghost Value = { Waiting };

    ghost view = { λ r. record { waits = waits_under r.slab r.keys.items; room = r.room } };

    ghost invariant = { λ r. AreStored r.slab r.keys.items r.table.items
        × HasRoom r.slab r.keys.items (vec_capacity r.keys) r.table.items r.room };
}

// The record of this transaction, looked for among all.
fn search(slab: &Slab<Record>, txn: TxnNo) -> Option<&Record>
    ensures some { IfSome (option_copied result) (λ r. (k : ℕ) × (get slab.now k ≡ Some r)
        × (r.wait.txn ≡ txn)) }
    ensures none { IfNone result ((k : ℕ) (r : Record) → get slab.now k ≡ Some r →
        r.wait.txn ≢ txn) }
{
    for (_, record) in slab.iter() {
        if record.wait.txn == txn {
            return Some(record);
        }
    }
    None
}

// The key at this place.
fn key_at(keys: &[usize], place: usize) -> Option<usize>
    ensures { result ≡ slice_get keys.now place }
{
    keys.get(place).copied()
}

// What the table has at the number, if it has a place for it.
fn slot_at(table: &[Option<usize>], txn: TxnNo) -> Option<Option<usize>>
    ensures { result ≡ slice_get table.now txn }
{
    table.get(txn.place() as usize).copied()
}

// The record of this transaction: in one step, or looked for among all where the table has no place
// for it.
fn look<'a>(slab: &'a Slab<Record>, table: &[Option<usize>], txn: TxnNo) -> Option<&'a Record>
    requires { AreInTable slab.now table.now }
    ensures some { IfSome (option_copied result) (λ r. (k : ℕ) × (get slab.now k ≡ Some r)
        × (r.wait.txn ≡ txn)) }
    ensures none { IfNone result ((k : ℕ) (r : Record) → get slab.now k ≡ Some r →
        r.wait.txn ≢ txn) }
{
    match slot_at(table, txn) {
        Some(slot) => {
            let key = slot?;
            slab.get(key)
        }
        None => search(slab, txn),
    }
}

// Makes the table, unless it is made. It has no keys then.
fn make(table: &mut Vec<Option<usize>>) -> Result<(), NoMemory>
    ensures ok { OnOk result (0 < length table.new.items) }
    ensures kept { 0 < length table.old.items → table.new.items ≡ table.old.items }
    ensures none { length table.old.items ≡ 0 → (t : ℕ) (k : ℕ) →
        slice_get table.new.items t ≢ Some (Some k) }
{
    if table.is_empty() {
        table.resize(MOST_TRANSACTIONS, None)?;
    }
    Ok(())
}

// Puts a key at a number, or none, if the table has a place for it.
fn put_key(table: &mut Vec<Option<usize>>, txn: TxnNo, key: Option<usize>)
    ensures { table.new.items ≡ slice_set table.old.items txn key }
{
    let number = txn.place() as usize;
    if number < table.len() {
        table[number] = key;
    }
}

// Gives the record under the key another place.
fn move_to(slab: &mut Slab<Record>, key: usize, place: usize)
    requires { ContainsKey slab.old key }
    ensures moved { (w : Wait) (p : ℕ) → IsRecord slab.old key w p → IsRecord slab.new key w place }
    ensures others { (other : ℕ) → other ≢ key → get slab.new other ≡ get slab.old other }
    ensures len { slab_len slab.new ≡ slab_len slab.old }
    ensures capacity { slab.new.capacity ≡ slab.old.capacity }
{
    if let Some(record) = slab.get_mut(key) {
        record.place = place;
    }
}

// Gives the record of the key at this place, if there are so many, this place.
fn settle(slab: &mut Slab<Record>, keys: &[usize], place: usize)
    requires { IfSome (slice_get keys.now place) (ContainsKey slab.old) }
    ensures moved { (k : ℕ) (w : Wait) (p : ℕ) → slice_get keys.now place ≡ Some k
        → IsRecord slab.old k w p → IsRecord slab.new k w place }
    ensures others { (k : ℕ) → slice_get keys.now place ≢ Some k → get slab.new k ≡ get slab.old k }
    ensures len { slab_len slab.new ≡ slab_len slab.old }
    ensures capacity { slab.new.capacity ≡ slab.old.capacity }
{
    if let Some(key) = keys.get(place) {
        move_to(slab, *key, place);
    }
}

impl Records {
    /// None yet. It takes no memory yet.
    pub(crate) fn new(alloc: Global) -> Self
        ensures waits { result.waits ≡ [] }
        ensures room { result.room ≡ 0 }
    {
        Records {
            slab: Slab::new(alloc),
            keys: Vec::new(alloc),
            table: Vec::new(alloc),
            room: 0,
        }
    }

    /// Makes room for this many more. The records are as before, also if memory runs out, which is
    /// the only error.
    pub(crate) fn reserve(&mut self, additional: usize) -> Result<(), NoMemory>
        ensures waits { self.new.waits ≡ self.old.waits }
        ensures ok { OnOk result (additional ≤ self.new.room) }
        ensures kept { self.old.room ≤ self.new.room }
        ensures succeeds { additional ≤ self.old.room → IsOk result }
    {
        if self.room < additional {
            self.slab.reserve(additional)?;
            self.keys.reserve(additional)?;
            make(&mut self.table)?;
            self.room = additional;
        }
        Ok(())
    }

    /// How many there are.
    pub(crate) fn len(&self) -> usize
        ensures len { result ≡ length self.now.waits }
        ensures once { AreOnce self.now }
    {
        self.keys.len()
    }

    /// The wait at this place, if there are so many.
    pub(crate) fn at(&self, place: usize) -> Option<&Wait>
        ensures wait { option_copied result ≡ slice_get self.now.waits place }
        ensures once { AreOnce self.now }
    {
        let key = key_at(self.keys.as_slice(), place)?;
        let record = self.slab.get(key)?;
        Some(&record.wait)
    }

    /// The record of the transaction's wait, if it waits.
    pub(crate) fn find(&self, txn: TxnNo) -> Option<&Record>
        ensures some { IfSome (option_copied result)
            (λ r. (slice_get self.now.waits r.place ≡ Some r.wait) × (r.wait.txn ≡ txn)) }
        ensures none { IfNone result (wait_of self.now txn ≡ None) }
        ensures once { AreOnce self.now }
    {
        look(&self.slab, self.table.as_slice(), txn)
    }

    /// Puts a wait behind all others, where there is room for it. Its transaction did not wait.
    pub(crate) fn push(&mut self, txn: TxnNo, asked: &Asked, by: By)
        requires none { wait_of self.old txn ≡ None }
        requires room { 0 < self.old.room }
        ensures waits { self.new.waits
            ≡ self.old.waits ++ (record { txn = txn; asked = asked.now; by = by }) ∷ [] }
        ensures room { self.old.room ≡ self.new.room + 1 }
    {
        let place = self.keys.len();
        let wait = Wait {
            txn,
            asked: *asked,
            by,
        };
        let key = self.slab.insert_reserved(Record { wait, place });
        self.keys.push_reserved(key);
        put_key(&mut self.table, txn, Some(key));
        self.room -= 1;
    }

    /// Takes the wait at this place out. The last stands there then.
    pub(crate) fn take(&mut self, place: usize)
        requires { place < length self.old.waits }
        ensures taken { IsTaken place self.old.waits self.new.waits }
        ensures once { AreOnce self.old × AreOnce self.new }
        ensures room { self.old.room ≡ self.new.room }
    {
        let key = self.keys.swap_remove(place);
        let record = self.slab.remove(key);
        put_key(&mut self.table, record.wait.txn, None);
        settle(&mut self.slab, self.keys.as_slice(), place);
    }
}
