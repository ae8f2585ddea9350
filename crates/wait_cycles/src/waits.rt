//! The accesses that wait.
ghost use Rattle.std.specs.Prelude.{◌≡◌, ◌+◌, ◌<◌, ◌≤◌, [], ℕ, nat_eq, not, filter, length, slice_get, if◌then◌else◌, false, IsFalse, IsOk, IsSome, IsTrue, IfNone, IfSome, OnOk, OnErr, None, Some};
ghost use Rattle.std.specs.Option.{option_copied};
ghost use Rattle.serial_spec.specs.declared.target.Asked.TheVariants.{At, Over};
ghost use Rattle.serial_spec.specs.Targets.{meets, target as locked};
ghost use Rattle.wait_cycles.specs.Sieve.{AreMarked};
ghost use Rattle.wait_cycles.specs.Waiting.{AreOnce, AreUnmet, HasJoined, IsTaken, StandsAt, is_under, is_under_in, wait_of, wait_with};

use crate::records::Records;
use crate::sieve::Sieve;
use serial_spec::{Asked, By, NoMemory, Op, Target};
use std::alloc::Global;
use std::marker::Model;
use txn_names::{Group, Key};
use txn_tree::{Tree, TxnNo};

/// An access that waits: whose it is, what it asks, and by which line.
#[derive(Clone, Copy, Debug, PartialEq, Eq)]
pub struct Wait {
    pub txn: TxnNo,
    pub asked: Asked,
    pub by: By,
}

/// At least so many calls take waits out before the marks are made anew.
const LEAST_GONE: usize = 16;

/// The accesses that wait, at most one of a transaction. Only `reserve` and `add` take memory.
#[derive(Drop)]
pub struct Waits {
    records: Records,
    // The place of each is marked for what it asks.
    sieve: Sieve,
    // So many calls have taken waits out since the marks were made anew.
    gone: usize,
}

impl Model for Waits {
    ghost use Rattle.wait_cycles.specs.Waiting.{Waiting};
    ghost use Rattle.wait_cycles.specs.Sieve.{AreMarked};

    ghost Value = { Waiting };

    ghost view = { λ w. w.records };

    ghost invariant = { λ w. AreMarked w.sieve w.records.waits };
}

// Whether the wait at this place is of the transaction or of one below it.
fn is_under_at(records: &Records, tree: &Tree, txn: TxnNo, place: usize) -> bool
    ensures { result ≡ is_under_in tree.now txn (slice_get records.now.waits place) }
{
    match records.at(place) {
        Some(wait) => tree.is_under(txn, wait.txn),
        None => false,
    }
}

// Marks the places of these for what they ask, and no others.
fn mark_anew(sieve: &mut Sieve, records: &Records)
    ensures { AreMarked sieve.new records.now.waits }
{
    sieve.clear();
    for place in 0..records.len() {
        if let Some(wait) = records.at(place) {
            sieve.mark(&wait.asked, place);
        }
    }
}

// Takes the wait at this place out. The last stands there then, and is marked there.
fn take_out(records: &mut Records, sieve: &mut Sieve, place: usize)
    requires within { place < length records.old.waits }
    requires marked { AreMarked sieve.old records.old.waits }
    ensures taken { IsTaken place records.old.waits records.new.waits }
    ensures once { AreOnce records.old × AreOnce records.new }
    ensures room { records.old.room ≡ records.new.room }
    ensures marked { AreMarked sieve.new records.new.waits }
{
    records.take(place);
    if let Some(wait) = records.at(place) {
        sieve.mark(&wait.asked, place);
    }
}

impl Waits {
    /// Nobody waits. It takes no memory yet.
    pub fn new(alloc: Global) -> Self
        ensures waits { result.waits ≡ [] }
        ensures room { result.room ≡ 0 }
    {
        Waits {
            records: Records::new(alloc),
            sieve: Sieve::new(),
            gone: 0,
        }
    }

    /// Makes room for this many more waits, so that adding them takes no memory. Those that wait
    /// are as before, also if memory runs out, which is the only error. Where there is room for so
    /// many already it succeeds.
    pub fn reserve(&mut self, additional: usize) -> Result<(), NoMemory>
        ensures waits { self.new.waits ≡ self.old.waits }
        ensures ok { OnOk result (additional ≤ self.new.room) }
        ensures kept { self.old.room ≤ self.new.room }
        ensures succeeds { additional ≤ self.old.room → IsOk result }
    {
        self.records.reserve(additional)
    }

    /// Each transaction waits once at most. The call does nothing: it tells the prover so.
    pub fn has_each_once(&self)
        ensures { AreOnce self.now }
    {
        let _ = self.records.len();
    }

    /// How many wait. Each wait stands at one place, from 0 to below this number.
    pub fn len(&self) -> usize
        ensures len { result ≡ length self.now.waits }
        ensures once { AreOnce self.now }
    {
        self.records.len()
    }

    /// Whether nobody waits.
    pub fn is_empty(&self) -> bool
        ensures { result ≡ nat_eq (length self.now.waits) 0 }
    {
        self.len() == 0
    }

    /// The wait at this place, if so many wait. The places change where a wait is added or goes.
    pub fn at(&self, place: usize) -> Option<&Wait>
        ensures wait { option_copied result ≡ slice_get self.now.waits place }
        ensures stands { IfSome (option_copied result) (λ w. wait_of self.now w.txn ≡ Some w) }
    {
        self.records.at(place)
    }

    /// The transaction's wait, if it waits.
    pub fn of(&self, txn: TxnNo) -> Option<&Wait>
        ensures { option_copied result ≡ wait_of self.now txn }
    {
        let record = self.records.find(txn)?;
        Some(&record.wait)
    }

    /// The place at which the transaction's wait stands, if it waits.
    pub fn place_of(&self, txn: TxnNo) -> Option<usize>
        ensures some { IfSome result (StandsAt self.now txn) }
        ensures none { IfNone result (wait_of self.now txn ≡ None) }
    {
        let found = self.records.find(txn)?;
        Some(found.place)
    }

    /// Whether an access that waits may be for what has a key in common with the target. It looks
    /// at no wait, and mostly tells no where none is.
    pub fn may_meet(&self, target: &Target) -> bool
        ensures { IsFalse result → (place : ℕ) (w : Wait) →
            slice_get self.now.waits place ≡ Some w → meets target.now (locked w.asked) ≡ false }
    {
        match target {
            Target::Key(key) => !self.is_empty() && self.sieve.may_meet(key),
            Target::Group(_) => !self.is_empty(),
        }
    }

    // The first place from this one on that is marked for what may have a key in common with the
    // target. Of a group that is each place.
    #[inline(always)]
    fn next_marked(&self, target: &Target, from: usize) -> Option<usize>
        ensures some { IfSome result (λ next. (from ≤ next)
            × AreUnmet self.now.waits target.now from next) }
        ensures none { IfNone result ((to : ℕ) → AreUnmet self.now.waits target.now from to) }
    {
        match target {
            Target::Key(key) => self.sieve.next_met(key, from),
            Target::Group(_) => Some(from),
        }
    }

    /// The first place from this one on at which an access waits that may be for what has a key in
    /// common with the target. None that stands between is, and where there is no such place none
    /// that stands from this one on is. It looks at no wait, and passes over most that are not.
    pub fn next_met(&self, target: &Target, from: usize) -> Option<usize>
        ensures some { IfSome result (λ next. (from ≤ next) × (next < length self.now.waits)
            × AreUnmet self.now.waits target.now from next) }
        ensures none { IfNone result
            (AreUnmet self.now.waits target.now from (length self.now.waits)) }
    {
        let next = self.next_marked(target, from)?;
        if next < self.len() { Some(next) } else { None }
    }

    // Makes the marks anew, where more calls have taken waits out than there are, and not a few.
    fn sift(&mut self)
        ensures { self.new ≡ self.old }
    {
        self.gone = self.gone.saturating_add(1);
        if self.gone > self.records.len().max(LEAST_GONE) {
            mark_anew(&mut self.sieve, &self.records);
            self.gone = 0;
        }
    }

    /// A transaction that did not wait waits for an operation at a key. If memory runs out, the
    /// only error, all is as before. Where there is room for one it succeeds.
    pub fn add(&mut self, txn: TxnNo, key: &Key, op: Op, by: By) -> Result<(), NoMemory>
        requires { wait_of self.old txn ≡ None }
        ensures ok { OnOk result
            (HasJoined self.old self.new (record { txn = txn; asked = At key.now op; by = by })) }
        ensures err { OnErr result (self.new.waits ≡ self.old.waits) }
        ensures succeeds { 0 < self.old.room → IsOk result }
        ensures room { self.old.room ≤ self.new.room + 1 }
    {
        self.add_asked(txn, &Asked::At(*key, op), by)
    }

    /// A transaction that did not wait waits for the sum over a group. If memory runs out, the only
    /// error, all is as before. Where there is room for one it succeeds.
    pub fn add_sum(&mut self, txn: TxnNo, group: &Group, by: By) -> Result<(), NoMemory>
        requires { wait_of self.old txn ≡ None }
        ensures ok { OnOk result
            (HasJoined self.old self.new (record { txn = txn; asked = Over group.now; by = by })) }
        ensures err { OnErr result (self.new.waits ≡ self.old.waits) }
        ensures succeeds { 0 < self.old.room → IsOk result }
        ensures room { self.old.room ≤ self.new.room + 1 }
    {
        self.add_asked(txn, &Asked::Over(*group), by)
    }

    /// A transaction that did not wait waits for what it asked. If memory runs out, the only error,
    /// all is as before. Where there is room for one it succeeds.
    pub fn add_asked(&mut self, txn: TxnNo, asked: &Asked, by: By) -> Result<(), NoMemory>
        requires { wait_of self.old txn ≡ None }
        ensures ok { OnOk result
            (HasJoined self.old self.new (record { txn = txn; asked = asked.now; by = by })) }
        ensures err { OnErr result (self.new.waits ≡ self.old.waits) }
        ensures succeeds { 0 < self.old.room → IsOk result }
        ensures room { self.old.room ≤ self.new.room + 1 }
    {
        self.reserve(1)?;
        self.add_reserved(txn, asked, by);
        Ok(())
    }

    /// A transaction that did not wait waits for what it asked, where there is room for it. It
    /// takes no memory.
    pub fn add_reserved(&mut self, txn: TxnNo, asked: &Asked, by: By)
        requires none { wait_of self.old txn ≡ None }
        requires room { 0 < self.old.room }
        ensures wait { (u : ℕ) → wait_of self.new u
            ≡ wait_with self.old (record { txn = txn; asked = asked.now; by = by }) u }
        ensures len { length self.new.waits ≡ length self.old.waits + 1 }
        ensures room { self.old.room ≡ self.new.room + 1 }
    {
        let place = self.records.len();
        self.records.push(txn, asked, by);
        self.sieve.mark(asked, place);
    }

    /// The transaction waits no more. So fewer wait, if it did.
    pub fn cancel(&mut self, txn: TxnNo)
        ensures waits { (u : ℕ) →
            wait_of self.new u ≡ (if nat_eq txn u then None else wait_of self.old u) }
        ensures len { length self.new.waits ≤ length self.old.waits }
        ensures fewer { IsSome (wait_of self.old txn) →
            length self.new.waits < length self.old.waits }
        ensures room { self.old.room ≤ self.new.room }
    {
        let Some(record) = self.records.find(txn) else {
            return;
        };
        let place = record.place;
        take_out(&mut self.records, &mut self.sieve, place);
        self.sift();
    }

    /// The transaction and all its descendants wait no more. So fewer wait, if any of them did.
    pub fn drop_under(&mut self, tree: &Tree, txn: TxnNo)
        ensures waits { (u : ℕ) →
            wait_of self.new u ≡ (if is_under tree.now txn u then None else wait_of self.old u) }
        ensures len { length self.new.waits ≤ length self.old.waits }
        ensures fewer { (u : ℕ) → IsTrue (is_under tree.now txn u) → IsSome (wait_of self.old u) →
            length self.new.waits < length self.old.waits }
        ensures room { self.old.room ≤ self.new.room }
    {
        let mut place = self.records.len();
        while place > 0 {
            place -= 1;
            if is_under_at(&self.records, tree, txn, place) {
                take_out(&mut self.records, &mut self.sieve, place);
            }
        }
        self.sift();
    }
}
