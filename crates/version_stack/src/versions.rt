//! The versions over a base.
ghost use Rattle.std.specs.Prelude.{◌≡◌, ◌≤◌, ◌<◌, ◌&&◌, ℤ, pos, ◌+ℤ◌, ◌≤ℤ◌, neg_ℤ, ◌^◌, option_map, length, ◌+◌, not, nat_eq, false, IsOk, IsTrue, IfSome, IfNone, OnErr, OnOk, List, ℕ, None, Some, if◌then◌else◌};
ghost use Rattle.txn_cells.specs.Cells.{is_under};
ghost use Rattle.txn_names.specs.Text.{IsKey};
ghost use Rattle.serial_spec.specs.Changes.{AreRising, overlay};
ghost use Rattle.serial_spec.specs.Operations.{amount, as_option};
ghost use Rattle.serial_spec.specs.Rows.{IsRising, value_in};
ghost use Rattle.serial_spec.specs.Serial.{put};
ghost use Rattle.serial_spec.specs.Sums.{sum_in};
ghost use Rattle.version_stack.specs.Versioned.{FitsBase, IsTowards, base_after, base_in, handed_up, has_place, left_at, left_in, put_by, change_of, with_childs, with_keys, with_place};
ghost use Rattle.version_stack.specs.Seen.{as_i64, own_sum, seen_at, seen_in};

use crate::version::Version;
use serial_spec::{Left, NoMemory, PlainTable, sum_of};
use std::alloc::Global;
use std::marker::Model;
use txn_cells::CellTable;
use txn_names::{Change, Group, Key};
use txn_tree::{Tree, TxnNo};

/// What each live transaction, by its number, left at each key, over a base: the table that the
/// committed top-level transactions left. Room is made by a place for a transaction and a key;
/// nothing is left by a place alone.
#[derive(Drop)]
pub struct Versions {
    written: CellTable<Version>,
    base: PlainTable,
}

impl Model for Versions {
    ghost use Rattle.version_stack.specs.Versioned.{Versioned};

    ghost Value = { Versioned };

    ghost view = { λ v. record {
      written = v.written;
      base = v.base;
    } };
}

// Puts what was left at the key into the base.
fn put_left(base: &mut PlainTable, key: &Key, left: Version)
    requires { 0 < base.old.room }
    ensures put { value_in base.new.rows ≡ put (value_in base.old.rows) key.now left.value }
    ensures room { base.old.room ≤ base.new.room + 1 }
{
    base.put(key, left.value).unwrap();
}

// Puts what the transaction left at these keys into the base.
fn put_at(base: &mut PlainTable, written: &CellTable<Version>, txn: TxnNo, keys: &[Key])
    requires { length keys.now ≤ base.old.room }
    ensures put { (q : List ℕ) →
        value_in base.new.rows q ≡
        with_keys (left_at written.now txn) keys.now (value_in base.old.rows) q }
    ensures rising { IsRising base.old.rows × IsRising base.new.rows }
{
    base.has_rising_rows();
    for key in keys {
        if let Some(version) = written.get(txn, key) {
            put_left(base, key, version);
        }
    }
    base.has_rising_rows();
}

// An absent key counts as 0.
fn amount(value: Option<i64>) -> i128
    ensures value { result ≡ amount value }
    ensures least { neg_ℤ (pos (2 ^ 63)) ≤ℤ result }
    ensures most { result ≤ℤ pos (2 ^ 63) }
{
    i128::from(value.unwrap_or(0))
}

// By how much what was left at the key changes the sum over the group, where this is the value
// without it.
fn change_at(key: &Key, group: &Group, left: Option<Version>, before: Option<i64>) -> i128
    ensures change { result ≡ change_of group.now key.now (option_map (λ w. w.value) left) before }
    ensures key { IsKey key.now }
    ensures least { neg_ℤ (pos (2 ^ 64)) ≤ℤ result }
    ensures most { result ≤ℤ pos (2 ^ 64) }
{
    let _bytes = key.as_bytes();
    if !group.has(key) {
        return 0;
    }
    match left {
        Some(version) => amount(version.value) - amount(before),
        None => 0,
    }
}

impl Versions {
    /// No versions over this base. It takes no memory yet.
    pub fn new(alloc: Global, base: PlainTable) -> Self
        ensures left { (u : ℕ) → (q : List ℕ) → left_in result u q ≡ None }
        ensures places { (u : ℕ) → (q : List ℕ) → has_place result u q ≡ false }
        ensures base { result.base ≡ base }
    {
        Versions {
            written: CellTable::new(alloc),
            base,
        }
    }

    /// The base.
    pub fn base(&self) -> &PlainTable
        ensures { result.now ≡ self.now.base }
    {
        &self.base
    }

    /// The base alone. The versions are dropped.
    pub fn into_base(self) -> PlainTable
        ensures { result ≡ self.base }
    {
        let Versions { base, .. } = self;
        base
    }

    /// What the transaction left at the key.
    pub fn left(&self, txn: TxnNo, key: &Key) -> Left
        ensures { as_option result ≡ left_in self.now txn key.now }
    {
        match self.written.get(txn, key) {
            None => Left::Nothing,
            Some(Version { value: None }) => Left::Absent,
            Some(Version { value: Some(value) }) => Left::Value(value),
        }
    }

    /// The value that the transaction sees at the key: what the deepest of itself and its ancestors
    /// left, else the base's. One that has not begun sees the base's.
    pub fn value_for(&self, tree: &Tree, txn: TxnNo, key: &Key) -> Option<i64>
        ensures { result ≡ seen_in tree.now self.now txn key.now }
    {
        if txn.place() as usize >= tree.len() {
            return self.base.get(key);
        }
        // Where nobody has written no key is looked up.
        if self.written.is_empty() {
            return self.base.get(key);
        }
        // A key that is written is mostly the one at which a place was made last.
        let Some(versions) = self.written.at_remembered(key) else {
            return self.base.get(key);
        };
        let mut at = Some(txn);
        while let Some(above) = at {
            if let Some(version) = versions.get(above) {
                return version.value;
            }
            at = tree.parent_of(above);
        }
        self.base.get(key)
    }

    // What this one sees at the key, or the base's value where it is the root.
    fn seen_at(&self, tree: &Tree, number: &Option<TxnNo>, key: &Key) -> Option<i64>
        ensures { result ≡ seen_at tree.now self.now number.now key.now }
    {
        match number {
            Some(number) => self.value_for(tree, *number, key),
            None => self.base.get(key),
        }
    }

    // By how much what the transaction left changes the sum over the group, over what another, its
    // parent, sees.
    fn own_part(&self, tree: &Tree, above: &Option<TxnNo>, txn: TxnNo, group: &Group) -> i128
        ensures part { own_sum tree.now self.now above.now txn group.now
            ≡ sum_in (seen_at tree.now self.now above.now) group.now +ℤ result }
        ensures least { neg_ℤ (pos (2 ^ 122)) ≤ℤ result }
        ensures most { result ≤ℤ pos (2 ^ 122) }
    {
        let mut part: i128 = 0;
        for key in self.written.keys(txn) {
            let before = self.seen_at(tree, above, key);
            part += change_at(key, group, self.written.get(txn, key), before);
        }
        part
    }

    // The sum over the group of what the transaction sees.
    fn sum_seen(&self, tree: &Tree, txn: TxnNo, group: &Group) -> i128
        ensures { result ≡ sum_in (seen_in tree.now self.now txn) group.now }
    {
        let mut sum = sum_of(&self.base, group);
        if txn.place() as usize >= tree.len() {
            return sum;
        }
        let mut at = Some(txn);
        while let Some(number) = at {
            let above = tree.parent_of(number);
            sum += self.own_part(tree, &above, number, group);
            at = above;
        }
        sum
    }

    /// The sum over the group of the values that the transaction sees, an absent one counted as 0,
    /// or none where the sum is not an i64. It goes through the group's rows and through what the
    /// transaction and its ancestors left, and takes no memory.
    pub fn sum_for(&self, tree: &Tree, txn: TxnNo, group: &Group) -> Option<i64>
        ensures { result ≡ as_i64 (sum_in (seen_in tree.now self.now txn) group.now) }
    {
        i64::try_from(self.sum_seen(tree, txn, group)).ok()
    }

    /// Where the key stands at which a place was made, or a value put, last. It is a hint for
    /// `expect`, and nothing rests on it.
    #[inline(always)]
    pub fn hint(&self) -> usize {
        self.written.hint()
    }

    /// Takes the key that stands there for the one that is asked for next, so that it is found
    /// without a look-up. Any other is looked up.
    #[inline(always)]
    pub fn expect(&mut self, hint: usize)
        ensures { self.new ≡ self.old }
    {
        self.written.expect(hint);
    }

    /// Makes a place for the transaction and the key, if there is none, so that a value can be put
    /// there without memory. Nothing that was left changes, and each other place stays. If memory
    /// runs out, the only error, no place is made.
    pub fn reserve(&mut self, txn: TxnNo, key: &Key) -> Result<(), NoMemory>
        ensures left { (u : ℕ) → (q : List ℕ) → left_in self.new u q ≡ left_in self.old u q }
        ensures base { self.new.base ≡ self.old.base }
        ensures ok { OnOk result ((u : ℕ) → (q : List ℕ) →
            has_place self.new u q ≡ with_place (has_place self.old) txn key.now u q) }
        ensures err { OnErr result ((u : ℕ) → (q : List ℕ) →
            has_place self.new u q ≡ has_place self.old u q) }
        ensures succeeds { IsTrue (has_place self.old txn key.now) → IsOk result }
    {
        self.written.reserve(txn, key)
    }

    /// Makes a place for the parent at each key where the child has one, so that what the child
    /// left can be handed up without memory. Nothing that was left changes, and each other place
    /// stays. If memory runs out, the only error, the parent has places at some of these keys.
    pub fn reserve_for_parent(&mut self, child: TxnNo, parent: TxnNo) -> Result<(), NoMemory>
        ensures left { (u : ℕ) → (q : List ℕ) → left_in self.new u q ≡ left_in self.old u q }
        ensures base { self.new.base ≡ self.old.base }
        ensures ok { OnOk result ((u : ℕ) → (q : List ℕ) →
            has_place self.new u q ≡ with_childs (has_place self.old) child parent u q) }
        ensures err { OnErr result
            (IsTowards (has_place self.old) (has_place self.new) child parent) }
        ensures succeeds { ((q : List ℕ) → IsTrue (has_place self.old child q) →
            IsTrue (has_place self.old parent q)) → IsOk result }
    {
        self.written.reserve_for_parent(child, parent)
    }

    /// Makes room in the base for each key at which the child has a place, so that what it left can
    /// go there without memory. Nothing that was left changes, each place stays, and the base has
    /// the same rows. Where the base has the room already it takes no memory. The only error is
    /// that memory runs out.
    pub fn reserve_for_base(&mut self, child: TxnNo) -> Result<(), NoMemory>
        ensures ok { OnOk result (FitsBase self.new child) }
        ensures succeeds { FitsBase self.old child → IsOk result }
        ensures left { (u : ℕ) → (q : List ℕ) → left_in self.new u q ≡ left_in self.old u q }
        ensures places { (u : ℕ) → (q : List ℕ) → has_place self.new u q ≡ has_place self.old u q }
        ensures base { self.new.base.rows ≡ self.old.base.rows }
        ensures room { self.old.base.room ≤ self.new.base.room }
    {
        let keys = self.written.keys(child).len();
        self.base.reserve(keys)
    }

    /// Makes room in the base for so many changes, so that they can be made without memory. Nothing
    /// that was left changes, each place stays, and the base has the same rows. Where the base has
    /// the room already it takes no memory. The only error is that memory runs out.
    pub fn reserve_changes(&mut self, changes: usize) -> Result<(), NoMemory>
        ensures ok { OnOk result (changes ≤ self.new.base.room) }
        ensures succeeds { changes ≤ self.old.base.room → IsOk result }
        ensures written { self.new.written ≡ self.old.written }
        ensures base { self.new.base.rows ≡ self.old.base.rows }
        ensures room { self.old.base.room ≤ self.new.base.room }
    {
        self.base.reserve(changes)
    }

    /// The transaction leaves this value at the key, or leaves it absent. It takes no memory.
    pub fn put(&mut self, txn: TxnNo, key: &Key, value: Option<i64>)
        requires place { IsTrue (has_place self.old txn key.now) }
        ensures left { (u : ℕ) → (q : List ℕ) →
            left_in self.new u q ≡ put_by self.old txn key.now value u q }
        ensures places { (u : ℕ) → (q : List ℕ) → has_place self.new u q ≡ has_place self.old u q }
        ensures base { self.new.base ≡ self.old.base }
    {
        self.written.set(txn, key, Version { value });
    }

    /// Hands up what a committed child left: it has left nothing any more, and in its parent it
    /// stands before what the parent left. Where the parent is the root it goes into the base, else
    /// the base stays, and its room too. It takes no memory.
    pub fn hand_up(&mut self, child: TxnNo, parent: Option<TxnNo>)
        requires places { IfSome parent (λ p. (q : List ℕ) → IsTrue (has_place self.old child q) →
            IsTrue (has_place self.old p q)) }
        requires room { IfNone parent (FitsBase self.old child) }
        ensures left { (u : ℕ) → (q : List ℕ) →
            left_in self.new u q ≡ handed_up self.old child parent u q }
        ensures places { (u : ℕ) → (q : List ℕ) →
            has_place self.new u q ≡ (not (nat_eq child u) && has_place self.old u q) }
        ensures base { (q : List ℕ) → base_in self.new q ≡ base_after self.old child parent q }
        ensures same { ((q : List ℕ) → base_after self.old child parent q ≡ base_in self.old q) →
            self.new.base.rows ≡ self.old.base.rows }
        ensures kept { IfSome parent (λ p. self.new.base ≡ self.old.base) }
    {
        match parent {
            Some(parent) => self.written.hand_up(child, Some(parent)),
            None => {
                self.put_in_base(child);
                self.written.hand_up(child, None);
            }
        }
    }

    /// Hands up what a committed child left into the base, as `hand_up` does, by the changes that
    /// come to that: they are made in one pass, and not key by key. It takes no memory.
    pub fn hand_up_changes(&mut self, child: TxnNo, changes: &[Change])
        requires rising { AreRising changes.now }
        requires room { length changes.now ≤ self.old.base.room }
        requires due { (q : List ℕ) → base_after self.old child None q
            ≡ overlay changes.now (base_in self.old) q }
        ensures left { (u : ℕ) → (q : List ℕ) → left_in self.new u q
            ≡ handed_up self.old child None u q }
        ensures places { (u : ℕ) → (q : List ℕ) → has_place self.new u q
            ≡ (not (nat_eq child u) && has_place self.old u q) }
        ensures base { (q : List ℕ) → base_in self.new q ≡ base_after self.old child None q }
        ensures same { ((q : List ℕ) → base_after self.old child None q ≡ base_in self.old q)
            → self.new.base.rows ≡ self.old.base.rows }
    {
        self.base.has_rising_rows();
        self.base.change(changes);
        self.base.has_rising_rows();
        self.written.hand_up(child, None);
    }

    // Puts what the transaction left into the base, where it stays in its place too.
    fn put_in_base(&mut self, txn: TxnNo)
        requires { FitsBase self.old txn }
        ensures written { self.new.written ≡ self.old.written }
        ensures base { (q : List ℕ) → base_in self.new q ≡ base_after self.old txn None q }
        ensures rising { IsRising self.old.base.rows × IsRising self.new.base.rows }
    {
        put_at(&mut self.base, &self.written, txn, self.written.keys(txn));
    }

    /// Drops what the transaction and all below it left. It takes no memory.
    pub fn drop_under(&mut self, tree: &Tree, txn: TxnNo)
        ensures left { (u : ℕ) → (q : List ℕ) →
            left_in self.new u q ≡ (if is_under tree.now txn u then None
            else left_in self.old u q) }
        ensures places { (u : ℕ) → (q : List ℕ) →
            has_place self.new u q ≡ (not (is_under tree.now txn u) && has_place self.old u q) }
        ensures base { self.new.base ≡ self.old.base }
    {
        self.written.drop_under(tree, txn);
    }
}
