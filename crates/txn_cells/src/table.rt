//! What all transactions have, by transaction and by key.
ghost use Rattle.std.specs.Prelude.{◌≡◌, ◌&&◌, ◌↔◌, nat_eq, not, slice_get, IsFalse, IsOk, IsTrue, IfNone, IfSome, OnErr, OnOk, List, ℕ, if◌then◌else◌, false, Some, None};
ghost use Rattle.std.specs.List.{IsDistinct, list_any};
ghost use Rattle.std.specs.List.Sorted.{IsStrictlyIncreasing};
ghost use Rattle.std.specs.Map.{keys_of};
ghost use Rattle.txn_names.specs.Path.{label_eq};
ghost use Rattle.txn_cells.specs.Cells.{IsAt, IsBareAt, IsTowards, handed_up, is_it, is_under, nothing, with_childs, with_place, with_content, with_joined};
ghost use Rattle.txn_cells.specs.Kept.{AreListed, ArePlaced, content, content_kept, has_place, listed_at, place_kept, stands};

use crate::inherit::Inherit;
use crate::key_cells::KeyCells;
use crate::key_lists::KeyLists;
use crate::places::Places;
use serial_spec::NoMemory;
use std::alloc::Global;
use std::marker::Model;
use txn_names::Key;
use txn_tree::{Tree, TxnNo};

/// What each transaction, by its number, has at each key. Room is made by a place for a transaction
/// and a key; a new place is empty.
#[derive(Drop)]
pub struct CellTable<V: Inherit> {
    pub(crate) places: Places<V>,
    pub(crate) keys: KeyLists,
}

impl<V: Inherit> Model for CellTable<V> {
    ghost use Rattle.txn_cells.specs.Kept.{AreListed, ArePlaced, Table, seen};

    ghost Value = { Table V };

    ghost view = { λ t. seen t.keys t.places };

    ghost invariant = { λ t. AreListed t.places t.keys × ArePlaced t.places t.keys };
}

// Makes a place, if there is none, at the key that has this index among all keys. The list of each
// other transaction stays as it is.
fn make_place_at<V: Inherit>(
    places: &mut Places<V>,
    keys: &mut KeyLists,
    txn: TxnNo,
    key: &Key,
    place: usize,
) -> Result<(), NoMemory>
    requires listed { AreListed places.old keys.old }
    requires placed { ArePlaced places.old keys.old }
    requires at { slice_get (keys_of places.old) place ≡ Some key.now }
    ensures listed { AreListed places.new keys.new }
    ensures placed { ArePlaced places.new keys.new }
    ensures contents { (u : ℕ) → (q : List ℕ) → content_kept places.new u q
        ≡ content_kept places.old u q }
    ensures ok { OnOk result ((u : ℕ) → (q : List ℕ) → place_kept places.new u q
        ≡ with_place (place_kept places.old) txn key.now u q) }
    ensures err { OnErr result ((u : ℕ) → (q : List ℕ) → place_kept places.new u q
        ≡ place_kept places.old u q) }
    ensures succeeds { IsTrue (place_kept places.old txn key.now) → IsOk result }
    ensures others { (u : ℕ) → (u ≡ txn → ⊥) → listed_at keys.new u ≡ listed_at keys.old u }
{
    if !places.add(txn, key, place)? {
        return Ok(());
    }
    let listed = keys.add(txn, key, place);
    if listed.is_err() {
        places.hand_up(key, place, txn, None);
    }
    listed
}

// Makes a place, if there is none.
fn make_place<V: Inherit>(
    places: &mut Places<V>,
    keys: &mut KeyLists,
    txn: TxnNo,
    key: &Key,
) -> Result<(), NoMemory>
    requires listed { AreListed places.old keys.old }
    requires placed { ArePlaced places.old keys.old }
    ensures listed { AreListed places.new keys.new }
    ensures placed { ArePlaced places.new keys.new }
    ensures contents { (u : ℕ) → (q : List ℕ) → content_kept places.new u q
        ≡ content_kept places.old u q }
    ensures ok { OnOk result ((u : ℕ) → (q : List ℕ) → place_kept places.new u q
        ≡ with_place (place_kept places.old) txn key.now u q) }
    ensures err { OnErr result ((u : ℕ) → (q : List ℕ) → place_kept places.new u q
        ≡ place_kept places.old u q) }
    ensures succeeds { IsTrue (place_kept places.old txn key.now) → IsOk result }
{
    let place = places.place_for(key)?;
    make_place_at(places, keys, txn, key, place)
}

// The parent, if there is one and it is not the child.
fn heir(child: TxnNo, parent: Option<TxnNo>) -> Option<TxnNo>
    ensures other { IfSome result (λ p. IsFalse (nat_eq child p)) }
    ensures same { (u : ℕ) → IsFalse (nat_eq child u) → is_it result u ≡ is_it parent u }
    ensures parent { IfSome result (λ p. parent ≡ Some p) }
{
    match parent {
        Some(heir) if heir.place() != child.place() => Some(heir),
        _ => None,
    }
}

// Makes a place for the parent at each key of the child, another transaction.
fn make_places<V: Inherit>(
    places: &mut Places<V>,
    keys: &mut KeyLists,
    child: TxnNo,
    parent: TxnNo,
) -> Result<(), NoMemory>
    requires listed { AreListed places.old keys.old }
    requires placed { ArePlaced places.old keys.old }
    requires other { child ≡ parent → ⊥ }
    ensures listed { AreListed places.new keys.new }
    ensures placed { ArePlaced places.new keys.new }
    ensures contents { (u : ℕ) → (q : List ℕ) → content_kept places.new u q
        ≡ content_kept places.old u q }
    ensures ok { OnOk result ((u : ℕ) → (q : List ℕ) → place_kept places.new u q
        ≡ with_childs (place_kept places.old) child parent u q) }
    ensures err { OnErr result
        (IsTowards (place_kept places.old) (place_kept places.new) child parent) }
    ensures succeeds { ((q : List ℕ) → IsTrue (place_kept places.old child q) →
        IsTrue (place_kept places.old parent q)) → IsOk result }
{
    for index in 0..keys.count(child) {
        if let Some(entry) = keys.get(child, index) {
            make_place_at(places, keys, parent, &entry.0, entry.1)?;
        }
    }
    Ok(())
}

impl<V: Inherit> CellTable<V> {
    /// No places. It takes no memory yet.
    pub fn new(alloc: Global) -> Self
        ensures contents { (u : ℕ) → (q : List ℕ) → content result u q ≡ None }
        ensures places { (u : ℕ) → (q : List ℕ) → has_place result u q ≡ false }
    {
        CellTable {
            places: Places::new(alloc),
            keys: KeyLists::new(alloc),
        }
    }

    /// Whether no transaction has a place at any key. Then nobody has anything at any key.
    pub fn is_empty(&self) -> bool
        ensures { IsTrue result ↔ (self.now ≡ nothing) }
    {
        self.keys.is_empty()
    }

    /// What all transactions have at the key, found by one look at it. Where there is none nobody
    /// has a place there.
    pub fn at(&self, key: &Key) -> Option<&KeyCells<V>>
        ensures some { IfSome result (λ cells. IsAt self.now key.now cells.now) }
        ensures none { IfNone result (IsBareAt self.now key.now) }
    {
        self.places.at(key)
    }

    /// As `at`, of the key that was remembered or reserved last: that is found without a look-up.
    /// Any other key is looked up.
    pub fn at_remembered(&self, key: &Key) -> Option<&KeyCells<V>>
        ensures some { IfSome result (λ cells. IsAt self.now key.now cells.now) }
        ensures none { IfNone result (IsBareAt self.now key.now) }
    {
        self.places.at_remembered(key)
    }

    /// Looks the key up and remembers where it stands, so that `at_remembered` and the calls that
    /// change what stands there find it without another look-up. It takes no memory.
    pub fn remember(&mut self, key: &Key)
        ensures { self.new ≡ self.old }
    {
        self.places.remember(key);
    }

    /// Whether the key is the one at which the transaction got its last place, which is told without
    /// a look-up. It is remembered then. It takes no memory.
    pub fn recalls_last(&mut self, txn: TxnNo, key: &Key) -> bool
        ensures place { IsTrue result → IsTrue (has_place self.old txn key.now) }
        ensures same { self.new ≡ self.old }
    {
        match self.keys.place_if_last(txn, key) {
            Some(place) => {
                self.places.expect(place);
                true
            }
            None => false,
        }
    }

    /// Where the key stands that was remembered, reserved or taken last. It is a hint for `expect`,
    /// and nothing rests on it.
    #[inline(always)]
    pub fn hint(&self) -> usize {
        self.places.recent()
    }

    /// Takes the key that stands there for the one that was remembered last. Where it is not the
    /// one that is asked for next, that is looked up.
    #[inline(always)]
    pub fn expect(&mut self, hint: usize)
        ensures { self.new ≡ self.old }
    {
        self.places.expect(hint);
    }

    // As `at`, where the key mostly is the transaction's key at this index: its place stands in the
    // list then.
    fn at_listed(&self, txn: TxnNo, index: usize, key: &Key) -> Option<&KeyCells<V>>
        ensures some { IfSome result (λ cells. IsAt self.now key.now cells.now) }
        ensures none { IfNone result (IsBareAt self.now key.now) }
    {
        match self.keys.get(txn, index) {
            Some((_, place)) => self.places.near(place, key),
            None => self.places.at(key),
        }
    }

    /// As `get`, of a key that mostly is the transaction's key at this index in `keys`: that is
    /// found without a look-up.
    pub fn get_listed(&self, txn: TxnNo, index: usize, key: &Key) -> Option<V>
        ensures { result ≡ content self.now txn key.now }
    {
        self.at_listed(txn, index, key)?.get(txn)
    }

    /// What the transaction has at the key.
    pub fn get(&self, txn: TxnNo, key: &Key) -> Option<V>
        ensures { result ≡ content self.now txn key.now }
    {
        self.at(key)?.get(txn)
    }

    /// The transactions that have a place at the key, each once, in the order in which they began.
    /// No other has anything there.
    pub fn holders(&self, key: &Key) -> &[TxnNo]
        ensures each { (u : ℕ) → list_any (nat_eq u) result.now ≡ has_place self.now u key.now }
        ensures rising { IsStrictlyIncreasing result.now }
        ensures elsewhere { (u : ℕ) → IsFalse (has_place self.now u key.now) →
            content self.now u key.now ≡ None }
    {
        match self.at(key) {
            Some(cells) => cells.holders(),
            None => &[],
        }
    }

    /// Transactions that have a place at the key, each once, in the order in which they began: all
    /// those whose content there stands out, and maybe some whose content does not. No other
    /// transaction is looked at.
    pub fn standing_out(&self, key: &Key) -> &[TxnNo]
        ensures all { (u : ℕ) → IsTrue (stands V.outstanding (content self.now u key.now)) →
            IsTrue (list_any (nat_eq u) result.now) }
        ensures places { (u : ℕ) → IsTrue (list_any (nat_eq u) result.now) →
            IsTrue (has_place self.now u key.now) }
        ensures rising { IsStrictlyIncreasing result.now }
    {
        match self.at(key) {
            Some(cells) => cells.standing_out(),
            None => &[],
        }
    }

    /// Makes a place for the transaction and the key, if there is none, so that it can be set
    /// without memory. What any transaction has stays, and so does each other place. If memory runs
    /// out, the only error, no place is made.
    pub fn reserve(&mut self, txn: TxnNo, key: &Key) -> Result<(), NoMemory>
        ensures contents { (u : ℕ) → (q : List ℕ) → content self.new u q ≡ content self.old u q }
        ensures ok { OnOk result ((u : ℕ) → (q : List ℕ) →
            has_place self.new u q ≡ with_place (has_place self.old) txn key.now u q) }
        ensures err { OnErr result ((u : ℕ) → (q : List ℕ) →
            has_place self.new u q ≡ has_place self.old u q) }
        ensures succeeds { IsTrue (has_place self.old txn key.now) → IsOk result }
    {
        make_place(&mut self.places, &mut self.keys, txn, key)
    }

    /// Makes a place for the parent at each key where the child has one, so that what the child has
    /// can be handed up without memory. What any transaction has stays, and so does each other
    /// place. If memory runs out, the only error, the parent has places at some of these keys.
    pub fn reserve_for_parent(&mut self, child: TxnNo, parent: TxnNo) -> Result<(), NoMemory>
        ensures contents { (u : ℕ) → (q : List ℕ) → content self.new u q ≡ content self.old u q }
        ensures ok { OnOk result ((u : ℕ) → (q : List ℕ) →
            has_place self.new u q ≡ with_childs (has_place self.old) child parent u q) }
        ensures err { OnErr result
            (IsTowards (has_place self.old) (has_place self.new) child parent) }
        ensures succeeds { ((q : List ℕ) → IsTrue (has_place self.old child q) →
            IsTrue (has_place self.old parent q)) → IsOk result }
    {
        if child == parent {
            return Ok(());
        }
        make_places(&mut self.places, &mut self.keys, child, parent)
    }

    /// The keys at which the transaction has a place, each once. It has nothing at any other key.
    pub fn keys(&self, txn: TxnNo) -> &[Key]
        ensures each { (q : List ℕ) → has_place self.now txn q ≡ list_any (label_eq q) result.now }
        ensures once { IsDistinct label_eq result.now }
        ensures elsewhere { (q : List ℕ) → IsFalse (has_place self.now txn q) →
            content self.now txn q ≡ None }
    {
        self.keys.keys(txn)
    }

    /// Sets what the transaction has at the key. It takes no memory.
    pub fn set(&mut self, txn: TxnNo, key: &Key, value: V)
        requires place { IsTrue (has_place self.old txn key.now) }
        ensures contents { (u : ℕ) → (q : List ℕ) → content self.new u q
            ≡ with_content (content self.old) txn key.now value u q }
        ensures places { (u : ℕ) → (q : List ℕ) → has_place self.new u q ≡ has_place self.old u q }
    {
        self.places.set(txn, key, value);
    }

    /// Adds this to what the transaction has at the key, as an access of its own: it has there what
    /// `join` makes of the two. It takes no memory.
    pub fn join(&mut self, txn: TxnNo, key: &Key, added: V)
        requires place { IsTrue (has_place self.old txn key.now) }
        ensures contents { (u : ℕ) → (q : List ℕ) → content self.new u q
            ≡ with_joined (content self.old) txn key.now (V.joined added) u q }
        ensures places { (u : ℕ) → (q : List ℕ) → has_place self.new u q ≡ has_place self.old u q }
    {
        self.places.join(txn, key, added);
    }

    // Drops the cells of the transaction.
    fn drop_one(&mut self, txn: TxnNo)
        ensures contents { (u : ℕ) → (q : List ℕ) → content self.new u q ≡
            (if nat_eq txn u then None else content self.old u q) }
        ensures places { (u : ℕ) → (q : List ℕ) → has_place self.new u q
            ≡ (not (nat_eq txn u) && has_place self.old u q) }
    {
        self.hand_up(txn, None);
    }

    /// Drops the cells of the transaction and of all below it. No other is looked at, and it takes
    /// no memory.
    pub fn drop_under(&mut self, tree: &Tree, txn: TxnNo)
        ensures contents { (u : ℕ) → (q : List ℕ) →
            content self.new u q ≡ (if is_under tree.now txn u then None
            else content self.old u q) }
        ensures places { (u : ℕ) → (q : List ℕ) →
            has_place self.new u q ≡ (not (is_under tree.now txn u) && has_place self.old u q) }
    {
        if tree.name_of(txn).is_none() {
            return;
        }
        self.drop_one(txn);
        let mut next = tree.first_child(txn);
        while let Some(child) = next {
            self.drop_under(tree, child);
            next = tree.next_sibling(child);
        }
    }

    /// Hands up what a committed child has: it has nothing any more, and its parent has at each key
    /// what `inherit` makes of the two. Where the parent is the root, which has no number, it is
    /// gone. It takes no memory.
    pub fn hand_up(&mut self, child: TxnNo, parent: Option<TxnNo>)
        requires places { IfSome parent (λ p. (q : List ℕ) → IsTrue (has_place self.old child q) →
            IsTrue (has_place self.old p q)) }
        ensures contents { (u : ℕ) → (q : List ℕ) →
            content self.new u q ≡ handed_up V.inherited (content self.old) child parent u q }
        ensures places { (u : ℕ) → (q : List ℕ) →
            has_place self.new u q ≡ (not (nat_eq child u) && has_place self.old u q) }
    {
        let keys = self.keys.take(child);
        let heir = heir(child, parent);
        self.places.hand_up_all(&keys, child, &heir);
    }
}
