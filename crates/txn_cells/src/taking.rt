//! What a transaction takes at a key by one step: a place, and what its access adds there.
ghost use Rattle.std.specs.Prelude.{◌≡◌, slice_get, IsOk, IsTrue, OnErr, OnOk, List, ℕ, Some};
ghost use Rattle.std.specs.Map.{keys_of};
ghost use Rattle.txn_cells.specs.Cells.{HasJoined, with_place};
ghost use Rattle.txn_cells.specs.Kept.{AreListed, ArePlaced, content, content_kept, has_place, place_kept};

use crate::inherit::Inherit;
use crate::key_lists::KeyLists;
use crate::places::Places;
use crate::table::CellTable;
use serial_spec::NoMemory;
use txn_names::Key;
use txn_tree::TxnNo;

// Makes a place, if there is none, at the key that has this index among all keys, and adds this to
// what the transaction has there. Where its list of keys cannot grow the place is taken back.
#[inline(always)]
fn take_at<V: Inherit>(
    places: &mut Places<V>,
    keys: &mut KeyLists,
    txn: TxnNo,
    key: &Key,
    place: usize,
    added: V,
) -> Result<(), NoMemory>
    requires listed { AreListed places.old keys.old }
    requires placed { ArePlaced places.old keys.old }
    requires at { slice_get (keys_of places.old) place ≡ Some key.now }
    ensures listed { AreListed places.new keys.new }
    ensures placed { ArePlaced places.new keys.new }
    ensures contents { OnOk result (HasJoined (V.joined added) txn key.now
        (content_kept places.old) (content_kept places.new)) }
    ensures ok { OnOk result ((u : ℕ) → (q : List ℕ) → place_kept places.new u q
        ≡ with_place (place_kept places.old) txn key.now u q) }
    ensures kept { OnErr result ((u : ℕ) → (q : List ℕ) → content_kept places.new u q
        ≡ content_kept places.old u q) }
    ensures err { OnErr result ((u : ℕ) → (q : List ℕ) → place_kept places.new u q
        ≡ place_kept places.old u q) }
    ensures succeeds { IsTrue (place_kept places.old txn key.now) → IsOk result }
{
    if !places.take(txn, key, place, added)? {
        return Ok(());
    }
    let listed = keys.add(txn, key, place);
    if listed.is_err() {
        places.hand_up(key, place, txn, None);
    }
    listed
}

impl<V: Inherit> CellTable<V> {
    /// Makes a place for the transaction and the key, if there is none, and adds this to what the
    /// transaction has there, as an access of its own: what `reserve` and then `join` do, by one
    /// look at the key. If memory runs out, the only error, nothing that any transaction has
    /// changes, and no place is made.
    pub fn take(&mut self, txn: TxnNo, key: &Key, added: V) -> Result<(), NoMemory>
        ensures contents { OnOk result
            (HasJoined (V.joined added) txn key.now (content self.old) (content self.new)) }
        ensures ok { OnOk result ((u : ℕ) → (q : List ℕ) →
            has_place self.new u q ≡ with_place (has_place self.old) txn key.now u q) }
        ensures kept { OnErr result ((u : ℕ) → (q : List ℕ) →
            content self.new u q ≡ content self.old u q) }
        ensures err { OnErr result ((u : ℕ) → (q : List ℕ) →
            has_place self.new u q ≡ has_place self.old u q) }
        ensures succeeds { IsTrue (has_place self.old txn key.now) → IsOk result }
    {
        let place = self.places.place_for(key)?;
        take_at(&mut self.places, &mut self.keys, txn, key, place, added)
    }
}
