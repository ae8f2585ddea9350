//! Whether anybody who waits waits for another by way of a transaction: where that one keeps the
//! first from being answered, and the other is in its branch.
ghost use Rattle.std.specs.Prelude.{◌≡◌, ◌≤◌, ◌&&◌, length, slice_get, IsTrue};
ghost use Rattle.std.specs.List.{list_any};
ghost use Rattle.serial_spec.specs.Targets.{meets, target as locked};
ghost use Rattle.wait_cycles.specs.Waiting.{AreOnce, AreUnmet};
ghost use Rattle.wait_graph.specs.Edges.{ByLocks, IsNobodysWay, is_below_it, is_beside_it, passes, OfWays, is_held_by_way_of};

use crate::branch::{branch_of, is_lone_top};
use lock_table::TargetLocks;
use serial_spec::{Asked, Target};
use txn_tree::{Tree, TxnNo};
use wait_cycles::{Wait, Waits};

// Whether the transaction or one below it waits at this place.
fn waits_below_at(tree: &Tree, waits: &Waits, txn: TxnNo, place: usize) -> bool
    ensures { result ≡ passes (is_below_it tree.now txn) (slice_get waits.now.waits place) }
{
    match waits.at(place) {
        Some(wait) => tree.is_under(txn, wait.txn),
        None => false,
    }
}

// Whether the transaction or any below it waits.
#[tactic(auto, using(crate::proofs::Passing::here_passes, crate::proofs::Passing::next_fails))]
fn any_waits_below(tree: &Tree, waits: &Waits, txn: TxnNo) -> bool
    ensures { result ≡ list_any (is_below_it tree.now txn) waits.now.waits }
{
    for place in 0..waits.len() {
        if waits_below_at(tree, waits, txn, place) {
            return true;
        }
    }
    false
}

// Whether any that waits is in the branch by which the blocker parts from the transaction.
fn any_waits_in_branch(tree: &Tree, waits: &Waits, txn: TxnNo, blocker: TxnNo) -> bool
    ensures { result ≡ list_any (is_beside_it tree.now txn blocker) waits.now.waits }
{
    match branch_of(tree, txn, blocker) {
        Some(top) => any_waits_below(tree, waits, top),
        None => false,
    }
}

// Whether the transaction keeps the access, which waits, from being answered, and one that waits is
// in its branch.
fn has_edge_by_way_of(
    tree: &Tree,
    locks: &TargetLocks,
    waits: &Waits,
    txn: TxnNo,
    wait: &Wait,
) -> bool
    ensures { ByLocks tree.now locks.now (λ keeps.
        result ≡ is_held_by_way_of tree.now keeps waits.now.waits txn wait.now) }
{
    locks.blocks_asked(tree, txn, wait.txn, &wait.asked)
        && any_waits_in_branch(tree, waits, wait.txn, txn)
}

// Whether what is asked has a key in common with the target. Most is asked of keys, of which none is
// copied to be compared.
#[inline(always)]
fn is_asked_of(asked: &Asked, target: &Target) -> bool
    ensures { result ≡ meets target.now (locked asked.now) }
{
    match (target, asked) {
        (Target::Key(key), Asked::At(other, _)) => key == other,
        _ => target.meets(&asked.target()),
    }
}

// Whether an access waits at this place, for what has a key in common with the target, and for
// another by way of the transaction.
fn has_edge_by_way_of_at(
    tree: &Tree,
    locks: &TargetLocks,
    waits: &Waits,
    txn: TxnNo,
    target: &Target,
    place: usize,
) -> bool
    ensures { OfWays tree.now locks.now waits.now.waits txn target.now
        (λ is_one. result ≡ passes is_one (slice_get waits.now.waits place)) }
{
    match waits.at(place) {
        Some(wait) => {
            is_asked_of(&wait.asked, target) && has_edge_by_way_of(tree, locks, waits, txn, wait)
        }
        None => false,
    }
}

// Whether the transaction is top-level without descendants, and does not wait. Then no other is in
// its branch, so that nobody waits for another by way of it.
#[tactic(auto, using(crate::proofs::Alone::nobodys_way))]
fn is_way_of_none(tree: &Tree, waits: &Waits, txn: TxnNo) -> bool
    ensures { IsTrue result → IsNobodysWay tree.now waits.now.waits txn }
{
    is_lone_top(tree, txn) && waits.of(txn).is_none()
}

// The first place from this one on at which one may wait for what has a key in common with the
// target, or behind all that wait where there is none.
#[inline(always)]
fn next_met(waits: &Waits, target: &Target, from: usize) -> usize
    ensures unmet { AreUnmet waits.now.waits target.now from result }
    ensures later { from ≤ length waits.now.waits → from ≤ result }
{
    match waits.next_met(target, from) {
        Some(next) => next,
        None => waits.len(),
    }
}

/// Whether any access that waits for what has a key in common with the target waits for another by
/// way of the transaction: the transaction keeps it from being answered, and the other, which
/// waits, is in the branch of the transaction.
pub fn any_edge_by_way_of(
    tree: &Tree,
    locks: &TargetLocks,
    waits: &Waits,
    txn: TxnNo,
    target: &Target,
) -> bool
    ensures result { OfWays tree.now locks.now waits.now.waits txn target.now
        (λ is_one. result ≡ list_any is_one waits.now.waits) }
    ensures once { AreOnce waits.now }
{
    let count = waits.len();
    let mut place = next_met(waits, target, 0);
    if place < count && is_way_of_none(tree, waits, txn) {
        return false;
    }
    while place < count {
        if has_edge_by_way_of_at(tree, locks, waits, txn, target, place) {
            return true;
        }
        place = next_met(waits, target, place + 1);
    }
    false
}
