//! The edges of the graph of waits: which of those that wait wait for which.
ghost use Rattle.std.specs.Prelude.{◌≡◌, ◌≤◌, ◌+◌, ◌*◌, ◌&&◌, ◌++◌, is_some, length, vec_len, vec_capacity, IfSome, IsTrue};
ghost use Rattle.std.specs.List.{list_any};
ghost use Rattle.txn_tree.specs.States.{States};
ghost use Rattle.wait_graph.specs.Edges.{AreAlike, AreLockers, AreOwnBranches, ByLocks, is_held_up, waits_for_in, OfEdges, OfEdgesFrom, is_edge_to};
ghost use Rattle.wait_graph.specs.Walks.{IsLonger};

use crate::branch::{are_known_alone, is_in_branch, is_lone_top};
use crate::lockers::Lockers;
use lock_table::TargetLocks;
use txn_tree::{Tree, TxnNo};
use wait_cycles::{Wait, Waits};

// Whether there is an edge to the other by way of this holder: the holder keeps this access from
// being answered, and the other is in its branch.
fn has_edge_by(tree: &Tree, locks: &TargetLocks, wait: &Wait, other: TxnNo, holder: TxnNo) -> bool
    ensures { ByLocks tree.now locks.now (λ keeps.
        result ≡ is_held_up tree.now keeps wait.now other holder) }
{
    // Few are in the branch, and a look at the locks costs more.
    is_in_branch(tree, wait.txn, holder, other)
        && locks.blocks_asked(tree, holder, wait.txn, &wait.asked)
}

// Whether there is an edge to the other by way of any of these holders.
fn has_edge_by_any(
    tree: &Tree,
    locks: &TargetLocks,
    wait: &Wait,
    other: TxnNo,
    holders: &[TxnNo],
) -> bool
    ensures { ByLocks tree.now locks.now (λ keeps.
        result ≡ list_any (is_held_up tree.now keeps wait.now other) holders.now) }
{
    for place in 0..holders.len() {
        if has_edge_by(tree, locks, wait, other, holders[place]) {
            return true;
        }
    }
    false
}

// Whether there is an edge to the other by way of the other itself, where the list has all who may
// keep the access from being answered. Most are not in the list, and a look at the locks costs
// more.
#[inline]
fn has_edge_by_itself(
    tree: &Tree,
    locks: &TargetLocks,
    wait: &Wait,
    other: TxnNo,
    holders: &[TxnNo],
) -> bool
    requires { AreLockers tree.now locks.now wait.now holders.now }
    ensures { ByLocks tree.now locks.now (λ keeps.
        result ≡ is_held_up tree.now keeps wait.now other other) }
{
    if holders.contains(&other) {
        has_edge_by(tree, locks, wait, other, other)
    } else {
        false
    }
}

// Whether there is an edge to the other, where those who may keep the access from being answered
// stand in several lists. That is so only where somebody holds a sum, and it stays out of the loops
// over all that wait.
#[inline(never)]
fn has_edge_by_lists(tree: &Tree, locks: &TargetLocks, wait: &Wait, other: TxnNo) -> bool
    ensures { ByLocks tree.now locks.now (λ keeps.
        result ≡ waits_for_in tree.now keeps wait.now other) }
{
    let target = wait.asked.target();
    let lists = locks.lists(&target);
    for place in 0..lists {
        if has_edge_by_any(tree, locks, wait, other, locks.list_at(&target, place)) {
            return true;
        }
    }
    false
}

// Those who may keep the access from being answered, and maybe others, where one list has them all.
fn sole_blockers<'a>(locks: &'a TargetLocks, wait: &Wait) -> Option<&'a [TxnNo]>
    ensures { IfSome result (λ all. (tree : States) → AreLockers tree locks.now wait.now all.now) }
{
    let target = wait.asked.target();
    let lists = locks.lists(&target);
    for place in 1..lists {
        if !locks.list_at(&target, place).is_empty() {
            return None;
        }
    }
    Some(locks.list_at(&target, 0))
}

// Whether there is an edge to the other: the other, or one that it is in the branch of, has to end
// or to go on before one that keeps the access from being answered can. `all` is everybody who may
// keep the access from being answered, if one list has them, and `alone` whether each of these is
// known to be alone in its branch. A caller that asks about many others finds both once.
#[inline(always)]
fn has_edge(
    tree: &Tree,
    locks: &TargetLocks,
    wait: &Wait,
    other: TxnNo,
    all: Option<&[TxnNo]>,
    alone: bool,
) -> bool
    requires all { IfSome all (λ us. AreLockers tree.now locks.now wait.now us.now) }
    requires alone { IsTrue alone → IfSome all (λ us. AreOwnBranches tree.now wait.now.txn us.now) }
    ensures { ByLocks tree.now locks.now (λ keeps.
        result ≡ waits_for_in tree.now keeps wait.now other) }
{
    let Some(holders) = all else {
        return has_edge_by_lists(tree, locks, wait, other);
    };
    if alone {
        return has_edge_by_itself(tree, locks, wait, other, holders);
    }
    if is_lone_top(tree, other) {
        has_edge_by_itself(tree, locks, wait, other, holders)
    } else {
        has_edge_by_any(tree, locks, wait, other, holders)
    }
}

// Adds the edges of this one that waits, by a look at each that waits.
fn add_edges_to_waiting(
    tree: &Tree,
    locks: &TargetLocks,
    waits: &Waits,
    wait: &Wait,
    edges: &mut Vec<(TxnNo, TxnNo)>,
)
    requires room { vec_len edges.old + length waits.now.waits ≤ vec_capacity edges.old }
    ensures edges { OfEdgesFrom tree.now locks.now waits.now.waits wait.now
        (λ more. edges.new.items ≡ edges.old.items ++ more) }
    ensures longer { IsLonger edges.old.items edges.new.items }
    ensures len { vec_len edges.new ≤ vec_len edges.old + length waits.now.waits }
    ensures capacity { vec_capacity edges.old ≤ vec_capacity edges.new }
{
    let all = sole_blockers(locks, wait);
    let alone = are_known_alone(tree, wait.txn, all);
    for place in 0..waits.len() {
        if let Some(other) = waits.at(place) {
            if has_edge(tree, locks, wait, other.txn, all, alone) {
                edges.push_reserved((wait.txn, other.txn));
            }
        }
    }
}

// Whether there is an edge to the blocker, which is alone in its branch: it waits, and keeps the
// access from being answered.
fn is_edge_to_blocker(
    tree: &Tree,
    locks: &TargetLocks,
    waits: &Waits,
    wait: &Wait,
    blocker: TxnNo,
) -> bool
    ensures { ByLocks tree.now locks.now (λ keeps.
        result ≡ is_edge_to tree.now keeps waits.now wait.now blocker) }
{
    // Whether it waits is asked first: few do, and a look at the locks costs more.
    waits.of(blocker).is_some() && has_edge_by(tree, locks, wait, blocker, blocker)
}

// Adds the edges of this one that waits, by a look at each of those who may keep it from being
// answered, who are all alone in their branches.
fn add_edges_to_blockers(
    tree: &Tree,
    locks: &TargetLocks,
    waits: &Waits,
    wait: &Wait,
    blockers: &Lockers<'_>,
    edges: &mut Vec<(TxnNo, TxnNo)>,
)
    requires all { AreLockers tree.now locks.now wait.now blockers.now }
    requires alone { AreOwnBranches tree.now wait.now.txn blockers.now }
    requires room { vec_len edges.old + length blockers.now ≤ vec_capacity edges.old }
    ensures edges { OfEdgesFrom tree.now locks.now waits.now.waits wait.now
        (λ more. AreAlike edges.new.items (edges.old.items ++ more)) }
    ensures longer { IsLonger edges.old.items edges.new.items }
    ensures len { vec_len edges.new ≤ vec_len edges.old + length blockers.now }
    ensures capacity { vec_capacity edges.old ≤ vec_capacity edges.new }
{
    for place in 0..blockers.len() {
        let blocker = blockers.at(place);
        if is_edge_to_blocker(tree, locks, waits, wait, blocker) {
            edges.push_reserved((wait.txn, blocker));
        }
    }
}

/// Adds the edges of this one that waits, by the shorter of the two ways.
pub(crate) fn add_edges_from(
    tree: &Tree,
    locks: &TargetLocks,
    waits: &Waits,
    wait: &Wait,
    edges: &mut Vec<(TxnNo, TxnNo)>,
)
    requires room { vec_len edges.old + length waits.now.waits ≤ vec_capacity edges.old }
    ensures edges { OfEdgesFrom tree.now locks.now waits.now.waits wait.now
        (λ more. AreAlike edges.new.items (edges.old.items ++ more)) }
    ensures longer { IsLonger edges.old.items edges.new.items }
    ensures len { vec_len edges.new ≤ vec_len edges.old + length waits.now.waits }
    ensures capacity { vec_capacity edges.old ≤ vec_capacity edges.new }
{
    if let Some(blockers) = Lockers::of(locks, wait) {
        if blockers.len() <= waits.len() && blockers.are_alone(tree, wait.txn) {
            return add_edges_to_blockers(tree, locks, waits, wait, &blockers, edges);
        }
    }
    add_edges_to_waiting(tree, locks, waits, wait, edges);
}

/// All edges: the pairs of those that wait of which the first waits for the second, in any order.
/// It takes no memory.
pub(crate) fn collect_edges(
    tree: &Tree,
    locks: &TargetLocks,
    waits: &Waits,
    edges: &mut Vec<(TxnNo, TxnNo)>,
)
    requires room { length waits.now.waits * length waits.now.waits ≤ vec_capacity edges.old }
    ensures edges { OfEdges tree.now locks.now waits.now.waits (AreAlike edges.new.items) }
    ensures len { vec_len edges.new ≤ length waits.now.waits * length waits.now.waits }
    ensures capacity { vec_capacity edges.old ≤ vec_capacity edges.new }
{
    edges.clear();
    for place in 0..waits.len() {
        if let Some(wait) = waits.at(place) {
            add_edges_from(tree, locks, waits, wait, edges);
        }
    }
}
