//! The walk from one that waits to those for whom it waits, and on from each of them: its edges,
//! and whether it comes back.
ghost use Rattle.std.specs.Prelude.{◌≡◌, ◌≤◌, ◌+◌, ◌*◌, ◌||◌, nat_eq, ℕ, false, IsFalse, length, slice_index_or, vec_len, vec_capacity};
ghost use Rattle.wait_graph.specs.Edges.{OfEdges};
ghost use Rattle.wait_graph.specs.Walks.{HasMoreOf, IsLonger, IsOnNoCycle, IsWayOf, GoesOnFrom, most_listed};

use crate::edges::add_edges_from;
use lock_table::TargetLocks;
use txn_tree::{Tree, TxnNo};
use wait_cycles::Waits;

// A mark for each place among the waits, none of which is set.
fn clear_marks(marks: &mut Vec<bool>, waits: &Waits)
    requires { length waits.now.waits ≤ vec_capacity marks.old }
    ensures none { (place : ℕ) → IsFalse (slice_index_or marks.new.items place false) }
    ensures len { length marks.new.items ≡ length waits.now.waits }
    ensures capacity { vec_capacity marks.old ≤ vec_capacity marks.new }
{
    marks.clear();
    for _ in 0..waits.len() {
        marks.push_reserved(false);
    }
}

// Adds the edges of the transaction's wait and marks its place, unless that is marked: then they
// were added. There is room for the edges of one wait a place that is not marked.
fn go_on_from(
    tree: &Tree,
    locks: &TargetLocks,
    waits: &Waits,
    txn: TxnNo,
    marks: &mut Vec<bool>,
    edges: &mut Vec<(TxnNo, TxnNo)>,
)
    requires marks { length marks.old.items ≡ length waits.now.waits }
    requires room { most_listed edges.old marks.old waits.now.waits ≤ vec_capacity edges.old }
    ensures gone_on { OfEdges tree.now locks.now waits.now.waits
        (GoesOnFrom waits.now.waits txn marks.old edges.old marks.new edges.new) }
    ensures among { OfEdges tree.now locks.now waits.now.waits
        (λ all. HasMoreOf all edges.old.items edges.new.items) }
    ensures longer { IsLonger edges.old.items edges.new.items }
    ensures marks { length marks.new.items ≡ length marks.old.items }
    ensures marks_capacity { vec_capacity marks.old ≤ vec_capacity marks.new }
    ensures len { most_listed edges.new marks.new waits.now.waits
        ≤ most_listed edges.old marks.old waits.now.waits }
    ensures capacity { vec_capacity edges.old ≤ vec_capacity edges.new }
{
    waits.has_each_once();
    let Some(place) = waits.place_of(txn) else {
        return;
    };
    if marks[place] {
        return;
    }
    if let Some(wait) = waits.at(place) {
        marks[place] = true;
        add_edges_from(tree, locks, waits, wait, edges);
    }
}

// Whether the walk has come back to the transaction: before, or with the one that it reaches now.
fn is_back(before: bool, reached: TxnNo, txn: TxnNo) -> bool
    ensures { result ≡ (before || nat_eq reached txn) }
{
    before || reached == txn
}

/// Lists the edges on the way of a transaction: those of its own wait, and of each that is reached
/// by one that is listed. It tells whether one of them comes back to the transaction. Each that
/// waits is gone on from once. It takes no memory.
pub(crate) fn collect_way(
    tree: &Tree,
    locks: &TargetLocks,
    waits: &Waits,
    txn: TxnNo,
    marks: &mut Vec<bool>,
    edges: &mut Vec<(TxnNo, TxnNo)>,
) -> bool
    requires marks { length waits.now.waits ≤ vec_capacity marks.old }
    requires room { length waits.now.waits * length waits.now.waits ≤ vec_capacity edges.old }
    ensures none { IsFalse result → OfEdges tree.now locks.now waits.now.waits
        (λ all. IsOnNoCycle all txn) }
    ensures way { OfEdges tree.now locks.now waits.now.waits
        (λ all. IsWayOf all edges.new.items txn) }
    ensures len { vec_len edges.new ≤ length waits.now.waits * length waits.now.waits }
    ensures marks_capacity { vec_capacity marks.old ≤ vec_capacity marks.new }
    ensures capacity { vec_capacity edges.old ≤ vec_capacity edges.new }
{
    clear_marks(marks, waits);
    edges.clear();
    go_on_from(tree, locks, waits, txn, marks, edges);
    let mut back = false;
    let mut place = 0;
    while place < edges.len() {
        let (_, reached) = edges[place];
        back = is_back(back, reached, txn);
        go_on_from(tree, locks, waits, reached, marks, edges);
        place += 1;
    }
    back
}
