//! Sibling branches: who is in the branch by which a blocker parts from a transaction.
ghost use Rattle.std.specs.Prelude.{◌≡◌, IfNone, IfSome, IsTrue};
ghost use Rattle.wait_graph.specs.Edges.{AreOwnBranches, IsAlone, IsBranch, IsNoBranch, IsOwnBranch, is_in_branch};

use txn_names::Name;
use txn_tree::{Tree, TxnNo};

/// Whether the other is in the branch by which the blocker parts from the transaction.
pub(crate) fn is_in_branch(tree: &Tree, txn: TxnNo, blocker: TxnNo, other: TxnNo) -> bool
    ensures { result ≡ is_in_branch tree.now txn blocker other }
{
    match (
        tree.name_of(txn),
        tree.name_of(blocker),
        tree.name_of(other),
    ) {
        (Some(name), Some(holder), Some(beside)) => {
            // Most share no label with the holder, so that this one comparison decides.
            let shared = Name::meet_depth(beside, holder);
            shared > 0 && Name::meet_depth(name, holder) < shared
        }
        _ => false,
    }
}

/// The topmost of those in the branch by which the blocker parts from the transaction: whoever is
/// in the branch is that one or below it. Nobody is in it if either has not begun, or if the blocker
/// is the transaction or above it.
pub(crate) fn branch_of(tree: &Tree, txn: TxnNo, blocker: TxnNo) -> Option<TxnNo>
    ensures some { IfSome result (IsBranch tree.now txn blocker) }
    ensures none { IfNone result (IsNoBranch tree.now txn blocker) }
{
    tree.name_of(txn)?;
    tree.name_of(blocker)?;
    if tree.is_under(blocker, txn) {
        return None;
    }
    let mut top = blocker;
    while let Some(parent) = tree.parent_of(top) {
        if tree.is_under(parent, txn) {
            return Some(top);
        }
        top = parent;
    }
    Some(top)
}

/// Whether the transaction is top-level and has no descendants. Then it is in nobody's branch but
/// its own, and nobody else is in its branch.
pub(crate) fn is_lone_top(tree: &Tree, txn: TxnNo) -> bool
    ensures { IsTrue result → IsAlone tree.now txn }
{
    let Some(name) = tree.name_of(txn) else {
        return false;
    };
    if name.depth() != 1 {
        return false;
    }
    tree.first_child(txn).is_none()
}

// Whether the blocker is seen to be alone in the branch by which it parts from the transaction: it
// is above it, so that there is no such branch, or it parts from it by itself and has no
// descendants.
fn is_alone_in_branch(tree: &Tree, txn: TxnNo, blocker: TxnNo) -> bool
    ensures { IsTrue result → IsOwnBranch tree.now txn blocker }
{
    match (tree.name_of(txn), tree.name_of(blocker)) {
        (Some(name), Some(holder)) => {
            let shared = Name::meet_depth(name, holder);
            let depth = holder.depth();
            if depth > shared {
                depth - shared == 1 && tree.first_child(blocker).is_none()
            } else {
                true
            }
        }
        _ => false,
    }
}

/// Whether each of the blockers is seen to be alone in its branch.
pub(crate) fn are_alone_in_branches(tree: &Tree, txn: TxnNo, blockers: &[TxnNo]) -> bool
    ensures { IsTrue result → AreOwnBranches tree.now txn blockers.now }
{
    for place in 0..blockers.len() {
        if !is_alone_in_branch(tree, txn, blockers[place]) {
            return false;
        }
    }
    true
}

/// Whether they stand in one list, and each of them is seen to be alone in the branch by which it
/// parts from the transaction.
pub(crate) fn are_known_alone(tree: &Tree, txn: TxnNo, all: Option<&[TxnNo]>) -> bool
    ensures { IsTrue result → IfSome all.entry (λ us. AreOwnBranches tree.now txn us.now) }
{
    match all {
        Some(blockers) => are_alone_in_branches(tree, txn, blockers),
        None => false,
    }
}
