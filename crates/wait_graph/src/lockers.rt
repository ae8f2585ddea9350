//! Those who may keep an access from being answered, as the locks list them.
ghost use Rattle.std.specs.Prelude.{◌≡◌, ◌<◌, ◌||◌, nat_eq, ℕ, IfSome, IsTrue, Some, length, slice_get};
ghost use Rattle.std.specs.List.{list_any};
ghost use Rattle.txn_tree.specs.States.{States};
ghost use Rattle.wait_graph.specs.Edges.{AreLockers, AreOwnBranches};

use crate::branch::are_alone_in_branches;
use lock_table::TargetLocks;
use std::marker::Model;
use txn_tree::{Tree, TxnNo};
use wait_cycles::Wait;

/// Those who may keep an access from being answered, and maybe others, in two lists. One who is in
/// both counts twice.
#[derive(Drop)]
pub(crate) struct Lockers<'a> {
    first: &'a [TxnNo],
    more: &'a [TxnNo],
}

impl<'a> Model for Lockers<'a> {
    ghost use Rattle.std.specs.Prelude.{◌++◌, List, ℕ};

    ghost Value = { List ℕ };

    ghost view = { λ l. l.first.now ++ l.more.now };
}

// All of both lists in one of them, where the other has nobody.
fn in_one<'a>(front: &'a [TxnNo], back: &'a [TxnNo]) -> Option<&'a [TxnNo]>
    ensures { IfSome result (λ one. (u : ℕ) → list_any (nat_eq u) one.now
        ≡ (list_any (nat_eq u) front.now || list_any (nat_eq u) back.now)) }
{
    if back.is_empty() {
        Some(front)
    } else if front.is_empty() {
        Some(back)
    } else {
        None
    }
}

impl<'a> Lockers<'a> {
    /// Those of an access, where two lists have them all: of a write at a key those at the key, and
    /// those with a sum over a group of it, if no more than one of its groups has anybody.
    pub(crate) fn of(locks: &'a TargetLocks, wait: &Wait) -> Option<Lockers<'a>>
        ensures { IfSome result (λ all. (tree : States) →
            AreLockers tree locks.now wait.now all) }
    {
        let target = wait.asked.target();
        let lists = locks.lists(&target);
        let mut more: &'a [TxnNo] = &[];
        for place in 1..lists {
            match in_one(more, locks.list_at(&target, place)) {
                Some(one) => more = one,
                None => return None,
            }
        }
        Some(Lockers {
            first: locks.list_at(&target, 0),
            more,
        })
    }

    /// How many they are.
    pub(crate) fn len(&self) -> usize
        ensures { result ≡ length self.now }
    {
        self.first.len() + self.more.len()
    }

    /// The one at this place among all.
    pub(crate) fn at(&self, place: usize) -> TxnNo
        requires { place < length self.now }
        ensures { slice_get self.now place ≡ Some result }
    {
        let count = self.first.len();
        if place < count {
            self.first[place]
        } else {
            self.more[place - count]
        }
    }

    /// Whether each of them is seen to be alone in the branch by which it parts from the
    /// transaction.
    pub(crate) fn are_alone(&self, tree: &Tree, txn: TxnNo) -> bool
        ensures { IsTrue result → AreOwnBranches tree.now txn self.now }
    {
        are_alone_in_branches(tree, txn, self.first) && are_alone_in_branches(tree, txn, self.more)
    }
}
