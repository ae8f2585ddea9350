//! Those that are reached from a start, each found by one look-up.
ghost use Rattle.std.specs.Prelude.{◌≡◌, ◌≤◌, ◌<◌, ◌++◌, ◌∷◌, [], nat_eq, length, slice_get, IsFalse, IsOk, IfNone, IfSome, OnOk, Some};
ghost use Rattle.std.specs.List.{list_any};
ghost use Rattle.wait_cycles.specs.Cycles.{is_member};
ghost use Rattle.wait_cycles.specs.Trails.{nodes};

use indexmap::IndexMap;
use serial_spec::NoMemory;
use std::alloc::Global;
use std::marker::Model;
use txn_tree::TxnNo;

/// One that was reached, and the place of the one before it on the way, which is the start where
/// there is none.
#[derive(Clone, Copy, Debug, PartialEq, Eq)]
pub(crate) struct Reached {
    pub(crate) txn: TxnNo,
    pub(crate) from: Option<usize>,
}

/// Those that were reached, each once, in the order in which they were found.
#[derive(Drop)]
pub(crate) struct Trail {
    before: IndexMap<TxnNo, Option<usize>>,
}

impl Model for Trail {
    ghost use Rattle.std.specs.Prelude.{◌+◌, length};
    ghost use Rattle.indexmap.specs.IndexMap.{spare};
    ghost use Rattle.wait_cycles.specs.Trails.{Reaching, reached_in};

    ghost Value = { Reaching };

    ghost view = { λ t. record {
      reached = reached_in t.before.entries;
      capacity = length
          t.before.entries + spare t.before;
    } };
}

impl Trail {
    pub(crate) fn new(alloc: Global) -> Self
        ensures { result.reached ≡ [] }
    {
        Trail {
            before: IndexMap::new(alloc),
        }
    }

    /// Nobody is reached. It takes time in proportion to those that were.
    pub(crate) fn clear(&mut self)
        ensures reached { self.new.reached ≡ [] }
        ensures capacity { self.old.capacity ≤ self.new.capacity }
    {
        self.before.truncate(0);
    }

    /// Makes room for so many in all. Nobody is reached then.
    pub(crate) fn reserve(&mut self, count: usize) -> Result<(), NoMemory>
        ensures ok { OnOk result (count ≤ self.new.capacity) }
        ensures kept { self.old.capacity ≤ self.new.capacity }
        ensures succeeds { count ≤ self.old.capacity → IsOk result }
    {
        self.clear();
        self.before.reserve(count)
    }

    pub(crate) fn len(&self) -> usize
        ensures { result ≡ length self.now.reached }
    {
        self.before.len()
    }

    pub(crate) fn at(&self, place: usize) -> Reached
        requires { place < length self.now.reached }
        ensures { slice_get self.now.reached place ≡ Some result }
    {
        let (txn, from) = self.before.get_index(place).unwrap();
        Reached {
            txn: *txn,
            from: *from,
        }
    }

    pub(crate) fn has(&self, txn: TxnNo) -> bool
        ensures { result ≡ list_any (λ r. nat_eq txn r.txn) self.now.reached }
    {
        self.before.contains_key(&txn)
    }

    /// The place at which it was reached.
    pub(crate) fn place_of(&self, txn: TxnNo) -> Option<usize>
        ensures some { IfSome result (λ place. slice_get (nodes self.now.reached) place ≡
            Some txn) }
        ensures none { IfNone result (IsFalse (is_member txn (nodes self.now.reached))) }
    {
        self.before.get_index_of(&txn)
    }

    /// Adds one that was not reached, where there is room. It takes no memory.
    pub(crate) fn push(&mut self, reached: Reached)
        requires fresh { IsFalse (list_any (λ r. nat_eq reached.txn r.txn) self.old.reached) }
        requires room { length self.old.reached < self.old.capacity }
        ensures reached { self.new.reached ≡ self.old.reached ++ reached ∷ [] }
        ensures capacity { self.old.capacity ≤ self.new.capacity }
    {
        self.before.insert(reached.txn, reached.from).unwrap();
    }
}
