//! The search for cycles of waits and for a victim on one, in room that was made before.
ghost use Rattle.std.specs.Prelude.{◌≡◌, ◌≤◌, ◌*◌, ℕ, List, length, IfNone, IfSome, IsFalse, IsOk, OnOk};
ghost use Rattle.wait_cycles.specs.Cycles.{IsCycle, IsLastOn};
ghost use Rattle.wait_graph.specs.Edges.{OfEdges};
ghost use Rattle.wait_graph.specs.Walks.{IsLastThrough, IsOnNoCycle};

use crate::edges::collect_edges;
use crate::walk::collect_way;
use lock_table::TargetLocks;
use serial_spec::NoMemory;
use std::alloc::{AllocError, Global};
use std::marker::Model;
use txn_tree::{Tree, TxnNo};
use wait_cycles::{Waits, Work};

/// Room in which cycles of waits are looked for without memory.
#[derive(Drop)]
pub struct CycleSearch {
    edges: Vec<(TxnNo, TxnNo)>,
    marks: Vec<bool>,
    work: Work,
    // For so many that wait each part has room.
    ready: usize,
}

impl Model for CycleSearch {
    ghost use Rattle.std.specs.Prelude.{◌≤◌, ◌*◌, ℕ, min, vec_capacity};

    // For how many edges there is room, and for the marks of so many that wait, squared.
    ghost Value = { ℕ };

    ghost view = { λ b. min (vec_capacity b.edges)
        (min (vec_capacity b.marks * vec_capacity b.marks) b.work) };

    ghost invariant = { λ b. b.ready * b.ready
        ≤ min (vec_capacity b.edges) (min (vec_capacity b.marks * vec_capacity b.marks) b.work) };
}

impl CycleSearch {
    /// Room for no edges. It takes no memory yet.
    pub fn new(alloc: Global) -> CycleSearch
        ensures { result ≡ 0 }
    {
        CycleSearch {
            edges: Vec::new(alloc),
            marks: Vec::new(alloc),
            work: Work::new(alloc),
            ready: 0,
        }
    }

    /// Makes room for the edges among so many that wait. The only error is that there is no memory
    /// for them, or that they are more than can be counted. Then there is no less room than before.
    #[inline(always)]
    pub fn reserve(&mut self, waiting: usize) -> Result<(), NoMemory>
        ensures ok { OnOk result (waiting * waiting ≤ self.new) }
        ensures kept { self.old ≤ self.new }
    {
        if waiting <= self.ready {
            return Ok(());
        }
        self.make_room(waiting)
    }

    // Makes that room in each part, and notes it.
    #[inline(never)]
    fn make_room(&mut self, waiting: usize) -> Result<(), NoMemory>
        ensures ok { OnOk result (waiting * waiting ≤ self.new) }
        ensures kept { self.old ≤ self.new }
    {
        let Some(edges) = waiting.checked_mul(waiting) else {
            return Err(AllocError);
        };
        self.edges.clear();
        self.edges.reserve(edges)?;
        self.marks.clear();
        self.marks.reserve(waiting)?;
        self.work.reserve(edges)?;
        self.ready = waiting;
        Ok(())
    }

    /// One that lies on a cycle and was begun no earlier than any on a cycle through the
    /// transaction, if there is such a cycle. So where each cycle goes through the transaction it
    /// is the last begun of those on any, as `victim` gives. It makes the edges of those alone that
    /// the transaction waits for, or that one of these waits for in turn, and so costs less where
    /// these are few.
    pub fn last_through(
        &mut self,
        tree: &Tree,
        locks: &TargetLocks,
        waits: &Waits,
        txn: TxnNo,
    ) -> Option<TxnNo>
        requires { length waits.now.waits * length waits.now.waits ≤ self.old }
        ensures some { IfSome result (λ last.
            OfEdges tree.now locks.now waits.now.waits (λ all. IsLastThrough all txn last)) }
        ensures none { IfNone result
            (OfEdges tree.now locks.now waits.now.waits (λ all. IsOnNoCycle all txn)) }
        ensures room { self.old ≤ self.new }
    {
        if !collect_way(tree, locks, waits, txn, &mut self.marks, &mut self.edges) {
            return None;
        }
        self.work.victim(&self.edges)
    }

    /// The last begun of those that lie on a cycle of waits, if there is a cycle.
    pub fn victim(&mut self, tree: &Tree, locks: &TargetLocks, waits: &Waits) -> Option<TxnNo>
        requires { length waits.now.waits * length waits.now.waits ≤ self.old }
        ensures some { IfSome result (λ txn.
            OfEdges tree.now locks.now waits.now.waits (λ all. IsLastOn all txn)) }
        ensures none { IfNone result (OfEdges tree.now locks.now waits.now.waits
            (λ all. (xs : List ℕ) → IsCycle all xs → ⊥)) }
        ensures room { self.old ≤ self.new }
    {
        collect_edges(tree, locks, waits, &mut self.edges);
        self.work.victim(&self.edges)
    }
}
