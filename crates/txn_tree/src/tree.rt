//! The tree of transactions.
ghost use Rattle.std.specs.Prelude.{◌≡◌, ◌≢◌, ◌↔◌, ◌<◌, ◌+◌, ◌-◌, [], ◌∷◌, ◌++◌, is_some, length, false, not, option_map, position, slice_get, true, None, Some, if◌then◌else◌, IsFalse, IsTrue, IfNone, IfOk, IfSome, OnErr, OnOk};
ghost use Rattle.std.specs.Option.{option_copied};
ghost use Rattle.std.specs.Result.{result_err};
ghost use Rattle.txn_names.specs.Path.{Path, parent, path_eq};
ghost use Rattle.txn_names.specs.Text.{IsName};
ghost use Rattle.txn_tree.specs.States.{IsTree, is_aborted, is_live, names, status_in, GetsStatus, GetsStatusAt};
ghost use Rattle.txn_tree.specs.Asked.{IsNumberOf, IsRootless, ended_by_abort, is_absent_in, is_active_in, live_children_of, top_aborted_in};
ghost use Rattle.txn_tree.specs.Numbered.{IsClosed, IsUpward, RisesDown, ended_at, is_active_at, is_below_orphan, has_parent, is_parent_of, is_under, live_children_at, status_at};
ghost use Rattle.txn_tree.specs.Siblings.{HasBranches, IsFirst, IsNext, is_child_at, is_sibling_at, is_top_at};
ghost use Rattle.txn_tree.specs.Linked.{IsParentAt};
ghost use Rattle.txn_tree.specs.Causes.{cause_at_abort, cause_at_begin, cause_at_commit, cause_at_parent, refusal_of};

use crate::fault::TreeFault;
use crate::linking::{add_node, append_child, children_at, end_child, next_in, parent_in};
use crate::node::{Children, Node};
use crate::number::TxnNo;
use crate::register::Register;
use crate::status::Status;
use serial_spec::{MOST_TRANSACTIONS, Refusal};
use std::alloc::Global;
use std::marker::Model;
use txn_names::Name;

/// The transactions that have begun, in order of beginning, each with its own state. All stand
/// below a root, which has no name, is live for ever, and is the parent of the names of one label.
///
/// An orphan is a transaction with an aborted ancestor, itself included. Its own state may still be
/// live.
#[derive(Drop)]
pub struct Tree {
    register: Register,
    // Of each transaction, at its number.
    nodes: Vec<Node>,
    // The children of the root.
    tops: Children,
}

impl Model for Tree {
    ghost use Rattle.txn_tree.specs.States.{IsTree, States};
    ghost use Rattle.txn_tree.specs.Linked.{IsLinked};
    ghost use Rattle.txn_tree.specs.Numbered.{IsUpward};

    ghost Value = { States };

    ghost view = { λ t. t.register };

    ghost invariant = { λ t. IsTree t.register × IsLinked t.register t.nodes.items t.tops
        × IsUpward t.register };
}

impl Tree {
    /// No transactions. It takes no memory yet.
    pub fn new(alloc: Global) -> Self
        ensures { result ≡ [] }
    {
        Tree {
            register: Register::new(alloc),
            nodes: Vec::new(alloc),
            tops: Children::none(),
        }
    }

    /// How many transactions have begun.
    pub fn len(&self) -> usize
        ensures len { result ≡ length self.now }
        ensures tree { IsTree self.now }
    {
        self.register.len()
    }

    /// Whether no transaction has begun.
    pub fn is_empty(&self) -> bool
        ensures { IsTrue result ↔ (self.now ≡ []) }
    {
        self.register.is_empty()
    }

    /// Those that have begun have names, each its own, and are at most `MOST_TRANSACTIONS`. The
    /// call does nothing: it tells the prover so.
    pub fn has_distinct_names(&self)
        ensures { IsTree self.now }
    {
        self.register.is_tree();
    }

    /// What became of the transaction by its own begin, commit and abort.
    pub fn status(&self, name: &Name) -> Status
        ensures status { result ≡ status_in self.now name.now }
        ensures name { IsName name.now }
    {
        self.register.status(name)
    }

    /// The transaction's number, if it has begun.
    pub fn no_of(&self, name: &Name) -> Option<TxnNo>
        ensures place { result ≡ position (path_eq name.now) (names self.now) }
        ensures number { IfSome result (IsNumberOf self.now name.now) }
        ensures begun { is_some result ≡ not (is_absent_in self.now name.now) }
        ensures rootless { IsRootless self.now }
    {
        self.register.no_of(name)
    }

    /// The same as `no_of`, whatever the hint. Where that is the number of the transaction, its name
    /// is compared and not hashed, which costs a quarter.
    #[inline(always)]
    pub fn no_by_hint(&self, name: &Name, hint: TxnNo) -> Option<TxnNo>
        ensures place { result ≡ position (path_eq name.now) (names self.now) }
        ensures number { IfSome result (IsNumberOf self.now name.now) }
        ensures begun { is_some result ≡ not (is_absent_in self.now name.now) }
        ensures rootless { IsRootless self.now }
    {
        self.register.no_by_hint(name, hint)
    }

    /// The transaction with this number, if so many have begun.
    pub fn name_of(&self, number: TxnNo) -> Option<&Name>
        ensures { option_copied result ≡ slice_get (names self.now) number }
    {
        self.register.name_of(number)
    }

    /// The state of the transaction with this number, Absent if it is unassigned.
    pub fn status_at(&self, txn: TxnNo) -> Status
        ensures { result ≡ status_at self.now txn }
    {
        self.register.status_at(txn)
    }

    /// How many children of the transaction are live by their own states.
    pub fn live_children(&self, name: &Name) -> u32
        ensures { result ≡ live_children_of self.now name.now }
    {
        let _ = &self.nodes;
        name.has_labels();
        match self.no_of(name) {
            Some(txn) => self.live_children_at(txn),
            None => 0,
        }
    }

    /// The number of the transaction's parent. It is `None` exactly if the number is unassigned or
    /// the transaction is top-level.
    pub fn parent_of(&self, txn: TxnNo) -> Option<TxnNo>
        ensures some { is_some result ≡ has_parent (slice_get (names self.now) txn) }
        ensures named { IfSome result
            (λ p. IsTrue
            (is_parent_of (slice_get (names self.now) p) (slice_get (names self.now) txn))) }
        ensures earlier { IfSome result (λ p. p < txn) }
        ensures closed { IsClosed self.now }
    {
        parent_in(&self.nodes, txn)
    }

    /// The number of the transaction's child that began first. It is `None` exactly if the number
    /// is unassigned or the transaction has no child.
    pub fn first_child(&self, txn: TxnNo) -> Option<TxnNo>
        ensures first { IsFirst (is_child_at self.now txn) result }
        ensures later { IfSome result (λ c. txn < c) }
        ensures branches { HasBranches self.now txn }
    {
        children_at(&self.nodes, txn).first
    }

    /// The number of the next begun child of the same parent, or of the next top-level transaction.
    /// It is `None` exactly if the number is unassigned or none of the siblings began later.
    pub fn next_sibling(&self, txn: TxnNo) -> Option<TxnNo>
        ensures { IsNext (is_sibling_at self.now txn) txn result }
    {
        next_in(&self.nodes, txn)
    }

    /// The number of the top-level transaction that began first. It is `None` exactly if nobody has
    /// begun.
    pub fn first_top(&self) -> Option<TxnNo>
        ensures first { IsFirst (is_top_at self.now) result }
        ensures begun { IsTrue (is_some result) ↔ (self.now ≢ []) }
    {
        self.tops.first
    }

    // Of two above a third the deeper one has the greater number. The call does nothing: it tells the
    // prover so.
    fn rises_down(&self, _inferior: TxnNo)
        ensures { RisesDown self.now _inferior }
    {
        let _ = &self.nodes;
    }

    /// Whether both have begun and the second is the first or a descendant of it. It goes up by
    /// numbers, from parent to parent, as far as the first may stand: whoever is above began before.
    pub fn is_under(&self, txn: TxnNo, inferior: TxnNo) -> bool
        ensures under { result ≡ is_under self.now txn inferior }
        ensures rises { RisesDown self.now inferior }
    {
        let _ = &self.nodes;
        self.rises_down(inferior);
        let mut above = inferior;
        while above.place() > txn.place() {
            match self.parent_of(above) {
                Some(parent) => above = parent,
                None => return false,
            }
        }
        if above.place() < txn.place() {
            return false;
        }
        self.name_of(txn).is_some()
    }

    /// How many children of the transaction with this number are live; none if it is unassigned.
    pub fn live_children_at(&self, txn: TxnNo) -> u32
        ensures { result ≡ live_children_at self.now txn }
    {
        children_at(&self.nodes, txn).live
    }

    /// How many top-level transactions are live.
    pub fn live_tops(&self) -> u32
        ensures { result ≡ live_children_of self.now [] }
    {
        self.tops.live
    }

    // The number of the parent, or none if that is the root. The error is why it can have no more
    // children.
    fn number_of_parent(&self, name: &Name) -> Result<Option<TxnNo>, Refusal>
        ensures refused { result_err result ≡ cause_at_parent self.now (parent name.now) }
        ensures number { IfOk result (IsParentAt (names self.now) (length self.now) name.now) }
    {
        let Some(parent) = name.parent() else {
            return Ok(None);
        };
        let Some(txn) = self.no_of(&parent) else {
            return Err(Refusal::NoParent);
        };
        if self.is_active_at(txn) {
            Ok(Some(txn))
        } else {
            Err(self.refusal_of_ended(txn, Refusal::NoParent))
        }
    }

    // The same where the transaction may begin. The error is why it may not.
    fn parent_to_begin(&self, name: &Name) -> Result<Option<TxnNo>, Refusal>
        ensures refused { result_err result ≡ cause_at_begin self.now name.now }
        ensures number { IfOk result (IsParentAt (names self.now) (length self.now) name.now) }
        ensures name { IsName name.now }
    {
        if self.status(name) != Status::Absent {
            return Err(Refusal::Used);
        }
        let parent = self.number_of_parent(name)?;
        if self.len() < MOST_TRANSACTIONS {
            Ok(parent)
        } else {
            Err(Refusal::Full)
        }
    }

    // The number of the transaction, which is active. The error is why it may not be aborted.
    fn number_to_end(&self, name: &Name) -> Result<TxnNo, Refusal>
        ensures refused { result_err result ≡ cause_at_abort self.now name.now }
        ensures named { IfOk result (λ n. slice_get (names self.now) n ≡ Some name.now) }
        ensures active { IfOk result (λ n. is_active_at self.now n ≡ true) }
    {
        let Some(txn) = self.no_of(name) else {
            return Err(Refusal::Unknown);
        };
        if self.is_active_at(txn) {
            Ok(txn)
        } else {
            Err(self.refusal_of_ended(txn, Refusal::Done))
        }
    }

    /// Begins the transaction and gives its number. A begin is refused by the first cause that
    /// holds: Used (the name began before), NoParent (the parent never began), Orphan (the parent
    /// is one; with the topmost aborted one), NoParent (the parent has committed), Full
    /// (`MOST_TRANSACTIONS` have begun). With no such cause it may still fail because memory runs
    /// out.
    pub fn begin(&mut self, name: &Name) -> Result<TxnNo, TreeFault>
        ensures refused { refusal_of result ≡ cause_at_begin self.old name.now }
        ensures number { IfOk result (λ no. no ≡ length self.old) }
        ensures last { OnOk result (self.new ≡ self.old ++ (name.now, Status.Live) ∷ []) }
        ensures live { OnOk result ((u : Path) →
            status_in self.new u ≡ (if path_eq name.now u then Status.Live
            else status_in self.old u)) }
        ensures err { OnErr result (self.new ≡ self.old) }
    {
        let parent = match self.parent_to_begin(name) {
            Ok(parent) => parent,
            Err(cause) => return Err(TreeFault::Refused(cause)),
        };
        let place = self.register.len();
        let above = parent;
        if add_node(&mut self.nodes, above).is_err() {
            return Err(TreeFault::NoMemory);
        }
        if self.register.add(name).is_err() {
            self.nodes.truncate(place);
            return Err(TreeFault::NoMemory);
        }
        self.register.is_tree();
        append_child(
            &mut self.nodes,
            &mut self.tops,
            parent,
            TxnNo::new(place as u32),
        );
        Ok(TxnNo::new(place as u32))
    }

    // Gives an active transaction the state that ends it. It takes no memory.
    fn end(&mut self, txn: TxnNo, status: Status)
        requires active { is_active_at self.old txn ≡ true }
        requires begun { status ≢ Status.Absent }
        requires ended { is_live status ≡ false }
        requires lone { is_aborted status ≡ false → live_children_at self.old txn ≡ 0 }
        ensures names { names self.new ≡ names self.old }
        ensures status { GetsStatusAt self.old self.new txn status }
    {
        let parent = self.nodes[txn.place() as usize].parent;
        self.register.set_at(txn, status);
        self.register.is_tree();
        end_child(&mut self.nodes, &mut self.tops, parent);
    }

    // Whether the transaction with this number is live by its own state. Below one that is not,
    // nobody is active.
    pub(crate) fn is_live_at(&self, txn: TxnNo) -> bool
        ensures live { result ≡ is_live (status_at self.now txn) }
        ensures upward { IsUpward self.now }
    {
        self.register.status_at(txn) == Status::Live
    }

    // How many transactions an abort of this one, whose parent is no orphan, would end. Below one
    // that is not live there are none.
    fn ended_at(&self, txn: TxnNo) -> u32
        requires upright { is_below_orphan self.now txn ≡ false }
        ensures { result ≡ ended_at self.now txn }
    {
        if !self.is_live_at(txn) {
            return 0;
        }
        let mut ended = 1;
        let mut child = children_at(&self.nodes, txn).first;
        while let Some(inferior) = child {
            ended += self.ended_at(inferior);
            child = self.next_sibling(inferior);
        }
        ended
    }

    /// Commits the transaction with this number, which the caller knows to be live, no orphan and
    /// without a live child. Its own state is Committed. It takes no memory.
    pub fn commit_at(&mut self, txn: TxnNo)
        requires active { is_active_at self.old txn ≡ true }
        requires children { live_children_at self.old txn ≡ 0 }
        ensures committed { GetsStatusAt self.old self.new txn Status.Committed }
        ensures names { names self.new ≡ names self.old }
    {
        self.end(txn, Status::Committed);
    }

    /// Aborts the transaction with this number, which the caller knows to be live and no orphan.
    /// Its own state is Aborted, and those of its inferiors stay. It gives the number of
    /// transactions, itself and inferiors, that were live and no orphans before. It takes no
    /// memory.
    pub fn abort_at(&mut self, txn: TxnNo) -> u32
        requires active { is_active_at self.old txn ≡ true }
        ensures ended { (t : Path) → slice_get (names self.old) txn ≡ Some t →
            result ≡ ended_by_abort self.old t }
        ensures aborted { GetsStatusAt self.old self.new txn Status.Aborted }
        ensures names { names self.new ≡ names self.old }
    {
        let ended = self.ended_at(txn);
        self.end(txn, Status::Aborted);
        ended
    }

    /// Commits the transaction: its own state is Committed. It takes no memory. A commit is refused
    /// by the first cause that holds: Unknown (it never began), Orphan (it is one; with the topmost
    /// aborted one), Done (it has committed), Children (a child is live).
    pub fn commit(&mut self, name: &Name) -> Result<(), Refusal>
        ensures refused { result_err result ≡ cause_at_commit self.old name.now }
        ensures committed { OnOk result (GetsStatus self.old self.new name.now Status.Committed) }
        ensures names { OnOk result (names self.new ≡ names self.old) }
        ensures err { OnErr result (self.new ≡ self.old) }
    {
        let txn = self.number_to_end(name)?;
        if self.live_children_at(txn) > 0 {
            return Err(Refusal::Children);
        }
        self.commit_at(txn);
        Ok(())
    }

    /// Aborts the transaction: its own state is Aborted, and those of its inferiors stay. It gives
    /// the number of transactions, itself and inferiors, that were live and no orphans before. It
    /// takes no memory. An abort is refused by the first cause that holds: Unknown (it never
    /// began), Orphan (it is one; with the topmost aborted one), Done (it has committed).
    pub fn abort(&mut self, name: &Name) -> Result<u32, Refusal>
        ensures refused { result_err result ≡ cause_at_abort self.old name.now }
        ensures ended { IfOk result (λ n. n ≡ ended_by_abort self.old name.now) }
        ensures aborted { OnOk result (GetsStatus self.old self.new name.now Status.Aborted) }
        ensures names { OnOk result (names self.new ≡ names self.old) }
        ensures err { OnErr result (self.new ≡ self.old) }
    {
        let txn = self.number_to_end(name)?;
        Ok(self.abort_at(txn))
    }
}
