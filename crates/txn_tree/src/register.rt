//! The names and the states of the transactions that have begun.
ghost use Rattle.std.specs.Prelude.{◌≡◌, ◌≢◌, ◌↔◌, ◌<◌, [], ◌∷◌, ◌++◌, is_some, length, not, position, slice_get, None, Some, IfSome, IsTrue, OnErr, OnOk};
ghost use Rattle.std.specs.Option.{option_copied};
ghost use Rattle.txn_names.specs.Path.{path_eq};
ghost use Rattle.txn_names.specs.Text.{IsName};
ghost use Rattle.txn_tree.specs.States.{IsTree, names, status_in, GetsStatus, GetsStatusAt};
ghost use Rattle.txn_tree.specs.Asked.{IsNumberOf, IsRootless, is_absent_in};
ghost use Rattle.txn_tree.specs.Numbered.{status_at};
ghost use Rattle.txn_tree.specs.Causes.{cause_at_begin};

use crate::number::TxnNo;
use crate::status::Status;
use indexmap::IndexMap;
use std::alloc::{AllocError, Global};
use std::marker::Model;
use txn_names::Name;

/// The transactions that have begun, in order of beginning, each with its own state.
#[derive(Drop)]
pub(crate) struct Register {
    states: IndexMap<Name, Status>,
}

impl Model for Register {
    ghost use Rattle.txn_tree.specs.States.{IsTree, States};

    ghost Value = { States };

    ghost view = { λ t. t.states.entries };

    ghost invariant = { λ t. IsTree t.states.entries };
}

impl Register {
    pub(crate) fn new(alloc: Global) -> Self
        ensures { result ≡ [] }
    {
        Register {
            states: IndexMap::new(alloc),
        }
    }

    /// How many transactions have begun.
    pub(crate) fn len(&self) -> usize
        ensures len { result ≡ length self.now }
        ensures tree { IsTree self.now }
    {
        self.states.len()
    }

    /// Whether no transaction has begun.
    pub(crate) fn is_empty(&self) -> bool
        ensures { IsTrue result ↔ (self.now ≡ []) }
    {
        self.states.is_empty()
    }

    /// What became of the transaction by its own begin, commit and abort.
    pub(crate) fn status(&self, name: &Name) -> Status
        ensures status { result ≡ status_in self.now name.now }
        ensures name { IsName name.now }
    {
        // So it is not the root's.
        name.has_labels();
        match self.states.get(name) {
            Some(status) => *status,
            None => Status::Absent,
        }
    }

    /// The transaction's number, if it has begun.
    pub(crate) fn no_of(&self, name: &Name) -> Option<TxnNo>
        ensures place { result ≡ position (path_eq name.now) (names self.now) }
        ensures number { IfSome result (IsNumberOf self.now name.now) }
        ensures begun { is_some result ≡ not (is_absent_in self.now name.now) }
        ensures rootless { IsRootless self.now }
    {
        name.has_labels();
        let place = self.states.get_index_of(name)?;
        Some(TxnNo::new(place as u32))
    }

    /// The same. The transaction with the number of the hint is looked at first, and if it has the
    /// name that is not hashed.
    #[inline(always)]
    pub(crate) fn no_by_hint(&self, name: &Name, hint: TxnNo) -> Option<TxnNo>
        ensures place { result ≡ position (path_eq name.now) (names self.now) }
        ensures number { IfSome result (IsNumberOf self.now name.now) }
        ensures begun { is_some result ≡ not (is_absent_in self.now name.now) }
        ensures rootless { IsRootless self.now }
    {
        name.has_labels();
        // So it has the name alone.
        self.is_tree();
        if self.is_at(hint, name) {
            return Some(hint);
        }
        self.no_of(name)
    }

    // Whether the transaction with this number has the name.
    #[inline(always)]
    fn is_at(&self, number: TxnNo, name: &Name) -> bool
        ensures { IsTrue result → slice_get (names self.now) number ≡ Some name.now }
    {
        match self.name_of(number) {
            Some(known) => *known == *name,
            None => false,
        }
    }

    /// The transaction with this number, if so many have begun.
    #[inline(always)]
    pub(crate) fn name_of(&self, number: TxnNo) -> Option<&Name>
        ensures { option_copied result ≡ slice_get (names self.now) number }
    {
        let (name, _) = self.states.get_index(number.place() as usize)?;
        Some(name)
    }

    /// The state of the transaction with this number, Absent if it is unassigned.
    pub(crate) fn status_at(&self, txn: TxnNo) -> Status
        ensures { result ≡ status_at self.now txn }
    {
        match self.states.get_index(txn.place() as usize) {
            Some((_, status)) => *status,
            None => Status::Absent,
        }
    }

    // What holds of every register.
    pub(crate) fn is_tree(&self)
        ensures { IsTree self.now }
    {
        let _ = &self.states;
    }

    // Adds a live transaction. A begin has no cause to be refused.
    pub(crate) fn add(&mut self, name: &Name) -> Result<(), AllocError>
        requires begins { cause_at_begin self.old name.now ≡ None }
        requires name { IsName name.now }
        ensures last { OnOk result (self.new ≡ self.old ++ (name.now, Status.Live) ∷ []) }
        ensures live { OnOk result (GetsStatus self.old self.new name.now Status.Live) }
        ensures err { OnErr result (self.new ≡ self.old) }
    {
        match self.states.insert(*name, Status::Live) {
            Ok(_) => Ok(()),
            Err(_) => Err(AllocError),
        }
    }

    // Gives the transaction with this number another state. It takes no memory.
    pub(crate) fn set_at(&mut self, txn: TxnNo, status: Status)
        requires begun { txn < length self.old }
        requires other { status ≢ Status.Absent }
        ensures names { names self.new ≡ names self.old }
        ensures status { GetsStatusAt self.old self.new txn status }
    {
        *self.states.get_index_mut(txn.place() as usize).unwrap() = status;
    }
}
