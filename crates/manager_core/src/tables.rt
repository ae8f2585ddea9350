//! The tables beside the history.
ghost use Rattle.std.specs.Prelude.{◌≡◌, ◌≤◌, ◌<◌, ℕ, List, [], length, None, IsFalse, OnOk};
ghost use Rattle.txn_names.specs.Path.{parent};
ghost use Rattle.txn_tree.specs.Asked.{IsNumberOf, IsRootless, is_absent_in};
ghost use Rattle.serial_spec.specs.declared.target.Target.{Target};
ghost use Rattle.inherit.specs.LocksAndVersions.{free, left_of, modes_of};
ghost use Rattle.manager_core.specs.Tables.{HasOtherRoom, rows_in};

use crate::hints::Hints;
use crate::looks::Looks;
use inherit::Estate;
use orphans::Marks;
use serial_spec::{By, NoMemory, PlainTable};
use std::alloc::Global;
use std::marker::Model;
use txn_names::Name;
use txn_tree::{Tree, TxnNo};
use wait_cycles::Waits;

/// What the history says of transactions, kept so that it need not be gone through: who has begun
/// and what became of each, who has aborted, what live transactions lock and have left, over the
/// table of what is committed, and who waits.
#[derive(Drop)]
pub(crate) struct Tables {
    pub(crate) tree: Tree,
    pub(crate) marks: Marks,
    pub(crate) estate: Estate,
    pub(crate) waits: Waits,
    pub(crate) looks: Looks,
    pub(crate) hints: Hints,
}

impl Model for Tables {
    ghost use Rattle.manager_core.specs.Looked.{AreSeen};
    ghost use Rattle.manager_core.specs.Tables.{Tabled};

    ghost Value = { Tabled };

    ghost view = { λ t. record {
      tree = t.tree;
      marks = t.marks;
      estate = t.estate;
      waits = t.waits;
    } };

    ghost invariant = { λ t. AreSeen t.tree t.estate.locks t.waits.waits t.looks };
}

impl Tables {
    /// Nobody has begun, over this table. It takes no memory yet.
    pub(crate) fn new(alloc: Global, base: PlainTable) -> Tables
        ensures tree { result.tree ≡ [] }
        ensures marks { result.marks.names ≡ [] }
        ensures modes { (n : ℕ) → (s : Target) → modes_of result.estate n s ≡ free }
        ensures left { (n : ℕ) → (k : List ℕ) → left_of result.estate n k ≡ None }
        ensures base { result.estate.versions.base ≡ base }
        ensures waits { result.waits.waits ≡ [] }
    {
        Tables {
            tree: Tree::new(alloc),
            marks: Marks::new(alloc),
            estate: Estate::new(alloc, base),
            waits: Waits::new(alloc),
            looks: Looks::new(),
            hints: Hints::new(alloc),
        }
    }

    /// The table that the committed top-level transactions left.
    pub(crate) fn base(&self) -> &PlainTable
        ensures { result.now.rows ≡ rows_in self.now }
    {
        self.estate.versions().base()
    }

    /// That table alone.
    pub(crate) fn into_base(self) -> PlainTable
        ensures { result.rows ≡ rows_in self }
    {
        let Tables {
            tree,
            marks,
            estate,
            waits,
            looks,
            hints,
        } = self;
        drop((tree, marks, waits, looks, hints));
        estate.into_base()
    }

    /// The number of a transaction that has begun. The one that the line's session is likely to name
    /// is looked at first.
    pub(crate) fn number_near(&self, by: By, name: &Name) -> TxnNo
        requires { IsFalse (is_absent_in self.now.tree name.now) }
        ensures number { IsNumberOf self.now.tree name.now result }
        ensures rootless { IsRootless self.now.tree }
    {
        self.tree.no_by_hint(name, self.hints.of(by)).unwrap()
    }

    /// The number of the parent of a subtransaction with this number.
    pub(crate) fn parent_number(&self, _name: &Name, txn: TxnNo) -> TxnNo
        requires below { 1 < length _name.now }
        requires number { IsNumberOf self.now.tree _name.now txn }
        ensures { IsNumberOf self.now.tree (parent _name.now) result }
    {
        self.tree.has_distinct_names();
        self.tree.parent_of(txn).unwrap()
    }

    /// Makes room for the marks of so many aborts.
    #[inline(always)]
    pub(crate) fn reserve_aborts(&mut self, additional: usize) -> Result<(), NoMemory>
        ensures room { OnOk result (additional ≤ self.new.marks.room) }
        ensures same { HasOtherRoom self.old self.new }
        ensures waits { self.new.waits ≡ self.old.waits }
    {
        self.marks.reserve(additional)
    }
}
