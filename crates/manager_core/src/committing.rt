//! A commit, in the tables: all growths first, then what takes no memory.
ghost use Rattle.std.specs.Prelude.{◌≡◌, ◌≤◌, ℕ, IfOk, List, None, OnOk, Some, length, slice_get, true};
ghost use Rattle.txn_names.specs.Path.{Path};
ghost use Rattle.txn_tree.specs.Numbered.{is_active_at, live_children_at};
ghost use Rattle.txn_tree.specs.States.{names};
ghost use Rattle.inherit.specs.LocksAndVersions.{MayGoUp, base_of};
ghost use Rattle.inherit.specs.Changes.{AreChangesOf};
ghost use Rattle.serial_spec.specs.Changes.{AreRising, overlay};
ghost use Rattle.version_stack.specs.Versioned.{base_after};
ghost use Rattle.manager_core.specs.Tables.{CommitsIn, HasOtherRoom};

use crate::tables::Tables;
use serial_spec::NoMemory;
use txn_names::Change;
use txn_tree::TxnNo;

impl Tables {
    /// What the transaction would put into the table.
    pub(crate) fn changes(&self, txn: TxnNo) -> Result<Vec<Change>, NoMemory>
        ensures { IfOk result (λ changes.
            AreChangesOf self.now.tree self.now.estate txn changes.items) }
    {
        self.estate.changes(&self.tree, txn)
    }

    /// Makes room for what goes up at the commit of a subtransaction, from its number to its
    /// parent's.
    pub(crate) fn reserve_commit(&mut self, child: TxnNo, parent: TxnNo) -> Result<(), NoMemory>
        ensures room { OnOk result (MayGoUp self.new.estate child (Some parent)) }
        ensures same { HasOtherRoom self.old self.new }
    {
        self.estate.reserve_hand_up(child, Some(parent))
    }

    /// Makes room for so many changes of the table.
    pub(crate) fn reserve_changes(&mut self, changes: usize) -> Result<(), NoMemory>
        ensures room { OnOk result (changes ≤ self.new.estate.versions.base.room) }
        ensures same { HasOtherRoom self.old self.new }
    {
        self.estate.reserve_changes(changes)
    }

    /// Commits a subtransaction that nothing refuses, and hands up what it has, for which there is
    /// room. It takes no memory.
    pub(crate) fn commit_child(&mut self, child: TxnNo, parent: TxnNo)
        requires active { is_active_at self.old.tree child ≡ true }
        requires children { live_children_at self.old.tree child ≡ 0 }
        requires room { MayGoUp self.old.estate child (Some parent) }
        ensures { (t : Path) → slice_get (names self.old.tree) child ≡ Some t
            → CommitsIn self.old self.new t child (Some parent) }
    {
        self.looks
            .forget_under(&self.tree, child, self.waits.is_empty());
        self.tree.commit_at(child);
        self.estate.commit_child(child, parent);
    }

    /// Commits a top-level transaction that nothing refuses, and makes these changes in the table,
    /// for which there is room. They come to what it left, put into the table. It takes no memory.
    pub(crate) fn commit_top(&mut self, txn: TxnNo, changes: &[Change])
        requires active { is_active_at self.old.tree txn ≡ true }
        requires children { live_children_at self.old.tree txn ≡ 0 }
        requires rising { AreRising changes.now }
        requires room { length changes.now ≤ self.old.estate.versions.base.room }
        requires due { (q : List ℕ) → base_after self.old.estate.versions txn None q
            ≡ overlay changes.now (base_of self.old.estate) q }
        ensures { (t : Path) → slice_get (names self.old.tree) txn ≡ Some t
            → CommitsIn self.old self.new t txn None }
    {
        self.looks
            .forget_under(&self.tree, txn, self.waits.is_empty());
        self.tree.commit_at(txn);
        self.estate.commit_changes(txn, changes);
    }
}
