//! The steps that touch locks and versions.
ghost use Rattle.std.specs.Prelude.{◌≡◌, ◌≤◌, ℕ, List, length, None, Some, IsOk, OnOk};
ghost use Rattle.txn_tree.specs.Asked.{IsNumberOf};
ghost use Rattle.serial_spec.specs.Changes.{AreRising, overlay};
ghost use Rattle.serial_spec.specs.declared.operation.Kind.TheVariants.{Read};
ghost use Rattle.serial_spec.specs.declared.target.Target.{Target};
ghost use Rattle.serial_spec.specs.Targets.{kind_of};
ghost use Rattle.inherit.specs.LocksAndVersions.{IsRead, IsReady, IsReadyToAsk, IsSame, MayGoUp, base_of, free, left_of, modes_of};
ghost use Rattle.inherit.specs.Steps.{HasDropped, HasGoneUp};
ghost use Rattle.version_stack.specs.Versioned.{base_after};

use crate::hints::Hints;
use lock_table::TargetLocks;
use serial_spec::{Asked, Event, NoMemory, PlainTable};
use std::alloc::Global;
use std::marker::Model;
use txn_names::{Change, Name};
use txn_tree::{Tree, TxnNo};
use version_stack::Versions;

/// What live transactions lock and what they left, over one table. Each step changes both
/// atomically, and takes no memory after `reserve_for` of its event.
#[derive(Drop)]
pub struct Estate {
    pub(crate) alloc: Global,
    pub(crate) locks: TargetLocks,
    pub(crate) versions: Versions,
    // Where the versions of a key stand, by where its locks stand.
    pub(crate) hints: Hints,
}

impl Model for Estate {
    ghost use Rattle.inherit.specs.LocksAndVersions.{LocksAndVersions};

    ghost Value = { LocksAndVersions };

    ghost view = { λ e. record {
      locks = e.locks;
      versions = e.versions;
    } };
}

impl Estate {
    /// No locks and no versions over this table. It takes no memory yet.
    pub fn new(alloc: Global, base: PlainTable) -> Self
        ensures modes { (u : ℕ) → (s : Target) → modes_of result u s ≡ free }
        ensures left { (u : ℕ) → (q : List ℕ) → left_of result u q ≡ None }
        ensures base { result.versions.base ≡ base }
    {
        Estate {
            alloc,
            locks: TargetLocks::new(alloc),
            versions: Versions::new(alloc, base),
            hints: Hints::new(alloc),
        }
    }

    /// The locks.
    pub fn locks(&self) -> &TargetLocks
        ensures { result.now ≡ self.now.locks }
    {
        &self.locks
    }

    /// The versions, and the table below them.
    pub fn versions(&self) -> &Versions
        ensures { result.now ≡ self.now.versions }
    {
        &self.versions
    }

    /// The table alone.
    pub fn into_base(self) -> PlainTable
        ensures { result ≡ self.versions.base }
    {
        let Estate { versions, .. } = self;
        versions.into_base()
    }

    // Makes room for what the child hands to a parent that has begun.
    fn reserve_for_parent(&mut self, child: TxnNo, parent: TxnNo) -> Result<(), NoMemory>
        ensures succeeds { MayGoUp self.old child (Some parent) → IsOk result }
        ensures ok { OnOk result (MayGoUp self.new child (Some parent)) }
        ensures same { IsSame self.old self.new }
        ensures room { self.old.versions.base.room ≤ self.new.versions.base.room }
    {
        self.locks.reserve_for_parent(child, parent)?;
        self.versions.reserve_for_parent(child, parent)
    }

    /// Makes all growths of a commit beforehand, as `reserve_for` of its event does: from the
    /// transaction's number to its parent's, or into the table where it has none. Where there is
    /// room for all of it already it takes no memory. What is locked, left and seen stays, and no
    /// room of the table's goes. The only error is that memory runs out.
    pub fn reserve_hand_up(&mut self, child: TxnNo, parent: Option<TxnNo>) -> Result<(), NoMemory>
        ensures succeeds { MayGoUp self.old child parent → IsOk result }
        ensures ok { OnOk result (MayGoUp self.new child parent) }
        ensures same { IsSame self.old self.new }
        ensures room { self.old.versions.base.room ≤ self.new.versions.base.room }
    {
        match parent {
            Some(parent) => self.reserve_for_parent(child, parent),
            None => self.versions.reserve_for_base(child),
        }
    }

    /// Makes room for so many changes of the table, which `commit_changes` then makes without
    /// memory. What is locked, left and seen stays, and no room of the table's goes. Where the table
    /// has the room already it takes no memory. The only error is that memory runs out.
    pub fn reserve_changes(&mut self, changes: usize) -> Result<(), NoMemory>
        ensures ok { OnOk result (changes ≤ self.new.versions.base.room) }
        ensures succeeds { changes ≤ self.old.versions.base.room → IsOk result }
        ensures same { IsSame self.old self.new }
        ensures room { self.old.versions.base.room ≤ self.new.versions.base.room }
    {
        self.versions.reserve_changes(changes)
    }

    // Makes room for what a commit hands up.
    fn reserve_commit(&mut self, tree: &Tree, child: TxnNo, name: &Name) -> Result<(), NoMemory>
        requires { IsNumberOf tree.now name.now child }
        ensures succeeds { IsReady tree.now self.old (Event.Commit name.now) → IsOk result }
        ensures ok { OnOk result (IsReady tree.now self.new (Event.Commit name.now)) }
        ensures same { IsSame self.old self.new }
        ensures room { self.old.versions.base.room ≤ self.new.versions.base.room }
    {
        match name.parent() {
            Some(parent) => match tree.no_of(&parent) {
                Some(parent) => self.reserve_for_parent(child, parent),
                None => Ok(()),
            },
            None => self.versions.reserve_for_base(child),
        }
    }

    // Makes room for what a transaction asks, if it has begun.
    fn reserve_step(&mut self, tree: &Tree, name: &Name, asked: &Asked) -> Result<(), NoMemory>
        ensures succeeds { IsReadyToAsk tree.now self.old name.now asked.now → IsOk result }
        ensures ok { OnOk result (IsReadyToAsk tree.now self.new name.now asked.now) }
        ensures same { IsSame self.old self.new }
        ensures room { self.old.versions.base.room ≤ self.new.versions.base.room }
        ensures read { kind_of asked.now ≡ Read → self.new.versions ≡ self.old.versions }
    {
        match tree.no_of(name) {
            Some(txn) => self.reserve_asked(txn, asked),
            None => Ok(()),
        }
    }

    /// Makes all growths of the event's step beforehand: an access's, a sum's or a commit's. What
    /// is locked, left and seen stays, and no room of the table's goes. For a read or a sum no room
    /// is made among the versions.
    /// Where the step has its room already it takes no memory. The only error is that memory runs
    /// out.
    pub fn reserve_for(&mut self, tree: &Tree, event: &Event) -> Result<(), NoMemory>
        ensures ok { OnOk result (IsReady tree.now self.new event.now) }
        ensures same { IsSame self.old self.new }
        ensures room { self.old.versions.base.room ≤ self.new.versions.base.room }
        ensures succeeds { IsReady tree.now self.old event.now → IsOk result }
        ensures read { IsRead event.now → self.new.versions ≡ self.old.versions }
    {
        match event {
            Event::Access(name, key, op) => self.reserve_step(tree, name, &Asked::At(*key, *op)),
            Event::Sum(name, group) => self.reserve_step(tree, name, &Asked::Over(*group)),
            Event::Commit(name) => match tree.no_of(name) {
                Some(child) => self.reserve_commit(tree, child, name),
                None => Ok(()),
            },
            _ => Ok(()),
        }
    }

    /// Hands up what a committed child has: its parent retains its locks, and has what it left. It
    /// takes no memory.
    pub fn commit_child(&mut self, child: TxnNo, parent: TxnNo)
        requires room { MayGoUp self.old child (Some parent) }
        ensures { HasGoneUp self.old self.new child (Some parent) }
    {
        self.locks.hand_up(child, Some(parent));
        self.versions.hand_up(child, Some(parent));
    }

    /// Lets the locks of a committed top-level transaction go, and puts what it left into the
    /// table. It takes no memory.
    pub fn commit_top(&mut self, txn: TxnNo)
        requires room { MayGoUp self.old txn None }
        ensures { HasGoneUp self.old self.new txn None }
    {
        self.locks.hand_up(txn, None);
        self.versions.hand_up(txn, None);
    }

    /// Does what `commit_top` does, by the changes that come to what the transaction left, as
    /// `changes` tells them: they are made in the table in one pass, and not key by key. It takes
    /// no memory.
    pub fn commit_changes(&mut self, txn: TxnNo, changes: &[Change])
        requires rising { AreRising changes.now }
        requires room { length changes.now ≤ self.old.versions.base.room }
        requires due { (q : List ℕ) → base_after self.old.versions txn None q
            ≡ overlay changes.now (base_of self.old) q }
        ensures { HasGoneUp self.old self.new txn None }
    {
        self.locks.hand_up(txn, None);
        self.versions.hand_up_changes(txn, changes);
    }

    /// Drops what the transaction and all below it have. It takes no memory.
    pub fn abort(&mut self, tree: &Tree, txn: TxnNo)
        ensures { HasDropped tree.now self.old self.new txn }
    {
        self.locks.drop_under(tree, txn);
        self.versions.drop_under(tree, txn);
    }
}
