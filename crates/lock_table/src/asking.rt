//! Locks by what is asked: an operation at a key, or a sum over a group.
ghost use Rattle.std.specs.Prelude.{◌≡◌, ◌↔◌, IsOk, IsTrue, IfOk, OnErr, OnOk};
ghost use Rattle.serial_spec.specs.Locks.{mode_of};
ghost use Rattle.serial_spec.specs.Targets.{kind_of, target};
ghost use Rattle.lock_table.specs.ByAsked.{BlocksAsked, MayAsk, MayHoldAsked, with_marks_asked};
ghost use Rattle.lock_table.specs.Targeted.{AddsMarkPlaces, AddsPlaces, AreBlockers, HasMarkPlaces, HasModes, HasPlaces, has_mark_place, has_place, held_at, modes_at, with_place_at};

use crate::targets::TargetLocks;
use serial_spec::{Asked, NoMemory};
use txn_tree::{Tree, TxnNo};

impl TargetLocks {
    /// Whether nobody keeps the transaction from what it asks, as `may` and `may_group` tell it. It
    /// takes no memory.
    pub fn may_ask(&self, tree: &Tree, txn: TxnNo, asked: &Asked) -> bool
        ensures { IsTrue result ↔ MayAsk tree.now self.now txn asked.now }
    {
        match asked {
            Asked::At(key, op) => self.may(tree, txn, key, op.kind()),
            Asked::Over(group) => self.may_group(tree, txn, group),
        }
    }

    /// As `may_ask`. A key is looked up once and remembered, so that `reserve_asked` and
    /// `hold_asked` find its lock without another look-up. No lock and no place changes, and it
    /// takes no memory.
    #[inline(always)]
    pub fn may_ask_remembering(&mut self, tree: &Tree, txn: TxnNo, asked: &Asked) -> bool
        ensures may { IsTrue result ↔ MayAsk tree.now self.old txn asked.now }
        ensures same { self.new ≡ self.old }
    {
        match asked {
            Asked::At(key, op) => self.may_remembering(tree, txn, key, op.kind()),
            Asked::Over(group) => self.may_group(tree, txn, group),
        }
    }

    /// Whether the holder keeps the transaction from what it asks, as `blocks` and `blocks_group`
    /// tell it. It takes no memory.
    pub fn blocks_asked(&self, tree: &Tree, holder: TxnNo, txn: TxnNo, asked: &Asked) -> bool
        ensures { IsTrue result ↔ BlocksAsked tree.now self.now txn asked.now holder }
    {
        match asked {
            Asked::At(key, op) => self.blocks(tree, holder, txn, key, op.kind()),
            Asked::Over(group) => self.blocks_group(tree, holder, txn, group),
        }
    }

    /// Those that keep the transaction from what it asks, the first begun first, as `blockers` and
    /// `group_blockers` tell them. Where there is nobody it takes no memory. The only error is that
    /// memory runs out.
    pub fn asked_blockers(
        &self,
        tree: &Tree,
        txn: TxnNo,
        asked: &Asked,
    ) -> Result<Vec<TxnNo>, NoMemory>
        ensures found { IfOk result (λ found.
            AreBlockers tree.now self.now txn (target asked.now) (kind_of asked.now) found.items) }
        ensures succeeds { MayAsk tree.now self.now txn asked.now → IsOk result }
    {
        match asked {
            Asked::At(key, op) => self.blockers(tree, txn, key, op.kind()),
            Asked::Over(group) => self.group_blockers(tree, txn, group),
        }
    }

    /// Makes the places that the lock of what is asked needs, as `reserve` and `reserve_group` do.
    /// No lock changes, and each other place stays. If memory runs out, the only error, the target
    /// has no new place.
    pub fn reserve_asked(&mut self, txn: TxnNo, asked: &Asked) -> Result<(), NoMemory>
        ensures modes { HasModes self.new (modes_at self.old) }
        ensures ok { OnOk result (MayHoldAsked self.new txn asked.now) }
        ensures err { OnErr result (HasPlaces self.new (has_place self.old)) }
        ensures places { AddsPlaces self.old self.new
            (with_place_at self.old txn (target asked.now)) }
        ensures marks { AddsMarkPlaces self.old self.new (with_marks_asked self.old txn asked.now) }
        ensures succeeds { MayHoldAsked self.old txn asked.now → IsOk result }
    {
        match asked {
            Asked::At(key, op) => self.reserve(txn, key, op.kind()),
            Asked::Over(group) => self.reserve_group(txn, group),
        }
    }

    /// Locks the target of what is asked, as `hold` and `hold_group` do. It takes no memory.
    pub fn hold_asked(&mut self, txn: TxnNo, asked: &Asked)
        requires { MayHoldAsked self.old txn asked.now }
        ensures modes { HasModes self.new
            (held_at self.old txn (target asked.now) (mode_of (kind_of asked.now))) }
        ensures places { HasPlaces self.new (has_place self.old) }
        ensures marks { HasMarkPlaces self.new (has_mark_place self.old) }
    {
        match asked {
            Asked::At(key, op) => self.hold(txn, key, op.kind()),
            Asked::Over(group) => self.hold_group(txn, group),
        }
    }

    /// Makes the places that the lock of what is asked needs, and locks its target, as `lock` and
    /// `lock_group` do. If memory runs out, the only error, no lock changes, and the target has no
    /// new place.
    #[inline(always)]
    pub fn lock_asked(&mut self, txn: TxnNo, asked: &Asked) -> Result<(), NoMemory>
        ensures modes { OnOk result (HasModes self.new
            (held_at self.old txn (target asked.now) (mode_of (kind_of asked.now)))) }
        ensures ok { OnOk result (MayHoldAsked self.new txn asked.now) }
        ensures kept { OnErr result (HasModes self.new (modes_at self.old)) }
        ensures err { OnErr result (HasPlaces self.new (has_place self.old)) }
        ensures places { AddsPlaces self.old self.new
            (with_place_at self.old txn (target asked.now)) }
        ensures marks { AddsMarkPlaces self.old self.new (with_marks_asked self.old txn asked.now) }
        ensures succeeds { MayHoldAsked self.old txn asked.now → IsOk result }
    {
        match asked {
            Asked::At(key, op) => self.lock(txn, key, op.kind()),
            Asked::Over(group) => self.lock_group(txn, group),
        }
    }
}
