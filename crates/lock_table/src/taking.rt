//! Places that are made and locked by one step.
ghost use Rattle.std.specs.Prelude.{IsOk, IsTrue, OnErr, OnOk};
ghost use Rattle.serial_spec.specs.declared.mode.Mode.TheVariants as mode;
ghost use Rattle.serial_spec.specs.declared.target.Target.TheVariants as target;
ghost use Rattle.serial_spec.specs.Locks.{mode_of};
ghost use Rattle.lock_table.specs.Targeted.{AddsMarkPlaces, AddsPlaces, HasMarkPlaces, HasModes, HasPlaces, MayHold, has_mark_place, has_place, held_at, modes_at, with_marks, with_place_at};

use crate::groups::{make_marks, mark_from};
use crate::targets::TargetLocks;
use serial_spec::{Kind, NoMemory};
use txn_names::{Group, Key};
use txn_tree::TxnNo;

impl TargetLocks {
    /// Makes the places that `reserve` makes, and locks the key for an access of the transaction's
    /// own, as `hold` does. Each other place stays. If memory runs out, the only error, no lock
    /// changes, the key has no new place, and some of its groups may have one.
    #[inline(always)]
    pub fn lock(&mut self, txn: TxnNo, key: &Key, kind: Kind) -> Result<(), NoMemory>
        ensures modes { OnOk result (HasModes self.new
            (held_at self.old txn (target.Key key.now) (mode_of kind))) }
        ensures ok { OnOk result (MayHold self.new txn key.now kind) }
        ensures kept { OnErr result (HasModes self.new (modes_at self.old)) }
        ensures err { OnErr result (HasPlaces self.new (has_place self.old)) }
        ensures places { AddsPlaces self.old self.new
            (with_place_at self.old txn (target.Key key.now)) }
        ensures marks { AddsMarkPlaces self.old self.new (with_marks self.old txn key.now kind) }
        ensures succeeds { MayHold self.old txn key.now kind → IsOk result }
    {
        match kind {
            Kind::Read => self.keys.lock(txn, key, Kind::Read),
            Kind::Write => {
                let unmarked = make_marks(&mut self.writers, txn, key)?;
                // Whoever is marked writes a key of the group, so that nobody is before its lock is
                // there.
                self.keys.lock(txn, key, Kind::Write)?;
                mark_from(&mut self.writers, txn, key, unmarked);
                Ok(())
            }
        }
    }

    /// Where the key stands that was remembered, reserved or locked last: a number by which others
    /// can keep what belongs to it. It is a hint, and nothing rests on it.
    #[inline(always)]
    pub fn key_hint(&self) -> usize {
        self.keys.hint()
    }

    /// Makes a place for the transaction and the group, if there is none, and locks the group for a
    /// sum of the transaction's own, as `reserve_group` and then `hold_group` do. Each other place
    /// stays. If memory runs out, the only error, no lock changes, and no place is made.
    pub fn lock_group(&mut self, txn: TxnNo, group: &Group) -> Result<(), NoMemory>
        ensures modes { OnOk result (HasModes self.new
            (held_at self.old txn (target.Group group.now) mode.Read)) }
        ensures ok { OnOk result (IsTrue (has_place self.new txn (target.Group group.now))) }
        ensures kept { OnErr result (HasModes self.new (modes_at self.old)) }
        ensures err { OnErr result (HasPlaces self.new (has_place self.old)) }
        ensures places { AddsPlaces self.old self.new
            (with_place_at self.old txn (target.Group group.now)) }
        ensures marks { HasMarkPlaces self.new (has_mark_place self.old) }
        ensures succeeds { IsTrue (has_place self.old txn (target.Group group.now)) → IsOk result }
    {
        self.sums.lock(txn, &group.as_key(), Kind::Read)
    }
}
