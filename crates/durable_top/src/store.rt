//! Where the results of top-level transactions are kept.
ghost use Rattle.std.specs.Prelude.{◌≡◌, ℕ, ◌≤◌, ◌↔◌, List, Result, IsErrOf, IfOk, OnOk, IfErr, is_err};
ghost use Rattle.serial_spec.specs.Changes.{AreRising, overlay};
ghost use Rattle.serial_spec.specs.Rows.{IsRising, value_in};
ghost use Rattle.serial_spec.specs.Serial.{Map};
ghost use Rattle.durable_top.specs.Store.{plain, told, faults_after, IsNotFailed, LeavesAlone, LeavesNoMore, LeavesNoneBut, TellsFailure};
ghost use Rattle.durable_top.specs.Numbered.{Numbered, values_of, Commits, entries_in, AreNumbered};

use std::alloc::Global;
use std::marker::Model;
use txn_names::{Change, Key};

/// A row of the table.
#[derive(Clone, Copy, Debug, PartialEq, Eq)]
pub struct Row {
    pub key: Key,
    pub value: i64,
    /// Which commit set it: the first is number 1, and 0 stands for those before. It is at least 0.
    pub commit: i64,
}

/// Why a store did not do what it was asked.
#[derive(Clone, Copy, Debug, PartialEq, Eq)]
pub enum StoreFault {
    /// Memory ran out.
    Memory,
    /// It would not; it may another time.
    Refused,
    /// The device failed, in this call or an earlier one.
    Failed,
}

/// A store of one table.
///
/// `loads` and `commits` say which call was made: in which state of the store, with which changes,
/// what it answered and in which state it was left. Each store defines them for itself. A caller
/// that is generic over the store knows nothing of them, and so it can only have them from one call
/// of the method. By them it can promise that it asked once, in the state that it names, and that
/// the fault which it tells is the one that it was answered.
pub trait TopStore: Drop {
    ghost use Rattle.std.specs.Prelude.{ℕ, List, Result};
    ghost use Rattle.serial_spec.specs.Serial.{Map};
    ghost use Rattle.durable_top.specs.Numbered.{Numbered};
    ghost use Rattle.txn_names.specs.declared.change.Change.{Change};
    ghost use Rattle.durable_top.specs.declared.store.Row.{Row};
    ghost use Rattle.durable_top.specs.declared.store.StoreFault.{StoreFault};

    /// The value that each key has.
    ghost table: { Self → Map };

    /// What each key has: its value, and the number of the commit that set it.
    ghost numbered: { Self → Numbered };

    /// 0 as long as what is read is what was written. Nothing is said of the table from then on.
    ghost doubt: { Self → ℕ };

    /// 0, and 1 once the device has failed.
    ghost failures: { Self → ℕ };

    /// How many commits were answered a fault. At its greatest value it stands still.
    ghost faults: { Self → ℕ };

    /// The tables that a crash at this moment may leave.
    ghost may_leave: { Self → Map → Type 0 };

    /// The same tables with their numbers.
    ghost may_leave_numbered: { Self → Numbered → Type 0 };

    /// Asked in the first state to load, it gave this answer and was left in the second state.
    ghost loads: { Self → Self → Result (List Row) StoreFault → Type 0 };

    /// Asked in the first state to make these changes, it gave this answer and was left in the
    /// second state.
    ghost commits: { Self → Self → List Change → Result (Unit {0}) StoreFault → Type 0 };

    /// The rows with their numbers, in byte order of their keys. After a fault other than Failed
    /// the table is as before. A crash leaves nothing that it could not leave before.
    fn load(&mut self, alloc: Global) -> Result<Vec<Row>, StoreFault>
        ensures rows { doubt self.new ≡ 0 →
            IfOk result (λ rows. value_in (plain rows.items) ≡ table self.old) }
        ensures numbers { doubt self.new ≡ 0
            → IfOk result (λ rows. entries_in rows.items ≡ numbered self.old) }
        ensures least { IfOk result (λ rows. AreNumbered rows.items) }
        ensures rising { IfOk result (λ rows. IsRising (plain rows.items)) }
        ensures kept { doubt self.new ≡ 0 → (IsErrOf result StoreFault.Failed → ⊥) →
            table self.new ≡ table self.old }
        ensures kept_numbers { doubt self.new ≡ 0 → (IsErrOf result StoreFault.Failed → ⊥)
            → numbered self.new ≡ numbered self.old }
        ensures values { values_of (numbered self.new) ≡ table self.new }
        ensures leaves_values { (left : Numbered) → may_leave_numbered self.new left
            → may_leave self.new (values_of left) }
        ensures failures { TellsFailure (failures self.old) (failures self.new)
            (IsErrOf result StoreFault.Failed) }
        ensures faults { faults self.new ≡ faults self.old }
        ensures doubt { doubt self.old ≤ doubt self.new }
        ensures crash { doubt self.new ≡ 0 → LeavesNoMore may_leave self.old self.new }
        ensures crash_numbers { doubt self.new ≡ 0
            → LeavesNoMore may_leave_numbered self.old self.new }
        ensures asked { loads self.old self.new (told result) };

    /// Makes the changes in the table, which stand in byte order of their keys, one for each. The
    /// number of the commit is 1 more than the greatest in the table before it, which is 0 where
    /// there are no rows. Each change with a value sets its row under that number, also where the
    /// value is the old one. Where that number is more than an i64 holds the answer is a fault,
    /// which is Refused unless another came first. No changes change nothing. After a fault other
    /// than Failed the table is as before. A crash leaves all of the changes or none: once the
    /// answer is `Ok` all of them, and none where the device had failed before.
    fn commit(&mut self, changes: &[Change]) -> Result<(), StoreFault>
        requires rising { AreRising changes.now }
        ensures ok { doubt self.new ≡ 0 →
            OnOk result (table self.new ≡ overlay changes.now (table self.old)) }
        ensures numbers { doubt self.new ≡ 0
            → OnOk result (Commits changes.now (numbered self.old) (numbered self.new)) }
        ensures refused { doubt self.new ≡ 0
            → IfErr result (λ fault. IsNotFailed fault → table self.new ≡ table self.old) }
        ensures kept_numbers { doubt self.new ≡ 0
            → IfErr result (λ fault.
            IsNotFailed fault → numbered self.new ≡ numbered self.old) }
        ensures values { values_of (numbered self.new) ≡ table self.new }
        ensures leaves_values { (left : Numbered) → may_leave_numbered self.new left
            → may_leave self.new (values_of left) }
        ensures failures { TellsFailure (failures self.old) (failures self.new)
            (IsErrOf result StoreFault.Failed) }
        ensures faults { faults self.new ≡ faults_after (is_err result) (faults self.old) }
        ensures doubt { doubt self.old ≤ doubt self.new }
        ensures crash { doubt self.new ≡ 0 → LeavesNoneBut may_leave self.old self.new
            (λ left. left ≡ overlay changes.now (table self.old)) }
        ensures crash_numbers { doubt self.new ≡ 0 → LeavesNoneBut may_leave_numbered
            self.old self.new (Commits changes.now (numbered self.old)) }
        ensures settled { doubt self.new ≡ 0 → OnOk result
            (LeavesAlone may_leave self.new (overlay changes.now (table self.old))) }
        ensures settled_numbers { doubt self.new ≡ 0
            → OnOk result (LeavesAlone may_leave_numbered self.new (numbered self.new)) }
        ensures shut { doubt self.new ≡ 0 → failures self.old ≡ 1
            → LeavesNoMore may_leave self.old self.new }
        ensures shut_numbers { doubt self.new ≡ 0 → failures self.old ≡ 1
            → LeavesNoMore may_leave_numbered self.old self.new }
        ensures asked { commits self.old self.new changes.now result };

    /// 0, and 1 once the device has failed in a call.
    fn failures(&self) -> u64
        ensures { result ≡ failures self.now };

    /// How many commits were answered a fault. At its greatest value it stands still.
    fn faults(&self) -> u64
        ensures { result ≡ faults self.now };
}
