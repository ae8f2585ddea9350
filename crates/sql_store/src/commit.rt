//! A commit under the number above the greatest.
ghost use Rattle.std.specs.Prelude.{true, false, ◌≡◌, ◌<◌, ◌≤ℤ◌, ◌+ℤ◌, pos, length, OnOk, IsTrue, IsErrOf};
ghost use Rattle.serial_spec.specs.Changes.{AreRising};
ghost use Rattle.durable_top.specs.Numbered.{last_number, Follows};
ghost use Rattle.sql_store.specs.inner.Commit.{TriesCommit, TriesCommitNext};
ghost use Rattle.sql_store.specs.Stored.{IsKept, IfKept, KeepsTable, LeavesItself, LeavesNoOther};
ghost use Rattle.sql_store.specs.Faults.{HasFailed};
ghost use Rattle.sql_store.specs.Refusals.{CannotWrite, CannotCommit};
ghost use Rattle.sql_store.specs.Calls.{CommitsNothing, FailedHasCause, IfClean, IfRefused, KeepsDoubt, KeepsLimit, KeepsOpen, OnlyReads, SparesAtFault, UnlessFailed};

use crate::faults::{fault_of, settle};
use crate::statements::probe;
use crate::writes::store_changes;
use durable_top::{NumberTable, StoreFault, next_number};
use sqlite::{Alter, Connection};
use txn_names::Change;

// Commits nothing.
fn commit_none<S: Alter>(conn: &mut Connection<S>) -> Result<(), StoreFault>
    ensures same { IfClean S.Store conn.new
        (UnlessFailed result (KeepsTable S.Store conn.old conn.new)) }
    ensures still { IsKept S.Store true conn.old → IsKept S.Store true conn.new }
    ensures clean { KeepsDoubt S.Store conn.old conn.new }
    ensures crash { IfClean S.Store conn.new (LeavesNoOther S.Store conn.old conn.new) }
    ensures settled { IfKept S.Store conn.old conn.new
        (OnOk result (LeavesItself S.Store conn.new)) }
    ensures held { IfClean S.Store conn.new (CommitsNothing S.Store conn.old conn.new) }
    ensures spared { SparesAtFault S.Store conn.old conn.new result }
    ensures open { KeepsOpen S.Store conn.old conn.new result }
    ensures limit { KeepsLimit S.Store conn.old conn.new }
    ensures cause { FailedHasCause S.Store conn.old conn.new result }
    ensures unrefused { IfRefused S.Store conn.new result ⊥ }
    ensures asked { OnlyReads S.Store conn.old conn.new result }
{
    match probe(conn) {
        Ok(()) => Ok(()),
        Err(error) => Err(settle(conn, fault_of(error))),
    }
}

// Commits the changes, of which there are some, under the number above the greatest, and keeps
// their numbers.
fn commit_under<S: Alter>(
    conn: &mut Connection<S>,
    numbers: &mut NumberTable,
    number: i64,
    changes: &[Change],
) -> Result<(), StoreFault>
    requires some { 0 < length changes.now }
    requires rising { AreRising changes.now }
    requires next { number ≡ numbers.old.top +ℤ pos 1 }
    requires fits { number ≤ℤ last_number }
    ensures tried { TriesCommit S.Store (Follows changes.now) (number) changes.now
        numbers.old numbers.new conn.old conn.new result }
    ensures cause { FailedHasCause S.Store conn.old conn.new result }
    ensures reason { IfRefused S.Store conn.new result
        (CannotWrite S.Store number changes.now conn.old conn.new) }
{
    numbers.has_none_below_0();
    if numbers.reserve(changes.len()).is_err() {
        return Err(StoreFault::Memory);
    }
    match store_changes(conn, numbers, number, changes) {
        Ok(()) => {
            numbers.change(number, changes);
            Ok(())
        }
        Err(fault) => Err(fault),
    }
}

// Commits the changes under the number above the greatest. Where there is none they are refused.
fn commit_counted<S: Alter>(
    conn: &mut Connection<S>,
    numbers: &mut NumberTable,
    changes: &[Change],
) -> Result<(), StoreFault>
    requires rising { AreRising changes.now }
    ensures tried { TriesCommitNext S.Store changes.now numbers.old numbers.new conn.old conn.new
        result }
    ensures cause { FailedHasCause S.Store conn.old conn.new result }
    ensures reason { IfRefused S.Store conn.new result
        (CannotCommit S.Store numbers.old.top changes.now conn.old conn.new) }
{
    if changes.is_empty() {
        return commit_none(conn);
    }
    match next_number(numbers.top()) {
        Some(number) => commit_under(conn, numbers, number, changes),
        None => Err(StoreFault::Refused),
    }
}

/// Makes the changes in one transaction, under the next number. A store that has failed is not
/// asked.
pub(crate) fn commit_unless<S: Alter>(
    has_failed: bool,
    conn: &mut Connection<S>,
    numbers: &mut NumberTable,
    changes: &[Change],
) -> Result<(), StoreFault>
    requires rising { AreRising changes.now }
    ensures failed { IsTrue has_failed → IsErrOf result StoreFault.Failed × (conn.new ≡ conn.old) }
    ensures tried { TriesCommitNext S.Store changes.now numbers.old numbers.new conn.old conn.new
        result }
    ensures cause { IfClean S.Store conn.new
        (has_failed ≡ false → IsErrOf result StoreFault.Failed
        → HasFailed S.Store conn.old conn.new) }
    ensures reason { IfRefused S.Store conn.new result
        (CannotCommit S.Store numbers.old.top changes.now conn.old conn.new) }
{
    if has_failed {
        return Err(StoreFault::Failed);
    }
    commit_counted(conn, numbers, changes)
}
