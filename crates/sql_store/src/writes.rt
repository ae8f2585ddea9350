//! Changes of the table in one transaction.
ghost use Rattle.std.specs.Prelude.{◌≡◌, ◌<◌, ◌≤◌, length, min, take, true, Some, None, is_some, OnOk, OnErr, IfErr, IsTrue, IsErrOf};
ghost use Rattle.std.specs.List.{prefix_len};
ghost use Rattle.serial_spec.specs.Rows.{value_in};
ghost use Rattle.sqlite.specs.Held.{state};
ghost use Rattle.durable_top.specs.Numbered.{under};
ghost use Rattle.sql_store.specs.inner.Writes.{StoresChanges, SurvivesChanges, MakesReady};
ghost use Rattle.sql_store.specs.Faults.{fault_of};
ghost use Rattle.sql_store.specs.Asked.{is_new, have_values, AreRows, IsPiece, IsPieceLen, ChangeGives, Transacted, Committed, begun, RunsAll, RunsChange, RunsEach, RunsPiece, RunsRows, TriesChange, WriteGives};
ghost use Rattle.sql_store.specs.Refusals.{CannotWrite};
ghost use Rattle.sql_store.specs.Calls.{CommitsNothing, ErrorHasCause, FailedHasCause, IfClean, IfRefused, IsInside, SeesCommitted, SparesAtFault, SparesDatabase, StaysOpen, IfErrorRefuses, IsOutside, MakesEntry, TriesInside};

use crate::faults::{breaks_rule, fault_of, settle};
use crate::puts::put_either;
use crate::rows::insert_rows;
use crate::statements::remove;
use durable_top::{NumberTable, Row, StoreFault};
use sqlite::{Alter, Connection, Error, ErrorCode, Transaction};
use txn_names::Change;

/// Whether the change gives a value to a key that is likely to have no row.
fn is_new(numbers: &NumberTable, change: &Change) -> bool
    ensures { result ≡ is_new (value_in numbers.now.rows) change.now }
{
    change.value.is_some() && numbers.number(&change.key).is_none()
}

/// How many changes from the first on are such, up to 16, or 0 where there are not 4 changes. Those
/// that are left of the ones counted before are not counted again.
fn new_len(numbers: &NumberTable, changes: &[Change], counted: usize) -> usize
    requires within { counted ≤ length changes.now }
    requires values { IsTrue (have_values (take counted changes.now)) }
    ensures counted { 0 < counted → result ≡ counted }
    ensures few { length changes.now < 4 → result ≡ counted }
    ensures fresh { counted ≡ 0 → 4 ≤ length changes.now
        → result ≡ min 16 (prefix_len (is_new (value_in numbers.now.rows)) changes.now) }
    ensures within { result ≤ length changes.now }
    ensures values { IsTrue (have_values (take result changes.now)) }
{
    if counted > 0 || changes.len() < 4 {
        return counted;
    }
    let mut count = 0;
    while count < 16 && count < changes.len() {
        if !is_new(numbers, &changes[count]) {
            return count;
        }
        count += 1;
    }
    count
}

/// How many changes go together where so many are likely new: 16 or 4, or else one.
fn piece_len(fresh: usize) -> usize
    ensures { IsPieceLen fresh result }
{
    if fresh >= 16 {
        16
    } else if fresh >= 4 {
        4
    } else {
        1
    }
}

/// Gives the key the value of the change under this number, or takes its row away. The numbers say
/// whether the key is likely to have a row.
fn make<S: Alter>(
    tx: &mut Transaction<'_, S>,
    numbers: &NumberTable,
    number: i64,
    change: &Change,
) -> Result<(), Error>
    ensures same_reference { tx.new.conn.ghost_name ≡ tx.old.conn.ghost_name }
    ensures made { MakesEntry S.Store change.now.key (under number change.now.value)
        tx.old.conn.now tx.new.conn.now result }
    ensures answers { RunsChange S.Store number change.now.key change.now.value
        tx.old.conn.now tx.new.conn.now result }
    ensures first { TriesInside S.Store
        (TriesChange S.Store (value_in numbers.now.rows) number change.now)
        tx.old.conn.now tx.new.conn.now }
{
    match change.value {
        Some(value) => put_either(
            tx,
            numbers.number(&change.key).is_some(),
            &Row {
                key: change.key,
                value,
                commit: number,
            },
        ),
        None => remove(tx, &change.key),
    }
}

/// Makes the changes one after another, each by statements of its own.
fn make_each<S: Alter>(
    tx: &mut Transaction<'_, S>,
    numbers: &NumberTable,
    number: i64,
    changes: &[Change],
) -> Result<(), Error>
    ensures same_reference { tx.new.conn.ghost_name ≡ tx.old.conn.ghost_name }
    ensures answers { RunsEach S.Store number changes.now tx.old.conn.now tx.new.conn.now result }
{
    for change in changes {
        make(tx, numbers, number, change)?;
    }
    Ok(())
}

/// Makes 4 or 16 changes whose keys are likely to be new, by one statement. Where that would break
/// a rule, since a key has a row after all, it changed nothing, and each change is made by itself.
fn make_rows<S: Alter>(
    tx: &mut Transaction<'_, S>,
    numbers: &NumberTable,
    number: i64,
    rows: &[Change],
) -> Result<(), Error>
    requires rows { AreRows rows.now }
    ensures same_reference { tx.new.conn.ghost_name ≡ tx.old.conn.ghost_name }
    ensures answers { RunsRows S.Store number rows.now tx.old.conn.now tx.new.conn.now result }
{
    match insert_rows(tx, number, rows) {
        Ok(_) => Ok(()),
        Err(error) => {
            if breaks_rule(error) {
                make_each(tx, numbers, number, rows)
            } else {
                Err(error)
            }
        }
    }
}

/// Makes one change, or several by one statement.
fn make_piece<S: Alter>(
    tx: &mut Transaction<'_, S>,
    numbers: &NumberTable,
    number: i64,
    piece: &[Change],
) -> Result<(), Error>
    requires piece { IsPiece piece.now }
    ensures same_reference { tx.new.conn.ghost_name ≡ tx.old.conn.ghost_name }
    ensures answers { RunsPiece S.Store number piece.now tx.old.conn.now tx.new.conn.now result }
{
    if piece.len() == 1 {
        make_each(tx, numbers, number, piece)
    } else {
        make_rows(tx, numbers, number, piece)
    }
}

/// Makes the changes in their order, as many by one statement as can be.
fn make_all<S: Alter>(
    tx: &mut Transaction<'_, S>,
    numbers: &NumberTable,
    number: i64,
    changes: &[Change],
) -> Result<(), Error>
    requires inside { IsInside S.Store tx.old.conn.now }
    ensures same_reference { tx.new.conn.ghost_name ≡ tx.old.conn.ghost_name }
    ensures made { IfClean S.Store tx.new.conn.now
        (MakesReady S.Store number changes.now tx.old.conn.now tx.new.conn.now result) }
    ensures opened { IfClean S.Store tx.new.conn.now
        (OnOk result (0 < length changes.now → IsTrue (state S.Store tx.old.conn.now).is_open)) }
    ensures inside { IfClean S.Store tx.new.conn.now
        (OnOk result (IsInside S.Store tx.new.conn.now)) }
    ensures answers { RunsAll S.Store number changes.now tx.old.conn.now tx.new.conn.now result }
{
    let mut place = 0;
    let mut fresh = 0;
    while place < changes.len() {
        fresh = new_len(numbers, &changes[place..], fresh);
        let count = piece_len(fresh);
        make_piece(tx, numbers, number, &changes[place..place + count])?;
        place += count;
        fresh = fresh.saturating_sub(count);
    }
    Ok(())
}

/// Commits the changes, of which there are some, in one transaction.
fn commit_some<S: Alter>(
    conn: &mut Connection<S>,
    numbers: &NumberTable,
    number: i64,
    changes: &[Change],
) -> Result<(), Error>
    requires outside { IsOutside S.Store conn.old }
    requires settled { SeesCommitted S.Store conn.old }
    requires some { 0 < length changes.now }
    ensures stored { IfClean S.Store conn.new
        (OnOk result (StoresChanges S.Store number changes.now conn.old conn.new)) }
    ensures kept { IfClean S.Store conn.new
        (OnErr result (CommitsNothing S.Store conn.old conn.new)) }
    ensures survives { SurvivesChanges S.Store number changes.now conn.old conn.new }
    ensures spared { IfClean S.Store conn.new
        (OnErr result (SparesDatabase S.Store conn.old conn.new)) }
    ensures cause { ErrorHasCause S.Store conn.old conn.new result }
    ensures refused { IfErrorRefuses S.Store conn.new result
        (ChangeGives S.Store number changes.now (begun conn.old)) }
    ensures asked { IfClean S.Store conn.new
        (OnOk result (Transacted S.Store number changes.now conn.old conn.new)) }
{
    let mut tx = conn.transaction();
    make_all(&mut tx, numbers, number, changes)?;
    tx.commit()
}

/// Commits the changes, of which there are some, in one transaction, where none is open.
pub(crate) fn write_all<S: Alter>(
    conn: &mut Connection<S>,
    numbers: &NumberTable,
    number: i64,
    changes: &[Change],
) -> Result<(), Error>
    requires some { 0 < length changes.now }
    ensures stored { IfClean S.Store conn.new
        (OnOk result (StoresChanges S.Store number changes.now conn.old conn.new)) }
    ensures kept { IfClean S.Store conn.new
        (OnErr result (CommitsNothing S.Store conn.old conn.new)) }
    ensures survives { SurvivesChanges S.Store number changes.now conn.old conn.new }
    ensures spared { SparesAtFault S.Store conn.old conn.new result }
    ensures cause { ErrorHasCause S.Store conn.old conn.new result }
    ensures refused { IfErrorRefuses S.Store conn.new result
        (WriteGives S.Store number changes.now conn.old) }
    ensures asked { IfClean S.Store conn.new
        (OnOk result (Committed S.Store number changes.now conn.old conn.new)) }
{
    if conn.is_autocommit() {
        commit_some(conn, numbers, number, changes)
    } else {
        Err(Error::SqliteFailure(ErrorCode::TransactionState))
    }
}

/// Commits the changes in one transaction, or tells why not.
pub(crate) fn store_changes<S: Alter>(
    conn: &mut Connection<S>,
    numbers: &NumberTable,
    number: i64,
    changes: &[Change],
) -> Result<(), StoreFault>
    requires some { 0 < length changes.now }
    ensures stored { IfClean S.Store conn.new
        (OnOk result (StoresChanges S.Store number changes.now conn.old conn.new)) }
    ensures kept { IfClean S.Store conn.new
        (OnErr result (CommitsNothing S.Store conn.old conn.new)) }
    ensures open { IfClean S.Store conn.new
        (IfErr result (λ fault. StaysOpen S.Store fault conn.new)) }
    ensures survives { SurvivesChanges S.Store number changes.now conn.old conn.new }
    ensures spared { SparesAtFault S.Store conn.old conn.new result }
    ensures cause { FailedHasCause S.Store conn.old conn.new result }
    ensures refused { IfRefused S.Store conn.new result
        (CannotWrite S.Store number changes.now conn.old conn.new) }
    ensures asked { IfClean S.Store conn.new
        (OnOk result (Committed S.Store number changes.now conn.old conn.new)) }
{
    match write_all(conn, numbers, number, changes) {
        Ok(()) => Ok(()),
        Err(error) => Err(settle(conn, fault_of(error))),
    }
}
