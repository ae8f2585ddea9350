//! How a database is made ready.
ghost use Rattle.std.specs.Prelude.{◌≡◌, ◌≤◌, ◌⊎◌, ◌||◌, ◌&&◌, IfOk, IfErr, IsTrue, IsErrOf, OnOk, OnErr, [], true, Err};
ghost use Rattle.sqlite.specs.Held.{state};
ghost use Rattle.serial_spec.specs.Rows.{value_in};
ghost use Rattle.sql_store.specs.Asked.{Made, begun};
ghost use Rattle.sql_store.specs.Faults.{IsMeant};
ghost use Rattle.sql_store.specs.Ids.{IsDecided, IsDecidedFirst};
ghost use Rattle.sql_store.specs.Opening.{IsDoubted, OpensDatabase, SurvivesOpening, FindsOut};
ghost use Rattle.sql_store.specs.Refusals.{CannotOpenInside, CannotOpen};
ghost use Rattle.sql_store.specs.Results.{no_schema, old_schema, IsOurSchema};
ghost use Rattle.sql_store.specs.Table.{map_of};
ghost use Rattle.sql_store.specs.Stored.{numbered, IsKept, IsCounted};
ghost use Rattle.sql_store.specs.Calls.{CommitsNothing, FailedHasCause, IfBoth, IfClean, IfRefused, IsInside, SeesCommitted, SparesDatabase, StaysOpen, database, IfSchema, IsOutside, TellsOf};

use crate::faults::{fault_of, settle};
use crate::inside::{Opened, open_inside};
use crate::schema::{is_both, is_empty, is_old};
use durable_top::{NumberTable, StoreFault};
use sqlite::{Alter, Connection};
use sqlite_schema::schema::Schema;
use std::alloc::Global;

// Makes the tables where they are missing and moves the rows of the old one, in one transaction.
fn open_tables<S: Alter>(conn: &mut Connection<S>, alloc: Global) -> Result<Opened, StoreFault>
    requires outside { IsOutside S.Store conn.old }
    requires settled { SeesCommitted S.Store conn.old }
    ensures opened { IfClean S.Store conn.new
        (OnOk result (OpensDatabase S.Store conn.old conn.new)) }
    ensures found { IfClean S.Store conn.new
        (IfOk result (λ it.
        FindsOut S.Store it.is_apart (value_in it.numbers.rows) conn.old conn.new)) }
    ensures kept { IfClean S.Store conn.new
        (OnErr result (CommitsNothing S.Store conn.old conn.new)) }
    ensures survives { SurvivesOpening S.Store conn.old conn.new }
    ensures spared { IfClean S.Store conn.new
        (OnErr result (SparesDatabase S.Store conn.old conn.new)) }
    ensures cause { IfClean S.Store conn.new
        (IfErr result (IsMeant (state S.Store conn.old) (state S.Store conn.new))) }
    ensures refused { IfRefused S.Store conn.new result
        (CannotOpenInside S.Store (begun conn.old)) }
    ensures made { IfClean S.Store conn.new
        (IfOk result (λ opened.
        Made S.Store (value_in opened.numbers.rows) conn.old conn.new)) }
{
    let mut tx = conn.transaction();
    let opened = open_inside(&mut tx, alloc)?;
    match tx.commit() {
        Ok(()) => Ok(opened),
        Err(error) => Err(fault_of(error)),
    }
}

// Whether these are the tables of results alone, the old one or both, or no tables at all.
fn is_ours(schema: &Schema) -> bool
    ensures none { IsTrue result → IsOurSchema schema.now }
    ensures all { IsOurSchema schema.now → IsTrue result }
{
    is_empty(schema) || is_old(schema) || is_both(schema)
}

// A new database is known, and one of ours whose rowids are apart.
fn knows(is_new: bool, is_ours: bool, is_apart: bool) -> bool
    ensures { result ≡ (is_new || (is_ours && is_apart)) }
{
    is_new || (is_ours && is_apart)
}

/// What is known of a database that was made ready.
#[derive(Drop)]
pub(crate) struct Ready {
    pub(crate) is_known: bool,
    pub(crate) numbers: NumberTable,
}

/// Makes the tables where they are missing, and moves the rows of the old one into the empty new
/// one, in one transaction. A database in the middle of a transaction is refused, and so are tables
/// of these names that have other columns, rows that are none of a store, and rows in both. The
/// answer is whether the database is known, and the numbers.
pub(crate) fn prepare<S: Alter>(
    conn: &mut Connection<S>,
    alloc: Global,
) -> Result<Ready, StoreFault>
    ensures kept { IfOk result (λ ready. IsKept S.Store ready.is_known conn.new) }
    ensures counted { IfOk result (λ ready.
        IsCounted S.Store ready.is_known (value_in ready.numbers.rows) conn.new) }
    ensures known { (database S.Store conn.old).schema ≡ no_schema
        → IfOk result (λ ready. IsTrue ready.is_known) }
    ensures decided { IfBoth S.Store conn.old conn.new
        (IfOk result (λ ready. IsDecided (database S.Store conn.old) ready.is_known)) }
    ensures decided_first { TellsOf S.Store old_schema conn.old conn.new result
        (λ db ready. IsDecidedFirst db ready.is_known) }
    ensures opened { IfClean S.Store conn.new
        (OnOk result (OpensDatabase S.Store conn.old conn.new)) }
    ensures busy { IsInside S.Store conn.old
        → (result ≡ Err StoreFault.Refused) × (conn.new ≡ conn.old) }
    ensures open { IfClean S.Store conn.new
        (IsOutside S.Store conn.old → IfErr result (λ fault. StaysOpen S.Store fault conn.new)) }
    ensures same { IfClean S.Store conn.new
        (OnErr result (CommitsNothing S.Store conn.old conn.new)) }
    ensures survives { SurvivesOpening S.Store conn.old conn.new }
    ensures spared { IfClean S.Store conn.new
        (OnErr result (SparesDatabase S.Store conn.old conn.new)) }
    ensures cause { FailedHasCause S.Store conn.old conn.new result }
    ensures refused { IfRefused S.Store conn.new result (CannotOpen S.Store conn.old) }
    ensures made { IfClean S.Store conn.new
        (IfOk result (λ ready. Made S.Store (value_in ready.numbers.rows) conn.old conn.new)) }
    ensures empty { IfSchema S.Store no_schema conn.old conn.new
        (OnOk result (numbered S.Store conn.new ≡ map_of [])) }
    ensures doubted { IfClean S.Store conn.new
        (IfOk result (λ ready. IsDoubted (database S.Store conn.old) ready.is_known)) }
{
    if !conn.is_autocommit() {
        return Err(StoreFault::Refused);
    }
    let is_new = is_empty(conn.schema());
    let is_ours = is_ours(conn.schema());
    match open_tables(conn, alloc) {
        Ok(opened) => Ok(Ready {
            is_known: knows(is_new, is_ours, opened.is_apart),
            numbers: opened.numbers,
        }),
        Err(fault) => Err(settle(conn, fault)),
    }
}
