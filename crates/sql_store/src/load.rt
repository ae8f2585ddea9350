//! The table, read by one query.
ghost use Rattle.std.specs.Prelude.{◌≡◌, IfOk, IsTrue};
ghost use Rattle.sqlite.specs.Held.{state};
ghost use Rattle.serial_spec.specs.Rows.{IsRising};
ghost use Rattle.durable_top.specs.Numbered.{AreNumbered, entries_in};
ghost use Rattle.durable_top.specs.Store.{plain};
ghost use Rattle.sql_store.specs.Load.{load_query, load_text, IsAnswerOn};
ghost use Rattle.sql_store.specs.Table.{table_of};
ghost use Rattle.sql_store.specs.Faults.{fault_of};
ghost use Rattle.sql_store.specs.Refusals.{QueryGives, CannotLoad};
ghost use Rattle.sql_store.specs.Asked.{Fetched, Loaded};
ghost use Rattle.sql_store.specs.Calls.{CommitsNothing, ErrorHasCause, FailedHasCause, IfClean, IfKnown, IfRefused, OnlyReads, SparesSettled, SurvivesAsBefore, UnlessFailed, database, IfErrorRefuses};

use crate::faults::{fault_of, settle};
use crate::reading::sorted;
use crate::statements::{probe, select};
use durable_top::{Row, StoreFault};
use sqlite::{Alter, Connection, Error};
use std::alloc::Global;

/// What the query answers.
fn fetch<S: Alter>(conn: &mut Connection<S>) -> Result<Vec<sqlite::Row>, Error>
    ensures rows { IfKnown S.Store conn.old conn.new
        (IfOk result (λ rows. IsAnswerOn load_query (database S.Store conn.old) rows.items)) }
    ensures open { OnlyReads S.Store conn.old conn.new result }
    ensures kept { IfClean S.Store conn.new (CommitsNothing S.Store conn.old conn.new) }
    ensures survives { SurvivesAsBefore S.Store conn.old conn.new }
    ensures cause { ErrorHasCause S.Store conn.old conn.new result }
    ensures asked { IfClean S.Store conn.new
        (IfOk result (λ rows. Fetched S.Store conn.old conn.new rows.items)) }
    ensures refused { IfErrorRefuses S.Store conn.new result
        (QueryGives S.Store load_text conn.old conn.new) }
    ensures spared { SparesSettled S.Store conn.old conn.new }
{
    probe(conn)?;
    select(conn)
}

/// The rows, in byte order of their keys.
pub(crate) fn load_rows<S: Alter>(
    conn: &mut Connection<S>,
    alloc: Global,
) -> Result<Vec<Row>, StoreFault>
    ensures rows { IfKnown S.Store conn.old conn.new
        (IfOk result (λ rows. entries_in rows.items ≡ table_of (database S.Store conn.old))) }
    ensures rising { IfOk result (λ rows. IsRising (plain rows.items)) }
    ensures numbers { IfOk result (λ rows. AreNumbered rows.items) }
    ensures open { IfClean S.Store conn.new
        (UnlessFailed result (IsTrue (state S.Store conn.new).is_open)) }
    ensures kept { IfClean S.Store conn.new (CommitsNothing S.Store conn.old conn.new) }
    ensures survives { SurvivesAsBefore S.Store conn.old conn.new }
    ensures cause { FailedHasCause S.Store conn.old conn.new result }
    ensures asked { IfClean S.Store conn.new
        (IfOk result (λ rows. Loaded S.Store conn.old conn.new rows.items)) }
    ensures refused { IfRefused S.Store conn.new result (CannotLoad S.Store conn.old conn.new) }
    ensures spared { SparesSettled S.Store conn.old conn.new }
{
    match fetch(conn) {
        Ok(rows) => sorted(alloc, rows.as_slice()),
        Err(error) => Err(settle(conn, fault_of(error))),
    }
}
