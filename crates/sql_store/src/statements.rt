//! The statements, one a function.
ghost use Rattle.std.specs.Prelude.{◌≡◌, [], ◌∷◌, Some, None, Err, OnOk, IfOk, IfErr, IsTrue, IsErr};
ghost use Rattle.sqlite.specs.Values.{bound};
ghost use Rattle.sqlite.specs.declared.types.Value.TheVariants.{Text, Int};
ghost use Rattle.sqlite.specs.Held.{state};
ghost use Rattle.sql_store.specs.Results.{both_schema, old_schema, no_schema};
ghost use Rattle.sql_store.specs.Load.{load_text, load_query, old_text, old_query, ids_text, ids_query, old_ids_text, old_ids_query, IsAnswerOn};
ghost use Rattle.sql_store.specs.Table.{AreApart, KeepsNewTree};
ghost use Rattle.sql_store.specs.Inside.{Selects, MakesNewTable, MakesOldTable};
ghost use Rattle.sql_store.specs.Faults.{fault_of, HasFailed};
ghost use Rattle.sql_store.specs.Asked.{RunsStatement, create_old_text, create_text, upsert_text, delete_text, empty_text, params_of, IsAnswered, QueryFails};
ghost use Rattle.sql_store.specs.Calls.{CommitsNothing, Continues, ErrorHasCause, IfBoth, IfClean, OnlyReads, SparesSettled, SurvivesAsBefore, database, ChangesOf, MakesEntry};

use durable_top::{Row, StoreFault};
use sqlite::types::ValueRef;
use sqlite::{Alter, Connection, Error, Transaction};
use txn_names::Key;

fn of_key(key: &Key) -> [ValueRef<'_>; 1]
    ensures { bound result ≡ Text key.now ∷ [] }
{
    [ValueRef::Text(key.as_bytes())]
}

/// The key, the value and the number of the row, as the parameters of a statement.
pub(crate) fn of_row(row: &Row) -> [ValueRef<'_>; 3]
    ensures { bound result ≡ Text row.now.key ∷ Int row.now.value ∷ Int row.now.commit ∷ [] }
{
    [
        ValueRef::Text(row.key.as_bytes()),
        ValueRef::Int(row.value),
        ValueRef::Int(row.commit),
    ]
}

/// Takes the row of the key away, if there is one.
pub(crate) fn remove<S: Alter>(tx: &mut Transaction<'_, S>, key: &Key) -> Result<(), Error>
    ensures same_reference { tx.new.conn.ghost_name ≡ tx.old.conn.ghost_name }
    ensures made { MakesEntry S.Store key.now None tx.old.conn.now tx.new.conn.now result }
    ensures answers { RunsStatement S.Store delete_text (Text key.now ∷ [])
        tx.old.conn.now tx.new.conn.now result }
{
    tx.execute("DELETE FROM results2 WHERE k = ?1", &of_key(key))?;
    Ok(())
}

/// Gives the key of the row its value and its number, whether or not it has one.
pub(crate) fn put<S: Alter>(tx: &mut Transaction<'_, S>, row: &Row) -> Result<(), Error>
    ensures same_reference { tx.new.conn.ghost_name ≡ tx.old.conn.ghost_name }
    ensures made { MakesEntry S.Store row.now.key (Some (row.now.value, row.now.commit))
        tx.old.conn.now tx.new.conn.now result }
    ensures answers { RunsStatement S.Store upsert_text (params_of row.now)
        tx.old.conn.now tx.new.conn.now result }
{
    tx.execute(
        "INSERT INTO results2 (k, v, n) VALUES (?1, ?2, ?3) ON CONFLICT (k) DO UPDATE SET v = excluded.v, n = excluded.n",
        &of_row(row),
    )?;
    Ok(())
}

/// Takes all rows of the old table away.
pub(crate) fn empty<S: Alter>(tx: &mut Transaction<'_, S>) -> Result<(), Error>
    ensures same_reference { tx.new.conn.ghost_name ≡ tx.old.conn.ghost_name }
    ensures on { OnOk result (Continues S.Store tx.old.conn.now tx.new.conn.now) }
    ensures schema { ChangesOf S.Store both_schema (λ _ new. new.schema ≡ both_schema)
        tx.old.conn.now tx.new.conn.now result }
    ensures others { ChangesOf S.Store both_schema KeepsNewTree
        tx.old.conn.now tx.new.conn.now result }
    ensures gone { ChangesOf S.Store both_schema (λ old new. AreApart (old.trees 0) → new.trees 0 ≡
        []) tx.old.conn.now tx.new.conn.now result }
    ensures answers { RunsStatement S.Store empty_text ([]) tx.old.conn.now tx.new.conn.now result }
{
    tx.execute("DELETE FROM results", &[])?;
    Ok(())
}

/// Makes the old table where there is none.
pub(crate) fn create_old<S: Alter>(tx: &mut Transaction<'_, S>) -> Result<(), Error>
    ensures same_reference { tx.new.conn.ghost_name ≡ tx.old.conn.ghost_name }
    ensures on { OnOk result (Continues S.Store tx.old.conn.now tx.new.conn.now) }
    ensures made { ChangesOf S.Store no_schema MakesOldTable
        tx.old.conn.now tx.new.conn.now result }
    ensures first { ChangesOf S.Store old_schema (λ old new. new ≡ old)
        tx.old.conn.now tx.new.conn.now result }
    ensures both { ChangesOf S.Store both_schema (λ old new. new ≡ old)
        tx.old.conn.now tx.new.conn.now result }
    ensures answers { RunsStatement S.Store create_old_text ([])
        tx.old.conn.now tx.new.conn.now result }
{
    tx.execute(
        "CREATE TABLE IF NOT EXISTS results (k TEXT NOT NULL PRIMARY KEY, v INTEGER NOT NULL) STRICT",
        &[],
    )?;
    Ok(())
}

/// Makes the new table where there is none.
pub(crate) fn create<S: Alter>(tx: &mut Transaction<'_, S>) -> Result<(), Error>
    ensures same_reference { tx.new.conn.ghost_name ≡ tx.old.conn.ghost_name }
    ensures on { OnOk result (Continues S.Store tx.old.conn.now tx.new.conn.now) }
    ensures made { ChangesOf S.Store old_schema MakesNewTable
        tx.old.conn.now tx.new.conn.now result }
    ensures both { ChangesOf S.Store both_schema (λ old new. new ≡ old)
        tx.old.conn.now tx.new.conn.now result }
    ensures answers { RunsStatement S.Store create_text ([])
        tx.old.conn.now tx.new.conn.now result }
{
    tx.execute(
        "CREATE TABLE IF NOT EXISTS results2 (k TEXT NOT NULL PRIMARY KEY, v INTEGER NOT NULL, n INTEGER NOT NULL) STRICT",
        &[],
    )?;
    Ok(())
}

/// All rows of the old table, by their keys.
pub(crate) fn select_old<S: Alter>(tx: &mut Transaction<'_, S>) -> Result<Vec<sqlite::Row>, Error>
    ensures same_reference { tx.new.conn.ghost_name ≡ tx.old.conn.ghost_name }
    ensures selects { Selects old_text old_query (state S.Store tx.old.conn.now)
        (state S.Store tx.new.conn.now) result }
{
    tx.query_all("SELECT k, v FROM results ORDER BY k", &[])
}

/// All rows of the new table, by their keys.
pub(crate) fn select_inside<S: Alter>(
    tx: &mut Transaction<'_, S>,
) -> Result<Vec<sqlite::Row>, Error>
    ensures same_reference { tx.new.conn.ghost_name ≡ tx.old.conn.ghost_name }
    ensures selects { Selects load_text load_query (state S.Store tx.old.conn.now)
        (state S.Store tx.new.conn.now) result }
{
    tx.query_all("SELECT k, v, n FROM results2 ORDER BY k", &[])
}

/// All rowids of the old table, in their order.
pub(crate) fn select_old_ids<S: Alter>(
    tx: &mut Transaction<'_, S>,
) -> Result<Vec<sqlite::Row>, Error>
    ensures same_reference { tx.new.conn.ghost_name ≡ tx.old.conn.ghost_name }
    ensures selects { Selects old_ids_text old_ids_query (state S.Store tx.old.conn.now)
        (state S.Store tx.new.conn.now) result }
{
    tx.query_all("SELECT rowid FROM results ORDER BY rowid", &[])
}

/// All rowids of the new table, in their order.
pub(crate) fn select_ids<S: Alter>(tx: &mut Transaction<'_, S>) -> Result<Vec<sqlite::Row>, Error>
    ensures same_reference { tx.new.conn.ghost_name ≡ tx.old.conn.ghost_name }
    ensures selects { Selects ids_text ids_query (state S.Store tx.old.conn.now)
        (state S.Store tx.new.conn.now) result }
{
    tx.query_all("SELECT rowid FROM results2 ORDER BY rowid", &[])
}

/// All rows, by their keys.
pub(crate) fn select<S: Alter>(conn: &mut Connection<S>) -> Result<Vec<sqlite::Row>, Error>
    ensures rows { IfBoth S.Store conn.old conn.new
        (IfOk result (λ rows. IsAnswerOn load_query (database S.Store conn.old) rows.items)) }
    ensures open { OnlyReads S.Store conn.old conn.new result }
    ensures kept { IfClean S.Store conn.new (CommitsNothing S.Store conn.old conn.new) }
    ensures survives { SurvivesAsBefore S.Store conn.old conn.new }
    ensures cause { ErrorHasCause S.Store conn.old conn.new result }
    ensures asked { IfClean S.Store conn.new
        (IfOk result (λ rows. IsAnswered S.Store load_text conn.old conn.new rows.items)) }
    ensures refused { IfClean S.Store conn.new
        (IfErr result (QueryFails S.Store load_text conn.old conn.new)) }
    ensures spared { SparesSettled S.Store conn.old conn.new }
{
    conn.query_all("SELECT k, v, n FROM results2 ORDER BY k", &[])
}

/// Whether statements can still be run. The answer says why not.
pub(crate) fn probe<S: Alter>(conn: &mut Connection<S>) -> Result<(), Error>
    ensures open { OnlyReads S.Store conn.old conn.new result }
    ensures kept { IfClean S.Store conn.new (CommitsNothing S.Store conn.old conn.new) }
    ensures survives { SurvivesAsBefore S.Store conn.old conn.new }
    ensures cause { ErrorHasCause S.Store conn.old conn.new result }
    ensures unrefused { IfClean S.Store conn.new
        (IfErr result (λ e. fault_of e ≡ StoreFault.Refused → ⊥)) }
    ensures stops { IfClean S.Store conn.new (IsErr result → HasFailed S.Store conn.old conn.new) }
    ensures spared { SparesSettled S.Store conn.old conn.new }
{
    let _select = conn.prepare("SELECT 1")?;
    Ok(())
}
