//! A row is put by the statement that is likely to serve, and by the upsert where that one leaves
//! it.
ghost use Rattle.std.specs.Prelude.{◌≡◌, Some, IfErr, IsTrue};
ghost use Rattle.sqlite.specs.Values.{bound};
ghost use Rattle.sqlite.specs.declared.types.Value.TheVariants.{Text, Int};
ghost use Rattle.sql_store.specs.Asked.{update_text, insert_text, first_text, params_of, Answered, TriesFirst, RunsPut};
ghost use Rattle.sql_store.specs.Calls.{SurvivesAsBefore, MakesEntry, RunsInside, TriesInside};

use crate::faults::breaks_rule;
use crate::statements::{of_row, put};
use durable_top::Row;
use sqlite::{Alter, Error, Transaction};

// Gives the key of the row its value and its number where it has a row, and answers how many rows
// it met.
fn update<S: Alter>(tx: &mut Transaction<'_, S>, row: &Row) -> Result<usize, Error>
    ensures same_reference { tx.new.conn.ghost_name ≡ tx.old.conn.ghost_name }
    ensures runs { RunsInside S.Store (Answered S.Store update_text (params_of row.now))
        tx.old.conn.now tx.new.conn.now result }
    ensures survives { SurvivesAsBefore S.Store tx.old.conn.now tx.new.conn.now }
{
    tx.execute(
        "UPDATE results2 SET v = ?2, n = ?3 WHERE k = ?1",
        &of_row(row),
    )
}

// Adds the row. Where its key has one already, that is refused.
fn insert<S: Alter>(tx: &mut Transaction<'_, S>, row: &Row) -> Result<usize, Error>
    ensures same_reference { tx.new.conn.ghost_name ≡ tx.old.conn.ghost_name }
    ensures runs { RunsInside S.Store (Answered S.Store insert_text (params_of row.now))
        tx.old.conn.now tx.new.conn.now result }
    ensures survives { SurvivesAsBefore S.Store tx.old.conn.now tx.new.conn.now }
{
    tx.execute(
        "INSERT INTO results2 (k, v, n) VALUES (?1, ?2, ?3)",
        &of_row(row),
    )
}

// Puts the row of a key that is likely to have one.
fn put_known<S: Alter>(tx: &mut Transaction<'_, S>, row: &Row) -> Result<(), Error>
    ensures same_reference { tx.new.conn.ghost_name ≡ tx.old.conn.ghost_name }
    ensures answers { RunsPut S.Store (params_of row.now) tx.old.conn.now tx.new.conn.now result }
    ensures first { TriesInside S.Store (TriesFirst S.Store update_text (params_of row.now))
        tx.old.conn.now tx.new.conn.now }
{
    let count = update(tx, row)?;
    let is_left = count == 0;
    if is_left { put(tx, row) } else { Ok(()) }
}

// Puts the row of a key that is likely to have none.
fn put_new<S: Alter>(tx: &mut Transaction<'_, S>, row: &Row) -> Result<(), Error>
    ensures same_reference { tx.new.conn.ghost_name ≡ tx.old.conn.ghost_name }
    ensures answers { RunsPut S.Store (params_of row.now) tx.old.conn.now tx.new.conn.now result }
    ensures first { TriesInside S.Store (TriesFirst S.Store insert_text (params_of row.now))
        tx.old.conn.now tx.new.conn.now }
{
    match insert(tx, row) {
        Ok(_) => Ok(()),
        Err(error) => {
            if breaks_rule(error) {
                put(tx, row)
            } else {
                Err(error)
            }
        }
    }
}

/// Gives the key of the row its value and its number, whether or not it has a row. That it is
/// likely to have one says only which statement is tried first.
pub(crate) fn put_either<S: Alter>(
    tx: &mut Transaction<'_, S>,
    is_likely: bool,
    row: &Row,
) -> Result<(), Error>
    ensures same_reference { tx.new.conn.ghost_name ≡ tx.old.conn.ghost_name }
    ensures made { MakesEntry S.Store row.now.key (Some (row.now.value, row.now.commit))
        tx.old.conn.now tx.new.conn.now result }
    ensures answers { RunsPut S.Store (params_of row.now) tx.old.conn.now tx.new.conn.now result }
    ensures first { TriesInside S.Store
        (TriesFirst S.Store (first_text is_likely) (params_of row.now))
        tx.old.conn.now tx.new.conn.now }
{
    if is_likely {
        put_known(tx, row)
    } else {
        put_new(tx, row)
    }
}
