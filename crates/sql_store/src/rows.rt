//! The rows of several changes are added by one statement.
ghost use Rattle.std.specs.Prelude.{◌≡◌, ◌*◌, length, IsTrue};
ghost use Rattle.sqlite.specs.Values.{bound};
ghost use Rattle.sql_store.specs.Asked.{value_of, params_all, AreRows, AnsweredRows};
ghost use Rattle.sql_store.specs.Calls.{SurvivesAsBefore, RunsInside};

use sqlite::types::ValueRef;
use sqlite::{Alter, Error, Transaction};
use txn_names::Change;

// The value that the change gives its key, and 0 at a removal, which is never among the rows of an
// insert.
fn value_of(change: &Change) -> i64
    ensures { result ≡ value_of change.now }
{
    change.value.unwrap_or(0)
}

// Writes the key, the value and the number of each row, as the parameters of a statement.
fn fill<'a>(params: &mut [ValueRef<'a>], number: i64, rows: &'a [Change])
    requires size { length params.old ≡ 3 * length rows.now }
    ensures { bound params.new ≡ params_all number rows.now }
{
    for index in 0..rows.len() {
        let row = &rows[index];
        params[3 * index] = ValueRef::Text(row.key.as_bytes());
        params[3 * index + 1] = ValueRef::Int(value_of(row));
        params[3 * index + 2] = ValueRef::Int(number);
    }
}

/// Adds the rows of 4 or of 16 changes. Where a key has a row already, or two have one key, that is
/// refused, and nothing is added.
pub(crate) fn insert_rows<S: Alter>(
    tx: &mut Transaction<'_, S>,
    number: i64,
    rows: &[Change],
) -> Result<usize, Error>
    requires rows { AreRows rows.now }
    ensures same_reference { tx.new.conn.ghost_name ≡ tx.old.conn.ghost_name }
    ensures runs { RunsInside S.Store (AnsweredRows S.Store number rows.now)
        tx.old.conn.now tx.new.conn.now result }
    ensures survives { SurvivesAsBefore S.Store tx.old.conn.now tx.new.conn.now }
{
    if rows.len() == 16 {
        let mut params = [ValueRef::Int(number); 48];
        fill(&mut params, number, rows);
        tx.execute(
            "INSERT INTO results2 (k, v, n) VALUES (?1, ?2, ?3), (?4, ?5, ?6), (?7, ?8, ?9), (?10, ?11, ?12), (?13, ?14, ?15), (?16, ?17, ?18), (?19, ?20, ?21), (?22, ?23, ?24), (?25, ?26, ?27), (?28, ?29, ?30), (?31, ?32, ?33), (?34, ?35, ?36), (?37, ?38, ?39), (?40, ?41, ?42), (?43, ?44, ?45), (?46, ?47, ?48)",
            &params,
        )
    } else {
        let mut params = [ValueRef::Int(number); 12];
        fill(&mut params, number, rows);
        tx.execute(
            "INSERT INTO results2 (k, v, n) VALUES (?1, ?2, ?3), (?4, ?5, ?6), (?7, ?8, ?9), (?10, ?11, ?12)",
            &params,
        )
    }
}
