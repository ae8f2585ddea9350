//! Rows and changes over one plain table.
ghost use Rattle.std.specs.Prelude.{◌≡◌, ◌≤◌, ◌↔◌, ℕ, length, IfOk, IsOk, IsTrue, OnErr, OnOk};
ghost use Rattle.serial_spec.specs.Changes.{AreRising, overlay};
ghost use Rattle.serial_spec.specs.Rows.{IsRising, value_in};
ghost use Rattle.durable_top.specs.Numbered.{AreNumbered};
ghost use Rattle.durable_top.specs.Store.{plain};
ghost use Rattle.durable_top.specs.Numbers.{with_first};

use crate::store::Row;
use serial_spec::{NoMemory, PlainTable};
use std::alloc::Global;
use txn_names::{Change, Key};

/// Whether the rows stand in byte order of their keys, one for each.
pub fn are_rising(rows: &[Row]) -> bool
    ensures { IsTrue result ↔ IsRising (plain rows.now) }
{
    let mut left = rows.len();
    while left > 1 {
        left -= 1;
        if rows[left - 1].key >= rows[left].key {
            return false;
        }
    }
    true
}

/// Whether no row has a number below 0.
pub fn are_numbered(rows: &[Row]) -> bool
    ensures { IsTrue result ↔ AreNumbered rows.now }
{
    let mut left = rows.len();
    while left > 0 {
        left -= 1;
        let row = &rows[left];
        if row.commit < 0 {
            return false;
        }
    }
    true
}

// Gives the key this value where it has none.
fn put_first(table: &mut PlainTable, key: &Key, value: i64) -> Result<(), NoMemory>
    ensures { OnOk result
        (value_in table.new.rows ≡ with_first (value_in table.old.rows) key.now value) }
{
    if table.get(key).is_none() {
        table.put(key, Some(value))?;
    }
    Ok(())
}

/// The table of these rows. Of several rows with one key the first counts. The only error is that
/// memory runs out.
pub fn table_of(alloc: Global, rows: &[Row]) -> Result<PlainTable, NoMemory>
    ensures { IfOk result (λ table. value_in table.rows ≡ value_in (plain rows.now)) }
{
    let mut table = PlainTable::new(alloc);
    for row in rows {
        put_first(&mut table, &row.key, row.value)?;
    }
    Ok(table)
}

/// Makes rising changes in the table. It takes memory only where they may outgrow the table's room;
/// if memory runs out, the only error, the rows are as before.
pub(crate) fn change(table: &mut PlainTable, changes: &[Change]) -> Result<(), NoMemory>
    requires { AreRising changes.now }
    ensures ok { OnOk result (value_in table.new.rows ≡
        overlay changes.now (value_in table.old.rows)) }
    ensures err { OnErr result (table.new.rows ≡ table.old.rows) }
    ensures succeeds { length changes.now ≤ table.old.room → IsOk result }
{
    table.reserve(changes.len())?;
    table.change(changes);
    Ok(())
}
