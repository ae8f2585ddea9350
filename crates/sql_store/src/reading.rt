//! Rows of the database as rows of the store.
ghost use Rattle.std.specs.Prelude.{◌≡◌, ◌≤ℤ◌, pos, IfSome, IfOk, IfErr, IsErrOf, Contains, None, map};
ghost use Rattle.sqlite.specs.Order.{column, Row as Shown};
ghost use Rattle.sqlite.specs.declared.types.Value.TheVariants.{Text, Int};
ghost use Rattle.serial_spec.specs.Rows.{IsRising};
ghost use Rattle.durable_top.specs.Numbered.{AreNumbered};
ghost use Rattle.durable_top.specs.Store.{plain};
ghost use Rattle.sql_store.specs.Ids.{is_past, next_id, rises};
ghost use Rattle.sql_store.specs.Reading.{told, seen, seen_old};
ghost use Rattle.sql_store.specs.Refusals.{key_in, IsNoNumber, IsUnread, IsUnreadOld, AreNoRows, AreNoOldRows};
ghost use Rattle.sql_store.specs.Table.{int_in};

use durable_top::{Row, StoreFault, are_rising};
use sqlite::types::ValueRef;
use std::alloc::Global;
use txn_names::Key;

fn key_at(row: &sqlite::Row, at: usize) -> Option<Key>
    ensures is { IfSome result (λ key. column row.now at ≡ Text key) }
    ensures read { result ≡ key_in (column row.now at) }
{
    match row.get_ref(at) {
        Ok(ValueRef::Text(text)) => Key::parse(text).ok(),
        _ => None,
    }
}

fn int_at(row: &sqlite::Row, at: usize) -> Option<i64>
    ensures is { IfSome result (λ value. column row.now at ≡ Int value) }
    ensures read { result ≡ int_in (column row.now at) }
{
    match row.get_ref(at) {
        Ok(ValueRef::Int(value)) => Some(value),
        _ => None,
    }
}

// A whole number that is not below 0.
fn number_at(row: &sqlite::Row, at: usize) -> Option<i64>
    ensures is { IfSome result (λ value. (column row.now at ≡ Int value) × (pos 0 ≤ℤ value)) }
    ensures unread { result ≡ None → IsNoNumber (column row.now at) }
{
    let number = int_at(row, at)?;
    if number < 0 { None } else { Some(number) }
}

// A key, a whole number and one that is not below 0, or else there is no row.
fn read_row(row: &sqlite::Row) -> Option<Row>
    ensures read { IfSome result (λ read. told read ≡ seen row.now) }
    ensures number { IfSome result (λ read. pos 0 ≤ℤ read.commit) }
    ensures unread { result ≡ None → IsUnread row.now }
{
    let key = key_at(row, 0)?;
    let value = int_at(row, 1)?;
    let commit = number_at(row, 2)?;
    Some(Row { key, value, commit })
}

// A key and a whole number, or else there is no row. It gets the number 0.
fn read_old_row(row: &sqlite::Row) -> Option<Row>
    ensures read { IfSome result (λ read. told read ≡ seen_old row.now) }
    ensures number { IfSome result (λ read. pos 0 ≤ℤ read.commit) }
    ensures unread { result ≡ None → IsUnreadOld row.now }
{
    let key = key_at(row, 0)?;
    let value = int_at(row, 1)?;
    Some(Row {
        key,
        value,
        commit: 0,
    })
}

fn is_past(low: Option<i64>, id: i64) -> bool
    ensures { result ≡ is_past low id }
{
    match low {
        Some(low) => low < id,
        None => true,
    }
}

// The rowid, where it is a whole number above the one before.
fn next_id(low: Option<i64>, row: &sqlite::Row) -> Option<i64>
    ensures { result ≡ next_id low (int_in (column row.now 0)) }
{
    let id = int_at(row, 0)?;
    if is_past(low, id) { Some(id) } else { None }
}

/// Whether the rowids, one in a row, are whole numbers that rise.
pub(crate) fn are_apart(rows: &[sqlite::Row]) -> bool
    ensures { result ≡ rises None rows.now }
{
    let mut low = None;
    for row in rows {
        low = next_id(low, row);
        if low.is_none() {
            return false;
        }
    }
    true
}

// A row that cannot be read is refused.
fn read_rows(alloc: Global, rows: &[sqlite::Row]) -> Result<Vec<Row>, StoreFault>
    ensures read { IfOk result (λ read. map told read.items ≡ map seen rows.now) }
    ensures numbers { IfOk result (λ read. AreNumbered read.items) }
    ensures cause { IfErr result (λ fault. fault ≡ StoreFault.Failed → ⊥) }
    ensures unread { IsErrOf result StoreFault.Refused
        → (row : Shown) × Contains rows.now row × IsUnread row }
{
    let mut all = Vec::new(alloc);
    for row in rows {
        let Some(read) = read_row(row) else {
            return Err(StoreFault::Refused);
        };
        if all.push(read).is_err() {
            return Err(StoreFault::Memory);
        }
    }
    Ok(all)
}

fn read_old_rows(alloc: Global, rows: &[sqlite::Row]) -> Result<Vec<Row>, StoreFault>
    ensures read { IfOk result (λ read. map told read.items ≡ map seen_old rows.now) }
    ensures numbers { IfOk result (λ read. AreNumbered read.items) }
    ensures cause { IfErr result (λ fault. fault ≡ StoreFault.Failed → ⊥) }
    ensures unread { IsErrOf result StoreFault.Refused
        → (row : Shown) × Contains rows.now row × IsUnreadOld row }
{
    let mut all = Vec::new(alloc);
    for row in rows {
        let Some(read) = read_old_row(row) else {
            return Err(StoreFault::Refused);
        };
        if all.push(read).is_err() {
            return Err(StoreFault::Memory);
        }
    }
    Ok(all)
}

/// The rows, in byte order of their keys. A row that is none of the store's, and a key that comes
/// twice, are refused.
pub(crate) fn sorted(alloc: Global, rows: &[sqlite::Row]) -> Result<Vec<Row>, StoreFault>
    ensures read { IfOk result (λ read. map told read.items ≡ map seen rows.now) }
    ensures rising { IfOk result (λ read. IsRising (plain read.items)) }
    ensures numbers { IfOk result (λ read. AreNumbered read.items) }
    ensures cause { IfErr result (λ fault. fault ≡ StoreFault.Failed → ⊥) }
    ensures refused { IsErrOf result StoreFault.Refused → AreNoRows rows.now }
{
    let read = read_rows(alloc, rows)?;
    if are_rising(&read) {
        Ok(read)
    } else {
        Err(StoreFault::Refused)
    }
}

/// The rows of the old table, each under the number 0.
pub(crate) fn sorted_old(alloc: Global, rows: &[sqlite::Row]) -> Result<Vec<Row>, StoreFault>
    ensures read { IfOk result (λ read. map told read.items ≡ map seen_old rows.now) }
    ensures rising { IfOk result (λ read. IsRising (plain read.items)) }
    ensures numbers { IfOk result (λ read. AreNumbered read.items) }
    ensures cause { IfErr result (λ fault. fault ≡ StoreFault.Failed → ⊥) }
    ensures refused { IsErrOf result StoreFault.Refused → AreNoOldRows rows.now }
{
    let read = read_old_rows(alloc, rows)?;
    if are_rising(&read) {
        Ok(read)
    } else {
        Err(StoreFault::Refused)
    }
}
