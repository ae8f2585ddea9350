//! Whether a database has the tables of results, and nothing else.
ghost use Rattle.std.specs.Prelude.{◌≡◌, ◌↔◌, ◌∷◌, [], None, IsTrue, codes, false};
ghost use Rattle.sqlite.specs.Kind.TheVariants as kinds;
ghost use Rattle.sql_store.specs.Results.{keyed, old_columns, new_columns, old_results, results, old_schema, both_schema, listed_old, listed_both, key_index, column_of, no_schema, no_stamps, plain_order, IsBare, IsKeyed};

use sqlite_items::Items;
use sqlite_schema::code::Terms;
use sqlite_schema::schema::{Column, Index, Kind, Schema, Stamps, Table};
use sqlite_value::keys::{Collation, Order};
use sqlite_value::value::Value;

/// Whether there is no table, no index and no view.
pub(crate) fn is_empty(schema: &Schema) -> bool
    ensures none { IsTrue result → schema.now ≡ no_schema }
    ensures all { schema.now ≡ no_schema → IsTrue result }
{
    schema.tables.is_empty() && schema.indexes.is_empty() && schema.views.is_empty()
}

fn is_text(text: &[u8], due: &[u8]) -> bool
    ensures { IsTrue result ↔ (text.now ≡ due.now) }
{
    text == due
}

// Whether it is one place, that of the first column.
fn is_first(places: &[usize]) -> bool
    ensures { IsTrue result ↔ (places.now ≡ 1 ∷ []) }
{
    matches!(places, [1])
}

fn are_first(keys: &[Items<usize>]) -> bool
    ensures { IsTrue result ↔ (keys.now ≡ (1 ∷ []) ∷ []) }
{
    match keys {
        [key] => is_first(key.as_slice()),
        _ => false,
    }
}

// Whether it is one order, by the bytes.
fn are_plain(orders: &[Order]) -> bool
    ensures { IsTrue result ↔ (orders.now ≡ plain_order ∷ []) }
{
    match orders {
        [order] => order.digits == 0,
        _ => false,
    }
}

fn is_no_term(terms: &Terms) -> bool
    ensures { IsTrue result ↔ (terms.now ≡ []) }
{
    terms.roots.is_empty()
}

fn is_no_stamp(stamps: &Stamps) -> bool
    ensures { IsTrue result ↔ (stamps.now ≡ no_stamps) }
{
    stamps.places.is_empty() && is_no_term(&stamps.terms) && stamps.formats.is_empty()
}

// Whether it takes values of its own type alone, and no NULL.
fn is_strict(column: &Column) -> bool
    ensures { IsTrue result ↔ (column.now ≡ column_of column.now.name column.now.kind) }
{
    column.is_strict
        && column.not_null
        && matches!(column.default, Value::Null)
        && matches!(column.collation, Collation::Binary)
}

fn is_key_column(column: &Column) -> bool
    ensures { IsTrue result ↔ (column.now ≡ column_of (codes "k") kinds.Text) }
{
    is_text(column.name.as_slice(), b"k".as_slice())
        && matches!(column.kind, Kind::Text)
        && is_strict(column)
}

// Whether it is a column of whole numbers that has this name.
fn is_int_column(column: &Column, name: &[u8]) -> bool
    ensures { IsTrue result ↔ (column.now ≡ column_of name.now kinds.Integer) }
{
    is_text(column.name.as_slice(), name)
        && matches!(column.kind, Kind::Integer)
        && is_strict(column)
}

fn are_old_columns(columns: &[Column]) -> bool
    ensures { IsTrue result ↔ (columns.now ≡ old_columns) }
{
    match columns {
        [key, value] => is_key_column(key) && is_int_column(value, b"v".as_slice()),
        _ => false,
    }
}

fn are_new_columns(columns: &[Column]) -> bool
    ensures { IsTrue result ↔ (columns.now ≡ new_columns) }
{
    match columns {
        [key, value, number] => {
            is_key_column(key)
                && is_int_column(value, b"v".as_slice())
                && is_int_column(number, b"n".as_slice())
        }
        _ => false,
    }
}

// Whether the first column is the key, and none is the rowid.
fn has_key(table: &Table) -> bool
    ensures { IsTrue result ↔ IsKeyed table.now }
{
    table.key.is_none()
        && is_first(table.primary.as_slice())
        && are_first(table.uniques.as_slice())
        && are_plain(table.orders.as_slice())
}

// Whether it has no rule beside its columns and its key.
fn is_bare(table: &Table) -> bool
    ensures { IsTrue result ↔ IsBare table.now }
{
    is_no_term(&table.checks)
        && table.references.is_empty()
        && table.computed.is_empty()
        && is_no_stamp(&table.stamps)
        && !table.is_counted
}

// Whether it has its first column as key and no other rule, at this place, under this name.
fn is_keyed(table: &Table, name: &[u8], tree: u32) -> bool
    ensures { IsTrue result ↔ (table.now ≡ keyed name.now tree table.now.columns) }
{
    is_text(table.name.as_slice(), name) && table.tree == tree && has_key(table) && is_bare(table)
}

fn is_old_table(table: &Table) -> bool
    ensures { IsTrue result ↔ (table.now ≡ old_results) }
{
    is_keyed(table, b"results".as_slice(), 0) && are_old_columns(table.columns.as_slice())
}

fn is_new_table(table: &Table) -> bool
    ensures { IsTrue result ↔ (table.now ≡ results) }
{
    is_keyed(table, b"results2".as_slice(), 2) && are_new_columns(table.columns.as_slice())
}

fn is_key_index(index: &Index, name: &[u8], tree: u32, table: u32) -> bool
    ensures { IsTrue result ↔ (index.now ≡ key_index name.now tree table) }
{
    is_text(index.name.as_slice(), name)
        && index.tree == tree
        && index.table == table
        && is_first(index.columns.as_slice())
        && index.order.digits == 0
        && index.is_unique
}

fn is_old_index(index: &Index) -> bool
    ensures { IsTrue result ↔ (index.now ≡ key_index (codes "sqlite_autoindex_results_1") 1 0) }
{
    is_key_index(index, b"sqlite_autoindex_results_1".as_slice(), 1, 0)
}

fn is_new_index(index: &Index) -> bool
    ensures { IsTrue result ↔ (index.now ≡ key_index (codes "sqlite_autoindex_results2_1") 3 2) }
{
    is_key_index(index, b"sqlite_autoindex_results2_1".as_slice(), 3, 2)
}

fn are_old_tables(tables: &[Table]) -> bool
    ensures { IsTrue result ↔ (tables.now ≡ old_results ∷ []) }
{
    match tables {
        [table] => is_old_table(table),
        _ => false,
    }
}

fn are_both_tables(tables: &[Table]) -> bool
    ensures { IsTrue result ↔ (tables.now ≡ old_results ∷ results ∷ []) }
{
    match tables {
        [old, new] => is_old_table(old) && is_new_table(new),
        _ => false,
    }
}

fn are_old_indexes(indexes: &[Index]) -> bool
    ensures { IsTrue result ↔ (indexes.now ≡ listed_old.indexes) }
{
    match indexes {
        [index] => is_old_index(index),
        _ => false,
    }
}

fn are_both_indexes(indexes: &[Index]) -> bool
    ensures { IsTrue result ↔ (indexes.now ≡ listed_both.indexes) }
{
    match indexes {
        [old, new] => is_old_index(old) && is_new_index(new),
        _ => false,
    }
}

fn is_listed_old(schema: &Schema) -> bool
    ensures { IsTrue result ↔ (schema.now ≡ listed_old) }
{
    are_old_tables(schema.tables.as_slice())
        && are_old_indexes(schema.indexes.as_slice())
        && schema.views.is_empty()
}

fn is_listed_both(schema: &Schema) -> bool
    ensures { IsTrue result ↔ (schema.now ≡ listed_both) }
{
    are_both_tables(schema.tables.as_slice())
        && are_both_indexes(schema.indexes.as_slice())
        && schema.views.is_empty()
}

/// Whether there is the old table alone, as the store makes it.
pub(crate) fn is_old(schema: &Schema) -> bool
    ensures none { IsTrue result → schema.now ≡ old_schema }
    ensures all { schema.now ≡ old_schema → IsTrue result }
{
    is_listed_old(schema)
}

/// Whether there are both tables alone, as the store makes them.
pub(crate) fn is_both(schema: &Schema) -> bool
    ensures none { IsTrue result → schema.now ≡ both_schema }
    ensures all { schema.now ≡ both_schema → IsTrue result }
{
    is_listed_both(schema)
}
