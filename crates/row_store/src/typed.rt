//! Whether a row may be stored.

ghost use Rattle.std.specs.Prelude.{◌↔◌, All, IsTrue};
ghost use Rattle.std.specs.Float.{NotNan};
ghost use Rattle.sqlite_value.specs.Value.{owned};
ghost use Rattle.sqlite_value.specs.Order.{number};
ghost use Rattle.sqlite_trees.specs.View.{IsTyped};

use sqlite_trees::typed::is_typed;
use sqlite_value::row::Row;
use sqlite_value::value::ValueRef;

/// The most columns of a row, the rowid among them.
const MOST_COLUMNS: usize = 2001;

fn is_no_float(value: ValueRef<'_>) -> bool
    ensures { IsTrue result → NotNan (number (owned value.entry)) }
{
    match value {
        ValueRef::Real(_) => false,
        _ => true,
    }
}

fn has_no_float(row: &Row) -> bool
    ensures { IsTrue result → All (λ v. NotNan (number v)) row.now }
{
    for at in 0..row.len() {
        if !is_no_float(row.get(at)) {
            return false;
        }
    }
    true
}

/// Whether a row of a tree with these REAL columns may be stored. Where there is none, and no float,
/// its 64 first columns are not looked at one by one.
pub(crate) fn is_storable(row: &Row, reals: u64) -> bool
    ensures { IsTrue result ↔ IsTyped reals row.now }
{
    if reals != 0 {
        return is_typed(row, reals);
    }
    if !has_no_float(row) {
        return is_typed(row, reals);
    }
    0 < row.len() && row.len() <= MOST_COLUMNS
}
