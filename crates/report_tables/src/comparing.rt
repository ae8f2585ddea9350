//! The third pass: the final rows beside those that the second pass left.
ghost use Rattle.std.specs.Prelude.{◌≡◌, ◌≤◌, ◌<◌, ◌+◌, ◌^◌, ℕ, length, slice_get};
ghost use Rattle.indexmap.specs.IndexMap.{index_map_len};
ghost use Rattle.report_check.specs.Verdicts.{compared};
ghost use Rattle.report_tables.specs.inner.Compared.{Advances, is_row, next_of};
ghost use Rattle.report_tables.specs.Valued.{present};

use crate::values::Values;
use report_check::Verdict;
use txn_names::Key;

// Whether the row at this place is this one.
fn is_row(table: &[(Key, i64)], place: usize, key: &Key, value: i64) -> bool
    ensures { result ≡ is_row (slice_get table.now place) key.now value }
{
    match table.get(place) {
        Some(row) => row.0 == *key && row.1 == value,
        None => false,
    }
}

// The place of the next row, if the one at this place is the key's, or the key has no value and so
// no row.
fn next_at(table: &[(Key, i64)], place: usize, key: &Key, value: Option<i64>) -> Option<usize>
    requires { place ≤ length table.now }
    ensures { result ≡ next_of (slice_get table.now place) place key.now value }
{
    match value {
        Some(value) => {
            if is_row(table, place, key, value) {
                Some(place + 1)
            } else {
                None
            }
        }
        None => Some(place),
    }
}

// The same, for the key with this number.
fn next_place(values: &Values, table: &[(Key, i64)], number: usize, place: usize) -> Option<usize>
    requires within { number < index_map_len values.now }
    requires at { place ≤ length table.now }
    ensures { (n : ℕ) → Advances n table.now values.now.entries place number result }
{
    match values.get_index(number) {
        Some((key, value)) => next_at(table, place, key, *value),
        None => None,
    }
}

/// The verdict on the final rows, of which the first stands at the line `first`, beside the keys
/// that have values, in their order.
pub fn compare(values: &Values, table: &[(Key, i64)], first: usize) -> Verdict
    requires { first + length table.now < 2 ^ 64 }
    ensures { result ≡ compared first table.now (present values.now.entries) }
{
    let mut place = 0;
    for number in 0..values.len() {
        match next_place(values, table, number, place) {
            Some(next) => place = next,
            None => return Verdict::No(first + place),
        }
    }
    if place == table.len() {
        Verdict::Yes
    } else {
        Verdict::No(first + place)
    }
}
