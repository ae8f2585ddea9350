//! The keys that a report names, each with its number and its value, and the groups with their
//! numbers.
ghost use Rattle.std.specs.Prelude.{◌≡◌, ℕ, List, slice_get, Some, IfOk, OnOk};
ghost use Rattle.indexmap.specs.IndexMap.{keys};
ghost use Rattle.report_tables.specs.Valued.{Extends, value_at};

use indexmap::IndexMap;
use serial_spec::NoMemory;
use std::alloc::AllocError;
use txn_names::{Group, Key};

/// The keys in the order in which they are first named, each with its value, if it has one.
pub type Values = IndexMap<Key, Option<i64>>;

/// The number of the key. One that is new has no value. The only error is that memory runs out.
pub fn number_of(values: &mut Values, key: &Key) -> Result<usize, NoMemory>
    ensures key { IfOk result (λ i. slice_get (keys values.new) i ≡ Some key.now) }
    ensures grown { OnOk result (Extends (keys values.old) (keys values.new)) }
    ensures same { OnOk result ((k : List ℕ) →
        value_at values.new.entries k ≡ value_at values.old.entries k) }
{
    if let Some(number) = values.get_index_of(key) {
        return Ok(number);
    }
    let number = values.len();
    match values.insert(*key, None) {
        Ok(_) => Ok(number),
        Err(_) => Err(AllocError),
    }
}

/// The groups in the order in which they are first named, each with its sum once keys have their
/// values.
pub type Groups = IndexMap<Group, i128>;

/// The number of the group. The only error is that memory runs out.
pub fn group_number(groups: &mut Groups, group: &Group) -> Result<usize, NoMemory>
    ensures group { IfOk result (λ i. slice_get (keys groups.new) i ≡ Some group.now) }
    ensures grown { OnOk result (Extends (keys groups.old) (keys groups.new)) }
{
    if let Some(number) = groups.get_index_of(group) {
        return Ok(number);
    }
    let number = groups.len();
    match groups.insert(*group, 0) {
        Ok(_) => Ok(number),
        Err(_) => Err(AllocError),
    }
}
