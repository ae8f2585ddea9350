//! Many changes of a table.
ghost use Rattle.std.specs.Prelude.{◌≡◌, ◌+◌, ◌<◌, ◌≤◌, length};
ghost use Rattle.serial_spec.specs.Changes.{AreRising, overlay};
ghost use Rattle.serial_spec.specs.Rows.{value_in};
ghost use Rattle.serial_spec.specs.Serial.{put};

use crate::table::PlainTable;
use txn_names::Change;

// Makes the change, for which there is room.
fn change_one(table: &mut PlainTable, change: &Change)
    requires { 0 < table.old.room }
    ensures values { value_in table.new.rows
        ≡ put (value_in table.old.rows) change.now.key change.now.value }
    ensures room { table.old.room ≤ table.new.room + 1 }
{
    table.put(&change.key, change.value).unwrap();
}

/// Makes the changes, for which there is room, from the last to the first.
pub(crate) fn change_all(table: &mut PlainTable, changes: &[Change])
    requires rising { AreRising changes.now }
    requires room { length changes.now ≤ table.old.room }
    ensures values { value_in table.new.rows ≡ overlay changes.now (value_in table.old.rows) }
    ensures room { table.old.room ≤ table.new.room + length changes.now }
{
    let mut left = changes.len();
    while left > 0 {
        change_one(table, &changes[left - 1]);
        left -= 1;
    }
}
