//! The rows of a table in memory: their values and their numbers.
ghost use Rattle.std.specs.Prelude.{◌≡◌, ◌<ℤ◌, ◌≤ℤ◌, ◌+ℤ◌, pos, ◌↔◌, [], Err, IfOk, IsOk, OnOk, OnErr, IfErr};
ghost use Rattle.serial_spec.specs.Changes.{AreRising, overlay};
ghost use Rattle.serial_spec.specs.Rows.{IsRising, value_in};
ghost use Rattle.durable_top.specs.Store.{plain};
ghost use Rattle.durable_top.specs.Numbered.{entries_in, last_number, AreNumbered, Commits, IsFull};
ghost use Rattle.durable_top.specs.Numbers.{renumbered, IsTopIn};
ghost use Rattle.durable_top.specs.Joined.{joined, entries_by, number_else_0, HaveSameKeys};

use crate::numbers::{NumberTable, next_number};
use crate::rows::{change, table_of};
use crate::store::{Row, StoreFault};
use serial_spec::{NoMemory, PlainTable};
use std::alloc::Global;
use std::marker::Model;
use txn_names::{Change, Key};

/// Rows in byte order of their keys, each with the number of the commit that set it.
#[derive(Drop)]
pub(crate) struct RowTable {
    values: PlainTable,
    numbers: NumberTable,
}

impl Model for RowTable {
    ghost use Rattle.std.specs.Prelude.{List};
    ghost use Rattle.serial_spec.specs.Rows.{value_in};
    ghost use Rattle.durable_top.specs.declared.store.Row.{Row};
    ghost use Rattle.durable_top.specs.Joined.{joined, HaveSameKeys};

    ghost Value = { List Row };

    ghost view = { λ t. joined t.values.rows (value_in t.numbers.rows) };

    ghost invariant = { λ t. HaveSameKeys (value_in t.values.rows) (value_in t.numbers.rows) };
}

// The key's number, 0 where it has none.
fn number_of(numbers: &NumberTable, key: &Key) -> i64
    ensures { result ≡ number_else_0 (value_in numbers.now.rows key.now) }
{
    match numbers.number(key) {
        Some(number) => number,
        None => 0,
    }
}

#[tactic(auto, using(crate::proofs::Numbering::joined_rising))]
fn rows_of(alloc: Global, values: &PlainTable, numbers: &NumberTable) -> Result<Vec<Row>, NoMemory>
    ensures rows { IfOk result (λ rows.
        rows.items ≡ joined values.now.rows (value_in numbers.now.rows)) }
    ensures none { values.now.rows ≡ [] → IsOk result }
    ensures rising { IsRising (plain (joined values.now.rows (value_in numbers.now.rows))) }
    ensures least { AreNumbered (joined values.now.rows (value_in numbers.now.rows)) }
{
    numbers.has_none_below_0();
    let mut rows = Vec::new(alloc);
    for place in 0..values.len() {
        if let Some((key, value)) = values.at(place) {
            let commit = number_of(numbers, key);
            rows.push(Row {
                key: *key,
                value,
                commit,
            })?;
        }
    }
    Ok(rows)
}

// Makes room for the changes, and then makes them under the number.
fn change_both(
    values: &mut PlainTable,
    numbers: &mut NumberTable,
    number: i64,
    changes: &[Change],
) -> Result<(), NoMemory>
    requires above { numbers.old.top <ℤ number }
    requires rising { AreRising changes.now }
    ensures values { OnOk result (value_in values.new.rows ≡
        overlay changes.now (value_in values.old.rows)) }
    ensures numbers { OnOk result
        (value_in numbers.new.rows ≡ renumbered number changes.now (value_in numbers.old.rows)) }
    ensures same_values { OnErr result (values.new.rows ≡ values.old.rows) }
    ensures same_numbers { OnErr result (numbers.new.rows ≡ numbers.old.rows) }
{
    numbers.reserve(changes.len())?;
    change(values, changes)?;
    numbers.change(number, changes);
    Ok(())
}

// Makes the changes under the number above the greatest.
#[tactic(auto, using(crate::proofs::Numbering::above_top))]
fn make(
    values: &mut PlainTable,
    numbers: &mut NumberTable,
    number: i64,
    changes: &[Change],
) -> Result<(), StoreFault>
    requires next { number ≡ numbers.old.top +ℤ pos 1 }
    requires fits { number ≤ℤ last_number }
    requires rising { AreRising changes.now }
    requires same { HaveSameKeys (value_in values.old.rows) (value_in numbers.old.rows) }
    ensures same { HaveSameKeys (value_in values.new.rows) (value_in numbers.new.rows) }
    ensures ok { OnOk result
        (Commits changes.now (entries_by values.old.rows numbers.old.rows)
        (entries_by values.new.rows numbers.new.rows)) }
    ensures same_values { OnErr result (values.new.rows ≡ values.old.rows) }
    ensures same_numbers { OnErr result (numbers.new.rows ≡ numbers.old.rows) }
    ensures memory { IfErr result (λ fault. fault ≡ StoreFault.Memory) }
{
    numbers.has_none_below_0();
    match change_both(values, numbers, number, changes) {
        Ok(()) => Ok(()),
        Err(_) => Err(StoreFault::Memory),
    }
}

impl RowTable {
    /// A table of these rows. The only error is that memory runs out.
    pub(crate) fn of_rows(alloc: Global, rows: &[Row]) -> Result<RowTable, NoMemory>
        requires rising { IsRising (plain rows.now) }
        requires least { AreNumbered rows.now }
        ensures { IfOk result (λ table. table ≡ rows.now) }
    {
        let values = table_of(alloc, rows)?;
        values.has_rising_rows();
        let numbers = NumberTable::of_rows(alloc, rows)?;
        Ok(RowTable { values, numbers })
    }

    /// The rows. The only error is that memory runs out, and where there are none it takes no
    /// memory.
    pub(crate) fn rows(&self, alloc: Global) -> Result<Vec<Row>, NoMemory>
        ensures rows { IfOk result (λ rows. rows.items ≡ self.now) }
        ensures none { self.now ≡ [] → IsOk result }
        ensures rising { IsRising (plain self.now) }
        ensures least { AreNumbered self.now }
    {
        rows_of(alloc, &self.values, &self.numbers)
    }

    #[tactic(auto, using(crate::proofs::Numbering::full_joined, crate::proofs::Numbering::not_full, crate::proofs::Numbering::values_rows_committed))]
    /// Makes the changes under the number above the greatest. It answers Refused where there is
    /// none, and else faults only where memory runs out; the rows are as before then. Where
    /// nothing is to be changed there is no fault.
    pub(crate) fn commit(&mut self, changes: &[Change]) -> Result<(), StoreFault>
        requires { AreRising changes.now }
        ensures ok { OnOk result (Commits changes.now (entries_in self.old) (entries_in self.new)) }
        ensures values { OnOk result
            (value_in (plain self.new) ≡ overlay changes.now (value_in (plain self.old))) }
        ensures err { OnErr result (self.new ≡ self.old) }
        ensures full { IsFull changes.now (entries_in self.old) → result ≡ Err StoreFault.Refused }
        ensures memory { (IsFull changes.now (entries_in self.old) → ⊥)
            → IfErr result (λ fault. fault ≡ StoreFault.Memory) }
        ensures none { changes.now ≡ [] → IsOk result }
    {
        if changes.is_empty() {
            return Ok(());
        }
        match next_number(self.numbers.top()) {
            Some(number) => make(&mut self.values, &mut self.numbers, number, changes),
            None => Err(StoreFault::Refused),
        }
    }
}
