//! The report of a finished run.
ghost use Rattle.std.specs.Prelude.{◌≡◌, reverse};
ghost use Rattle.durable_top.specs.Store.{plain};
ghost use Rattle.run_reports.specs.Reports.{IsReport, told_of};

use durable_top::Row;
use event_lists::Entries;
use serial_spec::PlainTable;
use std::marker::Model;
use txn_names::Label;

/// What a finished run has to tell: the opening rows, the sessions' labels, each entry of the
/// history, and the final table.
#[derive(Drop)]
pub struct Report {
    opening: Vec<Row>,
    labels: Vec<Label>,
    history: Entries,
    table: PlainTable,
}

impl Model for Report {
    ghost use Rattle.run_reports.specs.Told.{Told};
    ghost use Rattle.run_reports.specs.Reports.{IsReport, told_of};

    ghost Value = { Told };

    ghost view = { λ r. told_of r.opening.items r.labels.items r.history.entries r.table.rows };

    ghost invariant = { λ r. IsReport
        (told_of r.opening.items r.labels.items r.history.entries r.table.rows) };
}

impl Report {
    /// The report of these rows at the opening, labels of sessions, entries, of which the oldest
    /// comes first, and rows at the end, of which all holds that every report says.
    pub fn of(opening: Vec<Row>, labels: Vec<Label>, history: Entries, table: PlainTable) -> Report
        requires { IsReport (told_of opening.items labels.items history.entries table.rows) }
        ensures { result ≡ told_of opening.items labels.items history.entries table.rows }
    {
        Report {
            opening,
            labels,
            history,
            table,
        }
    }

    /// The rows that the store gave at the opening, in byte order of their keys.
    pub fn opening(&self) -> &[Row]
        ensures { plain result.now ≡ self.now.opening }
    {
        &self.opening
    }

    /// The sessions' labels, in order.
    pub fn labels(&self) -> &[Label]
        ensures { result.now ≡ self.now.labels }
    {
        &self.labels
    }

    /// The entries, the oldest first.
    pub fn history(&self) -> &Entries
        ensures { reverse result.now.entries ≡ self.now.history }
    {
        &self.history
    }

    /// The table that the committed top-level transactions left.
    pub fn table(&self) -> &PlainTable
        ensures table { result.now.rows ≡ self.now.table }
        ensures report { IsReport self.now }
    {
        &self.table
    }
}
