//! The report as it grows: each part is written and passed on.
ghost use Rattle.std.specs.Prelude.{◌≤◌, length, OnErr, OnOk};
ghost use Rattle.durable_top.specs.Store.{plain};
ghost use Rattle.run_reports.specs.Reports.{IsReport};
ghost use Rattle.report_text.specs.Lines.{opening_text};
ghost use Rattle.live_runs.specs.Showing.{IsShown, IsUnshown, lines_behind, rest_behind};

use durable_top::Row;
use event_lists::Entries;
use report_text::{WriteFault, write_ending, write_entries, write_opening};
use run_reports::Report;
use txn_bytes::Sink;
use txn_names::Label;

/// The opening.
pub(crate) fn show_opening<W: Sink>(rows: &[Row], out: &mut W) -> Result<(), WriteFault>
    ensures ok { OnOk result (IsShown W.Sink out.old out.new (opening_text (plain rows.now))) }
    ensures err { OnErr result
        (IsUnshown W.Sink out.old out.new (opening_text (plain rows.now))) }
{
    write_opening(rows, out)?;
    out.pass_on()
}

/// The entries behind the first so many.
pub(crate) fn show_entries<W: Sink>(
    labels: &[Label],
    history: &Entries,
    written: usize,
    out: &mut W,
) -> Result<(), WriteFault>
    requires { written ≤ length history.now.entries }
    ensures ok { OnOk result (IsShown W.Sink out.old out.new
        (lines_behind labels.now written history.now.entries)) }
    ensures err { OnErr result (IsUnshown W.Sink out.old out.new
        (lines_behind labels.now written history.now.entries)) }
{
    write_entries(labels, history, written, out)?;
    out.pass_on()
}

/// The entries behind the first so many, and the final table.
pub(crate) fn show_rest<W: Sink>(
    report: &Report,
    written: usize,
    out: &mut W,
) -> Result<(), WriteFault>
    requires { written ≤ length report.now.history }
    ensures ok { OnOk result (IsShown W.Sink out.old out.new (rest_behind written report.now)) }
    ensures err { OnErr result (IsUnshown W.Sink out.old out.new (rest_behind written report.now)) }
    ensures report { IsReport report.now }
{
    let table = report.table();
    write_entries(report.labels(), report.history(), written, out)?;
    write_ending(table, out)?;
    out.pass_on()
}
