//! A report, from its first line to its last.
ghost use Rattle.std.specs.Prelude.{drop, reverse, OnErr, OnOk};
ghost use Rattle.txn_bytes.specs.Written.{IsStopped, PutsAll, PutsFront};
ghost use Rattle.line_language.specs.Report.{report, spelled_history, spelled_rows};
ghost use Rattle.durable_top.specs.Store.{plain};
ghost use Rattle.report_check.specs.Verdicts.{HasVerdict};
ghost use Rattle.report_check.specs.declared.verdict.Verdict.TheVariants.{Yes};
ghost use Rattle.report_text.specs.Lines.{ending_text, opening_text, row_line};

use crate::entries::{put_history, put_row_line, put_table};
use crate::line_buffer::LineBuffer;
use durable_top::Row;
use event_lists::Entries;
use run_reports::Report;
use serial_spec::PlainTable;
use txn_bytes::{Sink, WriteFault, put};
use txn_names::Label;

fn put_opening_row<W: Sink>(
    out: &mut W,
    buffer: &mut LineBuffer,
    row: &Row,
) -> Result<(), WriteFault>
    ensures ok { PutsAll W.Sink out.old out.new (row_line (row.now.key, row.now.value)) result }
    ensures err { PutsFront W.Sink out.old out.new (row_line (row.now.key, row.now.value)) result }
    ensures asked { OnErr result (IsStopped W.Sink out.new) }
{
    put_row_line(out, buffer, &row.key, row.value)
}

fn put_opening<W: Sink>(out: &mut W, rows: &[Row]) -> Result<(), WriteFault>
    ensures ok { PutsAll W.Sink out.old out.new (spelled_rows (plain rows.now)) result }
    ensures err { PutsFront W.Sink out.old out.new (spelled_rows (plain rows.now)) result }
    ensures asked { OnErr result (IsStopped W.Sink out.new) }
{
    let mut buffer = LineBuffer::new();
    for row in rows {
        put_opening_row(out, &mut buffer, row)?;
    }
    Ok(())
}

/// Writes how a report begins: its first line and the opening rows. It takes no memory. After a
/// fault, the only one, which the writer answered, it has taken a beginning of that.
pub fn write_opening<W: Sink>(rows: &[Row], out: &mut W) -> Result<(), WriteFault>
    ensures ok { PutsAll W.Sink out.old out.new (opening_text (plain rows.now)) result }
    ensures err { PutsFront W.Sink out.old out.new (opening_text (plain rows.now)) result }
    ensures asked { OnErr result (IsStopped W.Sink out.new) }
{
    put(out, b"open\n")?;
    put_opening(out, rows)
}

/// Writes the entries of a history behind the first so many, which were told before, the oldest
/// first, each as a line. It takes no memory. After a fault, the only one, which the writer
/// answered, it has taken a beginning of these lines.
pub fn write_entries<W: Sink>(
    labels: &[Label],
    entries: &Entries,
    told: usize,
    out: &mut W,
) -> Result<(), WriteFault>
    ensures ok { PutsAll W.Sink out.old out.new
        (spelled_history labels.now (reverse (drop told entries.now.entries))) result }
    ensures err { PutsFront W.Sink out.old out.new
        (spelled_history labels.now (reverse (drop told entries.now.entries))) result }
    ensures asked { OnErr result (IsStopped W.Sink out.new) }
{
    put_history(out, labels, entries, told)
}

/// Writes how a report ends: the final table and its last line. It takes no memory. After a fault,
/// the only one, which the writer answered, it has taken a beginning of that.
pub fn write_ending<W: Sink>(table: &PlainTable, out: &mut W) -> Result<(), WriteFault>
    ensures ok { PutsAll W.Sink out.old out.new (ending_text table.now.rows) result }
    ensures err { PutsFront W.Sink out.old out.new (ending_text table.now.rows) result }
    ensures asked { OnErr result (IsStopped W.Sink out.new) }
{
    put(out, b"table\n")?;
    put_table(out, table)?;
    put(out, b"end\n")
}

/// Writes the report: the opening rows, each entry of the history, and the final table. It takes no
/// memory. What was written is accepted by whoever checks reports. After a fault, the only one, the
/// writer has taken a beginning of it.
pub fn write_report<W: Sink>(told: &Report, out: &mut W) -> Result<(), WriteFault>
    ensures ok { PutsAll W.Sink out.old out.new (report told.now.opening told.now.labels
        told.now.history told.now.table) result }
    ensures accepted { OnOk result
        (HasVerdict (report told.now.opening told.now.labels told.now.history told.now.table) Yes) }
    ensures err { PutsFront W.Sink out.old out.new (report told.now.opening told.now.labels
        told.now.history told.now.table) result }
    ensures asked { OnErr result (IsStopped W.Sink out.new) }
{
    write_opening(told.opening(), out)?;
    write_entries(told.labels(), told.history(), 0, out)?;
    write_ending(told.table(), out)
}
