//! The lines of a report.
ghost use Rattle.std.specs.Prelude.{◌≡◌, [], ◌++◌, codes, drop, reverse, slice_get, OnErr, OnOk};
ghost use Rattle.txn_bytes.specs.Written.{IsStopped, PutsAll, PutsFront};
ghost use Rattle.line_language.specs.Printing.{spelled_number};
ghost use Rattle.event_lists.specs.Views.{seen};
ghost use Rattle.report_text.specs.inner.Batched.{BatchesAll};
ghost use Rattle.report_text.specs.Lines.{entry_line, lines_at, row_lines};
ghost use Rattle.line_language.specs.Report.{line, spelled_history, spelled_rows};

use crate::line_buffer::{LineBatch, LineBuffer};
use event_lists::{Entries, EntryView};
use line_language::{put_entry, put_row};
use serial_spec::PlainTable;
use txn_bytes::{Sink, WriteFault, put};
use txn_names::{Key, Label};

// The line of a row, one part after another.
fn put_row_parts<W: Sink>(out: &mut W, key: &Key, value: i64) -> Result<(), WriteFault>
    ensures ok { PutsAll W.Sink out.old out.new (line (key.now ++ codes "=" ++ spelled_number
        value)) result }
    ensures err { PutsFront W.Sink out.old out.new (line (key.now ++ codes "=" ++ spelled_number
        value)) result }
    ensures asked { OnErr result (IsStopped W.Sink out.new) }
{
    put_row(out, key, value)?;
    put(out, b"\n")
}

// The line of a row, spelled in the buffer and handed on at once.
pub(crate) fn put_row_line<W: Sink>(
    out: &mut W,
    buffer: &mut LineBuffer,
    key: &Key,
    value: i64,
) -> Result<(), WriteFault>
    ensures ok { PutsAll W.Sink out.old out.new (line (key.now ++ codes "=" ++ spelled_number
        value)) result }
    ensures err { PutsFront W.Sink out.old out.new (line (key.now ++ codes "=" ++ spelled_number
        value)) result }
    ensures asked { OnErr result (IsStopped W.Sink out.new) }
{
    buffer.clear();
    match put_row_parts(buffer, key, value) {
        Ok(()) => put(out, buffer.as_bytes()),
        Err(WriteFault) => put_row_parts(out, key, value),
    }
}

// The row at this place, if there is one.
fn put_row_at<W: Sink>(
    out: &mut W,
    buffer: &mut LineBuffer,
    table: &PlainTable,
    place: usize,
) -> Result<(), WriteFault>
    ensures ok { PutsAll W.Sink out.old out.new (row_lines (slice_get table.now.rows place)) result }
    ensures err { PutsFront W.Sink out.old out.new (row_lines (slice_get table.now.rows place))
        result }
    ensures asked { OnErr result (IsStopped W.Sink out.new) }
{
    match table.at(place) {
        Some((key, value)) => put_row_line(out, buffer, key, value),
        None => Ok(()),
    }
}

pub(crate) fn put_table<W: Sink>(out: &mut W, table: &PlainTable) -> Result<(), WriteFault>
    ensures ok { PutsAll W.Sink out.old out.new (spelled_rows table.now.rows) result }
    ensures err { PutsFront W.Sink out.old out.new (spelled_rows table.now.rows) result }
    ensures asked { OnErr result (IsStopped W.Sink out.new) }
{
    let mut buffer = LineBuffer::new();
    for place in 0..table.len() {
        put_row_at(out, &mut buffer, table, place)?;
    }
    Ok(())
}

// The line of an entry, one part after another.
fn put_entry_parts<W: Sink>(
    out: &mut W,
    labels: &[Label],
    entry: &EntryView<'_>,
) -> Result<(), WriteFault>
    ensures ok { PutsAll W.Sink out.old out.new (entry_line labels.now (seen entry.now)) result }
    ensures err { PutsFront W.Sink out.old out.new (entry_line labels.now (seen entry.now)) result }
    ensures asked { OnErr result (IsStopped W.Sink out.new) }
{
    put_entry(out, labels, entry)?;
    put(out, b"\n")
}

// The same, for a line that finds no room among those that are held. Few do, so that this is no part of its
// caller.
#[inline(never)]
fn put_entry_apart<W: Sink>(
    out: &mut W,
    labels: &[Label],
    entry: &EntryView<'_>,
) -> Result<(), WriteFault>
    ensures ok { PutsAll W.Sink out.old out.new (entry_line labels.now (seen entry.now)) result }
    ensures err { PutsFront W.Sink out.old out.new (entry_line labels.now (seen entry.now)) result }
    ensures asked { OnErr result (IsStopped W.Sink out.new) }
{
    put_entry_parts(out, labels, entry)
}

// Hands on the lines that are held.
fn hand_on<W: Sink>(out: &mut W, batch: &mut LineBatch) -> Result<(), WriteFault>
    ensures ok { PutsAll W.Sink out.old out.new batch.old result }
    ensures none { OnOk result (batch.new ≡ []) }
    ensures err { PutsFront W.Sink out.old out.new batch.old result }
    ensures asked { OnErr result (IsStopped W.Sink out.new) }
{
    put(out, batch.as_bytes())?;
    batch.clear();
    Ok(())
}

// The line of an entry, spelled behind those that are held. Where there is no room for it, they are
// handed on, and then its parts.
#[inline(always)]
fn put_entry_line<W: Sink>(
    out: &mut W,
    batch: &mut LineBatch,
    labels: &[Label],
    entry: &EntryView<'_>,
) -> Result<(), WriteFault>
    ensures ok { BatchesAll W.Sink (out.old, batch.old) (out.new, batch.new)
        (entry_line labels.now (seen entry.now)) result }
    ensures err { PutsFront W.Sink out.old out.new
        (batch.old ++ entry_line labels.now (seen entry.now)) result }
    ensures asked { OnErr result (IsStopped W.Sink out.new) }
{
    let held = batch.len();
    if put_entry_parts(batch, labels, entry).is_ok() {
        return Ok(());
    }
    batch.truncate(held);
    hand_on(out, batch)?;
    put_entry_apart(out, labels, entry)
}

// The line of the entry at this place, if there is one.
#[inline(always)]
fn put_entry_at<W: Sink>(
    out: &mut W,
    batch: &mut LineBatch,
    labels: &[Label],
    entries: &Entries,
    place: usize,
) -> Result<(), WriteFault>
    ensures ok { BatchesAll W.Sink (out.old, batch.old) (out.new, batch.new)
        (lines_at labels.now entries.now.entries place) result }
    ensures err { PutsFront W.Sink out.old out.new
        (batch.old ++ lines_at labels.now entries.now.entries place) result }
    ensures asked { OnErr result (IsStopped W.Sink out.new) }
{
    match entries.get(place) {
        Some(entry) => put_entry_line(out, batch, labels, &entry),
        None => Ok(()),
    }
}

/// The entries behind the first so many, the oldest first.
pub(crate) fn put_history<W: Sink>(
    out: &mut W,
    labels: &[Label],
    entries: &Entries,
    told: usize,
) -> Result<(), WriteFault>
    ensures ok { PutsAll W.Sink out.old out.new
        (spelled_history labels.now (reverse (drop told entries.now.entries))) result }
    ensures err { PutsFront W.Sink out.old out.new
        (spelled_history labels.now (reverse (drop told entries.now.entries))) result }
    ensures asked { OnErr result (IsStopped W.Sink out.new) }
{
    let mut batch = LineBatch::new();
    let left = entries.len().saturating_sub(told);
    for place in 0..left {
        put_entry_at(out, &mut batch, labels, entries, told + place)?;
    }
    hand_on(out, &mut batch)
}
