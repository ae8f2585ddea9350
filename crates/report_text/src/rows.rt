//! The rows of a table, each with the number of the commit that set it.
ghost use Rattle.std.specs.Prelude.{OnErr};
ghost use Rattle.txn_bytes.specs.Written.{IsStopped, PutsAll, PutsFront};
ghost use Rattle.line_language.specs.Report.{line};
ghost use Rattle.report_text.specs.Rows.{numbered_row, numbered_rows};

use crate::line_buffer::LineBuffer;
use durable_top::Row;
use line_language::{put_number, put_row};
use txn_bytes::{Sink, WriteFault, put};

// The row as in a report, a space and the number.
fn put_numbered<W: Sink>(out: &mut W, row: &Row) -> Result<(), WriteFault>
    ensures ok { PutsAll W.Sink out.old out.new (numbered_row row.now) result }
    ensures err { PutsFront W.Sink out.old out.new (numbered_row row.now) result }
    ensures asked { OnErr result (IsStopped W.Sink out.new) }
{
    put_row(out, &row.key, row.value)?;
    put(out, b" ")?;
    put_number(out, row.commit)
}

// The line of a row, one part after another.
fn put_numbered_parts<W: Sink>(out: &mut W, row: &Row) -> Result<(), WriteFault>
    ensures ok { PutsAll W.Sink out.old out.new (line (numbered_row row.now)) result }
    ensures err { PutsFront W.Sink out.old out.new (line (numbered_row row.now)) result }
    ensures asked { OnErr result (IsStopped W.Sink out.new) }
{
    put_numbered(out, row)?;
    put(out, b"\n")
}

// The line of a row, spelled in the buffer and handed on at once.
fn put_numbered_line<W: Sink>(
    out: &mut W,
    buffer: &mut LineBuffer,
    row: &Row,
) -> Result<(), WriteFault>
    ensures ok { PutsAll W.Sink out.old out.new (line (numbered_row row.now)) result }
    ensures err { PutsFront W.Sink out.old out.new (line (numbered_row row.now)) result }
    ensures asked { OnErr result (IsStopped W.Sink out.new) }
{
    buffer.clear();
    match put_numbered_parts(buffer, row) {
        Ok(()) => put(out, buffer.as_bytes()),
        Err(WriteFault) => put_numbered_parts(out, row),
    }
}

/// Writes each row as a line: the key, an equals sign, the value, a space and the number of the
/// commit that set it. It takes no memory. After a fault, the only one, which the writer answered,
/// it has taken a beginning of these lines.
pub fn write_rows<W: Sink>(rows: &[Row], out: &mut W) -> Result<(), WriteFault>
    ensures ok { PutsAll W.Sink out.old out.new (numbered_rows rows.now) result }
    ensures err { PutsFront W.Sink out.old out.new (numbered_rows rows.now) result }
    ensures asked { OnErr result (IsStopped W.Sink out.new) }
{
    let mut buffer = LineBuffer::new();
    for row in rows {
        put_numbered_line(out, &mut buffer, row)?;
    }
    Ok(())
}
