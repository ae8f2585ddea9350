//! The text of a verdict.
ghost use Rattle.std.specs.Prelude.{◌++◌, codes, decimal, OnErr};
ghost use Rattle.txn_bytes.specs.Written.{IsStopped, PutsAll, PutsFront};
ghost use Rattle.line_language.specs.Report.{line};
ghost use Rattle.report_text.specs.Verdicts.{spelled_verdict};

use line_language::put_size;
use report_check::Verdict;
use txn_bytes::{Sink, WriteFault, put};

fn put_no<W: Sink>(out: &mut W, number: usize) -> Result<(), WriteFault>
    ensures ok { PutsAll W.Sink out.old out.new (line (codes "no " ++ decimal number)) result }
    ensures err { PutsFront W.Sink out.old out.new (line (codes "no " ++ decimal number)) result }
    ensures asked { OnErr result (IsStopped W.Sink out.new) }
{
    put(out, b"no ")?;
    put_size(out, number)?;
    put(out, b"\n")
}

/// Writes the verdict as a line: `yes`, or `no` and the number of the line that has the first
/// fault. It takes no memory. After a fault, the only one, which the writer answered, it has taken
/// a beginning of that line.
pub fn write_verdict<W: Sink>(verdict: Verdict, out: &mut W) -> Result<(), WriteFault>
    ensures ok { PutsAll W.Sink out.old out.new (spelled_verdict verdict) result }
    ensures err { PutsFront W.Sink out.old out.new (spelled_verdict verdict) result }
    ensures asked { OnErr result (IsStopped W.Sink out.new) }
{
    match verdict {
        Verdict::Yes => put(out, b"yes\n"),
        Verdict::No(number) => put_no(out, number),
    }
}
