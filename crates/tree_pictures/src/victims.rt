//! The ends of victims, which stand on their bars.
ghost use Rattle.std.specs.Prelude.{◌≡◌, ◌++◌, ◌+◌, ◌<◌, ◌≤◌, ◌^◌, length, OnOk};
ghost use Rattle.tree_pictures.specs.Marks.{cross, cross_of, crosses, spans, waiting_at};

use crate::scale::{Scale, plus};
use crate::text::put_point;
use report_trees::{Ending, Outcome, Shown, Wait};
use serial_spec::NoMemory;
use tree_lines::{put_bytes, put_counted};

// Whether the wait began before the entry, and was not answered before it.
fn spans(entry: usize, wait: &Wait) -> bool
    ensures { result ≡ spans entry wait.now }
{
    wait.from < entry && entry <= wait.to
}

// How many of the waits do so.
fn waiting_at(entry: usize, waits: &[Wait]) -> usize
    requires { length waits.now < 2 ^ 63 }
    ensures { result ≡ waiting_at entry waits.now }
{
    let mut count = 0;
    let mut rest = waits;
    while let [first, behind @ ..] = rest {
        if spans(entry, first) {
            count += 1;
        }
        rest = behind;
    }
    count
}

// Adds a cross where a victim ends, when so many accesses waited.
fn put_cross(
    out: &mut Vec<u8>,
    scale: &Scale,
    row: usize,
    entry: usize,
    waiting: usize,
) -> Result<(), NoMemory>
    ensures { OnOk result (out.new.items ≡ out.old.items ++ cross scale.now row entry waiting) }
{
    put_bytes(
        out,
        b"<path class=\"cross\" d=\"M-4-4L4 4M-4 4L4-4\" transform=\"translate(",
    )?;
    put_point(out, scale.x(entry), plus(scale.y(row), 85))?;
    put_bytes(out, b")\"><title>undone to break a cycle of waits")?;
    put_counted(out, b"; line ", scale.line(entry))?;
    put_counted(out, b"; waiting then: ", waiting as u64)?;
    put_bytes(out, b"</title></path>\n")
}

// Adds a cross where the transaction is a victim.
fn put_cross_of(
    out: &mut Vec<u8>,
    scale: &Scale,
    waits: &[Wait],
    row: usize,
    outcome: Outcome,
    ended: Option<usize>,
) -> Result<(), NoMemory>
    requires { length waits.now < 2 ^ 63 }
    ensures { OnOk result
        (out.new.items ≡ out.old.items ++ cross_of scale.now waits.now row outcome ended) }
{
    match outcome {
        Outcome::Undone(Ending::Victim) => match ended {
            Some(entry) => put_cross(out, scale, row, entry, waiting_at(entry, waits)),
            None => Ok(()),
        },
        Outcome::Undone(Ending::Request) => Ok(()),
        Outcome::Undone(Ending::Close) => Ok(()),
        Outcome::Committed => Ok(()),
        Outcome::WithParent => Ok(()),
        Outcome::AfterCommit => Ok(()),
        Outcome::Live => Ok(()),
    }
}

/// Adds the ends of victims among these transactions, the first of which has this row. The only
/// error is that memory runs out.
pub(crate) fn put_crosses(
    out: &mut Vec<u8>,
    scale: &Scale,
    waits: &[Wait],
    row: usize,
    shown: &[Shown],
) -> Result<(), NoMemory>
    requires fits { row + length shown.now < 2 ^ 64 }
    requires waits { length waits.now < 2 ^ 63 }
    ensures { OnOk result
        (out.new.items ≡ out.old.items ++ crosses scale.now waits.now row shown.now) }
{
    let mut at = row;
    let mut rest = shown;
    while let [first, behind @ ..] = rest {
        put_cross_of(out, scale, waits, at, first.outcome, first.ended)?;
        at += 1;
        rest = behind;
    }
    Ok(())
}
