//! The summary of a report.
ghost use Rattle.std.specs.Prelude.{◌≡◌, ◌<◌, ◌^◌, ◌++◌, codes, length, IfOk, OnOk};
ghost use Rattle.line_language.specs.Report.{line};
ghost use Rattle.tree_lines.specs.Counts.{counted, marked};
ghost use Rattle.tree_lines.specs.Shows.{counted_words, job_line, kind_line, lead, part_line, refused_by, refused_line, refused_words, spelled_show, summary_lines};

use crate::counting::{Group, Kind, counted, marked};
use crate::lining::{Choice, put_lines};
use crate::spelling::{put_bytes, put_counted};
use line_language::{Cause, cause_word, causes};
use report_marks::{Mark, Notes};
use report_trees::{Shown, Tree};
use serial_spec::NoMemory;
use std::alloc::Global;

// Adds words and how many transactions are of the group.
fn put_group(out: &mut Vec<u8>, words: &[u8], group: Group, shown: &[Shown]) -> Result<(), NoMemory>
    requires { length shown.now < 2 ^ 63 }
    ensures { OnOk result
        (out.new.items ≡ out.old.items ++ counted_words words.now (counted group shown.now)) }
{
    put_counted(out, words, counted(group, shown) as u64)
}

// Adds words and how many entries are of the kind.
fn put_kind(out: &mut Vec<u8>, words: &[u8], kind: Kind, marks: &[Mark]) -> Result<(), NoMemory>
    requires { length marks.now < 2 ^ 63 }
    ensures { OnOk result
        (out.new.items ≡ out.old.items ++ counted_words words.now (marked kind marks.now)) }
{
    put_counted(out, words, marked(kind, marks) as u64)
}

fn put_job_line(out: &mut Vec<u8>, shown: &[Shown]) -> Result<(), NoMemory>
    requires { length shown.now < 2 ^ 63 }
    ensures { OnOk result (out.new.items ≡ out.old.items ++ line (job_line shown.now)) }
{
    put_group(out, b"jobs: committed ", Group::JobsCommitted, shown)?;
    put_group(out, b", undone ", Group::JobsUndone, shown)?;
    put_bytes(out, b"\n")
}

fn put_part_line(out: &mut Vec<u8>, shown: &[Shown]) -> Result<(), NoMemory>
    requires { length shown.now < 2 ^ 63 }
    ensures { OnOk result (out.new.items ≡ out.old.items ++ line (part_line shown.now)) }
{
    put_group(out, b"parts: committed ", Group::PartsCommitted, shown)?;
    put_group(out, b", undone ", Group::PartsUndone, shown)?;
    put_group(out, b", tried again ", Group::PartsAgain, shown)?;
    put_bytes(out, b"\n")
}

fn put_kind_line(
    out: &mut Vec<u8>,
    words: &[u8],
    kind: Kind,
    marks: &[Mark],
) -> Result<(), NoMemory>
    requires { length marks.now < 2 ^ 63 }
    ensures { OnOk result
        (out.new.items ≡ out.old.items ++ line (kind_line words.now kind marks.now)) }
{
    put_kind(out, words, kind, marks)?;
    put_bytes(out, b"\n")
}

// What stands before a cause: the first one stands right behind the colon.
fn lead(cause: Cause) -> &'static [u8]
    ensures { result.now ≡ lead cause }
{
    match cause {
        Cause::Unknown => b" ".as_slice(),
        _ => b", ".as_slice(),
    }
}

// Adds the cause and how many entries were refused so.
fn put_refused(out: &mut Vec<u8>, cause: Cause, marks: &[Mark]) -> Result<(), NoMemory>
    requires { length marks.now < 2 ^ 63 }
    ensures { OnOk result (out.new.items ≡ out.old.items ++ refused_words cause marks.now) }
{
    put_bytes(out, lead(cause))?;
    put_bytes(out, cause_word(cause))?;
    put_kind(out, b" ", Kind::Refused(cause), marks)
}

// The same of each of these causes.
fn put_causes(out: &mut Vec<u8>, causes: &[Cause], marks: &[Mark]) -> Result<(), NoMemory>
    requires { length marks.now < 2 ^ 63 }
    ensures { OnOk result (out.new.items ≡ out.old.items ++ refused_by causes.now marks.now) }
{
    let mut rest = causes;
    while let [cause, behind @ ..] = rest {
        put_refused(out, *cause, marks)?;
        rest = behind;
    }
    Ok(())
}

fn put_refused_line(out: &mut Vec<u8>, marks: &[Mark]) -> Result<(), NoMemory>
    requires { length marks.now < 2 ^ 63 }
    ensures { OnOk result (out.new.items ≡ out.old.items ++ line (refused_line marks.now)) }
{
    put_bytes(out, b"refused:")?;
    put_causes(out, &causes(), marks)?;
    put_bytes(out, b"\n")
}

/// Adds the summary. The only error is that memory runs out.
pub fn put_summary(out: &mut Vec<u8>, shown: &[Shown], marks: &[Mark]) -> Result<(), NoMemory>
    requires shown { length shown.now < 2 ^ 63 }
    requires marks { length marks.now < 2 ^ 63 }
    ensures { OnOk result
        (out.new.items ≡ out.old.items ++ summary_lines shown.now marks.now) }
{
    put_job_line(out, shown)?;
    put_part_line(out, shown)?;
    put_kind_line(out, b"victims: ", Kind::Victim, marks)?;
    put_refused_line(out, marks)?;
    put_kind_line(out, b"stuck: ", Kind::Stuck, marks)?;
    put_kind_line(out, b"waits: ", Kind::Waits, marks)
}

/// What is printed of these notes, of which this is the tree. The only error is that memory runs
/// out.
pub fn show_of(
    alloc: Global,
    notes: &Notes,
    tree: &Tree,
    choice: Choice,
) -> Result<Vec<u8>, NoMemory>
    ensures { IfOk result (λ bytes. bytes.items ≡ spelled_show choice notes.now.names.keys
        tree.now.shown.items notes.now.marks.items) }
{
    let mut out = Vec::new(alloc);
    put_lines(alloc, &mut out, &notes.names, choice, &tree.shown)?;
    put_summary(&mut out, &tree.shown, &notes.marks)?;
    Ok(out)
}
