//! The lines of a report, one by one, to what its entries did.
ghost use Rattle.std.specs.Prelude.{◌≡◌, [], codes, Ok, IfOk, OnOk};
ghost use Rattle.std.specs.Str.{bytes_eq};
ghost use Rattle.line_language.specs.Reading.{row_of};
ghost use Rattle.report_check.specs.Passing.{Read, middle_next, next, opening_next, read};
ghost use Rattle.report_marks.specs.Noted.{IsNoted, NotesAbort, NotesEntry, NotesLine, Reaches, stage_of};

use crate::deeds::{Deed, Doer, Mark};
use crate::marking::{abort_deed, deed_of};
use crate::numbering::{number_begun, number_of, session_of};
use indexmap::IndexSet;
use line_language::{ReportEntry, cut_line, parse_row, read_entry};
use serial_spec::{Answer, Event, NoMemory};
use std::alloc::Global;
use txn_names::{Label, Name};

/// What the entries of a report did.
#[derive(Drop)]
pub struct Notes {
    /// The labels of the sessions, in the order in which they are first named.
    pub labels: IndexSet<Label>,
    /// The transactions that began, each once, in order of beginning.
    pub names: IndexSet<Name>,
    /// What the entries did, the first one first.
    pub marks: Vec<Mark>,
    /// How many opening rows stand before the entries. So the entry with the number n, from 0, is
    /// in line 2 + rows + n.
    pub rows: usize,
}

/// Which part of a report the next line is of.
#[derive(Clone, Copy, Debug, PartialEq, Eq)]
pub(crate) enum Stage {
    Start,
    Rows,
    Entries,
    Behind,
}

impl Notes {
    /// Of no lines. It takes no memory.
    pub(crate) fn new(alloc: Global) -> Notes
        ensures labels { result.labels.keys ≡ [] }
        ensures names { result.names.keys ≡ [] }
        ensures marks { result.marks.items ≡ [] }
        ensures rows { result.rows ≡ 0 }
    {
        Notes {
            labels: IndexSet::new(alloc),
            names: IndexSet::new(alloc),
            marks: Vec::new(alloc),
            rows: 0,
        }
    }
}

// A line's answer or wait.
fn note_answer(
    notes: &mut Notes,
    label: &Label,
    event: &Event,
    answer: &Answer,
) -> Result<(), NoMemory>
    ensures { OnOk result (NotesLine notes.old label.now event.now answer.now notes.new) }
{
    let session = session_of(&mut notes.labels, label)?;
    number_begun(&mut notes.names, event, answer)?;
    let deed = deed_of(&notes.names, event, answer);
    notes.marks.push(Mark {
        by: Doer::Session(session),
        deed,
    })?;
    Ok(())
}

// An abort that no line asked for.
fn note_abort(notes: &mut Notes, by: Doer, name: &Name) -> Result<(), NoMemory>
    ensures { OnOk result (NotesAbort notes.old by name.now notes.new) }
{
    let deed = abort_deed(number_of(&notes.names, name));
    notes.marks.push(Mark { by, deed })?;
    Ok(())
}

fn note_entry(notes: &mut Notes, entry: &ReportEntry) -> Result<(), NoMemory>
    ensures { OnOk result (NotesEntry notes.old entry.now notes.new) }
{
    match entry {
        ReportEntry::Line {
            label,
            line: _,
            event,
            answer,
        } => note_answer(notes, label, event, answer),
        ReportEntry::Victim(name) => note_abort(notes, Doer::Victim, name),
        ReportEntry::Close(name) => note_abort(notes, Doer::Close, name),
    }
}

fn is_table(line: &[u8]) -> bool
    ensures { result ≡ bytes_eq line.now (codes "table") }
{
    line == b"table".as_slice()
}

// An entry, or the line `table`.
fn note_middle(notes: &mut Notes, line: &[u8]) -> Result<Stage, NoMemory>
    ensures { IfOk result (λ g. (r : Read) → IsNoted r notes.old
        → Reaches (middle_next r line.now) g notes.new) }
{
    if is_table(line) {
        return Ok(Stage::Behind);
    }
    let mut entry = None;
    read_entry(line, &mut entry);
    if let Some(entry) = &entry {
        note_entry(notes, entry)?;
    }
    Ok(Stage::Entries)
}

// An opening row, or what may stand behind the opening rows.
fn note_opening(notes: &mut Notes, line: &[u8]) -> Result<Stage, NoMemory>
    ensures { IfOk result (λ g. (r : Read) → IsNoted r notes.old
        → Reaches (opening_next r line.now (row_of line.now)) g notes.new) }
{
    match parse_row(line) {
        Some(_) => {
            notes.rows = notes.rows.saturating_add(1);
            Ok(Stage::Rows)
        }
        None => note_middle(notes, line),
    }
}

// The next line. It gives the part of the line behind it.
fn note_next(notes: &mut Notes, stage: Stage, line: &[u8]) -> Result<Stage, NoMemory>
    ensures { IfOk result (λ g. (r : Read) → IsNoted r notes.old → stage ≡ stage_of r.part
        → Reaches (next r line.now) g notes.new) }
{
    match stage {
        Stage::Start => Ok(Stage::Rows),
        Stage::Rows => note_opening(notes, line),
        Stage::Entries => note_middle(notes, line),
        Stage::Behind => Ok(Stage::Behind),
    }
}

/// What the entries of these bytes did, where they are a report. The only error is that memory
/// runs out.
pub fn notes_of(alloc: Global, bytes: &[u8]) -> Result<Notes, NoMemory>
    ensures { IfOk result (λ x. (r : Read) → read bytes.now ≡ Ok r → IsNoted r x) }
{
    let mut notes = Notes::new(alloc);
    let mut stage = Stage::Start;
    let mut rest = bytes;
    'lines: loop {
        let (line, behind) = cut_line(rest);
        match behind {
            Some(next) => {
                stage = note_next(&mut notes, stage, line)?;
                rest = next;
            }
            None => return Ok(notes),
        }
    }
}
