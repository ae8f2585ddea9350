//! Entries of a report, read and spelled.
ghost use Rattle.std.specs.Prelude.{◌≡◌, [], ◌++◌, None, OnErr, codes, decimal, slice_get, unwrap_or};
ghost use Rattle.std.specs.Option.{option_copied, option_map};
ghost use Rattle.std.specs.Str.{bytes_eq};
ghost use Rattle.txn_bytes.specs.Written.{IsStopped, PutsAll, PutsFront};
ghost use Rattle.txn_names.specs.Text.{spelled_name};
ghost use Rattle.serial_spec.specs.declared.entry.By.TheVariants.{Line};
ghost use Rattle.event_lists.specs.Views.{asked, seen};
ghost use Rattle.line_language.specs.Report.{entry_text, name_in, spelled_entry};
ghost use Rattle.line_language.specs.Reading.{abort_of, before_dash, behind_space, count_of, entry_of, line_entry_of, sides_of, star_entry_of, told_of};

use crate::answer::{answer_of, may_answer};
use crate::line::parse_event;
use crate::number::parse_number;
use crate::parting::cut;
use crate::spelling::{put_answer, put_count, put_event, put_named};
use event_lists::{Act, EntryView, EventView};
use serial_spec::{Answer, By, Event, MOST_LINES};
use txn_bytes::{Sink, WriteFault, put};
use txn_names::{Label, Name};

/// What an entry of a report says.
#[derive(Clone, Copy, Debug, PartialEq, Eq)]
pub enum ReportEntry {
    /// The answer of a line, or that it waits: the session's label, the number of the line from 1,
    /// what the line asks.
    Line {
        label: Label,
        line: u32,
        event: Event,
        answer: Answer,
    },
    /// A victim of a cycle of waits.
    Victim(Name),
    /// A transaction that the close aborted.
    Close(Name),
}

// What stands behind a space at the front.
fn behind_space(bytes: &[u8]) -> Option<&[u8]>
    ensures { option_copied result ≡ behind_space bytes.now }
{
    match bytes {
        [b' ', rest @ ..] => Some(rest),
        _ => None,
    }
}

fn is_dash(end: &[u8]) -> bool
    ensures { result ≡ bytes_eq end.now (codes " -") }
{
    matches!(end, b" -")
}

// What stands before a space and a `-` at the end.
fn before_dash(bytes: &[u8]) -> Option<&[u8]>
    ensures { option_copied result ≡ before_dash bytes.now }
{
    let (text, end) = bytes.split_at(bytes.len().saturating_sub(2));
    if is_dash(end) { Some(text) } else { None }
}

// Both sides of the arrow.
fn sides_of(bytes: &[u8]) -> Option<(&[u8], &[u8])>
    ensures { option_map (λ s. (s.0.now, s.1.now)) result ≡ sides_of bytes.now }
{
    let (front, rest) = cut(bytes, b'>');
    let text = before_dash(front)?;
    let answer = behind_space(rest?)?;
    Some((text, answer))
}

fn count_of(number: i64) -> Option<u32>
    ensures { result ≡ count_of number }
{
    let count = u32::try_from(number).ok()?;
    if 1 <= count && count as usize <= MOST_LINES {
        Some(count)
    } else {
        None
    }
}

// The entry is put where the caller keeps it: it is large, and would be moved at each return.
fn tell(label: Label, line: u32, bytes: &[u8], entry: &mut Option<ReportEntry>)
    requires { entry.old ≡ None }
    ensures { entry.new ≡ told_of label line bytes.now }
{
    let Some((text, answer)) = sides_of(bytes) else {
        return;
    };
    let event = &parse_event(text);
    let answer = &answer_of(answer);
    if let (Ok(event), Some(answer)) = (event, answer) {
        if may_answer(event, answer) {
            *entry = Some(ReportEntry::Line {
                label,
                line,
                event: *event,
                answer: *answer,
            });
        }
    }
}

// A line's answer or wait.
fn tell_line(bytes: &[u8], entry: &mut Option<ReportEntry>)
    requires { entry.old ≡ None }
    ensures { entry.new ≡ line_entry_of bytes.now }
{
    let (word, rest) = cut(bytes, b' ');
    let Ok(label) = Label::parse(word) else {
        return;
    };
    let Some(rest) = rest else {
        return;
    };
    let (number, rest) = cut(rest, b' ');
    let Some(number) = parse_number(number) else {
        return;
    };
    let Some(line) = count_of(number) else {
        return;
    };
    if let Some(rest) = rest {
        tell(label, line, rest, entry);
    }
}

// What stands behind the star of a victim or of the close.
fn abort_of(bytes: &[u8]) -> Option<ReportEntry>
    ensures { result ≡ abort_of bytes.now }
{
    let (word, rest) = cut(bytes, b' ');
    let name = Name::parse(rest?).ok()?;
    if word == b"victim".as_slice() {
        return Some(ReportEntry::Victim(name));
    }
    if word == b"close".as_slice() {
        return Some(ReportEntry::Close(name));
    }
    None
}

// The same, put where the caller keeps it. It is rare, and read apart: a call makes room for all
// that is read in it.
#[inline(never)]
fn tell_abort(bytes: &[u8], entry: &mut Option<ReportEntry>)
    ensures { entry.new ≡ abort_of bytes.now }
{
    *entry = abort_of(bytes);
}

/// The entry that the bytes spell, a line of a report without its line feed:
/// `LABEL LINE TEXT -> REPLY`, `* victim N` or `* close N`. The reply is one that a line of such a
/// text may have; whether it has its cause is not asked.
pub fn parse_entry(bytes: &[u8]) -> Option<ReportEntry>
    ensures { result ≡ entry_of bytes.now }
{
    let mut entry = None;
    read_entry(bytes, &mut entry);
    entry
}

/// The same, put where the caller keeps it, in place of what was there: an entry is large, and is
/// moved when it is returned.
pub fn read_entry(bytes: &[u8], entry: &mut Option<ReportEntry>)
    ensures { entry.new ≡ entry_of bytes.now }
{
    *entry = None;
    if let (b"*", rest) = cut(bytes, b' ') {
        if let Some(rest) = rest {
            tell_abort(rest, entry);
        }
        return;
    }
    tell_line(bytes, entry);
}

fn put_label<W: Sink>(out: &mut W, labels: &[Label], session: u32) -> Result<(), WriteFault>
    ensures ok { PutsAll W.Sink out.old out.new (unwrap_or (slice_get labels.now session) [])
        result }
    ensures err { PutsFront W.Sink out.old out.new (unwrap_or (slice_get labels.now session) [])
        result }
    ensures asked { OnErr result (IsStopped W.Sink out.new) }
{
    match labels.get(session as usize) {
        Some(label) => put(out, label.as_bytes()),
        None => Ok(()),
    }
}

// The session's label and the number of the line.
fn put_place<W: Sink>(
    out: &mut W,
    labels: &[Label],
    session: u32,
    number: u32,
) -> Result<(), WriteFault>
    ensures ok { PutsAll W.Sink out.old out.new (unwrap_or (slice_get labels.now session) [] ++
        codes " " ++ decimal number) result }
    ensures err { PutsFront W.Sink out.old out.new (unwrap_or (slice_get labels.now session) [] ++
        codes " " ++ decimal number) result }
    ensures asked { OnErr result (IsStopped W.Sink out.new) }
{
    put_label(out, labels, session)?;
    put(out, b" ")?;
    put_count(out, number)
}

// A line's answer or wait.
fn put_answered<W: Sink>(
    out: &mut W,
    labels: &[Label],
    session: u32,
    number: u32,
    entry: &EntryView<'_>,
) -> Result<(), WriteFault>
    // Wide: an entry of a line, by the parts of its place.
    ensures ok { PutsAll W.Sink out.old out.new (spelled_entry labels.now (Line session number)
        (seen entry.now).event (seen entry.now).answer) result }
    // Wide: the same.
    ensures err { PutsFront W.Sink out.old out.new (spelled_entry labels.now (Line session number)
        (seen entry.now).event (seen entry.now).answer) result }
    ensures asked { OnErr result (IsStopped W.Sink out.new) }
{
    put_place(out, labels, session, number)?;
    put(out, b" ")?;
    put_event(out, &entry.event)?;
    put(out, b" -> ")?;
    put_answer(out, entry.said, entry.top)
}

// A word with its space, and the name of an abort.
fn put_aborted<W: Sink>(out: &mut W, word: &[u8], event: &EventView<'_>) -> Result<(), WriteFault>
    ensures ok { PutsAll W.Sink out.old out.new
        (word.now ++ spelled_name (name_in (asked event.now))) result }
    ensures err { PutsFront W.Sink out.old out.new
        (word.now ++ spelled_name (name_in (asked event.now))) result }
    ensures asked { OnErr result (IsStopped W.Sink out.new) }
{
    match event.act {
        Act::Abort => put_named(out, word, event.name),
        _ => put(out, word),
    }
}

/// Writes an entry as a line of a report without its line feed, with the label of its session. It
/// takes no memory. After a fault, the only one, the writer has taken a beginning of that.
pub fn put_entry<W: Sink>(
    out: &mut W,
    labels: &[Label],
    entry: &EntryView<'_>,
) -> Result<(), WriteFault>
    ensures ok { PutsAll W.Sink out.old out.new (entry_text labels.now (seen entry.now)) result }
    ensures err { PutsFront W.Sink out.old out.new (entry_text labels.now (seen entry.now)) result }
    ensures asked { OnErr result (IsStopped W.Sink out.new) }
{
    match entry.by {
        By::Line {
            session,
            line: number,
        } => put_answered(out, labels, session, number, entry),
        By::Victim => put_aborted(out, b"* victim ", &entry.event),
        By::Close => put_aborted(out, b"* close ", &entry.event),
    }
}
