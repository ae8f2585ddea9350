//! The states of a history's lines.
ghost use Rattle.std.specs.Prelude.{◌≡◌, ◌+◌, ◌<◌, ◌≤◌, ◌&&◌, ◌||◌, [], ◌∷◌, length, IsTrue, IsFalse, None, Some, OnOk};
ghost use Rattle.indexmap.specs.IndexMap.{get, spare};
ghost use Rattle.serial_spec.specs.History.{History as Entries};
ghost use Rattle.serial_spec.specs.Waits.{is_waits};
ghost use Rattle.event_lists.specs.Views.{seen};
ghost use Rattle.txn_history.specs.Tables.{Place, place_eq, has_closed, is_beyond, place_of, AreLines, KeepsState};

use event_lists::{EntryView, Said};
use indexmap::IndexMap;
use serial_spec::{By, MOST_SESSIONS, NoMemory};
use std::alloc::Global;

/// For each session and line with an entry: the place of that entry, where it is one alone, a
/// `waits`. Else the line is closed, and stays so whatever entries follow.
#[derive(Drop)]
pub(crate) struct LineStates {
    // For each of the first `MOST_SESSIONS` sessions: its lines from 1 to this one are closed.
    // Since most lines are closed one after the other, most states are told and kept without a
    // look-up.
    closed: [u32; MOST_SESSIONS],
    // For each of these sessions: the last line of it that `others` has, or 0. So a new line is
    // told without a look-up too.
    last: [u32; MOST_SESSIONS],
    // The states of all other lines. What it has of a line that was closed since is not asked.
    others: IndexMap<(u32, u32), Option<usize>>,
}

// Whether the line is among those that are closed one after the other. No line is 0.
#[inline(always)]
fn is_closed(closed: &[u32; MOST_SESSIONS], session: u32, line: u32) -> bool
    ensures { result ≡ has_closed closed.now (session, line) }
{
    let at = session as usize;
    at < MOST_SESSIONS && 0 < line && line <= closed[at]
}

// Closes the line by its entry, if that does not wait and all lines of the session before it are
// closed. Whether it did so.
#[inline(always)]
fn close_next(
    closed: &mut [u32; MOST_SESSIONS],
    session: u32,
    line: u32,
    entry: &EntryView<'_>,
) -> bool
    ensures closed { (p : Place) → has_closed closed.new p
        ≡ has_closed closed.old p || (result && place_eq (session, line) p) }
    ensures answer { IsTrue result → IsFalse (is_waits (seen entry.now).answer) }
{
    let at = session as usize;
    if at >= MOST_SESSIONS || line <= closed[at] || line - closed[at] > 1 {
        return false;
    }
    if matches!(entry.said, Said::Waits) {
        return false;
    }
    closed[at] = line;
    true
}

// Whether the line is of one of the first sessions, and after the last line of it.
#[inline(always)]
fn is_after(last: &[u32; MOST_SESSIONS], session: u32, line: u32) -> bool
    ensures { result ≡ is_beyond last.now (session, line) }
{
    let at = session as usize;
    at < MOST_SESSIONS && last[at] < line
}

// Makes the line the last, if it is after the last. Whether it was.
fn raise(last: &mut [u32; MOST_SESSIONS], session: u32, line: u32) -> bool
    ensures was { result ≡ is_beyond last.old (session, line) }
    ensures last { (p : Place) → IsTrue (is_beyond last.new p)
        → IsTrue (is_beyond last.old p) × IsFalse (place_eq (session, line) p) }
{
    if !is_after(last, session, line) {
        return false;
    }
    last[session as usize] = line;
    true
}

// Keeps the state of a line after the entry at this place. A line that is new has none, and is not
// looked up.
fn put(
    others: &mut IndexMap<(u32, u32), Option<usize>>,
    line: (u32, u32),
    is_new: bool,
    entry: &EntryView<'_>,
    place: usize,
)
    requires { 0 < spare others.old }
    ensures states { KeepsState line is_new (seen entry.now) place (get place_eq others.old)
        (get place_eq others.new) }
    ensures room { spare others.old ≤ spare others.new + 1 }
{
    let waits = matches!(entry.said, Said::Waits);
    let state = if waits && (is_new || !others.contains_key(&line)) {
        Some(place)
    } else {
        None
    };
    others.insert(line, state).unwrap();
}

impl LineStates {
    /// No line has an entry.
    pub(crate) fn new(alloc: Global) -> LineStates
        ensures { AreLines [] result }
    {
        LineStates {
            closed: [0; MOST_SESSIONS],
            last: [0; MOST_SESSIONS],
            others: IndexMap::new(alloc),
        }
    }

    /// Makes room for so many more entries.
    pub(crate) fn reserve(&mut self, additional: usize) -> Result<(), NoMemory>
        ensures lines { (h : Entries) → AreLines h self.old → AreLines h self.new }
        ensures ok { OnOk result (additional ≤ spare self.new.others) }
        ensures room { spare self.old.others ≤ spare self.new.others }
    {
        self.others.reserve(additional)?;
        Ok(())
    }

    /// The state of the line.
    #[inline(always)]
    pub(crate) fn at(&self, session: u32, line: u32) -> Option<Option<usize>>
        ensures { (h : Entries) → AreLines h self.now → result ≡ place_of h (session, line) }
    {
        if is_closed(&self.closed, session, line) {
            return Some(None);
        }
        if is_after(&self.last, session, line) {
            return None;
        }
        self.others.get(&(session, line)).copied()
    }

    /// Notes an entry that gets this place. It takes no memory.
    #[inline(always)]
    pub(crate) fn note(&mut self, entry: &EntryView<'_>, place: usize)
        requires { 0 < spare self.old.others }
        ensures lines { (h : Entries) → length h ≡ place → AreLines h self.old
            → AreLines (seen entry.now ∷ h) self.new }
        ensures room { spare self.old.others ≤ spare self.new.others + 1 }
    {
        let By::Line { session, line } = entry.by else {
            return;
        };
        if is_closed(&self.closed, session, line) {
            return;
        }
        if close_next(&mut self.closed, session, line, entry) {
            return;
        }
        let is_new = raise(&mut self.last, session, line);
        put(&mut self.others, (session, line), is_new, entry, place);
    }
}
