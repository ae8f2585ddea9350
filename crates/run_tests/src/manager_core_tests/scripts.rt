//! Scripts, and what plays them over a manager under watch.
use crate::manager_core_tests::watched::{
    NOT_STORED, Watched, are, is_answered, is_closed, is_held,
};
use durable_top::{MemStore, Row, TopStore, are_numbered, are_rising};
use line_language::{ReportEntry, parse_entry, parse_number, parse_row};
use manager_core::{Manager, Parts};
use serial_spec::{By, Entry, PlainTable};
use std::alloc::Global;
use std::process::Abort;
use test_kit::name;

/// The name of a script, the rows that the store has first, the script, and the rows that it has at
/// last.
pub type Case = (&'static str, &'static str, &'static str, &'static str);

/// The entry of the first session that a line spells as in a report.
pub fn entry(text: &str) -> Option<Entry> {
    match parse_entry(text.as_bytes())? {
        ReportEntry::Line {
            line,
            event,
            answer,
            ..
        } => Some(Entry {
            by: By::Line { session: 0, line },
            event,
            answer,
        }),
        _ => None,
    }
}

// The most entries and rows of a script.
const MOST_ENTRIES: usize = 32;

const MOST_ROWS: usize = 4;

// Whether the table has these rows and no others.
fn has_rows(table: &PlainTable, text: &str) -> bool {
    let mut count: usize = 0;
    for word in text.split_whitespace() {
        let Some((key, value)) = parse_row(word.as_bytes()) else {
            return false;
        };
        if table.get(&key) != Some(value) {
            return false;
        }
        count = count.wrapping_add(1);
    }
    table.len() == count
}

// Whether so many entries stand, and of those that they name these wait and no others.
fn stands<S: TopStore>(manager: &Manager<S>, text: &str) -> bool {
    let (count, waiting) = text.split_once(' ').unwrap_or((text, ""));
    let entries = manager.history();
    let Ok(many) = i64::try_from(entries.len()) else {
        return false;
    };
    if parse_number(count.as_bytes()) != Some(many) {
        return false;
    }
    for place in 0..entries.len() {
        let Some(entry) = entries.get(place) else {
            return false;
        };
        let waits = waiting
            .split_whitespace()
            .any(|word| name(word) == *entry.event.name);
        if manager.waiting(entry.event.name) != waits {
            return false;
        }
    }
    true
}

// Whether a line of a script holds: a call with its answer, `held` with a call that comes to
// nothing yet, `close` with what has to be aborted, `table` with its rows, or `stand` with how many
// entries there are and who waits.
fn holds<S: TopStore>(watched: &mut Watched<S>, text: &str) -> bool {
    let (word, rest) = text.split_once(' ').unwrap_or((text, ""));
    match word {
        "" => true,
        "held" => is_held(watched, rest),
        "close" => is_closed(watched, rest),
        "table" => has_rows(watched.manager.table(), rest),
        "stand" => stands(&watched.manager, rest),
        _ => is_answered(watched, text),
    }
}

fn load<S: TopStore>(rt: &impl Abort, alloc: Global, store: &mut S) -> Vec<Row> {
    match store.load(alloc) {
        Ok(rows) => rows,
        Err(_) => store.load(alloc).expect(rt, "memory"),
    }
}

// Whether these are the rows, in this order.
fn are_rows(found: &[Row], text: &str) -> bool {
    let mut rows = found.iter();
    for word in text.split_whitespace() {
        let (Some(row), Some((key, value))) = (rows.next(), parse_row(word.as_bytes())) else {
            return false;
        };
        if row.key != key || row.value != value {
            return false;
        }
    }
    rows.next().is_none()
}

// What is left of a manager: the history is the one that is due, the table and the store have these
// rows, and each fault of the store is an entry.
fn is_left<S: TopStore>(
    rt: &impl Abort,
    alloc: Global,
    parts: &mut Parts<S>,
    due: &[Entry],
    rows: &str,
) -> bool {
    let mut faults: u64 = 0;
    for entry in due {
        if entry.answer == NOT_STORED {
            faults = faults.wrapping_add(1);
        }
    }
    if !are(&parts.history, due)
        || !has_rows(&parts.table, rows)
        || parts.store.faults() != faults
    {
        return false;
    }
    let loaded = load(rt, alloc, &mut parts.store);
    are_rows(&loaded, rows)
}

fn play_lines<S: TopStore>(rt: &impl Abort, watched: &mut Watched<S>, what: &str, script: &str) {
    for text in script.lines() {
        let text = text.trim();
        assert!(rt; holds(watched, text), "{what}: {text}");
    }
}

// Plays a script to its end over a manager that was opened with these rows, and takes it apart.
fn play_over<S: TopStore>(
    rt: &impl Abort,
    alloc: Global,
    manager: Manager<S>,
    opening: &[Row],
    case: &Case,
) {
    let (what, _, script, rows) = *case;
    assert!(rt; manager.opening() == opening, "{what}: the opening");
    let due = room(rt, alloc, MOST_ENTRIES);
    let mut watched = Watched { manager, due };
    play_lines(rt, &mut watched, what, script);
    let Watched { manager, due } = watched;
    let mut parts = manager.into_parts();
    let left = parts.opening.as_slice() == opening && is_left(rt, alloc, &mut parts, &due, rows);
    assert!(rt; left, "{what}: what is left");
}

// Room for so many.
fn room<T>(rt: &impl Abort, alloc: Global, most: usize) -> Vec<T> {
    match Vec::with_capacity(alloc, most) {
        Ok(list) => list,
        Err(_) => Vec::with_capacity(alloc, most).expect(rt, "memory"),
    }
}

// Rows as in `x=9 y=2`.
fn rows(rt: &impl Abort, alloc: Global, text: &str) -> Vec<Row> {
    let mut rows = room(rt, alloc, MOST_ROWS);
    for word in text.split_whitespace() {
        let (key, value) = parse_row(word.as_bytes()).expect(rt, text);
        let row = Row {
            key,
            value,
            commit: 0,
        };
        rows.push(row).expect(rt, "room");
    }
    rows
}

// A store of these rows that refuses the commit of this number, where it is not 0.
fn store_of(rt: &impl Abort, alloc: Global, rows: &[Row], refused: u64) -> MemStore {
    assert!(rt; are_rising(rows));
    assert!(rt; are_numbered(rows));
    match MemStore::refusing(alloc, rows, refused) {
        Ok(store) => store,
        Err(_) => MemStore::refusing(alloc, rows, refused).expect(rt, "memory"),
    }
}

/// Plays a script over a store in memory that refuses the commit of this number, where it is not 0.
pub fn play(rt: &impl Abort, alloc: Global, refused: u64, case: &Case) {
    let rows = rows(rt, alloc, case.1);
    let manager = match Manager::open(alloc, store_of(rt, alloc, &rows, refused)) {
        Ok(manager) => manager,
        // The store is gone with it.
        Err(_) => Manager::open(alloc, store_of(rt, alloc, &rows, refused)).expect(rt, "memory"),
    };
    play_over(rt, alloc, manager, &rows, case);
}
