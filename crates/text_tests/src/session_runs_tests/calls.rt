//! What the tests call, over stores in memory. Each call stands in one function, for which the
//! tests are data.
use crate::session_runs_tests::serial::is_serial;
use durable_top::{MemStore, Row, TopStore, are_numbered, are_rising};
use interleavings::run_schedule;
use program_words::{Ended, attempts_of};
use session_runs::{list_rows, replay_over, replay_text};
use session_text::Sessions;
use std::alloc::Global;
use std::process::Abort;
use std::sync::Wait;
use std::thread::Threads;
use std::time::Clock;
use test_kit::{Narrow, Told};
use txn_names::Key;
use worker_pool::serve;
use worker_runs::{OpenGate, serve_over};

/// How the first commit of a store goes.
#[derive(Clone, Copy)]
pub enum FirstCommit {
    Made,
    /// The store refuses it.
    Refused,
    /// The device fails at it.
    Failed,
}

/// The report with whose opening rows a store begins, and how its first commit goes.
pub type Opening<'a> = (&'a str, FirstCommit);

/// A store without rows whose commits are made.
pub const EMPTY: Opening<'static> = ("", FirstCommit::Made);

/// A text, and the list by which it is scheduled.
pub type Task<'a> = (&'a [u8], Option<&'a str>);

/// How many bytes a writer takes, and how often it passes them on.
pub type Room = (usize, usize);

/// A writer that takes all bytes. It is asked once to pass them on.
pub const AMPLE: Room = (usize::MAX, 1);

/// The list that a word is, or none.
pub fn list_of(word: &str) -> Option<&str> {
    if word == "none" { None } else { Some(word) }
}

// The row of this line of a report, where it is one.
fn row_of(line: &str) -> Option<Row> {
    let (key, value) = line.split_once('=')?;
    let key = Key::parse(key.as_bytes()).ok()?;
    let value = value.parse().ok()?;
    Some(Row {
        key,
        value,
        commit: 0,
    })
}

fn rows_of(rt: &impl Abort, alloc: Global, report: &str) -> Vec<Row> {
    let mut rows = Vec::new(alloc);
    for line in report.lines() {
        if let Some(row) = row_of(line) {
            rows.push(row).expect(rt, "memory");
        } else if line != "open" {
            break;
        }
    }
    rows
}

fn store_of(rt: &impl Abort, alloc: Global, (report, commit): Opening<'_>) -> MemStore {
    let rows = rows_of(rt, alloc, report);
    let rows = rows.as_slice();
    assert!(rt; are_rising(rows));
    assert!(rt; are_numbered(rows));
    let store = match commit {
        FirstCommit::Made => MemStore::new(alloc, rows),
        FirstCommit::Refused => MemStore::refusing(alloc, rows, 1),
        FirstCommit::Failed => MemStore::failing(alloc, rows, 1),
    };
    store.expect(rt, "memory")
}

/// What a run of the text over this store tells. Only a report goes to the writer of so much room.
pub fn told_by<S: TopStore>(
    rt: &impl Abort,
    alloc: Global,
    store: S,
    (text, list): Task<'_>,
    (left, flushes): Room,
) -> (Told, Option<S>) {
    let schedule = attempts_of(alloc, list).expect(rt, "memory");
    let schedule = schedule.as_slice();
    let mut out = Narrow::new(Vec::new(alloc), left, flushes);
    let mut err = Vec::new(alloc);
    let Ended {
        status,
        left: store,
    } = replay_over(alloc, text, schedule, store, &mut &mut out, &mut err);
    let told = Told {
        status,
        out: out.taken,
        err,
    };
    (told, store)
}

/// The same over a store in memory, which is let go.
pub fn told_in_memory(
    rt: &impl Abort,
    alloc: Global,
    opening: Opening<'_>,
    task: Task<'_>,
    room: Room,
) -> Told {
    let store = store_of(rt, alloc, opening);
    let (told, _) = told_by(rt, alloc, store, task, room);
    told
}

/// Whether the committed transactions of that run are a serial run that leaves the report's table,
/// judged apart from the proofs.
pub fn judged(
    rt: &impl Abort,
    alloc: Global,
    opening: Opening<'_>,
    (text, list): Task<'_>,
) -> bool {
    let schedule = attempts_of(alloc, list).expect(rt, "memory");
    let sessions = Sessions::parse(alloc, text).expect(rt, "a text");
    let store = store_of(rt, alloc, opening);
    match run_schedule(alloc, &sessions, schedule.as_slice(), store) {
        Ok((report, _)) => is_serial(rt, alloc, &report, false),
        Err(_) => false,
    }
}

/// What is told of the rows that a run of the text leaves.
pub fn listed(
    rt: &impl Abort,
    alloc: Global,
    opening: Opening<'_>,
    text: &[u8],
    (left, flushes): Room,
) -> Told {
    let store = store_of(rt, alloc, opening);
    let mut report = Vec::new(alloc);
    let ran = replay_text(alloc, text, &[], store, &mut report);
    let mut store = ran.expect(rt, "a report");
    let mut out = Narrow::new(Vec::new(alloc), left, flushes);
    let mut err = Vec::new(alloc);
    let status = list_rows(alloc, &mut store, &mut &mut out, &mut err);
    Told {
        status,
        out: out.taken,
        err,
    }
}

/// What a run of the text by so many workers tells.
pub fn told_by_workers<R: Threads + Wait + Clock + Abort + Sync>(
    rt: &R,
    alloc: Global,
    opening: Opening<'_>,
    text: &[u8],
    workers: u32,
) -> Told {
    assert!(rt; 0 < workers && workers <= 16);
    let store = store_of(rt, alloc, opening);
    let mut out = Vec::new(alloc);
    let mut err = Vec::new(alloc);
    let ended = serve_over(rt, alloc, text, workers, store, &mut out, &mut err);
    let status = ended.status;
    drop(ended);
    Told { status, out, err }
}

/// Whether the committed transactions of a run by so many workers are a serial run, which leaves
/// its table; and, where that is asked, whether that were so with another reply to the first add.
pub fn judged_by<R: Threads + Wait + Clock + Abort + Sync>(
    rt: &R,
    alloc: Global,
    text: &[u8],
    workers: u32,
    spoils: bool,
) -> (bool, bool) {
    assert!(rt; 0 < workers && workers <= 16);
    let sessions = Sessions::parse(alloc, text).expect(rt, "a text");
    let store = store_of(rt, alloc, EMPTY);
    let run = serve(rt, alloc, sessions, store, workers, &OpenGate);
    let (report, store) = run.expect(rt, "a report");
    drop(store);
    let judged = is_serial(rt, alloc, &report, false);
    (judged, spoils && is_serial(rt, alloc, &report, true))
}
