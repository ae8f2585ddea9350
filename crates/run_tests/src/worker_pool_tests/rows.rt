//! Texts with their tables, by one worker, by two and by many.
use super::served;
use event_lists::{Act, Entries, Said};
use run_reports::Report;
use serial_spec::{By, Reply};
use std::alloc::Global;
use std::process::Abort;
use std::rt::HostRuntime;
use std::sync::Wait;
use std::sync::atomic::{AtomicU64, Ordering};
use std::thread::Threads;
use std::time::Clock;
use test_kit::key;
use test_kit::texts::{EIGHT, FIRST, RETAINED, SIBLINGS};
use txn_names::Name;
use worker_pool::Gate;

/// A line that waits for what will not be, and that is given up where the other session's read
/// waits behind it.
const GIVEN_UP: &[u8] =
    b"session p\nbegin a\nset a x 1\nafter b done\ncommit a\nsession q\nbegin b\nget b x\ncommit b\n";

/// The same, where the read always comes behind the write: so that the line is given up by any
/// number of workers.
const ALWAYS_GIVEN_UP: &[u8] =
    b"session p\nbegin a\nbegin a/l\nset a/l x 1\ncommit a/l\nafter b done\ncommit a\n\
session q\nafter a/l done\nbegin b\nget b x\ncommit b\n";

/// One session, two lines of which wait for what will not be.
const ALONE: &[u8] = b"session s\nbegin a\nafter b begun\nset a x 1\nafter b done\ncommit a\n";

/// How many workers each text is served by.
const WORKERS: [u32; 3] = [1, 2, 16];

/// The most lines of which `Counts` tells one from another.
const MOST_TOLD: u32 = 64;

/// Counts what it is told.
#[derive(Drop)]
struct Counts {
    passed: AtomicU64,
    answered: AtomicU64,
    // A bit of each answered line of eight sessions of up to eight lines.
    lines: AtomicU64,
}

impl Counts {
    // Whether it was told of each of so many lines once that it was answered, and of no fewer
    // attempts.
    fn heard(&self, lines: u32) -> bool {
        self.answered.load(Ordering::SeqCst) == lines as u64
            && self.passed.load(Ordering::SeqCst) >= lines as u64
            && (lines > MOST_TOLD || self.lines.load(Ordering::SeqCst).count_ones() == lines)
    }
}

impl Gate for Counts {
    fn pass(&self, _session: u32, _line: u32) {
        self.passed.fetch_add(1, Ordering::SeqCst);
    }

    fn answered(&self, session: u32, line: u32) {
        self.answered.fetch_add(1, Ordering::SeqCst);
        let bit = 1u64.wrapping_shl(session.wrapping_mul(8).wrapping_add(line));
        self.lines.fetch_or(bit, Ordering::SeqCst);
    }
}

/// How many lines are answered, how many of them are given up where that is known, the values of x
/// and y, how many rows there are, and how many commits there are where they stand in order.
type Outcome = (
    u32,
    Option<usize>,
    Option<i64>,
    Option<i64>,
    usize,
    Option<i64>,
);

// How many lines were given up.
fn given_up(report: &Report) -> usize {
    let mut count: usize = 0;
    for place in 0..report.history().len() {
        if let Some(entry) = report.history().get(place) {
            if entry.said == Said::Stuck {
                count = count.wrapping_add(1);
            }
        }
    }
    count
}

// Whether some access of the transaction was answered that the key has this value now.
fn was_told(history: &Entries, name: &Name, value: i64) -> bool {
    (0..history.len()).any(|place| match history.get(place) {
        Some(entry) => *entry.event.name == *name && entry.said == Said::Done(Reply::New(value)),
        None => false,
    })
}

// Whether the commits stand in the order of the values that their transactions were told, from 1,
// and no line was given up nor any transaction taken as a victim. Answers how many commits there
// are.
fn commits_in_order(history: &Entries) -> Option<i64> {
    let mut commits: i64 = 0;
    for place in 0..history.len() {
        let entry = history.get(place)?;
        if entry.by == By::Victim || entry.said == Said::Stuck {
            return None;
        }
        if *entry.event.act == Act::Commit {
            commits = commits.checked_add(1)?;
            if !was_told(history, entry.event.name, commits) {
                return None;
            }
        }
    }
    Some(commits)
}

// Whether a run comes to this.
fn comes_to(report: &Report, gate: &Counts, outcome: &Outcome) -> bool {
    let (lines, stuck, x, y, rows, commits) = *outcome;
    gate.heard(lines)
        && (stuck.is_none() || stuck == Some(given_up(report)))
        && report.table().get(&key("x")) == x
        && report.table().get(&key("y")) == y
        && report.table().len() == rows
        && (commits.is_none() || commits == commits_in_order(report.history()))
}

// The run of a text by so many workers has to come to this.
fn tells<R: Threads + Wait + Clock + Abort + Sync>(
    rt: &R,
    alloc: Global,
    workers: u32,
    what: &str,
    text: &[u8],
    outcome: &Outcome,
) {
    let gate = Counts {
        passed: AtomicU64::new(0),
        answered: AtomicU64::new(0),
        lines: AtomicU64::new(0),
    };
    let report = served(rt, alloc, text, workers, &gate);
    assert!(rt; comes_to(&report, &gate, outcome), "{what} by {workers}");
}

// 64 sessions of two lines each, all of which wait for what will not be.
fn all_stuck(rt: &impl Abort, alloc: Global) -> String {
    let letters = ["a", "b", "c", "d", "e", "f", "g", "h"];
    let mut text = String::new(alloc);
    for first in letters {
        for second in letters {
            for piece in ["session ", first, second, "\nafter a begun\nafter a done\n"] {
                text.push_str(piece).expect(rt, "memory");
            }
        }
    }
    text
}

// Runs by so many workers.
fn all_tell<R: Threads + Wait + Clock + Abort + Sync>(
    rt: &R,
    alloc: Global,
    workers: u32,
    stuck: &[u8],
) {
    for (what, text, outcome) in [
        ("first", FIRST, (4, None, Some(5), None, 1, None)),
        ("siblings", SIBLINGS, (11, None, Some(1), Some(3), 2, None)),
        ("retained", RETAINED, (10, None, Some(7), None, 1, None)),
        ("given up", GIVEN_UP, (7, None, Some(1), None, 1, None)),
        ("nothing", b"".as_slice(), (0, None, None, None, 0, None)),
        ("one given up", ALWAYS_GIVEN_UP, ONE_GIVEN_UP),
        (
            "two given up of one session",
            ALONE,
            (5, Some(2), Some(1), None, 1, None),
        ),
        ("all given up", stuck, (128, Some(128), None, None, 0, None)),
        (
            "eight that add",
            EIGHT,
            (24, Some(0), Some(8), None, 1, Some(8)),
        ),
    ] {
        tells(rt, alloc, workers, what, text, &outcome);
    }
}

#[test]
fn tables(rt: HostRuntime) {
    let stuck = all_stuck(&rt, rt.alloc());
    for workers in WORKERS {
        all_tell(&rt, rt.alloc(), workers, stuck.as_bytes());
    }
}

const ONE_GIVEN_UP: Outcome = (10, Some(1), Some(1), None, 1, None);

// A run without workers, whose lines are all left to the calling thread.
#[test]
fn left_by_workers(rt: HostRuntime) {
    tells(
        &rt,
        rt.alloc(),
        0,
        "one given up",
        ALWAYS_GIVEN_UP,
        &ONE_GIVEN_UP,
    );
}
