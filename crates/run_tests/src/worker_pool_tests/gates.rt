//! As many lines are under way at once as there are workers, and one is answered while the other is
//! held up at the gate.
use super::served;
use run_reports::Report;
use serial_spec::By;
use std::rt::HostRuntime;
use std::sync::atomic::{AtomicBool, AtomicU32, Ordering};
use std::thread;
use worker_pool::Gate;

const TWO: &[u8] = b"session p\nbegin a\ncommit a\nsession q\nbegin b\ncommit b\n";

/// How often a line at the gate looks for what it waits for.
const MOST_TURNS: u32 = 1_000_000;

/// For how many turns a line stays at the gate once as many have come as are expected.
const LINGER: u32 = 1_000;

/// Sixteen sessions of one line each.
const SIXTEEN: &[u8] =
    b"session a\nbegin a\nsession b\nbegin b\nsession c\nbegin c\nsession d\nbegin d\n\
session e\nbegin e\nsession f\nbegin f\nsession g\nbegin g\nsession h\nbegin h\n\
session i\nbegin i\nsession j\nbegin j\nsession k\nbegin k\nsession l\nbegin l\n\
session m\nbegin m\nsession n\nbegin n\nsession o\nbegin o\nsession p\nbegin p\n";

// What becomes of the first lines of the two sessions, a bit each. None of them is `NOTHING`.
const NOTHING: u32 = 0;

const FIRST_CAME: u32 = 1;

const SECOND_CAME: u32 = 2;

const FIRST_ANSWERED: u32 = 4;

const SECOND_ANSWERED: u32 = 8;

/// What is told of the two first lines, and until when they are held up, of the first session and
/// of the second: before an attempt, and behind the answer.
#[derive(Drop)]
struct Meeting {
    before: (u32, u32),
    behind: (u32, u32),
    told: AtomicU32,
    late: AtomicBool,
}

impl Meeting {
    // Tells this, and waits until the other is told, for so many turns at most.
    fn meet(&self, mine: u32, other: u32) {
        self.told.fetch_or(mine, Ordering::SeqCst);
        for _ in 0..MOST_TURNS {
            if self.told.load(Ordering::SeqCst) & other == other {
                return;
            }
            thread::yield_now();
        }
        self.late.store(true, Ordering::SeqCst);
    }
}

impl Gate for Meeting {
    fn pass(&self, session: u32, line: u32) {
        if line == 1 {
            if session == 0 {
                self.meet(FIRST_CAME, self.before.0);
            } else {
                self.meet(SECOND_CAME, self.before.1);
            }
        }
    }

    fn answered(&self, session: u32, line: u32) {
        if line == 1 {
            if session == 0 {
                self.meet(FIRST_ANSWERED, self.behind.0);
            } else {
                self.meet(SECOND_ANSWERED, self.behind.1);
            }
        }
    }
}

// The session whose line was answered first.
fn first_session(report: &Report) -> Option<u32> {
    match report.history().get(0)?.by {
        By::Line { session, .. } => Some(session),
        By::Victim | By::Close => None,
    }
}

// Where one line alone is held up, the first entry is of the other's session.
#[test]
fn two_at_once(rt: HostRuntime) {
    for (held, before, behind, first) in [
        (
            "both until they come",
            (SECOND_CAME, FIRST_CAME),
            (NOTHING, NOTHING),
            None,
        ),
        (
            "the first",
            (SECOND_ANSWERED, NOTHING),
            (NOTHING, NOTHING),
            Some(1),
        ),
        (
            "the second",
            (NOTHING, FIRST_ANSWERED),
            (NOTHING, NOTHING),
            Some(0),
        ),
        (
            "both once answered",
            (NOTHING, NOTHING),
            (SECOND_ANSWERED, FIRST_ANSWERED),
            None,
        ),
    ] {
        let gate = Meeting {
            before,
            behind,
            told: AtomicU32::new(NOTHING),
            late: AtomicBool::new(false),
        };
        let report = served(&rt, rt.alloc(), TWO, 2, &gate);
        let in_time = !gate.late.load(Ordering::SeqCst) && report.history().len() == 4;
        let is_first = first.is_none() || first == first_session(&report);
        assert!(rt; in_time && is_first, "{held}");
        drop(report);
    }
}

/// Counts how many lines are at the gate at once, and holds each until as many as are expected have
/// come.
#[derive(Drop)]
struct Crowd {
    expected: u32,
    here: AtomicU32,
    most: AtomicU32,
    answered: AtomicU32,
}

impl Gate for Crowd {
    fn pass(&self, _session: u32, _line: u32) {
        let here = self.here.fetch_add(1, Ordering::SeqCst).saturating_add(1);
        self.most.fetch_max(here, Ordering::SeqCst);
        for _ in 0..MOST_TURNS {
            if self.most.load(Ordering::SeqCst) >= self.expected {
                break;
            }
            thread::yield_now();
        }
        for _ in 0..LINGER {
            if self.most.load(Ordering::SeqCst) > self.expected {
                break;
            }
            thread::yield_now();
        }
        self.here.fetch_sub(1, Ordering::SeqCst);
    }

    fn answered(&self, _session: u32, _line: u32) {
        self.answered.fetch_add(1, Ordering::SeqCst);
    }
}

// As many lines are under way at once as there are workers, and no more; and each is told once.
#[test]
fn as_many_as_workers(rt: HostRuntime) {
    for workers in [1, 2, 5, 16] {
        let gate = Crowd {
            expected: workers,
            here: AtomicU32::new(0),
            most: AtomicU32::new(0),
            answered: AtomicU32::new(0),
        };
        let report = served(&rt, rt.alloc(), SIXTEEN, workers, &gate);
        let most = gate.most.load(Ordering::SeqCst);
        let answered = gate.answered.load(Ordering::SeqCst);
        assert!(rt; most == workers && answered == 16, "{workers}");
        drop(report);
    }
}
