//! Sessions under way, and the book over them: each call once.
use durable_top::{MemStore, Row, TopStore};
use interleavings::{Turn, Turns, run_opened, settle};
use run_reports::Report;
use session_text::Sessions;
use shared_book::Book;
use std::alloc::Global;
use std::process::Abort;
use std::rt::HostRuntime;
use test_kit::key;

/// The second session waits for the first.
const TEXT: &[u8] = b"session p\nbegin a\ncommit a\nsession q\nafter a done\n";

/// Whose line is tried, and what comes of it.
const TRIES: [(u32, Turn); 4] = [
    (1, Turn::Parked),
    (0, Turn::Answered),
    (0, Turn::Answered),
    (1, Turn::Answered),
];

fn one_row(rt: &impl Abort, alloc: Global) -> MemStore {
    let row = Row {
        key: key("x"),
        value: 1,
        commit: 0,
    };
    MemStore::new(alloc, &[row]).expect(rt, "memory")
}

// Whether a run has come to its report, which has three entries.
fn is_reported<S: Drop, L: Drop>(run: Result<(Report, S), L>) -> bool {
    match run {
        Ok((report, store)) => {
            drop(store);
            report.history().len() == 3
        }
        Err(left) => {
            drop(left);
            false
        }
    }
}

// Whether a step comes to this, while nobody is stuck.
fn steps<S: TopStore>(turns: &mut Turns<'_, S>, session: u32, turn: Turn) -> bool {
    turns.stuck().ok() == Some(None) && turns.step(session).ok() == Some(turn)
}

fn all_step<S: TopStore>(rt: &impl Abort, turns: &mut Turns<'_, S>) {
    assert!(rt; turns.count() == 2 && turns.opening().len() == 1 && !turns.finished());
    for (session, turn) in TRIES {
        assert!(rt; steps(turns, session, turn), "a step of {session}");
    }
    assert!(rt; turns.finished() && turns.next_line(0).is_none());
    assert!(rt; turns.step(0).ok() == Some(Turn::OutOfTurn));
}

fn sessions_in_turn<S: TopStore>(rt: &impl Abort, alloc: Global, sessions: &Sessions, store: S) {
    let mut turns = Turns::open(alloc, sessions, store).expect(rt, "opened");
    all_step(rt, &mut turns);
    assert!(rt; is_reported(turns.into_report()));
}

// The lines go on until none can, and what is kept beside the sessions is taken apart from them in
// between.
fn turns_taken_apart<S: TopStore>(rt: &impl Abort, alloc: Global, sessions: &Sessions, store: S) {
    let mut turns = Turns::open(alloc, sessions, store).expect(rt, "opened");
    assert!(rt; turns.goes_on());
    settle(&mut turns).expect(rt, "memory");
    assert!(rt; turns.finished());
    let progress = turns.into_progress();
    assert!(rt; progress.history().len() == 3 && progress.opening().len() == 1);
    assert!(rt; progress.next(0) == Some(3) && progress.next(2).is_none());
    let turns = Turns::from_progress(progress, sessions);
    assert!(rt; is_reported(run_opened(turns, &[])));
}

// Whether the session's next line is tried and comes to this, and any other line to nothing.
fn attempts<S: TopStore>(
    book: &mut Book<'_, S>,
    sessions: &Sessions,
    session: u32,
    turn: Turn,
) -> bool {
    let Some(line) = book.next_line(session) else {
        return false;
    };
    let Some(text) = sessions.line(session, line) else {
        return false;
    };
    book.attempt(session, line + 1, &text).ok() == Some(Turn::OutOfTurn)
        && book.stuck().ok() == Some(None)
        && book.attempt(session, line, &text).ok() == Some(turn)
}

fn all_attempted<S: TopStore>(rt: &impl Abort, book: &mut Book<'_, S>, sessions: &Sessions) {
    assert!(rt; book.opening().len() == 1 && !book.finished() && book.is_of(sessions, 0));
    for (session, turn) in TRIES {
        assert!(rt;
            attempts(book, sessions, session, turn),
            "a line of {session}"
        );
    }
    assert!(rt; book.finished());
}

fn lines_by_number<S: TopStore>(rt: &impl Abort, alloc: Global, sessions: &Sessions, store: S) {
    let mut book = Book::open(alloc, sessions, store).expect(rt, "opened");
    all_attempted(rt, &mut book, sessions);
    assert!(rt; is_reported(book.into_report()));
}

#[test]
fn sessions_under_way(rt: HostRuntime) {
    let sessions = Sessions::parse(rt.alloc(), TEXT).expect(&rt, "a text");
    sessions_in_turn(&rt, rt.alloc(), &sessions, one_row(&rt, rt.alloc()));
    turns_taken_apart(&rt, rt.alloc(), &sessions, one_row(&rt, rt.alloc()));
    lines_by_number(&rt, rt.alloc(), &sessions, one_row(&rt, rt.alloc()));
    drop(sessions);
}
