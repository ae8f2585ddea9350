//! A session text over a database file and its log. Each of the two stops at some call and the
//! machine with it: what is opened then has the table of the commits that were acknowledged, or of
//! one more where that one was not answered.
use session_runs::replay_text;
use sql_store::SqlStore;
use sqlite::{Alter, Connection, FileStore, Files, Options};
use sqlite_disk::{Crash, Disk, Fuse, Memory};
use std::alloc::Global;
use std::process::Abort;
use std::rt::HostRuntime;

/// Three commits with changes, each of one row or of two.
const TEXT: &[u8] =
    b"session s\nbegin a\nset a x 1\ncommit a\nbegin b\nadd b x 2\nset b y 1\ncommit b\nbegin c\ndel c x\ncommit c\n";

/// What the empty text reports over the table after so many of the commits.
const TABLES: [&[u8]; 4] = [
    b"open\ntable\nend\n",
    b"open\nx=1\ntable\nx=1\nend\n",
    b"open\nx=3\ny=1\ntable\nx=3\ny=1\nend\n",
    b"open\ny=1\ntable\ny=1\nend\n",
];

/// No run makes so many calls of one file.
const MOST: u64 = 100;

// Each opening makes all pages of the cache, so that there are few.
fn options() -> Options {
    let mut options = Options::new(7);
    options.cache_pages = 8;
    options
}

// The text's report over a connection, and the connection. A call at a store over files costs the
// prover much, and one at a store over anything little, so that the calls stand here.
fn told<S: Alter + Drop>(
    alloc: Global,
    text: &[u8],
    connection: Connection<S>,
) -> Option<(Vec<u8>, Connection<S>)> {
    let store = SqlStore::adopt(alloc, connection).ok()?;
    let mut out = Vec::new(alloc);
    let left = replay_text(alloc, text, &[], store, &mut out).ok()?;
    Some((out, left.into_connection()))
}

// The files of a connection, and whether what is in the log was copied into the database.
fn closed<D: Disk + Drop>(connection: Connection<FileStore<D>>) -> (Files<D>, bool) {
    match connection.close_files() {
        Ok(files) => (files, true),
        Err((_, store)) => (store.close(), false),
    }
}

// The text's report over the files and the files, where there is a report, and whether they were
// closed without a stop.
fn run<D: Disk + Drop>(
    alloc: Global,
    files: Files<D>,
    text: &[u8],
) -> Option<(Vec<u8>, Files<D>, bool)> {
    if !files.may_be_used() {
        return None;
    }
    let connection = Connection::open_files(alloc, files, options()).ok()?;
    let (out, left) = told(alloc, text, connection)?;
    let (files, is_whole) = closed(left);
    Some((out, files, is_whole))
}

// How many commits were acknowledged before the first that was not, and how many may have been
// made: one more where there is such a one.
fn acknowledged(report: &str) -> (usize, usize) {
    let mut count: usize = 0;
    for entry in report.lines() {
        if entry.ends_with(" -> refused store") {
            return (count, count.saturating_add(1));
        }
        if entry.contains(" commit ") && entry.ends_with(" -> ok") {
            count = count.saturating_add(1);
        }
    }
    (count, count)
}

// Whether the empty text reports the table after one of the numbers of commits from the least to
// the most, over the files behind a crash of the machine, with nothing more that stops.
fn is_left<D: Crash + Drop>(
    alloc: Global,
    mut files: Files<D>,
    (least, most): (usize, usize),
) -> bool {
    files.log.crash();
    files.db.crash();
    let Some((report, _, _)) = run(alloc, files, b"") else {
        return false;
    };
    for (count, table) in TABLES.iter().enumerate() {
        if least <= count && count <= most && report.as_slice() == *table {
            return true;
        }
    }
    false
}

// What a run comes to over files that stop: whether the files then have a table that they may have,
// behind how many acknowledged commits, and whether nothing stopped. There is none where the run
// stops before its first reply.
fn stopped<D: Crash + Drop>(
    rt: &impl Abort,
    alloc: Global,
    files: Files<D>,
) -> Option<(bool, usize, bool)> {
    let (report, files, is_whole) = run(alloc, files, TEXT)?;
    let commits = acknowledged(str::from_utf8(report.as_slice()).expect(rt, "text"));
    Some((is_left(alloc, files, commits), commits.0, is_whole))
}

// The same over a log and a database that stop after so many calls.
fn stopped_after(
    rt: &impl Abort,
    alloc: Global,
    (log, db): (u64, u64),
) -> Option<(bool, usize, bool)> {
    let files = Files {
        log: Fuse::new(Memory::new(alloc), log),
        db: Fuse::new(Memory::new(alloc), db),
    };
    stopped(rt, alloc, files)
}

// Behind how many commits a stop was met, up to the first run that meets none: the log stops after
// each number of calls in turn, or the database does.
fn stops(rt: &impl Abort, alloc: Global, is_log: bool) -> Option<[bool; 4]> {
    let mut met = [false; 4];
    for calls in 0..MOST {
        let fuses = if is_log {
            (calls, u64::MAX)
        } else {
            (u64::MAX, calls)
        };
        if let Some((is_right, count, is_whole)) = stopped_after(rt, alloc, fuses) {
            assert!(rt;
                is_right,
                "another table behind {calls} calls, of the log: {is_log}"
            );
            if is_whole {
                return Some(met);
            }
            if let Some(place) = met.get_mut(count) {
                *place = true;
            }
        }
    }
    None
}

#[test]
fn a_stop_at_each_call_of_a_file(rt: HostRuntime) {
    for (is_log, met) in [
        (true, [true, true, true, true]),
        (false, [false, false, false, true]),
    ] {
        assert!(rt;
            stops(&rt, rt.alloc(), is_log) == Some(met),
            "of the log: {is_log}"
        );
    }
}
