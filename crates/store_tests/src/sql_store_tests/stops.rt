//! A store over a database file and its log. Each of the two stops at some call and the machine
//! with it: what is opened then holds the table before a commit or after it. A stop while a row of
//! the first version is taken over leaves that row.
use super::{Job, asked};
use sqlite::{Connection, Files, Options};
use sqlite_disk::{Crash, Disk, Fuse, Memory};
use std::alloc::Global;
use std::rt::HostRuntime;

/// The statements that make a database of the first version with one row.
const FIRST_VERSION: &str =
    "CREATE TABLE results (k TEXT NOT NULL PRIMARY KEY, v INTEGER NOT NULL) STRICT;INSERT INTO results VALUES ('w', 9)";

/// The commits of a run.
const COMMITS: [&str; 3] = ["x=1", "x=3,y=1", "x"];

/// The tables after so many of them, over new files.
const TABLES: [&str; 4] = ["", "x=1:1", "x=3:2 y=1:2", "y=1:2"];

/// The same over files of the first version with one row.
const TABLES_BESIDE: [&str; 4] = ["w=9:0", "w=9:0 x=1:1", "w=9:0 x=3:2 y=1:2", "w=9:0 y=1:2"];

/// No run makes so many calls of one file.
const MOST: u64 = 100;

// Each opening makes all pages of the cache, so that there are few.
fn options() -> Options {
    let mut options = Options::new(7);
    options.cache_pages = 8;
    options
}

// What a database over the files answers, where it can be opened, and the files, with what is in
// the log copied into the database as far as it goes. A connection to files holds much: each more
// function that hands one on costs the prover half a minute.
fn run<D: Disk + Drop>(alloc: Global, files: Files<D>, job: &Job<'_>) -> (Option<usize>, Files<D>) {
    if !files.may_be_used() {
        return (None, files);
    }
    match Connection::open_files(alloc, files, options()) {
        Ok(connection) => {
            let (done, connection) = asked(alloc, connection, job);
            match connection.close_files() {
                Ok(files) => (done, files),
                Err((_, store)) => (done, store.close()),
            }
        }
        Err((_, left)) => (None, left.into_files()),
    }
}

// The tables that may stand where so many commits were made, or where none was begun.
fn due(tables: &'static [&'static str], made: Option<usize>) -> Job<'static> {
    match made {
        Some(made) => {
            let most = tables.len().min(made.saturating_add(2));
            Job::Give(&tables[made.min(most)..most], made)
        }
        None => Job::Give(&tables[..tables.len().min(1)], 0),
    }
}

// How many commits stand after a run over these files and a crash, or none where they hold another
// table than that before the stop or after it.
fn left<D: Crash + Drop>(
    alloc: Global,
    files: Files<D>,
    tables: &'static [&'static str],
) -> Option<usize> {
    let (made, mut files) = run(alloc, files, &Job::Commit(&COMMITS));
    files.log.crash();
    files.db.crash();
    let (stand, _) = run(alloc, files, &due(tables, made));
    stand
}

// New files, or files of the first version with one row.
fn begun(alloc: Global, is_new: bool) -> Files<Memory> {
    let files = Files {
        log: Memory::new(alloc),
        db: Memory::new(alloc),
    };
    if is_new {
        return files;
    }
    let (_, files) = run(alloc, files, &Job::Execute(FIRST_VERSION));
    files
}

// How many commits stand where the log and the database stop after so many calls.
fn stopped(alloc: Global, is_new: bool, log: u64, db: u64) -> Option<usize> {
    let begun = begun(alloc, is_new);
    let files = Files {
        log: Fuse::new(begun.log, log),
        db: Fuse::new(begun.db, db),
    };
    left(alloc, files, if is_new { &TABLES } else { &TABLES_BESIDE })
}

#[test]
fn a_stop_at_each_call(rt: HostRuntime) {
    for is_new in [true, false] {
        for calls in 0..MOST {
            for (log, db) in [(calls, u64::MAX), (u64::MAX, calls)] {
                assert!(rt;
                    stopped(rt.alloc(), is_new, log, db).is_some(),
                    "log {log}, database {db}, new {is_new}"
                );
            }
        }
        for (calls, made) in [(0, 0), (MOST, COMMITS.len())] {
            assert!(rt;
                stopped(rt.alloc(), is_new, calls, calls) == Some(made),
                "both {calls}, new {is_new}"
            );
        }
    }
}
