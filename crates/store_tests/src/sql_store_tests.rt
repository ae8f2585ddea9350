//! Stores over databases in memory and over files that stop. Real files are for the tests of the
//! program.
mod stops;

use crate::scripts::{are, commit, follows, serves, word};
use durable_top::TopStore;
use sql_store::{MemoryStore, SqlStore};
use sqlite::{Alter, Connection};
use std::alloc::Global;
use std::process::Abort;
use std::rt::HostRuntime;

/// Statements that make a database, and what is asked of the stores over it, one after another,
/// whose texts stand between bars.
///
/// These databases are empty, or have another table too, so that they are not known, or tables
/// without rows, or with one. A row of the first version is taken over with the number 0.
const SERVED: &str = "\
 => rows; b=2; c=-9223372036854775808; a=9223372036854775807; b=3; c; d; e.f_g-0=0 | rows a=9223372036854775807:3 b=3:4 e.f_g-0=0:5
CREATE TABLE other (a INTEGER) STRICT => rows; b=2; a=1; c=3; b | rows a=1:2 c=3:3
CREATE TABLE other (a INTEGER) STRICT => rows
CREATE TABLE results (k TEXT NOT NULL PRIMARY KEY, v INTEGER NOT NULL) STRICT => rows
CREATE TABLE results2 (k TEXT, v INTEGER, n INTEGER) STRICT;INSERT INTO results2 VALUES ('a', 1, 0) => rows a=1:0";

/// The commits of one store after another are counted on. A commit behind the last number is
/// refused, whatever it changes, and the rows stay.
const COUNTED_ON: &str = "\
CREATE TABLE results (k TEXT NOT NULL PRIMARY KEY, v INTEGER NOT NULL) STRICT;INSERT INTO results VALUES ('x', 9) => rows x=9:0 | y=1; x=2; rows x=2:2 y=1:1 | x,z=5; rows y=1:1 z=5:3 | z; rows y=1:1 | y=7; rows y=7:2 | y=7; rows y=7:3
CREATE TABLE results2 (k TEXT NOT NULL PRIMARY KEY, v INTEGER NOT NULL, n INTEGER NOT NULL) STRICT;INSERT INTO results2 VALUES ('x', 1, 9223372036854775807) => x -> refused; y=1 -> refused; rows x=1:9223372036854775807";

/// Rows change behind the store, by an action of a foreign key: the numbers that it keeps say what
/// is no longer so, and its commits are made all the same. A row names a key in `p`. Where the row
/// of that key is deleted, it is deleted too, and an update of `b` meets no row. In the other
/// database the row of `b` gets the key of that of `a` where this goes, and an insert of `a` meets
/// a row.
const CHANGED_BEHIND: &str = "\
CREATE TABLE results2 (k TEXT NOT NULL PRIMARY KEY, v INTEGER NOT NULL, n INTEGER NOT NULL, p TEXT DEFAULT 'a' REFERENCES results2 (k) ON DELETE CASCADE) STRICT => rows; a=1; b=2; a; a=4; b=3; rows a=4:3 b=3:4
CREATE TABLE results2 (k TEXT NOT NULL PRIMARY KEY DEFAULT 'a' REFERENCES results2 (p) ON DELETE SET DEFAULT, v INTEGER NOT NULL, n INTEGER NOT NULL, p TEXT UNIQUE) STRICT;INSERT INTO results2 VALUES ('a', 1, 1, 'b'), ('b', 2, 1, 'a') => rows a=1:1 b=2:1; a; a=7; rows a=7:2";

/// Over these databases no store is opened: they are in a transaction, or have a table of the first
/// version that is not as it has to be.
const REFUSED: &str = "\
BEGIN => -> refused
CREATE TABLE results (k TEXT NOT NULL PRIMARY KEY) STRICT => -> refused
CREATE TABLE results (a INTEGER, b TEXT) STRICT => -> refused
CREATE TABLE results (k TEXT NOT NULL PRIMARY KEY, v INTEGER NOT NULL) STRICT;INSERT INTO results VALUES ('A', 1) => -> refused
CREATE TABLE results (k TEXT, v TEXT) STRICT;INSERT INTO results VALUES ('a', '1') => -> refused
CREATE TABLE results (k TEXT, v INTEGER) STRICT;INSERT INTO results VALUES ('a', 1);INSERT INTO results VALUES ('a', 1) => -> refused
CREATE TABLE results (k BLOB, v INTEGER) STRICT;INSERT INTO results VALUES (x'61', 1) => -> refused";

/// No more over these, whose tables with numbers are not as they have to be, or whose rows are in
/// both tables.
const REFUSED_NUMBERED: &str = "\
CREATE TABLE results2 (k TEXT NOT NULL PRIMARY KEY, v INTEGER NOT NULL) STRICT => -> refused
CREATE TABLE results2 (k TEXT, v INTEGER, n INTEGER) STRICT;INSERT INTO results2 VALUES ('A', 1, 1) => -> refused
CREATE TABLE results2 (k TEXT, v TEXT, n INTEGER) STRICT;INSERT INTO results2 VALUES ('a', '1', 1) => -> refused
CREATE TABLE results2 (k TEXT, v INTEGER, n INTEGER) STRICT;INSERT INTO results2 VALUES ('a', 1, -1) => -> refused
CREATE TABLE results2 (k TEXT, v INTEGER, n TEXT) STRICT;INSERT INTO results2 VALUES ('a', 1, '1') => -> refused
CREATE TABLE results (k TEXT, v INTEGER) STRICT;CREATE TABLE results2 (k TEXT, v INTEGER, n INTEGER) STRICT;INSERT INTO results VALUES ('a', 1);INSERT INTO results2 VALUES ('b', 1, 1) => -> refused";

/// What is asked of a database.
#[derive(Drop)]
enum Job<'a> {
    /// To make these statements, of which there may be none.
    Execute(&'a str),
    /// To follow this text, or to be refused so, as by `-> refused`.
    Follow(&'a str),
    /// To make these commits, up to the first that is not made.
    Commit(&'a [&'a str]),
    /// To give one of these tables, of which the first is that after so many commits.
    Give(&'a [&'a str], usize),
}

fn executes<S: Alter>(connection: &mut Connection<S>, statements: &str) -> bool {
    for statement in statements.split(';') {
        if !statement.is_empty() && connection.execute(statement, &[]).is_err() {
            return false;
        }
    }
    true
}

// How many of the commits are made.
fn made<S: TopStore>(store: &mut S, commits: &[&str]) -> usize {
    let mut made: usize = 0;
    for text in commits {
        if commit(store, text) != "ok" {
            return made;
        }
        made = made.saturating_add(1);
    }
    made
}

// How many commits the table tells that the store gives, which is one of these. Any other is none.
fn given<S: TopStore>(
    alloc: Global,
    store: &mut S,
    tables: &[&str],
    first: usize,
) -> Option<usize> {
    let rows = store.load(alloc).ok()?;
    let place = tables.iter().position(|table| are(&rows, table))?;
    Some(first.saturating_add(place))
}

fn some(holds: bool) -> Option<usize> {
    if holds { Some(0) } else { None }
}

fn done<S: TopStore>(alloc: Global, store: &mut S, job: &Job<'_>) -> Option<usize> {
    match job {
        Job::Execute(_) => None,
        Job::Follow(script) => some(follows(alloc, store, script)),
        Job::Commit(commits) => Some(made(store, commits)),
        Job::Give(tables, first) => given(alloc, store, tables, *first),
    }
}

// What the database answers, or a store over it, as a number of commits, or none where it is not as
// it has to be; and the database. Each call at a store over one kind of database costs the prover
// much, and so does each function that hands one on, and one at a store over any kind little, so
// that the calls stand here.
fn asked<S: Alter + Drop>(
    alloc: Global,
    mut connection: Connection<S>,
    job: &Job<'_>,
) -> (Option<usize>, Connection<S>) {
    if let Job::Execute(statements) = job {
        let executed = executes(&mut connection, statements);
        return (some(executed), connection);
    }
    match SqlStore::adopt(alloc, connection) {
        Ok(mut store) => {
            let done = done(alloc, &mut store, job);
            (done, store.into_connection())
        }
        Err((fault, connection)) => match job {
            Job::Follow(script) => {
                let is_due = script.strip_prefix("-> ") == Some(word(Err(fault)));
                (some(is_due), connection)
            }
            _ => (None, connection),
        },
    }
}

// Whether the stores follow these texts, one after another, over the database that the statements
// make.
fn follow<S: Alter + Drop>(
    alloc: Global,
    connection: Connection<S>,
    statements: &str,
    scripts: &str,
) -> bool {
    let (mut answer, mut connection) = asked(alloc, connection, &Job::Execute(statements));
    for script in scripts.split('|') {
        if answer.is_none() {
            return false;
        }
        let (next, left) = asked(alloc, connection, &Job::Follow(script.trim()));
        answer = next;
        connection = left;
    }
    answer.is_some()
}

// The same over a new database in memory.
fn follow_over(alloc: Global, statements: &str, scripts: &str) -> bool {
    match Connection::open_in_memory(alloc) {
        Ok(connection) => follow(alloc, connection, statements, scripts),
        Err(_) => false,
    }
}

// Stores over each of these databases follow its texts. A trial run refuses one growth, and so
// stands in the way of the first of two.
fn are_followed(rt: &impl Abort, alloc: Global, databases: &str) {
    for line in databases.lines() {
        let (statements, scripts) = line.split_once("=>").unwrap_or((line, ""));
        let statements = statements.trim();
        assert!(rt;
            follow_over(alloc, statements, scripts) || follow_over(alloc, statements, scripts),
            "{line}"
        );
    }
}

// Each kind has a test of its own, since `./growths` runs a test for each growth that it makes.
#[test]
fn databases_that_are_served(rt: HostRuntime) {
    are_followed(&rt, rt.alloc(), SERVED);
}

#[test]
fn commits_are_counted_on(rt: HostRuntime) {
    are_followed(&rt, rt.alloc(), COUNTED_ON);
}

#[test]
fn rows_change_behind_a_store(rt: HostRuntime) {
    are_followed(&rt, rt.alloc(), CHANGED_BEHIND);
}

#[test]
fn databases_that_are_refused(rt: HostRuntime) {
    are_followed(&rt, rt.alloc(), REFUSED);
}

#[test]
fn databases_with_numbers_that_are_refused(rt: HostRuntime) {
    are_followed(&rt, rt.alloc(), REFUSED_NUMBERED);
}

// Whether a new store in memory follows the texts, where one is made.
fn tried(alloc: Global, script: &str, wanting: &str) -> Option<bool> {
    match MemoryStore::new(alloc) {
        Ok(mut store) => Some(serves(alloc, &mut store, script, wanting)),
        Err(_) => None,
    }
}

// A commit that finds no memory is a fault, and leaves what the store gives. Made again, it is
// made.
#[test]
fn rows_stay_in_memory(rt: HostRuntime) {
    let script = "rows; b=2; a=1; c=3; b; rows a=1:2 c=3:3";
    assert!(rt;
        tried(rt.alloc(), script, "") == Some(true) || tried(rt.alloc(), script, "") == Some(true)
    );
    let (made, wanting) = (
        "rows b=2:1; faults 0 0",
        "rows; b=2; faults 1 0; rows b=2:1",
    );
    let first = tried(rt.alloc(), made, wanting);
    assert!(rt;
        first == Some(true) || first.is_none() && tried(rt.alloc(), made, wanting) == Some(true)
    );
}
