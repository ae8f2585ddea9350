//! A store of rows under SQL: each kind of write, and the rows and tables that a rollback brings
//! back.
use row_store::connect;
use sqlite::{Alter, Connection, Row};
use std::alloc::Global;
use std::rt::HostRuntime;

/// The rows are asked for in the order of the unique column. Behind each statement stand the
/// numbers that the query shows then.
const ROWS: &str = "SELECT a FROM t ORDER BY b";

const ROWS_COME_AND_GO: &str = "CREATE TABLE t (a INTEGER PRIMARY KEY, b TEXT UNIQUE) STRICT =>
INSERT INTO t VALUES (1, 'c'), (2, 'b'), (3, 'a') => 3 2 1
UPDATE t SET b = 'd' WHERE a = 2 => 3 1 2
DELETE FROM t WHERE a = 1 => 3 2
INSERT INTO t VALUES (4, 'c'), (1, 'e') => 3 4 2 1
DELETE FROM t WHERE b > 'b' => 3
INSERT INTO t VALUES (5, 'b'), (2, 'c') => 3 5 2
DELETE FROM t =>
INSERT INTO t VALUES (1, 'a') => 1";

const A_ROLLBACK_BRINGS_ROWS_BACK: &str =
    "CREATE TABLE t (a INTEGER PRIMARY KEY, b TEXT UNIQUE) STRICT =>
INSERT INTO t VALUES (1, 'c'), (2, 'b'), (3, 'a') => 3 2 1
BEGIN => 3 2 1
DELETE FROM t WHERE a = 2 => 3 1
UPDATE t SET b = 'd' WHERE a = 3 => 1 3
SAVEPOINT s => 1 3
INSERT INTO t VALUES (7, 'b'), (8, 'z') => 7 1 3 8
DELETE FROM t WHERE a = 1 => 7 3 8
ROLLBACK TO s => 1 3
RELEASE s => 1 3
ROLLBACK => 3 2 1
DELETE FROM t WHERE a = 3 => 2 1";

/// A one for each table and each index. The unique column has an index of its own, which is listed
/// too.
const LISTED: &str = "SELECT 1 FROM sqlite_schema";

const A_ROLLBACK_BRINGS_A_TABLE_BACK: &str =
    "CREATE TABLE t (a INTEGER PRIMARY KEY, b TEXT UNIQUE) STRICT => 1 1
BEGIN => 1 1
DROP TABLE t =>
ROLLBACK => 1 1
DROP TABLE t =>";

// Whether the rows have these numbers, as in `3 1 2`.
fn are(rows: &[Row], numbers: &str) -> bool {
    let mut words = numbers.split_whitespace();
    for row in rows {
        match (words.next(), row.get(0)) {
            (Some(word), Ok(number)) if word.parse::<i64>() == Ok(number) => {}
            _ => return false,
        }
    }
    words.next().is_none()
}

// Whether the statement is made, and the query shows then the numbers that stand behind it.
fn shows<S: Alter>(connection: &mut Connection<S>, query: &str, line: &str) -> bool {
    let (statement, numbers) = line.split_once("=>").unwrap_or((line, ""));
    if connection.execute(statement, &[]).is_err() {
        return false;
    }
    match connection.query_all(query, &[]) {
        Ok(rows) => are(&rows, numbers),
        Err(_) => false,
    }
}

// Makes the statements one after another.
fn goes<S: Alter + Drop>(mut connection: Connection<S>, query: &str, script: &str) -> bool {
    for line in script.lines() {
        if !shows(&mut connection, query, line) {
            return false;
        }
    }
    true
}

// Whether a new store goes through these statements.
fn goes_through(alloc: Global, query: &str, script: &str) -> bool {
    match connect(alloc) {
        Ok(connection) => goes(connection, query, script),
        Err(_) => false,
    }
}

// A trial run refuses one growth, and so stands in the way of one of two stores.
#[test]
fn rows_and_tables_come_and_go(rt: HostRuntime) {
    for (query, script) in [
        (ROWS, ROWS_COME_AND_GO),
        (ROWS, A_ROLLBACK_BRINGS_ROWS_BACK),
        (LISTED, A_ROLLBACK_BRINGS_A_TABLE_BACK),
    ] {
        assert!(rt;
            goes_through(rt.alloc(), query, script) || goes_through(rt.alloc(), query, script),
            "{script}"
        );
    }
}
