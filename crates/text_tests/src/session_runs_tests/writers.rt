//! Reports and rows to a writer that takes no more, or passes nothing on.
use crate::session_runs_tests::calls::{AMPLE, EMPTY, FirstCommit, listed, told_in_memory};
use std::rt::HostRuntime;
use test_kit::texts::{FIRST, FIRST_REPORT};

/// Two transactions, the second of which writes the key that is first in byte order.
const TWO: &[u8] = b"session s\nbegin a\nset a y -1\ncommit a\nbegin b\nset b x 2\ncommit b\n";

const TWO_ROWS: &[u8] = b"x=2 2\ny=-1 1\n";

const CANNOT_WRITE: &[u8] = b"tx: cannot write\n";

#[test]
fn reports_to_a_writer_that_fails(rt: HostRuntime) {
    for (name, room, out) in [
        ("no byte", (0, 1), b"".as_slice()),
        ("20 bytes", (20, 1), b"open\ns 1 begin a -> ".as_slice()),
        ("not passed on", (FIRST_REPORT.len(), 0), FIRST_REPORT),
    ] {
        let told = told_in_memory(&rt, rt.alloc(), EMPTY, (FIRST, None), room);
        assert!(rt; told.is(1, out, CANNOT_WRITE), "{name}");
    }
}

// A device that fails at the first commit gives no rows.
#[test]
fn rows_with_numbers(rt: HostRuntime) {
    for (name, text, commit, room, status, out, err) in [
        (
            "none",
            b"".as_slice(),
            FirstCommit::Made,
            AMPLE,
            0,
            b"".as_slice(),
            b"".as_slice(),
        ),
        (
            "two",
            TWO,
            FirstCommit::Made,
            AMPLE,
            0,
            TWO_ROWS,
            b"".as_slice(),
        ),
        (
            "failed",
            TWO,
            FirstCommit::Failed,
            AMPLE,
            1,
            b"".as_slice(),
            b"tx: cannot open database\n".as_slice(),
        ),
        (
            "no byte",
            TWO,
            FirstCommit::Made,
            (0, 1),
            1,
            b"".as_slice(),
            CANNOT_WRITE,
        ),
        (
            "7 bytes",
            TWO,
            FirstCommit::Made,
            (7, 1),
            1,
            b"x=2 2\ny".as_slice(),
            CANNOT_WRITE,
        ),
        (
            "not passed on",
            TWO,
            FirstCommit::Made,
            (TWO_ROWS.len(), 0),
            1,
            TWO_ROWS,
            CANNOT_WRITE,
        ),
    ] {
        let told = listed(&rt, rt.alloc(), ("", commit), text, room);
        assert!(rt; told.is(status, out, err), "{name}");
    }
}
