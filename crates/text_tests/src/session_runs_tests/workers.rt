//! Texts by one worker, by two and by many: which order the threads take is theirs, and the table
//! is the same.
use crate::session_runs_tests::calls::{EMPTY, judged_by, told_by_workers};
use std::rt::HostRuntime;
use test_kit::texts::{EIGHT, FIRST, RETAINED, SIBLINGS};

/// Two sessions that move an amount between keys of a group, and two that sum over it: no sum is of
/// half a move.
const MOVES: &[u8] =
    b"session p0\nbegin a0\nadd a0 g.x 5\nadd a0 g.y -5\ncommit a0\nsession q0\nbegin b0\nsum b0 g\nsum b0 g\ncommit b0\n\
session p1\nbegin a1\nadd a1 g.x 5\nadd a1 g.y -5\ncommit a1\nsession q1\nbegin b1\nsum b1 g\nsum b1 g\ncommit b1\n";

#[test]
fn tables_by_workers(rt: HostRuntime) {
    for (name, text, table) in [
        ("first", FIRST, b"\ntable\nx=5\nend\n".as_slice()),
        ("siblings", SIBLINGS, b"\ntable\nx=1\ny=3\nend\n".as_slice()),
        ("retained", RETAINED, b"\ntable\nx=7\nend\n".as_slice()),
        ("eight", EIGHT, b"\ntable\nx=8\nend\n".as_slice()),
        (
            "moves",
            MOVES,
            b"\ntable\ng.x=10\ng.y=-10\nend\n".as_slice(),
        ),
        ("empty", b"".as_slice(), b"open\ntable\nend\n".as_slice()),
    ] {
        for workers in [1, 2, 16] {
            let told = told_by_workers(&rt, rt.alloc(), EMPTY, text, workers);
            assert!(rt;
                told.status == 0 && told.out.ends_with(table),
                "{name} by {workers}"
            );
            let (is_serial, _) = judged_by(&rt, rt.alloc(), text, workers, false);
            assert!(rt; is_serial, "{name} by {workers} is not serial");
        }
    }
}
