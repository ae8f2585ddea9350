//! What the program shows and draws of reports, by its words.
use crate::tx_program_tests::run_with;
use std::fs;
use std::process::Abort;
use std::rt::HostRuntime;
use std::sync::Wait;
use std::thread::Threads;
use std::time::Clock;
use test_kit::Told;

/// A job with a part that is undone and done again, and a line that is refused.
const PARTS: &[u8] = b"open\ns 1 begin a -> ok\ns 2 begin a/b -> ok\ns 3 set a/b x 1 -> ok
s 4 abort a/b -> ok\ns 5 begin a/c -> ok\ns 6 set a/c x 2 -> ok\ns 7 commit a/c -> ok
s 8 commit a -> ok\ns 9 get a x -> refused done\ntable\nx=2\nend\n";

const JOB_LINE: &str = "a: committed; accesses 0; waits 0 over 0 entries\n";

const UNDONE_LINE: &str = "  b: undone on request; accesses 1; waits 0 over 0 entries\n";

const DONE_LINE: &str = "  c: committed; accesses 1; waits 0 over 0 entries\n";

const PARTS_SUMMARY: &str = "jobs: committed 1, undone 0
parts: committed 1, undone 1, tried again 1
victims: 0
refused: unknown 0, used 0, no-parent 0, orphan 0, done 1, children 0, waiting 0, full 0, store 0
stuck: 0
waits: 0
";

/// Two jobs, of which one waits for the other. All is done.
const WAITS: &[u8] = b"open\nl 1 begin a -> ok\nr 1 begin b -> ok\nl 2 set a x 1 -> ok
r 2 set b x 2 -> waits\nl 3 commit a -> ok\nr 2 set b x 2 -> ok\nr 3 commit b -> ok\ntable\nx=2\nend\n";

const WAITS_SHOWN: &str = "a: committed; accesses 1; waits 0 over 0 entries
b: committed; accesses 1; waits 1 over 2 entries
jobs: committed 2, undone 0
parts: committed 0, undone 0, tried again 0
victims: 0
refused: unknown 0, used 0, no-parent 0, orphan 0, done 0, children 0, waiting 0, full 0, store 0
stuck: 0
waits: 1
";

/// A table that no entry made.
const FALSE_ROW: &[u8] = b"open\ns 1 begin a -> ok\ns 2 commit a -> ok\ntable\nx=5\nend\n";

/// What the program does with these words.
fn run<R: Abort + Threads + Wait + Clock + Sync>(rt: &R, host: &HostRuntime, words: &str) -> Told {
    run_with(rt, host, (words, "", b""))
}

/// Whether these lines were written, and nothing else.
fn is_shown(told: &Told, status: u8, lines: &str) -> bool {
    told.is(status, lines.as_bytes(), b"")
}

/// Whether an SVG was written, and nothing else.
fn is_picture(told: &Told) -> bool {
    told.status == 0
        && told.out.starts_with(b"<svg ")
        && told.out.ends_with(b"</svg>\n")
        && told.err.is_empty()
}

// The lines of what is chosen, and the status.
#[test]
fn program_that_shows(rt: HostRuntime) {
    let _ = fs::remove_dir_all(&rt, "show_test");
    fs::create_dir_all(&rt, "show_test").expect(&rt, "folder");
    fs::write(&rt, "show_test/parts", PARTS).expect(&rt, "file");
    fs::write(&rt, "show_test/waits", WAITS).expect(&rt, "file");
    fs::write(&rt, "show_test/row", FALSE_ROW).expect(&rt, "file");
    for (words, status, lines) in [
        (
            "show show_test/parts",
            0,
            [JOB_LINE, UNDONE_LINE, DONE_LINE],
        ),
        (
            "show show_test/parts --strict",
            1,
            [JOB_LINE, UNDONE_LINE, DONE_LINE],
        ),
        ("show show_test/parts --jobs", 0, [JOB_LINE, "", ""]),
        (
            "show --undone show_test/parts",
            0,
            [JOB_LINE, UNDONE_LINE, ""],
        ),
        (
            "show show_test/parts --jobs --undone --strict",
            1,
            [JOB_LINE, "", ""],
        ),
    ] {
        let mut due = String::new(rt.alloc());
        for line in lines.into_iter().chain([PARTS_SUMMARY]) {
            due.push_str(line).expect(&rt, "memory");
        }
        assert!(rt;
            is_shown(&run(&rt, &rt, words), status, due.as_str()),
            "{words}"
        );
    }
    for words in ["show show_test/waits", "show show_test/waits --strict"] {
        assert!(rt; is_shown(&run(&rt, &rt, words), 0, WAITS_SHOWN), "{words}");
    }
    assert!(rt; is_shown(&run(&rt, &rt, "show show_test/row --strict"), 1, "no 5\n"));
    assert!(rt; run(&rt, &rt, "show nosuch").is_fault("tx: cannot read nosuch\n"));
    fs::remove_dir_all(&rt, "show_test").expect(&rt, "folder");
}

#[test]
fn program_that_draws(rt: HostRuntime) {
    let _ = fs::remove_dir_all(&rt, "draw_test");
    fs::create_dir_all(&rt, "draw_test").expect(&rt, "folder");
    fs::write(&rt, "draw_test/waits", WAITS).expect(&rt, "file");
    fs::write(&rt, "draw_test/row", FALSE_ROW).expect(&rt, "file");
    let drawn = run(&rt, &rt, "draw draw_test/waits");
    assert!(rt; is_picture(&drawn));
    assert!(rt; is_shown(&run(&rt, &rt, "draw draw_test/row"), 1, "no 5\n"));
    assert!(rt; run(&rt, &rt, "draw nosuch").is_fault("tx: cannot read nosuch\n"));
    fs::remove_dir_all(&rt, "draw_test").expect(&rt, "folder");
}
