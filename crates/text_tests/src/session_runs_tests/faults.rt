//! The line of each fault, to the byte, with its exit status and nothing on the output.
use crate::session_runs_tests::calls::{AMPLE, EMPTY, list_of, told_in_memory};
use crate::session_runs_tests::scripts::put;
use program_words::{Fault, tell};
use session_text::LineKind;
use std::alloc::Global;
use std::process::Abort;
use std::rt::HostRuntime;
use test_kit::texts::FIRST;

// Whether this fault is shown as this line without its line feed, and told by it with exit status
// 1.
fn is_told(rt: &impl Abort, alloc: Global, fault: Fault<'_>, line: &str) -> bool {
    let shown = format!(in alloc; "{fault}\n").expect(rt, "memory");
    let mut err = Vec::new(alloc);
    let status = tell(&mut err, fault);
    status == 1 && err.as_slice() == line.as_bytes() && shown.as_str() == line
}

#[test]
fn lines_of_faults(rt: HostRuntime) {
    for (fault, line) in [
        (Fault::CannotRead("a b.tx"), "tx: cannot read a b.tx\n"),
        (
            Fault::Line {
                line: 17,
                kind: LineKind::End,
            },
            "tx: line 17: end\n",
        ),
        (Fault::Schedule(0), "tx: schedule: item 0\n"),
        (Fault::CannotOpen, "tx: cannot open database\n"),
        (Fault::TooManyRows, "tx: too many rows\n"),
        (Fault::NoMemory, "tx: no memory\n"),
        (Fault::CannotStart, "tx: cannot start worker\n"),
        (Fault::CannotWrite, "tx: cannot write\n"),
    ] {
        assert!(rt; is_told(&rt, rt.alloc(), fault, line), "{line}");
    }
}

/// What is told of a text and a list. The text has a semicolon for each line feed. In the first
/// rows its second line is wrong, and in the others the list has an item that is no number of one
/// of two sessions.
const WRONG: &str = "\
line 2: name|session s;begin a/b/c/d/e/f/g/h/i/j/k/l/m/n/o/p/q;|none
line 2: name|session s;begin aaaaaaaaaaaaaaaaa;|none
line 2: number|session s;set a x -0;|none
line 2: number|session s;set a x 9223372036854775808;|none
line 2: shape|session s;get a  x;|none
line 2: word|session s;put a x 1;|none
line 2: word|session s;after a gone;|none
line 2: key|session s;get a x,;|none
line 2: shape|session s;sum a;|none
line 2: key|session s;sum a gggggggggggggggggggggggggggggggg;|none
line 2: empty|session s;;|none
line 2: header|session s;session s;|none
line 2: label|session s;session s,;|none
line 2: end|session s;begin a|none
schedule: item 1|session p;begin a;session q;begin b;|
schedule: item 2|session p;begin a;session q;begin b;|0,
schedule: item 3|session p;begin a;session q;begin b;|0,1,2
schedule: item 2|session p;begin a;session q;begin b;|0,01
schedule: item 1|session p;begin a;session q;begin b;|-0
schedule: item 2|session p;begin a;session q;begin b;|0,-1,5
schedule: item 2|session p;begin a;session q;begin b;|1, 0
schedule: item 2|session p;begin a;session q;begin b;|0,4294967296
schedule: item 2|session p;begin a;session q;begin b;|0,4294967295
schedule: item 2|session p;begin a;session q;begin b;|0,99999999999999999999
";

// Whether the text of this row is told as the row says.
fn is_wrong(rt: &impl Abort, alloc: Global, row: &str) -> bool {
    let (line, asked) = row.split_once('|').expect(rt, "a row");
    let (lines, list) = asked.split_once('|').expect(rt, "a row");
    let mut text = Vec::new(alloc);
    for byte in lines.as_bytes() {
        put(rt, &mut text, &[if *byte == b';' { b'\n' } else { *byte }]);
    }
    let mut due = Vec::new(alloc);
    put(rt, &mut due, b"tx: ");
    put(rt, &mut due, line.as_bytes());
    put(rt, &mut due, b"\n");
    let told = told_in_memory(rt, alloc, EMPTY, (text.as_slice(), list_of(list)), AMPLE);
    told.is(1, b"", due.as_slice())
}

#[test]
fn lines_of_texts_and_lists(rt: HostRuntime) {
    for row in WRONG.lines() {
        assert!(rt; is_wrong(&rt, rt.alloc(), row), "{row}");
    }
}

// A beginning of a right text has a report, or is told as one without its last line feed.
#[test]
fn text_cut_anywhere(rt: HostRuntime) {
    for (from, to, line) in [
        (0, 10, "tx: line 1: end\n"),
        (10, 18, "tx: line 2: end\n"),
        (18, 28, "tx: line 3: end\n"),
        (28, 36, "tx: line 4: end\n"),
        (36, FIRST.len(), "tx: line 5: end\n"),
    ] {
        for end in from..to {
            assert!(rt; end <= FIRST.len());
            let told = told_in_memory(&rt, rt.alloc(), EMPTY, (&FIRST[..end], None), AMPLE);
            if end == from {
                assert!(rt; told.status == 0, "at {end}");
            } else {
                assert!(rt; told.is_fault(line), "at {end}");
            }
        }
    }
}
