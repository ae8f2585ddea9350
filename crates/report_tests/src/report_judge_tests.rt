//! Verdicts on reports that were changed, and on readers that give one byte at a time, fail or do
//! not end. Under a trial run that refuses a growth the call is made again.
use report_check::Verdict;
use report_judge::{CheckFault, check};
use std::alloc::Global;
use std::io::{self, ErrorKind, Read};
use test_kit::Pieces;

const REPORT: [&str; 8] = [
    "open",
    "s 1 begin a -> ok",
    "s 2 set a x 5 -> ok",
    "s 3 get a x -> value 5",
    "s 4 commit a -> ok",
    "table",
    "x=5",
    "end",
];

// A reader that gives this byte for ever.
#[derive(Drop)]
struct Endless {
    byte: u8,
}

impl Read for Endless {
    fn read(&mut self, buf: &mut [u8]) -> io::Result<usize> {
        match buf.first_mut() {
            Some(byte) => {
                *byte = self.byte;
                Ok(1)
            }
            None => Ok(0),
        }
    }
}

fn judged_once(
    alloc: Global,
    text: &str,
    piece: usize,
    fails_at: usize,
) -> Result<Verdict, CheckFault> {
    let mut reader = Pieces::new(text.as_bytes(), piece, fails_at, ErrorKind::Other);
    check(alloc, &mut reader)
}

// What comes of a reader that gives so many bytes at a time, and whose call with this number, from
// 0, fails. Where a growth is refused, another such reader is judged.
fn judged(alloc: Global, text: &str, piece: usize, fails_at: usize) -> Result<Verdict, CheckFault> {
    match judged_once(alloc, text, piece, fails_at) {
        Err(CheckFault::NoMemory) => judged_once(alloc, text, piece, fails_at),
        told => told,
    }
}

// The text of these lines, with this in the place of the line with this number, counted from 1; or,
// with none, without it.
fn changed(alloc: Global, at: usize, with: Option<&str>) -> Option<String> {
    match changed_once(alloc, at, with) {
        Some(text) => Some(text),
        None => changed_once(alloc, at, with),
    }
}

fn changed_once(alloc: Global, at: usize, with: Option<&str>) -> Option<String> {
    let mut text = String::new(alloc);
    for (place, line) in REPORT.iter().enumerate() {
        let own = if place + 1 == at { with } else { Some(*line) };
        if let Some(line) = own {
            text.push_str(line).ok()?;
            text.push_str("\n").ok()?;
        }
    }
    Some(text)
}

// Whether the changed text has the verdict, read whole and read byte by byte.
fn has_verdict(alloc: Global, at: usize, with: Option<&str>, verdict: Verdict) -> bool {
    match changed(alloc, at, with) {
        Some(text) => is_judged(alloc, text.as_str(), verdict),
        None => false,
    }
}

fn is_judged(alloc: Global, text: &str, verdict: Verdict) -> bool {
    [1, 7, 5000].iter().all(|piece| judged(alloc, text, *piece, usize::MAX) == Ok(verdict))
}

#[test]
fn a_reader_that_fails(rt: HostRuntime) {
    let text = changed(rt.alloc(), 0, None).expect(&rt, "memory");
    // The last of these calls finds the end.
    let calls = text.len() / 7 + 2;
    for call in 0..calls {
        assert_eq!(rt;
            judged(rt.alloc(), text.as_str(), 7, call),
            Err(CheckFault::Read)
        );
    }
    assert_eq!(rt;
        judged(rt.alloc(), text.as_str(), 7, calls),
        Ok(Verdict::Yes)
    );
}

// Behind a line at fault nothing is read.
#[test]
fn a_reader_that_fails_behind_a_fault(rt: HostRuntime) {
    for (text, calls, line) in [
        ("opens\n", 1, 1),
        ("open\n\nopen\n", 1, 2),
        ("open\nx=1\nw=1\n", 2, 3),
    ] {
        assert_eq!(rt; judged(rt.alloc(), text, 7, calls), Ok(Verdict::No(line)));
    }
}

// Zeros are a line that is too long at last, and a line feed is an empty line at once.
#[test]
fn a_reader_without_an_end(rt: HostRuntime) {
    for byte in [0, b'\n'] {
        let told = match check(rt.alloc(), &mut Endless { byte }) {
            Err(CheckFault::NoMemory) => check(rt.alloc(), &mut Endless { byte }),
            told => told,
        };
        assert_eq!(rt; told, Ok(Verdict::No(1)));
    }
}

#[test]
fn changed_lines(rt: HostRuntime) {
    let rows = [
        (3, Some("s 3 set a x 5 -> ok"), 3),
        (3, Some("s 2 set a x 5 -> new 5"), 3),
        (4, Some("s 3 get a x -> none"), 4),
        (4, Some("s 3 get a x -> value 6"), 4),
        (7, Some("x=6"), 7),
        (5, None, 5),
        (5, Some("s 4 commit a -> refused store"), 6),
        (5, Some("s 4 commit a -> refused store\n* close a"), 8),
        (7, None, 7),
        (8, Some("end\nend"), 9),
        (3, Some("s 2 set b x 5 -> ok"), 3),
        (7, Some("x=5\nx=5"), 8),
        (7, Some("x=5\ny=5"), 8),
        (5, Some("* close a\ns 4 commit a -> orphan a"), 6),
        (2, Some("s 1 begin a -> ok\nt 1 begin a/b -> ok"), 6),
        (6, Some("t 1 begin b -> ok\ntable"), 7),
        (6, Some("t 1 get a x -> waits\ntable"), 7),
        (
            6,
            Some("t 1 get a x -> waits\nt 1 get a y -> refused done\ntable"),
            7,
        ),
    ];
    for (at, with, line) in rows {
        assert!(rt;
            has_verdict(rt.alloc(), at, with, Verdict::No(line)),
            "line {at} changed"
        );
    }
}

#[test]
fn whole_texts(rt: HostRuntime) {
    let rows = [
        ("", Verdict::No(1)),
        ("open\ntable\nend\n", Verdict::Yes),
        ("open\ntable\nend", Verdict::No(3)),
        (
            "open\ns 1 begin a -> ok\ns 2 set a x 5 -> ok\ns 3 get a x -> value 5\ns 4 commit a -> ok\ntable\nx=5\nend",
            Verdict::No(8),
        ),
        ("open\nx=1\nx=1\ntable\nend\n", Verdict::No(3)),
        ("open\nx=1\ny=2\ntable\nx=1\ny=2\nend\n", Verdict::Yes),
        ("open\nx=1\ny=2\ntable\nx=1\nend\n", Verdict::No(6)),
        ("open\nx=1\ntable\nw=1\nx=1\nend\n", Verdict::No(4)),
    ];
    for (text, verdict) in rows {
        assert!(rt; is_judged(rt.alloc(), text, verdict), "{text}");
    }
    assert!(rt; has_verdict(rt.alloc(), 0, None, Verdict::Yes));
}

// The opening rows of a report with sums, and the final ones.
const SUMMED: [&str; 2] = [
    "open\ng=50\ng.a=1\ng.b=2\nga.x=9\ns 1 begin a -> ok\n",
    "table\ng=50\ng.b=2\ng.c=4\nga.x=9\nend\n",
];

fn between(alloc: Global, lines: &str) -> Option<String> {
    let mut text = String::new(alloc);
    text.push_str(SUMMED[0]).ok()?;
    text.push_str(lines).ok()?;
    text.push_str(SUMMED[1]).ok()?;
    Some(text)
}

// Whether the lines have the verdict between the rows.
fn is_judged_between(alloc: Global, lines: &str, verdict: Verdict) -> bool {
    let text = match between(alloc, lines) {
        Some(text) => Some(text),
        None => between(alloc, lines),
    };
    match text {
        Some(text) => is_judged(alloc, text.as_str(), verdict),
        None => false,
    }
}

#[test]
fn sums(rt: HostRuntime) {
    let rows = [
        (
            "s 2 sum a g -> value 3\ns 3 set a g.c 4 -> ok\ns 4 sum a g -> value 7\ns 5 del a g.a -> ok\ns 6 sum a g -> value 6\ns 7 sum a g.a -> value 0\ns 8 commit a -> ok\n",
            Verdict::Yes,
        ),
        (
            "s 2 set a g.c 4 -> ok\ns 3 del a g.a -> ok\ns 4 sum a g -> value 56\ns 5 commit a -> ok\n",
            Verdict::No(9),
        ),
        (
            "s 2 sum a g -> value 6\ns 3 set a g.c 4 -> ok\ns 4 del a g.a -> ok\ns 5 commit a -> ok\n",
            Verdict::No(7),
        ),
        (
            "s 2 set a g.c 4 -> ok\ns 3 del a g.a -> ok\ns 4 sum a g -> value 7\ns 5 commit a -> ok\n",
            Verdict::No(9),
        ),
        (
            "s 2 set a g.c 4 -> ok\ns 3 del a g.a -> ok\ns 4 sum a g -> overflow\ns 5 commit a -> ok\n",
            Verdict::No(9),
        ),
        (
            "s 2 begin a/b -> ok\ns 3 set a/b g.c 4 -> ok\ns 4 sum a/b g -> value 7\ns 5 commit a/b -> ok\ns 6 del a g.a -> ok\ns 7 sum a g -> value 6\ns 8 commit a -> ok\n",
            Verdict::Yes,
        ),
        (
            "t 1 begin b -> ok\nt 2 sum b g -> value 3\nt 3 commit b -> ok\ns 2 set a g.c 4 -> ok\ns 3 del a g.a -> ok\ns 4 commit a -> ok\n",
            Verdict::Yes,
        ),
        (
            "t 1 begin b -> ok\nt 2 sum b g -> value 3\ns 2 set a g.c 4 -> ok\ns 3 del a g.a -> ok\ns 4 commit a -> ok\nt 3 commit b -> ok\n",
            Verdict::No(8),
        ),
        (
            "t 1 begin b -> ok\nt 2 sum b g -> value 8\nt 3 abort b -> ok\ns 2 set a g.c 4 -> ok\ns 3 del a g.a -> ok\ns 4 commit a -> ok\n",
            Verdict::Yes,
        ),
        (
            "t 1 sum b g -> refused unknown\nt 2 begin b -> ok\ns 2 set a g.c 4 -> ok\nt 3 sum b g -> waits\ns 3 del a g.a -> ok\ns 4 commit a -> ok\nt 3 sum b g -> value 6\nt 4 commit b -> ok\n",
            Verdict::Yes,
        ),
        ("s 2 sum a g -> none\n", Verdict::No(7)),
        ("s 2 sum a g -> refused full\n", Verdict::No(7)),
        ("s 2 sum b g -> value 3\n", Verdict::No(7)),
    ];
    for (lines, verdict) in rows {
        assert!(rt; is_judged_between(rt.alloc(), lines, verdict), "{lines}");
    }
}

#[test]
fn sums_past_an_i64(rt: HostRuntime) {
    let rows = [
        (
            "open\ng.a=9223372036854775807\ng.b=1\ns 1 begin a -> ok\ns 2 sum a g -> overflow\ns 3 set a g.c -1 -> ok\ns 4 sum a g -> value 9223372036854775807\ns 5 commit a -> ok\ntable\ng.a=9223372036854775807\ng.b=1\ng.c=-1\nend\n",
            Verdict::Yes,
        ),
        (
            "open\ng.a=9223372036854775807\ng.b=1\ns 1 begin a -> ok\ns 2 sum a g -> value -9223372036854775808\ns 3 commit a -> ok\ntable\ng.a=9223372036854775807\ng.b=1\nend\n",
            Verdict::No(5),
        ),
    ];
    for (text, verdict) in rows {
        assert!(rt; is_judged(rt.alloc(), text, verdict), "{text}");
    }
}
