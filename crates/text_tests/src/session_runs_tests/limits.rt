//! Texts and stores of as much as may be, and of one more.
use crate::session_runs_tests::calls::{
    AMPLE, EMPTY, FirstCommit, told_by_workers, told_in_memory,
};
use crate::session_runs_tests::scripts::{Script, put};
use std::alloc::Global;
use std::process::Abort;
use std::rt::HostRuntime;

const LETTERS: [u8; 16] = *b"abcdefghijklmnop";

/// A key more than may be known, and sums over groups.
const WHERE_ALL_ARE_KNOWN: &[u8] = b"session s\nbegin a\nget a q\nsum a q\nsum a aaa\ncommit a\n";

/// Its entries.
const NONE_MORE_IS_KNOWN: &str = "\
s 1 begin a -> ok
s 2 get a q -> refused full
s 3 sum a q -> value 0
s 4 sum a aaa -> value 0
s 5 commit a -> ok
table
";

// So many lines of this template, by their numbers, with the header of a session where no bit of
// the mask is in the number.
fn text_of_lines(rt: &impl Abort, alloc: Global, template: &str, count: u32, mask: u32) -> Vec<u8> {
    let mut text = Script::new(alloc);
    for number in 0..count {
        text.session = number;
        if number & mask == 0 {
            text.line(rt, "session s#");
        }
        text.line(rt, template);
    }
    text.text
}

// How many lines end with this.
fn count_of(report: &str, end: &str) -> usize {
    let mut count: usize = 0;
    for line in report.lines() {
        if line.ends_with(end) {
            count = count.saturating_add(1);
        }
    }
    count
}

// One session has a line more than it may, and seventeen begin a transaction more than there may
// be: the last has one line, each other 1,024.
#[test]
fn texts_past_a_limit(rt: HostRuntime) {
    let text = text_of_lines(&rt, rt.alloc(), "begin a", 1025, 2047);
    let told = told_in_memory(&rt, rt.alloc(), EMPTY, (text.as_slice(), None), AMPLE);
    assert!(rt; told.is_fault("tx: line 1026: limit\n"), "a line more");
    let text = text_of_lines(&rt, rt.alloc(), "begin t#", 16385, 1023);
    let told = told_in_memory(&rt, rt.alloc(), EMPTY, (text.as_slice(), None), AMPLE);
    assert!(rt;
        told.status == 0 && told.err.is_empty(),
        "a transaction more"
    );
    let report = str::from_utf8(told.out.as_slice()).expect(&rt, "text");
    for (end, count) in [
        (" -> refused full", 1),
        ("s15360 1024 begin t16383 -> refused full", 1),
        (" -> ok", 16384),
    ] {
        assert!(rt; count_of(report, end) == count, "{end}");
    }
}

// As many rows as a manager takes, of the value 1, and with one more where that is asked.
fn most_rows(rt: &impl Abort, alloc: Global, one_more: bool) -> Vec<u8> {
    let mut rows = Vec::new(alloc);
    for a in LETTERS {
        for b in LETTERS {
            for c in LETTERS {
                put(rt, &mut rows, &[a, b, c, b'=', b'1', b'\n']);
            }
        }
    }
    if one_more {
        put(rt, &mut rows, b"q=1\n");
    }
    rows
}

#[test]
fn stores_of_most_rows_and_one_more(rt: HostRuntime) {
    for one_more in [false, true] {
        let rows = most_rows(&rt, rt.alloc(), one_more);
        let opening = (
            str::from_utf8(rows.as_slice()).expect(&rt, "text"),
            FirstCommit::Made,
        );
        let alone = told_in_memory(&rt, rt.alloc(), opening, (b"".as_slice(), None), AMPLE);
        let pooled = told_by_workers(&rt, rt.alloc(), opening, b"", 2);
        for (name, told) in [("alone", &alone), ("by workers", &pooled)] {
            if one_more {
                assert!(rt; told.is_fault("tx: too many rows\n"), "one more, {name}");
            } else {
                assert!(rt; told.status == 0, "as many as may be, {name}");
            }
        }
    }
}

// A sum makes no key known, so it is not refused where as many are known as may be.
#[test]
fn a_sum_where_all_keys_are_known(rt: HostRuntime) {
    let rows = most_rows(&rt, rt.alloc(), false);
    let opening = (
        str::from_utf8(rows.as_slice()).expect(&rt, "text"),
        FirstCommit::Made,
    );
    let told = told_in_memory(&rt, rt.alloc(), opening, (WHERE_ALL_ARE_KNOWN, None), AMPLE);
    assert!(rt; told.status == 0);
    let report = str::from_utf8(told.out.as_slice()).expect(&rt, "text");
    assert!(rt; report.contains(NONE_MORE_IS_KNOWN));
}
