//! Each report is the one that is due to the texts of its own entries, its committed transactions
//! are a serial run, and that run leaves its table.
use crate::session_runs_tests::calls::{AMPLE, FirstCommit, judged, list_of, told_in_memory};
use crate::session_runs_tests::scripts::put;
use crate::session_runs_tests::{groups, runs, sessions, stores};
use std::alloc::Global;
use std::process::Abort;
use std::rt::HostRuntime;

// The number and the command of an entry that is this session's, and of another line than the one
// before.
fn command_of<'a>(entry: &'a str, label: &str, before: &[u8]) -> Option<(&'a [u8], &'a [u8])> {
    let (line, _) = entry.split_once(" -> ")?;
    let (found, numbered) = line.split_once(' ')?;
    let (number, command) = numbered.split_once(' ')?;
    let (number, command) = (number.as_bytes(), command.as_bytes());
    if found == label && number != before {
        Some((number, command))
    } else {
        None
    }
}

// Puts the session of this label behind the text.
fn put_session(rt: &impl Abort, text: &mut Vec<u8>, report: &str, label: &str) {
    put(rt, text, b"session ");
    put(rt, text, label.as_bytes());
    put(rt, text, b"\n");
    let mut before: &[u8] = b"";
    for entry in report.lines() {
        if let Some((number, command)) = command_of(entry, label, before) {
            put(rt, text, command);
            put(rt, text, b"\n");
            before = number;
        }
    }
}

/// The sessions of these labels, whose lines are the texts of the report's entries. A line that
/// waits has several.
pub fn text_of(rt: &impl Abort, alloc: Global, report: &str, labels: &str) -> Vec<u8> {
    let mut text = Vec::new(alloc);
    for label in labels.split_whitespace() {
        put_session(rt, &mut text, report, label);
    }
    text
}

// Checks a case. Its first line has the labels of the sessions in the order of the text, the list
// by which they are scheduled or `none`, how the first commit of the store goes, and what the case
// shows. The rest is the report, with whose opening rows the store begins.
fn check(rt: &impl Abort, alloc: Global, case: &str) {
    let (head, report) = case.split_once('\n').expect(rt, "a case");
    let (labels, rest) = head.split_once('|').expect(rt, "labels");
    let (list, rest) = rest.split_once('|').expect(rt, "a list");
    let commit = if rest.starts_with("refused|") {
        FirstCommit::Refused
    } else if rest.starts_with("failed|") {
        FirstCommit::Failed
    } else {
        FirstCommit::Made
    };
    let text = text_of(rt, alloc, report, labels);
    let (opening, task) = ((report, commit), (text.as_slice(), list_of(list)));
    let told = told_in_memory(rt, alloc, opening, task, AMPLE);
    assert!(rt; told.is_report(report.as_bytes()), "{case}");
    assert!(rt; judged(rt, alloc, opening, task), "not serial: {case}");
}

#[test]
fn reports_of_their_own_texts(rt: HostRuntime) {
    for cases in [runs::CASES, sessions::CASES, groups::CASES, stores::CASES] {
        for case in cases.split('#') {
            if !case.is_empty() {
                check(&rt, rt.alloc(), case);
            }
        }
    }
}
