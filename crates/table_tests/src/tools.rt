//! What the scripts over tables share: how a line is read, how answers are spelled, and the calls
//! that several of them make. Under a trial run that refuses a growth a call is made again.
use lock_table::{Mode, TargetLocks};
use serial_spec::{Asked, Kind, NoMemory};
use std::process::Abort;
use test_kit::name;
use txn_names::{Key, Name};
use txn_tree::{Tree, TxnNo};
use wait_cycles::{Wait, Waits};

/// A line `VERB WHO WHAT -> WANT`, where what is absent is empty.
pub fn words(text: &str) -> (&str, &str, &str, &str) {
    let (asked, want) = text.split_once(" -> ").unwrap_or((text, ""));
    let (verb, rest) = asked.split_once(' ').unwrap_or((asked, ""));
    let (who, what) = rest.split_once(' ').unwrap_or((rest, ""));
    (verb, who, what, want)
}

/// Ends the process where it does not hold, and tells what, and of which number.
pub fn check(rt: &impl Abort, holds: bool, what: &str, number: u8) {
    assert!(rt; holds, "{what} {number}");
}

/// Whether that is the answer, `yes` or `no`.
pub fn is_so(answer: bool, want: &str) -> bool {
    want == if answer { "yes" } else { "no" }
}

/// Whether that is the value, a number or `none`.
pub fn is_value(value: Option<i64>, want: &str) -> bool {
    match value {
        Some(value) => want.parse().ok() == Some(value),
        None => want == "none",
    }
}

fn spelled(mode: Mode) -> &'static str {
    match mode {
        Mode::None => "none",
        Mode::Read => "read",
        Mode::Write => "write",
    }
}

/// Whether these are the modes, the held one and the retained one.
pub fn are_modes(modes: (Mode, Mode), want: &str) -> bool {
    let (held, retained) = want.split_once(' ').unwrap_or((want, ""));
    held == spelled(modes.0) && retained == spelled(modes.1)
}

/// Whether these are the transactions, in this order; `none` where there are none.
pub fn are_named(tree: &Tree, found: &[TxnNo], want: &str) -> bool {
    if want == "none" {
        return found.is_empty();
    }
    let mut left = found.iter();
    for word in want.split_whitespace() {
        let Some(number) = left.next() else {
            return false;
        };
        if tree.no_of(&name(word)) != Some(*number) {
            return false;
        }
    }
    left.next().is_none()
}

/// Whether the transaction begins.
pub fn begins(tree: &mut Tree, name: &Name) -> bool {
    tree.begin(name).is_ok() || tree.begin(name).is_ok()
}

/// Whether the transaction gets a lock on the key.
pub fn is_held(locks: &mut TargetLocks, txn: TxnNo, key: &Key, kind: Kind) -> bool {
    for _ in 0..2 {
        if let Ok(()) = locks.reserve(txn, key, kind) {
            locks.hold(txn, key, kind);
            return true;
        }
    }
    false
}

fn add_once(waits: &mut Waits, wait: &Wait) -> Result<(), NoMemory> {
    waits.cancel(wait.txn);
    match wait.asked {
        Asked::At(key, op) => waits.add(wait.txn, &key, op, wait.by),
        Asked::Over(group) => waits.add_sum(wait.txn, &group, wait.by),
    }
}

/// Whether the wait is added, in place of the one that its transaction has.
pub fn adds(waits: &mut Waits, wait: &Wait) -> bool {
    add_once(waits, wait).is_ok() || add_once(waits, wait).is_ok()
}
