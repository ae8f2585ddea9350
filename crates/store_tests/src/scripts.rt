//! What a store is asked, as a text, with what it has to answer. Its parts stand between
//! semicolons: `x=1` is a commit that sets a key, `x` is one that takes it out, and `x,y=2` is one
//! of two changes, which stand in byte order of their keys. A commit has to be made, or to have the
//! answer that stands behind it, as in `x=1 -> refused`. By `rows x=1:2` a load gives the row of
//! the value 1 that commit 2 set, and by `rows failed` it has that fault. By `faults 2 1` the store
//! has counted two faults and one failure.
use durable_top::{Row, StoreFault, TopStore};
use std::alloc::Global;
use std::cmp::Ordering;
use txn_names::{Change, Key};

pub(crate) fn word(answer: Result<(), StoreFault>) -> &'static str {
    match answer {
        Ok(()) => "ok",
        Err(StoreFault::Memory) => "memory",
        Err(StoreFault::Refused) => "refused",
        Err(StoreFault::Failed) => "failed",
    }
}

fn change(text: &str) -> Option<Change> {
    let (what, value) = match text.split_once('=') {
        Some((what, value)) => (what, Some(value.parse().ok()?)),
        None => (text, None),
    };
    let key = Key::parse(what.as_bytes()).ok()?;
    Some(Change { key, value })
}

// What the commit of two changes is answered, which stand in byte order of their keys.
fn commit_two<S: TopStore>(
    store: &mut S,
    first: Option<Change>,
    second: Option<Change>,
) -> &'static str {
    let (Some(first), Some(second)) = (first, second) else {
        return "no change";
    };
    match first.key.cmp(&second.key) {
        Ordering::Less => word(store.commit(&[first, second])),
        _ => "no order",
    }
}

/// What the commit of the text is answered.
pub(crate) fn commit<S: TopStore>(store: &mut S, text: &str) -> &'static str {
    if let Some((first, second)) = text.split_once(',') {
        return commit_two(store, change(first), change(second));
    }
    match change(text) {
        Some(change) => word(store.commit(&[change])),
        None => "no change",
    }
}

/// The row of the text, as in `x=1:2`.
pub(crate) fn row(text: &str) -> Option<Row> {
    let (what, number) = text.split_once(':')?;
    let Change { key, value } = change(what)?;
    let (value, commit) = (value?, number.parse().ok()?);
    Some(Row { key, value, commit })
}

/// Whether the rows are these, as in `x=1:2 y=2:2`.
pub(crate) fn are(rows: &[Row], text: &str) -> bool {
    let mut words = text.split_whitespace();
    for given in rows {
        match words.next() {
            Some(word) if row(word) == Some(*given) => {}
            _ => return false,
        }
    }
    words.next().is_none()
}

// Whether the two numbers are these, as in `2 1`.
fn are_counted(faults: u64, failures: u64, text: &str) -> bool {
    match text.split_once(' ') {
        Some((first, second)) => first.parse() == Ok(faults) && second.parse() == Ok(failures),
        None => false,
    }
}

// Whether the store answers this part of a text as it has to.
fn answers<S: TopStore>(alloc: Global, store: &mut S, part: &str) -> bool {
    if let Some(text) = part.strip_prefix("rows") {
        return match store.load(alloc) {
            Ok(rows) => are(&rows, text),
            Err(fault) => text.trim() == word(Err(fault)),
        };
    }
    if let Some(text) = part.strip_prefix("faults ") {
        return are_counted(store.faults(), store.failures(), text);
    }
    let (asked, answer) = part.split_once(" -> ").unwrap_or((part, "ok"));
    commit(store, asked) == answer
}

/// Whether the store answers each part of the text as it has to.
pub(crate) fn follows<S: TopStore>(alloc: Global, store: &mut S, script: &str) -> bool {
    for part in script.split(';') {
        if !answers(alloc, store, part.trim()) {
            return false;
        }
    }
    true
}

/// Whether the store follows the text. Where there is a second text, a commit of `b=2` comes first:
/// it is made, or finds no memory, and then the store follows the second text in the place of the
/// first. The first asks for no commit, so that it is asked again where the store finds no memory
/// for it.
pub(crate) fn serves<S: TopStore>(
    alloc: Global,
    store: &mut S,
    script: &str,
    wanting: &str,
) -> bool {
    if wanting.is_empty() {
        return follows(alloc, store, script);
    }
    let answer = commit(store, "b=2");
    if answer == "ok" {
        return follows(alloc, store, script) || follows(alloc, store, script);
    }
    answer == "memory" && follows(alloc, store, wanting)
}
