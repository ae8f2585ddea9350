//! Stores in memory commit by commit: one without faults, one that refuses, and one that fails.
use crate::scripts::{row, serves};
use durable_top::{MemStore, are_rising, table_of};
use std::alloc::Global;

// A store of this row, or one of none that refuses or fails at its second commit. None is made
// where memory is missing.
fn opened(alloc: Global, opening: &str) -> Option<MemStore> {
    match row(opening) {
        Some(row) if 0 <= row.commit => MemStore::new(alloc, &[row]).ok(),
        _ if opening.starts_with("fails") => MemStore::failing(alloc, &[], 2).ok(),
        _ => MemStore::refusing(alloc, &[], 2).ok(),
    }
}

// Whether such a store follows the texts, where one is made.
fn tried(alloc: Global, opening: &str, script: &str, wanting: &str) -> Option<bool> {
    match opened(alloc, opening) {
        Some(mut store) => Some(serves(alloc, &mut store, script, wanting)),
        None => None,
    }
}

/// How a store is opened, and the text that it follows.
const STORES: &str = "\
b=2:3 => c=3; a=-1; b; b; c=9; faults 0 0; rows a=-1:5 c=9:6
refuses the second => a=1; b=2 -> refused; b=3; faults 1 0; rows a=1:1 b=3:2
fails at the second => a=1; b=2 -> failed; b=3 -> failed; faults 2 1; rows failed";

// A trial run refuses one growth, and so stands in the way of one of two stores.
#[test]
fn stores_without_faults_and_with_planned_ones(rt: HostRuntime) {
    for line in STORES.lines() {
        let (opening, script) = line.split_once(" => ").unwrap_or((line, ""));
        assert!(rt;
            tried(rt.alloc(), opening, script, "") == Some(true)
                || tried(rt.alloc(), opening, script, "") == Some(true),
            "{line}"
        );
    }
}

// A commit that finds no memory is a fault, and leaves what the store gives. Made again, it is
// made.
#[test]
fn a_commit_that_finds_no_memory(rt: HostRuntime) {
    let made = "rows a=1:0 b=2:1; faults 0 0";
    let wanting = "rows a=1:0; b=2; faults 1 0; rows a=1:0 b=2:1";
    let first = tried(rt.alloc(), "a=1:0", made, wanting);
    assert!(rt;
        first == Some(true)
            || first.is_none() && tried(rt.alloc(), "a=1:0", made, wanting) == Some(true)
    );
}

// Whether the two rows rise or not, and make a table of so many, in which the first has its value.
// None is made where memory is missing.
fn make_a_table(alloc: Global, first: &str, second: &str, rise: bool, len: usize) -> Option<bool> {
    let rows = [row(first)?, row(second)?];
    let table = table_of(alloc, &rows).ok()?;
    let is_found = table.get(&rows[0].key) == Some(rows[0].value);
    Some(are_rising(&rows) == rise && table.len() == len && is_found)
}

// Of two rows with one key the first counts.
#[test]
fn rows_make_a_table(rt: HostRuntime) {
    for (first, second, rise, len) in [
        ("a=1:0", "b=2:0", true, 2),
        ("b=2:0", "a=1:0", false, 2),
        ("b=2:0", "b=3:0", false, 1),
    ] {
        assert!(rt;
            make_a_table(rt.alloc(), first, second, rise, len) == Some(true)
                || make_a_table(rt.alloc(), first, second, rise, len) == Some(true),
            "{first} {second}"
        );
    }
}
