//! Databases in memory that have rows, get many at once, or are used again.
use crate::session_runs_tests::calls::{AMPLE, told_by};
use crate::session_runs_tests::reports::text_of;
use crate::session_runs_tests::stores::{
    ADDED_AT_ONCE, EMPTY_REPORT, FIRST_REPORT, NINE_STORED, ONE_STORED, REMOVED_AGAIN,
    SECOND_REPORT, UNDONE_WITH_PARENT,
};
use durable_top::TopStore;
use sql_store::MemoryStore;
use std::alloc::Global;
use std::process::Abort;
use std::rt::HostRuntime;
use test_kit::Told;

// What the first text tells over the store, and the second over what the first one leaves.
fn told_in_turn<S: TopStore>(
    rt: &impl Abort,
    alloc: Global,
    store: S,
    (first, second): (&[u8], &[u8]),
) -> (Told, Told) {
    let (told, left) = told_by(rt, alloc, store, (first, None), AMPLE);
    let left = left.expect(rt, "a store");
    let (again, _) = told_by(rt, alloc, left, (second, None), AMPLE);
    (told, again)
}

// The same over a new database in memory.
fn told_by_database(rt: &impl Abort, alloc: Global, texts: (&[u8], &[u8])) -> (Told, Told) {
    let store = MemoryStore::new(alloc).expect(rt, "memory");
    told_in_turn(rt, alloc, store, texts)
}

#[test]
fn two_runs_on_one_database(rt: HostRuntime) {
    for (label, first, second) in [
        ("s", NINE_STORED, UNDONE_WITH_PARENT),
        ("s", ONE_STORED, REMOVED_AGAIN),
        ("", EMPTY_REPORT, ADDED_AT_ONCE),
        ("s", FIRST_REPORT, SECOND_REPORT),
    ] {
        let text = text_of(&rt, rt.alloc(), first, label);
        let next = text_of(&rt, rt.alloc(), second, "s");
        let texts = (text.as_slice(), next.as_slice());
        let (told, again) = told_by_database(&rt, rt.alloc(), texts);
        assert!(rt; told.is_report(first.as_bytes()), "{first}");
        assert!(rt; again.is_report(second.as_bytes()), "{second}");
    }
}
