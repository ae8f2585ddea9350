//! Runs by workers: what no clause says, that they take turns as they should.
mod gates;
mod rows;

use durable_top::MemStore;
use run_reports::Report;
use session_text::Sessions;
use std::alloc::Global;
use std::process::Abort;
use std::sync::Wait;
use std::thread::Threads;
use std::time::Clock;
use worker_pool::{Gate, MOST_WORKERS, serve};

/// The report of a text over an empty table.
fn served<R: Threads + Wait + Clock + Abort + Sync, G: Gate + Sync>(
    rt: &R,
    alloc: Global,
    text: &[u8],
    workers: u32,
    gate: &G,
) -> Report {
    assert!(rt; workers <= MOST_WORKERS);
    let sessions = Sessions::parse(alloc, text).expect(rt, "a text");
    let store = MemStore::new(alloc, &[]).expect(rt, "memory");
    let (report, store) = serve(rt, alloc, sessions, store, workers, gate).expect(rt, "a report");
    drop(store);
    report
}
