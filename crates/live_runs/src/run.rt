//! A live run, from the store to the report and the exit status.
ghost use Rattle.std.specs.Prelude.{◌≡◌, ◌≤◌, IsSomeAnd, IfErr, IfOk};
ghost use Rattle.program_words.specs.declared.status.TheConstants.{DONE, FAILED};
ghost use Rattle.live_runs.specs.Living.{Begins, Finishes, HasBeginFault, HasEndFault, HasLiveCause, IsLived, IsUnlived};

use crate::fault::{LiveFault, tell_end};
use crate::hearing::hear_all;
use crate::showing::{show_opening, show_rest};
use durable_top::TopStore;
use live_sessions::Live;
use program_words::{DONE, Ended};
use std::alloc::Global;
use txn_bytes::{Sink, Source};

// No sessions yet, and the opening is shown. The store comes back where that was not taken.
fn begin<S: TopStore, W: Sink>(
    alloc: Global,
    store: S,
    out: &mut W,
) -> Result<Live<S>, (LiveFault, Option<S>)>
    ensures ok { IfOk result (λ live. Begins S.TopStore W.Sink store live out.old out.new) }
    ensures err { IfErr result (λ end.
        HasBeginFault S.TopStore W.Sink store out.old out.new end.1 end.0) }
{
    let live = match Live::open(alloc, store) {
        Ok(live) => live,
        Err(fault) => return Err((LiveFault::Open(fault), None)),
    };
    match show_opening(live.opening(), out) {
        Ok(()) => Ok(live),
        Err(_) => Err((LiveFault::Write, Some(live.give_up()))),
    }
}

// Runs the sessions to their end, and shows what of the report was not shown before.
fn end<S: TopStore, W: Sink>(live: Live<S>, out: &mut W) -> Result<S, (LiveFault, S)>
    ensures ok { IfOk result (λ left. Finishes S.TopStore W.Sink live left out.old out.new) }
    ensures err { IfErr result (λ end.
        HasEndFault S.TopStore W.Sink live out.old out.new end.1 end.0) }
{
    let written = live.history().len();
    let (report, left) = match live.finish() {
        Ok(run) => run,
        Err(left) => return Err((LiveFault::NoMemory, left)),
    };
    match show_rest(&report, written, out) {
        Ok(()) => Ok(left),
        Err(_) => Err((LiveFault::Write, left)),
    }
}

// The opening, the lines of the input, and the end. What the error writer is told of a fault is
// not among it.
fn run_live<R: Source, S: TopStore, W: Sink, E: Sink>(
    alloc: Global,
    input: &mut R,
    store: S,
    out: &mut W,
    err: &mut E,
) -> Result<S, (LiveFault, Option<S>)>
    ensures ok { IfOk result (IsLived R.Source S.TopStore W.Sink E.Sink store input.old input.new
        out.old out.new err.old err.new) }
    // Wide: the reader, the store and the two writers, before the run and behind it.
    ensures err { IfErr result (λ end. HasLiveCause R.Source S.TopStore W.Sink E.Sink
        store input.old input.new out.old out.new err.old err.new end.1 end.0) }
{
    let live = begin(alloc, store, out)?;
    let live = match hear_all(live, input, out, err) {
        Ok(live) => live,
        Err((fault, left)) => return Err((fault, Some(left))),
    };
    match end(live, out) {
        Ok(left) => Ok(left),
        Err((fault, left)) => Err((fault, Some(left))),
    }
}

/// Runs sessions whose lines are read as they come, over this store, and answers the exit status
/// with the store that the run left.
///
/// Each line of the input is a request, `LABEL LINE`: a line for the session with that label. It
/// is attempted, and what it brings about is written to `out` and passed on, before the next one
/// is read. What was written is always a beginning of the report, and at the end of the input the
/// whole report. A line that is not taken costs nobody else anything: it changes nothing, and
/// `err` gets one line with its number and why. A fault that ends the run goes to `err` too; what
/// had committed until then stands in the store, which comes back, unless it was not opened. Where
/// `err` fails, the run goes on without it.
pub fn live_over<R: Source, S: TopStore, W: Sink, E: Sink>(
    alloc: Global,
    input: &mut R,
    store: S,
    out: &mut W,
    err: &mut E,
) -> Ended<S>
    // Wide: the reader, the store and the two writers, before the run and behind it.
    ensures done { result.status ≡ DONE → IsSomeAnd result.left (λ left.
        IsLived R.Source S.TopStore W.Sink E.Sink
        store input.old input.new out.old out.new err.old err.new left) }
    // Wide: the same.
    ensures failed { result.status ≡ FAILED →
        IsUnlived R.Source S.TopStore W.Sink E.Sink
        store input.old input.new out.old out.new err.old err.new result.left }
    ensures status { result.status ≤ FAILED }
{
    match run_live(alloc, input, store, out, err) {
        Ok(left) => Ended {
            status: DONE,
            left: Some(left),
        },
        Err((fault, left)) => Ended {
            status: tell_end(err, fault),
            left,
        },
    }
}
