//! A run of a text by workers over a store that is there, from the text's bytes to a report or a
//! fault line, and an exit status.
ghost use Rattle.std.specs.Prelude.{◌≡◌, ◌≢◌, ◌≤◌};
ghost use Rattle.program_words.specs.declared.status.TheConstants.{DONE, FAILED};
ghost use Rattle.program_words.specs.Tellings.{Accounts};
ghost use Rattle.session_runs.specs.Printing.{IsMissed, IsPrinted};
ghost use Rattle.session_runs.specs.Ways.{ByWorkers};
ghost use Rattle.worker_runs.specs.Workers.{AreFew};

use crate::serve::{OpenGate, run_text};
use durable_top::TopStore;
use program_words::Ended;
use session_runs::end_run;
use std::alloc::Global;
use std::sync::Wait;
use std::thread::Threads;
use std::time::Clock;
use txn_bytes::Sink;

/// Runs this text over this store by so many workers, and answers the exit status with the store
/// that the run left. The report goes to `out`, and only where the whole run was done; a fault goes
/// to `err`, in one line.
pub fn serve_over<R: Threads + Wait + Clock + Sync, S: TopStore + Send, W: Sink, E: Sink>(
    threads: &R,
    alloc: Global,
    text: &[u8],
    workers: u32,
    store: S,
    out: &mut W,
    err: &mut E,
) -> Ended<S>
    requires { AreFew workers }
    ensures done { result.status ≡ DONE
        → IsPrinted S.TopStore (W.contents out.old) (W.contents out.new)
        text.now ByWorkers store result.left }
    // Wide: the two writers, the text, the way and the store, before the run and behind it.
    ensures undone { result.status ≢ DONE
        → IsMissed S.TopStore W.Sink E.Sink out.old out.new err.old err.new
        text.now ByWorkers store result.left }
    ensures accounts { Accounts W.Sink E.Sink out.new err.old err.new result.status }
    ensures status { result.status ≤ FAILED }
{
    let ran = run_text(threads, alloc, text, store, workers, &OpenGate, out);
    end_run(ran, out, err)
}
