//! A run of a text by a schedule over a store that is there, from the text's bytes to a report or a
//! fault line, and an exit status.
ghost use Rattle.std.specs.Prelude.{◌≡◌, ◌≢◌, ◌≤◌};
ghost use Rattle.program_words.specs.declared.status.TheConstants.{DONE, FAILED};
ghost use Rattle.program_words.specs.Tellings.{Accounts};
ghost use Rattle.session_runs.specs.Printing.{IsMissed, IsPrinted};
ghost use Rattle.session_runs.specs.Ways.{Scheduled};

use crate::ends::end_run;
use crate::replay::replay_text;
use durable_top::TopStore;
use program_words::Ended;
use std::alloc::Global;
use txn_bytes::Sink;

/// Replays this text over this store by this schedule, and answers the exit status with the store
/// that the run left. The report goes to `out`, and only where the whole run was done; a fault
/// goes to `err`, in one line.
pub fn replay_over<S: TopStore, W: Sink, E: Sink>(
    alloc: Global,
    text: &[u8],
    schedule: &[u32],
    store: S,
    out: &mut W,
    err: &mut E,
) -> Ended<S>
    // Wide: the two writers, the text, the way and the store, before the run and behind it.
    ensures done { result.status ≡ DONE
        → IsPrinted S.TopStore (W.contents out.old) (W.contents out.new)
        text.now (Scheduled schedule.now) store result.left }
    // Wide: the same, with what the error writer was asked.
    ensures undone { result.status ≢ DONE
        → IsMissed S.TopStore W.Sink E.Sink out.old out.new err.old err.new
        text.now (Scheduled schedule.now) store result.left }
    ensures accounts { Accounts W.Sink E.Sink out.new err.old err.new result.status }
    ensures status { result.status ≤ FAILED }
{
    let ran = replay_text(alloc, text, schedule, store, out);
    end_run(ran, out, err)
}
