//! A session text, from its bytes to the bytes of its report.
ghost use Rattle.std.specs.Prelude.{◌≡◌, IfErr, IfOk};
ghost use Rattle.session_runs.specs.Replays.{HasReplayCause, IsReplayed, IsUnwritten};
ghost use Rattle.session_runs.specs.Tellings.{IsAnswered};
ghost use Rattle.session_runs.specs.Ways.{Scheduled};

use crate::ends::{put_report, read_sessions};
use durable_top::TopStore;
use interleavings::{RunFault, ServeFault, run_schedule};
use report_text::WriteFault;
use session_text::TextFault;
use std::alloc::Global;
use txn_bytes::Sink;

/// Why there is no report of a text.
#[derive(Clone, Copy, Debug, PartialEq, Eq)]
pub enum ReplayFault {
    Text(TextFault),
    /// Of a run by a schedule.
    Run(RunFault),
    /// Of a run by workers.
    Serve(ServeFault),
    Write(WriteFault),
}

/// Reads a session text, runs it over the store by the schedule, writes the report, and gives the
/// store back. The first fault is told: of the text, of the run, or one that the writer answered.
/// Only after one of the writer has `out` taken bytes, which are a beginning of the report.
#[tactic(auto, using(crate::proofs::Causes::unread, crate::proofs::Causes::unread_answered, crate::proofs::Causes::unended, crate::proofs::Causes::written))]
pub fn replay_text<S: TopStore, W: Sink>(
    alloc: Global,
    text: &[u8],
    schedule: &[u32],
    store: S,
    out: &mut W,
) -> Result<S, ReplayFault>
    ensures ok { IfOk result (IsReplayed S.TopStore (W.contents out.old) (W.contents out.new)
        text.now (Scheduled schedule.now) store) }
    ensures err { IfErr result (HasReplayCause S.TopStore (W.contents out.old) (W.contents out.new)
        text.now (Scheduled schedule.now) store) }
    ensures asked { IfErr result (λ fault. IsAnswered W.Sink out.new fault) }
    ensures unwritten { IfErr result (λ fault. IsUnwritten fault → out.new ≡ out.old) }
{
    let sessions = read_sessions(alloc, text)?;
    let (report, left) = match run_schedule(alloc, &sessions, schedule, store) {
        Ok(run) => run,
        Err(fault) => return Err(ReplayFault::Run(fault)),
    };
    put_report(&report, out)?;
    Ok(left)
}
