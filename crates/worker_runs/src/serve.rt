//! A session text by worker threads, from its bytes to the bytes of its report.
ghost use Rattle.std.specs.Prelude.{◌≡◌, IfErr, IfOk};
ghost use Rattle.session_runs.specs.Replays.{HasReplayCause, IsReplayed, IsUnwritten};
ghost use Rattle.session_runs.specs.Tellings.{IsAnswered};
ghost use Rattle.session_runs.specs.Ways.{ByWorkers};
ghost use Rattle.worker_runs.specs.Workers.{AreFew};

use durable_top::TopStore;
use session_runs::{ReplayFault, put_report, read_sessions};
use std::alloc::Global;
use std::sync::Wait;
use std::thread::Threads;
use std::time::Clock;
use txn_bytes::Sink;
use worker_pool::{Gate, serve};

/// Lets every line pass.
#[derive(Drop)]
pub struct OpenGate;

impl Gate for OpenGate {
    fn pass(&self, _session: u32, _line: u32) {}

    fn answered(&self, _session: u32, _line: u32) {}
}

/// Reads a session text, has so many workers attempt its lines over the store, writes the report,
/// and gives the store back. In which order the lines are attempted is the threads' choice;
/// whichever it is, the report says of it what every report says. The first fault is told: of the
/// text, of the run, or one that the writer answered. Only after one of the writer has `out` taken
/// bytes, which are a beginning of the report.
#[tactic(auto, using(session_runs::proofs::Causes::unread, session_runs::proofs::Causes::unread_answered, session_runs::proofs::Causes::unended, session_runs::proofs::Causes::written))]
pub fn run_text<R: Threads + Wait + Clock + Sync, S: TopStore + Send, G: Gate + Sync, W: Sink>(
    rt: &R,
    alloc: Global,
    text: &[u8],
    store: S,
    workers: u32,
    gate: &G,
    out: &mut W,
) -> Result<S, ReplayFault>
    requires { AreFew workers }
    ensures ok { IfOk result (λ left.
        IsReplayed S.TopStore (W.contents out.old) (W.contents out.new)
        text.now ByWorkers store left) }
    ensures err { IfErr result (λ fault.
        HasReplayCause S.TopStore (W.contents out.old) (W.contents out.new)
        text.now ByWorkers store fault) }
    ensures asked { IfErr result (λ fault. IsAnswered W.Sink out.new fault) }
    ensures unwritten { IfErr result (λ fault. IsUnwritten fault → out.new ≡ out.old) }
{
    let sessions = read_sessions(alloc, text)?;
    let (report, left) = match serve(rt, alloc, sessions, store, workers, gate) {
        Ok(run) => run,
        Err(fault) => return Err(ReplayFault::Serve(fault)),
    };
    put_report(&report, out)?;
    Ok(left)
}
