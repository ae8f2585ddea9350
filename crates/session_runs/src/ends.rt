//! The first step and the last ones of every run of a text: from its bytes to its sessions, from
//! the report to its bytes, and from what came of the run to an exit status.
ghost use Rattle.std.specs.Prelude.{◌≡◌, ◌≢◌, ◌≤◌, IsNone, Ok, IfErr, IfOk, OnOk};
ghost use Rattle.session_text.specs.Texts.{sessions_of};
ghost use Rattle.txn_bytes.specs.Written.{AppendsFront};
ghost use Rattle.std.specs.Io.KnownBytes.{Appends, Keeps};
ghost use Rattle.report_check.specs.Verdicts.{HasVerdict};
ghost use Rattle.report_check.specs.declared.verdict.Verdict.TheVariants.{Yes};
ghost use Rattle.report_text.specs.Lines.{spelled_report};
ghost use Rattle.program_words.specs.declared.status.TheConstants.{DONE, FAILED};
ghost use Rattle.program_words.specs.Faults.{IsSaid, spelled_fault};
ghost use Rattle.program_words.specs.Tellings.{IsFlushed, IsUnflushed};
ghost use Rattle.session_runs.specs.Faults.{told};
ghost use Rattle.session_runs.specs.Replays.{IsUnended, IsUnread};
ghost use Rattle.session_runs.specs.Tellings.{IsAnswered};

use crate::fault::fault_of;
use crate::replay::ReplayFault;
use program_words::{Ended, finish, tell};
use report_text::write_report;
use run_reports::Report;
use session_text::Sessions;
use std::alloc::Global;
use txn_bytes::Sink;

/// The sessions that a text spells, or why it spells none.
pub fn read_sessions(alloc: Global, text: &[u8]) -> Result<Sessions, ReplayFault>
    ensures ok { IfOk result (λ sessions. sessions_of text.now ≡ Ok sessions) }
    ensures err { IfErr result (λ fault. IsUnread text.now fault) }
{
    match Sessions::parse(alloc, text) {
        Ok(sessions) => Ok(sessions),
        Err(fault) => Err(ReplayFault::Text(fault)),
    }
}

/// Writes the report, which has the verdict yes. After the fault, which is one that the writer
/// answered, `out` has taken a beginning of it.
pub fn put_report<W: Sink>(report: &Report, out: &mut W) -> Result<(), ReplayFault>
    ensures ok { OnOk result
        (Appends (W.contents out.old) (W.contents out.new) (spelled_report report.now)) }
    ensures accepted { OnOk result (HasVerdict (spelled_report report.now) Yes) }
    ensures err { IfErr result (λ fault.
        IsUnended (W.contents out.old) (W.contents out.new) report.now fault) }
    ensures asked { IfErr result (λ fault. IsAnswered W.Sink out.new fault) }
{
    match write_report(report, out) {
        Ok(()) => Ok(()),
        Err(fault) => Err(ReplayFault::Write(fault)),
    }
}

/// The end of a run, which gave its store back or met a fault. The output is asked to pass on what
/// it holds; a fault goes to `err`, in one line.
pub fn end_run<S: Drop, W: Sink, E: Sink>(
    ran: Result<S, ReplayFault>,
    out: &mut W,
    err: &mut E,
) -> Ended<S>
    ensures left { IfOk ran (λ left. result.left ≡ Some left) }
    ensures kept { IfOk ran (λ left. Keeps (W.contents out.old) (W.contents out.new)) }
    ensures dropped { IfErr ran (λ fault. (result.status ≡ FAILED) × IsNone result.left) }
    ensures unwritten { IfErr ran (λ fault. out.new ≡ out.old) }
    ensures passed { result.status ≡ DONE → IsFlushed W.Sink out.new (Ok tt) }
    ensures silent { result.status ≡ DONE → err.new ≡ err.old }
    ensures unflushed { IfOk ran (λ left.
        result.status ≢ DONE → IsUnflushed W.Sink E.Sink out.new err.old err.new) }
    ensures told { IfErr ran (λ fault.
        IsSaid E.Sink err.old err.new (spelled_fault (told fault))) }
    ensures status { result.status ≤ FAILED }
{
    match ran {
        Ok(left) => Ended {
            status: finish(out, err),
            left: Some(left),
        },
        Err(fault) => Ended {
            status: tell(err, fault_of(fault)),
            left: None,
        },
    }
}
