//! The verdict on a report that stands in a file, on standard output.
ghost use Rattle.std.specs.Prelude.{◌≡◌, ◌≤◌, false, IsTrue};
ghost use Rattle.program_words.specs.declared.status.TheConstants.{DONE, FAILED};
ghost use Rattle.report_text.specs.Verdicts.{spelled_verdict};
ghost use Rattle.program_words.specs.Tellings.{IsGiven, IsUngiven};
ghost use Rattle.tx_commands.specs.Programs.{AccountsFor, IsPassed, IsUnpassed};
ghost use Rattle.tx_machine.specs.Worlds.{state};

use program_words::{DONE, FAILED, Fault, finish, tell};
use report_check::Verdict;
use report_judge::{CheckFault, check};
use report_text::write_verdict;
use std::alloc::Global;
use tx_machine::{Setting, Surroundings};
use txn_bytes::{ReadFault, Sink};

/// The output is asked to take the verdict and to pass it on. The answer is whether it did both;
/// where not, that is told.
pub(crate) fn is_given<W: Sink, E: Sink>(verdict: Verdict, out: &mut W, err: &mut E) -> bool
    ensures given { IsTrue result →
        IsGiven W.Sink E.Sink out.old out.new err.old err.new (spelled_verdict verdict) }
    ensures ungiven { result ≡ false →
        IsUngiven W.Sink E.Sink out.old out.new err.old err.new (spelled_verdict verdict) }
{
    match write_verdict(verdict, out) {
        Ok(()) => finish(out, err) == DONE,
        Err(_) => {
            tell(err, Fault::CannotWrite);
            false
        }
    }
}

/// Judges the report at this path, gives the verdict to `out`, and answers the exit status. A
/// fault goes to `err`, in one line.
pub fn judge<H: Surroundings, W: Sink, E: Sink>(
    host: &mut H,
    alloc: Global,
    file: &str,
    out: &mut W,
    err: &mut E,
) -> u8
    ensures done { result ≡ DONE → IsPassed ⟦<(H, W, E) as Setting>⟧.world
        (state host.old out.old err.old) (state host.new out.new err.new) file.now }
    ensures failed { result ≡ FAILED → IsUnpassed ⟦<(H, W, E) as Setting>⟧.world
        (state host.old out.old err.old) (state host.new out.new err.new) file.now }
    ensures accounts { AccountsFor ⟦<(H, W, E) as Setting>⟧.world
        (state host.old out.old err.old) (state host.new out.new err.new) file.now result }
    ensures status { result ≤ FAILED }
{
    let mut report = match host.find(file) {
        Ok(report) => report,
        Err(ReadFault) => return tell(err, Fault::CannotRead(file)),
    };
    let verdict = check(alloc, &mut report);
    drop(report);
    match verdict {
        Ok(verdict) => {
            if !is_given(verdict, out, err) {
                return FAILED;
            }
            match verdict {
                Verdict::Yes => DONE,
                Verdict::No(_) => FAILED,
            }
        }
        Err(CheckFault::NoMemory) => tell(err, Fault::NoMemory),
        Err(CheckFault::Read) => tell(err, Fault::CannotRead(file)),
    }
}
