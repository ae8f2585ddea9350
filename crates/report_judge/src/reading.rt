//! The verdict on what a reader holds.
ghost use Rattle.std.specs.Prelude.{◌≡◌, ◌≤◌, ◌<◌, ◌+◌, ◌^◌, ◌++◌, [], ℕ, List, length, IfErr, IfOk, IsTrue, OnOk};
ghost use Rattle.report_check.specs.declared.verdict.Verdict.TheVariants.{Yes};
ghost use Rattle.report_judge.specs.Judging.{HasCheckCause, IsJudgement, IsReport, IsVerdictOn, Stands};

use crate::lines::{Judge, finish, settled, take_bytes};
use report_check::Verdict;
use serial_spec::NoMemory;
use std::alloc::Global;
use txn_bytes::{MOST_READS, ReadFault, Source};

// How many bytes are asked for at a time.
const PIECE: usize = 4096;

/// Why there is no verdict.
#[derive(Clone, Copy, Debug, PartialEq, Eq)]
pub enum CheckFault {
    /// A growth was refused.
    NoMemory,
    /// A read failed, or the end had not come after `MOST_READS` of them. No fault that no later
    /// line can mend had come then.
    Read,
}

/// A verdict, with the report where that is one.
#[derive(Drop)]
pub enum Judged {
    /// The verdict is yes, and these are all bytes of the report.
    Yes(Vec<u8>),
    /// The verdict is no, of the line with this number.
    No(usize),
}

// Takes the next bytes, and puts them behind those that are kept, where they are wanted.
fn take_piece(
    judge: &mut Judge,
    wanted: bool,
    kept: &mut Vec<u8>,
    bytes: &[u8],
) -> Result<(), NoMemory>
    requires { judge.old.standing.line + length bytes.now < 2 ^ 63 }
    ensures stands { OnOk result
        ((bs : List ℕ) → Stands bs judge.old → Stands (bs ++ bytes.now) judge.new) }
    ensures line { OnOk result
        (judge.new.standing.line ≤ judge.old.standing.line + length bytes.now) }
    ensures kept { OnOk result
        (IsTrue wanted → kept.new.items ≡ kept.old.items ++ bytes.now) }
{
    take_bytes(judge, bytes)?;
    if wanted {
        kept.extend_from_slice(bytes)?;
    }
    Ok(())
}

// The verdict on the bytes that the reader has left. Where they are wanted they are kept.
fn judge_all<R: Source>(
    judge: &mut Judge,
    wanted: bool,
    kept: &mut Vec<u8>,
    report: &mut R,
) -> Result<Verdict, CheckFault>
    requires line { judge.old.standing.line ≡ 1 }
    requires stands { Stands [] judge.old }
    requires none { kept.old.items ≡ [] }
    ensures ok { IfOk result (λ v. IsVerdictOn R.Source report.old report.new v) }
    ensures kept { IfOk result
        (λ v. IsTrue wanted → v ≡ Yes → IsReport R.Source report.old report.new kept.new.items) }
    ensures err { IfErr result (HasCheckCause R.Source report.old report.new) }
{
    let mut bytes = [0u8; PIECE];
    for _call in 0..MOST_READS {
        match report.give(&mut bytes) {
            Ok(0) => {
                return match finish(judge) {
                    Ok(verdict) => Ok(verdict),
                    Err(_) => Err(CheckFault::NoMemory),
                };
            }
            Ok(len) => match take_piece(judge, wanted, kept, &bytes[..len]) {
                Ok(()) => match settled(judge) {
                    Some(line) => return Ok(Verdict::No(line)),
                    None => {}
                },
                Err(_) => return Err(CheckFault::NoMemory),
            },
            Err(ReadFault) => return Err(CheckFault::Read),
        }
    }
    Err(CheckFault::Read)
}

/// The verdict on the bytes that the reader has left. It is read until a line that has ended may
/// not stand where it stands, or is too long, since no later line changes the verdict then; else to
/// its end. After an error some of the bytes are taken.
pub fn check<R: Source>(alloc: Global, report: &mut R) -> Result<Verdict, CheckFault>
    ensures ok { IfOk result (λ v. IsVerdictOn R.Source report.old report.new v) }
    ensures err { IfErr result (HasCheckCause R.Source report.old report.new) }
{
    let Ok(mut judge) = Judge::new(alloc) else {
        return Err(CheckFault::NoMemory);
    };
    let mut kept = Vec::new(alloc);
    let verdict = judge_all(&mut judge, false, &mut kept, report);
    drop(judge);
    verdict
}

/// The same with the bytes of a report that has the verdict yes. They are kept while they are read,
/// so that no byte is read that `check` does not read.
pub fn check_keeping<R: Source>(alloc: Global, report: &mut R) -> Result<Judged, CheckFault>
    ensures ok { IfOk result (IsJudgement R.Source report.old report.new) }
    ensures err { IfErr result (HasCheckCause R.Source report.old report.new) }
{
    let Ok(mut judge) = Judge::new(alloc) else {
        return Err(CheckFault::NoMemory);
    };
    let mut kept = Vec::new(alloc);
    let verdict = judge_all(&mut judge, true, &mut kept, report);
    drop(judge);
    match verdict {
        Ok(Verdict::Yes) => Ok(Judged::Yes(kept)),
        Ok(Verdict::No(line)) => Ok(Judged::No(line)),
        Err(fault) => Err(fault),
    }
}
