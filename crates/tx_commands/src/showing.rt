//! What became of the transactions of a report that stands in a file, on standard output: as lines,
//! or as a picture.
ghost use Rattle.std.specs.Prelude.{◌≡◌, ◌≤◌, false, IfErr, IfOk, IsTrue};
ghost use Rattle.program_words.specs.declared.status.TheConstants.{DONE, FAILED};
ghost use Rattle.program_words.specs.Tellings.{IsGiven, IsUngiven};
ghost use Rattle.tx_commands.specs.Programs.{AccountsFor};
ghost use Rattle.tx_commands.specs.Shows.{AccountsForShow, Draws, DrawsNot, IsFoundReport, IsToldUnfit, Shows, ShowsNot};
ghost use Rattle.tx_machine.specs.Worlds.{state};

use crate::checking::is_given;
use program_words::{DONE, FAILED, Fault, finish, tell};
use report_check::Verdict;
use report_judge::{CheckFault, Judged, check_keeping};
use report_shows::Choice;
use std::alloc::Global;
use tx_machine::{Setting, Surroundings};
use txn_bytes::{ReadFault, Sink, put};

// The report at this path. Where it is none, or is not read to its end, that is told as `judge`
// tells it, and the error is the exit status.
fn report_at<H: Surroundings, W: Sink, E: Sink>(
    host: &mut H,
    alloc: Global,
    file: &str,
    out: &mut W,
    err: &mut E,
) -> Result<Vec<u8>, u8>
    ensures ok { IfOk result (λ bytes. IsFoundReport ⟦<(H, W, E) as Setting>⟧.world
        (state host.old out.old err.old) (state host.new out.new err.new) file.now bytes.items) }
    ensures err { IfErr result (IsToldUnfit ⟦<(H, W, E) as Setting>⟧.world
        (state host.old out.old err.old) (state host.new out.new err.new) file.now) }
{
    let mut report = match host.find(file) {
        Ok(report) => report,
        Err(ReadFault) => return Err(tell(err, Fault::CannotRead(file))),
    };
    let judged = check_keeping(alloc, &mut report);
    drop(report);
    match judged {
        Ok(Judged::Yes(bytes)) => Ok(bytes),
        Ok(Judged::No(line)) => {
            let _told = is_given(Verdict::No(line), out, err);
            Err(FAILED)
        }
        Err(CheckFault::NoMemory) => Err(tell(err, Fault::NoMemory)),
        Err(CheckFault::Read) => Err(tell(err, Fault::CannotRead(file))),
    }
}

// The output is asked to take the bytes and to pass them on. The answer is whether it did both;
// where not, that is told.
fn are_given<W: Sink, E: Sink>(bytes: &[u8], out: &mut W, err: &mut E) -> bool
    ensures given { IsTrue result →
        IsGiven W.Sink E.Sink out.old out.new err.old err.new bytes.now }
    ensures ungiven { result ≡ false →
        IsUngiven W.Sink E.Sink out.old out.new err.old err.new bytes.now }
{
    match put(out, bytes) {
        Ok(()) => finish(out, err) == DONE,
        Err(_) => {
            tell(err, Fault::CannotWrite);
            false
        }
    }
}

// The status where the lines were given.
fn status_of(strict: bool, all_done: bool) -> u8
    ensures done { result ≡ DONE → IsTrue strict → IsTrue all_done }
    ensures strict { result ≡ FAILED → IsTrue strict }
    ensures failed { result ≡ FAILED → all_done ≡ false }
    ensures status { result ≤ FAILED }
{
    if strict && !all_done { FAILED } else { DONE }
}

/// Shows the report at this path: what became of each transaction that is chosen, and a summary.
/// The lines go to `out`, and the answer is the exit status, which under `strict` is `DONE` only if
/// each transaction committed for good and no line was refused or given up. A report with another
/// verdict than yes is told as by `judge`. A fault goes to `err`, in one line.
pub fn show<H: Surroundings, W: Sink, E: Sink>(
    host: &mut H,
    alloc: Global,
    file: &str,
    choice: Choice,
    strict: bool,
    out: &mut W,
    err: &mut E,
) -> u8
    ensures done { result ≡ DONE → Shows ⟦<(H, W, E) as Setting>⟧.world
        (state host.old out.old err.old) (state host.new out.new err.new) file.now choice strict }
    ensures failed { result ≡ FAILED → ShowsNot ⟦<(H, W, E) as Setting>⟧.world
        (state host.old out.old err.old) (state host.new out.new err.new) file.now choice strict }
    ensures accounts { AccountsForShow ⟦<(H, W, E) as Setting>⟧.world
        (state host.old out.old err.old) (state host.new out.new err.new)
        file.now choice strict result }
    ensures status { result ≤ FAILED }
{
    let report = match report_at(host, alloc, file, out, err) {
        Ok(report) => report,
        Err(status) => return status,
    };
    match report_shows::show_report(alloc, &report, choice) {
        Ok(show) => {
            if !are_given(&show.lines, out, err) {
                return FAILED;
            }
            status_of(strict, show.all_done)
        }
        Err(_) => tell(err, Fault::NoMemory),
    }
}

/// Draws the report at this path. The picture, an SVG, goes to `out`, and the answer is the exit
/// status. A report with another verdict than yes is told as by `judge`. A fault goes to `err`, in
/// one line.
pub fn draw<H: Surroundings, W: Sink, E: Sink>(
    host: &mut H,
    alloc: Global,
    file: &str,
    out: &mut W,
    err: &mut E,
) -> u8
    ensures done { result ≡ DONE → Draws ⟦<(H, W, E) as Setting>⟧.world
        (state host.old out.old err.old) (state host.new out.new err.new) file.now }
    ensures failed { result ≡ FAILED → DrawsNot ⟦<(H, W, E) as Setting>⟧.world
        (state host.old out.old err.old) (state host.new out.new err.new) file.now }
    ensures accounts { AccountsFor ⟦<(H, W, E) as Setting>⟧.world
        (state host.old out.old err.old) (state host.new out.new err.new) file.now result }
    ensures status { result ≤ FAILED }
{
    let report = match report_at(host, alloc, file, out, err) {
        Ok(report) => report,
        Err(status) => return status,
    };
    match report_shows::draw_report(alloc, &report) {
        Ok(picture) => {
            if are_given(&picture, out, err) {
                DONE
            } else {
                FAILED
            }
        }
        Err(_) => tell(err, Fault::NoMemory),
    }
}
