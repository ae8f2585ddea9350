//! The lines of the input, one after another.
ghost use Rattle.std.specs.Prelude.{◌≡◌, IfErr, IfOk, OnErr};
ghost use Rattle.program_words.specs.Faults.{IsSaid, spelled_fault};
ghost use Rattle.program_words.specs.declared.fault.Fault.TheVariants.{Line};
ghost use Rattle.live_runs.specs.Hearing.{Answers, BreaksHearing, HasAnswerFault, HasHearingFault, HearsAll, HearsNext, holds_nothing, moment};

use crate::fault::LiveFault;
use crate::showing::show_entries;
use durable_top::TopStore;
use live_sessions::Live;
use program_words::{Fault, tell};
use request_lines::{RequestLines, Taken};
use session_text::LineKind;
use txn_bytes::{Sink, Source};

// Says that this line of the input was not taken, and why.
fn refuse<E: Sink>(err: &mut E, line: usize, kind: LineKind)
    ensures { IsSaid E.Sink err.old err.new (spelled_fault (Line line kind)) }
{
    let _status = tell(err, Fault::Line { line, kind });
}

// Handles a whole line. What it brought about is shown; if it was not taken, that is told.
fn answer<S: TopStore, W: Sink, E: Sink>(
    live: Live<S>,
    line: usize,
    bytes: &[u8],
    out: &mut W,
    err: &mut E,
) -> Result<Live<S>, (LiveFault, S)>
    ensures ok { IfOk result (λ new. Answers S.TopStore W.Sink E.Sink
        line bytes.now live new out.old out.new err.old err.new) }
    ensures err { IfErr result (λ end.
        HasAnswerFault S.TopStore W.Sink bytes.now live out.old out.new end.1 end.0) }
    ensures untold { OnErr result (err.new ≡ err.old) }
{
    live.has_legal_history();
    let written = live.history().len();
    let (live, fault) = match live.request(bytes) {
        Ok(handled) => handled,
        Err(left) => return Err((LiveFault::NoMemory, left)),
    };
    if let Some(kind) = fault {
        refuse(err, line, kind);
        return Ok(live);
    }
    match show_entries(live.labels(), live.history(), written, out) {
        Ok(()) => Ok(live),
        Err(_) => Err((LiveFault::Write, live.give_up())),
    }
}

// Takes the next line, and answers whether there was one.
fn hear_next<R: Source, S: TopStore, W: Sink, E: Sink>(
    live: Live<S>,
    lines: &mut RequestLines,
    line: usize,
    input: &mut R,
    out: &mut W,
    err: &mut E,
) -> Result<(Live<S>, bool), (LiveFault, S)>
    // Wide: the moment before the turn and the one behind it, each of its five parts.
    ensures ok { IfOk result (λ r. HearsNext R.Source S.TopStore W.Sink E.Sink line
        (moment input.old lines.old live out.old err.old)
        (moment input.new lines.new r.0 out.new err.new) r.1) }
    // Wide: the moment before the turn, and what a fault leaves of it.
    ensures err { IfErr result (λ end. HasHearingFault R.Source S.TopStore W.Sink E.Sink
        (moment input.old lines.old live out.old err.old) input.new out.new end.1 end.0) }
    ensures untold { OnErr result (err.new ≡ err.old) }
{
    match lines.take_line(input) {
        Ok(Taken::Whole) => match answer(live, line, lines.line(), out, err) {
            Ok(live) => Ok((live, true)),
            Err(fault) => Err(fault),
        },
        Ok(Taken::Long) => {
            refuse(err, line, LineKind::Long);
            Ok((live, true))
        }
        Ok(Taken::Cut) => {
            refuse(err, line, LineKind::End);
            Ok((live, false))
        }
        Ok(Taken::End) => Ok((live, false)),
        Err(_) => Err((LiveFault::Read, live.give_up())),
    }
}

/// Takes the lines of the input up to its end, one after another, and answers the sessions as they
/// are then. What each request brought about is written and passed on before the next one is read.
/// A line that was not taken is told on `err` by its number in the input, from 1, and so are bytes
/// at the end with no line feed behind them. After a fault nothing more was told, and the store
/// comes back as it was left.
pub(crate) fn hear_all<R: Source, S: TopStore, W: Sink, E: Sink>(
    live: Live<S>,
    input: &mut R,
    out: &mut W,
    err: &mut E,
) -> Result<Live<S>, (LiveFault, S)>
    // Wide: the first moment, and what is left at the end of the input.
    ensures ok { IfOk result (λ last. HearsAll R.Source S.TopStore W.Sink E.Sink
        (moment input.old holds_nothing live out.old err.old) input.new last out.new err.new) }
    // Wide: the first moment, and what a fault leaves.
    ensures err { IfErr result (λ end. BreaksHearing R.Source S.TopStore W.Sink E.Sink
        (moment input.old holds_nothing live out.old err.old)
        input.new out.new err.new end.1 end.0) }
{
    let mut live = live;
    let mut lines = RequestLines::new();
    for line in 1..usize::MAX {
        let (next, more) = match hear_next(live, &mut lines, line, input, out, err) {
            Ok(heard) => heard,
            Err(fault) => return Err(fault),
        };
        if !more {
            return Ok(next);
        }
        live = next;
    }
    Err((LiveFault::Read, live.give_up()))
}
