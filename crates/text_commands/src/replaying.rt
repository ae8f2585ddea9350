//! The command that replays a text: by a list of attempts, and then in rounds.
ghost use Rattle.std.specs.Prelude.{◌≡◌, ◌≤◌};
ghost use Rattle.program_words.specs.declared.status.TheConstants.{DONE, FAILED};
ghost use Rattle.program_words.specs.Tellings.{Accounts};
ghost use Rattle.text_commands.specs.Outcomes.{Replays, ReplaysNot};
ghost use Rattle.tx_machine.specs.Worlds.{state};

use crate::running::replay_text;
use program_words::{Fault, attempts_of, tell};
use std::alloc::Global;
use tx_machine::{Setting, Surroundings};
use txn_bytes::Sink;

/// Replays the text of this file by this list, and then in rounds, over the database at the path
/// or else over a table in memory that is empty at the beginning. The exit status and the two
/// writers are as `replay_over` of session_runs has them. The list is read first: what of it is no
/// session's number is told once the text is read.
pub fn replay<H: Surroundings, W: Sink, E: Sink>(
    host: &mut H,
    alloc: Global,
    file: &str,
    list: Option<&str>,
    database: Option<&str>,
    out: &mut W,
    err: &mut E,
) -> u8
    ensures done { result ≡ DONE → Replays ⟦<(H, W, E) as Setting>⟧.world
        (state host.old out.old err.old) (state host.new out.new err.new)
        file.now list.entry database.entry }
    ensures failed { result ≡ FAILED → ReplaysNot ⟦<(H, W, E) as Setting>⟧.world
        (state host.old out.old err.old) (state host.new out.new err.new)
        file.now list.entry database.entry }
    ensures accounts { Accounts W.Sink E.Sink out.new err.old err.new result }
    ensures status { result ≤ FAILED }
{
    match attempts_of(alloc, list) {
        Ok(schedule) => replay_text(host, alloc, file, schedule.as_slice(), database, out, err),
        Err(_) => tell(err, Fault::NoMemory),
    }
}
