//! The rows of a database, on standard output.
ghost use Rattle.std.specs.Prelude.{◌≡◌, ◌≤◌};
ghost use Rattle.program_words.specs.declared.status.TheConstants.{DONE, FAILED};
ghost use Rattle.program_words.specs.Tellings.{Accounts};
ghost use Rattle.tx_commands.specs.Programs.{Lists, ListsNot};
ghost use Rattle.tx_machine.specs.Worlds.{state};

use session_runs::list_rows;
use std::alloc::Global;
use tx_machine::{Setting, Surroundings, close_store, open_store};
use txn_bytes::Sink;

/// Prints the rows of the database at this path, which is made where there is none, and answers
/// the exit status. The lines go to `out`, in byte order of the keys, each with the number of the
/// commit that set the row; a fault goes to `err`, in one line.
pub fn list<H: Surroundings, W: Sink, E: Sink>(
    host: &mut H,
    alloc: Global,
    path: &str,
    out: &mut W,
    err: &mut E,
) -> u8
    ensures done { result ≡ DONE → Lists ⟦<(H, W, E) as Setting>⟧.world
        (state host.old out.old err.old) (state host.new out.new err.new) path.now }
    ensures failed { result ≡ FAILED → ListsNot ⟦<(H, W, E) as Setting>⟧.world
        (state host.old out.old err.old) (state host.new out.new err.new) path.now }
    ensures accounts { Accounts W.Sink E.Sink out.new err.old err.new result }
    ensures status { result ≤ FAILED }
{
    let mut store = match open_store(host, alloc, Some(path), err) {
        Ok(store) => store,
        Err(status) => return status,
    };
    let status = list_rows(alloc, &mut store, out, err);
    close_store(host, Some(path), Some(store));
    status
}
