//! Live runs over a table in memory or over a database.
ghost use Rattle.std.specs.Prelude.{◌≡◌, ◌≤◌};
ghost use Rattle.program_words.specs.declared.status.TheConstants.{DONE, FAILED};
ghost use Rattle.live_commands.specs.Lives.{Lives, LivesNot};
ghost use Rattle.tx_machine.specs.Worlds.{state};

use live_runs::live_over;
use std::alloc::Global;
use tx_machine::{Setting, Surroundings, close_store, open_store};
use txn_bytes::{Sink, Source};

/// Runs sessions whose lines are read from `input` as they come, over the database at the path,
/// which is made where there is none, or else over a table in memory that is empty at the
/// beginning, and answers the exit status. The two writers are as `live_over` of live_runs has
/// them. Once a database was opened it is closed, however the run ends.
pub fn live<H: Surroundings, I: Source, W: Sink, E: Sink>(
    host: &mut H,
    alloc: Global,
    input: &mut I,
    database: Option<&str>,
    out: &mut W,
    err: &mut E,
) -> u8
    ensures done { result ≡ DONE → Lives ⟦<(H, W, E) as Setting>⟧.world I.Source
        (state host.old out.old err.old) (state host.new out.new err.new)
        input.old input.new database.entry }
    ensures failed { result ≡ FAILED → LivesNot ⟦<(H, W, E) as Setting>⟧.world I.Source
        (state host.old out.old err.old) (state host.new out.new err.new)
        input.old input.new database.entry }
    ensures status { result ≤ FAILED }
{
    let store = match open_store(host, alloc, database, err) {
        Ok(store) => store,
        Err(status) => return status,
    };
    let ended = live_over(alloc, input, store, out, err);
    close_store(host, database, ended.left);
    ended.status
}
