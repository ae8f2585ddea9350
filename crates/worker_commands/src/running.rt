//! Runs by workers of a text that stands in a file, over a table in memory or over a database.
ghost use Rattle.std.specs.Prelude.{◌≡◌, ◌≤◌};
ghost use Rattle.program_words.specs.declared.status.TheConstants.{DONE, FAILED};
ghost use Rattle.program_words.specs.Tellings.{Accounts};
ghost use Rattle.session_runs.specs.Ways.{ByWorkers};
ghost use Rattle.text_commands.specs.Outcomes.{Misses, Prints};
ghost use Rattle.tx_machine.specs.Worlds.{state};
ghost use Rattle.worker_runs.specs.Workers.{AreFew};

use std::alloc::Global;
use std::sync::Wait;
use std::thread::Threads;
use std::time::Clock;
use tx_machine::{Setting, Surroundings, begin, close_store};
use txn_bytes::Sink;
use worker_runs::serve_over;

/// Over the database at the path, which is made where there is none, or else over a table in memory
/// that is empty at the beginning. The file is read first, then the store is opened, and then come
/// the text and the run. Once a database was opened it is closed, however the run ends.
pub(crate) fn run_text<H: Surroundings, R: Threads + Wait + Clock + Sync, W: Sink, E: Sink>(
    host: &mut H,
    threads: &R,
    alloc: Global,
    file: &str,
    workers: u32,
    database: Option<&str>,
    out: &mut W,
    err: &mut E,
) -> u8
    requires { AreFew workers }
    ensures done { result ≡ DONE → Prints ⟦<(H, W, E) as Setting>⟧.world
        (state host.old out.old err.old) (state host.new out.new err.new)
        file.now ByWorkers database.entry }
    ensures failed { result ≡ FAILED → Misses ⟦<(H, W, E) as Setting>⟧.world
        (state host.old out.old err.old) (state host.new out.new err.new)
        file.now ByWorkers database.entry }
    ensures accounts { Accounts W.Sink E.Sink out.new err.old err.new result }
    ensures status { result ≤ FAILED }
{
    let (text, store) = match begin(host, alloc, file, database, err) {
        Ok(begun) => begun,
        Err(status) => return status,
    };
    let ended = serve_over(threads, alloc, text.as_slice(), workers, store, out, err);
    close_store(host, database, ended.left);
    ended.status
}
