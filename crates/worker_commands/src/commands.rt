//! The command that runs a text by worker threads.
ghost use Rattle.std.specs.Prelude.{◌≡◌, ◌≤◌, ◌↔◌, IsNone, codes};
ghost use Rattle.std.specs.Option.{option_copied};
ghost use Rattle.line_language.specs.Report.{line};
ghost use Rattle.program_words.specs.declared.status.TheConstants.{DONE, FAILED, MISUSED};
ghost use Rattle.program_words.specs.Faults.{IsSaid};
ghost use Rattle.program_words.specs.Tellings.{Accounts};
ghost use Rattle.session_runs.specs.Ways.{ByWorkers};
ghost use Rattle.text_commands.specs.Outcomes.{Misses, Prints};
ghost use Rattle.tx_machine.specs.Worlds.{state};
ghost use Rattle.worker_runs.specs.Workers.{workers_of};

use crate::running::run_text;
use program_words::misuse;
use std::alloc::Global;
use std::sync::Wait;
use std::thread::Threads;
use std::time::Clock;
use tx_machine::{Setting, Surroundings};
use txn_bytes::Sink;
use worker_runs::workers_of;

/// Runs the text of this file by as many workers as the word says, on `threads`, over the database
/// at the path or else over a table in memory that is empty at the beginning. The exit status and
/// the two writers are as `serve_over` of worker_runs has them. The number of workers is read
/// first; where it is none, nothing else is done.
pub fn run<H: Surroundings, R: Threads + Wait + Clock + Sync, W: Sink, E: Sink>(
    host: &mut H,
    threads: &R,
    alloc: Global,
    file: &str,
    workers: Option<&str>,
    database: Option<&str>,
    out: &mut W,
    err: &mut E,
) -> u8
    ensures done { result ≡ DONE → Prints ⟦<(H, W, E) as Setting>⟧.world
        (state host.old out.old err.old) (state host.new out.new err.new)
        file.now ByWorkers database.entry }
    ensures failed { result ≡ FAILED → Misses ⟦<(H, W, E) as Setting>⟧.world
        (state host.old out.old err.old) (state host.new out.new err.new)
        file.now ByWorkers database.entry }
    ensures misused { (result ≡ MISUSED) ↔ IsNone (workers_of (option_copied workers.entry)) }
    ensures unasked { result ≡ MISUSED → (host.new ≡ host.old) × (out.new ≡ out.old) }
    ensures usage { result ≡ MISUSED →
        IsSaid E.Sink err.old err.new
        (line (codes "tx: --workers: a number from 1 to 16 is wanted")) }
    ensures accounts { Accounts W.Sink E.Sink out.new err.old err.new result }
    ensures status { result ≤ MISUSED }
{
    match workers_of(workers) {
        Some(count) => run_text(host, threads, alloc, file, count, database, out, err),
        None => misuse(err, b"tx: --workers: a number from 1 to 16 is wanted"),
    }
}
