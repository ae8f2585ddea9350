//! The program, apart from where its words come from and where its bytes go.
ghost use Rattle.std.specs.Prelude.{◌≡◌, ◌≤◌};
ghost use Rattle.program_words.specs.declared.status.TheConstants.{DONE, FAILED};
ghost use Rattle.tx_machine.specs.Worlds.{state};
ghost use Rattle.command_line.specs.Tasks.{AskedBy};
ghost use Rattle.tx_program.specs.Programs.{AccountsForAlone, IsDoneAlone, IsUndoneAlone, Serves};

use asked_tasks::task_asked;
use command_line::{Solo, Task, with_name};
use live_commands::live;
use program_words::{Fault, tell};
use std::alloc::Global;
use std::sync::Wait;
use std::thread::Threads;
use std::time::Clock;
use text_commands::replay;
use tx_commands::{Choice, draw, judge, list, show};
use tx_machine::{Setting, Surroundings};
use txn_bytes::{Sink, Source};
use worker_commands::run;

/// What is told of words that ask for nothing.
const USAGE: &[u8] =
    b"usage: tx replay FILE [--schedule LIST] [--db PATH], or tx run FILE [--workers N] [--db PATH], or tx live [--db PATH], or tx check REPORT, or tx show REPORT [--jobs] [--undone] [--strict], or tx draw REPORT, or tx rows PATH, or tx --help";

/// Does what the words after the program's name ask for, over the files and databases of `host`,
/// and answers the exit status. A report, a verdict, rows, lines or a picture go to `out`, and a
/// report only where the whole run was done, unless it is a live run's, which grows; a fault goes to
/// `err`, in one line. Words that are no command line are told there too. Workers run on `threads`,
/// by which nothing else is done, and the requests of a live run come from `input`, of which nothing
/// else reads.
pub fn tx_main<H: Surroundings, R: Threads + Wait + Clock + Sync, I: Source, W: Sink, E: Sink>(
    host: &mut H,
    threads: &R,
    alloc: Global,
    words: &[String],
    input: &mut I,
    out: &mut W,
    err: &mut E,
) -> u8
    ensures { Serves ⟦<(H, W, E) as Setting>⟧.world I.Source
        (state host.old out.old err.old) (state host.new out.new err.new)
        input.old input.new (AskedBy words.now) result }
{
    let Ok(all) = with_name(alloc, words) else {
        return tell(err, Fault::NoMemory);
    };
    match task_asked(alloc, all.as_slice(), USAGE, err) {
        Ok(
            Task::Run {
                file,
                workers,
                database,
            },
        ) => run(host, threads, alloc, file, workers, database, out, err),
        Ok(Task::Alone(solo)) => perform(host, alloc, solo, input, out, err),
        Err(status) => status,
    }
}

// What one thread does, by its command.
fn perform<H: Surroundings, I: Source, W: Sink, E: Sink>(
    host: &mut H,
    alloc: Global,
    solo: Solo,
    input: &mut I,
    out: &mut W,
    err: &mut E,
) -> u8
    ensures done { result ≡ DONE → IsDoneAlone ⟦<(H, W, E) as Setting>⟧.world I.Source
        (state host.old out.old err.old) (state host.new out.new err.new)
        input.old input.new solo.entry }
    ensures failed { result ≡ FAILED → IsUndoneAlone ⟦<(H, W, E) as Setting>⟧.world I.Source
        (state host.old out.old err.old) (state host.new out.new err.new)
        input.old input.new solo.entry }
    ensures accounts { AccountsForAlone ⟦<(H, W, E) as Setting>⟧.world I.Source
        (state host.old out.old err.old) (state host.new out.new err.new)
        input.old input.new solo.entry result }
    ensures status { result ≤ FAILED }
{
    match solo {
        Solo::Replay {
            file,
            schedule,
            database,
        } => replay(host, alloc, file, schedule, database, out, err),
        Solo::Live { database } => live(host, alloc, input, database, out, err),
        Solo::Check { file } => judge(host, alloc, file, out, err),
        Solo::Rows { path } => list(host, alloc, path, out, err),
        Solo::Show {
            file,
            jobs,
            undone,
            strict,
        } => show(host, alloc, file, Choice { jobs, undone }, strict, out, err),
        Solo::Draw { file } => draw(host, alloc, file, out, err),
    }
}
