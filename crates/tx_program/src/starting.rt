//! The program from what the system says of its arguments: these, or why it gives none.
ghost use Rattle.std.specs.Prelude.{◌≡◌, IfErr};
ghost use Rattle.std.specs.IoError.{error_kind};
ghost use Rattle.program_words.specs.Faults.{IsSaid};
ghost use Rattle.tx_machine.specs.Worlds.{state};
ghost use Rattle.asked_tasks.specs.Given.{AskedIn, line_of_no_words, status_of_no_words};
ghost use Rattle.tx_program.specs.Programs.{Serves};

use crate::program::tx_main;
use asked_tasks::{tell_no_words, words_behind_name};
use program_words::{Fault, tell};
use std::alloc::{AllocError, Global};
use std::env::Args;
use std::io;
use std::sync::Wait;
use std::thread::Threads;
use std::time::Clock;
use tx_machine::{Setting, Surroundings};
use txn_bytes::{Sink, Source};

/// The exit status: that of `tx_main` with the arguments behind the program's name, which is the
/// first. Where they are no text a line on `err` tells that, and it is `MISUSED`; where memory runs
/// out while they are read a line says that, and it is `FAILED`.
pub fn start<H: Surroundings, R: Threads + Wait + Clock + Sync, I: Source, W: Sink, E: Sink>(
    host: &mut H,
    threads: &R,
    alloc: Global,
    args: io::Result<Args>,
    input: &mut I,
    out: &mut W,
    err: &mut E,
) -> u8
    ensures unread { IfErr args (λ why.
        IsSaid E.Sink err.old err.new (line_of_no_words (error_kind why))) }
    ensures unread_status { IfErr args
        (λ why. result ≡ status_of_no_words (error_kind why)) }
    ensures served { Serves ⟦<(H, W, E) as Setting>⟧.world I.Source
        (state host.old out.old err.old) (state host.new out.new err.new)
        input.old input.new (AskedIn args) result }
{
    let args = match args {
        Ok(args) => args,
        Err(why) => return tell_no_words(err, &why),
    };
    match words_behind_name(alloc, args) {
        Ok(words) => tx_main(host, threads, alloc, words.as_slice(), input, out, err),
        Err(AllocError) => tell(err, Fault::NoMemory),
    }
}
