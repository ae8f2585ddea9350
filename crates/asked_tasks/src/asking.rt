//! The task that words ask for.
ghost use Rattle.std.specs.Prelude.{◌≡◌, ◌≢◌, ◌⊎◌, IfErr, IfOk, OnOk};
ghost use Rattle.clap.specs.Words.{kind_of};
ghost use Rattle.clap.specs.declared.error.kind.ErrorKind.TheVariants.{OutOfMemory};
ghost use Rattle.program_words.specs.declared.fault.Fault.TheVariants.{NoMemory};
ghost use Rattle.program_words.specs.declared.status.TheConstants.{FAILED, MISUSED};
ghost use Rattle.program_words.specs.Faults.{IsSaid, spelled_fault};
ghost use Rattle.program_words.specs.Tellings.{HasUsageLine};
ghost use Rattle.command_line.specs.Tasks.{AskNothing, Asks};
ghost use Rattle.asked_tasks.specs.Refused.{IsRefused, TellsUsage, texts_of};

use clap::Error;
use clap::error::ErrorKind;
use command_line::{Task, task_of};
use program_words::{Fault, misuse, refuse, tell};
use std::alloc::Global;
use txn_bytes::Sink;

// What is told of words in which `clap` found a fault, or for which it had no memory.
fn tell_unread<E: Sink>(alloc: Global, err: &mut E, error: &Error) -> u8
    ensures failed { result ≡ FAILED → IsSaid E.Sink err.old err.new (spelled_fault NoMemory) }
    ensures misused { result ≢ FAILED → HasUsageLine E.Sink err.old err.new }
    ensures memory { kind_of error.now ≡ OutOfMemory → result ≡ FAILED }
    ensures status { (result ≡ FAILED) ⊎ (result ≡ MISUSED) }
{
    match error.kind() {
        ErrorKind::OutOfMemory => tell(err, Fault::NoMemory),
        _ => refuse(alloc, err, error),
    }
}

/// What the words ask for, the program's name first. Words that ask for nothing are told the usage
/// on `err`, those in which `clap` finds a fault what it says of them, each in a text with a line
/// feed, and the error is `MISUSED`. Where memory runs out a line says that, and the error is
/// `FAILED`.
pub fn task_asked<'a, E: Sink>(
    alloc: Global,
    words: &'a [&'a str],
    usage: &[u8],
    err: &mut E,
) -> Result<Task<'a>, u8>
    ensures asked { IfOk result (Asks (texts_of words.entry.now)) }
    ensures untold { OnOk result (err.new ≡ err.old) }
    ensures refused { IfErr result (IsRefused E.Sink err.old err.new
        (AskNothing (texts_of words.entry.now))) }
    ensures usage { IfErr result
        (TellsUsage E.Sink err.old err.new (texts_of words.entry.now) usage.now) }
{
    match task_of(alloc, words) {
        Ok(Some(task)) => Ok(task),
        Ok(None) => Err(misuse(err, usage)),
        Err(error) => Err(tell_unread(alloc, err, &error)),
    }
}
