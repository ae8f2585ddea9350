//! The replay that words ask for, of a program that does nothing else.
ghost use Rattle.std.specs.Prelude.{◌≡◌, IfErr, IfOk, OnOk};
ghost use Rattle.command_line.specs.Tasks.{Asks};
ghost use Rattle.command_line.specs.declared.task.Solo.TheVariants.{Replay};
ghost use Rattle.command_line.specs.declared.task.Task.TheVariants.{Alone};
ghost use Rattle.asked_tasks.specs.Refused.{IsRefused, TellsUsage, WantsNoReplay, replay_usage, texts_of};

use crate::asking::task_asked;
use command_line::{Solo, Task};
use program_words::misuse;
use std::alloc::Global;
use txn_bytes::Sink;

/// What is told of words that ask for no replay.
const USAGE: &[u8] = b"usage: tx replay FILE [--schedule LIST] [--db PATH]";

/// A replay that is asked for.
#[derive(Clone, Copy)]
pub struct AskedReplay<'a> {
    /// The file of the session text.
    pub file: &'a str,
    /// The list of session numbers by which the attempts begin.
    pub schedule: Option<&'a str>,
    /// The path of the database, or none for a table in memory.
    pub database: Option<&'a str>,
}

/// The replay that the words ask for, the program's name first. Of other words it is told as by
/// `task_asked`, and those that ask for something else are told the usage.
pub fn replay_asked<'a, E: Sink>(
    alloc: Global,
    words: &'a [&'a str],
    err: &mut E,
) -> Result<AskedReplay<'a>, u8>
    ensures asked { IfOk result (λ r. Asks (texts_of words.entry.now)
        (Alone (Replay r.file r.schedule r.database))) }
    ensures untold { OnOk result (err.new ≡ err.old) }
    ensures refused { IfErr result (IsRefused E.Sink err.old err.new
        (WantsNoReplay (Asks (texts_of words.entry.now)))) }
    ensures usage { IfErr result
        (TellsUsage E.Sink err.old err.new (texts_of words.entry.now) replay_usage) }
{
    match task_asked(alloc, words, USAGE, err) {
        Ok(Task::Alone(solo)) => match solo {
            Solo::Replay {
                file,
                schedule,
                database,
            } => Ok(AskedReplay {
                file,
                schedule,
                database,
            }),
            _ => Err(misuse(err, USAGE)),
        },
        Ok(Task::Run { .. }) => Err(misuse(err, USAGE)),
        Err(status) => Err(status),
    }
}
