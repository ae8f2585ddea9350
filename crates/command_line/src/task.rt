//! What the words of the command line ask for.
ghost use Rattle.std.specs.Prelude.{◌≡◌, ◌↔◌, IfOk, IsTrue, Some, codes, map, option_copied};
ghost use Rattle.clap.specs.Words.{FailsBy, fault_of, first_of, found_of, one_of, rows_of};
ghost use Rattle.command_line.specs.CommandLine.{tx_app};
ghost use Rattle.command_line.specs.Tasks.{IsMaybeSoloOf, IsMaybeTaskOf, IsRead};
ghost use Rattle.command_line.specs.Words.{with_name};

use crate::command::command;
use clap::{ArgMatches, Error};
use std::alloc::{AllocError, Global};

/// What the words ask for.
#[derive(Clone, Copy, Debug, PartialEq, Eq)]
pub enum Task<'a> {
    /// To run this session text by worker threads, as many as the word says, and to print the
    /// report; over the database at a path, or else over an empty table in memory.
    Run {
        file: &'a str,
        workers: Option<&'a str>,
        database: Option<&'a str>,
    },
    /// What one thread does, which waits for nobody.
    Alone(Solo<'a>),
}

/// What one thread does, which waits for nobody.
#[derive(Clone, Copy, Debug, PartialEq, Eq)]
pub enum Solo<'a> {
    /// To run this session text and to print the report: by a list of session numbers, or else by
    /// rounds alone; over the database at a path, or else over an empty table in memory.
    Replay {
        file: &'a str,
        schedule: Option<&'a str>,
        database: Option<&'a str>,
    },
    /// To run the sessions whose lines come on standard input, and to print the report as it
    /// grows; over the database at a path, or else over an empty table in memory.
    Live {
        database: Option<&'a str>,
    },
    /// To judge this report and to print the verdict.
    Check {
        file: &'a str,
    },
    /// To print the rows of the database at this path.
    Rows {
        path: &'a str,
    },
    /// To print what became of the transactions of this report, and a summary: of the top-level
    /// ones alone, or of those alone that were undone, with their ancestors. The exit status is to
    /// say whether all was done.
    Show {
        file: &'a str,
        jobs: bool,
        undone: bool,
        strict: bool,
    },
    /// To print a picture of this report.
    Draw {
        file: &'a str,
    },
}

// The first value of an argument.
fn value_of<'a>(of: &ArgMatches<'a>, id: &str) -> Option<&'a str>
    ensures { first_of id.now (rows_of (found_of of.now)) ≡ option_copied result }
{
    of.get_str(id)
}

// Whether a flag was given. Of a text that is neither yes nor no `get_flag` promises nothing.
fn is_set(of: &ArgMatches<'_>, id: &str) -> bool
    ensures { IsTrue result ↔ (one_of id.now (rows_of (found_of of.now)) ≡ Some (codes "true")) }
{
    match of.get_one::<bool>(id) {
        Some(set) => set,
        None => false,
    }
}

fn read_task<'a>(name: &str, of: &ArgMatches<'a>) -> Option<Task<'a>>
    ensures { IsMaybeTaskOf name.now (rows_of (found_of of.now)) result }
{
    match name {
        "run" => Some(Task::Run {
            file: value_of(of, "file")?,
            workers: value_of(of, "workers"),
            database: value_of(of, "db"),
        }),
        _ => Some(Task::Alone(read_solo(name, of)?)),
    }
}

fn read_solo<'a>(name: &str, of: &ArgMatches<'a>) -> Option<Solo<'a>>
    ensures { IsMaybeSoloOf name.now (rows_of (found_of of.now)) result }
{
    match name {
        "replay" => Some(Solo::Replay {
            file: value_of(of, "file")?,
            schedule: value_of(of, "schedule"),
            database: value_of(of, "db"),
        }),
        "live" => Some(Solo::Live {
            database: value_of(of, "db"),
        }),
        "check" => Some(Solo::Check {
            file: value_of(of, "report")?,
        }),
        "rows" => Some(Solo::Rows {
            path: value_of(of, "path")?,
        }),
        "show" => Some(Solo::Show {
            file: value_of(of, "report")?,
            jobs: is_set(of, "jobs"),
            undone: is_set(of, "undone"),
            strict: is_set(of, "strict"),
        }),
        "draw" => Some(Solo::Draw {
            file: value_of(of, "report")?,
        }),
        _ => None,
    }
}

/// The words behind the program's name, and that name before them. The only error is that memory
/// runs out.
pub fn with_name<'a>(alloc: Global, words: &'a [String]) -> Result<Vec<&'a str>, AllocError>
    ensures { IfOk result (λ all. map (λ word. word.now) all.items ≡ with_name words.entry.now) }
{
    let mut all = Vec::new(alloc);
    all.push("tx")?;
    for word in words {
        all.push(word.as_str())?;
    }
    Ok(all)
}

/// What the words ask for, the program's name first, or nothing where they ask for no task. The
/// error is the text to show, for a request of help too, or that memory ran out.
pub fn task_of<'a>(alloc: Global, words: &'a [&'a str]) -> Result<Option<Task<'a>>, Error>
    ensures read { IfOk result (IsRead (map (λ word. word.now) words.entry.now)) }
    ensures refused { FailsBy (fault_of tx_app (map (λ word. word.now) words.entry.now)) result }
{
    let command = command(alloc)?;
    let matches = command.try_get_matches_from(words)?;
    let Some((name, of)) = matches.subcommand() else {
        return Ok(None);
    };
    Ok(read_task(name, of))
}
