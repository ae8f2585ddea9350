//! The command line of the program, as `clap` reads it.
ghost use Rattle.std.specs.Prelude.{◌≡◌, codes};
ghost use Rattle.clap.specs.Words.{App, Rule, app_of, new_app, with_rule};
ghost use Rattle.command_line.specs.CommandLine.{IsArgument, IsJoined, IsMade, check_app};
ghost use Rattle.command_line.specs.CommandLine.{draw_app, flag_rule, live_app, needed_rule};
ghost use Rattle.command_line.specs.CommandLine.{option_rule, replay_app, rows_app, run_app};
ghost use Rattle.command_line.specs.CommandLine.{show_app, tx_app};

use crate::notes::{
    CHECK_NOTES, DRAW_NOTES, LIVE_NOTES, NOTES, REPLAY_NOTES, ROWS_NOTES, RUN_NOTES, SHOW_NOTES,
};
use clap::{Arg, ArgAction, Command, Error};
use std::alloc::Global;

// A word that is wanted at its place, under the name by which help calls it.
fn needed<'a>(alloc: Global, id: &'static str, value: &'static str, help: &'static str) -> Arg<'a>
    ensures { IsArgument (needed_rule id.entry.now) result }
{
    Arg::new(alloc, id)
        .value_name(value)
        .help(help)
        .required(true)
        .action(ArgAction::Set)
}

// An option with a value, which may be left out.
fn option<'a>(alloc: Global, name: &'static str, value: &'static str, help: &'static str) -> Arg<'a>
    ensures { IsArgument (option_rule name.entry.now) result }
{
    Arg::new(alloc, name)
        .long(name)
        .value_name(value)
        .help(help)
        .action(ArgAction::Set)
}

// An argument that is there or not, and takes no value.
fn flag<'a>(alloc: Global, name: &'static str, help: &'static str) -> Arg<'a>
    ensures { IsArgument (flag_rule name.entry.now) result }
{
    Arg::new(alloc, name)
        .long(name)
        .help(help)
        .action(ArgAction::SetTrue)
}

fn file_argument<'a>(alloc: Global) -> Arg<'a>
    ensures { IsArgument (needed_rule (codes "file")) result }
{
    needed(alloc, "file", "FILE", "The session text to run")
}

fn database_argument<'a>(alloc: Global) -> Arg<'a>
    ensures { IsArgument (option_rule (codes "db")) result }
{
    option(
        alloc,
        "db",
        "PATH",
        "The SQLite database that keeps the results [default: an empty table in memory]",
    )
}

fn report_argument<'a>(alloc: Global, help: &'static str) -> Arg<'a>
    ensures { IsArgument (needed_rule (codes "report")) result }
{
    needed(alloc, "report", "REPORT", help)
}

// A command without arguments, with what help says of it before them and behind them.
fn bare<'a>(
    alloc: Global,
    name: &'static str,
    about: &'static str,
    notes: &'static str,
) -> Command<'a>
    ensures { app_of result ≡ new_app name.entry.now }
{
    Command::new(alloc, name).about(about).after_help(notes)
}

fn check_command<'a>(alloc: Global) -> Result<Command<'a>, Error>
    ensures { IsMade check_app result }
{
    let check = bare(
        alloc,
        "check",
        "Judges a report: whether its table is what a serial run of its transactions leaves",
        CHECK_NOTES,
    );
    taking(Ok(check), report_argument(alloc, "The report to judge"))
}

fn show_command<'a>(alloc: Global) -> Result<Command<'a>, Error>
    ensures { IsMade show_app result }
{
    let show = bare(
        alloc,
        "show",
        "Prints what became of each transaction of a report, as a tree, and a summary",
        SHOW_NOTES,
    );
    let show = taking(Ok(show), report_argument(alloc, "The report to show"));
    let show = taking(
        show,
        flag(alloc, "jobs", "Shows the top-level transactions alone"),
    );
    let show = taking(
        show,
        flag(
            alloc,
            "undone",
            "Shows those alone that were undone, and their ancestors",
        ),
    );
    taking(
        show,
        flag(alloc, "strict", "Ends with status 1 unless all was done"),
    )
}

fn draw_command<'a>(alloc: Global) -> Result<Command<'a>, Error>
    ensures { IsMade draw_app result }
{
    let draw = bare(
        alloc,
        "draw",
        "Prints a picture of a report: its transactions as bars over its entries",
        DRAW_NOTES,
    );
    taking(Ok(draw), report_argument(alloc, "The report to draw"))
}

fn rows_command<'a>(alloc: Global) -> Result<Command<'a>, Error>
    ensures { IsMade rows_app result }
{
    let rows = bare(
        alloc,
        "rows",
        "Prints the rows of a database, each with the number of the commit that set it",
        ROWS_NOTES,
    );
    taking(
        Ok(rows),
        needed(
            alloc,
            "path",
            "PATH",
            "The SQLite database that keeps the results",
        ),
    )
}

fn run_command<'a>(alloc: Global) -> Result<Command<'a>, Error>
    ensures { IsMade run_app result }
{
    let workers = option(
        alloc,
        "workers",
        "N",
        "How many worker threads take the lines, from 1 to 16 [default: 4]",
    );
    let run = bare(
        alloc,
        "run",
        "Runs a session text by worker threads and prints the report of every reply and of the final table",
        RUN_NOTES,
    );
    let run = taking(Ok(run), file_argument(alloc));
    let run = taking(run, workers);
    taking(run, database_argument(alloc))
}

fn live_command<'a>(alloc: Global) -> Result<Command<'a>, Error>
    ensures { IsMade live_app result }
{
    let live = bare(
        alloc,
        "live",
        "Runs sessions whose lines come on standard input and prints the report as it grows",
        LIVE_NOTES,
    );
    taking(Ok(live), database_argument(alloc))
}

fn replay_command<'a>(alloc: Global) -> Result<Command<'a>, Error>
    ensures { IsMade replay_app result }
{
    let schedule = option(
        alloc,
        "schedule",
        "LIST",
        "Which sessions attempt a line first, by their numbers [default: none]",
    );
    let replay = bare(
        alloc,
        "replay",
        "Runs a session text and prints the report of every reply and of the final table",
        REPLAY_NOTES,
    );
    let replay = taking(Ok(replay), file_argument(alloc));
    let replay = taking(replay, schedule);
    taking(replay, database_argument(alloc))
}

/// The command line of the program.
pub(crate) fn command<'a>(alloc: Global) -> Result<Command<'a>, Error>
    ensures { IsMade tx_app result }
{
    let all = bare(
        alloc,
        "tx",
        "Runs jobs in parts: nested transactions whose failed parts are undone alone and tried again",
        NOTES,
    );
    let all = with(Ok(all), replay_command(alloc));
    let all = with(all, run_command(alloc));
    let all = with(all, live_command(alloc));
    let all = with(all, check_command(alloc));
    let all = with(all, rows_command(alloc));
    let all = with(all, show_command(alloc));
    with(all, draw_command(alloc))
}

// The command with one more below it, or why there is none. A `?` at each call would have a way out
// of its own, on which all that is half made is dropped.
fn with<'a>(
    command: Result<Command<'a>, Error>,
    more: Result<Command<'a>, Error>,
) -> Result<Command<'a>, Error>
    ensures { IsJoined command.entry more.entry result }
{
    match command {
        Ok(command) => match more {
            Ok(more) => Ok(command.subcommand(more)?),
            Err(error) => Err(error),
        },
        Err(error) => Err(error),
    }
}

// The command with one more argument.
fn taking<'a>(command: Result<Command<'a>, Error>, argument: Arg<'a>) -> Result<Command<'a>, Error>
    ensures { (app : App) (rule : Rule) → IsMade app command.entry
        → IsArgument rule argument.entry → IsMade (with_rule app rule) result }
{
    match command {
        Ok(command) => Ok(command.arg(argument)?),
        Err(error) => Err(error),
    }
}
