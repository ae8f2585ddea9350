//! A replay from what the system says of the program's arguments: these, or why it gives none.
ghost use Rattle.std.specs.Prelude.{◌≡◌, IfErr};
ghost use Rattle.std.specs.IoError.{error_kind};
ghost use Rattle.program_words.specs.Faults.{IsSaid};
ghost use Rattle.tx_machine.specs.Worlds.{state};
ghost use Rattle.command_line.specs.Tasks.{AskedBy};
ghost use Rattle.asked_tasks.specs.Given.{AskedIn, line_of_no_words, status_of_no_words};
ghost use Rattle.text_commands.specs.Served.{Serves};

use crate::replaying::replay;
use asked_tasks::{replay_asked, tell_no_words, words_behind_name};
use command_line::with_name;
use program_words::{Fault, tell};
use std::alloc::{AllocError, Global};
use std::env::Args;
use std::io;
use tx_machine::{Setting, Surroundings};
use txn_bytes::Sink;

/// Does the replay that the arguments ask for, the program's name first, as the whole program does
/// it, and answers the exit status. Arguments that are no text, that ask for something else or that
/// are no command line are told on `err`, in a text with a line feed, and the status is `MISUSED`
/// then. Where memory runs out while they are read a line says that, and it is `FAILED`.
pub fn start<H: Surroundings, W: Sink, E: Sink>(
    host: &mut H,
    alloc: Global,
    args: io::Result<Args>,
    out: &mut W,
    err: &mut E,
) -> u8
    ensures unread { IfErr args (λ why.
        IsSaid E.Sink err.old err.new (line_of_no_words (error_kind why))) }
    ensures unread_status { IfErr args
        (λ why. result ≡ status_of_no_words (error_kind why)) }
    // Wide: the surroundings and the two writers, before it and behind it, and the arguments.
    ensures served { Serves ⟦<(H, W, E) as Setting>⟧.world
        (state host.old out.old err.old) (state host.new out.new err.new)
        (AskedIn args) result }
{
    let args = match args {
        Ok(args) => args,
        Err(why) => return tell_no_words(err, &why),
    };
    match words_behind_name(alloc, args) {
        Ok(words) => serve(host, alloc, words.as_slice(), out, err),
        Err(AllocError) => tell(err, Fault::NoMemory),
    }
}

// The same with words that are text.
fn serve<H: Surroundings, W: Sink, E: Sink>(
    host: &mut H,
    alloc: Global,
    words: &[String],
    out: &mut W,
    err: &mut E,
) -> u8
    // Wide: the same.
    ensures { Serves ⟦<(H, W, E) as Setting>⟧.world
        (state host.old out.old err.old) (state host.new out.new err.new)
        (AskedBy words.now) result }
{
    let Ok(all) = with_name(alloc, words) else {
        return tell(err, Fault::NoMemory);
    };
    match replay_asked(alloc, all.as_slice(), err) {
        Ok(asked) => replay(
            host,
            alloc,
            asked.file,
            asked.schedule,
            asked.database,
            out,
            err,
        ),
        Err(status) => status,
    }
}
