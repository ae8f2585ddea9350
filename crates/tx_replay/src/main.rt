//! The program that replays texts and does nothing else: the first one that is proved and built,
//! since it stands on half of the crates.
#![tactic(auto)]

ghost use Rattle.std.specs.Process.{exit_status};
ghost use Rattle.asked_tasks.specs.Given.{AskedIn};
ghost use Rattle.text_commands.specs.Served.{Serves};
ghost use Rattle.tx_machine.specs.Worlds.{state};

use program_words::{Fault, tell};
use std::alloc::Global;
use std::env::{self, Args};
use std::io::{self, BufWriter};
use std::process::ExitCode;
use text_commands::start;
use tx_machine::{Machine, Setting, Surroundings};
use txn_bytes::Sink;

fn main(rt: HostRuntime) -> ExitCode {
    let mut err = rt.stderr();
    let mut machine = Machine::new(&rt);
    match BufWriter::new(rt.alloc(), rt.stdout()) {
        Ok(mut out) => replay(&mut machine, rt.alloc(), env::args(&rt), &mut out, &mut err),
        Err(_) => ExitCode::from(tell(&mut err, Fault::NoMemory)),
    }
}

// The replay that the arguments ask for, the program's name first, and how the program ends.
fn replay<H: Surroundings, W: Sink, E: Sink>(
    host: &mut H,
    alloc: Global,
    args: io::Result<Args>,
    out: &mut W,
    err: &mut E,
) -> ExitCode
    // Wide: the surroundings and the two writers, before it and behind it, and the arguments.
    ensures { Serves ⟦<(H, W, E) as Setting>⟧.world
        (state host.old out.old err.old) (state host.new out.new err.new)
        (AskedIn args) (exit_status result) }
{
    ExitCode::from(start(host, alloc, args, out, err))
}
