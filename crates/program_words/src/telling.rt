//! The one line by which the program says why it gave no report, to the error writer.
ghost use Rattle.std.specs.Prelude.{◌≡◌, ◌≢◌, ◌≤◌, ◌⊎◌, ◌++◌, codes, decimal, Ok, Err};
ghost use Rattle.std.specs.Io.KnownBytes.{Keeps};
ghost use Rattle.txn_bytes.specs.Written.{Puts};
ghost use Rattle.line_language.specs.Report.{line};
ghost use Rattle.program_words.specs.declared.fault.Fault.TheVariants.{CannotWrite, NoMemory};
ghost use Rattle.program_words.specs.Faults.{IsSaid, spelled_cause, spelled_fault, spelled_kind};
ghost use Rattle.program_words.specs.Tellings.{HasUsageLine};

use crate::fault::{Fault, word_of};
use crate::status::{DONE, FAILED, MISUSED};
use itoa::Buffer;
use session_text::LineKind;
use std::alloc::Global;
use std::fmt::Display;
use txn_bytes::{Sink, WriteFault, put};

fn put_number<E: Sink>(err: &mut E, number: usize) -> Result<(), WriteFault>
    ensures { Puts E.Sink err.old err.new (decimal number) result }
{
    let mut buffer = Buffer::new();
    put(err, buffer.format(number).as_bytes())
}

fn put_kind<E: Sink>(err: &mut E, kind: LineKind) -> Result<(), WriteFault>
    ensures { Puts E.Sink err.old err.new (spelled_kind kind) result }
{
    put(err, word_of(&kind).as_bytes())
}

// The first bytes, and then the second.
fn put_behind<E: Sink>(err: &mut E, first: &[u8], second: &[u8]) -> Result<(), WriteFault>
    ensures { Puts E.Sink err.old err.new (first.now ++ second.now) result }
{
    put(err, first)?;
    put(err, second)
}

// Words with their space, and a number.
fn put_counted<E: Sink>(err: &mut E, words: &[u8], number: usize) -> Result<(), WriteFault>
    ensures { Puts E.Sink err.old err.new (words.now ++ decimal number) result }
{
    put(err, words)?;
    put_number(err, number)
}

// A line of a text, and what is wrong with it.
fn put_place<E: Sink>(err: &mut E, number: usize, kind: LineKind) -> Result<(), WriteFault>
    ensures { Puts E.Sink err.old err.new
        (codes "tx: line " ++ decimal number ++ codes ": " ++ spelled_kind kind) result }
{
    put_counted(err, b"tx: line ", number)?;
    put(err, b": ")?;
    put_kind(err, kind)
}

// What the line says, without its line feed.
fn put_cause<E: Sink>(err: &mut E, fault: Fault<'_>) -> Result<(), WriteFault>
    ensures { Puts E.Sink err.old err.new (spelled_cause fault.entry) result }
{
    match fault {
        Fault::CannotRead(file) => put_behind(err, b"tx: cannot read ", file.as_bytes()),
        Fault::Line { line, kind } => put_place(err, line, kind),
        Fault::Schedule(place) => put_counted(err, b"tx: schedule: item ", place),
        Fault::CannotOpen => put(err, b"tx: cannot open database"),
        Fault::TooManyRows => put(err, b"tx: too many rows"),
        Fault::NoMemory => put(err, b"tx: no memory"),
        Fault::CannotStart => put(err, b"tx: cannot start worker"),
        Fault::CannotWrite => put(err, b"tx: cannot write"),
    }
}

fn put_fault<E: Sink>(err: &mut E, fault: Fault<'_>) -> Result<(), WriteFault>
    ensures { Puts E.Sink err.old err.new (spelled_fault fault.entry) result }
{
    put_cause(err, fault)?;
    put(err, b"\n")
}

/// Says why there is no report, in one line. Where the error writer fails it has taken a beginning
/// of that line and was asked in vain to take more, and the exit status alone tells.
pub fn tell<E: Sink>(err: &mut E, fault: Fault<'_>) -> u8
    ensures told { IsSaid E.Sink err.old err.new (spelled_fault fault.entry) }
    ensures status { result ≡ FAILED }
{
    match put_fault(err, fault) {
        Ok(()) => FAILED,
        Err(_) => FAILED,
    }
}

/// Says how the program is used, in this text and a line feed. Where the error writer fails it has
/// taken a beginning of them and was asked in vain to take more, and the exit status alone tells.
pub fn misuse<E: Sink>(err: &mut E, text: &[u8]) -> u8
    ensures told { IsSaid E.Sink err.old err.new (line text.now) }
    ensures status { result ≡ MISUSED }
{
    match put_behind(err, text, b"\n") {
        Ok(()) => MISUSED,
        Err(_) => MISUSED,
    }
}

/// Says of words that are no command line what a library of command lines shows of them: what is
/// wrong, or the help that they ask for. Where memory runs out for that text, that is told.
pub fn refuse<E: Sink, T: Display>(alloc: Global, err: &mut E, text: &T) -> u8
    ensures failed { result ≡ FAILED → IsSaid E.Sink err.old err.new (spelled_fault NoMemory) }
    ensures misused { result ≢ FAILED → HasUsageLine E.Sink err.old err.new }
    ensures status { (result ≡ FAILED) ⊎ (result ≡ MISUSED) }
{
    match format!(in alloc; "{text}") {
        Ok(text) => misuse(err, text.as_bytes()),
        Err(_) => tell(err, Fault::NoMemory),
    }
}

/// Asks the writer to pass on what it holds. Where it answers an error, that is told.
pub fn finish<W: Sink, E: Sink>(out: &mut W, err: &mut E) -> u8
    ensures kept { Keeps (W.contents out.old) (W.contents out.new) }
    ensures passed { result ≡ DONE → W.flushes out.old out.new (Ok tt) }
    ensures silent { result ≡ DONE → err.new ≡ err.old }
    ensures failed { result ≢ DONE → W.flushes out.old out.new (Err (record {})) }
    ensures told { result ≢ DONE → IsSaid E.Sink err.old err.new (spelled_fault CannotWrite) }
    ensures status { result ≤ FAILED }
{
    match out.pass_on() {
        Ok(()) => DONE,
        Err(_) => tell(err, Fault::CannotWrite),
    }
}
