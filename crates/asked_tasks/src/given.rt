//! The words of the command line, from what the system says of the program's arguments.
ghost use Rattle.std.specs.Prelude.{◌≡◌, drop, IfOk};
ghost use Rattle.std.specs.Vec.Iter.{into_iter_items};
ghost use Rattle.std.specs.IoError.{error_kind};
ghost use Rattle.program_words.specs.Faults.{IsSaid};
ghost use Rattle.asked_tasks.specs.Given.{line_of_no_words, status_of_no_words};

use program_words::{Fault, misuse, tell};
use std::alloc::{AllocError, Global};
use std::env::Args;
use std::io;
use txn_bytes::Sink;

/// The words behind the program's name, which is the first of the arguments. The only error is that
/// memory runs out.
pub fn words_behind_name(alloc: Global, args: Args) -> Result<Vec<String>, AllocError>
    ensures { IfOk result (λ words. words.items ≡ drop 1 (into_iter_items args)) }
{
    let mut words = Vec::new(alloc);
    let mut rest = args;
    let _name = rest.next();
    while let Some(word) = rest.next() {
        words.push(word)?;
    }
    Ok(words)
}

/// Tells on `err` why the system gave no words, in a line, and answers the exit status: memory ran
/// out, and `FAILED`; or an argument is no text, and `MISUSED`.
pub fn tell_no_words<E: Sink>(err: &mut E, why: &io::Error) -> u8
    ensures said { IsSaid E.Sink err.old err.new (line_of_no_words (error_kind why.now)) }
    ensures status { result ≡ status_of_no_words (error_kind why.now) }
{
    match why.kind() {
        io::ErrorKind::OutOfMemory => tell(err, Fault::NoMemory),
        _ => misuse(err, b"tx: the command line is not text"),
    }
}
