//! The parts of a line.
ghost use Rattle.std.specs.Prelude.{◌≡◌, ◌++◌, decimal, OnOk};
ghost use Rattle.tree_lines.specs.Lines.{indent, spelled_outcome};

use itoa::Buffer;
use report_trees::{Ending, Outcome};
use serial_spec::NoMemory;

/// Adds the bytes. The only error is that memory runs out.
pub fn put_bytes(out: &mut Vec<u8>, bytes: &[u8]) -> Result<(), NoMemory>
    ensures { OnOk result (out.new.items ≡ out.old.items ++ bytes.now) }
{
    out.extend_from_slice(bytes)
}

/// Adds the number. The only error is that memory runs out.
pub fn put_number(out: &mut Vec<u8>, number: u64) -> Result<(), NoMemory>
    ensures { OnOk result (out.new.items ≡ out.old.items ++ decimal number) }
{
    let mut buffer = Buffer::new();
    put_bytes(out, buffer.format(number).as_bytes())
}

/// Adds words, and a number behind them. The only error is that memory runs out.
pub fn put_counted(out: &mut Vec<u8>, words: &[u8], number: u64) -> Result<(), NoMemory>
    ensures { OnOk result (out.new.items ≡ out.old.items ++ (words.now ++ decimal number)) }
{
    put_bytes(out, words)?;
    put_number(out, number)
}

/// Adds two spaces for each level. The only error is that memory runs out.
pub(crate) fn put_indent(out: &mut Vec<u8>, level: usize) -> Result<(), NoMemory>
    ensures { OnOk result (out.new.items ≡ out.old.items ++ indent level) }
{
    for _level in 0..level {
        put_bytes(out, b"  ")?;
    }
    Ok(())
}

/// The words for what became of a transaction.
pub fn outcome_words(outcome: Outcome) -> &'static [u8]
    ensures { result.now ≡ spelled_outcome outcome }
{
    match outcome {
        Outcome::Committed => b"committed".as_slice(),
        Outcome::Undone(Ending::Request) => b"undone on request".as_slice(),
        Outcome::Undone(Ending::Victim) => b"undone as a victim".as_slice(),
        Outcome::Undone(Ending::Close) => b"undone at the close".as_slice(),
        Outcome::WithParent => b"undone with its parent".as_slice(),
        Outcome::AfterCommit => b"undone after its commit".as_slice(),
        Outcome::Live => b"live".as_slice(),
    }
}
