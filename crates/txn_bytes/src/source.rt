//! Readers, with the calls that were made of them.
ghost use Rattle.std.specs.Prelude.{◌<◌, length};
ghost use Rattle.std.specs.Io.{ReadsAtMost};
ghost use Rattle.std.specs.Io.KnownBytes.{ReadConsumes};
ghost use Rattle.txn_bytes.specs.Sources.{given};

use std::io::{ErrorKind, Read};

/// How many calls of a reader it may take until its end has come. The longest report that is
/// written, and the longest text that is read, has no more bytes.
pub const MOST_READS: usize = 134_217_728;

/// A reader answered an error.
#[derive(Clone, Copy, Debug, PartialEq, Eq)]
pub struct ReadFault;

/// A reader, with a relation that says which call was made: in which state of the reader, what it
/// gave or that it answered an error, and in which state it was left. Every type that is `Read` is
/// one.
///
/// A caller that is generic over the source knows nothing of the relation, and so it can only have
/// it from a call of the method. By it it can promise that the bytes of which it speaks are those
/// that the reader gave, and that a fault which it tells is one that the reader answered.
pub trait Source: Read {
    ghost use Rattle.std.specs.Prelude.{ℕ, List, Result};
    ghost use Rattle.txn_bytes.specs.declared.source.ReadFault.{ReadFault};

    /// Asked in the first state for bytes, it gave these or answered an error, and was left in the
    /// second state. It gives none where it is at its end.
    ghost gives: { Self → Self → Result (List ℕ) ReadFault → Type 0 };

    /// How many bytes it put into the front of the buffer, which has room. A read that a signal
    /// interrupted is made again. The error is that it answered one.
    fn give(&mut self, buf: &mut [u8]) -> Result<usize, ReadFault>
        requires { 0 < length buf.old }
        ensures bound { ReadsAtMost result buf.new }
        ensures bytes { ReadConsumes (Self.remaining self.old) (Self.remaining self.new)
            result buf.new }
        ensures asked { gives self.old self.new (given buf.new result) };
}

impl<R: Read> Source for R {
    ghost use Rattle.std.specs.Prelude.{IfOk};
    ghost use Rattle.std.specs.Io.KnownBytes.{Consumes};

    ghost gives = { λ old new answer.
        IfOk answer (λ bytes. Consumes (R.remaining old) (R.remaining new) bytes) };

    fn give(&mut self, buf: &mut [u8]) -> Result<usize, ReadFault> {
        read(self, buf)
    }
}

// Reads once, and again where a signal interrupted that.
fn read<R: Read>(input: &mut R, buf: &mut [u8]) -> Result<usize, ReadFault>
    ensures bound { ReadsAtMost result buf.new }
    ensures bytes { ReadConsumes (R.remaining input.old) (R.remaining input.new) result buf.new }
{
    for _ in 0..u64::MAX {
        match input.read(buf) {
            Ok(len) => return Ok(len),
            Err(fault) => {
                if fault.kind() != ErrorKind::Interrupted {
                    return Err(ReadFault);
                }
            }
        }
    }
    Err(ReadFault)
}
