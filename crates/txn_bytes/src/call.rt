//! Writers, with the calls that were made of them.
ghost use Rattle.std.specs.Prelude.{◌≢◌, ◌<◌, ◌≤◌, ℕ, List, [], take, Result, length, IfOk, OnErr};
ghost use Rattle.std.specs.Io.KnownBytes.{Appends, Keeps};

use crate::sink::WriteFault;
use std::io::Write;

/// A writer, with relations that say which call was made: in which state of the writer, with which
/// bytes, what it answered and in which state it was left. Of the library's writers files, the
/// standard streams, vectors and buffers are sinks. A reference to any writer is one too: what
/// takes a sink takes `&mut &mut writer` for each writer.
///
/// A caller that is generic over the sink knows nothing of the relations, and so it can only have
/// them from a call of the method. By them it can promise that a fault which it tells is one that
/// the writer answered, and that it asked the writer to pass on what it held.
pub trait Sink: Write {
    ghost use Rattle.std.specs.Prelude.{ℕ, List, Result};
    ghost use Rattle.txn_bytes.specs.declared.sink.WriteFault.{WriteFault};

    /// Asked in the first state to take these bytes, it took so many or none, and was left in the
    /// second state.
    ghost takes: { Self → Self → List ℕ → Result ℕ WriteFault → Type 0 };

    /// Asked in the first state to pass on what it held, it gave this answer and was left in the
    /// second state.
    ghost flushes: { Self → Self → Result (Unit {0}) WriteFault → Type 0 };

    /// How many of the bytes it took from the front, at least one. The error is that it answered
    /// an error or took none.
    fn take(&mut self, bytes: &[u8]) -> Result<usize, WriteFault>
        requires { bytes.now ≢ [] }
        ensures some { IfOk result (λ n. 0 < n) }
        ensures bound { IfOk result (λ n. n ≤ length bytes.now) }
        ensures ok { IfOk result (λ n.
            Appends (Self.contents self.old) (Self.contents self.new) (take n bytes.now)) }
        ensures err { OnErr result (Keeps (Self.contents self.old) (Self.contents self.new)) }
        ensures asked { takes self.old self.new bytes.now result };

    /// Passes on what it holds. The error is that it answered an error.
    fn pass_on(&mut self) -> Result<(), WriteFault>
        ensures kept { Keeps (Self.contents self.old) (Self.contents self.new) }
        ensures asked { flushes self.old self.new result };
}
