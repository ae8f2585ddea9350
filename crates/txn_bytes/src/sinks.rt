//! The writers that are sinks.
ghost use Rattle.std.specs.Prelude.{◌≢◌, ◌<◌, ◌≤◌, [], length, IfOk};
ghost use Rattle.std.specs.Io.KnownBytes.{Keeps, WriteAppends};

use crate::call::Sink;
use crate::sink::WriteFault;
use std::alloc::Allocator;
use std::fs::File;
use std::io::{BufWriter, Stderr, Stdout, Write};

// One write, as a sink answers it: that no byte was taken is a fault.
fn write_some<W: Write>(out: &mut W, bytes: &[u8]) -> Result<usize, WriteFault>
    requires { bytes.now ≢ [] }
    ensures some { IfOk result (λ n. 0 < n) }
    ensures bound { IfOk result (λ n. n ≤ length bytes.now) }
    ensures written { WriteAppends (W.contents out.old) (W.contents out.new) result bytes.now }
{
    match out.write(bytes) {
        Ok(0) => Err(WriteFault),
        Ok(n) => Ok(n),
        Err(_) => Err(WriteFault),
    }
}

// One flush, as a sink answers it.
fn flush<W: Write>(out: &mut W) -> Result<(), WriteFault>
    ensures { Keeps (W.contents out.old) (W.contents out.new) }
{
    match out.flush() {
        Ok(()) => Ok(()),
        Err(_) => Err(WriteFault),
    }
}

/// Of this writer no more is known than that it is one.
impl<W: Write> Sink for &mut W {
    ghost use Rattle.std.specs.Io.KnownBytes.{Keeps, WriteAppends};

    ghost takes = { λ old new bytes answer.
        WriteAppends (W.contents old.now) (W.contents new.now) answer bytes };

    ghost flushes = { λ old new answer. Keeps (W.contents old.now) (W.contents new.now) };

    fn take(&mut self, bytes: &[u8]) -> Result<usize, WriteFault> {
        write_some(self, bytes)
    }

    fn pass_on(&mut self) -> Result<(), WriteFault> {
        flush(self)
    }
}

/// What it holds are the bytes that the writer behind it has not got. Once it has passed them on
/// there are none.
impl<W: Write + Drop, A: Allocator> Sink for BufWriter<W, A> {
    ghost use Rattle.std.specs.Prelude.{◌≡◌, [], OnOk};
    ghost use Rattle.std.specs.Io.Buffered.{writer_buffer, writer_contents};
    ghost use Rattle.std.specs.Io.KnownBytes.{Keeps, WriteAppends};

    ghost takes = { λ old new bytes answer.
        WriteAppends (writer_contents W.contents old) (writer_contents W.contents new) answer
        bytes };

    ghost flushes = { λ old new answer.
        Keeps (writer_contents W.contents old) (writer_contents W.contents new)
        × OnOk answer (writer_buffer new ≡ []) };

    fn take(&mut self, bytes: &[u8]) -> Result<usize, WriteFault> {
        write_some(self, bytes)
    }

    fn pass_on(&mut self) -> Result<(), WriteFault> {
        match self.flush() {
            Ok(()) => Ok(()),
            Err(_) => Err(WriteFault),
        }
    }
}

impl<A: Allocator> Sink for Vec<u8, A> {
    ghost use Rattle.std.specs.Prelude.{Some};
    ghost use Rattle.std.specs.Io.KnownBytes.{Keeps, WriteAppends};

    ghost takes = { λ old new bytes answer.
        WriteAppends (Some old.items) (Some new.items) answer bytes };

    ghost flushes = { λ old new answer. Keeps (Some old.items) (Some new.items) };

    fn take(&mut self, bytes: &[u8]) -> Result<usize, WriteFault> {
        write_some(self, bytes)
    }

    fn pass_on(&mut self) -> Result<(), WriteFault> {
        flush(self)
    }
}

impl Sink for File {
    ghost takes = { λ old new bytes answer. Unit {0} };

    ghost flushes = { λ old new answer. Unit {0} };

    fn take(&mut self, bytes: &[u8]) -> Result<usize, WriteFault> {
        write_some(self, bytes)
    }

    fn pass_on(&mut self) -> Result<(), WriteFault> {
        flush(self)
    }
}

impl Sink for Stdout {
    ghost takes = { λ old new bytes answer. Unit {0} };

    ghost flushes = { λ old new answer. Unit {0} };

    fn take(&mut self, bytes: &[u8]) -> Result<usize, WriteFault> {
        write_some(self, bytes)
    }

    fn pass_on(&mut self) -> Result<(), WriteFault> {
        flush(self)
    }
}

impl Sink for Stderr {
    ghost takes = { λ old new bytes answer. Unit {0} };

    ghost flushes = { λ old new answer. Unit {0} };

    fn take(&mut self, bytes: &[u8]) -> Result<usize, WriteFault> {
        write_some(self, bytes)
    }

    fn pass_on(&mut self) -> Result<(), WriteFault> {
        flush(self)
    }
}
