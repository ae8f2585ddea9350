//! Bytes to a writer: all of them, or a proper beginning.
ghost use Rattle.txn_bytes.specs.Written.{Puts};

use crate::call::Sink;

/// The writer answered an error, or took nothing where there was something to take.
#[derive(Clone, Copy, Debug, PartialEq, Eq)]
pub struct WriteFault;

/// Writes the bytes. After a fault the writer has taken a beginning of them, and not all, and was
/// asked to take more. So no bytes are written without a fault. It is part of its caller: to a buffer a
/// part of a line, as a label or a key, goes by some fifteen instructions, and a call took as many.
#[inline(always)]
pub fn put<W: Sink>(out: &mut W, bytes: &[u8]) -> Result<(), WriteFault>
    ensures { Puts W.Sink out.old out.new bytes.now result }
{
    let mut at = 0;
    while at < bytes.len() {
        match out.take(&bytes[at..]) {
            Ok(n) => at += n,
            Err(fault) => return Err(fault),
        }
    }
    Ok(())
}
