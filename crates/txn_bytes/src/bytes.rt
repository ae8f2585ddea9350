//! Bytes that are gathered, one behind the other.
ghost use Rattle.std.specs.Prelude.{◌≡◌, ◌≤◌, ◌<◌, ◌+◌, ◌==◌, ◌++◌, [], length, take, MatchBool, Some};

use crate::call::Sink;
use crate::copy::copy;
use crate::sink::WriteFault;
use std::io;
use std::io::Write;
use std::marker::Model;

/// At most `N` bytes, one behind the other. It takes no memory.
#[derive(Drop)]
pub struct Bytes<const N: usize> {
    bytes: [u8; N],
    len: usize,
}

impl<const N: usize> Model for Bytes<N> {
    ghost use Rattle.std.specs.Prelude.{◌≡◌, ◌≤◌, ℕ, List, length, take};

    ghost Value = { List ℕ };

    ghost view = { λ b. take b.len b.bytes };

    ghost invariant = { λ b. (b.len ≤ N) × (length b.bytes ≡ N) };
}

impl<const N: usize> Bytes<N> {
    /// No bytes.
    #[inline(always)]
    pub fn new() -> Self
        ensures { result ≡ [] }
    {
        Bytes {
            bytes: [0; N],
            len: 0,
        }
    }

    /// Whether there are none.
    #[inline(always)]
    pub fn is_empty(&self) -> bool
        ensures { result ≡ length self.now == 0 }
    {
        self.len == 0
    }

    /// How many there are.
    #[inline(always)]
    pub fn len(&self) -> usize
        ensures { result ≡ length self.now }
    {
        self.len
    }

    /// The bytes.
    #[inline(always)]
    pub fn as_bytes(&self) -> &[u8]
        ensures value { result.now ≡ self.now }
        ensures fits { length result.now ≤ N }
    {
        &self.bytes[..self.len]
    }

    /// Makes place for others. What was there is not touched, only forgotten.
    #[inline(always)]
    pub fn clear(&mut self)
        ensures { self.new ≡ [] }
    {
        self.len = 0;
    }

    /// Keeps the first so many, and forgets those behind them.
    #[inline(always)]
    pub fn truncate(&mut self, len: usize)
        requires { len ≤ length self.old }
        ensures { self.new ≡ take len self.old }
    {
        self.len = len;
    }

    /// Puts more bytes behind these, unless they would be more than `N`, and answers whether it
    /// did.
    #[inline(always)]
    pub fn extend(&mut self, more: &[u8]) -> bool
        // Wide: two cases of equal weight.
        ensures { MatchBool result
            ((length self.old + length more.now ≤ N) × (self.new ≡ self.old ++ more.now))
            ((N < length self.old + length more.now) × (self.new ≡ self.old)) }
    {
        let start = self.len;
        if N - start < more.len() {
            return false;
        }
        let end = start + more.len();
        let all = &mut self.bytes[..];
        copy(&mut all[start..end], more);
        self.len = end;
        true
    }
}

/// It takes all bytes, or none where there is no room for all.
impl<const N: usize> Write for Bytes<N> {
    ghost contents = { λ b. Some b };

    #[inline(always)]
    fn write(&mut self, bytes: &[u8]) -> io::Result<usize> {
        if self.extend(bytes) {
            Ok(bytes.len())
        } else {
            Ok(0)
        }
    }

    #[inline(always)]
    fn flush(&mut self) -> io::Result<()> {
        Ok(())
    }
}

/// That there is no room is a fault.
impl<const N: usize> Sink for Bytes<N> {
    ghost takes = { λ old new bytes answer. Unit {0} };

    ghost flushes = { λ old new answer. Unit {0} };

    #[inline(always)]
    fn take(&mut self, bytes: &[u8]) -> Result<usize, WriteFault> {
        if self.extend(bytes) {
            Ok(bytes.len())
        } else {
            Err(WriteFault)
        }
    }

    #[inline(always)]
    fn pass_on(&mut self) -> Result<(), WriteFault> {
        Ok(())
    }
}
