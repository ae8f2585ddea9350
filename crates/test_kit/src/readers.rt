//! A reader that gives a few bytes at a time, and answers an error once.
use std::io::{self, ErrorKind, Read};

/// Bytes that are given at most so many at a time. One call answers an error, and the next one goes
/// on behind the bytes that were given.
#[derive(Drop)]
pub struct Pieces<'a> {
    rest: &'a [u8],
    piece: usize,
    calls: usize,
    fails_at: usize,
    fault: ErrorKind,
}

impl<'a> Pieces<'a> {
    /// A reader of these bytes, at most `piece` at a time. The call with the number `fails_at`, from
    /// 0, answers this error.
    pub fn new(bytes: &'a [u8], piece: usize, fails_at: usize, fault: ErrorKind) -> Pieces<'a> {
        Pieces {
            rest: bytes,
            piece,
            calls: 0,
            fails_at,
            fault,
        }
    }
}

impl Read for Pieces<'_> {
    fn read(&mut self, buf: &mut [u8]) -> io::Result<usize> {
        let call = self.calls;
        self.calls = call.wrapping_add(1);
        if call == self.fails_at {
            return Err(self.fault.into());
        }
        let len = self.rest.len().min(self.piece).min(buf.len());
        let (given, rest) = self.rest.split_at(len);
        buf[..len].copy_from_slice(given);
        self.rest = rest;
        Ok(len)
    }
}
