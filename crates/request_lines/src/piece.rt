//! The bytes that a reader gave last.
ghost use Rattle.std.specs.Prelude.{◌≡◌, ◌≤◌, ◌==◌, [], drop, length, position, OnOk, OnErr, MatchBool};
ghost use Rattle.txn_bytes.specs.Sources.{IsFault, IsPiece};
ghost use Rattle.request_lines.specs.Keeping.{Adds, EndsLine, IsLine};

use crate::kept::Kept;
use std::marker::Model;
use txn_bytes::{ReadFault, Source};

// How many bytes are asked for at a time.
const MOST_GIVEN: usize = 4096;

/// The bytes that a reader gave last, as far as no line has taken them. It takes no memory.
#[derive(Drop)]
pub(crate) struct Piece {
    bytes: [u8; MOST_GIVEN],
    start: usize,
    end: usize,
}

impl Model for Piece {
    ghost use Rattle.std.specs.Prelude.{◌≡◌, ◌≤◌, ℕ, List, length, take, drop};

    ghost Value = { List ℕ };

    ghost view = { λ p. drop p.start (take p.end p.bytes) };

    ghost invariant = { λ p. (p.start ≤ p.end) × (p.end ≤ 4096) × (length p.bytes ≡ 4096) };
}

// Where the first line feed is.
fn first_feed(bytes: &[u8]) -> Option<usize>
    ensures { result ≡ position (λ b. b == 10) bytes.now }
{
    bytes.iter().position(|byte| *byte == b'\n')
}

impl Piece {
    /// No bytes.
    pub(crate) fn new() -> Piece
        ensures { result ≡ [] }
    {
        Piece {
            bytes: [0; MOST_GIVEN],
            start: 0,
            end: 0,
        }
    }

    pub(crate) fn is_empty(&self) -> bool
        ensures { result ≡ length self.now == 0 }
    {
        self.start == self.end
    }

    fn as_bytes(&self) -> &[u8]
        ensures { result.now ≡ self.now }
    {
        &self.bytes[self.start..self.end]
    }

    fn clear(&mut self)
        ensures { self.new ≡ [] }
    {
        self.start = 0;
        self.end = 0;
    }

    // Lets the first bytes go.
    fn skip(&mut self, len: usize)
        requires { len ≤ length self.old }
        ensures { self.new ≡ drop len self.old }
    {
        self.start += len;
    }

    /// Asks the reader for the next bytes, in the place of these, which it is called without.
    /// There are none at its end, and after an error.
    pub(crate) fn fill<R: Source>(&mut self, input: &mut R) -> Result<(), ReadFault>
        requires { self.old ≡ [] }
        ensures ok { OnOk result (IsPiece R.Source input.old input.new self.new) }
        ensures err { OnErr result (IsFault R.Source input.old input.new × (self.new ≡ [])) }
    {
        self.start = 0;
        self.end = 0;
        self.end = input.give(&mut self.bytes)?;
        Ok(())
    }

    /// Hands the line what stands before the first line feed, and takes the line feed too. With
    /// none the line gets all. The result is whether there was one.
    pub(crate) fn hand_over(&mut self, line: &mut Kept) -> bool
        // Wide: two cases of equal weight.
        ensures { MatchBool result
            (EndsLine self.old self.new line.old line.new)
            (IsLine self.old × (self.new ≡ []) × Adds self.old line.old line.new) }
    {
        let bytes = self.as_bytes();
        match first_feed(bytes) {
            Some(len) => {
                line.add(&bytes[..len]);
                self.skip(len + 1);
                true
            }
            None => {
                line.add(bytes);
                self.clear();
                false
            }
        }
    }
}
