//! The lines of a reader, one at a time.
ghost use Rattle.std.specs.Prelude.{◌≡◌, ◌≤◌, [], length, IfOk, OnErr};
ghost use Rattle.request_lines.specs.Taking.{at_end, at_feed, Stops, Takes};

use crate::kept::{Kept, MOST_BYTES};
use crate::piece::Piece;
use std::marker::Model;
use txn_bytes::{ReadFault, Source};

/// What was taken.
#[derive(Clone, Copy, Debug, PartialEq, Eq)]
pub enum Taken {
    /// A line with its line feed, all of whose bytes are kept.
    Whole,
    /// A line with its line feed that has more bytes than are kept.
    Long,
    /// Bytes with no line feed, behind which the input ended.
    Cut,
    /// Nothing: the input had ended.
    End,
}

/// What is held of a reader's bytes: those of the line that was taken last, as far as they are
/// kept, and those that the reader gave behind it. It takes no memory.
#[derive(Drop)]
pub struct RequestLines {
    piece: Piece,
    line: Kept,
}

impl Model for RequestLines {
    ghost use Rattle.request_lines.specs.Taking.{Holds};

    ghost Value = { Holds };

    ghost view = { λ l. record { held = l.piece; kept = l.line.kept } };
}

impl RequestLines {
    /// Of no bytes.
    pub fn new() -> RequestLines
        ensures held { result.held ≡ [] }
        ensures kept { result.kept ≡ [] }
    {
        RequestLines {
            piece: Piece::new(),
            line: Kept::new(),
        }
    }

    /// The bytes that are kept of the line that was taken last, without its line feed.
    pub fn line(&self) -> &[u8]
        ensures value { result.now ≡ self.now.kept }
        ensures fits { length result.now ≤ MOST_BYTES }
    {
        self.line.as_bytes()
    }

    /// Takes the next line, through its line feed. Of a line with more bytes than a request may
    /// have the first are kept, and the others are taken too. Bytes with no line feed behind them
    /// are told apart, since their sender may have been cut off. The reader is asked only where no
    /// line feed is held, so that nobody waits for it while a line is there. After an error the
    /// bytes of the line so far are kept as those of a line are.
    pub fn take_line<R: Source>(&mut self, input: &mut R) -> Result<Taken, ReadFault>
        ensures ok { IfOk result (Takes R.Source input.old input.new self.old self.new) }
        ensures err { OnErr result (Stops R.Source input.old input.new self.old self.new) }
    {
        take_line(&mut self.piece, &mut self.line, input)
    }
}

fn at_feed(line: &Kept) -> Taken
    ensures { result ≡ at_feed line.now }
{
    if line.has_more() {
        Taken::Long
    } else {
        Taken::Whole
    }
}

fn at_end(line: &Kept) -> Taken
    ensures { result ≡ at_end line.now }
{
    if line.as_bytes().is_empty() {
        Taken::End
    } else {
        Taken::Cut
    }
}

fn take_line<R: Source>(
    piece: &mut Piece,
    line: &mut Kept,
    input: &mut R,
) -> Result<Taken, ReadFault>
    // Wide: a line has two parts, before and after.
    ensures ok { IfOk result (Takes R.Source input.old input.new
        (record { held = piece.old; kept = line.old.kept })
        (record { held = piece.new; kept = line.new.kept })) }
    // Wide: a line has two parts, before and after.
    ensures err { OnErr result (Stops R.Source input.old input.new
        (record { held = piece.old; kept = line.old.kept })
        (record { held = piece.new; kept = line.new.kept })) }
{
    line.clear();
    for _call in 0..u64::MAX {
        if piece.hand_over(line) {
            return Ok(at_feed(line));
        }
        piece.fill(input)?;
        if piece.is_empty() {
            return Ok(at_end(line));
        }
    }
    Err(ReadFault)
}
