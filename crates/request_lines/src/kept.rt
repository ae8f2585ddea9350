//! The bytes of a line, as far as they are kept.
ghost use Rattle.std.specs.Prelude.{◌≡◌, ◌≤◌, [], length};
ghost use Rattle.request_lines.specs.Keeping.{Adds, KeepsLine};

use std::marker::Model;
use txn_bytes::Bytes;

/// How many bytes the longest request has, without its line feed: a label, a space, and the
/// longest line of a session.
pub const MOST_BYTES: usize = 346;

/// The bytes of a line, or its first `MOST_BYTES` where it has more. It takes no memory.
#[derive(Drop)]
pub(crate) struct Kept {
    bytes: Bytes<MOST_BYTES>,
    // Whether the line has more bytes than are kept.
    more: bool,
}

impl Model for Kept {
    ghost use Rattle.request_lines.specs.Keeping.{Keeps};

    ghost Value = { Keeps };

    ghost view = { λ k. record { kept = k.bytes; more = k.more } };
}

impl Kept {
    /// Of no bytes.
    pub(crate) fn new() -> Kept
        ensures { KeepsLine [] result }
    {
        Kept {
            bytes: Bytes::new(),
            more: false,
        }
    }

    /// The bytes that are kept.
    pub(crate) fn as_bytes(&self) -> &[u8]
        ensures value { result.now ≡ self.now.kept }
        ensures fits { length result.now ≤ MOST_BYTES }
    {
        self.bytes.as_bytes()
    }

    /// Whether the line has more bytes than are kept.
    pub(crate) fn has_more(&self) -> bool
        ensures { result ≡ self.now.more }
    {
        self.more
    }

    /// Forgets the line.
    pub(crate) fn clear(&mut self)
        ensures { KeepsLine [] self.new }
    {
        self.bytes.clear();
        self.more = false;
    }

    /// Takes more bytes of the line.
    pub(crate) fn add(&mut self, bytes: &[u8])
        ensures { Adds bytes.now self.old self.new }
    {
        if self.bytes.extend(bytes) {
            return;
        }
        let room = MOST_BYTES - self.bytes.as_bytes().len();
        self.bytes.extend(&bytes[..room]);
        self.more = true;
    }
}
