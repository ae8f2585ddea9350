//! Groups: the keys that begin with some bytes and a dot.
ghost use Rattle.std.specs.Prelude.{◌≡◌, ◌<◌, ◌≤◌, ◌++◌, ◌∷◌, [], length};
ghost use Rattle.txn_names.specs.Groups.{group_of, has, IsGroup};

use crate::key::{Key, KeyFault, are_key_bytes};
use std::marker::Model;
use txn_bytes::Held;

/// The most bytes of a group: with a dot behind them they are a key's at most.
const MOST_BYTES: usize = 31;

/// The keys that begin with these bytes and a dot: 1 to 31 bytes of a key.
#[derive(Clone, Copy, Debug, PartialEq, Eq, PartialOrd, Ord, Hash)]
pub struct Group {
    text: Held<31>,
}

impl Model for Group {
    ghost use Rattle.std.specs.Prelude.{ℕ, List};
    ghost use Rattle.txn_names.specs.Groups.{IsGroup};

    ghost Value = { List ℕ };

    ghost view = { λ g. g.text };

    ghost invariant = { λ g. IsGroup g.text };

    ghost inverse = { λ bs. record { text = bs } };
}

// Whether the bytes begin with these, and a dot stands behind them.
#[tactic(auto, using(crate::proofs::Groups::has_short))]
fn is_behind(front: &[u8], bytes: &[u8]) -> bool
    ensures { result ≡ has front.now bytes.now }
{
    if bytes.len() <= front.len() {
        return false;
    }
    if bytes[front.len()] != b'.' {
        return false;
    }
    bytes.starts_with(front)
}

impl Group {
    /// Reads a group. Of several faults the first of Empty, BadByte and Long is answered: a group
    /// has 31 bytes at most.
    pub fn parse(bytes: &[u8]) -> Result<Group, KeyFault>
        ensures { result ≡ group_of bytes.now }
    {
        if bytes.is_empty() {
            Err(KeyFault::Empty)
        } else if !are_key_bytes(bytes) {
            Err(KeyFault::BadByte)
        } else if bytes.len() > MOST_BYTES {
            Err(KeyFault::Long)
        } else {
            Ok(Group {
                text: Held::of(bytes),
            })
        }
    }

    // The group of these bytes.
    pub(crate) fn of(bytes: &[u8]) -> Group
        requires { IsGroup bytes.now }
        ensures { result ≡ bytes.now }
    {
        Group {
            text: Held::of(bytes),
        }
    }

    /// The first key of the group in byte order: its bytes and the dot. From there on the group's
    /// keys stand together.
    pub fn first_key(&self) -> Key
        ensures { result ≡ self.now ++ 46 ∷ [] }
    {
        let bytes = self.as_bytes();
        let mut first = [b'.'; 32];
        first[..bytes.len()].copy_from_slice(bytes);
        Key::of(&first[..bytes.len() + 1])
    }

    /// The key of the same bytes, by which a table by key can hold what is kept of a group. It is
    /// none of the group's keys.
    pub fn as_key(&self) -> Key
        ensures value { result ≡ self.now }
        ensures group { IsGroup self.now }
    {
        Key::of(self.as_bytes())
    }

    /// The bytes.
    pub fn as_bytes(&self) -> &[u8]
        ensures value { result.now ≡ self.now }
        ensures group { IsGroup self.now }
    {
        self.text.as_bytes()
    }

    /// Whether the key is one of the group.
    pub fn has(&self, key: &Key) -> bool
        ensures { result ≡ has self.now key.now }
    {
        is_behind(self.as_bytes(), key.as_bytes())
    }
}
