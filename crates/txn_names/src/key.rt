//! Keys: the names of values.
ghost use Rattle.std.specs.Prelude.{◌≡◌, ◌<◌, ◌≤◌, length, List, ℕ, Err, IfOk, IfSome, MatchResult, Ok, Some};
ghost use Rattle.txn_names.specs.Groups.{IsGroupBefore};
ghost use Rattle.std.specs.List.{list_all};
ghost use Rattle.txn_names.specs.Text.{is_key_byte, IsKey};
ghost use Rattle.txn_names.specs.Reading.{key_of};

use crate::classes::is_key_byte;
use crate::group::Group;
use std::marker::Model;
use txn_bytes::Held;

/// The most bytes of a key.
const MOST_BYTES: usize = 32;

/// The name of a value: 1 to 32 bytes of a-z, 0-9, `.`, `_` and `-`. Keys are ordered as their
/// bytes are.
#[derive(Clone, Copy, Debug, PartialEq, Eq, PartialOrd, Ord, Hash)]
pub struct Key {
    text: Held<32>,
}

// A key takes no memory but its own, and of that no more than this.
const _: () = prove!(size_of::<Key>() <= 34);

impl Model for Key {
    ghost use Rattle.std.specs.Prelude.{ℕ, List};
    ghost use Rattle.txn_names.specs.Text.{IsKey};

    ghost Value = { List ℕ };

    ghost view = { λ k. k.text };

    ghost invariant = { λ k. IsKey k.text };

    ghost inverse = { λ bs. record { text = bs } };
}

/// Why bytes are no key.
#[derive(Clone, Copy, Debug, PartialEq, Eq)]
pub enum KeyFault {
    Empty,
    BadByte,
    Long,
}

// Whether each of four bytes may stand in a key.
#[inline(always)]
fn is_key_half(half: &[u8; 4]) -> bool
    ensures { result ≡ list_all is_key_byte half.now }
{
    let [a, b, c, d] = *half;
    is_key_byte(a) & is_key_byte(b) & is_key_byte(c) & is_key_byte(d)
}

// Whether each of eight bytes may.
#[inline(always)]
fn is_key_word(word: &[u8; 8]) -> bool
    ensures { result ≡ list_all is_key_byte word.now }
{
    let [a, b, c, d, e, f, g, h] = *word;
    let front = is_key_byte(a) & is_key_byte(b) & is_key_byte(c) & is_key_byte(d);
    front & is_key_byte(e) & is_key_byte(f) & is_key_byte(g) & is_key_byte(h)
}

// Whether each of fewer bytes than a word has may: the first four are tested and the last four, which may
// lap. Of fewer bytes than four each is.
#[inline(always)]
fn are_few_key_bytes(bytes: &[u8]) -> bool
    requires { length bytes.now < 8 }
    ensures { result ≡ list_all is_key_byte bytes.now }
{
    match (bytes.first_chunk::<4>(), bytes.last_chunk::<4>()) {
        (Some(first), Some(last)) => is_key_half(first) & is_key_half(last),
        _ => bytes.iter().all(|b| is_key_byte(*b)),
    }
}

// Whether each of the bytes may. Eight are tested at once, which costs half of a test byte by byte.
#[inline(always)]
pub(crate) fn are_key_bytes(bytes: &[u8]) -> bool
    ensures { result ≡ list_all is_key_byte bytes.now }
{
    let mut rest = bytes;
    while let Some((word, more)) = rest.split_first_chunk::<8>() {
        if !is_key_word(word) {
            return false;
        }
        rest = more;
    }
    are_few_key_bytes(rest)
}

// The group of the bytes before this place of a key, if there are some and a dot stands there.
fn group_before(bytes: &[u8], place: usize) -> Option<Group>
    requires { IsKey bytes.now }
    ensures some { IfSome result (IsGroupBefore bytes.now place) }
    ensures all { (g : List ℕ) → IsGroupBefore bytes.now place g → result ≡ Some g }
{
    if place == 0 {
        return None;
    }
    if place >= bytes.len() {
        return None;
    }
    if bytes[place] != b'.' {
        return None;
    }
    Some(Group::of(&bytes[..place]))
}

impl Key {
    /// Whether the bytes are a key, and if not, the first of Empty, BadByte and Long.
    pub fn check(bytes: &[u8]) -> Result<(), KeyFault>
        ensures read { MatchResult result (λ _. key_of bytes.now ≡ Ok bytes.now)
            (λ fault. key_of bytes.now ≡ Err fault) }
        ensures key { IfOk result (λ _. IsKey bytes.now) }
    {
        if bytes.is_empty() {
            Err(KeyFault::Empty)
        } else if !are_key_bytes(bytes) {
            Err(KeyFault::BadByte)
        } else if bytes.len() > MOST_BYTES {
            Err(KeyFault::Long)
        } else {
            Ok(())
        }
    }

    /// Reads a key. Of several faults the first of Empty, BadByte and Long is answered.
    pub fn parse(bytes: &[u8]) -> Result<Key, KeyFault>
        ensures { result ≡ key_of bytes.now }
    {
        match Self::check(bytes) {
            Ok(()) => Ok(Self::of(bytes)),
            Err(fault) => Err(fault),
        }
    }

    /// The key of these bytes.
    pub fn of(bytes: &[u8]) -> Key
        requires { IsKey bytes.now }
        ensures { result ≡ bytes.now }
    {
        Key {
            text: Held::of(bytes),
        }
    }

    /// The group of the bytes before this place, counted from 0, if there are some and a dot stands
    /// there: the key is one of its keys. Each group of the key stands before one place, which is
    /// below 32: all are found by asking for each.
    pub fn group_before(&self, place: usize) -> Option<Group>
        ensures some { IfSome result (IsGroupBefore self.now place) }
        ensures all { (g : List ℕ) → IsGroupBefore self.now place g → result ≡ Some g }
    {
        group_before(self.as_bytes(), place)
    }

    /// The bytes.
    pub fn as_bytes(&self) -> &[u8]
        ensures value { result.now ≡ self.now }
        ensures key { IsKey self.now }
    {
        self.text.as_bytes()
    }
}
