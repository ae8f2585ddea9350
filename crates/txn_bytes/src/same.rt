//! Whether bytes are the same, found by whole words.
ghost use Rattle.std.specs.Prelude.{◌≡◌, ◌-◌, ◌<◌, ◌↔◌, [], ◌∷◌, drop, length, IsTrue};
ghost use Rattle.std.specs.Hash as fed;
ghost use Rattle.std.specs.Int.{from_le_bytes, w32};

use crate::held::word_of;

// The number that the bytes of half a word make, which is fed to a hash as these bytes.
fn half_of(bytes: &[u8; 4]) -> u32
    ensures read { result ≡ from_le_bytes w32 bytes.now }
    ensures fed { fed.u32 result ≡ bytes.now ∷ [] }
{
    u32::from_le_bytes(*bytes)
}

fn is_same_half(ours: &[u8; 4], theirs: &[u8; 4]) -> bool
    ensures { IsTrue result ↔ (ours.now ≡ theirs.now) }
{
    half_of(ours) == half_of(theirs)
}

fn is_same_word(ours: &[u8; 8], theirs: &[u8; 8]) -> bool
    ensures { IsTrue result ↔ (ours.now ≡ theirs.now) }
{
    word_of(ours) == word_of(theirs)
}

// The same of fewer bytes than a word has: their first half a word and their last, which may lap.
#[inline(always)]
fn are_few_same(ours: &[u8], theirs: &[u8]) -> bool
    requires len { length ours.now ≡ length theirs.now }
    requires few { length ours.now < 8 }
    ensures { IsTrue result ↔ (ours.now ≡ theirs.now) }
{
    let Some(first) = ours.first_chunk::<4>() else {
        return ours == theirs;
    };
    let Some(their_first) = theirs.first_chunk::<4>() else {
        return false;
    };
    if !is_same_half(first, their_first) {
        return false;
    }
    match (ours.last_chunk::<4>(), theirs.last_chunk::<4>()) {
        (Some(last), Some(their_last)) => is_same_half(last, their_last),
        _ => false,
    }
}

// Whether both are the same, of which the last word is: word by word, of which the last may lap with that.
fn are_fronts_same(ours: &[u8], theirs: &[u8]) -> bool
    requires len { length ours.now ≡ length theirs.now }
    requires last { drop (length ours.now - 8) ours.now ≡ drop (length theirs.now - 8) theirs.now }
    ensures { IsTrue result ↔ (ours.now ≡ theirs.now) }
{
    let mut left = ours;
    let mut right = theirs;
    while left.len() > 8 {
        let Some((word, more)) = left.split_first_chunk::<8>() else {
            return false;
        };
        let Some((their_word, their_more)) = right.split_first_chunk::<8>() else {
            return false;
        };
        if !is_same_word(word, their_word) {
            return false;
        }
        left = more;
        right = their_more;
    }
    true
}

/// Whether both are the same bytes. Words are compared as numbers, which costs a third of a
/// comparison byte by byte: the last one first, since names of one job begin alike.
pub fn are_same(ours: &[u8], theirs: &[u8]) -> bool
    ensures { IsTrue result ↔ (ours.now ≡ theirs.now) }
{
    if ours.len() != theirs.len() {
        return false;
    }
    match (ours.last_chunk::<8>(), theirs.last_chunk::<8>()) {
        (Some(last), Some(their_last)) => {
            is_same_word(last, their_last) && are_fronts_same(ours, theirs)
        }
        _ => are_few_same(ours, theirs),
    }
}
