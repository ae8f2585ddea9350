//! How texts compare, told by whole words.

ghost use Rattle.std.specs.Prelude.{◌≡◌};
ghost use Rattle.std.specs.Ordering.{nat_cmp};
ghost use Rattle.std.specs.Cmp.Lexicographic.{slice_cmp};

use std::cmp::Ordering;

/// How two words compare, as their bytes do: by the numbers that they make, the first byte of which
/// is worth most.
#[inline(always)]
pub(crate) fn compare_words(ours: &[u8; 8], theirs: &[u8; 8]) -> Ordering
    ensures { result ≡ slice_cmp nat_cmp ours.now theirs.now }
{
    u64::from_be_bytes(*ours).cmp(&u64::from_be_bytes(*theirs))
}

// The same of half words.
#[inline(always)]
fn compare_halves(ours: &[u8; 4], theirs: &[u8; 4]) -> Ordering
    ensures { result ≡ slice_cmp nat_cmp ours.now theirs.now }
{
    u32::from_be_bytes(*ours).cmp(&u32::from_be_bytes(*theirs))
}

// The same byte by byte, which suits a few bytes.
fn compare_bytes(ours: &[u8], theirs: &[u8]) -> Ordering
    ensures { result ≡ slice_cmp nat_cmp ours.now theirs.now }
{
    let mut left = ours;
    let mut right = theirs;
    while let [first, more @ ..] = left {
        let [other, others @ ..] = right else {
            return Ordering::Greater;
        };
        match first.cmp(other) {
            Ordering::Equal => {}
            found => return found,
        }
        left = more;
        right = others;
    }
    if right.is_empty() {
        Ordering::Equal
    } else {
        Ordering::Less
    }
}

// The same by a half word, where both have one, and then byte by byte.
#[inline(always)]
fn compare_rests(ours: &[u8], theirs: &[u8]) -> Ordering
    ensures { result ≡ slice_cmp nat_cmp ours.now theirs.now }
{
    let Some((half, more)) = ours.split_first_chunk::<4>() else {
        return compare_bytes(ours, theirs);
    };
    let Some((their_half, their_more)) = theirs.split_first_chunk::<4>() else {
        return compare_bytes(ours, theirs);
    };
    match compare_halves(half, their_half) {
        Ordering::Equal => compare_bytes(more, their_more),
        found => found,
    }
}

/// How two texts compare, by their bytes. Words are compared as numbers, which costs a quarter of a
/// comparison byte by byte.
#[inline(always)]
pub fn compare_texts(ours: &[u8], theirs: &[u8]) -> Ordering
    ensures { result ≡ slice_cmp nat_cmp ours.now theirs.now }
{
    let mut left = ours;
    let mut right = theirs;
    while let Some((word, more)) = left.split_first_chunk::<8>() {
        let Some((their_word, their_more)) = right.split_first_chunk::<8>() else {
            return compare_rests(left, right);
        };
        match compare_words(word, their_word) {
            Ordering::Equal => {}
            found => return found,
        }
        left = more;
        right = their_more;
    }
    compare_rests(left, right)
}
