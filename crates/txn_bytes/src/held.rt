//! A few bytes, held in the value itself.
ghost use Rattle.std.specs.Prelude.{◌≡◌, ℕ, ◌+◌, ◌-◌, ◌<◌, ◌≤◌, ◌==◌, ◌↔◌, List, [], ◌∷◌, ◌++◌, length, take, drop, replicate, Some, nat_eq, refl};
ghost use Rattle.std.specs.Hash as fed;
ghost use Rattle.std.specs.Int.{from_le_bytes, w64};
ghost use Rattle.std.specs.Ordering.{nat_cmp};
ghost use Rattle.std.specs.Cmp.{partial_equiv_from_equiv};
ghost use Rattle.std.specs.Cmp.Lexicographic.{pointwise, slice_cmp, nat_list_eq_equiv, nat_list_cmp_total, texts_po, texts_ties};
ghost use Rattle.txn_bytes.specs.Held.{alike, fed_held};

use crate::copy::copy;
use crate::texts::compare_words;
use std::cmp::Ordering;
use std::hash::{Hash, Hasher};
use std::marker::Model;

/// At most `N` bytes, where `N` is at most 255. It takes no memory, and is compared and ordered as
/// its bytes are.
#[derive(Clone, Copy, Debug)]
pub struct Held<const N: usize> {
    bytes: [u8; N],
    len: u8,
}

impl<const N: usize> Model for Held<N> {
    ghost use Rattle.std.specs.Prelude.{◌≡◌, ◌≤◌, ◌-◌, ℕ, List, length, take, drop, replicate};
    ghost use Rattle.txn_bytes.specs.Held.{filled, filled-take, length-take};

    ghost Value = { List ℕ };

    ghost view = { λ s. take s.len s.bytes };

    ghost invariant = { λ s.
        (s.len ≤ N) × (length s.bytes ≡ N) × (drop s.len s.bytes ≡ replicate (N - s.len) 0) };

    ghost inverse = { λ bs. record { bytes = filled N bs; len = length bs } };

    ghost inverse_ok = { λ s h i. record {
      bytes = filled-take N s.len s.bytes h.0 h.1 h.2 i;
      len = length-take N s.len s.bytes h.0 h.1 i;
    } };
}

impl<const N: usize> Held<N> {
    /// No bytes.
    pub const fn new() -> Self
        ensures { result ≡ [] }
    {
        Held {
            bytes: [0; N],
            len: 0,
        }
    }

    /// A copy of `bytes`, which fit.
    pub fn of(bytes: &[u8]) -> Self
        requires fits { length bytes.now ≤ N }
        requires small { N ≤ 255 }
        ensures { result ≡ bytes.now }
    {
        let mut held = [0; N];
        copy(&mut held[..bytes.len()], bytes);
        Held {
            bytes: held,
            len: bytes.len() as u8,
        }
    }

    /// The bytes.
    pub fn as_bytes(&self) -> &[u8]
        ensures value { result.now ≡ self.now }
        ensures fits { length result.now ≤ N }
    {
        &self.bytes[..self.len as usize]
    }
}

/// So many bytes are compared and hashed as one number.
const WORD: u8 = 8;

// The number that the bytes of a word make, which is fed to a hash as these bytes.
pub(crate) fn word_of(bytes: &[u8; 8]) -> u64
    ensures read { result ≡ from_le_bytes w64 bytes.now }
    ensures fed { fed.u64 result ≡ bytes.now ∷ [] }
{
    u64::from_le_bytes(*bytes)
}

// Whether two fields begin with the same word, or are the same where one has fewer bytes.
fn starts_alike(ours: &[u8], theirs: &[u8]) -> bool
    ensures { result ≡ pointwise nat_eq (take 8 ours.now) (take 8 theirs.now) }
{
    match (ours.first_chunk::<8>(), theirs.first_chunk::<8>()) {
        (Some(ours), Some(theirs)) => word_of(ours) == word_of(theirs),
        _ => ours == theirs,
    }
}

// The first bytes, as many as a word has where there are so many.
fn start_of(bytes: &[u8]) -> &[u8]
    ensures { result.now ≡ take 8 bytes.now }
{
    &bytes[..bytes.len().min(WORD as usize)]
}

// How the first words of two fields compare, as their bytes do.
fn compare_starts(ours: &[u8], theirs: &[u8]) -> Ordering
    ensures { result ≡ slice_cmp nat_cmp (take 8 ours.now) (take 8 theirs.now) }
{
    match (ours.first_chunk::<8>(), theirs.first_chunk::<8>()) {
        (Some(ours), Some(theirs)) => compare_words(ours, theirs),
        _ => start_of(ours).cmp(start_of(theirs)),
    }
}

impl<const N: usize> PartialEq for Held<N> {
    ghost eq = { pointwise nat_eq };

    ghost laws = { partial_equiv_from_equiv nat_list_eq_equiv };

    // The bytes behind those that are held are zeros in both, so that whole fields may be
    // compared. Most are so short that their first word tells.
    fn eq(&self, other: &Self) -> bool {
        if self.len != other.len {
            return false;
        }
        if self.len <= WORD {
            starts_alike(&self.bytes, &other.bytes)
        } else {
            self.bytes == other.bytes
        }
    }
}

impl<const N: usize> Eq for Held<N> {
    ghost laws = { nat_list_eq_equiv };
}

impl<const N: usize> PartialOrd for Held<N> {
    ghost partial_cmp = { λ s t. Some (slice_cmp nat_cmp s t) };

    ghost laws = { texts_po };

    fn partial_cmp(&self, other: &Self) -> Option<Ordering> {
        Some(self.cmp(other))
    }
}

impl<const N: usize> Ord for Held<N> {
    ghost cmp = { slice_cmp nat_cmp };

    ghost total = { nat_list_cmp_total };

    ghost matches_partial_cmp = { λ s t. refl };

    ghost matches_eq = { λ s t. texts_ties s t };

    // The bytes behind those that are held are zeros, so that fields compare as their bytes do
    // where their first words differ. Most differ there, or are no longer than a word.
    fn cmp(&self, other: &Self) -> Ordering {
        match compare_starts(&self.bytes, &other.bytes) {
            Ordering::Equal => {
                if self.len <= WORD && other.len <= WORD {
                    self.len.cmp(&other.len)
                } else {
                    self.as_bytes().cmp(other.as_bytes())
                }
            }
            starts => starts,
        }
    }
}

impl<const N: usize> Hash for Held<N> {
    ghost hash_input = { fed_held N };

    ghost respects_eq = { alike N };

    fn hash<H: Hasher>(&self, state: &mut H) {
        match self.bytes.first_chunk::<8>() {
            Some(word) if self.len <= WORD => state.write_u64(word_of(word)),
            _ => {
                state.write(self.as_bytes());
                state.write_u8(self.len);
            }
        }
    }
}
