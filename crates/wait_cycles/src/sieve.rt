//! Who may wait for which keys.
ghost use Rattle.std.specs.Prelude.{◌≡◌, ◌≤◌, ◌<◌, ℕ, get_or, IfNone, IfSome, IsFalse};
ghost use Rattle.serial_spec.specs.declared.target.Asked.{Asked as AskedFor};
ghost use Rattle.wait_cycles.specs.Sieve.{HasPlace, IsUnmetAt, LacksPlace, mark_of, places_for};

use crate::places::{first_from, with};
use serial_spec::Asked;
use txn_names::Key;

/// How many marks there are for keys.
const MARKS: usize = 256;

/// Marks, each of which is that of many keys, and a mark for all sums. Each has a set of places of
/// waits. Whoever waits at a place that the mark of a key has not, nor that of all sums, does not
/// wait for the key. A mark may have a place though nobody waits there for such a key any more.
#[derive(Drop)]
pub(crate) struct Sieve {
    marks: [u64; 256],
    sums: u64,
}

// The byte at a place, or 0 behind the last.
fn byte_at(bytes: &[u8], place: usize) -> usize
    ensures byte { result ≡ get_or bytes.now place 0 }
    ensures small { result < 256 }
{
    match bytes.get(place) {
        Some(byte) => *byte as usize,
        None => 0,
    }
}

// The mark of a key, by its last two bytes and its second and third.
fn mark_of(key: &Key) -> usize
    ensures mark { result ≡ mark_of key.now }
    ensures within { result < 256 }
{
    let bytes = key.as_bytes();
    let len = bytes.len();
    let last = byte_at(bytes, len.saturating_sub(1)) + 16 * byte_at(bytes, len.saturating_sub(2));
    let early = 5 * byte_at(bytes, 1) + 97 * byte_at(bytes, 2);
    (last + early) % MARKS
}

impl Sieve {
    /// No mark has a place.
    pub(crate) fn new() -> Sieve {
        Sieve {
            marks: [0; MARKS],
            sums: 0,
        }
    }

    /// Takes all places from the marks.
    pub(crate) fn clear(&mut self) {
        self.marks = [0; MARKS];
        self.sums = 0;
    }

    /// Gives the mark of what is asked a place.
    pub(crate) fn mark(&mut self, asked: &Asked, place: usize)
        ensures marked { HasPlace (places_for self.new asked.now) place }
        ensures kept { (a : AskedFor) (p : ℕ) →
            HasPlace (places_for self.old a) p → HasPlace (places_for self.new a) p }
    {
        match asked {
            Asked::At(key, _) => {
                let mark = mark_of(key);
                self.marks[mark] = with(self.marks[mark], place);
            }
            Asked::Over(_) => self.sums = with(self.sums, place),
        }
    }

    // The places at which somebody may wait for what has the key in common with it.
    #[inline(always)]
    fn places_met(&self, key: &Key) -> u64
        ensures { (p : ℕ) → LacksPlace result p → IsUnmetAt self.now key.now p }
    {
        self.sums | self.marks[mark_of(key)]
    }

    /// Whether what is marked may have the key in common with it.
    pub(crate) fn may_meet(&self, key: &Key) -> bool
        ensures { IsFalse result → (p : ℕ) → IsUnmetAt self.now key.now p }
    {
        self.places_met(key) != 0
    }

    /// The first place from this one on at which what is marked may have the key in common with it.
    #[inline(always)]
    pub(crate) fn next_met(&self, key: &Key, from: usize) -> Option<usize>
        ensures some { IfSome result (λ next. (from ≤ next)
            × ((p : ℕ) → from ≤ p → p < next → IsUnmetAt self.now key.now p)) }
        ensures none { IfNone result ((p : ℕ) → from ≤ p → IsUnmetAt self.now key.now p) }
    {
        first_from(self.places_met(key), from)
    }
}
