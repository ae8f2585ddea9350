//! Sets of places: a bit for each below 63, and one for all from 63 on.
ghost use Rattle.std.specs.Prelude.{◌≡◌, ◌≤◌, ◌<◌, ℕ, min, IfNone, IfSome};
ghost use Rattle.wait_cycles.specs.Sieve.{HasPlace, LacksPlace};

/// All places from this one on share its bit.
const SHARED: usize = 63;

// The bit of a place.
#[inline(always)]
fn bit_of(place: usize) -> usize
    ensures { result ≡ min place 63 }
{
    if place < SHARED { place } else { SHARED }
}

/// The set with this place.
#[inline(always)]
pub(crate) fn with(places: u64, place: usize) -> u64
    ensures has { HasPlace result place }
    ensures kept { (p : ℕ) → HasPlace places p → HasPlace result p }
{
    places | (1 << bit_of(place))
}

/// The first place from this one on that the set may have.
#[inline(always)]
pub(crate) fn first_from(places: u64, from: usize) -> Option<usize>
    ensures some { IfSome result (λ next. (from ≤ next)
        × ((p : ℕ) → from ≤ p → p < next → LacksPlace places p)) }
    ensures none { IfNone result ((p : ℕ) → from ≤ p → LacksPlace places p) }
{
    if from >= SHARED {
        return if places >> SHARED == 0 {
            None
        } else {
            Some(from)
        };
    }
    let rest = places >> from;
    if rest == 0 {
        return None;
    }
    Some(from + rest.trailing_zeros() as usize)
}
