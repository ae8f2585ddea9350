//! Sets of sessions: of numbers below 64, one bit of a word for each.
#![tactic(auto)]

ghost use Rattle.std.specs.Prelude.{◌≡◌, ◌⊎◌, ◌<◌, ◌≤◌, ◌↔◌, ℕ, IfNone, IfSome, IsFalse, IsTrue};
ghost use Rattle.std.specs.Int.{bit_at};

/// The set without this session.
#[inline(always)]
pub fn without(bits: u64, session: u32) -> u64
    requires { session < 64 }
    ensures lacks { (u : ℕ) → bit_at result u ≡ 0 → (u ≡ session) ⊎ (bit_at bits u ≡ 0) }
    ensures has { (u : ℕ) → bit_at result u ≡ 1 → (bit_at bits u ≡ 1) × (u ≡ session → ⊥) }
{
    bits & !(1 << session)
}

/// The set with this session.
#[inline(always)]
pub fn with(bits: u64, session: u32) -> u64
    requires { session < 64 }
    ensures lacks { (u : ℕ) → bit_at result u ≡ 0 → (bit_at bits u ≡ 0) × (u ≡ session → ⊥) }
    ensures has { (u : ℕ) → bit_at result u ≡ 1 → (u ≡ session) ⊎ (bit_at bits u ≡ 1) }
{
    bits | (1 << session)
}

/// Whether the set has this session.
#[inline(always)]
pub fn has(bits: u64, session: u32) -> bool
    requires { session < 64 }
    ensures yes { IsTrue result ↔ (bit_at bits session ≡ 1) }
    ensures no { IsFalse result ↔ (bit_at bits session ≡ 0) }
{
    (bits >> session) % 2 == 1
}

/// The first of the set from this one on.
#[inline(always)]
pub fn first_from(bits: u64, from: u32) -> Option<u32>
    ensures some { IfSome result (λ at. (from ≤ at) × (at < 64) × (bit_at bits at ≡ 1)
        × ((u : ℕ) → from ≤ u → u < at → bit_at bits u ≡ 0)) }
    ensures none { IfNone result ((u : ℕ) → from ≤ u → bit_at bits u ≡ 0) }
{
    if from >= 64 {
        return None;
    }
    let rest = bits >> from;
    if rest == 0 {
        return None;
    }
    Some(from + rest.trailing_zeros())
}
