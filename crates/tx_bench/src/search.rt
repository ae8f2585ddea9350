//! Searches for a victim among pairs of transactions, the first of each waiting for the second.
ghost use Rattle.std.specs.Prelude.{◌<◌};

use rand_core::utils::NextWord;
use rand_pcg::Pcg32;
use std::alloc::Global;
use txn_tree::TxnNo;
use wait_cycles::Work;

/// How the pairs lie.
#[derive(Clone, Copy, Debug, PartialEq, Eq)]
pub enum Shape {
    /// Each waits for the one begun after it.
    Rising,
    /// Each waits for the one begun before it.
    Falling,
    /// Each waits for the one begun after it, and the last for the first.
    Ring,
    /// Sixty-four wait for each other and for themselves.
    Crowd,
    /// As many as there are pairs wait for each other at random.
    Random,
}

/// How many are in a crowd.
const CROWD: u32 = 64;

impl Shape {
    /// The shape of this name.
    pub fn named(name: &str) -> Option<Shape> {
        match name {
            "rising" => Some(Shape::Rising),
            "falling" => Some(Shape::Falling),
            "ring" => Some(Shape::Ring),
            "crowd" => Some(Shape::Crowd),
            "random" => Some(Shape::Random),
            _ => None,
        }
    }
}

// The pair at a place, of so many.
fn pair_at(shape: Shape, random: &mut Pcg32, place: u32, count: u32) -> (u32, u32)
    requires { 0 < count }
{
    let next = place.wrapping_add(1);
    match shape {
        Shape::Rising => (place, next),
        Shape::Falling => (next, place),
        Shape::Ring => (place, next % count),
        Shape::Crowd => (place / CROWD % CROWD, place % CROWD),
        Shape::Random => (random.next_word() % count, random.next_word() % count),
    }
}

// Whether there is a victim. `None` if memory runs out.
fn has_victim(work: &mut Work, pairs: &[(TxnNo, TxnNo)]) -> Option<bool> {
    work.reserve(pairs.len()).ok()?;
    Some(work.victim(pairs).is_some())
}

// How many of so many searches find a victim.
fn found_in(alloc: Global, pairs: &[(TxnNo, TxnNo)], rounds: u32) -> Option<u32> {
    let mut work = Work::new(alloc);
    let mut found: u32 = 0;
    for _ in 0..rounds {
        if has_victim(&mut work, pairs)? {
            found = found.saturating_add(1);
        }
    }
    Some(found)
}

/// Searches so many times among so many pairs, and tells how many searches found a victim. `None`
/// if memory runs out.
pub fn search(alloc: Global, shape: Shape, count: u32, rounds: u32) -> Option<u32> {
    let mut random = Pcg32::new(0, 54);
    let mut pairs = Vec::new(alloc);
    for place in 0..count {
        let (waiting, other) = pair_at(shape, &mut random, place, count);
        pairs.push((TxnNo::new(waiting), TxnNo::new(other))).ok()?;
    }
    found_in(alloc, &pairs, rounds)
}
