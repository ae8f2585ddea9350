//! The finder of cycles.
ghost use Rattle.std.specs.Prelude.{◌≡◌, ◌≤◌, ℕ, List, IsTrue, IsFalse, IsOk, IfOk, IfSome, IfNone, OnOk, length, slice_get, vec_capacity, Some};
ghost use Rattle.wait_cycles.specs.Cycles.{IsCycle, IsLastCycle, IsLastOn, Pairs, is_member};
ghost use Rattle.wait_cycles.specs.Trails.{AreBackward, IsFound, IsLastReached, nodes};
ghost use Rattle.wait_cycles.specs.inner.Sorted.{AreRising, AreSorted, IsAwaited, IsNoGreatest};
ghost use Rattle.wait_cycles.specs.Room.{room_of};

use crate::cycle::Cycle;
use crate::order::{list_starts, sort_pairs};
use crate::reached::reached_from;
use crate::trail::Trail;
use serial_spec::NoMemory;
use std::alloc::Global;
use std::marker::Model;
use txn_tree::TxnNo;

/// What a search works on: the pairs by their first, the numbers at which it starts, and those that
/// it has reached.
#[derive(Drop)]
pub(crate) struct Space {
    pub(crate) sorted: Vec<(TxnNo, TxnNo)>,
    pub(crate) starts: Vec<TxnNo>,
    pub(crate) trail: Trail,
}

// None yet, and no memory for any.
fn no_space(alloc: Global) -> Space
    ensures { room_of result ≡ 0 }
{
    Space {
        sorted: Vec::new(alloc),
        starts: Vec::new(alloc),
        trail: Trail::new(alloc),
    }
}

// Makes room for so many pairs.
fn reserve_space(space: &mut Space, pairs: usize) -> Result<(), NoMemory>
    ensures ok { OnOk result (pairs ≤ room_of space.new) }
    ensures kept { room_of space.old ≤ room_of space.new }
    ensures succeeds { pairs ≤ room_of space.old → IsOk result }
{
    space.sorted.clear();
    space.starts.clear();
    space.sorted.reserve(pairs)?;
    space.starts.reserve(pairs)?;
    space.trail.reserve(pairs)
}

// The way back from a place to the start, turned round, behind the start.
fn cycle_to(alloc: Global, trail: &Trail, start: TxnNo, place: usize) -> Result<Cycle, NoMemory>
    requires backward { AreBackward trail.now.reached }
    requires place { slice_get (nodes trail.now.reached) place ≡ Some start }
    ensures cycle { IfOk result (λ c. (pairs : Pairs) → IsFound pairs start trail.now.reached →
        IsCycle pairs c) }
    ensures start { IfOk result (λ c. IsTrue (is_member start c)) }
{
    let mut members = Vec::new(alloc);
    let last = trail.at(place);
    let mut before = last.from;
    while let Some(place) = before {
        let reached = trail.at(place);
        members.push(reached.txn)?;
        before = reached.from;
    }
    members.push(start)?;
    members.reverse();
    Ok(Cycle { members })
}

// Whether the start lies on a cycle of which it is the greatest member.
fn comes_back(trail: &mut Trail, sorted: &[(TxnNo, TxnNo)], start: TxnNo) -> bool
    requires sorted { AreSorted sorted.now }
    requires room { length sorted.now ≤ trail.old.capacity }
    ensures found { IsFound sorted.now start trail.new.reached }
    ensures again { result ≡ is_member start (nodes trail.new.reached) }
    ensures none { IsFalse result → IsNoGreatest sorted.now start }
    ensures capacity { trail.old.capacity ≤ trail.new.capacity }
{
    reached_from(trail, sorted, start);
    trail.has(start)
}

// Whether this start was the last that was tried.
fn was_tried(tried: Option<TxnNo>, start: TxnNo) -> bool
    ensures { IsTrue result → tried ≡ Some start }
{
    match tried {
        Some(last) => last == start,
        None => false,
    }
}

// The same, where the start may be the last that was tried, which is not tried again.
fn is_last(trail: &mut Trail, sorted: &[(TxnNo, TxnNo)], tried: Option<TxnNo>, start: TxnNo) -> bool
    requires sorted { AreSorted sorted.now }
    requires tried { IfSome tried (λ t. IsNoGreatest sorted.now t) }
    requires room { length sorted.now ≤ trail.old.capacity }
    ensures found { IsTrue result → IsFound sorted.now start trail.new.reached }
    ensures again { IsTrue result → IsTrue (is_member start (nodes trail.new.reached)) }
    ensures none { IsFalse result → IsNoGreatest sorted.now start }
    ensures capacity { trail.old.capacity ≤ trail.new.capacity }
{
    if was_tried(tried, start) {
        return false;
    }
    comes_back(trail, sorted, start)
}

// The last of the starts that lies on a cycle of which it is the greatest member.
fn last_start(
    starts: &mut Vec<TxnNo>,
    trail: &mut Trail,
    sorted: &[(TxnNo, TxnNo)],
) -> Option<TxnNo>
    requires sorted { AreSorted sorted.now }
    requires rising { AreRising starts.old.items }
    requires all { (b : ℕ) → IsAwaited sorted.now b → IsTrue (is_member b starts.old.items) }
    requires room { length sorted.now ≤ trail.old.capacity }
    ensures some { IfSome result (λ start. IsLastReached sorted.now start trail.new.reached) }
    ensures none { IfNone result ((xs : List ℕ) → IsCycle sorted.now xs → ⊥) }
    ensures starts_capacity { vec_capacity starts.new ≡ vec_capacity starts.old }
    ensures trail_capacity { trail.old.capacity ≤ trail.new.capacity }
{
    let mut tried = None;
    while let Some(start) = starts.pop() {
        if is_last(trail, sorted, tried, start) {
            return Some(start);
        }
        tried = Some(start);
    }
    None
}

// The greatest number that lies on any cycle, and then those that are reached from it, itself among
// them. It takes no memory. The greatest member of a cycle is waited for by one that is no greater,
// so that only such are tried, and waits for one in turn by way of nobody above it.
fn last_on(space: &mut Space, pairs: &[(TxnNo, TxnNo)]) -> Option<TxnNo>
    requires { length pairs.now ≤ room_of space.old }
    ensures some { IfSome result (λ start. IsLastReached pairs.now start space.new.trail.reached) }
    ensures none { IfNone result ((xs : List ℕ) → IsCycle pairs.now xs → ⊥) }
    ensures room { room_of space.old ≤ room_of space.new }
{
    sort_pairs(&mut space.sorted, pairs);
    list_starts(&mut space.starts, &space.sorted);
    last_start(&mut space.starts, &mut space.trail, &space.sorted)
}

/// A cycle of those that wait, the first of each pair for the second: one through the last begun
/// that lies on any, and `None` exactly if there is none. The only error is that memory runs out,
/// and of no pairs there is none.
pub fn find_cycle(alloc: Global, pairs: &[(TxnNo, TxnNo)]) -> Result<Option<Cycle>, NoMemory>
    ensures some { IfOk result (λ found. IfSome found (λ c. IsLastCycle pairs.now c)) }
    ensures none { IfOk result (λ found. IfNone found ((xs : List ℕ) → IsCycle pairs.now xs → ⊥)) }
    ensures succeeds { length pairs.now ≡ 0 → IsOk result }
{
    let mut space = no_space(alloc);
    reserve_space(&mut space, pairs.len())?;
    let Some(start) = last_on(&mut space, pairs) else {
        return Ok(None);
    };
    match space.trail.place_of(start) {
        Some(place) => Ok(Some(cycle_to(alloc, &space.trail, start, place)?)),
        None => Ok(None),
    }
}

/// Memory for searches that take none. It is seen as the number of pairs for which it has room.
#[derive(Drop)]
pub struct Work {
    space: Space,
}

impl Model for Work {
    ghost use Rattle.std.specs.Prelude.{ℕ};
    ghost use Rattle.wait_cycles.specs.Room.{room_of};

    ghost Value = { ℕ };

    ghost view = { λ w. room_of w.space };
}

impl Work {
    /// It has no room yet, and takes no memory.
    pub fn new(alloc: Global) -> Self
        ensures { result ≡ 0 }
    {
        Work {
            space: no_space(alloc),
        }
    }

    /// Makes room for lists of so many pairs. The only error is that memory runs out. Then there is
    /// no less room than before. Where there is room for so many already it succeeds.
    pub fn reserve(&mut self, pairs: usize) -> Result<(), NoMemory>
        ensures ok { OnOk result (pairs ≤ self.new) }
        ensures kept { self.old ≤ self.new }
        ensures succeeds { pairs ≤ self.old → IsOk result }
    {
        reserve_space(&mut self.space, pairs)
    }

    /// Of those that wait, the first of each pair for the second, the last begun that lies on any
    /// cycle: the greatest number, and `None` exactly if there is no cycle. It takes no memory.
    pub fn victim(&mut self, pairs: &[(TxnNo, TxnNo)]) -> Option<TxnNo>
        requires { length pairs.now ≤ self.old }
        ensures some { IfSome result (λ txn. IsLastOn pairs.now txn) }
        ensures none { IfNone result ((xs : List ℕ) → IsCycle pairs.now xs → ⊥) }
        ensures room { self.old ≤ self.new }
    {
        last_on(&mut self.space, pairs)
    }
}
