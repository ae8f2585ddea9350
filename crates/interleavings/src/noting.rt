//! What an attempt does to who may go on.
ghost use Rattle.std.specs.Prelude.{◌≡◌, ◌⊎◌, ◌<◌, ◌≤◌, ℕ, IsTrue, Some, false};
ghost use Rattle.event_lists.specs.Views.{asked};
ghost use Rattle.interleavings.specs.Crowds.{AreGatheredBy, IsGathered, IsOfWriter, StaysIn, is_abort, is_write_at};
ghost use Rattle.interleavings.specs.LeftOut.{IsIdle, IsLeftOut, IsLeftOutByBegins, IsNoted, IsParkedStill, IsStillPlain, StaysBy, StaysOutBy, is_after};

use crate::ready::Ready;
use durable_top::TopStore;
use event_lists::{Act, EventView};
use manager_core::{Came, Manager};
use serial_spec::Kind;

/// Whether this is an `after` line.
#[inline(always)]
pub(crate) fn is_after(event: &EventView<'_>) -> bool
    ensures { result ≡ is_after (Some (asked event.now)) }
{
    match event.act {
        Act::After(_) => true,
        _ => false,
    }
}

// Whether this ends a transaction.
#[inline(always)]
fn is_end(due: &EventView<'_>) -> bool {
    matches!(due.act, Act::Commit | Act::Abort)
}

// Whether this is an access that writes a key.
#[inline(always)]
fn is_write_at(event: &EventView<'_>) -> bool
    ensures { result ≡ is_write_at (asked event.now) }
{
    match event.act {
        Act::Access(_, op) => match op.kind() {
            Kind::Write => true,
            Kind::Read => false,
        },
        _ => false,
    }
}

// Brings back whom one entry of a line that asks this may let go on.
#[inline(always)]
fn bring_back_by(ready: &mut Ready, due: &EventView<'_>)
    ensures out { (u : ℕ) → IsLeftOut ready.new u →
        IsIdle ready.old u ⊎ StaysBy ready.old (asked due.now) u }
    ensures begins { (u : ℕ) → IsLeftOutByBegins ready.new u →
        IsIdle ready.old u ⊎ IsLeftOutByBegins ready.old u }
    ensures idle { (u : ℕ) → IsIdle ready.new u → IsIdle ready.old u }
    ensures crowd { (u : ℕ) → u < 64 → IsGathered ready.new.crowd u →
        (is_abort (asked due.now) ≡ false) × (ready.new.crowd ≡ ready.old.crowd) }
{
    match due.act {
        Act::Begin => ready.bring_back_afters(),
        Act::Commit => ready.bring_back_busy(),
        Act::Abort => ready.bring_back_all(),
        Act::Access(_, _) | Act::Sum(_) | Act::After(_) => {}
    }
}

// The session may go on after one entry of its line, which asks this, and so may whom that lets go.
#[inline(always)]
fn note_others(ready: &mut Ready, session: u32, due: &EventView<'_>)
    requires { session < 64 }
    ensures out { (u : ℕ) → IsLeftOut ready.new u →
        IsIdle ready.old u ⊎ ((u ≡ session → ⊥) × StaysBy ready.old (asked due.now) u) }
    ensures begins { (u : ℕ) → IsLeftOutByBegins ready.new u →
        IsIdle ready.old u ⊎ IsLeftOutByBegins ready.old u }
    ensures idle { (u : ℕ) → IsIdle ready.new u → IsIdle ready.old u }
    ensures crowd { (u : ℕ) → u < 64 → IsGathered ready.new.crowd u →
        StaysIn ready.old.crowd ready.new.crowd session (asked due.now) u }
{
    bring_back_by(ready, due);
    ready.bring_back(session);
}

// Leaves out those that wait at the key that the session, one of them, has written by this line.
#[inline(always)]
fn pass_over(ready: &mut Ready, session: u32, due: &EventView<'_>)
    requires { session < 64 }
    ensures out { (u : ℕ) → IsLeftOut ready.new u → IsLeftOut ready.old u
        ⊎ IsOfWriter ready.old.crowd session (asked due.now) u }
    // Wide: two cases of equal weight.
    ensures begins { (u : ℕ) → IsLeftOutByBegins ready.new u → IsLeftOutByBegins ready.old u
        ⊎ IsOfWriter ready.old.crowd session (asked due.now) u }
    ensures idle { (u : ℕ) → IsIdle ready.new u → IsIdle ready.old u }
    ensures crowd { ready.new.crowd ≡ ready.old.crowd }
{
    if ready.crowd.has(session) && is_write_at(due) {
        ready.leave_crowd_out();
    }
}

// Notes one entry by which the session's line, which asks this, has begun to wait.
fn note_wait(ready: &mut Ready, session: u32, due: &EventView<'_>)
    requires { session < 64 }
    ensures out { (u : ℕ) → u < 64 → IsLeftOut ready.new u →
        IsIdle ready.old u ⊎ StaysOutBy ready.old session (asked due.now) Came.Waits u }
    ensures begins { (u : ℕ) → u < 64 → IsLeftOutByBegins ready.new u →
        IsIdle ready.old u ⊎ IsStillPlain ready.old session (asked due.now) u }
    ensures idle { (u : ℕ) → IsIdle ready.new u → IsIdle ready.old u }
    ensures crowd { AreGatheredBy ready.old.crowd ready.new.crowd session (asked due.now) Came.Waits }
{
    match due.act {
        Act::Access(key, _) => {
            ready.leave_out(session, false);
            ready.gather(session, due.name, key);
        }
        _ => note_others(ready, session, due),
    }
}

// Notes one entry of the session's line, which asks this: it waits, or others may go on.
#[inline(always)]
fn note_entry(ready: &mut Ready, session: u32, due: &EventView<'_>, came: Came)
    requires { session < 64 }
    ensures out { (u : ℕ) → u < 64 → IsLeftOut ready.new u →
        IsIdle ready.old u ⊎ StaysOutBy ready.old session (asked due.now) came u }
    ensures begins { (u : ℕ) → u < 64 → IsLeftOutByBegins ready.new u →
        IsIdle ready.old u ⊎ IsStillPlain ready.old session (asked due.now) u }
    ensures idle { (u : ℕ) → IsIdle ready.new u → IsIdle ready.old u }
    ensures crowd { AreGatheredBy ready.old.crowd ready.new.crowd session (asked due.now) came }
{
    match came {
        Came::Waits => note_wait(ready, session, due),
        Came::Done => {
            pass_over(ready, session, due);
            note_others(ready, session, due);
        }
        Came::Refused => note_others(ready, session, due),
    }
}

// Leaves those out again, but for its own session, that were so before by no `after` line, and of
// whom an access is kept out still by somebody who has not ended.
#[inline(always)]
fn leave_parked<S: TopStore>(ready: &mut Ready, was: &Ready, manager: &Manager<S>, own: u32)
    requires { own < 64 }
    ensures out { (u : ℕ) → IsLeftOut ready.new u → IsLeftOut ready.old u
        ⊎ IsParkedStill was.now manager.now.rows manager.now.history own u }
    // Wide: two cases of equal weight.
    ensures begins { (u : ℕ) → IsLeftOutByBegins ready.new u → IsLeftOutByBegins ready.old u
        ⊎ IsParkedStill was.now manager.now.rows manager.now.history own u }
    ensures idle { (u : ℕ) → IsIdle ready.new u → IsIdle ready.old u }
    ensures crowd { ready.new.crowd ≡ ready.old.crowd }
{
    ready.leave_out_again(was, manager.parked_sessions(), own);
}

// What an attempt does to who may go on, by the entries that came of it. A line to which nothing
// happened is held up. One entry lets no line go on but by an end, or by a begin for which an
// `after` line waits, while few keys are known; more than one are victims too. None gives a session
// a line more.
#[inline(always)]
fn note_entries<S: TopStore>(
    ready: &mut Ready,
    manager: &Manager<S>,
    before: usize,
    session: u32,
    due: &EventView<'_>,
    came: Came,
)
    requires { session < 64 }
    ensures { IsNoted ready.old ready.new manager.now.rows manager.now.history before session
        (asked due.now) came }
{
    let entries = manager.history().len();
    if entries <= before {
        ready.leave_out(session, is_after(due));
    } else if entries - before > 1 || !manager.knows_few() {
        ready.bring_back_all();
    } else {
        note_entry(ready, session, due, came);
    }
}

/// Notes who may go on after an attempt of the session's line, which asks this and of which this
/// came, where there were so many entries before. Of those that wait at one key the first that writes
/// it keeps the others out, which need not be looked at, and who was kept out by one that has not
/// ended is so still.
#[inline(always)]
pub(crate) fn note_attempt<S: TopStore>(
    ready: &mut Ready,
    manager: &Manager<S>,
    before: usize,
    session: u32,
    due: &EventView<'_>,
    came: Came,
)
    requires { session < 64 }
    ensures { IsNoted ready.old ready.new manager.now.rows manager.now.history before session
        (asked due.now) came }
{
    let was = *ready;
    note_entries(ready, manager, before, session, due, came);
    // Nobody comes back but by an end. Where there is none, nobody need be looked at.
    let ends = is_end(due) || manager.history().len().saturating_sub(before) > 1;
    if ends {
        leave_parked(ready, &was, manager, session);
    }
}
