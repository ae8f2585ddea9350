//! Which sessions may go on, one bit for each.
ghost use Rattle.std.specs.Prelude.{◌≡◌, ◌⊎◌, ◌<◌, ◌≤◌, ℕ, length, false, IfNone, IfSome, IsTrue};
ghost use Rattle.interleavings.specs.Crowds.{AreJoinedBy, IsGathered, IsStillIn};
ghost use Rattle.interleavings.specs.LeftOut.{IsIdle, IsLeftOut, IsLeftOutByBegins, IsOutAgain, IsWoken};

use crate::crowd::Crowd;
use serial_spec::MOST_SESSIONS;
use session_sets::{first_from, with, without};
use txn_names::{Key, Name};

/// The sessions that may go on, by their numbers below `MOST_SESSIONS`. Of those that are left out
/// it is known that no attempt does anything.
#[derive(Clone, Copy)]
pub(crate) struct Ready {
    // Those that may go on.
    pub(crate) may: u64,
    // Those that may wait by an `after` line where they are left out.
    pub(crate) afters: u64,
    // Those that may have a line left. No entry lets any other go on.
    pub(crate) busy: u64,
    // Some that wait at one key, left out or not.
    pub(crate) crowd: Crowd,
}

impl Ready {
    /// All sessions.
    #[inline(always)]
    pub(crate) fn all() -> Ready
        ensures out { (u : ℕ) → u < 64 → IsLeftOut result u → ⊥ }
        ensures idle { (u : ℕ) → u < 64 → IsIdle result u → ⊥ }
        ensures crowd { (u : ℕ) → u < 64 → IsGathered result.crowd u → ⊥ }
    {
        Ready {
            may: u64::MAX,
            afters: 0,
            busy: u64::MAX,
            crowd: Crowd::none(),
        }
    }

    /// Leaves the session out, whose next line is an `after` line or is not.
    #[inline(always)]
    pub(crate) fn leave_out(&mut self, session: u32, is_after: bool)
        ensures out { (u : ℕ) → IsLeftOut self.new u → (u ≡ session) ⊎ IsLeftOut self.old u }
        ensures begins { (u : ℕ) → IsLeftOutByBegins self.new u →
            ((u ≡ session) × (is_after ≡ false)) ⊎ IsLeftOutByBegins self.old u }
        ensures idle { (u : ℕ) → IsIdle self.new u → IsIdle self.old u }
        ensures crowd { self.new.crowd ≡ self.old.crowd }
    {
        if (session as usize) < MOST_SESSIONS {
            self.may = without(self.may, session);
            if is_after {
                self.afters = with(self.afters, session);
            } else {
                self.afters = without(self.afters, session);
            }
        }
    }

    /// Leaves the session out, which has no line left.
    #[inline(always)]
    pub(crate) fn leave_idle(&mut self, session: u32)
        ensures out { (u : ℕ) → IsLeftOut self.new u → (u ≡ session) ⊎ IsLeftOut self.old u }
        ensures begins { (u : ℕ) → IsLeftOutByBegins self.new u →
            (u ≡ session) ⊎ IsLeftOutByBegins self.old u }
        ensures idle { (u : ℕ) → IsIdle self.new u → (u ≡ session) ⊎ IsIdle self.old u }
        ensures crowd { self.new.crowd ≡ self.old.crowd }
    {
        if (session as usize) < MOST_SESSIONS {
            self.may = without(self.may, session);
            self.afters = without(self.afters, session);
            self.busy = without(self.busy, session);
        }
    }

    /// Leaves those of this set out that were left out before by no `after` line, but for the session.
    #[inline(always)]
    pub(crate) fn leave_out_again(&mut self, was: &Ready, parked: u64, session: u32)
        requires { session < 64 }
        ensures out { (u : ℕ) → IsLeftOut self.new u →
            IsLeftOut self.old u ⊎ IsOutAgain was.now parked session u }
        ensures begins { (u : ℕ) → IsLeftOutByBegins self.new u →
            IsLeftOutByBegins self.old u ⊎ IsOutAgain was.now parked session u }
        ensures idle { (u : ℕ) → IsIdle self.new u → IsIdle self.old u }
        ensures crowd { self.new.crowd ≡ self.old.crowd }
    {
        let again = without(!was.may & !was.afters & parked, session);
        self.may &= !again;
    }

    /// Leaves all of the crowd out, which wait for no condition.
    #[inline(always)]
    pub(crate) fn leave_crowd_out(&mut self)
        ensures out { (u : ℕ) → IsLeftOut self.new u →
            IsLeftOut self.old u ⊎ IsGathered self.old.crowd u }
        ensures begins { (u : ℕ) → IsLeftOutByBegins self.new u →
            IsLeftOutByBegins self.old u ⊎ IsGathered self.old.crowd u }
        ensures idle { (u : ℕ) → IsIdle self.new u → IsIdle self.old u }
        ensures crowd { self.new.crowd ≡ self.old.crowd }
    {
        self.may &= self.crowd.apart;
    }

    /// The session may go on, and is no more of the crowd.
    #[inline(always)]
    pub(crate) fn bring_back(&mut self, session: u32)
        requires { session < 64 }
        ensures out { (u : ℕ) → IsLeftOut self.new u → IsLeftOut self.old u × (u ≡ session → ⊥) }
        ensures begins { (u : ℕ) → IsLeftOutByBegins self.new u → IsLeftOutByBegins self.old u }
        ensures idle { (u : ℕ) → IsIdle self.new u → IsIdle self.old u }
        ensures crowd { (u : ℕ) → IsGathered self.new.crowd u →
            IsStillIn self.old.crowd self.new.crowd session u }
    {
        self.may = with(self.may, session);
        self.crowd.leave(session);
    }

    /// The session, whose line waits at this key by this transaction, joins the crowd.
    pub(crate) fn gather(&mut self, session: u32, name: &Name, key: &Key)
        requires { session < 64 }
        ensures out { (u : ℕ) → IsLeftOut self.new u → IsLeftOut self.old u }
        ensures begins { (u : ℕ) → IsLeftOutByBegins self.new u → IsLeftOutByBegins self.old u }
        ensures idle { (u : ℕ) → IsIdle self.new u → IsIdle self.old u }
        ensures crowd { AreJoinedBy self.old.crowd self.new.crowd session key.now
            (length name.now) }
    {
        self.crowd.join(session, name, key);
    }

    /// Those that may wait by an `after` line may go on.
    #[inline(always)]
    pub(crate) fn bring_back_afters(&mut self)
        ensures out { (u : ℕ) → IsLeftOut self.new u → IsLeftOutByBegins self.old u }
        ensures idle { (u : ℕ) → IsIdle self.new u → IsIdle self.old u }
        ensures crowd { self.new.crowd ≡ self.old.crowd }
    {
        self.may |= self.afters;
    }

    /// Those that may have a line left may go on.
    #[inline(always)]
    pub(crate) fn bring_back_busy(&mut self)
        ensures out { (u : ℕ) → IsLeftOut self.new u → IsIdle self.old u }
        ensures idle { (u : ℕ) → IsIdle self.new u → IsIdle self.old u }
        ensures crowd { self.new.crowd ≡ self.old.crowd }
    {
        self.may = self.busy;
    }

    /// As `bring_back_busy`, and nobody is of the crowd any more.
    #[inline(always)]
    pub(crate) fn bring_back_all(&mut self)
        ensures out { (u : ℕ) → IsLeftOut self.new u → IsIdle self.old u }
        ensures idle { (u : ℕ) → IsIdle self.new u → IsIdle self.old u }
        ensures crowd { (u : ℕ) → u < 64 → IsGathered self.new.crowd u → ⊥ }
    {
        self.may = self.busy;
        self.crowd = Crowd::none();
    }

    /// The session has a line more, and may go on.
    pub(crate) fn wake(&mut self, session: u32)
        requires { session < 64 }
        ensures { IsWoken self.old self.new session }
    {
        self.may = with(self.may, session);
        self.busy = with(self.busy, session);
        self.crowd.leave(session);
    }

    /// The first session from this one on that may go on.
    #[inline(always)]
    pub(crate) fn next(&self, from: u32) -> Option<u32>
        ensures some { IfSome result (λ next. (from ≤ next) × (next < 64)
            × ((u : ℕ) → from ≤ u → u < next → IsLeftOut self.now u)) }
        ensures none { IfNone result ((u : ℕ) → from ≤ u → IsLeftOut self.now u) }
    {
        first_from(self.may, from)
    }
}
