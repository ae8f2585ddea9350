//! Which sessions can go on.
ghost use Rattle.std.specs.Prelude.{◌≡◌, ◌<◌, ◌≤◌, length, IfNone, IfSome};
ghost use Rattle.event_lists.specs.Views.{asked};
ghost use Rattle.interleavings.specs.LeftOut.{AreLeftOut};
ghost use Rattle.interleavings.specs.Turning.{IsDue, NoneGoesOnFrom, TellsGoesOn, TellsStuck, can_go_on};

use crate::noting::is_after;
use crate::ready::Ready;
use crate::turns::Turns;
use durable_top::TopStore;
use event_lists::EventView;
use serial_spec::By;

impl<'a, S: TopStore> Turns<'a, S> {
    // Whether this line, which is the session's next, may be answered, or begin to wait.
    fn can_go_on(&self, session: u32, line: u32, due: &EventView<'_>) -> bool
        requires { IsDue self.now.sessions self.now.core.history session line (asked due.now) }
        ensures { result ≡
            can_go_on self.now.core.rows self.now.sessions self.now.core.history session }
    {
        let by = By::Line { session, line };
        if self.manager.is_parked(by) {
            return false;
        }
        !self.manager.held_up(by, due)
    }

    // Whether the session's next line may be answered, or begin to wait. If not, it is left out.
    fn look_at(&self, ready: &mut Ready, session: u32) -> bool
        requires { AreLeftOut self.now.core.rows self.now.sessions self.now.core.history ready.old }
        ensures told { result ≡
            can_go_on self.now.core.rows self.now.sessions self.now.core.history session }
        ensures left { AreLeftOut self.now.core.rows self.now.sessions self.now.core.history
            ready.new }
    {
        let Some((line, due)) = self.due(session) else {
            ready.leave_idle(session);
            return false;
        };
        if self.can_go_on(session, line, &due) {
            return true;
        }
        ready.leave_out(session, is_after(&due));
        false
    }

    // The first session from this one on that is not among those left out.
    #[inline(always)]
    fn next_of(&self, ready: &Ready, from: u32) -> Option<u32>
        requires { AreLeftOut self.now.core.rows self.now.sessions self.now.core.history ready.now }
        ensures some { IfSome result (λ next. (from ≤ next) × (next < length self.now.sessions)
            × NoneGoesOnFrom self.now from next) }
        ensures fits { IfSome result (λ next. next < 64) }
        ensures none { IfNone result
            (NoneGoesOnFrom self.now from (length self.now.sessions)) }
    {
        let next = ready.next(from)?;
        if next < self.count() {
            Some(next)
        } else {
            None
        }
    }

    /// The first session from this one on that is not left out.
    #[inline(always)]
    pub(crate) fn next_ready(&self, from: u32) -> Option<u32>
        ensures some { IfSome result (λ next. (from ≤ next) × (next < length self.now.sessions)
            × NoneGoesOnFrom self.now from next) }
        ensures fits { IfSome result (λ next. next < 64) }
        ensures none { IfNone result
            (NoneGoesOnFrom self.now from (length self.now.sessions)) }
    {
        self.next_of(&self.ready, from)
    }

    // Whether the next line of some session may be answered, or begin to wait. It looks first at
    // the session that was answered last, which mostly goes on, and where that does not takes one
    // look at each session that is not left out. Those that are held up are left out then.
    fn some_goes_on(&self, ready: &mut Ready) -> bool
        requires { AreLeftOut self.now.core.rows self.now.sessions self.now.core.history ready.old }
        ensures told { TellsGoesOn self.now.core.rows self.now.sessions self.now.core.history
            result }
        ensures left { AreLeftOut self.now.core.rows self.now.sessions self.now.core.history
            ready.new }
    {
        if self.look_at(ready, self.lead) {
            return true;
        }
        let mut from = 0;
        while let Some(session) = self.next_of(ready, from) {
            if self.look_at(ready, session) {
                return true;
            }
            from = session + 1;
        }
        false
    }

    /// Whether the next line of some session may be answered, or begin to wait. It looks first at
    /// the session that was answered last, which mostly goes on, and where that does not takes one
    /// look at each session that is not known to be held up.
    pub fn goes_on(&self) -> bool
        ensures { TellsGoesOn self.now.core.rows self.now.sessions self.now.core.history result }
    {
        let mut ready = self.ready;
        self.some_goes_on(&mut ready)
    }

    /// As `goes_on`, and the sessions that were found held up are left out from then on.
    pub(crate) fn goes_on_still(&mut self) -> bool
        ensures told { TellsGoesOn self.old.core.rows self.old.sessions self.old.core.history
            result }
        ensures same { self.new ≡ self.old }
    {
        let mut ready = self.ready;
        let goes_on = self.some_goes_on(&mut ready);
        self.ready = ready;
        goes_on
    }

    /// The session whose line must be given up, if one must.
    pub(crate) fn stuck_session(&self) -> Option<u32>
        ensures { TellsStuck self.now.core.rows self.now.sessions self.now.core.history result }
    {
        // Mostly some session goes on, and that is found without a look at those that have ended.
        if self.goes_on() {
            return None;
        }
        let first = self.first_open()?;
        Some(first)
    }
}
