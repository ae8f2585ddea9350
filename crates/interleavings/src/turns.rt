//! Sessions under way, a line at a time.
ghost use Rattle.std.specs.Prelude.{[], ◌≡◌, ◌↔◌, length, replicate, IfErr, IfNone, IfOk, IfSome, IsOk, IsTrue, None, OnErr, OnOk, ◌<◌, ◌≤◌};
ghost use Rattle.serial_spec.specs.Interleaving.{AllAnswered, next_event};
ghost use Rattle.serial_spec.specs.Follows.{NoneGivesUp};
ghost use Rattle.txn_history.specs.Turns.{IsUnderWay};
ghost use Rattle.durable_top.specs.Store.{plain};
ghost use Rattle.manager_core.specs.Calls.{Closed};
ghost use Rattle.manager_core.specs.Opening.{HasCause};
ghost use Rattle.manager_core.specs.Sound.{IsSound};
ghost use Rattle.event_lists.specs.Views.{asked};
ghost use Rattle.interleavings.specs.Progressing.{AreUnderWay, turning};
ghost use Rattle.interleavings.specs.Scheduled.{Stands};
ghost use Rattle.interleavings.specs.Turning.{IsClosed, IsDue, IsFirstOpen, IsStart, Stepped, Unstuck, next_number};

mod looking;

use crate::attempt::attempt;
use crate::noting::{is_after, note_attempt};
use crate::progress::Progress;
use crate::ready::Ready;
use crate::report::{labels_of, report_of};
use durable_top::{Row, TopStore};
use event_lists::EventView;
use manager_core::{Came, Manager, OpenFault};
use run_reports::Report;
use serial_spec::{By, NoMemory};
use session_text::Sessions;
use std::alloc::Global;
use std::marker::Model;

// The first line of each of so many sessions.
fn first_lines(alloc: Global, count: usize) -> Result<Vec<u32>, NoMemory>
    ensures { IfOk result (λ next. next.items ≡ replicate count 1) }
{
    vec![in alloc; 1; count]
}

// The manager, on the heap. Where there is no memory it is given back.
fn on_the_heap<S: TopStore>(
    alloc: Global,
    manager: Manager<S>,
) -> Result<Box<Manager<S>>, Manager<S>>
    ensures ok { IfOk result (λ boxed. boxed.value ≡ manager) }
{
    match Box::new(alloc, manager) {
        Ok(boxed) => Ok(boxed),
        Err(failed) => Err(failed.value),
    }
}

// Drops the manager, with its store, where memory ran out.
fn let_go<S: TopStore>(manager: Manager<S>) -> OpenFault
    ensures { result ≡ OpenFault.NoMemory }
{
    drop(manager);
    OpenFault::NoMemory
}

// Ends what is live. Where there are no sessions that is nothing, and takes no memory.
fn close<S: TopStore>(manager: &mut Manager<S>, sessions: &Sessions) -> Result<(), NoMemory>
    requires { IsUnderWay manager.old.rows sessions.now manager.old.history }
    ensures ok { OnOk result (Closed manager.old manager.new) }
    ensures err { OnErr result (manager.new ≡ manager.old) }
    ensures sound { OnOk result (IsSound S.TopStore manager.new) }
    ensures none { sessions.now ≡ [] → IsOk result }
{
    if sessions.len() == 0 {
        // It tells the prover that the manager is sound.
        manager.table();
        return Ok(());
    }
    manager.close()
}

/// What came of an attempt.
#[derive(Clone, Copy, Debug, PartialEq, Eq)]
pub enum Turn {
    /// The line was answered.
    Answered,
    /// The line waits, or its condition does not hold yet.
    Parked,
    /// There is no such session, or all of its lines are answered.
    OutOfTurn,
}

/// Sessions over a manager. Any session's next line may be attempted at any time. The history is
/// empty at first, and always legal, without a cycle of waits, and an interleaving of the sessions'
/// lines as far as they are answered.
#[derive(Drop)]
pub struct Turns<'a, S: TopStore> {
    alloc: Global,
    sessions: &'a Sessions,
    // On the heap, so that it is handed on without being copied.
    manager: Box<Manager<S>>,
    // The number of each session's next line, one past its last where all are answered.
    next: Vec<u32>,
    // The session that was answered last, or any.
    lead: u32,
    // Of the others no attempt does anything.
    ready: Ready,
}

impl<'a, S: TopStore> Model for Turns<'a, S> {
    ghost use Rattle.interleavings.specs.Progressing.{AreUnderWay};
    ghost use Rattle.interleavings.specs.Turning.{Turning};

    ghost Value = { Turning S };

    ghost view = { λ t. record { sessions = t.sessions.now; core = t.manager.value } };

    ghost invariant = { λ t. AreUnderWay t.sessions.now
        (record { core = t.manager.value; next = t.next.items; ready = t.ready }) };
}

impl<'a, S: TopStore> Turns<'a, S> {
    /// No line is attempted yet. On an error the store is dropped.
    pub fn open(alloc: Global, sessions: &'a Sessions, store: S) -> Result<Turns<'a, S>, OpenFault>
        ensures ok { IfOk result (λ turns. IsStart S.TopStore sessions.now store turns) }
        ensures way { IfOk result (λ turns.
            IsUnderWay turns.core.rows turns.sessions turns.core.history) }
        ensures err { IfErr result (λ fault. HasCause S.TopStore store fault) }
    {
        let manager = Manager::open(alloc, store)?;
        match first_lines(alloc, sessions.len()) {
            Ok(next) => match on_the_heap(alloc, manager) {
                Ok(manager) => Ok(Turns {
                    alloc,
                    sessions,
                    manager,
                    next,
                    lead: 0,
                    ready: Ready::all(),
                }),
                Err(manager) => Err(let_go(manager)),
            },
            Err(_) => Err(let_go(manager)),
        }
    }

    /// The sessions are under way, and the manager is sound. The call does nothing: it tells the
    /// prover so.
    pub fn has_legal_history(&self)
        ensures { Stands S.TopStore self.now }
    {
        self.manager.table();
    }

    /// How many sessions there are.
    pub fn count(&self) -> u32
        ensures { result ≡ length self.now.sessions }
    {
        self.sessions.len() as u32
    }

    // The session's next line, where there is such a session and it has a line left: its number,
    // and what it asks.
    fn due(&self, session: u32) -> Option<(u32, EventView<'a>)>
        ensures some { IfSome result (λ due.
            IsDue self.now.sessions self.now.core.history session due.0 (asked due.1)) }
        ensures none { IfNone result
            (next_event self.now.sessions self.now.core.history session ≡ None) }
    {
        let line = *self.next.get(session as usize)?;
        let sessions = self.sessions;
        let event = sessions.line(session, line)?;
        Some((line, event))
    }

    /// The number of the session's next line, where there is such a session and it has a line left.
    pub fn next_line(&self, session: u32) -> Option<u32>
        ensures { result ≡ next_number self.now.sessions self.now.core.history session }
    {
        let (line, _) = self.due(session)?;
        Some(line)
    }

    // The first session that has a line left.
    fn first_open(&self) -> Option<u32>
        ensures { IsFirstOpen self.now.sessions self.now.core.history result }
    {
        for session in 0..self.count() {
            if self.next_line(session).is_some() {
                return Some(session);
            }
        }
        None
    }

    /// The opening rows, in byte order.
    pub fn opening(&self) -> &[Row]
        ensures rows { plain result.now ≡ self.now.core.rows }
        ensures given { result.now ≡ self.now.core.opened.given.items }
    {
        self.manager.opening()
    }

    /// Whether every line is answered.
    pub fn finished(&self) -> bool
        ensures { IsTrue result ↔ AllAnswered self.now.sessions self.now.core.history }
    {
        // Who was answered last mostly has a line left.
        if self.next_line(self.lead).is_some() {
            return false;
        }
        self.first_open().is_none()
    }

    /// Attempts the session's next line: it is answered as the definitions say, or it begins to
    /// wait, or nothing happens; then those are aborted that break the cycles of waits. The only
    /// error is that memory runs out, and nothing has changed then. A session with no line left takes
    /// no memory.
    pub fn step(&mut self, session: u32) -> Result<Turn, NoMemory>
        ensures ok { IfOk result (λ turn. Stepped S.TopStore self.old self.new session turn) }
        ensures way { OnOk result
            (IsUnderWay self.new.core.rows self.new.sessions self.new.core.history) }
        ensures err { OnErr result (self.new ≡ self.old) }
        ensures idle { next_event self.old.sessions self.old.core.history session ≡ None →
            IsOk result }
    {
        let Some((line, due)) = self.due(session) else {
            self.ready.leave_idle(session);
            return Ok(Turn::OutOfTurn);
        };
        // A line that waits is mostly kept out still, and to ask for that alone is cheaper.
        if self.manager.stays_parked(By::Line { session, line }) {
            self.ready.leave_out(session, is_after(&due));
            return Ok(Turn::Parked);
        }
        self.attempt_line(session, line, &due)
    }

    // Attempts the session's next line, which has this number and asks this. It is no part of
    // `step`, which pays for no room of it then.
    #[inline(never)]
    fn attempt_line(
        &mut self,
        session: u32,
        line: u32,
        due: &EventView<'_>,
    ) -> Result<Turn, NoMemory>
        requires { IsDue self.old.sessions self.old.core.history session line (asked due.now) }
        ensures ok { IfOk result (λ turn. Stepped S.TopStore self.old self.new session turn) }
        ensures way { OnOk result
            (IsUnderWay self.new.core.rows self.new.sessions self.new.core.history) }
        ensures err { OnErr result (self.new ≡ self.old) }
    {
        // What is known of a text comes with its length: here that a session has few lines.
        let _count = self.sessions.len();
        let by = By::Line { session, line };
        let before = self.manager.history().len();
        let came = attempt(&mut self.manager, by, due)?;
        note_attempt(&mut self.ready, &self.manager, before, session, due, came);
        match came {
            Came::Waits => Ok(Turn::Parked),
            _ => {
                self.next[session as usize] = line + 1;
                self.lead = session;
                Ok(Turn::Answered)
            }
        }
    }

    /// Applies the stuck rule once: where lines are left and none of the sessions can go on, the
    /// next line of the first session that has one is given up. Answers its session and number. The
    /// only error is that memory runs out, and nothing has changed then. Where no line is given up
    /// it takes no memory.
    pub fn stuck(&mut self) -> Result<Option<(u32, u32)>, NoMemory>
        ensures ok { IfOk result (λ line. Unstuck S.TopStore self.old self.new line) }
        ensures way { OnOk result
            (IsUnderWay self.new.core.rows self.new.sessions self.new.core.history) }
        ensures err { OnErr result (self.new ≡ self.old) }
        ensures none { NoneGivesUp self.old.core.rows self.old.sessions self.old.core.history →
            IsOk result }
    {
        // As in `step`.
        let _count = self.sessions.len();
        let Some(session) = self.stuck_session() else {
            return Ok(None);
        };
        let (line, due) = self.due(session).unwrap();
        self.manager.cancel(By::Line { session, line }, &due)?;
        self.next[session as usize] = line + 1;
        self.ready = Ready::all();
        Ok(Some((session, line)))
    }

    /// What is kept beside the sessions, which these no longer hold then.
    pub fn into_progress(self) -> Progress<S>
        ensures core { result.core ≡ self.entry.core }
        ensures way { AreUnderWay self.entry.sessions result }
    {
        let Turns {
            alloc,
            manager,
            next,
            lead,
            ready,
            ..
        } = self;
        Progress {
            alloc,
            manager,
            next,
            lead,
            ready,
        }
    }

    /// Goes on with what is kept, over sessions that are under way by it.
    pub fn from_progress(progress: Progress<S>, sessions: &'a Sessions) -> Turns<'a, S>
        requires { AreUnderWay sessions.now progress }
        ensures { result ≡ turning sessions.now progress }
    {
        let Progress {
            alloc,
            manager,
            next,
            lead,
            ready,
        } = progress;
        Turns {
            alloc,
            sessions,
            manager,
            next,
            lead,
            ready,
        }
    }

    /// Aborts the live top-level transactions in the order in which they began, and gives the
    /// report of the run, and the store. It gives the value back unchanged where lines are left, or
    /// memory runs out: the labels are copied, and there is an entry for each transaction that is
    /// aborted. Where there are no sessions it takes no memory.
    pub fn into_report(self) -> Result<(Report, S), Turns<'a, S>>
        ensures ok { IfOk result (λ run. IsClosed S.TopStore self.entry run.0 run.1) }
        ensures err { IfErr result (λ turns. turns ≡ self.entry) }
        ensures none { self.entry.sessions ≡ [] → IsOk result }
    {
        let mut turns = self;
        if !turns.finished() {
            return Err(turns);
        }
        let Ok(labels) = labels_of(turns.alloc, turns.sessions) else {
            return Err(turns);
        };
        let sessions = turns.sessions;
        match close(&mut turns.manager, sessions) {
            Ok(()) => {
                let Turns { manager, .. } = turns;
                Ok(report_of(Box::into_inner(manager), sessions, labels))
            }
            Err(_) => Err(turns),
        }
    }
}
