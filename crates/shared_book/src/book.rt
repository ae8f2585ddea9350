//! Sessions under way, which many threads take turns with.
ghost use Rattle.std.specs.Prelude.{[], ◌≡◌, ◌<◌, ◌≤◌, ◌↔◌, IfErr, IfOk, IfSome, IsOk, IsTrue, OnErr, OnOk};
ghost use Rattle.serial_spec.specs.declared.limits.TheConstants.{MOST_LINES, MOST_SESSIONS};
ghost use Rattle.serial_spec.specs.Follows.{NoneGivesUp};
ghost use Rattle.serial_spec.specs.Interleaving.{AllAnswered};
ghost use Rattle.event_lists.specs.Views.{asked};
ghost use Rattle.txn_history.specs.Turns.{IsUnderWay};
ghost use Rattle.durable_top.specs.Store.{plain};
ghost use Rattle.manager_core.specs.Opening.{HasCause};
ghost use Rattle.interleavings.specs.Scheduled.{LetsGo, Stands};
ghost use Rattle.interleavings.specs.Turning.{IsClosed, IsStart, Unstuck, next_number};
ghost use Rattle.shared_book.specs.Attempting.{Attempted, IsNext};

use crate::same::{same_sessions, same_text};
use durable_top::{Row, TopStore};
use event_lists::EventView;
use interleavings::{Turn, Turns};
use manager_core::OpenFault;
use run_reports::Report;
use serial_spec::NoMemory;
use session_text::Sessions;
use std::alloc::Global;
use std::marker::Model;

/// Sessions over a store. A line is attempted by its number and its text, so that a caller who has
/// missed what others did meanwhile attempts nothing. The history is empty at first, and always
/// legal, without a cycle of waits, and an interleaving of the sessions' lines as far as they are
/// answered.
#[derive(Drop)]
pub struct Book<'a, S: TopStore> {
    turns: Turns<'a, S>,
    sessions: &'a Sessions,
    // How many faults the store had counted at the opening.
    faults: u64,
}

impl<'a, S: TopStore> Model for Book<'a, S> {
    ghost use Rattle.interleavings.specs.Turning.{Turning};
    ghost use Rattle.shared_book.specs.Books.{IsBook};

    ghost Value = { Turning S };

    ghost view = { λ b. b.turns };

    ghost invariant = { λ b. IsBook b.turns b.sessions.now b.faults };
}

impl<'a, S: TopStore> Book<'a, S> {
    /// No line is attempted yet. On an error the store is dropped.
    pub fn open(alloc: Global, sessions: &'a Sessions, store: S) -> Result<Book<'a, S>, OpenFault>
        ensures ok { IfOk result (λ book. IsStart S.TopStore sessions.now store book) }
        ensures err { IfErr result (λ fault. HasCause S.TopStore store fault) }
    {
        let faults = store.faults();
        match Turns::open(alloc, sessions, store) {
            Ok(turns) => Ok(Book {
                turns,
                sessions,
                faults,
            }),
            Err(fault) => Err(fault),
        }
    }

    /// The sessions are under way, and the manager is sound. The call does nothing: it tells the
    /// prover so.
    pub fn has_legal_history(&self)
        ensures { Stands S.TopStore self.now }
    {
        self.turns.has_legal_history();
    }

    /// The number of the session's next line, where there is such a session and it has a line left.
    pub fn next_line(&self, session: u32) -> Option<u32>
        ensures next { result ≡ next_number self.now.sessions self.now.core.history session }
        ensures within { IfSome result (λ line. (session < MOST_SESSIONS) × (0 < line)
            × (line ≤ MOST_LINES)) }
    {
        // What is known of a text comes with its length: here that it is short.
        let _count = self.sessions.len();
        self.turns.next_line(session)
    }

    /// The opening rows, in byte order.
    pub fn opening(&self) -> &[Row]
        ensures rows { plain result.now ≡ self.now.core.rows }
        ensures given { result.now ≡ self.now.core.opened.given.items }
    {
        self.turns.opening()
    }

    /// Whether every line is answered.
    pub fn finished(&self) -> bool
        ensures all { IsTrue result ↔ AllAnswered self.now.sessions self.now.core.history }
        ensures way { IsUnderWay self.now.core.rows self.now.sessions self.now.core.history }
    {
        self.turns.finished()
    }

    // Whether the line is the session's next.
    fn is_next(&self, session: u32, line: u32, text: &EventView<'_>) -> bool
        ensures { IsTrue result ↔ IsNext self.now session line (asked text.now) }
    {
        let Some(next) = self.turns.next_line(session) else {
            return false;
        };
        if next != line {
            return false;
        }
        let own = self.sessions.line(session, line).unwrap();
        same_text(&own, text)
    }

    /// Attempts a line, where it is its session's next: it is answered as the definitions say, or
    /// it begins to wait, or nothing happens; then those are aborted that break the cycles of
    /// waits. A line of another number or text is out of turn, and nothing happens. The only error
    /// is that memory runs out, and nothing has changed then. A line out of turn takes no memory.
    pub fn attempt(
        &mut self,
        session: u32,
        line: u32,
        text: &EventView<'_>,
    ) -> Result<Turn, NoMemory>
        ensures ok { IfOk result (λ turn.
            Attempted S.TopStore self.old self.new session line (asked text.now) turn) }
        ensures way { OnOk result
            (IsUnderWay self.new.core.rows self.new.sessions self.new.core.history) }
        ensures err { OnErr result (self.new ≡ self.old) }
        ensures idle { (IsNext self.old session line (asked text.now) → ⊥) → IsOk result }
    {
        if self.is_next(session, line, text) {
            self.turns.step(session)
        } else {
            Ok(Turn::OutOfTurn)
        }
    }

    /// Applies the stuck rule once: where lines are left and none of the sessions can go on, the
    /// next line of the first session that has one is given up. Answers its session and number. The
    /// only error is that memory runs out, and nothing has changed then. Where no line is given up
    /// it takes no memory.
    pub fn stuck(&mut self) -> Result<Option<(u32, u32)>, NoMemory>
        ensures ok { IfOk result (λ line. Unstuck S.TopStore self.old self.new line) }
        ensures way { OnOk result
            (IsUnderWay self.new.core.rows self.new.sessions self.new.core.history) }
        ensures err { OnErr result (self.new ≡ self.old) }
        ensures none { NoneGivesUp self.old.core.rows self.old.sessions self.old.core.history →
            IsOk result }
    {
        self.turns.stuck()
    }

    /// Whether it was opened with these sessions and a store that had counted so many faults.
    pub fn is_of(&self, sessions: &Sessions, faults: u64) -> bool
        ensures { IsTrue result ↔ (self.now.sessions ≡ sessions.now)
            × (self.now.core.opened.faults ≡ faults) }
    {
        self.faults == faults && same_sessions(self.sessions, sessions)
    }

    /// Aborts the live top-level transactions in the order in which they began, and gives the
    /// report of the run, and the store. It gives the value back unchanged where lines are left, or
    /// memory runs out. Where there are no sessions it takes no memory.
    pub fn into_report(self) -> Result<(Report, S), Book<'a, S>>
        ensures ok { IfOk result (λ run. IsClosed S.TopStore self.entry run.0 run.1) }
        ensures err { IfErr result (λ book. book ≡ self.entry) }
        ensures none { self.entry.sessions ≡ [] → IsOk result }
    {
        let Book {
            turns,
            sessions,
            faults,
        } = self;
        match turns.into_report() {
            Ok(run) => Ok(run),
            Err(turns) => Err(Book {
                turns,
                sessions,
                faults,
            }),
        }
    }

    /// Gives the store up, without a report. It is asked nothing.
    pub fn give_up(self) -> S
        ensures { LetsGo S.TopStore self.entry result }
    {
        let Book { turns, .. } = self;
        turns.has_legal_history();
        turns.into_progress().give_up()
    }
}
