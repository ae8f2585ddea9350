//! What lies under the lock of a run.
ghost use Rattle.std.specs.Prelude.{◌≡◌, ◌↔◌, IfErr, IfOk, IfSome, IsFalse, IsTrue, Some};
ghost use Rattle.serial_spec.specs.Interleaving.{AllAnswered};
ghost use Rattle.event_lists.specs.Views.{asked};
ghost use Rattle.interleavings.specs.Scheduled.{LetsGo};
ghost use Rattle.interleavings.specs.Served.{IsServedFrom, IsUnservedFrom};
ghost use Rattle.interleavings.specs.Turning.{IsClosed, Unstuck, next_number};
ghost use Rattle.shared_book.specs.Attempting.{Attempted};
ghost use Rattle.worker_pool.specs.Jobs.{IsNextJob};
ghost use Rattle.worker_pool.specs.Openings.{IsAsOpened};
ghost use Rattle.worker_pool.specs.inner.Trying.{LooksForStuck, Tries};
ghost use Rattle.worker_pool.specs.inner.Working.{IsOfWork};

use durable_top::TopStore;
use event_lists::EventView;
use interleavings::{ServeFault, Turn};
use run_reports::Report;
use serial_spec::NoMemory;
use shared_book::Book;
use std::marker::{Brand, Model, PhantomData};

/// What was known at the opening of a run. Each run picks its own.
pub(crate) trait Opening<S> {
    ghost use Rattle.std.specs.Prelude.{Option};
    ghost use Rattle.interleavings.specs.Turning.{Turning};

    /// The sessions over their manager, as they were opened. It exists in proofs alone, so that no
    /// program could compare it.
    ghost first: { Option (Turning S) };
}

impl<S> Opening<S> for Brand {
    ghost use Rattle.std.specs.Prelude.{None};

    ghost first = { None };
}

/// What came of a line that was tried.
#[derive(Clone, Copy, Debug, PartialEq, Eq)]
pub(crate) struct Tried {
    pub turn: Turn,
    /// The line that was given up, by its session and number.
    pub given_up: Option<(u32, u32)>,
    /// The number of the session's next line.
    pub next: Option<u32>,
    /// Whether every line of every session is answered.
    pub finished: bool,
}

/// The book of a run, which has gone on from its opening.
#[derive(Drop)]
pub(crate) struct Desk<'a, S: TopStore, J: Opening<S>> {
    book: Book<'a, S>,
    // How many sessions there are.
    sessions: u32,
    // How many attempts were parked in a row, whoever made them, since a line was answered or stuck
    // lines were looked for.
    parked: u32,
    // How many sessions had a line left when stuck lines were last looked for.
    open: u32,
    // Whether a line was tried.
    is_tried: bool,
    // Whether memory ran out while someone had the lock.
    refused: bool,
    of: PhantomData<J>,
}

impl<'a, S: TopStore, J: Opening<S>> Model for Desk<'a, S, J> {
    ghost use Rattle.interleavings.specs.Turning.{Turning};
    ghost use Rattle.worker_pool.specs.Openings.{IsKept};

    ghost Value = { Turning S };

    ghost view = { λ d. d.book };

    ghost invariant = { λ d. IsKept S.TopStore J.first d.book d.is_tried };
}

impl<'a, S: TopStore, J: Opening<S>> Desk<'a, S, J> {
    pub(crate) fn new(book: Book<'a, S>, sessions: u32) -> Desk<'a, S, J>
        requires { IsAsOpened J.first book }
        ensures { result ≡ book.entry }
    {
        Desk {
            book,
            sessions,
            parked: 0,
            open: 0,
            is_tried: false,
            refused: false,
            of: PhantomData,
        }
    }

    fn attempt(&mut self, session: u32, line: u32, text: &EventView<'_>) -> Result<Turn, NoMemory>
        ensures { IfOk result (λ turn.
            Attempted S.TopStore self.old self.new session line (asked text.now) turn) }
    {
        self.is_tried = true;
        self.book.attempt(session, line, text)
    }

    fn stuck(&mut self) -> Result<Option<(u32, u32)>, NoMemory>
        ensures { IfOk result (λ line. Unstuck S.TopStore self.old self.new line) }
    {
        self.is_tried = true;
        self.book.stuck()
    }

    // How many sessions have a line left.
    fn count_open(&self) -> u32 {
        (0..self.sessions)
            .filter(|session| self.book.next_line(*session).is_some())
            .count() as u32
    }

    // Counts an attempt that was parked. Answers whether so many were parked in a row that each
    // session may have been tried, and then it begins to count anew.
    fn is_look_due(&mut self) -> bool
        ensures { self.new ≡ self.old }
    {
        self.parked = self.parked.saturating_add(1);
        if self.parked < self.open {
            return false;
        }
        self.parked = 0;
        self.open = self.count_open();
        true
    }

    // Looks for a line that must be given up, where none of the open sessions was answered for a
    // whole round. As long as one is answered, nothing is stuck.
    fn look_for_stuck(&mut self, turn: Turn) -> Result<Option<(u32, u32)>, NoMemory>
        ensures { IfOk result (λ line. LooksForStuck S.TopStore self.old self.new turn line) }
    {
        match turn {
            Turn::Parked => {
                if self.is_look_due() {
                    self.stuck()
                } else {
                    Ok(None)
                }
            }
            Turn::Answered => {
                self.parked = 0;
                Ok(None)
            }
            Turn::OutOfTurn => Ok(None),
        }
    }

    fn try_line(&mut self, session: u32, line: u32, text: &EventView<'_>) -> Result<Tried, NoMemory>
        ensures ok { IfOk result (λ tried.
            Tries S.TopStore self.old self.new session line (asked text.now) tried) }
        ensures next { IfOk result (λ tried. IsNextJob session tried.next) }
    {
        let turn = self.attempt(session, line, text)?;
        let given_up = self.look_for_stuck(turn)?;
        Ok(Tried {
            turn,
            given_up,
            next: self.next_line(session),
            finished: self.finished(),
        })
    }

    /// Attempts a line, and may look for a line that must be given up where this one is parked. The
    /// only error is that memory runs out, and then no report will be made.
    pub(crate) fn take_turn(
        &mut self,
        session: u32,
        line: u32,
        text: &EventView<'_>,
    ) -> Result<Tried, NoMemory>
        ensures ok { IfOk result (λ tried.
            Tries S.TopStore self.old self.new session line (asked text.now) tried) }
        ensures next { IfOk result (λ tried. IsNextJob session tried.next) }
    {
        let tried = self.try_line(session, line, text);
        if tried.is_err() {
            self.refused = true;
        }
        tried
    }

    /// The number of the session's next line, where there is such a session and it has a line left.
    pub(crate) fn next_line(&self, session: u32) -> Option<u32>
        ensures next { result ≡ next_number self.now.sessions self.now.core.history session }
        ensures within { IsNextJob session result }
    {
        self.book.next_line(session)
    }

    // Whether every line is answered.
    fn finished(&self) -> bool
        ensures { IsTrue result ↔ AllAnswered self.now.sessions self.now.core.history }
    {
        self.book.finished()
    }

    /// Whether nothing is left to do: every line is answered, or memory ran out.
    pub(crate) fn is_over(&self) -> bool {
        self.refused || self.finished()
    }

    /// The report and the store, where the work has ended so and nothing went wrong. Otherwise the
    /// store comes back beside the fault; where that is a worker that is missing, the store is as
    /// the opening left it.
    #[tactic(auto, using(crate::proofs::Reported::if_behind))]
    pub(crate) fn into_report(
        self,
        worked: Result<(), ServeFault>,
    ) -> Result<(Report, S), (ServeFault, S)>
        ensures ok { IfOk result (λ run.
            IfSome J.first (λ first. IsServedFrom S.TopStore first run.0 run.1)) }
        ensures err { IfErr result (λ u. IsOfWork worked u.0) }
        ensures off { IfErr result (λ u.
            IfSome J.first (λ first. IsUnservedFrom S.TopStore first u.0 u.1)) }
    {
        let Desk {
            book,
            is_tried,
            refused,
            ..
        } = self;
        match fault_of(worked, is_tried, refused) {
            Some(fault) => Err((fault, book.give_up())),
            None => close(book),
        }
    }
}

// Why there will be no report, once the work has ended so. That a worker is missing is a fault only
// where no line was tried.
fn fault_of(worked: Result<(), ServeFault>, is_tried: bool, refused: bool) -> Option<ServeFault>
    ensures work { IfSome result (IsOfWork worked) }
    ensures thread { result ≡ Some ServeFault.Thread → IsFalse is_tried }
{
    match worked {
        Err(ServeFault::Thread) => {
            if !is_tried {
                return Some(ServeFault::Thread);
            }
        }
        Err(fault) => return Some(fault),
        Ok(()) => {}
    }
    if refused {
        Some(ServeFault::NoMemory)
    } else {
        None
    }
}

// The report of sessions all of whose lines are answered.
fn close<S: TopStore>(book: Book<'_, S>) -> Result<(Report, S), (ServeFault, S)>
    ensures ok { IfOk result (λ run. IsClosed S.TopStore book.entry run.0 run.1) }
    ensures err { IfErr result (λ u. u.0 ≡ ServeFault.NoMemory) }
    ensures go { IfErr result (λ u. LetsGo S.TopStore book.entry u.1) }
{
    match book.into_report() {
        Ok(run) => Ok(run),
        Err(book) => Err((ServeFault::NoMemory, book.give_up())),
    }
}
