//! What a call comes to.
ghost use Rattle.std.specs.Prelude.{◌≡◌};
ghost use Rattle.event_lists.specs.Views.{answer_by, said_of};
ghost use Rattle.manager_core.specs.Outcomes.{Tells, answer_of, came_of, outcome_of};

use durable_top::StoreFault;
use event_lists::{Said, cause_of};
use serial_spec::{Answer, Refusal, Reply};
use txn_names::Name;

/// What a call comes to: a reply, a wait, or a refusal.
#[derive(Clone, Copy, Debug, PartialEq, Eq)]
pub enum Outcome {
    Done(Reply),
    Waits,
    Refused(Refusal),
}

/// What came of a call, its reply and its cause left aside.
#[derive(Clone, Copy, Debug, PartialEq, Eq)]
pub enum Came {
    Done,
    Waits,
    Refused,
}

/// Why a manager was not opened.
#[derive(Clone, Copy, Debug, PartialEq, Eq)]
pub enum OpenFault {
    /// Memory ran out once the store had given its rows, which are not too many.
    NoMemory,
    /// The store did not give its rows, for want of memory too.
    Store(StoreFault),
    /// The store has more rows than keys may be known.
    TooManyRows,
}

impl Outcome {
    /// Refused, or done where nothing refuses it.
    pub(crate) fn of(refusal: Option<Refusal>) -> Outcome
        ensures { result ≡ outcome_of refusal }
    {
        match refusal {
            Some(refusal) => Outcome::Refused(refusal),
            None => Outcome::Done(Reply::Ok),
        }
    }

    /// The outcome that the history keeps by this answer. A line that was given up has none, and any
    /// is given for it.
    pub(crate) fn told(answer: &Answer) -> Outcome
        ensures { Tells answer.now result }
    {
        match answer {
            Answer::Done(reply) => Outcome::Done(*reply),
            Answer::Refused(refusal) => Outcome::Refused(*refusal),
            Answer::Waits | Answer::Stuck => Outcome::Waits,
        }
    }

    /// What came of the call.
    #[inline(always)]
    pub fn came(&self) -> Came
        ensures { result ≡ came_of self.now }
    {
        match self {
            Outcome::Done(_) => Came::Done,
            Outcome::Waits => Came::Waits,
            Outcome::Refused(_) => Came::Refused,
        }
    }

    /// What the history keeps of it, the name of an orphan's aborted ancestor left aside.
    #[inline(always)]
    pub(crate) fn said(&self) -> Said
        ensures { result ≡ said_of (answer_of self.now) }
    {
        match self {
            Outcome::Done(reply) => Said::Done(*reply),
            Outcome::Waits => Said::Waits,
            Outcome::Refused(refusal) => Said::Refused(cause_of(refusal)),
        }
    }

    /// The topmost aborted ancestor, where it refuses an orphan, and else the other name.
    #[inline(always)]
    pub(crate) fn top<'a>(&'a self, other: &'a Name) -> &'a Name
        ensures { answer_by (said_of (answer_of self.now)) result.now ≡ answer_of self.now }
    {
        match self {
            Outcome::Refused(Refusal::Orphan(top)) => top,
            _ => other,
        }
    }
}
