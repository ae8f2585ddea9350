//! What became of a transaction.
ghost use Rattle.std.specs.Prelude.{◌≡◌};
ghost use Rattle.report_trees.specs.Telling.{ending_of};
ghost use Rattle.report_trees.specs.Trees.{ended_at, outcome_of, shown_of, undone_at};

use crate::telling::{Abort, Told};
use report_marks::Doer;

/// Who undid a transaction by its own abort.
#[derive(Clone, Copy, Debug, PartialEq, Eq)]
pub enum Ending {
    /// A line asked for it.
    Request,
    /// The manager broke a cycle of waits.
    Victim,
    /// It was live at the end.
    Close,
}

/// What became of a transaction.
#[derive(Clone, Copy, Debug, PartialEq, Eq)]
pub enum Outcome {
    /// It committed, and so did each of its ancestors that has ended.
    Committed,
    /// It was aborted itself.
    Undone(Ending),
    /// It was live when an ancestor was aborted.
    WithParent,
    /// It committed into its parent, and an ancestor was aborted later.
    AfterCommit,
    /// It has not ended.
    Live,
}

/// What is shown of a transaction. Entries count from 0.
#[derive(Clone, Copy, Debug, PartialEq, Eq)]
pub struct Shown {
    /// Its place in the order of beginning.
    pub number: usize,
    /// How many ancestors it has.
    pub level: usize,
    /// The entry by which it began.
    pub began: Option<usize>,
    /// The entry by which it ended, itself or with an ancestor.
    pub ended: Option<usize>,
    pub outcome: Outcome,
    /// How many of its accesses were answered.
    pub accesses: u64,
    /// How many of its accesses waited.
    pub waits: u64,
    /// For how many entries they waited, from the one that says so to the answer.
    pub waited: u64,
}

/// Who aborts, by whose entry it is.
pub(crate) fn ending_of(by: Doer) -> Ending
    ensures { result ≡ ending_of by }
{
    match by {
        Doer::Session(_) => Ending::Request,
        Doer::Victim => Ending::Victim,
        Doer::Close => Ending::Close,
    }
}

/// The outcome of a transaction whose parent was undone by this entry, if it was.
pub(crate) fn outcome_of(
    aborted: Option<Abort>,
    committed: Option<usize>,
    above: Option<usize>,
) -> Outcome
    ensures { result ≡ outcome_of aborted committed above }
{
    match aborted {
        Some(abort) => Outcome::Undone(abort.by),
        None => match committed {
            Some(_) => match above {
                Some(_) => Outcome::AfterCommit,
                None => Outcome::Committed,
            },
            None => match above {
                Some(_) => Outcome::WithParent,
                None => Outcome::Live,
            },
        },
    }
}

/// The entry by which the transaction ended, itself or with an ancestor.
pub(crate) fn ended_at(
    aborted: Option<Abort>,
    committed: Option<usize>,
    above: Option<usize>,
) -> Option<usize>
    ensures { result ≡ ended_at aborted committed above }
{
    match aborted {
        Some(abort) => Some(abort.at),
        None => match committed {
            Some(at) => Some(at),
            None => above,
        },
    }
}

/// The entry by which the transaction was undone, itself or with an ancestor.
pub(crate) fn undone_at(aborted: Option<Abort>, above: Option<usize>) -> Option<usize>
    ensures { result ≡ undone_at aborted above }
{
    match aborted {
        Some(abort) => Some(abort.at),
        None => above,
    }
}

/// What is shown of the transaction with this number, of which this is told, at this level below a
/// parent that was undone by this entry, if it was.
pub(crate) fn shown_of(number: usize, level: usize, told: &Told, above: Option<usize>) -> Shown
    ensures { result ≡ shown_of number level told.now above }
{
    Shown {
        number,
        level,
        began: told.began,
        ended: ended_at(told.aborted, told.committed, above),
        outcome: outcome_of(told.aborted, told.committed, above),
        accesses: told.accesses,
        waits: told.waits,
        waited: told.waited,
    }
}
