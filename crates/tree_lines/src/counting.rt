//! How many transactions and entries are of some kind.
ghost use Rattle.std.specs.Prelude.{◌≡◌, ◌<◌, ◌^◌, length, Some};
ghost use Rattle.tree_lines.specs.Counts.{counted, counts_mark, counts_shown, follows, has_undone_below, is_committed, is_job, is_own, is_refused, is_undone, marked, next_beside};

use line_language::Cause;
use report_marks::{Deed, Doer, Mark};
use report_trees::{Ending, Outcome, Shown};

/// Transactions of some kind. A job is a top-level transaction, and a part is one below another.
#[derive(Clone, Copy, Debug, PartialEq, Eq)]
pub enum Group {
    JobsCommitted,
    JobsUndone,
    PartsCommitted,
    PartsUndone,
    /// Undone by its own abort, and the next part below the same parent began later than that.
    PartsAgain,
}

/// Entries of some kind.
#[derive(Clone, Copy, Debug, PartialEq, Eq)]
pub enum Kind {
    Victim,
    Waits,
    Stuck,
    Refused(Cause),
}

/// Whether the transaction committed, with all that it committed into.
pub(crate) fn is_committed(shown: &Shown) -> bool
    ensures { result ≡ is_committed shown.now.outcome }
{
    matches!(shown.outcome, Outcome::Committed)
}

/// Whether what the transaction did is undone.
pub(crate) fn is_undone(shown: &Shown) -> bool
    ensures { result ≡ is_undone shown.now.outcome }
{
    match shown.outcome {
        Outcome::Committed => false,
        Outcome::Live => false,
        Outcome::Undone(_) => true,
        Outcome::WithParent => true,
        Outcome::AfterCommit => true,
    }
}

// Whether it was undone by its own abort before the close.
fn is_own(shown: &Shown) -> bool
    ensures { result ≡ is_own shown.now.outcome }
{
    match shown.outcome {
        Outcome::Undone(Ending::Request) => true,
        Outcome::Undone(Ending::Victim) => true,
        Outcome::Undone(Ending::Close) => false,
        Outcome::Committed => false,
        Outcome::Live => false,
        Outcome::WithParent => false,
        Outcome::AfterCommit => false,
    }
}

/// Whether one below the level is undone, before the first that is not below it.
pub(crate) fn has_undone_below(level: usize, behind: &[Shown]) -> bool
    ensures { result ≡ has_undone_below level behind.now }
{
    let mut rest = behind;
    while let [first, more @ ..] = rest {
        if first.level <= level {
            return false;
        }
        if is_undone(first) {
            return true;
        }
        rest = more;
    }
    false
}

// Whether the next one that is not below the transaction has the same parent, and began after its
// end.
fn is_followed(before: &Shown, behind: &[Shown]) -> bool
    ensures { result ≡ follows before.now (next_beside before.now.level behind.now) }
{
    let mut rest = behind;
    while let [first, more @ ..] = rest {
        if first.level <= before.level {
            return is_next(before, first);
        }
        rest = more;
    }
    false
}

fn is_next(before: &Shown, shown: &Shown) -> bool
    ensures { result ≡ follows before.now (Some shown.now) }
{
    if shown.level != before.level {
        return false;
    }
    match before.ended {
        Some(ended) => match shown.began {
            Some(began) => ended < began,
            None => false,
        },
        None => false,
    }
}

fn is_job(shown: &Shown) -> bool
    ensures { result ≡ is_job shown.now }
{
    shown.level == 0
}

// Whether the transaction is of the group, of which these stand behind it.
fn counts_shown(group: Group, shown: &Shown, behind: &[Shown]) -> bool
    ensures { result ≡ counts_shown group shown.now behind.now }
{
    match group {
        Group::JobsCommitted => is_job(shown) && is_committed(shown),
        Group::JobsUndone => is_job(shown) && is_undone(shown),
        Group::PartsCommitted => !is_job(shown) && is_committed(shown),
        Group::PartsUndone => !is_job(shown) && is_undone(shown),
        Group::PartsAgain => !is_job(shown) && (is_own(shown) && is_followed(shown, behind)),
    }
}

/// How many transactions are of the group.
pub fn counted(group: Group, shown: &[Shown]) -> usize
    requires { length shown.now < 2 ^ 63 }
    ensures { result ≡ counted group shown.now }
{
    let mut count = 0;
    let mut rest = shown;
    while let [first, behind @ ..] = rest {
        if counts_shown(group, first, behind) {
            count += 1;
        }
        rest = behind;
    }
    count
}

fn counts_mark(kind: Kind, mark: &Mark) -> bool
    ensures { result ≡ counts_mark kind mark.now }
{
    match kind {
        Kind::Victim => matches!(mark.by, Doer::Victim),
        Kind::Waits => matches!(mark.deed, Deed::Waits(_)),
        Kind::Stuck => matches!(mark.deed, Deed::Stuck),
        Kind::Refused(cause) => is_refused(cause, mark.deed),
    }
}

fn is_refused(cause: Cause, deed: Deed) -> bool
    ensures { result ≡ is_refused cause deed }
{
    match deed {
        Deed::Refused(other) => cause == other,
        Deed::Began(_) => false,
        Deed::Accessed(_) => false,
        Deed::Committed(_) => false,
        Deed::Aborted(_) => false,
        Deed::Waits(_) => false,
        Deed::Stuck => false,
        Deed::Other => false,
    }
}

/// How many entries are of the kind.
pub fn marked(kind: Kind, marks: &[Mark]) -> usize
    requires { length marks.now < 2 ^ 63 }
    ensures { result ≡ marked kind marks.now }
{
    let mut count = 0;
    let mut rest = marks;
    while let [first, behind @ ..] = rest {
        if counts_mark(kind, first) {
            count += 1;
        }
        rest = behind;
    }
    count
}
