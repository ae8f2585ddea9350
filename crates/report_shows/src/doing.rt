//! Whether all was done that a report tells of.
ghost use Rattle.std.specs.Prelude.{◌≡◌};
ghost use Rattle.std.specs.List.{list_all, list_any};
ghost use Rattle.report_shows.specs.Shown.{is_all_done, is_committed, is_failure};

use report_marks::{Deed, Mark};
use report_trees::{Outcome, Shown};

fn is_committed(shown: &Shown) -> bool
    ensures { result ≡ is_committed shown.now }
{
    match shown.outcome {
        Outcome::Committed => true,
        Outcome::Undone(_) => false,
        Outcome::WithParent => false,
        Outcome::AfterCommit => false,
        Outcome::Live => false,
    }
}

// Whether a line was refused, or given up.
fn is_failure(mark: &Mark) -> bool
    ensures { result ≡ is_failure mark.now }
{
    match mark.deed {
        Deed::Refused(_) => true,
        Deed::Stuck => true,
        Deed::Began(_) => false,
        Deed::Accessed(_) => false,
        Deed::Committed(_) => false,
        Deed::Aborted(_) => false,
        Deed::Waits(_) => false,
        Deed::Other => false,
    }
}

fn are_committed(shown: &[Shown]) -> bool
    ensures { result ≡ list_all is_committed shown.now }
{
    shown.iter().all(|one| is_committed(one))
}

fn has_failure(marks: &[Mark]) -> bool
    ensures { result ≡ list_any is_failure marks.now }
{
    marks.iter().any(|mark| is_failure(mark))
}

/// Whether each of the transactions committed for good, and no line was refused or given up.
pub(crate) fn is_all_done(shown: &[Shown], marks: &[Mark]) -> bool
    ensures { result ≡ is_all_done shown.now marks.now }
{
    are_committed(shown) && !has_failure(marks)
}
