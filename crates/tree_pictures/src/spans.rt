//! What a bar says of its transactions: what became of them, and from where to where it goes.
ghost use Rattle.std.specs.Prelude.{◌≡◌, ◌<◌, ◌≤◌, ◌^◌, length};
ghost use Rattle.tree_lines.specs.Counts.{is_undone};
ghost use Rattle.tree_pictures.specs.Bars.{class_of, earliest, latest, starts_at, stops_at, undone_in};

use report_trees::{Ending, Outcome, Shown};

/// The class of a bar, which gives it its colour and its pattern.
pub(crate) fn class_of(outcome: Outcome) -> &'static [u8]
    ensures { result.now ≡ class_of outcome }
{
    match outcome {
        Outcome::Committed => b"committed".as_slice(),
        Outcome::Undone(Ending::Request) => b"request".as_slice(),
        Outcome::Undone(Ending::Victim) => b"victim".as_slice(),
        Outcome::Undone(Ending::Close) => b"close".as_slice(),
        Outcome::WithParent => b"parent".as_slice(),
        Outcome::AfterCommit => b"later".as_slice(),
        Outcome::Live => b"live".as_slice(),
    }
}

/// The entry at which the bar of the transaction begins.
pub(crate) fn starts_at(shown: &Shown) -> usize
    ensures { result ≡ starts_at shown.now }
{
    shown.began.unwrap_or(0)
}

/// The entry at which it ends, in a report of so many entries.
pub(crate) fn stops_at(entries: usize, shown: &Shown) -> usize
    ensures { result ≡ stops_at entries shown.now }
{
    shown.ended.unwrap_or(entries)
}

/// The first begin of these and the given one.
pub(crate) fn earliest(entry: usize, shown: &[Shown]) -> usize
    ensures { result ≡ earliest entry shown.now }
{
    let mut least = entry;
    let mut rest = shown;
    while let [first, behind @ ..] = rest {
        least = least.min(starts_at(first));
        rest = behind;
    }
    least
}

/// The last end of these and the given one.
pub(crate) fn latest(entries: usize, entry: usize, shown: &[Shown]) -> usize
    ensures { result ≡ latest entries entry shown.now }
{
    let mut most = entry;
    let mut rest = shown;
    while let [first, behind @ ..] = rest {
        most = most.max(stops_at(entries, first));
        rest = behind;
    }
    most
}

/// Whether what the transaction did is undone.
pub(crate) fn is_undone(outcome: Outcome) -> bool
    ensures { result ≡ is_undone outcome }
{
    match outcome {
        Outcome::Committed => false,
        Outcome::Live => false,
        Outcome::Undone(_) => true,
        Outcome::WithParent => true,
        Outcome::AfterCommit => true,
    }
}

/// How many of these are undone.
pub(crate) fn undone_in(shown: &[Shown]) -> usize
    requires { length shown.now < 2 ^ 63 }
    ensures count { result ≡ undone_in shown.now }
    ensures few { result ≤ length shown.now }
{
    let mut count = 0;
    let mut rest = shown;
    while let [first, behind @ ..] = rest {
        if is_undone(first.outcome) {
            count += 1;
        }
        rest = behind;
    }
    count
}
