//! Waits on bars, each with an arrow to whose end came last before the answer.
ghost use Rattle.std.specs.Prelude.{◌≡◌, ◌++◌, ◌+◌, ◌<◌, ◌^◌, drop, length, take, OnOk};
ghost use Rattle.tree_pictures.specs.Waits.{arrow, end_by, end_for, is_stuck_at, last_end, last_end_before, place_of, wait_arrow, wait_bar, wait_in, wait_over, wait_rect, wait_rows};

use crate::bars::put_entries;
use crate::elements::{put_rect, put_upright};
use crate::scale::{ROW, Scale, plus};
use report_marks::{Deed, Mark};
use report_trees::{Shown, Wait};
use serial_spec::NoMemory;
use tree_lines::put_bytes;

/// How many entries are looked at for whose end a wait waited for.
const MOST_LOOKED: usize = 256;

/// An end: whose it is, and the entry.
#[derive(Clone, Copy, Debug, PartialEq, Eq)]
pub(crate) struct End {
    pub(crate) number: usize,
    pub(crate) entry: usize,
}

/// In which place in the order of the tree the transaction with this number stands.
pub(crate) fn place_of(shown: &[Shown], number: usize) -> Option<usize>
    ensures { result ≡ place_of number shown.now }
{
    shown.iter().position(|one| one.number == number)
}

// The end that this deed is.
fn end_by(entry: usize, deed: Deed) -> Option<End>
    ensures { result ≡ end_by entry deed }
{
    match deed {
        Deed::Committed(number) => Some(End { number, entry }),
        Deed::Aborted(number) => Some(End { number, entry }),
        Deed::Began(_) => None,
        Deed::Accessed(_) => None,
        Deed::Waits(_) => None,
        Deed::Stuck => None,
        Deed::Refused(_) => None,
        Deed::Other => None,
    }
}

// The last end among these entries, the first of which has this number, or else the given one.
fn last_end(entry: usize, marks: &[Mark], known: Option<End>) -> Option<End>
    requires { entry + length marks.now < 2 ^ 64 }
    ensures { result ≡ last_end entry marks.now known }
{
    let mut last = known;
    let mut at = entry;
    let mut rest = marks;
    while let [first, behind @ ..] = rest {
        match end_by(at, first.deed) {
            Some(end) => last = Some(end),
            None => {}
        }
        at += 1;
        rest = behind;
    }
    last
}

// The entries from one on, and before another.
fn entries_between(marks: &[Mark], from: usize, to: usize) -> &[Mark]
    requires { length marks.now < 2 ^ 63 }
    ensures entries { result.now ≡ drop from (take to marks.now) }
    ensures fits { from + length result.now < 2 ^ 64 }
{
    let (before, _) = marks.split_at(to.min(marks.len()));
    let (_, between) = before.split_at(from.min(before.len()));
    between
}

// The last end before the wait is answered, at most so many entries before.
fn last_end_before(marks: &[Mark], wait: &Wait) -> Option<End>
    requires { length marks.now < 2 ^ 63 }
    ensures { result ≡ last_end_before marks.now wait.now }
{
    let from = wait.from.max(wait.to.saturating_sub(MOST_LOOKED));
    last_end(from, entries_between(marks, from, wait.to), None)
}

// Whether the entry gave up a line.
fn is_stuck_at(marks: &[Mark], entry: usize) -> bool
    ensures { result ≡ is_stuck_at marks.now entry }
{
    match marks.get(entry) {
        Some(mark) => matches!(mark.deed, Deed::Stuck),
        None => false,
    }
}

// The same, where the wait is answered, and is not given up.
fn end_for(marks: &[Mark], wait: &Wait) -> Option<End>
    requires { length marks.now < 2 ^ 63 }
    ensures { result ≡ end_for marks.now wait.now }
{
    if is_stuck_at(marks, wait.to) {
        None
    } else {
        last_end_before(marks, wait)
    }
}

// Adds an arrow from one row to another, where the entry stands.
fn put_arrow(
    out: &mut Vec<u8>,
    scale: &Scale,
    entry: usize,
    from: usize,
    to: usize,
) -> Result<(), NoMemory>
    ensures { OnOk result (out.new.items ≡ out.old.items ++ arrow scale.now entry from to) }
{
    if from == to {
        return Ok(());
    }
    let here = plus(scale.y(from), 85);
    let there = plus(scale.y(to), 85);
    put_upright(out, b"arrow", scale.x(entry), here, there)
}

// Adds the arrow of a wait in this row.
fn put_wait_arrow(
    out: &mut Vec<u8>,
    scale: &Scale,
    shown: &[Shown],
    row: usize,
    end: Option<End>,
) -> Result<(), NoMemory>
    ensures { OnOk result
        (out.new.items ≡ out.old.items ++ wait_arrow scale.now shown.now row end) }
{
    match end {
        Some(end) => match place_of(shown, end.number) {
            Some(other) => put_arrow(out, scale, end.entry, row, other),
            None => Ok(()),
        },
        None => Ok(()),
    }
}

// Adds the bar of a wait in this row, between these entries, up to what a pointer shows of it.
fn put_wait_rect(
    out: &mut Vec<u8>,
    scale: &Scale,
    row: usize,
    from: usize,
    to: usize,
) -> Result<(), NoMemory>
    ensures { OnOk result (out.new.items ≡ out.old.items ++ wait_rect scale.now row from to) }
{
    let x = scale.x(from);
    let width = scale.x(to).saturating_sub(x).max(10);
    put_rect(out, b"wait", x, plus(scale.y(row), 30), width, ROW - 70)?;
    put_bytes(out, b"<title>waits")
}

// Adds the bar of a wait in this row, between these entries.
fn put_wait_bar(
    out: &mut Vec<u8>,
    scale: &Scale,
    row: usize,
    from: usize,
    to: usize,
) -> Result<(), NoMemory>
    ensures { OnOk result (out.new.items ≡ out.old.items ++ wait_bar scale.now row from to) }
{
    put_wait_rect(out, scale, row, from, to)?;
    put_entries(out, scale, from, to)?;
    put_bytes(out, b"</title></rect>\n")
}

/// The entry at which the wait is over: its answer, or the end of its transaction before that.
pub(crate) fn wait_over(shown: &[Shown], row: usize, to: usize) -> usize
    ensures { result ≡ wait_over shown.now row to }
{
    match shown.get(row) {
        Some(own) => to.min(own.ended.unwrap_or(to)),
        None => to,
    }
}

// Adds the wait, where its transaction is shown.
fn put_wait(
    out: &mut Vec<u8>,
    scale: &Scale,
    marks: &[Mark],
    shown: &[Shown],
    wait: &Wait,
) -> Result<(), NoMemory>
    requires { length marks.now < 2 ^ 63 }
    ensures { OnOk result
        (out.new.items ≡ out.old.items ++ wait_in scale.now marks.now shown.now wait.now) }
{
    match place_of(shown, wait.number) {
        Some(row) => {
            let to = wait_over(shown, row, wait.to);
            put_wait_bar(out, scale, row, wait.from, to)?;
            put_wait_arrow(out, scale, shown, row, end_for(marks, wait))
        }
        None => Ok(()),
    }
}

/// Adds the waits. The only error is that memory runs out.
pub(crate) fn put_waits(
    out: &mut Vec<u8>,
    scale: &Scale,
    marks: &[Mark],
    shown: &[Shown],
    waits: &[Wait],
) -> Result<(), NoMemory>
    requires { length marks.now < 2 ^ 63 }
    ensures { OnOk result
        (out.new.items ≡ out.old.items ++ wait_rows scale.now marks.now shown.now waits.now) }
{
    let mut rest = waits;
    while let [first, behind @ ..] = rest {
        put_wait(out, scale, marks, shown, first)?;
        rest = behind;
    }
    Ok(())
}
