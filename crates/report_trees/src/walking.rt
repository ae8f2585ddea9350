//! The transactions in the order of the tree.
ghost use Rattle.std.specs.Prelude.{◌≡◌, ◌<◌, ◌+◌, ◌^◌, [], ◌++◌, ℕ, List, length, reverse, slice_get, unwrap_or, IfOk, OnOk};
ghost use Rattle.report_trees.specs.inner.Linked.{AreTold, IsLinked};
ghost use Rattle.report_trees.specs.Telling.{told_of, waits_in};
ghost use Rattle.report_trees.specs.Trees.{tree_below, tree_of};

use crate::links::{Links, first_of, links_of, next_of, places_of};
use crate::outcomes::{Shown, shown_of, undone_at};
use crate::telling::{Telling, Told, told_of};
use report_marks::Notes;
use serial_spec::NoMemory;
use std::alloc::Global;
use txn_names::MOST_LABELS;

/// What became of the transactions of a report.
#[derive(Drop)]
pub struct Tree {
    /// Each once: those below one behind it, siblings in order of beginning.
    pub shown: Vec<Shown>,
    /// What was told of them by their numbers, and which of their accesses waited.
    pub telling: Telling,
}

fn told_at(told: &[Told], number: usize) -> Told
    ensures { result ≡ unwrap_or (slice_get told.now number) (told_of 0 [] 0) }
{
    match told.get(number) {
        Some(told) => *told,
        None => Told::none(),
    }
}

// Adds those below this place, at this level and so many more, where the parent was undone by this
// entry, if it was.
fn walk(
    told: &[Told],
    links: &Links,
    more: usize,
    level: usize,
    place: usize,
    above: Option<usize>,
    out: &mut Vec<Shown>,
) -> Result<(), NoMemory>
    requires { level + more < 2 ^ 63 }
    // Wide: it is over all places that the links may be of, and over all that may be told.
    ensures { OnOk result ((places : List ℕ) (tells : ℕ → Told) → IsLinked places links.now
        → AreTold tells (length places) told.now
        → out.new.items ≡ out.old.items ++ tree_below tells places more level place above) }
{
    if more == 0 {
        return Ok(());
    }
    let mut child = first_of(&links.first, place);
    'children: while let Some(number) = child {
        let own = told_at(told, number);
        out.push(shown_of(number, level, &own, above))?;
        let undone = undone_at(own.aborted, above);
        let below = number.saturating_add(1);
        walk(told, links, more - 1, level + 1, below, undone, out)?;
        child = next_of(&links.next, number);
    }
    Ok(())
}

/// What became of each transaction of these notes. The only error is that memory runs out.
pub fn tree_of(alloc: Global, notes: &Notes) -> Result<Tree, NoMemory>
    ensures shown { IfOk result (λ t.
        t.shown.items ≡ tree_of notes.now.names.keys notes.now.marks.items) }
    ensures waits { IfOk result (λ t.
        t.telling.waits.items ≡ reverse (waits_in 0 notes.now.marks.items)) }
{
    let places = places_of(alloc, &notes.names)?;
    let links = links_of(alloc, &places)?;
    let telling = told_of(alloc, &notes.marks, places.len())?;
    let mut shown = Vec::new(alloc);
    walk(&telling.told, &links, MOST_LABELS, 0, 0, None, &mut shown)?;
    Ok(Tree { shown, telling })
}
