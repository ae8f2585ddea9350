//! One line for each transaction that is shown.
ghost use Rattle.std.specs.Prelude.{◌≡◌, ◌++◌, OnOk};
ghost use Rattle.tree_lines.specs.Lines.{label_at, shown_counts, shown_line};
ghost use Rattle.tree_lines.specs.Shows.{chosen_line, is_chosen, shown_lines};

use crate::counting::{has_undone_below, is_undone};
use crate::naming::put_label;
use crate::spelling::{outcome_words, put_bytes, put_counted, put_indent};
use indexmap::IndexSet;
use report_trees::Shown;
use serial_spec::NoMemory;
use std::alloc::Global;
use txn_names::Name;

/// Which transactions are shown: all, but for those that this leaves out.
#[derive(Clone, Copy, Debug, PartialEq, Eq)]
pub struct Choice {
    /// The top-level ones alone.
    pub jobs: bool,
    /// Those alone that were undone, and their ancestors.
    pub undone: bool,
}

// Whether the transaction is shown, of which these stand behind it.
fn is_chosen(choice: Choice, shown: &Shown, behind: &[Shown]) -> bool
    ensures { result ≡ is_chosen choice shown.now behind.now }
{
    (!choice.jobs || shown.level == 0)
        && (!choice.undone || (is_undone(shown) || has_undone_below(shown.level, behind)))
}

// Adds the label of the transaction with this number.
fn put_label_at(
    alloc: Global,
    out: &mut Vec<u8>,
    names: &IndexSet<Name>,
    number: usize,
) -> Result<(), NoMemory>
    ensures { OnOk result (out.new.items ≡ out.old.items ++ label_at names.now.keys number) }
{
    match names.get_index(number) {
        Some(name) => put_label(alloc, out, name),
        None => Ok(()),
    }
}

// Adds what became of the transaction, and the counts.
fn put_counts(out: &mut Vec<u8>, shown: &Shown) -> Result<(), NoMemory>
    ensures { OnOk result (out.new.items ≡ out.old.items ++ shown_counts shown.now) }
{
    put_bytes(out, b": ")?;
    put_bytes(out, outcome_words(shown.outcome))?;
    put_counted(out, b"; accesses ", shown.accesses)?;
    put_counted(out, b"; waits ", shown.waits)?;
    put_counted(out, b" over ", shown.waited)?;
    put_bytes(out, b" entries\n")
}

// Adds the line of the transaction.
fn put_shown(
    alloc: Global,
    out: &mut Vec<u8>,
    names: &IndexSet<Name>,
    shown: &Shown,
) -> Result<(), NoMemory>
    ensures { OnOk result (out.new.items ≡ out.old.items ++ shown_line names.now.keys shown.now) }
{
    put_indent(out, shown.level)?;
    put_label_at(alloc, out, names, shown.number)?;
    put_counts(out, shown)
}

// Adds the line of the transaction where it is shown, of which these stand behind it.
fn put_chosen(
    alloc: Global,
    out: &mut Vec<u8>,
    names: &IndexSet<Name>,
    choice: Choice,
    shown: &Shown,
    behind: &[Shown],
) -> Result<(), NoMemory>
    ensures { OnOk result (out.new.items
        ≡ out.old.items ++ chosen_line choice names.now.keys shown.now behind.now) }
{
    if is_chosen(choice, shown, behind) {
        put_shown(alloc, out, names, shown)
    } else {
        Ok(())
    }
}

/// Adds the lines of the transactions that are shown. The only error is that memory runs out.
pub(crate) fn put_lines(
    alloc: Global,
    out: &mut Vec<u8>,
    names: &IndexSet<Name>,
    choice: Choice,
    shown: &[Shown],
) -> Result<(), NoMemory>
    ensures { OnOk result
        (out.new.items ≡ out.old.items ++ shown_lines choice names.now.keys shown.now) }
{
    let mut rest = shown;
    while let [first, behind @ ..] = rest {
        put_chosen(alloc, out, names, choice, first, behind)?;
        rest = behind;
    }
    Ok(())
}
