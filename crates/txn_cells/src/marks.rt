//! Marks of those at a key whose content stands out, so that they are found without going through
//! all that have a place there.
ghost use Rattle.std.specs.Prelude.{◌≡◌, ◌≤◌, ◌<◌, nat_eq, length, vec_capacity, OnOk, ℕ};
ghost use Rattle.std.specs.List.{list_any};
ghost use Rattle.std.specs.List.Sorted.{IsStrictlyIncreasing};
ghost use Rattle.txn_cells.specs.Kept.{HasMarks, HasMarksPastFew, few, stands, is_outstanding};

use crate::cells::Cells;
use crate::inherit::Inherit;
use serial_spec::NoMemory;
use txn_tree::TxnNo;

/// So few are gone through one by one, and no marks are kept of them.
pub(crate) const FEW: usize = 4;

// Whether there is something that stands out.
fn stands_out<V: Inherit>(content: Option<V>) -> bool
    ensures { result ≡ stands V.outstanding content }
{
    match content {
        Some(value) => value.stands_out(),
        None => false,
    }
}

// Marks those whose content stands out, and no others. There is room to mark all of them, and one
// more.
fn mark_all<V: Inherit>(marked: &mut Vec<TxnNo>, cells: &Cells<V>) -> Result<(), NoMemory>
    ensures rising { OnOk result (IsStrictlyIncreasing marked.new.items) }
    ensures each { OnOk result ((u : ℕ) → list_any (nat_eq u) marked.new.items
        ≡ is_outstanding V.outstanding cells.now u) }
    ensures room { OnOk result (length cells.now < vec_capacity marked.new) }
{
    let numbers = cells.numbers();
    marked.clear();
    marked.reserve(numbers.len() + 1)?;
    for txn in numbers {
        if stands_out(cells.get(*txn)) {
            marked.push(*txn).unwrap();
        }
    }
    Ok(())
}

/// Makes ready for one transaction more. If there will be more than a few, those of these whose
/// content stands out are marked, and there is room to mark all.
pub(crate) fn make_room_to_mark<V: Inherit>(
    marked: &mut Vec<TxnNo>,
    cells: &Cells<V>,
) -> Result<(), NoMemory>
    requires { HasMarksPastFew V.outstanding cells.now marked.old.items (vec_capacity marked.old) }
    ensures kept { HasMarksPastFew V.outstanding cells.now
        marked.new.items (vec_capacity marked.new) }
    ensures marks { OnOk result (few ≤ length cells.now → HasMarks V.outstanding
        cells.now marked.new.items (vec_capacity marked.new)) }
    ensures room { OnOk result (few ≤ length cells.now →
        length cells.now < vec_capacity marked.new) }
{
    let count = cells.len();
    if count < FEW {
        return Ok(());
    }
    if count == FEW {
        return mark_all(marked, cells);
    }
    marked.reserve(count + 1)?;
    Ok(())
}
