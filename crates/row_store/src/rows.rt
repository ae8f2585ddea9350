//! The writes to the rows of one tree, and what undoes them. A search begins at the place near which
//! the row is likely to stand.

ghost use Rattle.std.specs.Prelude.{◌≡◌, ◌≤◌, ◌+◌, ◌++◌, [], length, IfOk, OnErr};
ghost use Rattle.sqlite_trees.specs.Tree.{put_row, without_rowid, insert_entry, remove_entry};
ghost use Rattle.sqlite_trees.specs.View.{IsShaped, Finds};
ghost use Rattle.sqlite_trees.specs.declared.store.Shape.TheVariants as shape;
ghost use Rattle.row_store.specs.Undo.{reverted, IsRevertible, IsUndoneBy};

use crate::probe::{Probe, has_entry_at, has_rowid_at, place_of_rowid};
use slot_list::SlotList;
use sqlite_value::keys::Order;
use sqlite_value::row::Row;
use sqlite_value::value::ValueRef;
use std::alloc::{AllocError, Global};

/// What a write did to the rows of a tree.
#[derive(Drop)]
pub(crate) enum Change {
    Nothing,
    /// A new row stands at this place.
    Inserted(usize),
    /// This row stood at this place, where another stands now.
    Replaced(usize, Row),
    /// This row stood before this place, and is gone.
    Removed(usize, Row),
    /// These rows stood here, and none is left.
    Emptied(Vec<Row>),
}

// Puts the rows behind the others.
fn put_back(rows: &mut SlotList<Row>, mut taken: Vec<Row>)
    requires { length rows.old.items + length taken.items ≤ rows.old.capacity }
    ensures rows { rows.new.items ≡ rows.old.items ++ taken.items }
    ensures room { rows.old.capacity ≤ rows.new.capacity }
{
    while !taken.is_empty() {
        let row = taken.remove(0);
        let end = rows.len();
        rows.insert_reserved(end, row);
    }
}

/// The rows as they were before the change.
pub(crate) fn revert(alloc: Global, rows: &mut SlotList<Row>, change: Change)
    requires fits { IsRevertible change rows.old.items }
    requires room { length (reverted change rows.old.items) ≤ rows.old.capacity }
    ensures rows { rows.new.items ≡ reverted change rows.old.items }
    ensures room { rows.old.capacity ≤ rows.new.capacity }
{
    match change {
        Change::Nothing => {}
        Change::Inserted(at) => {
            let _ = rows.remove(at, Row::new(alloc));
        }
        Change::Replaced(at, row) => {
            let _ = rows.replace(at, row);
        }
        Change::Removed(at, row) => rows.insert_reserved(at, row),
        Change::Emptied(taken) => put_back(rows, taken),
    }
}

/// Writes the row that has the rowid over `row`, or answers false.
pub(crate) fn get(
    rows: &SlotList<Row>,
    near: &mut usize,
    id: i64,
    row: &mut Row,
) -> Result<bool, AllocError>
    requires { IsShaped shape.Table rows.now.items }
    ensures { IfOk result (Finds rows.now.items id row.new) }
{
    let at = place_of_rowid(rows, near, ValueRef::Int(id));
    if has_rowid_at(rows, at, ValueRef::Int(id)) {
        row.copy_from(rows.at(at))?;
        Ok(true)
    } else {
        Ok(false)
    }
}

/// Puts the row in its place, or in the place of the one that has its rowid.
pub(crate) fn put(
    rows: &mut SlotList<Row>,
    near: &mut usize,
    new: Row,
) -> Result<Change, AllocError>
    requires { IsShaped shape.Table rows.old.items }
    ensures ok { IfOk result (λ _. rows.new.items ≡ put_row new rows.old.items) }
    ensures undone { IfOk result (λ change. IsUndoneBy change rows.new.items rows.old.items) }
    ensures err { OnErr result (rows.new.items ≡ rows.old.items) }
    ensures room { rows.old.capacity ≤ rows.new.capacity }
{
    let at = place_of_rowid(rows, near, new.get(0));
    if has_rowid_at(rows, at, new.get(0)) {
        let old = rows.replace(at, new);
        return Ok(Change::Replaced(at, old));
    }
    rows.insert(at, new)?;
    Ok(Change::Inserted(at))
}

/// Takes all rows.
pub(crate) fn empty(alloc: Global, rows: &mut SlotList<Row>) -> Result<Change, AllocError>
    ensures ok { IfOk result (λ _. rows.new.items ≡ []) }
    ensures undone { IfOk result (λ change. IsUndoneBy change rows.new.items rows.old.items) }
    ensures err { OnErr result (rows.new.items ≡ rows.old.items) }
    ensures room { rows.old.capacity ≤ rows.new.capacity }
{
    let mut taken = Vec::new(alloc);
    taken.reserve(rows.len())?;
    while !rows.is_empty() {
        taken.push_reserved(rows.remove(0, Row::new(alloc)));
    }
    Ok(Change::Emptied(taken))
}

/// Takes the row that has the rowid.
pub(crate) fn delete(alloc: Global, rows: &mut SlotList<Row>, near: &mut usize, id: i64) -> Change
    requires { IsShaped shape.Table rows.old.items }
    ensures rows { rows.new.items ≡ without_rowid id rows.old.items }
    ensures undone { IsUndoneBy result rows.new.items rows.old.items }
    ensures room { rows.old.capacity ≤ rows.new.capacity }
{
    let at = place_of_rowid(rows, near, ValueRef::Int(id));
    if has_rowid_at(rows, at, ValueRef::Int(id)) {
        Change::Removed(at, rows.remove(at, Row::new(alloc)))
    } else {
        Change::Nothing
    }
}

/// Puts the entry in its place, unless an equal one is there.
pub(crate) fn insert(
    rows: &mut SlotList<Row>,
    near: &mut usize,
    order: Order,
    new: Row,
) -> Result<Change, AllocError>
    requires { IsShaped (shape.Index order) rows.old.items }
    ensures ok { IfOk result (λ _. rows.new.items ≡ insert_entry order new rows.old.items) }
    ensures undone { IfOk result (λ change. IsUndoneBy change rows.new.items rows.old.items) }
    ensures err { OnErr result (rows.new.items ≡ rows.old.items) }
    ensures room { rows.old.capacity ≤ rows.new.capacity }
{
    let at = Probe::BelowEntry(order, &new).place(rows, near);
    if has_entry_at(order, rows, at, &new) {
        return Ok(Change::Nothing);
    }
    rows.insert(at, new)?;
    Ok(Change::Inserted(at))
}

/// Takes the entry.
pub(crate) fn remove(
    alloc: Global,
    rows: &mut SlotList<Row>,
    near: &mut usize,
    order: Order,
    entry: &Row,
) -> Change
    requires { IsShaped (shape.Index order) rows.old.items }
    ensures rows { rows.new.items ≡ remove_entry order entry.now rows.old.items }
    ensures undone { IsUndoneBy result rows.new.items rows.old.items }
    ensures room { rows.old.capacity ≤ rows.new.capacity }
{
    let at = Probe::BelowEntry(order, entry).place(rows, near);
    if has_entry_at(order, rows, at, entry) {
        Change::Removed(at, rows.remove(at, Row::new(alloc)))
    } else {
        Change::Nothing
    }
}
