//! A write to the rows of one tree, so that the four kinds share the steps around it.

ghost use Rattle.std.specs.Prelude.{◌≡◌, ◌≤◌, length, IfOk, OnErr};

use crate::rows::{Change, delete, empty, insert, put, remove};
use slot_list::SlotList;
use sqlite_value::keys::Order;
use sqlite_value::row::Row;
use std::alloc::{AllocError, Global};

// A copy of the row, made over a spare one where there is one, so that it allocates only to grow.
fn copied(alloc: Global, spare: &mut Vec<Row>, row: &Row) -> Result<Row, AllocError>
    ensures { IfOk result (λ copy. copy ≡ row.now) }
{
    let mut copy = match spare.pop() {
        Some(old) => old,
        None => Row::new(alloc),
    };
    copy.copy_from(row)?;
    Ok(copy)
}

#[derive(Clone, Copy)]
pub(crate) enum Edit<'a> {
    Put(&'a Row),
    Delete(i64),
    Insert(Order, &'a Row),
    Remove(Order, &'a Row),
    Empty,
}

impl Edit<'_> {
    ghost use Rattle.row_store.specs.inner.Edit.{edited, Suits};
    ghost use Rattle.row_store.specs.Undo.{IsUndoneBy};

    fn make(
        self,
        alloc: Global,
        rows: &mut SlotList<Row>,
        spare: &mut Vec<Row>,
        near: &mut usize,
    ) -> Result<Change, AllocError>
        requires { Suits self rows.old.items }
        ensures ok { IfOk result (λ change. (rows.new.items ≡ edited self.entry rows.old.items)
            × IsUndoneBy change rows.new.items rows.old.items) }
        ensures err { OnErr result (rows.new.items ≡ rows.old.items) }
        ensures room { rows.old.capacity ≤ rows.new.capacity }
    {
        match self {
            Edit::Put(row) => put(rows, near, copied(alloc, spare, row)?),
            Edit::Delete(id) => Ok(delete(alloc, rows, near, id)),
            Edit::Insert(order, entry) => {
                insert(rows, near, order, copied(alloc, spare, entry)?)
            }
            Edit::Remove(order, entry) => Ok(remove(alloc, rows, near, order, entry)),
            Edit::Empty => empty(alloc, rows),
        }
    }

    pub(crate) fn apply(
        self,
        alloc: Global,
        rows: &mut SlotList<Row>,
        spare: &mut Vec<Row>,
        near: &mut usize,
    ) -> Result<Change, AllocError>
        requires { Suits self rows.old.items }
        ensures ok { IfOk result (λ change. (rows.new.items ≡ edited self.entry rows.old.items)
            × IsUndoneBy change rows.new.items rows.old.items) }
        ensures err { OnErr result (rows.new.items ≡ rows.old.items) }
        ensures room { rows.old.capacity ≤ rows.new.capacity }
        ensures within { length rows.new.items ≤ rows.new.capacity }
    {
        let made = self.make(alloc, rows, spare, near);
        // The length tells the prover that the rows have room.
        let _len = rows.len();
        made
    }
}
