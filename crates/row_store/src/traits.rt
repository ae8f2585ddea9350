//! The store as the layer below SQL.

ghost use Rattle.std.specs.Prelude.{◌≡◌, ◌<◌, ◌≤◌, ◌^◌, ℕ, IsTrue, refl};
ghost use Rattle.std.proofs.Common.{true≢false};
ghost use Rattle.row_store.specs.RowView.{row_view};

use crate::edit::Edit;
use crate::log::{Head, Undo};
use crate::rows::get;
use crate::store::RowStore;
use crate::typed::is_storable;
use sqlite_trees::error::StoreError;
use sqlite_trees::schema::Object;
use sqlite_trees::store::{Alter, Direction, Shape, Store};
use sqlite_value::row::Row;
use sqlite_value::value::ValueRef;
use std::alloc::{AllocError, Global};

impl Store for RowStore {
    ghost use Rattle.row_store.specs.Shown.{store_is_ordered, store_is_unaltered};

    ghost view = { row_view };

    ghost faults = { λ _. 0 };

    ghost recovers = { λ s db. db ≡ (row_view s).committed };

    ghost is_shielded = { λ _. Unit {0} };

    ghost is_step = { λ _ _ _. Unit {0} };

    ghost ordered = { λ s _. store_is_ordered s };

    ghost shut_if_dirty = { λ s dirty. absurd (true≢false dirty) };

    ghost empty_if_dirty = { λ s dirty. absurd (true≢false dirty) };

    ghost broken_if_shut = { λ s shut. absurd (true≢false shut) };

    ghost settled = { λ s db _ same. same };

    ghost stays = { λ s _. refl };

    ghost survives = { λ s _. ∣ (_, refl) ∣₁ };

    ghost unaltered = { λ s _. store_is_unaltered s };

    fn is_broken(&self) -> bool {
        false
    }

    fn tree_count(&self) -> u64 {
        let mut count = (self.headings.len() as u64).min(1 << 32);
        while count > 0 && self.shape((count - 1) as u32) == Shape::Absent {
            count -= 1;
        }
        count
    }

    fn reals(&self, tree: u32) -> u64 {
        self.headings.get(tree as usize).map_or(
            0,
            |head| if head.shape == Shape::Absent {
                0
            } else {
                head.reals
            },
        )
    }

    fn shape(&self, tree: u32) -> Shape {
        self.shape_at(tree as usize)
    }

    fn seek(
        &mut self,
        cursor: u16,
        tree: u32,
        key: &Row,
        direction: Direction,
    ) -> Result<(), StoreError> {
        let mut near = self.near(tree as usize, direction);
        let placed = self.placed(&mut near, tree as usize, key, direction);
        Self::keep_place(&mut self.places, tree as usize, near);
        Ok(Self::set_cursor(&mut self.cursors, usize::from(cursor), placed)?)
    }

    fn next(&mut self, cursor: u16, row: &mut Row) -> Result<bool, StoreError> {
        let at = usize::from(cursor);
        match self.step(self.cursors[at].unwrap(), row)? {
            Some(moved) => {
                self.cursors[at] = Some(moved);
                Ok(true)
            }
            None => Ok(false),
        }
    }

    fn get(&mut self, table: u32, id: i64, row: &mut Row) -> Result<bool, StoreError> {
        let near = &mut self.places[table as usize];
        Ok(get(&self.rows[table as usize], near, id, row)?)
    }

    fn put(&mut self, table: u32, row: &Row) -> Result<(), StoreError> {
        if row.len() < 2 || !is_storable(row, self.reals(table)) {
            return Err(StoreError::Unstorable);
        }
        self.alter(table, Edit::Put(row))
    }

    fn delete(&mut self, table: u32, id: i64) -> Result<(), StoreError> {
        self.alter(table, Edit::Delete(id))
    }

    fn insert(&mut self, index: u32, entry: &Row) -> Result<(), StoreError> {
        if !is_storable(entry, self.reals(index)) {
            return Err(StoreError::Unstorable);
        }
        self.alter(index, Edit::Insert(self.shape(index).order(), entry))
    }

    fn remove(&mut self, index: u32, entry: &Row) -> Result<(), StoreError> {
        self.alter(index, Edit::Remove(self.shape(index).order(), entry))
    }

    fn commit(&mut self) -> Result<(), StoreError> {
        self.marks.clear();
        Self::end_log(&mut self.spare, &mut self.log);
        Ok(())
    }

    fn rollback(&mut self) {
        self.marks.clear();
        self.undo_to(0);
        self.cursors.clear();
    }

    fn savepoint(&mut self) -> Result<(), StoreError> {
        Ok(self.marks.push(self.log.len())?)
    }

    fn release(&mut self) -> Result<(), StoreError> {
        self.marks.pop();
        Ok(())
    }

    fn rollback_to(&mut self) -> Result<(), StoreError> {
        if let Some(&kept) = self.marks.last() {
            self.undo_to(kept);
            self.cursors.clear();
        }
        Ok(())
    }
}

impl Alter for RowStore {
    ghost use Rattle.row_store.specs.Shown.{store_is_listed};

    ghost listed = { λ s _. store_is_listed s };

    fn objects(&self, alloc: Global) -> Result<Vec<Row>, AllocError> {
        let mut rows = Vec::new(alloc);
        for at in 0..self.headings.len() {
            let head = &self.headings[at];
            if head.shape != Shape::Absent {
                rows.push(head.listing(alloc, at)?)?;
            }
        }
        Ok(rows)
    }

    fn create(&mut self, tree: u32, object: &Object<'_>) -> Result<(), StoreError> {
        let head = Head::new(self.alloc, object)?;
        self.relabel(tree, head)
    }

    fn destroy(&mut self, tree: u32) -> Result<(), StoreError> {
        let from = self.log.len();
        self.write(tree, Edit::Empty)?;
        let listed = self.relabel(tree, Head::absent(self.alloc));
        if listed.is_err() {
            self.undo_to(from);
        }
        listed
    }

    fn version(&self) -> u32 {
        self.version
    }

    fn set_version(&mut self, version: u32) -> Result<(), StoreError> {
        self.log.reserve(1)?;
        self.log.push_reserved(Undo::Version(self.version));
        self.version = version;
        Ok(())
    }

    fn relist(&mut self, changes: &[(u32, Object<'_>)]) -> Result<(), StoreError> {
        let from = self.log.len();
        for change in changes {
            if self.relist_one(change).is_err() {
                self.undo_to(from);
                return Err(StoreError::OutOfMemory);
            }
        }
        Ok(())
    }
}
