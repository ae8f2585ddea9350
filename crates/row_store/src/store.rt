//! The store: the trees, what undoes the writes of the transaction, and the cursors.

ghost use Rattle.std.specs.Prelude.{◌≡◌, ◌≢◌, ◌<◌, ◌≤◌, ◌-◌, ℕ, [], length, map, take, drop, set, slice_index, All, IfOk, IfErr, OnOk, OnErr};
ghost use Rattle.sqlite_trees.specs.Tree.{order_of, sought};
ghost use Rattle.sqlite_trees.specs.View.{IsShaped, IsFailure, OnlyWrites, SetsTree};
ghost use Rattle.sqlite_trees.specs.Listing.{shape_in};
ghost use Rattle.row_store.specs.Heading.{heading};
ghost use Rattle.row_store.specs.Path.{IsPath};

use crate::edit::Edit;
use crate::log::{Head, Undo};
use crate::probe::{Probe, place_up_to_key};
use crate::rows::{Change, revert};
use slot_list::SlotList;
use sqlite_trees::error::StoreError;
use sqlite_trees::schema::Object;
use sqlite_trees::store::{Direction, Shape};
use sqlite_value::row::Row;
use std::alloc::{AllocError, Global};
use std::mem;

/// How many trees a store holds at most, absent ones among them.
pub(crate) const TREES: usize = 16;

/// Forward it has the rows from `at` on left, and backward those before `at`.
#[derive(Clone, Copy)]
pub(crate) struct Cursor {
    pub tree: usize,
    pub at: usize,
    pub direction: Direction,
}

/// Rows in memory, under the SQL of `sqlite`. Each tree is a list of rows in order, of which none
/// moves where another comes or goes. A write is made at once, and what undoes it stands in a log
/// until the commit. It holds at most 16 trees: a further one is answered as memory that is refused.
#[derive(Drop)]
pub struct RowStore {
    pub(crate) alloc: Global,
    pub(crate) headings: Vec<Head>,
    pub(crate) rows: Vec<SlotList<Row>>,
    pub(crate) version: u32,
    pub(crate) cursors: Vec<Option<Cursor>>,
    /// In each tree the place that the last search found, where the next one begins.
    pub(crate) places: [usize; TREES],
    pub(crate) log: Vec<Undo>,
    /// The length of the log at each savepoint.
    pub(crate) marks: Vec<usize>,
    /// Rows that a commit let go. Copies are made over them.
    pub(crate) spare: Vec<Row>,
    ghost within: { All (λ n. n ≤ length log.items) marks.items },
    ghost rising: { (i j : ℕ) → i ≤ j → j < length marks.items
        → slice_index marks.items i ≤ slice_index marks.items j },
    ghost path: { ∥ IsPath (map (λ v. v.capacity) rows.items) log.items (record {
      headings = map heading headings.items;
      rows = map (λ v. v.items) rows.items;
      version = version;
    }) ∥₁ },
}

impl RowStore {
    ghost use Rattle.sqlite_trees.specs.Objects.{version_tree, version_rows, description};
    ghost use Rattle.row_store.specs.inner.Edit.{edited, Suits, IsFor};
    ghost use Rattle.row_store.specs.Path.{undone};
    ghost use Rattle.row_store.specs.RowView.{now, rows_in, left_of, row_view, SetsCursor, Steps, Leads};
    ghost use Rattle.row_store.specs.inner.Edit.{EditsRows, HasRoomOf};
    ghost use Rattle.row_store.specs.Undo.{reverted, IsRevertible};

    /// A store without rows.
    pub fn new(alloc: Global) -> Result<RowStore, AllocError>
        ensures empty { IfOk result (λ s. (t : ℕ) → t ≢ version_tree
            → (row_view s).trees t ≡ []) }
        ensures version { IfOk result (λ s.
            (row_view s).trees version_tree ≡ version_rows 0) }
        ensures clean { IfOk result (λ s. (row_view s).trees ≡ (row_view s).committed) }
        ensures unmarked { IfOk result (λ s. (row_view s).marks ≡ []) }
    {
        let mut headings = Vec::new(alloc);
        let mut rows = Vec::new(alloc);
        for _ in 0..TREES {
            headings.push(Head::absent(alloc))?;
            rows.push(SlotList::new(alloc))?;
        }
        Ok(RowStore {
            alloc,
            headings,
            rows,
            version: 0,
            cursors: Vec::new(alloc),
            places: [0; TREES],
            log: Vec::new(alloc),
            marks: Vec::new(alloc),
            spare: Vec::new(alloc),
        })
    }

    /// What the number names.
    pub(crate) fn shape_at(&self, tree: usize) -> Shape
        ensures { result ≡ shape_in (now self.now).headings tree }
    {
        self.headings
            .get(tree)
            .map_or(Shape::Absent, |head| head.shape)
    }

    /// Where a seek begins: at the place that the last search found, or backward at the end.
    pub(crate) fn near(&self, tree: usize, direction: Direction) -> usize {
        match direction {
            Direction::Forward if tree < TREES => self.places[tree],
            Direction::Forward => 0,
            Direction::Backward => usize::MAX,
        }
    }

    /// Keeps the place that a search in the tree found.
    pub(crate) fn keep_place(places: &mut [usize; TREES], tree: usize, place: usize) {
        if tree < TREES {
            places[tree] = place;
        }
    }

    /// The cursor of a seek.
    pub(crate) fn placed(
        &self,
        near: &mut usize,
        tree: usize,
        key: &Row,
        direction: Direction,
    ) -> Cursor
        // Wide: the rows, the index and what undoes the write.
        ensures { left_of (now self.now).rows result
            ≡ sought (order_of (shape_in (now self.now).headings tree)) direction key.now
            (rows_in (now self.now).rows tree) }
    {
        let order = self.shape_at(tree).order();
        let Some(rows) = self.rows.get(tree) else {
            return Cursor {
                tree,
                at: 0,
                direction,
            };
        };
        let at = match direction {
            Direction::Forward => Probe::BelowKey(order, key).place(rows, near),
            Direction::Backward => place_up_to_key(order, key, rows, near),
        };
        Cursor {
            tree,
            at,
            direction,
        }
    }

    pub(crate) fn set_cursor(
        cursors: &mut Vec<Option<Cursor>>,
        at: usize,
        cursor: Cursor,
    ) -> Result<(), AllocError>
        ensures ok { OnOk result (SetsCursor cursors.old.items cursors.new.items at cursor) }
    {
        while cursors.len() <= at {
            cursors.push(None)?;
        }
        cursors[at] = Some(cursor);
        Ok(())
    }

    /// The cursor after it has given a row, or `None` at its end.
    pub(crate) fn step(&self, cursor: Cursor, row: &mut Row) -> Result<Option<Cursor>, AllocError>
        ensures { IfOk result (Steps (now self.now).rows cursor row.new) }
    {
        let Some(rows) = self.rows.get(cursor.tree) else {
            return Ok(None);
        };
        match cursor.direction {
            Direction::Forward if cursor.at < rows.len() => {
                row.copy_from(rows.at(cursor.at))?;
                Ok(Some(Cursor {
                    at: cursor.at + 1,
                    ..cursor
                }))
            }
            Direction::Backward if 0 < cursor.at.min(rows.len()) => {
                let at = cursor.at.min(rows.len()) - 1;
                row.copy_from(rows.at(at))?;
                Ok(Some(Cursor { at, ..cursor }))
            }
            _ => Ok(None),
        }
    }

    fn edit_rows(
        alloc: Global,
        rows: &mut Vec<SlotList<Row>>,
        spare: &mut Vec<Row>,
        near: &mut usize,
        tree: usize,
        edit: Edit<'_>,
    ) -> Result<Change, AllocError>
        requires within { tree < length rows.old.items }
        requires suits { Suits edit (rows_in (map (λ v. v.items) rows.old.items) tree) }
        ensures ok { IfOk result (λ change.
            EditsRows edit.entry tree change rows.old.items rows.new.items) }
        ensures err { OnErr result (map (λ v. v.items) rows.new.items
            ≡ map (λ v. v.items) rows.old.items) }
        ensures room { HasRoomOf rows.old.items rows.new.items }
    {
        edit.apply(alloc, &mut rows[tree], spare, near)
    }

    /// Makes one write, and notes what undoes it.
    pub(crate) fn write(&mut self, tree: u32, edit: Edit<'_>) -> Result<(), StoreError>
        requires within { tree < 16 }
        requires shape { IsFor edit (shape_in (now self.old).headings tree) }
        // Wide: the rows, the index and what undoes the write.
        ensures ok { OnOk result (Leads self.old self.new (record (now self.old) {
          rows = set (now self.old).rows tree
              (edited edit.entry (rows_in (now self.old).rows tree));
        })) }
        ensures err { OnErr result (Leads self.old self.new (now self.old)) }
        ensures memory { IfErr result (λ e. e ≡ StoreError.OutOfMemory) }
    {
        self.log.reserve(1)?;
        let near = &mut self.places[tree as usize];
        let (rows, spare) = (&mut self.rows, &mut self.spare);
        let change = Self::edit_rows(self.alloc, rows, spare, near, tree as usize, edit)?;
        self.log.push_reserved(Undo::Rows(tree as usize, change));
        self.cursors.clear();
        Ok(())
    }

    /// Makes one write to a tree that is there.
    pub(crate) fn alter(&mut self, tree: u32, edit: Edit<'_>) -> Result<(), StoreError>
        requires present { (row_view self.old).shape tree ≢ Shape.Absent }
        requires shape { IsFor edit ((row_view self.old).shape tree) }
        ensures ok { OnOk result (SetsTree (row_view self.old) (row_view self.new) tree
            (edited edit.entry)) }
        ensures frame { OnlyWrites (row_view self.old) (row_view self.new) }
        ensures err { IfErr result (IsFailure (row_view self.old) (row_view self.new)) }
        ensures memory { IfErr result (λ e. e ≡ StoreError.OutOfMemory) }
    {
        self.write(tree, edit)
    }

    /// Lists the tree otherwise, where its rows suit the new shape.
    pub(crate) fn relabel(&mut self, tree: u32, head: Head) -> Result<(), StoreError>
        requires { tree < 16 → IsShaped head.shape (rows_in (now self.old).rows tree) }
        ensures within { OnOk result (tree < 16) }
        ensures ok { OnOk result (Leads self.old self.new (record (now self.old) {
          headings = set (now self.old).headings tree (heading head);
        })) }
        ensures err { OnErr result (Leads self.old self.new (now self.old)) }
        ensures memory { IfErr result (λ e. e ≡ StoreError.OutOfMemory) }
    {
        let at = tree as usize;
        if at >= TREES {
            return Err(StoreError::OutOfMemory);
        }
        self.log.reserve(1)?;
        let old = mem::replace(&mut self.headings[at], head);
        self.log.push_reserved(Undo::Listed(at, old));
        self.cursors.clear();
        Ok(())
    }

    // Lists the tree as this object, which has its shape.
    pub(crate) fn relist_one(&mut self, change: &(u32, Object<'_>)) -> Result<(), StoreError>
        requires { shape_in (now self.old).headings change.now.0 ≡ change.now.1.shape }
        ensures within { OnOk result (change.now.0 < 16) }
        // Wide: the rows, the index and what undoes the write.
        ensures ok { OnOk result (Leads self.old self.new (record (now self.old) {
          headings = set (now self.old).headings change.now.0
              (change.now.1.shape, change.now.1.reals, description change.now.1);
        })) }
        ensures err { OnErr result (Leads self.old self.new (now self.old)) }
    {
        let (tree, object) = change;
        let head = Head::new(self.alloc, object)?;
        self.relabel(*tree, head)
    }

    fn undo_rows(alloc: Global, rows: &mut Vec<SlotList<Row>>, tree: usize, change: Change)
        requires within { tree < length rows.old.items }
        requires fits { IsRevertible change (rows_in (map (λ v. v.items) rows.old.items) tree) }
        // Wide: the rows, the index and what undoes the write.
        requires room { length (reverted change (rows_in (map (λ v. v.items) rows.old.items) tree))
            ≤ slice_index (map (λ v. v.capacity) rows.old.items) tree }
        // Wide: the rows, the index and what undoes the write.
        ensures rows { map (λ v. v.items) rows.new.items
            ≡ set (map (λ v. v.items) rows.old.items) tree
            (reverted change (rows_in (map (λ v. v.items) rows.old.items) tree)) }
        ensures room { HasRoomOf rows.old.items rows.new.items }
    {
        revert(alloc, &mut rows[tree], change);
    }

    // What undoes the newest write is made.
    fn undo_last(&mut self)
        requires { All (λ n. n ≤ length self.old.log.items - 1) self.old.marks.items }
        ensures log { self.new.log.items
            ≡ take (length self.old.log.items - 1) self.old.log.items }
        ensures state { now self.new
            ≡ undone (drop (length self.old.log.items - 1) self.old.log.items) (now self.old) }
        ensures marks { self.new.marks ≡ self.old.marks }
    {
        match self.log.pop() {
            None => {}
            Some(Undo::Rows(tree, change)) => {
                Self::undo_rows(self.alloc, &mut self.rows, tree, change)
            }
            Some(Undo::Listed(tree, head)) => self.headings[tree] = head,
            Some(Undo::Version(version)) => self.version = version,
        }
    }

    /// Ends the log, whose rows are kept as spare ones.
    pub(crate) fn end_log(spare: &mut Vec<Row>, log: &mut Vec<Undo>)
        ensures { log.new.items ≡ [] }
    {
        while log.len() > 0 {
            if let Some(undo) = log.pop() {
                undo.spare_row(spare);
            }
        }
    }

    /// Undoes each write but the first `kept`.
    pub(crate) fn undo_to(&mut self, kept: usize)
        requires { All (λ n. n ≤ kept) self.old.marks.items }
        ensures log { self.new.log.items ≡ take kept self.old.log.items }
        ensures state { now self.new ≡ undone (drop kept self.old.log.items) (now self.old) }
        ensures marks { self.new.marks ≡ self.old.marks }
    {
        while self.log.len() > kept {
            self.undo_last();
        }
    }
}
