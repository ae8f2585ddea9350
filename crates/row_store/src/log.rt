//! What undoes each write of a transaction.

ghost use Rattle.std.specs.Prelude.{◌≡◌, ◌<◌, ◌^◌, take, IfOk};
ghost use Rattle.sqlite_trees.specs.Objects.{description, listing};
ghost use Rattle.sqlite_trees.specs.Listing.{no_heading};

use crate::rows::Change;
use sqlite_trees::schema::Object;
use sqlite_trees::store::Shape;
use sqlite_value::row::Row;
use sqlite_value::value::ValueRef;
use std::alloc::{AllocError, Global};

/// So many spare rows are kept at most.
const SPARE: usize = 256;

/// How a tree is listed: its shape, its REAL columns, and its type, name, table and SQL text.
#[derive(Drop)]
pub(crate) struct Head {
    pub shape: Shape,
    pub reals: u64,
    pub described: Row,
}

impl Head {
    ghost use Rattle.row_store.specs.Heading.{heading};

    pub(crate) fn new(alloc: Global, object: &Object<'_>) -> Result<Head, AllocError>
        ensures { IfOk result (λ head.
            heading head ≡ (object.now.shape, object.now.reals, description object.now)) }
    {
        Ok(Head {
            shape: object.shape,
            reals: object.reals,
            described: object.describe(alloc)?,
        })
    }

    /// That of a number which names no tree.
    pub(crate) fn absent(alloc: Global) -> Head
        ensures { heading result ≡ no_heading }
    {
        Head {
            shape: Shape::Absent,
            reals: 0,
            described: Row::new(alloc),
        }
    }

    /// Its row in the list of objects.
    pub(crate) fn listing(&self, alloc: Global, tree: usize) -> Result<Row, AllocError>
        requires { tree < 2 ^ 62 }
        ensures { IfOk result (λ row.
            row ≡ take 5 (listing tree self.now.described self.now.shape self.now.reals)) }
    {
        let mut row = Row::new(alloc);
        row.push(ValueRef::Int(tree as i64 + 1))?;
        row.push(self.described.get(0))?;
        row.push(self.described.get(1))?;
        row.push(self.described.get(2))?;
        row.push(self.described.get(3))?;
        Ok(row)
    }
}

/// What undoes one write: a change of a tree's rows, or the heading or the version that stood before.
#[derive(Drop)]
pub(crate) enum Undo {
    Rows(usize, Change),
    Listed(usize, Head),
    Version(u32),
}

impl Undo {
    /// Where this has a row, that is kept as a spare one, unless there are enough.
    pub(crate) fn spare_row(self, spare: &mut Vec<Row>) {
        let row = match self {
            Undo::Rows(_, Change::Replaced(_, row)) => row,
            Undo::Rows(_, Change::Removed(_, row)) => row,
            _ => return,
        };
        if spare.len() < SPARE {
            let _ = spare.push(row);
        }
    }
}
