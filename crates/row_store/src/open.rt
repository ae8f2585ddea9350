//! A connection over a store of rows.

ghost use Rattle.std.specs.Prelude.{IfOk};
ghost use Rattle.sqlite.specs.Held.{IsNew, state};
ghost use Rattle.sqlite.specs.Steps.{IsEmpty};
ghost use Rattle.row_store.specs.Steps.{over_memory};

use crate::store::RowStore;
use sqlite::Connection;
use std::alloc::{AllocError, Global};

/// A connection over a store without rows. The only error is that memory runs out: such a store is
/// a database.
pub fn connect(alloc: Global) -> Result<Connection<RowStore>, AllocError>
    ensures empty { IfOk result (λ c. IsEmpty (state over_memory c)) }
    ensures fresh { IfOk result IsNew }
{
    let store = RowStore::new(alloc)?;
    match Connection::over(alloc, store) {
        Ok(connection) => Ok(connection),
        Err(_) => Err(AllocError),
    }
}
