//! A store of results over a database in memory.
ghost use Rattle.std.specs.Prelude.{◌≡◌, ℕ, List, None, false, IfOk, if◌then◌else◌};
ghost use Rattle.serial_spec.specs.Rows.{value_in};
ghost use Rattle.durable_top.specs.Numbers.{IsTopIn};
ghost use Rattle.row_store.specs.Steps.{over_memory};
ghost use Rattle.sql_store.specs.Stored.{numbered, table, may_leave, may_leave_numbered, SqlLoads, SqlCommits};
ghost use Rattle.sql_store.specs.Opening.{IsMadeInMemory};

use crate::store::SqlStore;
use durable_top::{Row, StoreFault, TopStore};
use row_store::RowStore;
use serial_spec::NoMemory;
use std::alloc::{AllocError, Global};
use std::marker::Model;
use txn_names::Change;

/// The table of a database in memory. There is no device that could give back something else than
/// was written, so that what is said of the table always holds.
#[derive(Drop)]
pub struct MemoryStore {
    store: SqlStore<RowStore>,
}

impl Model for MemoryStore {
    ghost use Rattle.std.specs.Prelude.{IsTrue};
    ghost use Rattle.row_store.specs.declared.store.RowStore.{RowStore};
    ghost use Rattle.row_store.specs.contracts.store.RowStore as trees;
    ghost use Rattle.sql_store.specs.Stored.{Stored, stored_code};

    ghost Value = { Stored RowStore };

    ghost coded = { stored_code trees.the_row.coded };

    ghost view = { λ s. s.store };

    ghost invariant = { λ s. IsTrue s.store.is_known };
}

impl MemoryStore {
    /// A store without rows. The only error is that memory runs out: what opens an empty database
    /// in memory asks for nothing else.
    pub fn new(alloc: Global) -> Result<MemoryStore, NoMemory>
        ensures empty { IfOk result (λ store. (k : List ℕ)
            → numbered over_memory store.connection k ≡ None) }
        ensures made { IfOk result IsMadeInMemory }
        ensures greatest { IfOk result (λ store. IsTopIn (value_in store.numbers) store.top) }
        ensures limit { IfOk result (λ store. store.connection.step_limit ≡ None) }
        ensures faults { IfOk result (λ store. store.faults ≡ 0) }
        ensures sound { IfOk result (λ store. store.has_failed ≡ false) }
    {
        match SqlStore::in_memory(alloc) {
            Ok(store) => Ok(MemoryStore { store }),
            Err(_) => Err(AllocError),
        }
    }
}

impl TopStore for MemoryStore {
    ghost table = { λ s. table over_memory s.connection };

    ghost numbered = { λ s. numbered over_memory s.connection };

    ghost doubt = { λ _. 0 };

    ghost failures = { λ s. if s.has_failed then 1 else 0 };

    ghost faults = { λ s. s.faults };

    ghost may_leave = { λ s left. may_leave over_memory s.connection left };

    ghost may_leave_numbered = { λ s left. may_leave_numbered over_memory s.connection left };

    ghost loads = { SqlLoads over_memory };

    ghost commits = { SqlCommits over_memory };

    fn load(&mut self, alloc: Global) -> Result<Vec<Row>, StoreFault> {
        self.store.load(alloc)
    }

    fn commit(&mut self, changes: &[Change]) -> Result<(), StoreFault> {
        self.store.commit(changes)
    }

    fn failures(&self) -> u64 {
        self.store.failures()
    }

    fn faults(&self) -> u64 {
        self.store.faults()
    }
}
