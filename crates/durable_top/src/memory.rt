//! A store in memory.
ghost use Rattle.std.specs.Prelude.{◌≡◌, ◌≤◌, ◌↔◌, ℕ, if◌then◌else◌, IfOk};
ghost use Rattle.serial_spec.specs.Changes.{AreRising, overlay};
ghost use Rattle.serial_spec.specs.Rows.{IsRising, value_in};
ghost use Rattle.durable_top.specs.Store.{plain};
ghost use Rattle.durable_top.specs.Numbered.{entries_in, AreNumbered};
ghost use Rattle.durable_top.specs.Memory.{fresh, planned, MemoryLoads, MemoryCommits};

use crate::row_table::RowTable;
use crate::store::{Row, StoreFault, TopStore};
use serial_spec::NoMemory;
use std::alloc::Global;
use std::marker::Model;
use txn_names::Change;

/// A table in memory. It faults when memory runs out, and as it is planned (`refusing`, `failing`).
#[derive(Drop)]
pub struct MemStore {
    table: RowTable,
    faults: u64,
    refuses_in: u64,
    fails_in: u64,
    has_failed: bool,
}

impl Model for MemStore {
    ghost use Rattle.durable_top.specs.Memory.{Memory};

    ghost Value = { Memory };

    ghost view = { λ s. record {
      rows = s.table;
      faults = s.faults;
      refuses_in = s.refuses_in;
      fails_in = s.fails_in;
      has_failed = s.has_failed;
    } };
}

impl MemStore {
    /// A store of these rows, which stand in byte order of their keys, one for each, with numbers
    /// of at least 0. The only error is that memory runs out.
    pub fn new(alloc: Global, rows: &[Row]) -> Result<MemStore, NoMemory>
        requires rising { IsRising (plain rows.now) }
        requires least { AreNumbered rows.now }
        ensures { IfOk result (λ store. store ≡ fresh rows.now 0 0) }
    {
        let table = RowTable::of_rows(alloc, rows)?;
        Ok(MemStore {
            table,
            faults: 0,
            refuses_in: 0,
            fails_in: 0,
            has_failed: false,
        })
    }

    /// A store as by `new` that answers Refused at one commit, the first being number 1, and
    /// changes nothing then.
    pub fn refusing(alloc: Global, rows: &[Row], commit: u64) -> Result<MemStore, NoMemory>
        requires rising { IsRising (plain rows.now) }
        requires least { AreNumbered rows.now }
        ensures { IfOk result (λ store. store ≡ fresh rows.now commit 0) }
    {
        let mut store = MemStore::new(alloc, rows)?;
        store.refuses_in = commit;
        Ok(store)
    }

    /// A store as by `new` whose device fails at one commit, the first being number 1. That commit
    /// changes nothing, and each call from then on answers Failed.
    pub fn failing(alloc: Global, rows: &[Row], commit: u64) -> Result<MemStore, NoMemory>
        requires rising { IsRising (plain rows.now) }
        requires least { AreNumbered rows.now }
        ensures { IfOk result (λ store. store ≡ fresh rows.now 0 commit) }
    {
        let mut store = MemStore::new(alloc, rows)?;
        store.fails_in = commit;
        Ok(store)
    }

    // The fault that is planned for the next commit.
    fn planned(&self) -> Option<StoreFault>
        ensures { result ≡ planned self.now }
    {
        if self.has_failed || self.fails_in == 1 {
            Some(StoreFault::Failed)
        } else if self.refuses_in == 1 {
            Some(StoreFault::Refused)
        } else {
            None
        }
    }
}

impl TopStore for MemStore {
    ghost table = { λ s. value_in (plain s.rows) };

    ghost numbered = { λ s. entries_in s.rows };

    ghost doubt = { λ _. 0 };

    ghost failures = { λ s. if s.has_failed then 1 else 0 };

    ghost faults = { λ s. s.faults };

    ghost may_leave = { λ s left. left ≡ value_in (plain s.rows) };

    ghost may_leave_numbered = { λ s left. left ≡ entries_in s.rows };

    ghost loads = { MemoryLoads };

    ghost commits = { MemoryCommits };

    fn load(&mut self, alloc: Global) -> Result<Vec<Row>, StoreFault> {
        if self.has_failed {
            return Err(StoreFault::Failed);
        }
        match self.table.rows(alloc) {
            Ok(rows) => Ok(rows),
            Err(_) => Err(StoreFault::Memory),
        }
    }

    fn commit(&mut self, changes: &[Change]) -> Result<(), StoreFault> {
        let planned = self.planned();
        self.has_failed = self.has_failed || self.fails_in == 1;
        self.fails_in = self.fails_in.saturating_sub(1);
        self.refuses_in = self.refuses_in.saturating_sub(1);
        let answer = match planned {
            Some(fault) => Err(fault),
            None => self.table.commit(changes),
        };
        if answer.is_err() {
            self.faults = self.faults.saturating_add(1);
        }
        answer
    }

    fn failures(&self) -> u64 {
        u64::from(self.has_failed)
    }

    fn faults(&self) -> u64 {
        self.faults
    }
}
