//! A store of results over a database file of the machine.
ghost use Rattle.std.specs.Prelude.{◌≡◌, false, IfOk, IfErr, None, codes, Err};
ghost use Rattle.serial_spec.specs.Rows.{value_in};
ghost use Rattle.durable_top.specs.Numbers.{IsTopIn};
ghost use Rattle.sqlite.specs.Files.{over_files};
ghost use Rattle.sql_store.specs.Opening.{IsFoundStore};

use crate::store::SqlStore;
use durable_top::{Row, StoreFault, TopStore};
use sqlite::{File, FileStore};
use std::alloc::Global;
use std::rt::HostRuntime;
use txn_names::Change;

/// What is on the heap of a store over a file. It has no parameters: each call at a type that has
/// them costs the prover twenty seconds, and so does each place that lets such a value go.
#[derive(Drop)]
struct OnFile {
    store: SqlStore<FileStore<File>>,
}

/// The table of a database file. It is a store over that file and nothing more: a type without
/// parameters, so that whoever is generic over stores can name it.
#[derive(Drop)]
pub struct DatabaseStore {
    held: Box<OnFile>,
}

// The value on the heap. Where there is no memory it is let go.
fn on_the_heap<T: Drop>(alloc: Global, value: T) -> Result<Box<T>, StoreFault>
    ensures ok { IfOk result (λ boxed. boxed.value ≡ value) }
    ensures memory { IfErr result (λ fault. fault ≡ StoreFault.Memory) }
{
    match Box::new(alloc, value) {
        Ok(boxed) => Ok(boxed),
        Err(_) => Err(StoreFault::Memory),
    }
}

impl DatabaseStore {
    /// A store over the file at this path, as `open` of `SqlStore` has it.
    pub fn open(rt: &HostRuntime, path: &str) -> Result<DatabaseStore, StoreFault>
        ensures memory { path.now ≡ codes ":memory:" → result ≡ Err StoreFault.Refused }
        ensures faults { IfOk result (λ opened. opened.held.value.store.faults ≡ 0) }
        ensures sound { IfOk result (λ opened. opened.held.value.store.has_failed ≡ false) }
        ensures doubted { IfOk result (λ opened. IsFoundStore over_files opened.held.value.store) }
        ensures greatest { IfOk result (λ opened. let store = opened.held.value.store in
            IsTopIn (value_in store.numbers) store.top) }
        ensures limit { IfOk result (λ opened.
            opened.held.value.store.connection.step_limit ≡ None) }
    {
        match SqlStore::open(rt, path) {
            Ok(store) => match on_the_heap(rt.alloc(), OnFile { store }) {
                Ok(held) => Ok(DatabaseStore { held }),
                Err(fault) => Err(fault),
            },
            Err(fault) => Err(fault),
        }
    }

    /// The store, to close its files.
    pub fn into_store(self) -> SqlStore<FileStore<File>>
        ensures { result ≡ self.held.value.store }
    {
        let DatabaseStore { held } = self;
        let OnFile { store } = Box::into_inner(held);
        store
    }
}

impl TopStore for DatabaseStore {
    ghost table = { λ s. ⟦<SqlStore<FileStore<File>> as TopStore>⟧.table s.held.value.store };

    ghost numbered = { λ s. ⟦<SqlStore<FileStore<File>> as TopStore>⟧.numbered s.held.value.store };

    ghost doubt = { λ s. ⟦<SqlStore<FileStore<File>> as TopStore>⟧.doubt s.held.value.store };

    ghost failures = { λ s. ⟦<SqlStore<FileStore<File>> as TopStore>⟧.failures s.held.value.store };

    ghost faults = { λ s. ⟦<SqlStore<FileStore<File>> as TopStore>⟧.faults s.held.value.store };

    ghost may_leave = { λ s left.
        ⟦<SqlStore<FileStore<File>> as TopStore>⟧.may_leave s.held.value.store left };

    ghost may_leave_numbered = { λ s left.
        ⟦<SqlStore<FileStore<File>> as TopStore>⟧.may_leave_numbered s.held.value.store left };

    ghost loads = { λ old new answer.
        ⟦<SqlStore<FileStore<File>> as TopStore>⟧.loads
        old.held.value.store new.held.value.store answer };

    ghost commits = { λ old new changes answer.
        ⟦<SqlStore<FileStore<File>> as TopStore>⟧.commits
        old.held.value.store new.held.value.store changes answer };

    fn load(&mut self, alloc: Global) -> Result<Vec<Row>, StoreFault> {
        self.held.store.load(alloc)
    }

    fn commit(&mut self, changes: &[Change]) -> Result<(), StoreFault> {
        self.held.store.commit(changes)
    }

    fn failures(&self) -> u64 {
        u64::from(self.held.store.has_failed)
    }

    fn faults(&self) -> u64 {
        self.held.store.faults
    }
}
