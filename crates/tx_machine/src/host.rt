//! What the program asks of the machine that it runs on: files by their paths, and databases.
ghost use Rattle.std.specs.Prelude.{◌≡◌, ℕ, List, None, IfOk};

use durable_top::{StoreFault, TopStore};
use sql_store::{DatabaseStore, MemoryStore};
use std::alloc::{AllocError, Global};
use std::fs::{self, File};
use std::rt::HostRuntime;
use txn_bytes::{ReadFault, Source};

/// Files and databases by their paths, with relations that say what was asked of them and what the
/// answer was. Their state is what was asked so far.
///
/// A caller that is generic over the surroundings knows nothing of the relations, and so it can
/// only have them from a call of the method. By them it can promise that the text which it ran is
/// the one at the path that it names, that the store is the one at the other path, and that it was
/// closed. It can promise too that nothing else was asked: from one state to another leads only
/// what was asked.
pub trait Surroundings {
    ghost use Rattle.std.specs.Prelude.{ℕ, List, Option, Result};
    ghost use Rattle.txn_bytes.specs.declared.source.ReadFault.{ReadFault};
    ghost use Rattle.durable_top.specs.declared.store.StoreFault.{StoreFault};

    /// A file that was opened to be read.
    type Text: Source + Drop;

    /// A store over a database.
    type Store: TopStore + Send;

    /// A store in memory.
    type Memory: TopStore + Send;

    /// Asked in the first state for the file at this path, they gave this answer and were left in
    /// the second state.
    ghost finds: { Self → Self → List ℕ → Result Self.Text ReadFault → Type 0 };

    /// Asked in the first state for a store over the database at this path, they gave this answer
    /// and were left in the second.
    ghost opens: { Self → Self → List ℕ → Result Self.Store StoreFault → Type 0 };

    /// Asked in the first state to close the database at this path, they got this store of it, or
    /// none, and were left in the second.
    ghost closes: { Self → Self → List ℕ → Option Self.Store → Type 0 };

    /// The file at this path, from its beginning.
    fn find(&mut self, path: &str) -> Result<Self::Text, ReadFault>
        ensures asked { finds self.old self.new path.now result };

    /// A store over the database at this path, which is made where there is none.
    fn open(&mut self, path: &str) -> Result<Self::Store, StoreFault>
        ensures asked { opens self.old self.new path.now result };

    /// A store in memory, without rows. The surroundings are not asked for it.
    fn in_memory(alloc: Global) -> Result<Self::Memory, AllocError>
        ensures empty { IfOk result (λ store. (k : List ℕ) → Self.Memory.table store k ≡ None) };

    /// Copies what the log beside the database holds into its file, by the store that is left.
    /// Where none is left the database is opened once more for it. Where this fails the file and
    /// the log hold together what they held.
    fn close(&mut self, path: &str, left: Option<Self::Store>)
        ensures asked { closes self.old self.new path.now left };
}

/// The machine that the program runs on.
#[derive(Drop)]
pub struct Machine<'a> {
    rt: &'a HostRuntime,
}

impl<'a> Machine<'a> {
    /// The machine of this runtime.
    pub fn new(rt: &'a HostRuntime) -> Machine<'a> {
        Machine { rt }
    }
}

impl Surroundings for Machine<'_> {
    type Text = File;

    type Store = DatabaseStore;

    type Memory = MemoryStore;

    ghost finds = { λ old new path answer. Unit {0} };

    ghost opens = { λ old new path answer. Unit {0} };

    ghost closes = { λ old new path left. Unit {0} };

    fn find(&mut self, path: &str) -> Result<File, ReadFault> {
        match fs::open(self.rt, path) {
            Ok(file) => Ok(file),
            Err(_) => Err(ReadFault),
        }
    }

    fn open(&mut self, path: &str) -> Result<DatabaseStore, StoreFault> {
        DatabaseStore::open(self.rt, path)
    }

    fn in_memory(alloc: Global) -> Result<MemoryStore, AllocError>
        ensures empty { IfOk result (λ store.
            (k : List ℕ) → ⟦<MemoryStore as TopStore>⟧.table store k ≡ None) }
    {
        MemoryStore::new(alloc)
    }

    fn close(&mut self, path: &str, left: Option<DatabaseStore>)
        ensures { Unit {0} }
    {
        let again = match left {
            Some(store) => Ok(store),
            None => DatabaseStore::open(self.rt, path),
        };
        if let Ok(store) = again {
            drop(store.into_store().close_files());
        }
    }
}
