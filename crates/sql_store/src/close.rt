//! How the file of a store comes to hold its table without the log.
ghost use Rattle.std.specs.Prelude.{IfOk, IfErr, IsTrue};
ghost use Rattle.sqlite_wal.specs.Reads.{AreClean};
ghost use Rattle.sqlite_trees.specs.View.{IsClean};
ghost use Rattle.sqlite_store.specs.FileStore.{view};
ghost use Rattle.sqlite.specs.Files.{IsClosed, FailsToClose};
ghost use Rattle.sqlite.specs.Closing.{IsCopied};

use crate::store::SqlStore;
use sqlite::{Error, FileStore, Files};
use sqlite_disk::Disk;

impl<D: Disk + Drop> SqlStore<FileStore<D>> {
    /// Copies the log into the database file, which then holds the last commit by itself, and gives
    /// the two files back. The only fault is that the device fails, memory runs out, or the store
    /// had failed before. The two files then hold together what they held before.
    pub fn close_files(self) -> Result<Files<D>, (Error, FileStore<D>)>
        ensures copied { IfOk result (λ files.
            AreClean D.Disk files.log files.db → IsCopied self.connection files) }
        ensures usable { IfOk result (λ files.
            IsTrue (D.Disk.is_usable files.log) × IsTrue (D.Disk.is_usable files.db)) }
        ensures failed { IfErr result (λ end. IsClosed self.connection end.1
            × (IsClean (view end.1) → FailsToClose self.connection end.1 end.0)) }
    {
        self.into_connection().close_files()
    }
}
