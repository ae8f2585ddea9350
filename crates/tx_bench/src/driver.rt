//! A manager that is asked line after line.
ghost use Rattle.std.specs.Prelude.{◌↔◌, IsTrue};
ghost use Rattle.event_lists.specs.Views.{event_by};
ghost use Rattle.manager_core.specs.Lines.{IsFree};

use durable_top::MemStore;
use event_lists::{Act, EventView};
use manager_core::{Manager, Outcome};
use serial_spec::{By, NoMemory, Op, Refusal};
use std::alloc::Global;
use txn_names::{Key, Name};

/// A manager over an empty table, and how many lines it has answered. Every line is the next one of
/// one session.
#[derive(Drop)]
pub struct Driver {
    manager: Manager<MemStore>,
    lines: u32,
}

// Whether the line was done.
fn is_done(answered: Result<Outcome, NoMemory>) -> bool {
    matches!(answered, Ok(Outcome::Done(_)))
}

// Whether the line waits.
fn is_waiting(answered: Result<Outcome, NoMemory>) -> bool {
    matches!(answered, Ok(Outcome::Waits))
}

// Whether the line was refused since its transaction, or one above it, has aborted.
fn is_orphan(answered: Result<Outcome, NoMemory>) -> bool {
    matches!(answered, Ok(Outcome::Refused(Refusal::Orphan(_))))
}

impl Driver {
    /// A manager over an empty table, or `None` if memory runs out.
    pub fn open(alloc: Global) -> Option<Driver> {
        let store = MemStore::new(alloc, &[]).ok()?;
        match Manager::open(alloc, store) {
            Ok(manager) => Some(Driver { manager, lines: 0 }),
            Err(_) => None,
        }
    }

    /// How many lines have been asked.
    pub fn lines(&self) -> u32 {
        self.lines
    }

    // The next line, which is free.
    fn next_line(&mut self) -> By {
        self.lines = self.lines.saturating_add(1);
        By::Line {
            session: 0,
            line: self.lines,
        }
    }

    // Whether the line is free to ask this of the transaction.
    fn is_free(&self, by: By, name: &Name, act: &Act) -> bool
        ensures { IsTrue result ↔ IsFree self.now.manager.history by (event_by name.now act.now) }
    {
        self.manager.free(by, &EventView { name, act })
    }

    /// Begins the transaction, or answers `None` where that is not done; so do the calls below.
    pub fn begin(&mut self, name: &Name) -> Option<()> {
        let by = self.next_line();
        if self.is_free(by, name, &Act::Begin) && is_done(self.manager.begin(by, name)) {
            Some(())
        } else {
            None
        }
    }

    pub fn access(&mut self, name: &Name, key: &Key, op: Op) -> Option<()> {
        let by = self.next_line();
        if self.is_free(by, name, &Act::Access(*key, op))
            && is_done(self.manager.access(by, name, key, op))
        {
            Some(())
        } else {
            None
        }
    }

    pub fn commit(&mut self, name: &Name) -> Option<()> {
        let by = self.next_line();
        if self.is_free(by, name, &Act::Commit) && is_done(self.manager.commit(by, name)) {
            Some(())
        } else {
            None
        }
    }

    pub fn abort(&mut self, name: &Name) -> Option<()> {
        let by = self.next_line();
        if self.is_free(by, name, &Act::Abort) && is_done(self.manager.abort(by, name)) {
            Some(())
        } else {
            None
        }
    }

    /// Asks for an access that has to wait. Its transaction may be a victim at once.
    pub fn wait(&mut self, name: &Name, key: &Key, op: Op) -> Option<()> {
        let by = self.next_line();
        if self.is_free(by, name, &Act::Access(*key, op))
            && is_waiting(self.manager.access(by, name, key, op))
        {
            Some(())
        } else {
            None
        }
    }

    /// Asks again for the access by which the transaction waits, which is done now. That is no
    /// further line.
    pub fn retry(&mut self, name: &Name) -> Option<()> {
        if self.manager.waiting(name) && is_done(self.manager.retry(name)) {
            Some(())
        } else {
            None
        }
    }

    /// Asks for the commit of a transaction that was a victim.
    pub fn commit_victim(&mut self, name: &Name) -> Option<()> {
        let by = self.next_line();
        if self.is_free(by, name, &Act::Commit) && is_orphan(self.manager.commit(by, name)) {
            Some(())
        } else {
            None
        }
    }
}
