//! The three commands that read, over readers whose first read a signal interrupts.
ghost use Rattle.std.specs.Prelude.{◌≡◌, ℕ, List, None, IfOk};

use durable_top::{StoreFault, TopStore};
use live_commands::live;
use sql_store::MemoryStore;
use std::alloc::{AllocError, Global};
use std::io::ErrorKind;
use test_kit::texts::{FIRST, FIRST_REPORT, FIRST_REQUESTS};
use test_kit::{Pieces, Told};
use text_commands::replay;
use tx_commands::judge;
use tx_machine::Surroundings;
use txn_bytes::ReadFault;

fn interrupted_once(bytes: &[u8]) -> Pieces<'_> {
    Pieces::new(bytes, usize::MAX, 0, ErrorKind::Interrupted)
}

// At each path is a file with these bytes, and no database.
#[derive(Drop)]
struct OneFile<'a> {
    bytes: &'a [u8],
}

impl<'a> Surroundings for OneFile<'a> {
    type Text = Pieces<'a>;

    type Store = MemoryStore;

    type Memory = MemoryStore;

    ghost finds = { λ old new path answer. Unit {0} };

    ghost opens = { λ old new path answer. Unit {0} };

    ghost closes = { λ old new path left. Unit {0} };

    fn find(&mut self, _path: &str) -> Result<Pieces<'a>, ReadFault> {
        Ok(interrupted_once(self.bytes))
    }

    fn open(&mut self, _path: &str) -> Result<MemoryStore, StoreFault> {
        Err(StoreFault::Failed)
    }

    fn in_memory(alloc: Global) -> Result<MemoryStore, AllocError>
        ensures empty { IfOk result (λ store.
            (k : List ℕ) → ⟦<MemoryStore as TopStore>⟧.table store k ≡ None) }
    {
        MemoryStore::new(alloc)
    }

    fn close(&mut self, _path: &str, left: Option<MemoryStore>)
        ensures { Unit {0} }
    {
        drop(left);
    }
}

fn replays(alloc: Global) -> Told {
    let mut host = OneFile { bytes: FIRST };
    let (mut out, mut err) = (Vec::new(alloc), Vec::new(alloc));
    let status = replay(&mut host, alloc, "f", None, None, &mut out, &mut err);
    Told { status, out, err }
}

fn judges(alloc: Global) -> Told {
    let mut host = OneFile {
        bytes: FIRST_REPORT,
    };
    let (mut out, mut err) = (Vec::new(alloc), Vec::new(alloc));
    let status = judge(&mut host, alloc, "f", &mut out, &mut err);
    Told { status, out, err }
}

fn lives(alloc: Global) -> Told {
    let mut host = OneFile { bytes: b"" };
    let (mut out, mut err) = (Vec::new(alloc), Vec::new(alloc));
    let mut input = interrupted_once(FIRST_REQUESTS);
    let status = live(&mut host, alloc, &mut input, None, &mut out, &mut err);
    Told { status, out, err }
}

// Whether the command wrote this alone, or found no memory: a trial run refuses one growth.
fn is_done(told: &Told, wanted: &[u8]) -> bool {
    told.is_report(wanted) || told.err.as_slice() == b"tx: no memory\n".as_slice()
}

#[test]
fn interrupted_reads_are_made_again(rt: HostRuntime) {
    assert!(rt; is_done(&replays(rt.alloc()), FIRST_REPORT));
    assert!(rt; is_done(&judges(rt.alloc()), b"yes\n"));
    assert!(rt; is_done(&lives(rt.alloc()), FIRST_REPORT));
}
