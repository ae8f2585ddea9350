//! A store that has no rows to give, and takes none.
ghost use Rattle.std.specs.Prelude.{ℕ, None, if◌then◌else◌};

use crate::session_runs_tests::calls::{AMPLE, told_by};
use crate::session_runs_tests::reports::text_of;
use crate::session_runs_tests::stores::NEVER_STORED;
use durable_top::{Row, StoreFault, TopStore};
use std::alloc::Global;
use std::process::Abort;
use std::rt::HostRuntime;
use test_kit::Told;
use txn_names::Change;

/// A store without rows that answers this fault in place of them, where there is one, and refuses
/// every commit.
#[derive(Drop)]
struct Faulty {
    fault: Option<StoreFault>,
    failed: bool,
    faults: u64,
}

impl TopStore for Faulty {
    ghost table = { λ _ k. None };

    ghost numbered = { λ _ k. None };

    ghost doubt = { λ _. 1 };

    ghost failures = { λ s. if s.failed then 1 else 0 };

    ghost faults = { λ s. s.faults };

    ghost may_leave = { λ _ _. Unit {0} };

    ghost may_leave_numbered = { λ _ _. Unit {0} };

    ghost loads = { λ _ _ _. Unit {0} };

    ghost commits = { λ _ _ _ _. Unit {0} };

    fn load(&mut self, alloc: Global) -> Result<Vec<Row>, StoreFault> {
        if self.failed {
            return Err(StoreFault::Failed);
        }
        match self.fault {
            None => Ok(Vec::new(alloc)),
            Some(StoreFault::Failed) => {
                self.failed = true;
                Err(StoreFault::Failed)
            }
            Some(StoreFault::Refused) => Err(StoreFault::Refused),
            Some(StoreFault::Memory) => Err(StoreFault::Memory),
        }
    }

    fn commit(&mut self, _changes: &[Change]) -> Result<(), StoreFault> {
        self.faults = self.faults.saturating_add(1);
        if self.failed {
            Err(StoreFault::Failed)
        } else {
            Err(StoreFault::Refused)
        }
    }

    fn failures(&self) -> u64 {
        if self.failed { 1 } else { 0 }
    }

    fn faults(&self) -> u64 {
        self.faults
    }
}

// What a run over such a store tells.
fn told_by_faulty(rt: &impl Abort, alloc: Global, fault: Option<StoreFault>, text: &[u8]) -> Told {
    let store = Faulty {
        fault,
        failed: false,
        faults: 0,
    };
    let (told, _) = told_by(rt, alloc, store, (text, None), AMPLE);
    told
}

#[test]
fn stores_without_their_rows(rt: HostRuntime) {
    for (name, fault) in [
        ("refused", StoreFault::Refused),
        ("failed", StoreFault::Failed),
        ("memory", StoreFault::Memory),
    ] {
        let told = told_by_faulty(&rt, rt.alloc(), Some(fault), b"");
        assert!(rt; told.is_fault("tx: cannot open database\n"), "{name}");
    }
    let text = text_of(&rt, rt.alloc(), NEVER_STORED, "s");
    let told = told_by_faulty(&rt, rt.alloc(), None, text.as_slice());
    assert!(rt; told.is_report(NEVER_STORED.as_bytes()), "{NEVER_STORED}");
}
