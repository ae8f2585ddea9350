//! A store that is of one kind or of another.
ghost use Rattle.std.specs.Prelude.{◌≡◌};
ghost use Rattle.tx_machine.specs.Sides.{OnOneSide, database_left};
ghost use Rattle.tx_machine.specs.declared.store.EitherStore.TheVariants.{Memory, Database};

use durable_top::{Row, StoreFault, TopStore};
use std::alloc::Global;
use txn_names::Change;

/// A store in memory, or one over a database. All that is said of it is said of the store that it
/// is.
#[derive(Drop)]
pub enum EitherStore<M, D> {
    Memory(M),
    Database(D),
}

/// What is left of a store over a database, if it is one. A store in memory is let go.
pub(crate) fn database_left<M: Drop, D: Drop>(left: Option<EitherStore<M, D>>) -> Option<D>
    ensures { result ≡ database_left left }
{
    match left {
        Some(EitherStore::Database(store)) => Some(store),
        Some(EitherStore::Memory(store)) => {
            drop(store);
            None
        }
        None => None,
    }
}

impl<M: TopStore, D: TopStore> TopStore for EitherStore<M, D> {
    ghost table = { elim [ Memory m ↦ M.table m | Database d ↦ D.table d ] };

    ghost numbered = { elim [ Memory m ↦ M.numbered m | Database d ↦ D.numbered d ] };

    ghost doubt = { elim [ Memory m ↦ M.doubt m | Database d ↦ D.doubt d ] };

    ghost failures = { elim [ Memory m ↦ M.failures m | Database d ↦ D.failures d ] };

    ghost faults = { elim [ Memory m ↦ M.faults m | Database d ↦ D.faults d ] };

    ghost may_leave = { elim [ Memory m ↦ M.may_leave m | Database d ↦ D.may_leave d ] };

    ghost may_leave_numbered = { elim [ Memory m ↦ M.may_leave_numbered m | Database d ↦ D.may_leave_numbered d ] };

    ghost loads = { λ old new answer.
        OnOneSide (λ m n. M.loads m n answer) (λ d e. D.loads d e answer) old new };

    ghost commits = { λ old new changes answer.
        OnOneSide (λ m n. M.commits m n changes answer) (λ d e. D.commits d e changes answer)
        old new };

    fn load(&mut self, alloc: Global) -> Result<Vec<Row>, StoreFault> {
        match self {
            EitherStore::Memory(store) => store.load(alloc),
            EitherStore::Database(store) => store.load(alloc),
        }
    }

    fn commit(&mut self, changes: &[Change]) -> Result<(), StoreFault> {
        match self {
            EitherStore::Memory(store) => store.commit(changes),
            EitherStore::Database(store) => store.commit(changes),
        }
    }

    fn failures(&self) -> u64 {
        match self {
            EitherStore::Memory(store) => store.failures(),
            EitherStore::Database(store) => store.failures(),
        }
    }

    fn faults(&self) -> u64 {
        match self {
            EitherStore::Memory(store) => store.faults(),
            EitherStore::Database(store) => store.faults(),
        }
    }
}
