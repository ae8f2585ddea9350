//! What an error of the database says of the store.
ghost use Rattle.std.specs.Prelude.{◌≡◌, ◌⊎◌};
ghost use Rattle.sql_store.specs.Faults.{breaks_rule, fault_of, HasFailed, IsRefusal};
ghost use Rattle.sql_store.specs.Calls.{ChangesNothing, CommitsNothing, IfClean, SparesSettled, SurvivesAsBefore};

use crate::statements::probe;
use durable_top::StoreFault;
use sqlite::{Alter, Connection, Error, ErrorCode};

/// The fault that an error stands for.
pub(crate) fn fault_of(error: Error) -> StoreFault
    ensures { result ≡ fault_of error }
{
    match error {
        Error::SqliteFailure(
            ErrorCode::SystemIoFailure
            | ErrorCode::DatabaseCorrupt
            | ErrorCode::DiskFull
            | ErrorCode::Closed,
        ) => StoreFault::Failed,
        Error::SqliteFailure(ErrorCode::OutOfMemory) => StoreFault::Memory,
        _ => StoreFault::Refused,
    }
}

/// Whether the statement would have broken a rule of its table, as an insert where the key has a
/// row.
pub(crate) fn breaks_rule(error: Error) -> bool
    ensures { result ≡ breaks_rule error }
{
    match error {
        Error::SqliteFailure(ErrorCode::ConstraintViolation(_)) => true,
        _ => false,
    }
}

/// The fault, and Failed where no statement can be run any more: a failure of the disk shuts the
/// connection, even in a call that was answered another error.
pub(crate) fn settle<S: Alter>(conn: &mut Connection<S>, fault: StoreFault) -> StoreFault
    ensures open { IfClean S.Store conn.new
        ((result ≡ StoreFault.Failed → ⊥) → ChangesNothing S.Store conn.old conn.new) }
    ensures kept { IfClean S.Store conn.new (CommitsNothing S.Store conn.old conn.new) }
    ensures survives { SurvivesAsBefore S.Store conn.old conn.new }
    ensures cause { IfClean S.Store conn.new
        (result ≡ StoreFault.Failed
        → (fault ≡ StoreFault.Failed) ⊎ HasFailed S.Store conn.old conn.new) }
    ensures refused { IfClean S.Store conn.new
        (IsRefusal result → IsRefusal fault × ChangesNothing S.Store conn.old conn.new) }
    ensures spared { SparesSettled S.Store conn.old conn.new }
{
    match probe(conn) {
        Ok(()) => fault,
        Err(_) => StoreFault::Failed,
    }
}
