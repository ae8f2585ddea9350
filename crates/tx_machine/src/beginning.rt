//! What a run begins and ends with: the text of a file, and a store in memory or over a database.
ghost use Rattle.std.specs.Prelude.{◌≡◌, IfErr, IfOk, OnErr, OnOk};
ghost use Rattle.std.specs.Option.{option_copied};
ghost use Rattle.program_words.specs.declared.status.TheConstants.{FAILED};
ghost use Rattle.program_words.specs.Tellings.{HasFaultLine};
ghost use Rattle.tx_machine.specs.Begun.{HasNotBegun, IsBegun};
ghost use Rattle.tx_machine.specs.Stores.{IsClosed, IsOpened, IsStoreless};

use crate::host::Surroundings;
use crate::reading::{TextFault, text_at};
use crate::store::{EitherStore, database_left};
use durable_top::TopStore;
use program_words::{Fault, tell};
use std::alloc::Global;
use txn_bytes::{Sink, Source};

/// A store over the database at the path, which is made where there is none, or else one in memory
/// without rows. Where there is no store that is told, and the error is the exit status.
pub fn open_store<H: Surroundings, E: Sink>(
    host: &mut H,
    alloc: Global,
    database: Option<&str>,
    err: &mut E,
) -> Result<EitherStore<H::Memory, H::Store>, u8>
    ensures ok { IfOk result (λ store. IsOpened H.Surroundings
        host.old host.new H.Memory.TopStore (option_copied database.entry) store) }
    ensures silent { OnOk result (err.new ≡ err.old) }
    ensures err { OnErr result (IsStoreless H.Surroundings
        host.old host.new E.Sink err.old err.new (option_copied database.entry)) }
    ensures told { OnErr result (HasFaultLine E.Sink err.old err.new) }
    ensures status { IfErr result (λ status. status ≡ FAILED) }
{
    match database {
        Some(path) => match host.open(path) {
            Ok(store) => Ok(EitherStore::Database(store)),
            Err(_) => Err(tell(err, Fault::CannotOpen)),
        },
        None => match H::in_memory(alloc) {
            Ok(store) => Ok(EitherStore::Memory(store)),
            Err(_) => Err(tell(err, Fault::NoMemory)),
        },
    }
}

/// Closes the database at the path with what is left of its store. A store in memory is let go.
pub fn close_store<H: Surroundings>(
    host: &mut H,
    database: Option<&str>,
    left: Option<EitherStore<H::Memory, H::Store>>,
)
    ensures { IsClosed H.Surroundings host.old host.new (option_copied database.entry) left }
{
    let store = database_left(left);
    match database {
        Some(path) => host.close(path, store),
        None => drop(store),
    }
}

/// The text of this file, and a store over the database at the path, which is made where there is
/// none, or else one in memory without rows. The file is read first. Where there is none of the two
/// that is told, and the error is the exit status.
pub fn begin<H: Surroundings, E: Sink>(
    host: &mut H,
    alloc: Global,
    file: &str,
    database: Option<&str>,
    err: &mut E,
) -> Result<(Vec<u8>, EitherStore<H::Memory, H::Store>), u8>
    ensures ok { IfOk result (λ begun. IsBegun H.Surroundings H.Text.Source H.Memory.TopStore
        host.old host.new file.now (option_copied database.entry) begun.0.items begun.1) }
    ensures silent { OnOk result (err.new ≡ err.old) }
    ensures err { OnErr result (HasNotBegun H.Surroundings H.Text.Source E.Sink
        host.old host.new err.old err.new file.now (option_copied database.entry)) }
    ensures told { OnErr result (HasFaultLine E.Sink err.old err.new) }
    ensures status { IfErr result (λ status. status ≡ FAILED) }
{
    let text = match text_at(host, alloc, file) {
        Ok(text) => text,
        Err(TextFault::NoMemory) => return Err(tell(err, Fault::NoMemory)),
        Err(TextFault::Unread) => return Err(tell(err, Fault::CannotRead(file))),
    };
    match open_store(host, alloc, database, err) {
        Ok(store) => Ok((text, store)),
        Err(status) => Err(status),
    }
}
