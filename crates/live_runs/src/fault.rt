//! Why a live run gave no whole report.
ghost use Rattle.std.specs.Prelude.{◌≡◌};
ghost use Rattle.program_words.specs.declared.status.TheConstants.{FAILED};
ghost use Rattle.program_words.specs.Faults.{IsSaid};
ghost use Rattle.live_runs.specs.Faults.{spelled_end};

use manager_core::OpenFault;
use program_words::{Fault, tell};
use txn_bytes::Sink;

/// Why a live run gave no whole report.
#[derive(Clone, Copy, Debug, PartialEq, Eq)]
pub enum LiveFault {
    /// The store was not opened. Nothing was read or written.
    Open(OpenFault),
    /// The reader failed.
    Read,
    /// A growth was refused, behind the opening.
    NoMemory,
    /// The writer failed.
    Write,
}

/// Says why there is no whole report, in one line. Where the error writer fails it has taken a
/// beginning of that line, and the exit status alone tells.
pub(crate) fn tell_end<E: Sink>(err: &mut E, fault: LiveFault) -> u8
    ensures told { IsSaid E.Sink err.old err.new (spelled_end fault) }
    ensures status { result ≡ FAILED }
{
    match fault {
        LiveFault::Open(OpenFault::NoMemory) => tell(err, Fault::NoMemory),
        LiveFault::Open(OpenFault::Store(_)) => tell(err, Fault::CannotOpen),
        LiveFault::Open(OpenFault::TooManyRows) => tell(err, Fault::TooManyRows),
        LiveFault::Read => tell(err, Fault::CannotRead("-")),
        LiveFault::NoMemory => tell(err, Fault::NoMemory),
        LiveFault::Write => tell(err, Fault::CannotWrite),
    }
}
