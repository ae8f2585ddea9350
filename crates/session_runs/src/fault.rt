//! By which line a fault of a run is told.
ghost use Rattle.std.specs.Prelude.{◌≡◌};
ghost use Rattle.session_runs.specs.Faults.{told};

use crate::replay::ReplayFault;
use interleavings::{RunFault, ServeFault};
use manager_core::OpenFault;
use program_words::Fault;
use session_text::TextFault;

/// What the program says where there is no report of a text.
pub fn fault_of<'a>(fault: ReplayFault) -> Fault<'a>
    ensures { result ≡ told fault }
{
    match fault {
        ReplayFault::Text(TextFault::Bad { line, kind }) => Fault::Line { line, kind },
        ReplayFault::Text(TextFault::NoMemory) => Fault::NoMemory,
        ReplayFault::Run(RunFault::NoMemory) => Fault::NoMemory,
        ReplayFault::Run(RunFault::Open(OpenFault::NoMemory)) => Fault::NoMemory,
        ReplayFault::Run(RunFault::Open(OpenFault::Store(_))) => Fault::CannotOpen,
        ReplayFault::Run(RunFault::Open(OpenFault::TooManyRows)) => Fault::TooManyRows,
        ReplayFault::Run(RunFault::Schedule(place)) => Fault::Schedule(place),
        ReplayFault::Serve(ServeFault::NoMemory) => Fault::NoMemory,
        ReplayFault::Serve(ServeFault::Open(OpenFault::NoMemory)) => Fault::NoMemory,
        ReplayFault::Serve(ServeFault::Open(OpenFault::Store(_))) => Fault::CannotOpen,
        ReplayFault::Serve(ServeFault::Open(OpenFault::TooManyRows)) => Fault::TooManyRows,
        ReplayFault::Serve(ServeFault::Thread) => Fault::CannotStart,
        ReplayFault::Write(_) => Fault::CannotWrite,
    }
}
