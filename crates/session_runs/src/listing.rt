//! The rows of a store, on standard output.
ghost use Rattle.std.specs.Prelude.{◌≡◌, ◌≤◌};
ghost use Rattle.report_text.specs.Rows.{numbered_rows};
ghost use Rattle.program_words.specs.declared.status.TheConstants.{DONE, FAILED};
ghost use Rattle.program_words.specs.Tellings.{Accounts, IsGiven, IsUngiven};
ghost use Rattle.session_runs.specs.Listings.{IsListed, IsUnlisted};

use durable_top::{Row, TopStore};
use program_words::{Fault, finish, tell};
use report_text::write_rows;
use std::alloc::Global;
use txn_bytes::Sink;

/// Prints the rows of this store in byte order of their keys, each with the number of the commit
/// that set it, and answers the exit status. The lines go to `out`; a fault goes to `err`, in one
/// line.
pub fn list_rows<S: TopStore, W: Sink, E: Sink>(
    alloc: Global,
    store: &mut S,
    out: &mut W,
    err: &mut E,
) -> u8
    ensures done { result ≡ DONE →
        IsListed S.TopStore W.Sink E.Sink
        store.old store.new out.old out.new err.old err.new }
    ensures failed { result ≡ FAILED →
        IsUnlisted S.TopStore W.Sink E.Sink
        store.old store.new out.old out.new err.old err.new }
    ensures accounts { Accounts W.Sink E.Sink out.new err.old err.new result }
    ensures status { result ≤ FAILED }
{
    match store.load(alloc) {
        Ok(rows) => print_rows(rows.as_slice(), out, err),
        Err(_) => tell(err, Fault::CannotOpen),
    }
}

// The output is asked to take the lines of the rows and to pass them on.
fn print_rows<W: Sink, E: Sink>(rows: &[Row], out: &mut W, err: &mut E) -> u8
    ensures done { result ≡ DONE →
        IsGiven W.Sink E.Sink out.old out.new err.old err.new (numbered_rows rows.now) }
    ensures failed { result ≡ FAILED →
        IsUngiven W.Sink E.Sink
        out.old out.new err.old err.new (numbered_rows rows.now) }
    ensures accounts { Accounts W.Sink E.Sink out.new err.old err.new result }
    ensures status { result ≤ FAILED }
{
    match write_rows(rows, out) {
        Ok(()) => finish(out, err),
        Err(_) => tell(err, Fault::CannotWrite),
    }
}
