//! Runs of session texts by a schedule: from a text's bytes and a store to the bytes of a report,
//! or of the line that says why there is none. Beside them, the rows of a store.
#![tactic(auto)]

mod ends;
mod fault;
mod listing;
mod replay;
mod reporting;

pub use ends::{end_run, put_report, read_sessions};
pub use fault::fault_of;
pub use listing::list_rows;
pub use replay::{ReplayFault, replay_text};
pub use reporting::replay_over;
