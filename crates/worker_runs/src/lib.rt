//! Runs of session texts by worker threads: from a text's bytes and a store to the bytes of a
//! report, or of the line that says why there is none.
#![tactic(auto)]

mod reporting;
mod serve;
mod words;

pub use reporting::serve_over;
pub use serve::{OpenGate, run_text};
pub use words::workers_of;
