//! The text of a report, of a verdict on one, and of the rows of a table.
#![tactic(auto)]

mod entries;
mod line_buffer;
mod report;
mod rows;
mod verdict;

pub use report::{write_ending, write_entries, write_opening, write_report};
pub use rows::write_rows;
pub use txn_bytes::WriteFault;
pub use verdict::write_verdict;
