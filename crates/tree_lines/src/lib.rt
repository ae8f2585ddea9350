//! The lines of `tx show`: one for each transaction that is shown, and a summary behind them.
#![tactic(auto)]

mod counting;
mod lining;
mod naming;
mod spelling;
mod summing;

pub use counting::{Group, Kind, counted, marked};
pub use lining::Choice;
pub use naming::put_label;
pub use spelling::{outcome_words, put_bytes, put_counted, put_number};
pub use summing::{put_summary, show_of};
