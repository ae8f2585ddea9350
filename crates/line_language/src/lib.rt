//! The language of lines: commands, answers, entries and rows as bytes, read and spelled.
//!
//! A command is `begin N`, `get N K`, `set N K V`, `add N K V`, `del N K`, `sum N G`, `commit N`,
//! `abort N`, `after N begun` or `after N done`, where N is a name, K a key, V a number and G a
//! group. Words stand one space apart. An entry of a report is `LABEL LINE TEXT -> REPLY`,
//! `* victim N` or `* close N`, and a row is `K=V`. Each has one spelling: bytes are read as one
//! exactly where they spell it, and for all others it is told what is wrong first.
#![tactic(auto)]

mod answer;
mod command;
mod digits;
mod entry;
mod fault;
pub mod laws;
mod lengths;
mod line;
mod named;
mod number;
mod parting;
mod refusals;
mod row;
mod spelling;
mod verbs;

pub use command::{AccessWords, likely_access, one};
pub use entry::{ReportEntry, parse_entry, put_entry, read_entry};
pub use event_lists::{Cause, cause_of};
pub use fault::LineKind;
pub use lengths::{
    MOST_ANSWER, MOST_COMMAND, MOST_DIGITS, MOST_ENTRY, MOST_KEY, MOST_LABEL, MOST_NAME,
    MOST_NUMBER, MOST_REQUEST, MOST_WORD,
};
pub use line::{Line, parse_event, parse_line};
pub use named::named_in;
pub use number::parse_number;
pub use parting::{cut, cut_line};
pub use refusals::{cause_word, causes};
pub use row::{parse_row, put_row};
pub use spelling::{put_event, put_number, put_size};
pub use verbs::access_in;
