//! What is kept of a report while it is read: its sessions, its transactions with their accesses,
//! and the keys and groups that it names.
#![tactic(auto)]

mod chains;
mod comparing;
mod serving;
mod sessions;
mod tallies;
mod transactions;
mod values;

pub use chains::{Access, ByNumber, Chain};
pub use comparing::compare;
pub use serving::serve_all;
pub use sessions::{Session, Sessions, none_waits, session_number, take_line};
pub use transactions::{Transactions, abort, access, begin, commit};
pub use values::{Groups, Values, group_number, number_of};
