//! The words that go in and out beside a report: the list of a schedule as the command line gives
//! it, the one line by which the program says why it gave no report, and the exit statuses.
#![tactic(auto)]

mod fault;
mod schedule;
mod status;
mod telling;

pub use fault::Fault;
pub use schedule::{attempts_of, schedule_of};
pub use status::{DONE, Ended, FAILED, MISUSED};
pub use telling::{finish, misuse, refuse, tell};
