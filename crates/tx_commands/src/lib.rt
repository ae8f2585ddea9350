//! The commands of the program that only read, apart from the words that ask for them: the verdict on
//! a report, its lines or its picture, and the rows of a database. They wait for nobody.
#![tactic(auto)]

mod checking;
mod listing;
mod showing;

pub use checking::judge;
pub use listing::list;
pub use report_shows::Choice;
pub use showing::{draw, show};
