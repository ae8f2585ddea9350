//! What a command asks of the machine: files and databases by their paths, the text of a file, and a
//! store in memory or over a database, which is closed in the end.
#![tactic(auto)]

mod beginning;
mod host;
mod reading;
mod setting;
mod store;

pub use beginning::{begin, close_store, open_store};
pub use host::{Machine, Surroundings};
pub use reading::{LONGEST_TEXT, TextFault};
pub use setting::Setting;
pub use store::EitherStore;
