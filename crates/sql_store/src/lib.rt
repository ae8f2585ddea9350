//! The tables of results in SQLite, as a store of top-level transactions: the old one, of keys and
//! values, and the new one, in which each row has a number too.
#![tactic(auto)]

mod close;
mod commit;
mod faults;
mod file;
mod inside;
mod load;
mod memory;
mod open;
mod puts;
mod reading;
mod rows;
mod schema;
mod statements;
mod store;
mod writes;

pub use file::DatabaseStore;
pub use memory::MemoryStore;
pub use store::SqlStore;
