//! A store of rows in memory under the SQL of `sqlite`. A write is made once: what undoes it stands
//! in a log until the commit, and a rollback makes the log's entries, the newest first.
#![tactic(auto)]

mod edit;
mod log;
mod open;
mod probe;
mod rows;
mod store;
mod traits;
mod typed;

pub use open::connect;
pub use store::RowStore;
