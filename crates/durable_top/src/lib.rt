//! Where the results of top-level transactions are kept: one table, in which each row has the
//! number of the commit that set it, and what a store of it promises.
#![tactic(auto)]

mod memory;
mod numbers;
mod row_table;
mod rows;
mod store;

pub use memory::MemStore;
pub use numbers::{NumberTable, next_number};
pub use rows::{are_numbered, are_rising, table_of};
pub use store::{Row, StoreFault, TopStore};
