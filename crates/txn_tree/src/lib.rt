//! The states of transactions: who has begun, in order of beginning, and what became of each by its
//! own begin, commit and abort.
#![tactic(auto)]

mod active;
mod fault;
mod linking;
mod node;
mod number;
mod register;
mod status;
mod tree;

pub use fault::TreeFault;
pub use number::TxnNo;
pub use serial_spec::MOST_TRANSACTIONS;
pub use status::Status;
pub use tree::Tree;
