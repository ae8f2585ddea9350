//! What lies under the lock: sessions under way, and what they were opened with.
//!
//! Whoever takes the lock knows nothing of what others did before but by the type of the value:
//! that its history is legal, has no cycle of waits, and takes the sessions' lines in turn.
#![tactic(auto)]

mod book;
mod same;

pub use book::Book;
