//! The accesses that wait, and cycles of waits: of pairs of transactions, the first waiting for the
//! second, those that wait for themselves in the end.
#![tactic(auto)]

mod cycle;
mod finder;
pub mod laws;
mod order;
mod places;
mod reached;
mod records;
mod sieve;
mod trail;
mod waits;

pub use cycle::{Cycle, victim};
pub use finder::{Work, find_cycle};
pub use waits::{Wait, Waits};
