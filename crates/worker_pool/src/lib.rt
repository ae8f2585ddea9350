//! Worker threads that take the lines of sessions in turn over one lock.
//!
//! The lock is held for one attempt of a line, and for a look for lines that must be given up;
//! never while the gate is called, and never while anything is read or written.
#![tactic(auto)]

mod desk;
mod jobs;
mod lanes;
mod own;
mod serving;
mod workers;

pub use serving::serve;
pub use workers::{Gate, MOST_WORKERS};
