//! Lines off a reader that gives any number of bytes at a time, of each of which no more is kept
//! than a request may have.
#![tactic(auto)]

mod kept;
mod lines;
mod piece;

pub use kept::MOST_BYTES;
pub use lines::{RequestLines, Taken};
