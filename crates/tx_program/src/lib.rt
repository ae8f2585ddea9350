//! What the program does with the words of its command line.
#![tactic(auto)]

mod program;
mod starting;

pub use program::tx_main;
pub use program_words::MISUSED;
pub use starting::start;
