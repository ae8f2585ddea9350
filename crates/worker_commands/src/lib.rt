//! The command of the program that runs a text by workers, apart from the words that ask for it.
//! It alone is handed what waits and what starts threads.
#![tactic(auto)]

mod commands;
mod running;

pub use commands::run;
