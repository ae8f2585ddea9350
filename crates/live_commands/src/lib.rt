//! The command of the program that runs sessions as their lines come, apart from the words that ask
//! for it. It waits for nobody but its reader.
#![tactic(auto)]

mod living;

pub use living::live;
