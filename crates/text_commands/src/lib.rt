//! The command that replays a text, and the program that does nothing else, from the words that ask
//! for it. It waits for nobody.
#![tactic(auto)]

mod replaying;
mod running;
mod starting;

pub use replaying::replay;
pub use starting::start;
