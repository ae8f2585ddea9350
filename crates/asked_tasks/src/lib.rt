//! What the words of a command line ask the program to do, or what it tells where they ask for
//! nothing.
#![tactic(auto)]

mod asking;
mod given;
mod replaying;

pub use asking::task_asked;
pub use given::{tell_no_words, words_behind_name};
pub use replaying::{AskedReplay, replay_asked};
