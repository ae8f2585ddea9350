//! What the words of the command line ask for, as `clap` reads them.
#![tactic(auto)]

mod command;
mod notes;
mod task;

pub use task::{Solo, Task, task_of, with_name};
