//! Locks and versions together: what a transaction has, what its parent inherits, and what is
//! undone (Moss 1981).
#![tactic(auto)]

mod asking;
mod changes;
mod estate;
mod hints;

pub use estate::Estate;
