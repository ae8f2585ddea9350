//! The manager of nested transactions (Moss 1981; Lynch, Merritt, Weihl, Fekete 1994). Which names
//! have begun and what became of them, who locks what, what each left, and who waits, stand in
//! tables.
#![tactic(auto)]

mod aborting;
mod accessing;
mod beginning;
mod breaking;
mod changes;
mod closing;
mod committing;
mod deciding;
mod hints;
mod keepers;
pub mod laws;
mod log;
mod looks;
mod manager;
mod outcome;
mod parking;
mod settling;
mod tables;
mod waiting;

pub use manager::{Manager, Parts};
pub use outcome::{Came, OpenFault, Outcome};
