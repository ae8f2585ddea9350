//! What became of each transaction that a report tells of, in the order of the tree.
#![tactic(auto)]

mod links;
mod outcomes;
mod telling;
mod walking;

pub use outcomes::{Ending, Outcome, Shown};
pub use telling::{Abort, Telling, Told, Wait, told_of};
pub use walking::{Tree, tree_of};
