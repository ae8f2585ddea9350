//! What the entries of a report did, each with its transaction by the number of that: the place in
//! the order of beginning.
#![tactic(auto)]

mod deeds;
mod marking;
mod noting;
mod numbering;

pub use deeds::{Deed, Doer, Mark};
pub use noting::{Notes, notes_of};
