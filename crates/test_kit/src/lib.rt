//! What tests share: names and keys by their texts, readers and writers that fail, what a run tells,
//! and worked texts with their reports. Nothing is said of it by contracts, since nothing is proved
//! from it.
#![tactic(auto)]

mod named;
mod readers;
pub mod texts;
mod told;
mod values;
mod writers;

pub use named::{child_name, group, grouped_key, key, label, name, numbered_key, numbered_name};
pub use readers::Pieces;
pub use told::Told;
pub use values::{greater, hash_of};
pub use writers::Narrow;
