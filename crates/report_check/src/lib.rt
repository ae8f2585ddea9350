//! What is said of the bytes of a report by reading them alone: the definition of a verdict, and
//! its laws.
#![tactic(auto)]

pub mod laws;
mod verdict;

pub use verdict::Verdict;
