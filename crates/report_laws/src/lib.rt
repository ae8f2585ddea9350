//! What is said of the bytes of each report that a manager can make.
#![tactic(auto)]

pub mod laws;
