//! The tests of tx_program, and of the commands over files that are not the machine's.
#![tactic(auto)]

#[cfg(test)]
mod interrupted_tests;
#[cfg(test)]
mod showing_tests;
#[cfg(test)]
mod tx_program_tests;
