//! The tests of session_runs, in a module of their own.
#![tactic(auto)]

#[cfg(test)]
mod session_runs_tests;
