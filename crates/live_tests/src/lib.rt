//! The tests of request_lines and live_runs, each in a module of its own.
#![tactic(auto)]

#[cfg(test)]
mod live_runs_tests;
#[cfg(test)]
mod request_lines_tests;
