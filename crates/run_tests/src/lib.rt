//! The tests of manager_core, of interleavings with shared_book, and of worker_pool, each in a
//! module of its own.
#![tactic(auto)]

#[cfg(test)]
mod manager_core_tests;
#[cfg(test)]
mod turns_tests;
#[cfg(test)]
mod worker_pool_tests;
