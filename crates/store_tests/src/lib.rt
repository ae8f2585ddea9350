//! The tests of durable_top, row_store and sql_store, each in a module of its own.
#![tactic(auto)]

#[cfg(test)]
mod durable_top_tests;
#[cfg(test)]
mod row_store_tests;
#[cfg(test)]
mod scripts;
#[cfg(test)]
mod sql_store_tests;
