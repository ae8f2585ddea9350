//! The tests of the tables below the manager: orphans, txn_tree, txn_cells, lock_table,
//! version_stack, inherit, wait_cycles and wait_graph, each in a module of its own.
#![tactic(auto)]

#[cfg(test)]
mod inherit_tests;
#[cfg(test)]
mod lock_table_tests;
#[cfg(test)]
mod orphans_tests;
#[cfg(test)]
mod session_sets_tests;
#[cfg(test)]
mod target_locks_tests;
#[cfg(test)]
mod tools;
#[cfg(test)]
mod txn_cells_tests;
#[cfg(test)]
mod txn_tree_tests;
#[cfg(test)]
mod version_stack_tests;
#[cfg(test)]
mod wait_cycles_tests;
#[cfg(test)]
mod wait_graph_tests;
