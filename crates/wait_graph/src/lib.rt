//! The graph of waits: which of those that wait wait for which, by the locks and the tree of
//! transactions, and whether a cycle stands in it. An edge leads from one that waits to one that
//! waits, for whom it waits.
#![tactic(auto)]

mod branch;
mod edges;
mod lockers;
mod search;
mod walk;
mod ways;

pub use search::CycleSearch;
pub use ways::any_edge_by_way_of;
