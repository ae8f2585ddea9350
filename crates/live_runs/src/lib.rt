//! Live runs: requests that are read as they come, each attempted at once, and a report that grows
//! with them.
#![tactic(auto)]

mod fault;
mod hearing;
mod run;
mod showing;

pub use fault::LiveFault;
pub use run::live_over;
