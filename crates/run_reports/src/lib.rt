//! What a finished run has to tell, and what every such report says.
#![tactic(auto)]

mod report;

pub use report::Report;
