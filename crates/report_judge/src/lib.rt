//! The verdict on the bytes of a report, as they come off a reader.
#![tactic(auto)]

mod lines;
mod reading;
mod seen;

pub use lines::MOST_BYTES;
pub use reading::{CheckFault, Judged, check, check_keeping};
