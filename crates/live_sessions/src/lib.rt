//! Sessions that grow while they run: each request is a line of a session, and is attempted before
//! the next one is taken.
#![tactic(auto)]

mod growing;
mod live;

pub use live::Live;
