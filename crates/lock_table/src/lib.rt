//! The locks of transactions: how far each one locks each key, and who keeps whom out (Moss 1981).
#![tactic(auto)]

mod asking;
mod groups;
mod key_locks;
mod locks;
mod modes;
mod numbers;
mod taking;
mod targets;

pub use locks::Locks;
pub use serial_spec::Mode;
pub use targets::TargetLocks;
