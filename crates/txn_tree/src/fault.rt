//! Why a transaction was not begun.
use serial_spec::Refusal;

/// Why a transaction was not begun.
#[derive(Clone, Copy, Debug, PartialEq, Eq)]
pub enum TreeFault {
    /// By a rule of the tree: Used, NoParent, Orphan or Full.
    Refused(Refusal),
    /// A growth was refused.
    NoMemory,
}
