//! States of transactions.

/// What became of a transaction by its own begin, commit and abort alone, whatever became of its
/// superiors.
#[derive(Clone, Copy, Debug, PartialEq, Eq)]
pub enum Status {
    /// It never began.
    Absent,
    Live,
    Committed,
    Aborted,
}
