//! What an entry did.

use line_language::Cause;

/// Whose entry it is.
#[derive(Clone, Copy, Debug, PartialEq, Eq)]
pub enum Doer {
    /// A line of the session with this number, from 0 in the order in which they are first named.
    Session(usize),
    /// The manager broke a cycle of waits.
    Victim,
    /// The manager aborts what is live at the end.
    Close,
}

/// What an entry did, with the number of the transaction that it did it of.
#[derive(Clone, Copy, Debug, PartialEq, Eq)]
pub enum Deed {
    Began(usize),
    /// An access was answered.
    Accessed(usize),
    Committed(usize),
    Aborted(usize),
    /// An access of the transaction waits.
    Waits(usize),
    /// A line was given up.
    Stuck,
    Refused(Cause),
    /// Nothing of these: a condition that holds, or a name that never began.
    Other,
}

/// An entry: whose it is, and what it did.
#[derive(Clone, Copy, Debug, PartialEq, Eq)]
pub struct Mark {
    pub by: Doer,
    pub deed: Deed,
}
