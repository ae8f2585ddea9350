//! Verdicts.

/// What the bytes of a report come to.
#[derive(Clone, Copy, Debug, PartialEq, Eq)]
pub enum Verdict {
    Yes,
    /// The line, counted from 1, at which the first fault was found.
    No(usize),
}
