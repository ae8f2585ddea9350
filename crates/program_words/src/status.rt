//! The exit statuses of the program, and how a run has ended.

/// The exit status where all was done.
pub const DONE: u8 = 0;

/// The exit status where one line on the error writer says why not.
pub const FAILED: u8 = 1;

/// The exit status where the words are no command line of the program.
pub const MISUSED: u8 = 2;

/// How a run has ended.
#[derive(Drop)]
pub struct Ended<S> {
    /// The exit status.
    pub status: u8,
    /// The store, where the run gave it back.
    pub left: Option<S>,
}
