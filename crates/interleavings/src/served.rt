//! Why a run by workers gives no report.

use manager_core::OpenFault;

/// Why a run by workers gave no report. Its store is dropped.
#[derive(Clone, Copy, Debug, PartialEq, Eq)]
pub enum ServeFault {
    /// Memory ran out behind the opening. The store was asked what a legal history of these
    /// sessions asks, and has the table that this history leaves.
    NoMemory,
    /// The store was not opened.
    Open(OpenFault),
    /// A worker could not be started. No line was attempted.
    Thread,
}
