//! What a run tells.

/// The exit status of a run, and what its two writers got.
#[derive(Drop)]
pub struct Told {
    pub status: u8,
    pub out: Vec<u8>,
    pub err: Vec<u8>,
}

impl Told {
    /// Whether the run ended with this status and these outputs.
    pub fn is(&self, status: u8, out: &[u8], err: &[u8]) -> bool {
        self.status == status && self.out.as_slice() == out && self.err.as_slice() == err
    }

    /// Whether the whole report was written, and nothing else.
    pub fn is_report(&self, report: &[u8]) -> bool {
        self.is(0, report, b"")
    }

    /// Whether there is no report, and one line that says why.
    pub fn is_fault(&self, line: &str) -> bool {
        self.is(1, b"", line.as_bytes())
    }

    /// Whether the words are told as no command line.
    pub fn is_misuse(&self) -> bool {
        self.status == 2 && self.out.is_empty() && !self.err.is_empty()
    }
}
