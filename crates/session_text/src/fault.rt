//! Why a text is refused.
use line_language::LineKind;

/// Why a text is refused.
#[derive(Clone, Copy, Debug, PartialEq, Eq)]
pub enum TextFault {
    /// The first line that has a fault, counted from 1, headers too.
    Bad { line: usize, kind: LineKind },
    /// A growth was refused, which says nothing of the text.
    NoMemory,
}
