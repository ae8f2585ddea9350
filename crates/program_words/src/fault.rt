//! The lines by which the program says why it gave no report.
ghost use Rattle.std.specs.Prelude.{◌≡◌};
ghost use Rattle.program_words.specs.Faults.{spelled_kind};

use session_text::LineKind;
use thiserror::Error;

/// Why the program gave no report. It is shown as `tell` writes it, without the line feed.
#[derive(Debug, Drop, Error)]
pub enum Fault<'a> {
    #[error("tx: cannot read {0}")]
    CannotRead(&'a str),
    #[error("tx: line {line}: {}", word_of(.kind))]
    Line { line: usize, kind: LineKind },
    #[error("tx: schedule: item {0}")]
    Schedule(usize),
    #[error("tx: cannot open database")]
    CannotOpen,
    #[error("tx: too many rows")]
    TooManyRows,
    #[error("tx: no memory")]
    NoMemory,
    #[error("tx: cannot start worker")]
    CannotStart,
    #[error("tx: cannot write")]
    CannotWrite,
}

/// The word for what is wrong with a line.
pub(crate) fn word_of(kind: &LineKind) -> &'static str
    ensures { result.now ≡ spelled_kind kind.now }
{
    match kind {
        LineKind::End => "end",
        LineKind::Empty => "empty",
        LineKind::Word => "word",
        LineKind::Shape => "shape",
        LineKind::Label => "label",
        LineKind::Name => "name",
        LineKind::Key => "key",
        LineKind::Number => "number",
        LineKind::Header => "header",
        LineKind::Limit => "limit",
        LineKind::Turn => "turn",
        LineKind::Long => "long",
    }
}
