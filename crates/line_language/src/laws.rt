//! The laws of lines, each as the contract of a function that does nothing.

ghost use Rattle.line_language.specs.Laws.{EntriesReadBack, LinesReadBack, NumbersReadBack, RowsReadBack};

/// Bytes are read as a number exactly where they spell it.
pub fn numbers_read_back()
    ensures { NumbersReadBack }
{}

/// Bytes are read as a command exactly where they spell it.
pub fn lines_read_back()
    ensures { LinesReadBack }
{}

/// Bytes are read as an entry exactly where they spell it.
pub fn entries_read_back()
    ensures { EntriesReadBack }
{}

/// Bytes are read as a row exactly where they spell it.
pub fn rows_read_back()
    ensures { RowsReadBack }
{}
