//! The longest lengths in bytes, each the sum of its parts and without a line feed.
use txn_names::MOST_LABELS;

/// The most bytes of a label.
pub const MOST_LABEL: usize = 16;

/// The most bytes of a name: its labels, and a slash between each two.
pub const MOST_NAME: usize = MOST_LABELS * MOST_LABEL + (MOST_LABELS - 1);

/// The most bytes of a key.
pub const MOST_KEY: usize = 32;

/// The most bytes of a number: a minus, and the digits of 2 ^ 63.
pub const MOST_NUMBER: usize = 1 + 19;

/// The most digits of the number of a line.
pub const MOST_DIGITS: usize = 4;

/// The most bytes of the word of an operation on a key.
pub const MOST_WORD: usize = 3;

/// The most bytes of a command: the word of an operation, a name, a key and a number, with a space
/// between each two.
pub const MOST_COMMAND: usize = MOST_WORD + 1 + MOST_NAME + 1 + MOST_KEY + 1 + MOST_NUMBER;

/// The most bytes of a request: a label, a space and a command.
pub const MOST_REQUEST: usize = MOST_LABEL + 1 + MOST_COMMAND;

/// The most bytes of an answer: `orphan`, a space and a name.
pub const MOST_ANSWER: usize = 6 + 1 + MOST_NAME;

/// The most bytes of an entry of a report: a label, the number of a line, a command and an answer,
/// with the spaces between and ` -> ` before the answer.
pub const MOST_ENTRY: usize = MOST_LABEL + 1 + MOST_DIGITS + 1 + MOST_COMMAND + 4 + MOST_ANSWER;

const _: () = prove!(MOST_COMMAND == 329 && MOST_REQUEST == 346 && MOST_ENTRY == 633);
