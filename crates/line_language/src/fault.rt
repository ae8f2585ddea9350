//! What is wrong with a line.

/// What is wrong with a line. Of several faults the first in this order is told; those of operands,
/// from `Label` to `Number` and a bad last word, count from left to right.
#[derive(Clone, Copy, Debug, PartialEq, Eq)]
pub enum LineKind {
    /// The last line of the text has bytes and no line feed, whatever it holds.
    End,
    /// The line has no bytes.
    Empty,
    /// The first word is not one that starts a line, or the last word of `after` is neither `begun`
    /// nor `done`. Or a request has an `after` line.
    Word,
    /// There are more or fewer words than the first one asks, or no line stands behind the label of
    /// a request.
    Shape,
    Label,
    Name,
    /// A bad key, or a bad group.
    Key,
    Number,
    /// A command before the first header, or a header whose label stood in an earlier one.
    Header,
    /// A 65th header, or a 1,025th line of a session.
    Limit,
    /// A line of the session waits. It is a fault of requests alone.
    Turn,
    /// There are more bytes than any request has. It is a fault of requests alone.
    Long,
}
