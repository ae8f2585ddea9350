//! The words of lines. Those of at most five bytes are told by their length and their bytes, without
//! a call.
//!
//! What stands here of the operations on a key is all that lines have of them: the word, a number
//! behind the key or none, and what each may be replied.
ghost use Rattle.std.specs.Prelude.{◌≡◌, ◌++◌, IfOk, IfSome, codes};
ghost use Rattle.std.specs.Str.{bytes_eq};
ghost use Rattle.line_language.specs.Accesses.{AreRead, asked_in};
ghost use Rattle.line_language.specs.Commands.{event_of};
ghost use Rattle.line_language.specs.Steps.{Gives};
ghost use Rattle.line_language.specs.Verbs.{may_reply, operand, operation_of, with_operand, word};

use crate::command::{AccessWords, keyed_words, valued_words};
use crate::fault::LineKind;
use event_lists::Events;
use serial_spec::{Op, Reply};

/// The operation that the word asks, with the number 0 where it has one.
pub(crate) fn operation_of(word: &[u8]) -> Option<Op>
    ensures { result ≡ operation_of word.now }
{
    match word {
        b"get" => Some(Op::Get),
        b"set" => Some(Op::Set(0)),
        b"add" => Some(Op::Add(0)),
        b"del" => Some(Op::Del),
        _ => None,
    }
}

/// The words of a line that asks for an access of a key, or the kind of its first fault. Of other
/// lines nothing is told. A name that one of these events has, those of the lines before, is mostly
/// known by its bytes.
pub fn access_in<'a>(
    bytes: &'a [u8],
    before: Option<&Events>,
) -> Option<Result<AccessWords<'a>, LineKind>>
    ensures read { IfSome result (λ read. Gives asked_in read (event_of bytes.now)) }
    ensures words { IfSome result (λ read. IfOk read AreRead) }
{
    match bytes {
        [b'g', b'e', b't', b' ', words @ ..] => Some(keyed_words(words, Op::Get, before)),
        [b's', b'e', b't', b' ', words @ ..] => Some(valued_words(words, Op::Set(0), before)),
        [b'a', b'd', b'd', b' ', words @ ..] => Some(valued_words(words, Op::Add(0), before)),
        [b'd', b'e', b'l', b' ', words @ ..] => Some(keyed_words(words, Op::Del, before)),
        _ => None,
    }
}

/// The word of the operation and a space.
pub(crate) fn lead(op: Op) -> &'static [u8]
    ensures { result.now ≡ word op ++ codes " " }
{
    match op {
        Op::Get => b"get ",
        Op::Set(_) => b"set ",
        Op::Add(_) => b"add ",
        Op::Del => b"del ",
    }
}

/// The number of the operation, if it has one.
pub(crate) fn operand(op: Op) -> Option<i64>
    ensures { result ≡ operand op }
{
    match op {
        Op::Set(number) | Op::Add(number) => Some(number),
        Op::Get | Op::Del => None,
    }
}

/// The same operation with this number, where it has one.
pub(crate) fn with_operand(op: Op, number: i64) -> Op
    ensures { result ≡ with_operand op number }
{
    match op {
        Op::Set(_) => Op::Set(number),
        Op::Add(_) => Op::Add(number),
        Op::Get | Op::Del => op,
    }
}

/// Whether the operation may have the reply.
pub(crate) fn may_reply(op: Op, reply: Reply) -> bool
    ensures { result ≡ may_reply op reply }
{
    match reply {
        Reply::Value(_) | Reply::Absent => matches!(op, Op::Get),
        Reply::Ok => matches!(op, Op::Set(_) | Op::Del),
        Reply::New(_) | Reply::Overflow => matches!(op, Op::Add(_)),
    }
}

pub(crate) fn is_begin(word: &[u8]) -> bool
    ensures { result ≡ bytes_eq word.now (codes "begin") }
{
    matches!(word, b"begin")
}

pub(crate) fn is_sum(word: &[u8]) -> bool
    ensures { result ≡ bytes_eq word.now (codes "sum") }
{
    matches!(word, b"sum")
}

pub(crate) fn is_abort(word: &[u8]) -> bool
    ensures { result ≡ bytes_eq word.now (codes "abort") }
{
    matches!(word, b"abort")
}

pub(crate) fn is_after(word: &[u8]) -> bool
    ensures { result ≡ bytes_eq word.now (codes "after") }
{
    matches!(word, b"after")
}
