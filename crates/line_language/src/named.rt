//! Lines that name a transaction and nothing else: those that begin or end it.
ghost use Rattle.std.specs.Prelude.{◌≡◌, IfSome, Ok};
ghost use Rattle.event_lists.specs.Views.{event_by};
ghost use Rattle.event_lists.specs.Words.{IsRead, named};
ghost use Rattle.line_language.specs.Commands.{event_of, named as named_alone};
ghost use Rattle.line_language.specs.Words.{cut_at};

use event_lists::{Act, Events, NameWord};

// The word of a name that stands alone.
#[inline(always)]
fn name_alone<'a>(words: &'a [u8], before: Option<&Events>) -> Option<NameWord<'a>>
    ensures read { IfSome result (λ name. named_alone (cut_at 32 words.now) ≡ Ok (named name)) }
    ensures word { IfSome result IsRead }
{
    match NameWord::parse(words, before) {
        Ok(name) => Some(name),
        Err(_) => None,
    }
}

/// The word of the transaction that a line begins, commits or aborts, and which of these it asks. Of
/// lines that have a fault, and of others, nothing is told. A name that one of these events has, those
/// of the lines before, is mostly known by its bytes; one that begins is mostly new.
#[inline(always)]
pub fn named_in<'a>(bytes: &'a [u8], before: Option<&Events>) -> Option<(NameWord<'a>, Act)>
    ensures read { IfSome result (λ r. event_of bytes.now ≡ Ok (event_by (named r.0) r.1)) }
    ensures word { IfSome result (λ r. IsRead r.0) }
{
    match bytes {
        [b'b', b'e', b'g', b'i', b'n', b' ', words @ ..] => {
            let name = name_alone(words, None)?;
            Some((name, Act::Begin))
        }
        [b'c', b'o', b'm', b'm', b'i', b't', b' ', words @ ..] => {
            let name = name_alone(words, before)?;
            Some((name, Act::Commit))
        }
        [b'a', b'b', b'o', b'r', b't', b' ', words @ ..] => {
            let name = name_alone(words, before)?;
            Some((name, Act::Abort))
        }
        _ => None,
    }
}
