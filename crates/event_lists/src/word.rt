//! Words that spell names.
ghost use Rattle.std.specs.Prelude.{◌≡◌, IfOk, MatchResult, Ok, Err};
ghost use Rattle.txn_names.specs.Reading.{name_of};
ghost use Rattle.event_lists.specs.Words.{IsRead, named};

use crate::events::Events;
use txn_names::{Name, NameFault};

/// The number where none is likely.
const NONE: usize = usize::MAX;

/// A word that spells a name, and the number of its labels. The name, which has room for 271 bytes,
/// is made where it is to stand, and only if it does not stand there yet.
#[derive(Clone, Copy)]
pub struct NameWord<'a> {
    pub bytes: &'a [u8],
    pub depth: usize,
    /// Where the name is looked for first among those of a list: any number would do.
    pub likely: usize,
}

impl<'a> NameWord<'a> {
    /// Reads a name. One that events before have is mostly known by its bytes, and is not looked
    /// through again. Of several faults the first of Empty, BadByte, Long and Deep is answered.
    #[inline(always)]
    pub fn parse(bytes: &'a [u8], before: Option<&Events>) -> Result<NameWord<'a>, NameFault>
        ensures read { MatchResult result (λ word. name_of bytes.now ≡ Ok (named word))
            (λ fault. name_of bytes.now ≡ Err fault) }
        ensures word { IfOk result IsRead }
    {
        if let Some(events) = before {
            if let Some(word) = events.known(bytes) {
                return Ok(word);
            }
        }
        let depth = Name::depth_of(bytes)?;
        Ok(NameWord {
            bytes,
            depth,
            likely: NONE,
        })
    }

    /// The word of a name.
    #[inline(always)]
    pub fn of(name: &'a Name) -> NameWord<'a>
        ensures value { named result ≡ name.now }
        ensures word { IsRead result }
    {
        NameWord {
            bytes: name.spelled(),
            depth: name.depth(),
            likely: NONE,
        }
    }

    /// The name.
    #[inline(always)]
    pub fn name(&self) -> Name
        requires { IsRead self.now }
        ensures { result ≡ named self.now }
    {
        Name::of_spelled(self.bytes, self.depth)
    }
}
