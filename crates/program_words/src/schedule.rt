//! The list by which a run is scheduled, as the command line gives it.
ghost use Rattle.std.specs.Prelude.{◌≡◌, IfOk, IsNone, OnErr};
ghost use Rattle.std.specs.Option.{option_copied};
ghost use Rattle.program_words.specs.Schedules.{attempts_of, schedule_of, session_in};

use session_text::parse_number;
use std::alloc::{AllocError, Global};

/// What an item stands for that is no number, or one past 32 bits: no session has this number.
const NO_SESSION: u32 = u32::MAX;

fn session_in(item: &[u8]) -> u32
    ensures { result ≡ session_in item.now }
{
    match parse_number(item) {
        Some(number) => u32::try_from(number).unwrap_or(NO_SESSION),
        None => NO_SESSION,
    }
}

/// The session numbers of a list, one comma apart: each is written `0` or without a leading zero.
/// An item that is none, or is past 32 bits, stands for 4294967295, which is no session's number;
/// so does the one item of the empty list.
pub fn schedule_of(alloc: Global, list: &[u8]) -> Result<Vec<u32>, AllocError>
    ensures { IfOk result (λ schedule. schedule.items ≡ schedule_of list.now) }
{
    list.split(|byte| *byte == b',')
        .map(|item| session_in(item))
        .collect(alloc)
}

/// The attempts that a list asks for, and none where there is no list, which takes no memory.
pub fn attempts_of(alloc: Global, list: Option<&str>) -> Result<Vec<u32>, AllocError>
    ensures ok { IfOk result (λ schedule.
        schedule.items ≡ attempts_of (option_copied list.entry)) }
    ensures listed { OnErr result (IsNone (option_copied list.entry) → ⊥) }
{
    match list {
        Some(list) => schedule_of(alloc, list.as_bytes()),
        None => Ok(Vec::new(alloc)),
    }
}
