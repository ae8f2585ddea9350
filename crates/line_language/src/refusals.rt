//! The causes of refusal: their words, and which lines may be refused so.
//!
//! What stands here of a cause is all that lines and summaries have of it.
ghost use Rattle.std.specs.Prelude.{◌≡◌, ◌++◌, codes};
ghost use Rattle.line_language.specs.Refusals.{cause_word, causes, refusal_of, may_refuse_access, may_refuse_begin, may_refuse_commit, may_refuse_end, may_refuse_sum};

use event_lists::Cause;
use serial_spec::Refusal;

/// Each cause once, in the order in which a summary counts them.
pub fn causes() -> [Cause; 9]
    ensures { result ≡ causes }
{
    [
        Cause::Unknown,
        Cause::Used,
        Cause::NoParent,
        Cause::Orphan,
        Cause::Done,
        Cause::Children,
        Cause::Waiting,
        Cause::Full,
        Cause::Store,
    ]
}

/// The word of a cause.
pub fn cause_word(cause: Cause) -> &'static [u8]
    ensures { result.now ≡ cause_word cause }
{
    match cause {
        Cause::Unknown => b"unknown".as_slice(),
        Cause::Used => b"used".as_slice(),
        Cause::NoParent => b"no-parent".as_slice(),
        Cause::Orphan => b"orphan".as_slice(),
        Cause::Done => b"done".as_slice(),
        Cause::Children => b"children".as_slice(),
        Cause::Waiting => b"waiting".as_slice(),
        Cause::Full => b"full".as_slice(),
        Cause::Store => b"store".as_slice(),
    }
}

/// The refusal that the word behind `refused` tells.
pub(crate) fn refusal_of(word: &[u8]) -> Option<Refusal>
    ensures { result ≡ refusal_of word.now }
{
    if word == b"unknown".as_slice() {
        return Some(Refusal::Unknown);
    }
    if word == b"used".as_slice() {
        return Some(Refusal::Used);
    }
    if word == b"no-parent".as_slice() {
        return Some(Refusal::NoParent);
    }
    if word == b"done".as_slice() {
        return Some(Refusal::Done);
    }
    if word == b"children".as_slice() {
        return Some(Refusal::Children);
    }
    if word == b"waiting".as_slice() {
        return Some(Refusal::Waiting);
    }
    if word == b"full".as_slice() {
        return Some(Refusal::Full);
    }
    if word == b"store".as_slice() {
        return Some(Refusal::Store);
    }
    None
}

/// `refused` and the word behind it.
pub(crate) fn refused(cause: Cause) -> &'static [u8]
    ensures { result.now ≡ codes "refused " ++ cause_word cause }
{
    match cause {
        Cause::Unknown => b"refused unknown",
        Cause::Used => b"refused used",
        Cause::NoParent => b"refused no-parent",
        Cause::Orphan => b"refused orphan",
        Cause::Done => b"refused done",
        Cause::Children => b"refused children",
        Cause::Waiting => b"refused waiting",
        Cause::Full => b"refused full",
        Cause::Store => b"refused store",
    }
}

/// Whether a begin may be refused so.
pub(crate) fn may_refuse_begin(refusal: &Refusal) -> bool
    ensures { result ≡ may_refuse_begin refusal.now }
{
    matches!(
        refusal,
        Refusal::Used | Refusal::NoParent | Refusal::Orphan(_) | Refusal::Full
    )
}

/// Whether every other step of a transaction may be refused so: an access, a commit and an abort.
pub(crate) fn may_refuse_end(refusal: &Refusal) -> bool
    ensures { result ≡ may_refuse_end refusal.now }
{
    matches!(
        refusal,
        Refusal::Unknown | Refusal::Orphan(_) | Refusal::Done
    )
}

/// Whether an access of a key may be refused so.
pub(crate) fn may_refuse_access(refusal: &Refusal) -> bool
    ensures { result ≡ may_refuse_access refusal.now }
{
    match refusal {
        Refusal::Waiting | Refusal::Full => true,
        _ => may_refuse_end(refusal),
    }
}

/// Whether a sum may be refused so. It makes no key known, so no limit refuses it.
pub(crate) fn may_refuse_sum(refusal: &Refusal) -> bool
    ensures { result ≡ may_refuse_sum refusal.now }
{
    match refusal {
        Refusal::Waiting => true,
        _ => may_refuse_end(refusal),
    }
}

/// Whether a commit may be refused so.
pub(crate) fn may_refuse_commit(refusal: &Refusal) -> bool
    ensures { result ≡ may_refuse_commit refusal.now }
{
    match refusal {
        Refusal::Children | Refusal::Waiting | Refusal::Store => true,
        _ => may_refuse_end(refusal),
    }
}
