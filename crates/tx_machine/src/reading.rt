//! The bytes of a file, up to a bound.
ghost use Rattle.std.specs.Prelude.{IfErr, IfOk};
ghost use Rattle.tx_machine.specs.Texts.{HasFile, HasTextCause, HasUnfoundCause, IsWholeText};

use crate::host::Surroundings;
use std::alloc::Global;
use txn_bytes::{MOST_READS, ReadFault, Source};

/// How many bytes a session text may have at most.
pub const LONGEST_TEXT: usize = 134_217_728;

// How many bytes are asked for at a time.
const PIECE: usize = 4096;

/// Why there is no text.
#[derive(Clone, Copy, Debug, PartialEq, Eq)]
pub enum TextFault {
    /// A growth was refused.
    NoMemory,
    /// There is no such file, a read failed, the end did not come, or there are more bytes than a
    /// text may have.
    Unread,
}

// The bytes that the source has left.
fn read_within<R: Source>(alloc: Global, from: &mut R) -> Result<Vec<u8>, TextFault>
    ensures ok { IfOk result (λ text. IsWholeText R.Source from.old from.new text.items) }
    ensures err { IfErr result (HasTextCause R.Source from.old from.new) }
{
    let mut text = Vec::new(alloc);
    let mut piece = [0u8; PIECE];
    for _call in 0..MOST_READS {
        match from.give(&mut piece) {
            Ok(0) => return Ok(text),
            Ok(len) => {
                if len > LONGEST_TEXT - text.len() {
                    return Err(TextFault::Unread);
                }
                match text.extend_from_slice(&piece[..len]) {
                    Ok(()) => {}
                    Err(_) => return Err(TextFault::NoMemory),
                }
            }
            Err(ReadFault) => return Err(TextFault::Unread),
        }
    }
    Err(TextFault::Unread)
}

/// The text at this path.
pub(crate) fn text_at<H: Surroundings>(
    host: &mut H,
    alloc: Global,
    path: &str,
) -> Result<Vec<u8>, TextFault>
    ensures ok { IfOk result (λ text.
        HasFile H.Surroundings host.old host.new path.now
        (λ old new. IsWholeText H.Text.Source old new text.items)) }
    ensures err { IfErr result
        (HasUnfoundCause H.Surroundings H.Text.Source host.old host.new path.now) }
{
    match host.find(path) {
        Ok(mut file) => {
            let text = read_within(alloc, &mut file);
            drop(file);
            text
        }
        Err(ReadFault) => Err(TextFault::Unread),
    }
}
