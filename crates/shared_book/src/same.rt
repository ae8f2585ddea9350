//! Whether two texts have the same sessions.
ghost use Rattle.std.specs.Prelude.{◌≡◌, ◌<◌, ◌↔◌, IsTrue, length, slice_get};
ghost use Rattle.serial_spec.specs.Interleaving.{lines_of};
ghost use Rattle.event_lists.specs.Views.{asked};
ghost use Rattle.session_text.specs.Texts.{label_at};

use event_lists::{EventView, is_same};
use session_text::Sessions;

/// Whether two lines have the same text: they ask the same, which has one spelling.
pub(crate) fn same_text(a: &EventView<'_>, b: &EventView<'_>) -> bool
    ensures { IsTrue result ↔ asked a.now ≡ asked b.now }
{
    is_same(a, b)
}

// Whether a session has the same lines in both.
fn same_lines(a: &Sessions, b: &Sessions, session: u32) -> bool
    ensures { IsTrue result ↔ lines_of (slice_get a.now session) ≡
        lines_of (slice_get b.now session) }
{
    // What is known of a text comes with its length: here that its sessions are short.
    let _count = a.len();
    let mut line = 1;
    while let Some(own) = a.line(session, line) {
        match b.line(session, line) {
            Some(other) if same_text(&own, &other) => line += 1,
            _ => return false,
        }
    }
    b.line(session, line).is_none()
}

// Whether a session has the same label in both.
fn same_label(a: &Sessions, b: &Sessions, session: u32) -> bool
    ensures { IsTrue result ↔ label_at a.now session ≡ label_at b.now session }
{
    a.label(session) == b.label(session)
}

fn count_of(sessions: &Sessions) -> u32
    ensures { result ≡ length sessions.now }
{
    sessions.len() as u32
}

/// Whether both have the same sessions: as many, with the same labels and lines, in the same order.
#[tactic(auto, using(crate::proofs::Equal::all_same))]
pub(crate) fn same_sessions(a: &Sessions, b: &Sessions) -> bool
    ensures { IsTrue result ↔ a.now ≡ b.now }
{
    let count = count_of(a);
    if count != count_of(b) {
        return false;
    }
    for session in 0..count {
        if !same_label(a, b, session) || !same_lines(a, b, session) {
            return false;
        }
    }
    true
}
