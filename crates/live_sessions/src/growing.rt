//! Where a request's line goes, and whether it may go there.
ghost use Rattle.std.specs.Prelude.{◌≡◌, ◌<◌, None, length, slice_get, IfOk, OnOk};
ghost use Rattle.serial_spec.specs.declared.limits.TheConstants.{MOST_LINES};
ghost use Rattle.serial_spec.specs.Interleaving.{lines_of};
ghost use Rattle.session_text.specs.Growing.{place_of, with_line_of};
ghost use Rattle.growing_sessions.specs.Growing.{IsOpenEnded, labels_in};
ghost use Rattle.interleavings.specs.Progressing.{AreUnderWay};
ghost use Rattle.live_sessions.specs.Requested.{fault_at, number_of, with_request, with_session};

use durable_top::TopStore;
use interleavings::Progress;
use serial_spec::{MOST_LINES, MOST_SESSIONS, NoMemory};
use session_text::{Line, LineKind, Sessions};
use std::alloc::Global;
use txn_names::Label;

/// Why the session with this label takes no line, if it takes none.
pub(crate) fn refusal<S: TopStore>(
    sessions: &Sessions,
    progress: &Progress<S>,
    label: &Label,
) -> Option<LineKind>
    requires { AreUnderWay sessions.now progress.now }
    ensures { result ≡ fault_at sessions.now progress.now.core.history
        (place_of label.now sessions.now) }
{
    let Some(session) = sessions.place(label) else {
        return if sessions.len() < MOST_SESSIONS {
            None
        } else {
            Some(LineKind::Limit)
        };
    };
    let next = progress.next(session).unwrap() as usize;
    let count = sessions.line_count(session);
    if next <= count {
        Some(LineKind::Turn)
    } else if count < MOST_LINES {
        None
    } else {
        Some(LineKind::Limit)
    }
}

// A session behind the others, with this label. Its place is their number.
fn add_session<S: TopStore>(
    alloc: Global,
    sessions: &mut Sessions,
    labels: &mut Vec<Label>,
    progress: &mut Progress<S>,
    label: Label,
) -> Result<u32, NoMemory>
    requires way { AreUnderWay sessions.old progress.old }
    requires open_ended { IsOpenEnded progress.old.core.history }
    requires labels { labels.old.items ≡ labels_in sessions.old }
    requires none { place_of label sessions.old ≡ None }
    requires welcome { fault_at sessions.old progress.old.core.history None ≡ None }
    ensures place { IfOk result (λ s. s ≡ length sessions.old) }
    ensures sessions { OnOk result (sessions.new ≡ with_session None sessions.old label) }
    ensures core { progress.new.core ≡ progress.old.core }
    ensures way { OnOk result (AreUnderWay sessions.new progress.new) }
    ensures labels { OnOk result (labels.new.items ≡ labels_in sessions.new) }
{
    let place = sessions.len() as u32;
    labels.push(label)?;
    progress.add_session()?;
    sessions.add_session(alloc, label)?;
    Ok(place)
}

// The place of the session with this label, which is made where there is none.
fn place_for<S: TopStore>(
    alloc: Global,
    sessions: &mut Sessions,
    labels: &mut Vec<Label>,
    progress: &mut Progress<S>,
    label: Label,
) -> Result<u32, NoMemory>
    requires way { AreUnderWay sessions.old progress.old }
    requires open_ended { IsOpenEnded progress.old.core.history }
    requires labels { labels.old.items ≡ labels_in sessions.old }
    requires welcome { fault_at sessions.old progress.old.core.history
        (place_of label sessions.old) ≡ None }
    ensures place { IfOk result (λ s. s ≡ number_of label sessions.old) }
    ensures there { IfOk result (λ s. s < length sessions.new) }
    ensures room { IfOk result (λ s. length (lines_of (slice_get sessions.new s)) < MOST_LINES) }
    ensures sessions { OnOk result
        (sessions.new ≡ with_session (place_of label sessions.old) sessions.old label) }
    ensures core { progress.new.core ≡ progress.old.core }
    ensures way { OnOk result (AreUnderWay sessions.new progress.new) }
    ensures labels { OnOk result (labels.new.items ≡ labels_in sessions.new) }
{
    match sessions.place(&label) {
        Some(session) => Ok(session),
        None => add_session(alloc, sessions, labels, progress, label),
    }
}

/// Adds the line to the session with this label, which is made where there is none, and answers its
/// place. Where memory runs out the sessions may have grown, and what is kept beside them may have
/// not.
pub(crate) fn grow<S: TopStore>(
    alloc: Global,
    sessions: &mut Sessions,
    labels: &mut Vec<Label>,
    progress: &mut Progress<S>,
    label: Label,
    line: Line,
) -> Result<u32, NoMemory>
    requires way { AreUnderWay sessions.old progress.old }
    requires open_ended { IsOpenEnded progress.old.core.history }
    requires labels { labels.old.items ≡ labels_in sessions.old }
    requires welcome { fault_at sessions.old progress.old.core.history
        (place_of label sessions.old) ≡ None }
    ensures place { IfOk result (λ s. s ≡ number_of label sessions.old) }
    ensures sessions { OnOk result (sessions.new ≡ with_request sessions.old label line) }
    ensures core { progress.new.core ≡ progress.old.core }
    ensures way { OnOk result (AreUnderWay sessions.new progress.new) }
    ensures labels { OnOk result (labels.new.items ≡ labels_in sessions.new) }
{
    let session = place_for(alloc, sessions, labels, progress, label)?;
    // What is known of a text comes with its length: here that it has few sessions.
    let _count = sessions.len();
    sessions.add_line(session, line)?;
    progress.wake(session);
    Ok(session)
}
