//! The sessions that a report names: which line of each comes next, and whether it has begun to
//! wait.
ghost use Rattle.std.specs.Prelude.{◌≡◌, ◌↔◌, ◌∷◌, ◌++◌, [], ◌<◌, ◌&&◌, ℕ, IsTrue, IfOk, IfSome, OnOk, length, is_none, None};
ghost use Rattle.indexmap.specs.IndexMap.{get};
ghost use Rattle.txn_names.specs.Path.{label_eq};
ghost use Rattle.line_language.specs.Events.{IsEvent};
ghost use Rattle.serial_spec.specs.Waits.{is_waits};
ghost use Rattle.serial_spec.specs.History.{History};
ghost use Rattle.report_check.specs.Passing.{goes_on, none_waits};
ghost use Rattle.serial_spec.specs.Interleaving.{answered};
ghost use Rattle.report_check.specs.Passing.{waiting};
ghost use Rattle.report_tables.specs.Spoken.{IsNumbered, IsSessionOf, told_session, OfSessions, TakesLine, may_come};

use indexmap::IndexMap;
use serial_spec::{Answer, Event, MOST_SESSIONS, NoMemory};
use std::alloc::AllocError;
use txn_history::is_same;
use txn_names::Label;

/// What is kept of a session.
#[derive(Clone, Copy, Drop)]
pub struct Session {
    /// How many of its lines are answered.
    pub answered: u32,
    /// What the next line asks, if it waits.
    pub waits: Option<Event>,
}

/// The sessions in the order in which they are first named.
pub type Sessions = IndexMap<Label, Session>;

fn is_wait(answer: &Answer) -> bool
    ensures { result ≡ is_waits answer.now }
{
    matches!(answer, Answer::Waits)
}

// Whether a line that waits with the first event, if it does, may go on so.
fn may_go_on(waits: &Option<Event>, event: &Event, answer: &Answer) -> bool
    ensures { IfSome waits.now IsEvent → IsEvent event.now →
        result ≡ goes_on waits.now event.now answer.now }
{
    match waits {
        Some(waiting) => is_same(waiting, event) && !is_wait(answer),
        None => true,
    }
}

impl Session {
    fn is_idle(&self) -> bool
        ensures { result ≡ is_none self.now.waits }
    {
        self.waits.is_none()
    }

    // Whether this may be told of the session's line: it is the next one, and has the text with
    // which it waits, if it does.
    fn may_tell(&self, line: u32, event: &Event, answer: &Answer) -> bool
        ensures { (h : History) (s : ℕ) → IsSessionOf h s self.now → IsEvent event.now
            → result ≡ may_come h s line event.now answer.now }
    {
        if u64::from(line) != u64::from(self.answered) + 1 {
            return false;
        }
        may_go_on(&self.waits, event, answer)
    }

    // Afterwards as many lines are answered as before where it begins to wait.
    fn tell(&mut self, line: u32, event: &Event, answer: &Answer)
        ensures { self.new ≡ told_session line event.now answer.now self.old.answered }
    {
        if is_wait(answer) {
            self.waits = Some(*event);
        } else {
            self.answered = line;
            self.waits = None;
        }
    }
}

// A session of which nothing is told yet but perhaps what its first line asks.
fn add_session(sessions: &mut Sessions, label: &Label, waits: Option<Event>) -> Result<(), NoMemory>
    requires new { get label_eq sessions.old label.now ≡ None }
    ensures { OnOk result (sessions.new.entries ≡ sessions.old.entries
        ++ (label.now, record { answered = 0; waits = waits }) ∷ []) }
{
    let session = Session { answered: 0, waits };
    match sessions.insert(*label, session) {
        Ok(_) => Ok(()),
        Err(_) => Err(AllocError),
    }
}

/// The number of the session with this label, which a new label is given. There is none where it
/// would be one too many. The only error is that memory runs out.
pub fn session_number(sessions: &mut Sessions, label: &Label) -> Result<Option<usize>, NoMemory>
    ensures { IfOk result (λ number. OfSessions sessions.old.entries (λ labels h.
        IsNumbered labels label.now h number sessions.new.entries)) }
{
    if let Some(number) = sessions.get_index_of(label) {
        return Ok(Some(number));
    }
    let number = sessions.len();
    if number >= MOST_SESSIONS {
        return Ok(None);
    }
    add_session(sessions, label, None)?;
    Ok(Some(number))
}

/// Takes an entry of a session's line, if it may be told where it stands.
pub fn take_line(
    sessions: &mut Sessions,
    number: usize,
    line: u32,
    event: &Event,
    answer: &Answer,
) -> bool
    ensures { OfSessions sessions.old.entries (λ labels h.
        TakesLine labels h number line event.now answer.now sessions.new.entries result) }
{
    let Some(session) = sessions.get_index_mut(number) else {
        return false;
    };
    if !session.may_tell(line, event, answer) {
        return false;
    }
    session.tell(line, event, answer);
    true
}

// Whether the session with this number has no line that waits.
fn is_idle_at(sessions: &Sessions, number: usize) -> bool
    ensures { OfSessions sessions.now.entries
        (λ labels h. number < length labels → result ≡ is_none (waiting h number)) }
{
    match sessions.get_index(number) {
        Some((_, session)) => session.is_idle(),
        None => true,
    }
}

/// Whether no session has a line that waits.
pub fn none_waits(sessions: &Sessions) -> bool
    ensures { OfSessions sessions.now.entries (λ labels h. result ≡ none_waits h (length labels)) }
{
    for number in 0..sessions.len() {
        if !is_idle_at(sessions, number) {
            return false;
        }
    }
    true
}
