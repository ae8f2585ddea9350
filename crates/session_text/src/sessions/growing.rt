//! Sessions that grow while they run, by a session or by a line.
ghost use Rattle.std.specs.Prelude.{◌≡◌, ◌<◌, [], length, position, slice_get, IsFalse, OnErr, OnOk};
ghost use Rattle.serial_spec.specs.declared.limits.TheConstants.{MOST_LINES, MOST_SESSIONS};
ghost use Rattle.serial_spec.specs.Interleaving.{lines_of};
ghost use Rattle.txn_names.specs.Path.{label_eq};
ghost use Rattle.session_text.specs.Grammar.{is_taken};
ghost use Rattle.session_text.specs.Growing.{place_of, with_line_of};
ghost use Rattle.session_text.specs.Texts.{with_header};

use super::{Session, Sessions};
use event_lists::{Events, NameWord, act_in, name_in};
use line_language::Line;
use serial_spec::NoMemory;
use std::alloc::Global;
use txn_names::Label;

impl Sessions {
    /// No sessions: a start from which they grow. It takes no memory.
    pub fn new(alloc: Global) -> Sessions
        ensures { result ≡ [] }
    {
        Sessions {
            sessions: Vec::new(alloc),
        }
    }

    /// The place of the session with this label, where there is one: sessions count from 0 in order
    /// of their headers. Labels are compared one after another, of at most 64 sessions.
    pub fn place(&self, label: &Label) -> Option<u32>
        ensures { result ≡ place_of label.now self.now }
    {
        let place = first_place(label, &self.sessions)?;
        Some(place as u32)
    }

    /// The number of lines of a session, without its header: at most 1,024, and 0 where there is no
    /// such session.
    pub fn line_count(&self, session: u32) -> usize
        ensures { result ≡ length (lines_of (slice_get self.now session)) }
    {
        match self.sessions.get(session as usize) {
            Some(session) => session.lines.len(),
            None => 0,
        }
    }

    /// A new session behind the others, which has no lines yet. Its label is none of theirs, as
    /// where `place` answers `None`, and there are fewer than 64. A growth that is refused is told
    /// as `NoMemory` and leaves the sessions as they were.
    pub fn add_session(&mut self, alloc: Global, label: Label) -> Result<(), NoMemory>
        requires free { IsFalse (is_taken label self.old) }
        requires room { length self.old < MOST_SESSIONS }
        ensures ok { OnOk result (self.new ≡ with_header self.old label) }
        ensures err { OnErr result (self.new ≡ self.old) }
    {
        let _bytes = label.as_bytes();
        let lines = Events::new(alloc);
        self.sessions.push(Session { label, lines })?;
        Ok(())
    }

    /// A line more of a session, behind its others, of which there are fewer than 1,024. A growth
    /// that is refused is told as `NoMemory` and leaves the sessions as they were.
    pub fn add_line(&mut self, session: u32, line: Line) -> Result<(), NoMemory>
        requires there { session < length self.old }
        requires room { length (lines_of (slice_get self.old session)) < MOST_LINES }
        ensures ok { OnOk result (self.new ≡ with_line_of self.old session line) }
        ensures err { OnErr result (self.new ≡ self.old) }
    {
        let event = line.event();
        let name = NameWord::of(name_in(event));
        self.sessions[session as usize].push(&name, &act_in(event))?;
        Ok(())
    }
}

// The place of the first session with this label.
fn first_place(label: &Label, sessions: &[Session]) -> Option<usize>
    ensures { result ≡ position (λ s. label_eq label.now s.label) sessions.now }
{
    sessions.iter().position(|s| *label == s.label)
}
