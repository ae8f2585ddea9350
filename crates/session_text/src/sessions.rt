//! The sessions of a text.
ghost use Rattle.std.specs.Prelude.{◌≡◌, ◌==◌, ◌++◌, [], ◌∷◌, length, IfSome, MatchResult, OnErr, OnOk, Ok, None};
ghost use Rattle.std.specs.Option.{option_copied, option_map};
ghost use Rattle.serial_spec.specs.declared.event.Event.{Event};
ghost use Rattle.event_lists.specs.Views.{asked, event_by};
ghost use Rattle.event_lists.specs.Words.{IsRead, named};
ghost use Rattle.line_language.specs.Accesses.{AreRead, asked_in};
ghost use Rattle.line_language.specs.Commands.{event_of};
ghost use Rattle.session_text.specs.Grammar.{IsText, is_taken};
ghost use Rattle.session_text.specs.Texts.{Command, Header, IsPlaced, Tells, command_of, header_of, label_at, line_at, line_of, misplaced, open_lines, sessions_of, with_line};
ghost use Rattle.line_language.specs.Words.{parts_left};

mod growing;

use crate::fault::TextFault;
use crate::header::{labelled, words_of_header};
use event_lists::{Act, EventView, Events, NameWord, act_in, name_in};
use line_language::{
    AccessWords, LineKind, access_in, cut_line, likely_access, named_in, parse_event,
};
use serial_spec::{MOST_LINES, MOST_SESSIONS, NoMemory};
use std::alloc::Global;
use std::marker::Model;
use txn_names::Label;

// A header and the lines behind it.
#[derive(Drop)]
struct Session {
    label: Label,
    lines: Events,
}

impl Model for Session {
    ghost use Rattle.serial_spec.specs.Interleaving.{Session};

    ghost Value = { Session };

    ghost view = { λ s. record { label = s.label; lines = s.lines } };
}

/// The sessions of a text, in order of their headers.
#[derive(Drop)]
pub struct Sessions {
    sessions: Vec<Session>,
}

impl Model for Sessions {
    ghost use Rattle.std.specs.Prelude.{List};
    ghost use Rattle.serial_spec.specs.Interleaving.{Session};
    ghost use Rattle.session_text.specs.Grammar.{IsText};

    ghost Value = { List Session };

    ghost view = { λ s. s.sessions.items };

    ghost invariant = { λ s. IsText s.sessions.items };
}

impl Sessions {
    /// Reads a text. Of one that is refused the first faulty line is told, and its kind; or that a
    /// growth was refused.
    pub fn parse(alloc: Global, bytes: &[u8]) -> Result<Sessions, TextFault>
        ensures { let read = sessions_of bytes.now in MatchResult result (λ sessions.
            read ≡ Ok sessions) (λ fault. Tells fault read) }
    {
        let mut sessions = Sessions::new(alloc);
        let mut number = 1;
        let mut rest = bytes;
        while !rest.is_empty() {
            let (line, after) = cut_line(rest);
            let Some(after) = after else {
                return Err(TextFault::Bad {
                    line: number,
                    kind: LineKind::End,
                });
            };
            sessions.add_bytes(alloc, number, line)?;
            number += 1;
            rest = after;
        }
        Ok(sessions)
    }

    /// The number of sessions.
    pub fn len(&self) -> usize
        ensures len { result ≡ length self.now }
        ensures text { IsText self.now }
    {
        self.sessions.len()
    }

    /// Whether there are none.
    pub fn is_empty(&self) -> bool
        ensures { result ≡ (length self.now == 0) }
    {
        self.sessions.is_empty()
    }

    /// A line of a session, where there is one: sessions count from 0 in order of their headers,
    /// lines from 1 without the header.
    pub fn line(&self, session: u32, line: u32) -> Option<EventView<'_>>
        ensures { option_map asked result ≡ line_at self.now session line }
    {
        let place = line.checked_sub(1)?;
        let session = self.sessions.get(session as usize)?;
        session.lines.get(place as usize)
    }

    /// The label of a session, where there is one: sessions count from 0.
    pub fn label(&self, session: u32) -> Option<&Label>
        ensures { option_copied result ≡ label_at self.now session }
    {
        let session = self.sessions.get(session as usize)?;
        Some(&session.label)
    }

    // One line more, the line of this number.
    fn add_bytes(&mut self, alloc: Global, number: usize, bytes: &[u8]) -> Result<(), TextFault>
        ensures { IsPlaced self.old number (line_of bytes.now) self.new result }
    {
        match words_of_header(bytes) {
            Some(words) => self.add_header(alloc, number, words),
            None => self.add_command(number, bytes),
        }
    }

    // One session more, by the words behind the first of its header, which is the line of this
    // number.
    fn add_header(
        &mut self,
        alloc: Global,
        number: usize,
        words: Option<&[u8]>,
    ) -> Result<(), TextFault>
        ensures { IsPlaced self.old number
            (header_of (parts_left 32 (option_copied words.entry))) self.new result }
    {
        let label = match labelled(words) {
            Ok(label) => label,
            Err(kind) => return Err(TextFault::Bad { line: number, kind }),
        };
        if let Some(kind) = self.fault_of_header(&label) {
            return Err(TextFault::Bad { line: number, kind });
        }
        match self.add_session(alloc, label) {
            Ok(()) => Ok(()),
            Err(NoMemory) => Err(TextFault::NoMemory),
        }
    }

    // Why a header with this label may not stand behind these sessions.
    fn fault_of_header(&self, label: &Label) -> Option<LineKind>
        ensures { result ≡ misplaced self.now (Header label.now) }
    {
        if is_taken(label, &self.sessions) {
            Some(LineKind::Header)
        } else if self.sessions.len() >= MOST_SESSIONS {
            Some(LineKind::Limit)
        } else {
            None
        }
    }

    // Why a command line may not stand behind these sessions.
    fn fault_of_command(&self) -> Option<LineKind>
        ensures { (e : Event) → result ≡ misplaced self.now (Command e) }
    {
        if self.sessions.is_empty() {
            Some(LineKind::Header)
        } else if count_open(&self.sessions) >= MOST_LINES {
            Some(LineKind::Limit)
        } else {
            None
        }
    }

    // One command line more, the line of this number. Its own faults come before that of its place.
    // Most lines access a key by the transaction that is likely next, and are read here; the others
    // are read apart, since what is large is cleared where a function begins.
    fn add_command(&mut self, number: usize, bytes: &[u8]) -> Result<(), TextFault>
        ensures { IsPlaced self.old number (command_of bytes.now) self.new result }
    {
        match likely_in(bytes, &self.sessions) {
            Some(access) => self.add_access(number, &access, bytes),
            None => self.add_searched(number, bytes),
        }
    }

    // The same, of any line.
    #[inline(never)]
    fn add_searched(&mut self, number: usize, bytes: &[u8]) -> Result<(), TextFault>
        ensures { IsPlaced self.old number (command_of bytes.now) self.new result }
    {
        match access_in(bytes, open_events(&self.sessions)) {
            Some(Ok(access)) => self.add_access(number, &access, bytes),
            Some(Err(kind)) => Err(TextFault::Bad { line: number, kind }),
            None => self.add_named(number, bytes),
        }
    }

    // A line more that asks this of the transaction that the word names, the line of this number.
    #[inline(always)]
    fn add_read(
        &mut self,
        number: usize,
        name: &NameWord<'_>,
        act: &Act,
        bytes: &[u8],
    ) -> Result<(), TextFault>
        requires word { IsRead name.now }
        requires read { event_of bytes.now ≡ Ok (event_by (named name.now) act.now) }
        ensures { IsPlaced self.old number (command_of bytes.now) self.new result }
    {
        match self.fault_of_command() {
            Some(kind) => Err(TextFault::Bad { line: number, kind }),
            None => match self.add_event(name, act, bytes) {
                Ok(()) => Ok(()),
                Err(NoMemory) => Err(TextFault::NoMemory),
            },
        }
    }

    // A line more that asks for an access of a key, the line of this number, by its words.
    #[inline(always)]
    fn add_access(
        &mut self,
        number: usize,
        access: &AccessWords<'_>,
        bytes: &[u8],
    ) -> Result<(), TextFault>
        requires read { event_of bytes.now ≡ Ok (asked_in access.now) }
        requires words { AreRead access.now }
        ensures { IsPlaced self.old number (command_of bytes.now) self.new result }
    {
        self.add_read(number, access.name(), &access.act(), bytes)
    }

    // A line more that accesses no key, the line of this number. Most of these name a transaction alone.
    #[inline(never)]
    fn add_named(&mut self, number: usize, bytes: &[u8]) -> Result<(), TextFault>
        ensures { IsPlaced self.old number (command_of bytes.now) self.new result }
    {
        match named_in(bytes, open_events(&self.sessions)) {
            Some((name, act)) => self.add_read(number, &name, &act, bytes),
            None => self.add_other(number, bytes),
        }
    }

    // One command line of any kind more, the line of this number.
    #[inline(never)]
    fn add_other(&mut self, number: usize, bytes: &[u8]) -> Result<(), TextFault>
        ensures { IsPlaced self.old number (command_of bytes.now) self.new result }
    {
        match &parse_event(bytes) {
            Err(kind) => Err(TextFault::Bad {
                line: number,
                kind: *kind,
            }),
            Ok(event) => {
                self.add_read(number, &NameWord::of(name_in(event)), &act_in(event), bytes)
            }
        }
    }

    // The line that asks this of the transaction, which is read off these bytes, behind those of
    // the last session. It may stand there.
    #[inline(always)]
    fn add_event(&mut self, name: &NameWord<'_>, act: &Act, _bytes: &[u8]) -> Result<(), NoMemory>
        requires word { IsRead name.now }
        requires read { event_of _bytes.now ≡ Ok (event_by (named name.now) act.now) }
        requires placed { misplaced self.old (Command (event_by (named name.now) act.now)) ≡ None }
        ensures ok { OnOk result
            (self.new ≡ with_line self.old (event_by (named name.now) act.now)) }
        ensures err { OnErr result (self.new ≡ self.old) }
    {
        let last = self.sessions.len() - 1;
        self.sessions[last].push(name, act)?;
        Ok(())
    }
}

impl Session {
    // A line more, which asks this of the transaction.
    #[inline(always)]
    fn push(&mut self, name: &NameWord<'_>, act: &Act) -> Result<(), NoMemory>
        requires { IsRead name.now }
        ensures label { self.new.label ≡ self.old.label }
        ensures ok { OnOk result
            (self.new.lines ≡ self.old.lines ++ event_by (named name.now) act.now ∷ []) }
        ensures err { OnErr result (self.new.lines ≡ self.old.lines) }
    {
        self.lines.push(name, act)
    }
}

fn is_taken(label: &Label, sessions: &[Session]) -> bool
    ensures { result ≡ is_taken label.now sessions.now }
{
    sessions.iter().any(|s| *label == s.label)
}

// The words of a line that accesses a key by the transaction that is likely next in the last session.
#[inline(always)]
fn likely_in<'a>(bytes: &'a [u8], sessions: &[Session]) -> Option<AccessWords<'a>>
    ensures read { IfSome result (λ access. event_of bytes.now ≡ Ok (asked_in access)) }
    ensures words { IfSome result AreRead }
{
    likely_access(bytes, open_events(sessions)?)
}

// The lines of the last session, if there is one.
fn open_events(sessions: &[Session]) -> Option<&Events> {
    match sessions {
        [] => None,
        [.., last] => Some(&last.lines),
    }
}

// How many lines the last session has, if there is one.
fn count_open(sessions: &[Session]) -> usize
    ensures { result ≡ length (open_lines sessions.now) }
{
    match sessions {
        [] => 0,
        [.., last] => last.lines.len(),
    }
}
