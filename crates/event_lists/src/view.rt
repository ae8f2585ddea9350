//! An entry whose names stand elsewhere.
ghost use Rattle.std.specs.Prelude.{◌≡◌, ◌↔◌, IsTrue};
ghost use Rattle.event_lists.specs.Views.{act_of, answer_by, asked, cause_of, event_by, name_of, refusal_by, seen};

use serial_spec::{Answer, By, Entry, Event, Op, Refusal, Reply, When};
use txn_names::{Group, Key, Name};

/// What a line asks of the transaction that it names.
#[derive(Clone, Copy, Debug, PartialEq, Eq)]
pub enum Act {
    Begin,
    Access(Key, Op),
    /// The sum of the values of all present keys of the group.
    Sum(Group),
    Commit,
    Abort,
    After(When),
}

/// Why a line was refused, the name of the topmost aborted transaction left aside.
#[derive(Clone, Copy, Debug, PartialEq, Eq)]
pub enum Cause {
    Unknown,
    Used,
    NoParent,
    Orphan,
    Done,
    Children,
    Waiting,
    Full,
    Store,
}

/// What a line was answered, or that it waits, such a name left aside.
#[derive(Clone, Copy, Debug, PartialEq, Eq)]
pub enum Said {
    Done(Reply),
    /// No answer yet: the line is answered by a later entry.
    Waits,
    /// Given up, since no session could go on.
    Stuck,
    Refused(Cause),
}

/// An event by its parts, which stand elsewhere.
#[derive(Clone, Copy)]
pub struct EventView<'a> {
    /// The transaction that the line names.
    pub name: &'a Name,
    pub act: &'a Act,
}

/// An entry by its parts. Its event and its names stand elsewhere.
#[derive(Clone, Copy)]
pub struct EntryView<'a> {
    pub by: By,
    pub event: EventView<'a>,
    pub said: Said,
    /// The topmost aborted transaction, where the line was refused as an orphan's. Else any name.
    pub top: &'a Name,
}

impl EventView<'_> {
    /// The event, its name and what it asks copied.
    pub fn event(&self) -> Event
        ensures { result ≡ asked self.now }
    {
        let name = *self.name;
        match self.act {
            Act::Begin => Event::Begin(name),
            Act::Access(key, op) => Event::Access(name, *key, *op),
            Act::Sum(group) => Event::Sum(name, *group),
            Act::Commit => Event::Commit(name),
            Act::Abort => Event::Abort(name),
            Act::After(when) => Event::After(name, *when),
        }
    }
}

impl EntryView<'_> {
    /// The entry, its names copied.
    pub fn entry(&self) -> Entry
        ensures { result ≡ seen self.now }
    {
        Entry {
            by: self.by,
            event: self.event.event(),
            answer: answer_by(self.said, self.top),
        }
    }
}

fn refusal_by(cause: Cause, top: &Name) -> Refusal
    ensures { result ≡ refusal_by cause top.now }
{
    match cause {
        Cause::Unknown => Refusal::Unknown,
        Cause::Used => Refusal::Used,
        Cause::NoParent => Refusal::NoParent,
        Cause::Orphan => Refusal::Orphan(*top),
        Cause::Done => Refusal::Done,
        Cause::Children => Refusal::Children,
        Cause::Waiting => Refusal::Waiting,
        Cause::Full => Refusal::Full,
        Cause::Store => Refusal::Store,
    }
}

fn answer_by(said: Said, top: &Name) -> Answer
    ensures { result ≡ answer_by said top.now }
{
    match said {
        Said::Done(reply) => Answer::Done(reply),
        Said::Waits => Answer::Waits,
        Said::Stuck => Answer::Stuck,
        Said::Refused(cause) => Answer::Refused(refusal_by(cause, top)),
    }
}

/// The name in an event.
pub fn name_in(event: &Event) -> &Name
    ensures { result.now ≡ name_of event.now }
{
    match event {
        Event::Begin(name)
        | Event::Access(name, _, _)
        | Event::Sum(name, _)
        | Event::Commit(name)
        | Event::Abort(name)
        | Event::After(name, _) => name,
    }
}

/// What an event asks of the transaction that it names.
pub fn act_in(event: &Event) -> Act
    ensures act { result ≡ act_of event.now }
    ensures event { event_by (name_of event.now) result ≡ event.now }
{
    match event {
        Event::Begin(_) => Act::Begin,
        Event::Access(_, key, op) => Act::Access(*key, *op),
        Event::Sum(_, group) => Act::Sum(*group),
        Event::Commit(_) => Act::Commit,
        Event::Abort(_) => Act::Abort,
        Event::After(_, when) => Act::After(*when),
    }
}

/// The cause that a refusal tells.
pub fn cause_of(refusal: &Refusal) -> Cause
    ensures { result ≡ cause_of refusal.now }
{
    match refusal {
        Refusal::Unknown => Cause::Unknown,
        Refusal::Used => Cause::Used,
        Refusal::NoParent => Cause::NoParent,
        Refusal::Done => Cause::Done,
        Refusal::Orphan(_) => Cause::Orphan,
        Refusal::Children => Cause::Children,
        Refusal::Waiting => Cause::Waiting,
        Refusal::Full => Cause::Full,
        Refusal::Store => Cause::Store,
    }
}

fn is_name(one: &Name, other: &Name) -> bool
    ensures { IsTrue result ↔ (one.now ≡ other.now) }
{
    *one == *other
}

fn is_act(one: &Act, other: &Act) -> bool
    ensures { IsTrue result ↔ (one.now ≡ other.now) }
{
    *one == *other
}

/// Whether both are one event.
pub fn is_same(one: &EventView<'_>, other: &EventView<'_>) -> bool
    ensures { IsTrue result ↔ (asked one.now ≡ asked other.now) }
{
    is_name(one.name, other.name) && is_act(one.act, other.act)
}
