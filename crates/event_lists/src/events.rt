//! A list of events.
ghost use Rattle.std.specs.Prelude.{◌≡◌, ◌<◌, ◌↔◌, [], ◌∷◌, ◌++◌, length, slice_get, vec_capacity, vec_len, IfSome, IsTrue, OnErr, OnOk, Some};
ghost use Rattle.std.specs.Option.{option_map};
ghost use Rattle.event_lists.specs.Lists.{Keeps};
ghost use Rattle.event_lists.specs.Views.{asked, event_by};
ghost use Rattle.event_lists.specs.Words.{IsRead, named};

use crate::names::{Asking, Names};
use crate::view::{Act, EventView};
use crate::word::NameWord;
use serial_spec::NoMemory;
use std::alloc::Global;
use std::marker::Model;

/// Room is made for at least so many events at once, and for eight times as many as there are: so they
/// are seldom moved, and room that is not used is not touched. Where that is refused, it is made for one.
const LEAST_ROOM: usize = 128;

/// Events in order. A name is mostly kept once for all events that have it.
#[derive(Drop)]
pub struct Events {
    names: Names,
    asked: Vec<Asking>,
    // The number of the last event's name.
    last: usize,
}

impl Model for Events {
    ghost use Rattle.std.specs.Prelude.{List};
    ghost use Rattle.std.specs.List.{AllByRecursion};
    ghost use Rattle.serial_spec.specs.declared.event.Event.{Event};
    ghost use Rattle.event_lists.specs.Lists.{HasName, events_of};

    ghost Value = { List Event };

    ghost view = { λ e. events_of e.names.items e.asked.items };

    ghost invariant = { λ e. AllByRecursion (HasName e.names.items) e.asked.items };
}

// What stands behind a space at the front.
#[inline(always)]
fn behind_space(bytes: &[u8]) -> Option<&[u8]>
    ensures { IfSome result (λ behind. bytes.now ≡ 32 ∷ behind.now) }
{
    match bytes {
        [b' ', behind @ ..] => Some(behind),
        _ => None,
    }
}

// The number of the name of which this is asked, where there is room for one. A name that begins is
// mostly new.
#[inline(always)]
fn number_for(names: &mut Names, last: usize, word: &NameWord<'_>, act: &Act) -> usize
    requires room { length names.old.items < names.old.capacity }
    requires word { IsRead word.now }
    ensures at { slice_get names.new.items result ≡ Some (named word.now) }
    ensures keeps { Keeps names.old.items names.new.items }
{
    match act {
        Act::Begin => names.number_unseen(word),
        _ => names.number_likely(last, word),
    }
}

// Makes room for one more.
#[inline(always)]
fn reserve_one(asked: &mut Vec<Asking>) -> Result<(), NoMemory>
    ensures items { asked.new.items ≡ asked.old.items }
    ensures room { OnOk result (vec_len asked.new < vec_capacity asked.new) }
{
    if asked.len() < asked.capacity() {
        return Ok(());
    }
    grow(asked)
}

// The same, where there is none. It is no part of its caller, which mostly finds room.
#[inline(never)]
fn grow(asked: &mut Vec<Asking>) -> Result<(), NoMemory>
    ensures items { asked.new.items ≡ asked.old.items }
    ensures room { OnOk result (vec_len asked.new < vec_capacity asked.new) }
{
    let more = asked.len().saturating_mul(7).max(LEAST_ROOM);
    if asked.reserve(more).is_err() {
        asked.reserve(1)?;
    }
    Ok(())
}

impl Events {
    /// No events. It takes no memory.
    pub fn new(alloc: Global) -> Events
        ensures { result ≡ [] }
    {
        Events {
            names: Names::new(alloc),
            asked: Vec::new(alloc),
            last: 0,
        }
    }

    /// How many events there are.
    pub fn len(&self) -> usize
        ensures { result ≡ length self.now }
    {
        self.asked.len()
    }

    /// Whether there are none.
    pub fn is_empty(&self) -> bool
        ensures { IsTrue result ↔ (self.now ≡ []) }
    {
        self.asked.is_empty()
    }

    /// The event at this place, where there is one: the first has place 0.
    #[inline(always)]
    pub fn get(&self, place: usize) -> Option<EventView<'_>>
        ensures { option_map asked result ≡ slice_get self.now place }
    {
        let asking = self.asked.get(place)?;
        let name = self.names.get(asking.name)?;
        Some(EventView {
            name,
            act: &asking.act,
        })
    }

    /// The bytes as a word, where an event is found whose name they spell.
    #[inline(always)]
    pub fn known<'a>(&self, spelled: &'a [u8]) -> Option<NameWord<'a>>
        ensures spelled { IfSome result (λ word. word.bytes.now ≡ spelled.now) }
        ensures word { IfSome result IsRead }
    {
        let number = self.names.find_after(self.last, spelled)?;
        let name = self.names.get(number)?;
        Some(NameWord {
            bytes: spelled,
            depth: name.depth(),
            likely: number,
        })
    }

    /// The word in front of the first space, and what stands behind that, where the word spells the
    /// name that is likely next. No name has a space, so that none is looked for.
    #[inline(always)]
    pub fn known_front<'a>(&self, bytes: &'a [u8]) -> Option<(NameWord<'a>, &'a [u8])>
        ensures parts { IfSome result (λ r. bytes.now ≡ r.0.bytes.now ++ 32 ∷ r.1.now) }
        ensures word { IfSome result (λ r. IsRead r.0) }
    {
        let likely = self.names.follower(self.last);
        let name = self.names.get(likely)?;
        let (front, rest) = bytes.split_at_checked(name.spelled().len())?;
        let behind = behind_space(rest)?;
        if !name.is_spelled(front) {
            return None;
        }
        let (bytes, depth) = (front, name.depth());
        let word = NameWord {
            bytes,
            depth,
            likely,
        };
        Some((word, behind))
    }

    /// Adds an event behind the others: what is asked of the transaction that the word names. The
    /// only error is that memory runs out; the events are as before then.
    #[inline(always)]
    pub fn push(&mut self, word: &NameWord<'_>, act: &Act) -> Result<(), NoMemory>
        requires { IsRead word.now }
        ensures ok { OnOk result (self.new ≡ self.old ++ event_by (named word.now) act.now ∷ []) }
        ensures err { OnErr result (self.new ≡ self.old) }
    {
        self.names.reserve(1)?;
        reserve_one(&mut self.asked)?;
        let name = number_for(&mut self.names, self.last, word, act);
        self.names.follow(self.last, name);
        self.last = name;
        self.asked.push_reserved(Asking { name, act: *act });
        Ok(())
    }
}
