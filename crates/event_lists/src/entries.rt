//! A list of entries.
ghost use Rattle.std.specs.Prelude.{◌≡◌, ◌+◌, ◌<◌, ◌≤◌, ◌↔◌, [], ◌∷◌, ◌++◌, length, slice_get, vec_capacity, vec_len, Some, OnOk, IsOk, IsTrue};
ghost use Rattle.std.specs.Option.{option_map};
ghost use Rattle.event_lists.specs.Lists.{IsNamed, Keeps, is_orphan, name_at};
ghost use Rattle.event_lists.specs.Views.{answer_by, seen};

use crate::names::{Asking, Names};
use crate::view::{Cause, EntryView, EventView, Said};
use crate::word::NameWord;
use serial_spec::{By, MOST_SESSIONS, NoMemory};
use std::alloc::{AllocError, Global};
use std::marker::Model;
use txn_names::Name;

// An entry, its names by number.
#[derive(Clone, Copy)]
struct Noted {
    by: By,
    event: Asking,
    said: Said,
    // Any name but where the line was refused as an orphan's.
    top: usize,
}

/// Entries, the oldest first. After `reserve` they are added without memory. A name is mostly kept
/// once for all entries that have it.
#[derive(Drop)]
pub struct Entries {
    names: Names,
    notes: Vec<Noted>,
    // For each session the numbers of its last entry's name, and of the ancestor that was told
    // last.
    last: [usize; MOST_SESSIONS],
    tops: [usize; MOST_SESSIONS],
    room: usize,
}

impl Model for Entries {
    ghost use Rattle.std.specs.Prelude.{◌+◌, ◌≤◌, length, vec_len, vec_capacity};
    ghost use Rattle.std.specs.List.{AllByRecursion};
    ghost use Rattle.event_lists.specs.Lists.{HasNames, Listed, entries_of};

    ghost Value = { Listed };

    ghost view = { λ e. record {
      entries = entries_of e.names.items e.notes.items;
      room = e.room;
    } };

    ghost invariant = { λ e.
        AllByRecursion (HasNames e.names.items) e.notes.items
        × (vec_len e.notes + e.room ≤ vec_capacity e.notes)
        × (length e.names.items + (e.room + e.room) ≤ e.names.capacity) };
}

// Makes room for so many more notes, and at once for eight times as many as there are: so they are seldom
// moved, and room that is not used is not touched. Where that is refused, it is made for those alone.
fn make_room(notes: &mut Vec<Noted>, additional: usize) -> Result<(), NoMemory>
    ensures items { notes.new.items ≡ notes.old.items }
    ensures room { OnOk result (vec_len notes.new + additional ≤ vec_capacity notes.new) }
    ensures capacity { vec_capacity notes.old ≤ vec_capacity notes.new }
{
    if additional <= notes.capacity() - notes.len() {
        return Ok(());
    }
    let more = notes.len().saturating_mul(7).max(additional);
    if notes.reserve(more).is_err() {
        notes.reserve(additional)?;
    }
    Ok(())
}

// Whether an orphan is refused, which tells its aborted ancestor.
fn is_orphan(said: Said) -> bool
    ensures { result ≡ is_orphan said }
{
    match said {
        Said::Refused(Cause::Orphan) => true,
        _ => false,
    }
}

// The number of the name that an entry tells beside its own: mostly it is its own, or the one that
// the session's entries told last. Where it tells none its own will do.
#[inline(always)]
fn number_of_top(names: &mut Names, own: usize, told: &mut usize, said: Said, top: &Name) -> usize
    requires room { length names.old.items < names.old.capacity }
    requires own { IsNamed names.old.items own }
    ensures named { IsNamed names.new.items result }
    ensures told { answer_by said (name_at names.new.items result) ≡ answer_by said top.now }
    ensures keeps { Keeps names.old.items names.new.items }
    ensures len { length names.new.items ≤ length names.old.items + 1 }
    ensures capacity { names.new.capacity ≡ names.old.capacity }
{
    if !is_orphan(said) || names.is_spelled(own, top.spelled()) {
        own
    } else {
        *told = names.number_of(*told, &NameWord::of(top));
        *told
    }
}

// The place of a line's session, where that has one, and else any.
fn place_of(by: By) -> usize
    ensures { result < 64 }
{
    match by {
        By::Line { session, .. } if (session as usize) < MOST_SESSIONS => session as usize,
        _ => 0,
    }
}

impl Entries {
    /// No entries. It takes no memory.
    pub fn new(alloc: Global) -> Entries
        ensures { result ≡ record { entries = []; room = 0 } }
    {
        Entries {
            names: Names::new(alloc),
            notes: Vec::new(alloc),
            last: [0; MOST_SESSIONS],
            tops: [0; MOST_SESSIONS],
            room: 0,
        }
    }

    /// How many entries there are.
    pub fn len(&self) -> usize
        ensures { result ≡ length self.now.entries }
    {
        self.notes.len()
    }

    /// Whether there are none.
    pub fn is_empty(&self) -> bool
        ensures { IsTrue result ↔ (self.now.entries ≡ []) }
    {
        self.notes.is_empty()
    }

    /// The entry at this place, where there is one: the oldest has place 0.
    #[inline(always)]
    pub fn get(&self, place: usize) -> Option<EntryView<'_>>
        ensures { option_map seen result ≡ slice_get self.now.entries place }
    {
        let noted = self.notes.get(place)?;
        let name = self.names.get(noted.event.name)?;
        let top = self.names.get(noted.top)?;
        Some(EntryView {
            by: noted.by,
            event: EventView {
                name,
                act: &noted.event.act,
            },
            said: noted.said,
            top,
        })
    }

    /// Makes room for so many more entries, and succeeds without memory where there is room. The
    /// only error is that memory runs out; the entries are as before then too.
    pub fn reserve(&mut self, additional: usize) -> Result<(), NoMemory>
        ensures entries { self.new.entries ≡ self.old.entries }
        ensures ok { OnOk result (additional ≤ self.new.room) }
        ensures succeeds { additional ≤ self.old.room → IsOk result }
        ensures room { self.old.room ≤ self.new.room }
    {
        if additional <= self.room {
            return Ok(());
        }
        make_room(&mut self.notes, additional)?;
        // An entry has two names at most.
        let Some(names) = additional.checked_add(additional) else {
            return Err(AllocError);
        };
        self.names.reserve(names)?;
        self.room = additional;
        Ok(())
    }

    /// Adds an entry. It takes no memory.
    #[inline(always)]
    pub fn push(&mut self, entry: &EntryView<'_>)
        requires { 0 < self.old.room }
        ensures entries { self.new.entries ≡ self.old.entries ++ seen entry.now ∷ [] }
        ensures room { self.old.room ≤ self.new.room + 1 }
    {
        let place = place_of(entry.by);
        let word = NameWord::of(entry.event.name);
        let last = self.last[place];
        let name = self.names.number_of(last, &word);
        self.last[place] = name;
        let told = &mut self.tops[place];
        let top = number_of_top(&mut self.names, name, told, entry.said, entry.top);
        self.names.follow(last, name);
        self.notes.push_reserved(Noted {
            by: entry.by,
            event: Asking {
                name,
                act: *entry.event.act,
            },
            said: entry.said,
            top,
        });
        self.room -= 1;
    }
}
