//! Names by number.
ghost use Rattle.std.specs.Prelude.{◌≡◌, ◌+◌, ◌<◌, ◌≤◌, [], length, slice_get, vec_capacity, vec_len, Some, IfSome, IsTrue, OnErr, OnOk};
ghost use Rattle.std.specs.Option.{option_map};
ghost use Rattle.event_lists.specs.Lists.{IsSpelledAt, Keeps};
ghost use Rattle.event_lists.specs.Words.{IsRead, named};

use crate::index::NameIndex;
use crate::view::Act;
use crate::word::NameWord;
use serial_spec::NoMemory;
use std::alloc::Global;
use std::marker::Model;
use txn_names::Name;

/// Room is made for at least so many names at once: most lists have more than a few, and a name is large to
/// move. Where that is refused, it is made for those that are asked for.
const LEAST_ROOM: usize = 16;

/// An event, its name by number.
#[derive(Clone, Copy)]
pub(crate) struct Asking {
    pub(crate) name: usize,
    pub(crate) act: Act,
}

/// Names, of which each is mostly kept once. After `reserve` they are added without memory.
#[derive(Drop)]
pub(crate) struct Names {
    names: Vec<Name>,
    index: NameIndex,
}

impl Model for Names {
    ghost use Rattle.std.specs.Prelude.{vec_capacity};
    ghost use Rattle.event_lists.specs.Lists.{Numbered};

    ghost Value = { Numbered };

    ghost view = { λ n. record { items = n.names.items; capacity = vec_capacity n.names } };
}

/// Whether the bytes spell the name with this number.
#[inline(always)]
pub(crate) fn is_spelled_at(names: &[Name], number: usize, spelled: &[u8]) -> bool
    ensures { IsTrue result → IsSpelledAt names.now number spelled.now }
{
    match names.get(number) {
        Some(name) => name.is_spelled(spelled),
        None => false,
    }
}

// Makes room for so many more names.
#[inline(always)]
fn make_room(names: &mut Vec<Name>, additional: usize) -> Result<(), NoMemory>
    ensures items { names.new.items ≡ names.old.items }
    ensures room { OnOk result (vec_len names.new + additional ≤ vec_capacity names.new) }
    ensures capacity { vec_capacity names.old ≤ vec_capacity names.new }
{
    if additional <= names.capacity() - names.len() {
        return Ok(());
    }
    grow(names, additional)
}

// The same, where there is too little. It is no part of its caller, which mostly finds room.
#[inline(never)]
fn grow(names: &mut Vec<Name>, additional: usize) -> Result<(), NoMemory>
    ensures items { names.new.items ≡ names.old.items }
    ensures room { OnOk result (vec_len names.new + additional ≤ vec_capacity names.new) }
    ensures capacity { vec_capacity names.old ≤ vec_capacity names.new }
{
    if names.reserve(additional.max(LEAST_ROOM)).is_err() {
        names.reserve(additional)?;
    }
    Ok(())
}

impl Names {
    /// No names. It takes no memory.
    pub(crate) fn new(alloc: Global) -> Names
        ensures items { result.items ≡ [] }
        ensures capacity { result.capacity ≡ 0 }
    {
        Names {
            names: Vec::new(alloc),
            index: NameIndex::new(alloc),
        }
    }

    /// The name with this number, where there is one.
    #[inline(always)]
    pub(crate) fn get(&self, number: usize) -> Option<&Name>
        ensures { option_map (λ name. name.now) result ≡ slice_get self.now.items number }
    {
        self.names.get(number)
    }

    /// Whether the bytes spell the name with this number.
    #[inline(always)]
    pub(crate) fn is_spelled(&self, number: usize, spelled: &[u8]) -> bool
        ensures { IsTrue result → IsSpelledAt self.now.items number spelled.now }
    {
        is_spelled_at(&self.names, number, spelled)
    }

    /// The number of the name that followed the one with this number last, or any.
    #[inline(always)]
    pub(crate) fn follower(&self, last: usize) -> usize {
        self.index.follower(last)
    }

    /// The number of the name that the bytes spell, if it is found. The name that followed the last
    /// one is looked at first, and the last one next.
    #[inline(always)]
    pub(crate) fn find_after(&self, last: usize, spelled: &[u8]) -> Option<usize>
        ensures { IfSome result (λ number. IsSpelledAt self.now.items number spelled.now) }
    {
        let follower = self.index.follower(last);
        if is_spelled_at(&self.names, follower, spelled) {
            Some(follower)
        } else if last != follower && is_spelled_at(&self.names, last, spelled) {
            Some(last)
        } else {
            self.index.find(&self.names, spelled)
        }
    }

    /// Keeps that the second name followed the first, so that it is looked at first the next time.
    #[inline(always)]
    pub(crate) fn follow(&mut self, last: usize, number: usize)
        ensures { self.new ≡ self.old }
    {
        self.index.follow(last, number);
    }

    /// Makes room for so many more names. The only error is that memory runs out; the names are as
    /// before then.
    #[inline(always)]
    pub(crate) fn reserve(&mut self, additional: usize) -> Result<(), NoMemory>
        ensures items { self.new.items ≡ self.old.items }
        ensures room { OnOk result (length self.new.items + additional ≤ self.new.capacity) }
        ensures capacity { self.old.capacity ≤ self.new.capacity }
    {
        make_room(&mut self.names, additional)?;
        self.index.reserve(self.names.capacity())
    }

    /// The number of the name that the word spells: that of a name that is found, or of a new one.
    /// There is room for a name. The name that followed the last one is looked at first.
    #[inline(always)]
    pub(crate) fn number_of(&mut self, last: usize, word: &NameWord<'_>) -> usize
        requires room { length self.old.items < self.old.capacity }
        requires word { IsRead word.now }
        ensures at { slice_get self.new.items result ≡ Some (named word.now) }
        ensures keeps { Keeps self.old.items self.new.items }
        ensures len { length self.new.items ≤ length self.old.items + 1 }
        ensures capacity { self.new.capacity ≡ self.old.capacity }
    {
        match self.find_after(last, word.bytes) {
            Some(number) => number,
            None => self.add(word),
        }
    }

    /// The same. The name with the number that the word tells is looked at first: it is mostly the one.
    #[inline(always)]
    pub(crate) fn number_likely(&mut self, last: usize, word: &NameWord<'_>) -> usize
        requires room { length self.old.items < self.old.capacity }
        requires word { IsRead word.now }
        ensures at { slice_get self.new.items result ≡ Some (named word.now) }
        ensures keeps { Keeps self.old.items self.new.items }
        ensures len { length self.new.items ≤ length self.old.items + 1 }
        ensures capacity { self.new.capacity ≡ self.old.capacity }
    {
        if self.is_spelled(word.likely, word.bytes) {
            word.likely
        } else {
            self.number_elsewhere(last, word)
        }
    }

    // The number of a name that is not the likely one. It is no part of its callers, most of which find
    // that.
    #[inline(never)]
    fn number_elsewhere(&mut self, last: usize, word: &NameWord<'_>) -> usize
        requires room { length self.old.items < self.old.capacity }
        requires word { IsRead word.now }
        ensures at { slice_get self.new.items result ≡ Some (named word.now) }
        ensures keeps { Keeps self.old.items self.new.items }
        ensures len { length self.new.items ≤ length self.old.items + 1 }
        ensures capacity { self.new.capacity ≡ self.old.capacity }
    {
        self.number_of(last, word)
    }

    /// The same of a name that is likely to be new: it is looked for by its hash alone.
    #[inline(never)]
    pub(crate) fn number_unseen(&mut self, word: &NameWord<'_>) -> usize
        requires room { length self.old.items < self.old.capacity }
        requires word { IsRead word.now }
        ensures at { slice_get self.new.items result ≡ Some (named word.now) }
        ensures keeps { Keeps self.old.items self.new.items }
        ensures len { length self.new.items ≤ length self.old.items + 1 }
        ensures capacity { self.new.capacity ≡ self.old.capacity }
    {
        match self.index.find(&self.names, word.bytes) {
            Some(number) => number,
            None => self.add(word),
        }
    }

    // The number of a name that is new. There is room for it.
    #[inline(never)]
    fn add(&mut self, word: &NameWord<'_>) -> usize
        requires room { length self.old.items < self.old.capacity }
        requires word { IsRead word.now }
        ensures at { slice_get self.new.items result ≡ Some (named word.now) }
        ensures keeps { Keeps self.old.items self.new.items }
        ensures len { length self.new.items ≡ length self.old.items + 1 }
        ensures capacity { self.new.capacity ≡ self.old.capacity }
    {
        let number = self.names.len();
        self.names.push_reserved(word.name());
        self.index.add(number, word.bytes);
        number
    }
}
