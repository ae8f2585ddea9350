//! Where names are likely to stand, by a hash of their bytes.
ghost use Rattle.std.specs.Prelude.{IfSome, IsTrue};
ghost use Rattle.event_lists.specs.Lists.{IsSpelledAt};

use crate::names::is_spelled_at;
use serial_spec::NoMemory;
use std::alloc::Global;
use std::hash::{FoldHasher, Hasher};
use txn_names::Name;

/// How many places are looked at for a name.
const MOST_LOOKS: usize = 8;

/// The number that stands where there is none.
const FREE: u32 = u32::MAX;

/// The most names that places are made for.
const MOST_NAMES: usize = 1 << 31;

/// A number, and the hash of the bytes of the name that has it.
#[derive(Clone, Copy)]
struct Likely {
    hash: u32,
    number: u32,
}

/// Numbers of names by their hashes, and which name follows which. It tells where a name is likely
/// to be found and no more: any numbers would do. A name that finds no place near its own takes that
/// of another, so that a look costs as much whatever the names are.
#[derive(Drop)]
pub(crate) struct NameIndex {
    // A power of two of them, or none.
    places: Vec<Likely>,
    // For each name the number of the one that followed it last.
    followers: Vec<u32>,
}

// A hash of the bytes, of which four bytes are kept.
fn hash_of(bytes: &[u8]) -> u32 {
    let mut state = FoldHasher::default();
    state.write(bytes);
    (state.finish() >> 32) as u32
}

impl NameIndex {
    /// No numbers. It takes no memory.
    pub(crate) fn new(alloc: Global) -> NameIndex {
        NameIndex {
            places: Vec::new(alloc),
            followers: Vec::new(alloc),
        }
    }

    /// The number of the name that followed the one with this number last, or any.
    #[inline(always)]
    pub(crate) fn follower(&self, number: usize) -> usize {
        match self.followers.get(number) {
            Some(follower) => *follower as usize,
            None => 0,
        }
    }

    /// Keeps that the second name followed the first.
    #[inline(always)]
    pub(crate) fn follow(&mut self, number: usize, follower: usize) {
        if let Ok(follower) = u32::try_from(follower) {
            if let Some(there) = self.followers.get_mut(number) {
                *there = follower;
            }
        }
    }

    // The place so many steps behind that of the hash.
    fn place(&self, hash: u32, step: usize) -> usize {
        (hash as usize).wrapping_add(step) & self.places.len().wrapping_sub(1)
    }

    /// The number of the name that the bytes spell, if it is found.
    #[inline(never)]
    pub(crate) fn find(&self, names: &[Name], spelled: &[u8]) -> Option<usize>
        ensures { IfSome result (λ number. IsSpelledAt names.now number spelled.now) }
    {
        let hash = hash_of(spelled);
        for step in 0..MOST_LOOKS {
            let likely = self.places.get(self.place(hash, step))?;
            if likely.number == FREE {
                return None;
            }
            let number = likely.number as usize;
            if likely.hash == hash && is_spelled_at(names, number, spelled) {
                return Some(number);
            }
        }
        None
    }

    // Keeps a number at a place that is free, or at that of its hash.
    fn keep(&mut self, likely: Likely) {
        let mut place = self.place(likely.hash, 0);
        for step in 0..MOST_LOOKS {
            let next = self.place(likely.hash, step);
            if self
                .places
                .get(next)
                .is_some_and(|there| there.number == FREE)
            {
                place = next;
                break;
            }
        }
        if let Some(there) = self.places.get_mut(place) {
            *there = likely;
        }
    }

    /// Keeps the number of the name that the bytes spell, if it has four bytes. The name is likely
    /// to follow itself.
    pub(crate) fn add(&mut self, number: usize, spelled: &[u8]) {
        self.follow(number, number);
        if let Ok(number) = u32::try_from(number) {
            let hash = hash_of(spelled);
            self.keep(Likely { hash, number });
        }
    }

    /// Makes places for so many names. The only error is that memory runs out.
    #[inline(always)]
    pub(crate) fn reserve(&mut self, names: usize) -> Result<(), NoMemory> {
        if names <= self.places.len() / 2 {
            return Ok(());
        }
        self.grow(names)
    }

    // Takes twice as many places as names.
    #[inline(never)]
    fn grow(&mut self, names: usize) -> Result<(), NoMemory> {
        let mut index = NameIndex::new(*self.places.allocator());
        let free = Likely {
            hash: 0,
            number: FREE,
        };
        let names = names.min(MOST_NAMES);
        index.places.resize((2 * names).next_power_of_two(), free)?;
        index.followers.extend_from_slice(&self.followers)?;
        index.followers.resize(names, 0)?;
        for likely in &self.places {
            if likely.number != FREE {
                index.keep(*likely);
            }
        }
        *self = index;
        Ok(())
    }
}
