//! The list.
ghost use Rattle.std.specs.Prelude.{◌≡◌, ◌<◌, ◌≤◌, ◌+◌, ◌^◌, ℕ, [], length, set, slice_get, slice_index_or, option_map, IfOk, IsOk, IsTrue, OnOk, OnErr, ◌↔◌};
ghost use Rattle.std.specs.List.{insert, remove};

use crate::slots::{member_at, member_of, put_at, replace_at, take_at};
use std::alloc::{AllocError, Global};
use std::marker::Model;

/// The most members of a list, whose slots have numbers of four bytes.
const MOST: usize = 1 << 32;

/// A list. Each member stays in its slot until it is taken out, and a slot that it leaves is taken
/// by a later member. So where one comes or goes no other one moves: only the numbers of the slots
/// that stand behind it do, of four bytes each.
#[derive(Drop)]
pub struct SlotList<T> {
    slots: Vec<T>,
    /// The number of each slot: first those of the members, in their order, and then the free ones.
    order: Vec<u32>,
    len: usize,
    /// So many members may be put in without memory, with those that there are.
    capacity: usize,
}

impl<T> Model for SlotList<T> {
    ghost use Rattle.std.specs.Prelude.{◌≤◌, ◌^◌, length, vec_capacity};
    ghost use Rattle.slot_list.specs.Slotted.{Slotted};
    ghost use Rattle.slot_list.specs.Slots.{IsKept, members};

    ghost Value = { Slotted T };

    ghost view = { λ l. record {
      items = members l.slots.items l.order.items l.len;
      capacity = l.capacity;
    } };

    ghost invariant = { λ l. IsKept (length l.slots.items) l.order.items l.len
        × (length l.slots.items ≤ l.capacity) × (l.capacity ≤ vec_capacity l.slots)
        × (l.capacity ≤ vec_capacity l.order) × (l.capacity ≤ 2 ^ 32) };
}

// The room that both have, of which the numbers of slots are enough for.
fn common(slots: usize, order: usize) -> usize
    ensures slots { result ≤ slots }
    ensures order { result ≤ order }
    ensures few { result ≤ 2 ^ 32 }
    ensures most { (n : ℕ) → n ≤ slots → n ≤ order → n ≤ 2 ^ 32 → n ≤ result }
{
    let both = if slots < order { slots } else { order };
    if both < MOST { both } else { MOST }
}

impl<T: Drop> SlotList<T> {
    /// No members. It takes no memory yet.
    pub fn new(alloc: Global) -> Self
        ensures { result.items ≡ [] }
    {
        SlotList {
            slots: Vec::new(alloc),
            order: Vec::new(alloc),
            len: 0,
            capacity: 0,
        }
    }

    /// The number of members.
    #[inline(always)]
    pub fn len(&self) -> usize
        ensures len { result ≡ length self.now.items }
        ensures within { length self.now.items ≤ self.now.capacity }
        ensures few { length self.now.items ≤ 2 ^ 32 }
    {
        self.len
    }

    /// Whether there are no members.
    pub fn is_empty(&self) -> bool
        ensures { IsTrue result ↔ (self.now.items ≡ []) }
    {
        self.len == 0
    }

    /// The member at this place, from 0.
    #[inline(always)]
    pub fn at(&self, place: usize) -> &T
        requires { place < length self.now.items }
        ensures { result.now ≡ slice_index_or self.now.items place result.now }
    {
        member_of(&self.slots, &self.order, self.len, place)
    }

    /// The member at this place, from 0, if there is one.
    #[inline(always)]
    pub fn get(&self, place: usize) -> Option<&T>
        ensures { option_map (λ m. m.now) result ≡ slice_get self.now.items place }
    {
        member_at(&self.slots, &self.order, self.len, place)
    }

    /// Makes room for so many more members. Where there is room for them already it succeeds. The
    /// only error is that memory runs out, or that a list would have more than 2 ^ 32 members.
    pub fn reserve(&mut self, additional: usize) -> Result<(), AllocError>
        ensures items { self.new.items ≡ self.old.items }
        ensures ok { OnOk result (length self.old.items + additional ≤ self.new.capacity) }
        ensures err { OnErr result (self.new ≡ self.old) }
        ensures succeeds { length self.old.items + additional ≤ self.old.capacity → IsOk result }
        ensures within { length self.new.items ≤ self.new.capacity }
        ensures kept { self.old.capacity ≤ self.new.capacity }
    {
        if additional <= self.capacity - self.len {
            return Ok(());
        }
        let more = additional - (self.slots.len() - self.len);
        if more > MOST - self.slots.len() {
            return Err(AllocError);
        }
        self.slots.reserve(more)?;
        self.order.reserve(more)?;
        self.capacity = common(self.slots.capacity(), self.order.capacity());
        Ok(())
    }

    /// Puts a member in at this place, before the one that stood there. It succeeds where there is
    /// room. The errors are those of `reserve`, and then the list is as before.
    pub fn insert(&mut self, place: usize, member: T) -> Result<(), AllocError>
        requires { place ≤ length self.old.items }
        ensures ok { OnOk result (self.new.items ≡ insert self.old.items place member) }
        ensures err { OnErr result (self.new ≡ self.old) }
        ensures succeeds { length self.old.items < self.old.capacity → IsOk result }
        ensures within { length self.new.items ≤ self.new.capacity }
        ensures kept { self.old.capacity ≤ self.new.capacity }
    {
        self.reserve(1)?;
        self.insert_reserved(place, member);
        Ok(())
    }

    /// Puts a member in at this place, where there is room. It takes no memory.
    pub fn insert_reserved(&mut self, place: usize, member: T)
        requires place { place ≤ length self.old.items }
        requires room { length self.old.items < self.old.capacity }
        ensures items { self.new.items ≡ insert self.old.items place member }
        ensures within { length self.new.items ≤ self.new.capacity }
        ensures capacity { self.new.capacity ≡ self.old.capacity }
    {
        put_at(&mut self.slots, &mut self.order, self.len, place, member);
        self.len += 1;
    }

    /// Takes the member at this place out, and leaves the filler in its slot, which counts for
    /// nothing. It takes no memory.
    pub fn remove(&mut self, place: usize, filler: T) -> T
        requires { place < length self.old.items }
        ensures items { self.new.items ≡ remove self.old.items place }
        ensures member { result ≡ slice_index_or self.old.items place result }
        ensures capacity { self.new.capacity ≡ self.old.capacity }
    {
        let taken = take_at(&mut self.slots, &mut self.order, self.len, place, filler);
        self.len -= 1;
        taken
    }

    /// Gives the place this member, and answers the one before. It takes no memory.
    pub fn replace(&mut self, place: usize, member: T) -> T
        requires { place < length self.old.items }
        ensures items { self.new.items ≡ set self.old.items place member }
        ensures member { result ≡ slice_index_or self.old.items place result }
        ensures capacity { self.new.capacity ≡ self.old.capacity }
    {
        replace_at(&mut self.slots, &self.order, self.len, place, member)
    }
}

impl<T: Copy> SlotList<T> {
    /// A list of the same members. The only error is that memory runs out.
    pub fn copy(&self) -> Result<Self, AllocError>
        ensures { IfOk result (λ l. l.items ≡ self.now.items) }
    {
        let alloc = *self.slots.allocator();
        let mut slots = Vec::new(alloc);
        slots.extend_from_slice(&self.slots)?;
        let mut order = Vec::new(alloc);
        order.extend_from_slice(&self.order)?;
        let capacity = common(slots.capacity(), order.capacity());
        Ok(SlotList {
            slots,
            order,
            len: self.len,
            capacity,
        })
    }
}
