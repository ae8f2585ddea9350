//! Slots, and the numbers that give the order of what stands in them.
ghost use Rattle.std.specs.Prelude.{◌≡◌, ◌<◌, ◌≤◌, ◌+◌, ◌-◌, ◌^◌, ◌++◌, ◌∷◌, ℕ, [], length, take, set, slice_get, slice_index_or, option_map, vec_capacity};
ghost use Rattle.std.specs.List.{insert, remove};
ghost use Rattle.slot_list.specs.Slots.{IsKept, members};

use std::mem;

// Puts the number of the last free slot at this place of the order.
fn take_free(order: &mut Vec<u32>, place: usize) -> u32
    requires { place < length order.old.items }
    ensures free { order.old.items
        ≡ take (length order.old.items - 1) order.old.items ++ result ∷ [] }
    ensures order { order.new.items
        ≡ insert (take (length order.old.items - 1) order.old.items) place result }
    ensures capacity { vec_capacity order.old ≤ vec_capacity order.new }
{
    let slot = order.pop().unwrap();
    order.insert(place, slot).unwrap();
    slot
}

// Puts the member at this place, into a slot that is free.
fn put_in_free<T: Drop>(
    slots: &mut Vec<T>,
    order: &mut Vec<u32>,
    len: usize,
    place: usize,
    member: T,
)
    requires kept { IsKept (length slots.old.items) order.old.items len }
    requires free { len < length slots.old.items }
    requires place { place ≤ len }
    ensures kept { IsKept (length slots.new.items) order.new.items (len + 1) }
    ensures members { members slots.new.items order.new.items (len + 1)
        ≡ insert (members slots.old.items order.old.items len) place member }
    ensures count { length slots.new.items ≡ length slots.old.items }
    ensures slots { vec_capacity slots.old ≤ vec_capacity slots.new }
    ensures order { vec_capacity order.old ≤ vec_capacity order.new }
{
    let slot = take_free(order, place);
    let _ = mem::replace(&mut slots[slot as usize], member);
}

// Puts the member at this place, into a new slot, where none is free.
fn put_in_new<T: Drop>(
    slots: &mut Vec<T>,
    order: &mut Vec<u32>,
    len: usize,
    place: usize,
    member: T,
)
    requires kept { IsKept (length slots.old.items) order.old.items len }
    requires full { length slots.old.items ≡ len }
    requires place { place ≤ len }
    requires few { len < 2 ^ 32 }
    requires slots { len < vec_capacity slots.old }
    requires order { len < vec_capacity order.old }
    ensures kept { IsKept (length slots.new.items) order.new.items (len + 1) }
    ensures members { members slots.new.items order.new.items (len + 1)
        ≡ insert (members slots.old.items order.old.items len) place member }
    ensures count { length slots.new.items ≡ length slots.old.items + 1 }
    ensures slots { vec_capacity slots.old ≤ vec_capacity slots.new }
    ensures order { vec_capacity order.old ≤ vec_capacity order.new }
{
    let slot = slots.len() as u32;
    order.insert(place, slot).unwrap();
    slots.push_reserved(member);
}

/// Puts the member at this place. It takes no memory.
pub(crate) fn put_at<T: Drop>(
    slots: &mut Vec<T>,
    order: &mut Vec<u32>,
    len: usize,
    place: usize,
    member: T,
)
    requires kept { IsKept (length slots.old.items) order.old.items len }
    requires place { place ≤ len }
    requires few { len < 2 ^ 32 }
    requires slots { len < vec_capacity slots.old }
    requires order { len < vec_capacity order.old }
    ensures kept { IsKept (length slots.new.items) order.new.items (len + 1) }
    ensures members { members slots.new.items order.new.items (len + 1)
        ≡ insert (members slots.old.items order.old.items len) place member }
    ensures count { (n : ℕ) → len < n → length slots.old.items ≤ n → length slots.new.items ≤ n }
    ensures slots { vec_capacity slots.old ≤ vec_capacity slots.new }
    ensures order { vec_capacity order.old ≤ vec_capacity order.new }
{
    if len < slots.len() {
        put_in_free(slots, order, len, place, member);
    } else {
        put_in_new(slots, order, len, place, member);
    }
}

/// Takes the member at this place out. Its slot is free then, and has the filler.
pub(crate) fn take_at<T: Drop>(
    slots: &mut Vec<T>,
    order: &mut Vec<u32>,
    len: usize,
    place: usize,
    filler: T,
) -> T
    requires kept { IsKept (length slots.old.items) order.old.items len }
    requires place { place < len }
    ensures kept { IsKept (length slots.new.items) order.new.items (len - 1) }
    ensures members { members slots.new.items order.new.items (len - 1)
        ≡ remove (members slots.old.items order.old.items len) place }
    ensures member { result
        ≡ slice_index_or (members slots.old.items order.old.items len) place result }
    ensures count { length slots.new.items ≡ length slots.old.items }
    ensures slots { vec_capacity slots.old ≤ vec_capacity slots.new }
    ensures order { vec_capacity order.old ≤ vec_capacity order.new }
{
    let slot = order.remove(place);
    order.push_reserved(slot);
    mem::replace(&mut slots[slot as usize], filler)
}

/// Gives the place this member, and answers the one before.
pub(crate) fn replace_at<T: Drop>(
    slots: &mut Vec<T>,
    order: &[u32],
    len: usize,
    place: usize,
    member: T,
) -> T
    requires kept { IsKept (length slots.old.items) order.now len }
    requires place { place < len }
    ensures kept { IsKept (length slots.new.items) order.now len }
    ensures members { members slots.new.items order.now len
        ≡ set (members slots.old.items order.now len) place member }
    ensures member { result
        ≡ slice_index_or (members slots.old.items order.now len) place result }
    ensures slots { vec_capacity slots.old ≤ vec_capacity slots.new }
{
    let slot = order[place];
    mem::replace(&mut slots[slot as usize], member)
}

/// The member at this place.
#[inline(always)]
pub(crate) fn member_of<'a, T>(slots: &'a [T], order: &[u32], len: usize, place: usize) -> &'a T
    requires kept { IsKept (length slots.now) order.now len }
    requires place { place < len }
    ensures { result.now ≡ slice_index_or (members slots.now order.now len) place result.now }
{
    let _ = len;
    let slot = order[place];
    &slots[slot as usize]
}

/// The member at this place, if there is one.
#[inline(always)]
pub(crate) fn member_at<'a, T>(
    slots: &'a [T],
    order: &[u32],
    len: usize,
    place: usize,
) -> Option<&'a T>
    requires { IsKept (length slots.now) order.now len }
    ensures { option_map (λ m. m.now) result ≡ slice_get (members slots.now order.now len) place }
{
    if place < len {
        Some(member_of(slots, order, len, place))
    } else {
        None
    }
}
