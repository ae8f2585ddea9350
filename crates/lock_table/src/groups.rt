//! The groups of a key, gone through in a table of locks by group.
ghost use Rattle.std.specs.Prelude.{◌≡◌, ◌≤◌, ◌<◌, ◌↔◌, length, nat_eq, IsFalse, IsTrue, IsOk, IfNone, IfOk, IfSome, OnErr, OnOk, List, ℕ};
ghost use Rattle.std.specs.List.{position};
ghost use Rattle.std.specs.List.Sorted.{IsStrictlyIncreasing};
ghost use Rattle.txn_names.specs.Groups.{IsGroupBefore};
ghost use Rattle.lock_table.specs.Locked as one;
ghost use Rattle.lock_table.specs.Locked.{has_place, modes_in, with_place};
ghost use Rattle.lock_table.specs.Targeted.{AtGroups, BlocksBySum, IsGroupFrom, IsJoined, IsMarkedAt, IsMarkedUpTo, IsUpTo, NoSumBlocks, first_unmarked, marked_by, with_groups};

use crate::locks::Locks;
use crate::numbers::add_all;
use serial_spec::{Kind, Mode, NoMemory};
use txn_names::Key;
use txn_tree::{Tree, TxnNo};

// Whether a group of the key may end before this place. Where no dot stands there none does, and that
// is told without one being made.
#[inline(always)]
#[tactic(auto, using(crate::proofs::Reaching::no_dot))]
fn may_end_group(key: &Key, place: usize) -> bool
    ensures { IsFalse result → (g : List ℕ) → IsGroupBefore key.now place g → ⊥ }
{
    let bytes = key.as_bytes();
    place < bytes.len() && bytes[place] == b'.'
}

/// Whether no sum over a group of the key keeps the transaction from writing it.
pub(crate) fn sums_let(sums: &Locks, tree: &Tree, txn: TxnNo, key: &Key) -> bool
    ensures { IsTrue result ↔ NoSumBlocks tree.now sums.now txn key.now }
{
    if sums.is_empty() {
        return true;
    }
    let len = key.as_bytes().len();
    for place in 1..len {
        if may_end_group(key, place) {
            if let Some(group) = key.group_before(place) {
                if sums.is_blocked(tree, txn, &group.as_key(), Kind::Write) {
                    return false;
                }
            }
        }
    }
    true
}

/// Whether the holder's sum over a group of the key keeps the transaction from writing it.
pub(crate) fn sum_blocks(sums: &Locks, tree: &Tree, holder: TxnNo, txn: TxnNo, key: &Key) -> bool
    ensures { IsTrue result ↔ BlocksBySum tree.now sums.now txn key.now holder }
{
    if sums.is_empty() {
        return false;
    }
    let len = key.as_bytes().len();
    for place in 1..len {
        if let Some(group) = key.group_before(place) {
            if sums.blocks(tree, holder, txn, &group.as_key(), Kind::Write) {
                return true;
            }
        }
    }
    false
}

/// Adds those whose sum over a group of the key keeps the transaction from writing it, if they are
/// not there. If memory runs out, the only error, some of them are.
pub(crate) fn add_summers(
    sums: &Locks,
    tree: &Tree,
    txn: TxnNo,
    key: &Key,
    found: &mut Vec<TxnNo>,
) -> Result<(), NoMemory>
    requires { IsStrictlyIncreasing found.old.items }
    ensures rising { IsStrictlyIncreasing found.new.items }
    ensures ok { OnOk result
        (IsJoined found.old.items (BlocksBySum tree.now sums.now txn key.now) found.new.items) }
    ensures succeeds { NoSumBlocks tree.now sums.now txn key.now → IsOk result }
{
    if sums.is_empty() {
        return Ok(());
    }
    let len = key.as_bytes().len();
    for place in 1..len {
        if let Some(group) = key.group_before(place) {
            let more = sums.blockers(tree, txn, &group.as_key(), Kind::Write)?;
            add_all(found, more.as_slice())?;
        }
    }
    Ok(())
}

// How many bytes stand before the first dot.
#[inline(always)]
fn first_dot(bytes: &[u8]) -> Option<usize>
    ensures { result ≡ position (λ b. nat_eq b 46) bytes.now }
{
    bytes.iter().position(|byte| *byte == b'.')
}

// The first group of the key that has at least so many bytes, and some, as the key of its bytes. No
// group is made for it, and the bytes are looked at once.
#[inline(always)]
fn group_from(key: &Key, least: usize) -> Option<Key>
    requires { 0 < least }
    ensures some { IfSome result (IsGroupFrom key.now least) }
    ensures first { IfSome result (λ g. (f : List ℕ) →
        IsGroupFrom key.now least f → length g ≤ length f) }
    ensures none { IfNone result ((f : List ℕ) → IsGroupFrom key.now least f → ⊥) }
{
    let bytes = key.as_bytes();
    if least >= bytes.len() {
        return None;
    }
    let dot = first_dot(&bytes[least..])?;
    Some(Key::of(&bytes[..least + dot]))
}

// Makes a place for the transaction at this group, if there is none, and tells whether it is marked
// there as a writer already. Mostly it wrote there last: where it did not it is taken for unmarked.
#[inline(always)]
fn make_mark(writers: &mut Locks, txn: TxnNo, group: &Key) -> Result<bool, NoMemory>
    ensures modes { (u : ℕ) → (g : List ℕ) →
        modes_in writers.new u g ≡ modes_in writers.old u g }
    ensures ok { OnOk result ((u : ℕ) → (g : List ℕ) → has_place writers.new u g
        ≡ with_place (has_place writers.old) txn group.now u g) }
    ensures marked { IfOk result (λ marked. IsTrue marked → IsMarkedAt writers.old txn group.now) }
    ensures err { OnErr result ((u : ℕ) → (g : List ℕ) →
        has_place writers.new u g ≡ has_place writers.old u g) }
    ensures succeeds { IsTrue (has_place writers.old txn group.now) → IsOk result }
{
    if writers.recalls_last(txn, group) {
        return Ok(writers.held_remembered(txn, group) == Mode::Write);
    }
    writers.reserve(txn, group)?;
    Ok(false)
}

// The first group at which the transaction is not marked, where this was the first so far, and it is
// known of one more whether it is marked there.
#[inline(always)]
fn first_unmarked(first: Option<Key>, marked: bool, group: Key) -> Option<Key>
    ensures { result ≡ first_unmarked first marked group }
{
    match first {
        Some(_) => first,
        None if marked => None,
        None => Some(group),
    }
}

/// Makes a place for the transaction at each group of the key, and tells the first at which it is
/// not marked as a writer yet. No lock changes. If memory runs out, the only error, there are places
/// at some of them.
pub(crate) fn make_marks(
    writers: &mut Locks,
    txn: TxnNo,
    key: &Key,
) -> Result<Option<Key>, NoMemory>
    ensures modes { (u : ℕ) → (g : List ℕ) →
        one.modes_in writers.new u g ≡ one.modes_in writers.old u g }
    ensures ok { OnOk result (AtGroups key.now (λ g. IsTrue (one.has_place writers.new txn g))) }
    ensures unmarked { IfOk result (IsMarkedUpTo writers.new txn key.now) }
    ensures added { IsUpTo (one.has_place writers.old) (one.has_place writers.new)
        (with_groups (one.has_place writers.old) txn key.now) }
    ensures succeeds { AtGroups key.now (λ g. IsTrue (one.has_place writers.old txn g)) →
        IsOk result }
{
    let mut unmarked = None;
    let mut next = group_from(key, 1);
    while let Some(group) = next {
        let marked = make_mark(writers, txn, &group)?;
        unmarked = first_unmarked(unmarked, marked, group);
        next = group_from(key, group.as_bytes().len() + 1);
    }
    Ok(unmarked)
}

/// Marks the transaction as a writer of each group of the key. It is marked at those that are
/// shorter than the first that is given; at all, if none is.
pub(crate) fn mark_from(writers: &mut Locks, txn: TxnNo, key: &Key, first: Option<Key>)
    requires places { AtGroups key.now (λ g. IsTrue (one.has_place writers.old txn g)) }
    requires marked { IsMarkedUpTo writers.old txn key.now first }
    ensures modes { (u : ℕ) → (g : List ℕ) →
        one.modes_in writers.new u g ≡ marked_by writers.old txn key.now u g }
    ensures places { (u : ℕ) → (g : List ℕ) →
        one.has_place writers.new u g ≡ one.has_place writers.old u g }
{
    let mut next = first;
    while let Some(group) = next {
        writers.hold(txn, &group, Kind::Write);
        next = group_from(key, group.as_bytes().len() + 1);
    }
}

/// Marks the transaction as a writer of each group of the key.
pub(crate) fn mark(writers: &mut Locks, txn: TxnNo, key: &Key)
    requires { AtGroups key.now (λ g. IsTrue (one.has_place writers.old txn g)) }
    ensures modes { (u : ℕ) → (g : List ℕ) →
        one.modes_in writers.new u g ≡ marked_by writers.old txn key.now u g }
    ensures places { (u : ℕ) → (g : List ℕ) →
        one.has_place writers.new u g ≡ one.has_place writers.old u g }
{
    let first = group_from(key, 1);
    mark_from(writers, txn, key, first);
}
