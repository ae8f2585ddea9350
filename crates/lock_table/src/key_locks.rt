//! The locks on one key, and who keeps whom out there.
ghost use Rattle.std.specs.Prelude.{◌≡◌, nat_eq, not, IsFalse, IsOk, IsTrue, IfOk, ℕ};
ghost use Rattle.std.specs.List.{list_any};
ghost use Rattle.std.specs.List.Sorted.{IsStrictlyIncreasing};
ghost use Rattle.serial_spec.specs.Locks.{conflicts};
ghost use Rattle.lock_table.specs.Locked.{modes_of, whole};
ghost use Rattle.lock_table.specs.Blocking.{is_kept_out, keepers, keeps_out};

use crate::modes::{FREE, Modes};
use serial_spec::{Kind, NoMemory};
use std::alloc::Global;
use txn_cells::KeyCells;
use txn_tree::{Tree, TxnNo};

/// Whether the holder keeps the transaction from an access of this kind: it has begun, is neither
/// the transaction nor an ancestor of it, and its lock conflicts. It takes no memory.
pub(crate) fn keeps_out(
    locks: &KeyCells<Modes>,
    tree: &Tree,
    txn: TxnNo,
    kind: Kind,
    holder: TxnNo,
) -> bool
    ensures { result ≡ keeps_out tree.now (modes_of locks.now) txn kind holder }
{
    if tree.name_of(holder).is_none() || tree.is_under(holder, txn) {
        return false;
    }
    let modes = locks.get(holder).unwrap_or(FREE);
    modes.held.greater(modes.retained).conflicts(kind)
}

// Whether one of these does.
fn any_keeps_out(
    locks: &KeyCells<Modes>,
    tree: &Tree,
    txn: TxnNo,
    kind: Kind,
    holders: &[TxnNo],
) -> bool
    ensures { result ≡ list_any (keeps_out tree.now (modes_of locks.now) txn kind) holders.now }
{
    holders
        .iter()
        .any(|holder| keeps_out(locks, tree, txn, kind, *holder))
}

// Transactions, the first begun first, among whom are all whose locks conflict with an access of
// this kind. A reader keeps no reader out.
fn rivals(locks: &KeyCells<Modes>, kind: Kind) -> &[TxnNo]
    ensures all { (u : ℕ) → IsTrue (conflicts (whole (modes_of locks.now u)) kind) →
        IsTrue (list_any (nat_eq u) result.now) }
    ensures rising { IsStrictlyIncreasing result.now }
{
    match kind {
        Kind::Read => locks.standing_out(),
        Kind::Write => locks.holders(),
    }
}

/// Whether somebody keeps the transaction from an access of this kind. It takes no memory.
pub(crate) fn is_kept_out(locks: &KeyCells<Modes>, tree: &Tree, txn: TxnNo, kind: Kind) -> bool
    ensures { result ≡ is_kept_out tree.now (modes_of locks.now) txn kind }
{
    any_keeps_out(locks, tree, txn, kind, rivals(locks, kind))
}

/// Whether nobody does. It takes no memory.
pub(crate) fn lets_in(locks: &KeyCells<Modes>, tree: &Tree, txn: TxnNo, kind: Kind) -> bool
    ensures { result ≡ not (is_kept_out tree.now (modes_of locks.now) txn kind) }
{
    // Most accesses that are kept out are so by a writer, so those that stand out are asked first
    // where they are fewer than all that have a place at the key. Where they are not, both lists
    // are the same, and it would be gone through twice.
    let writers = locks.standing_out();
    if kind == Kind::Write && writers.len() < locks.holders().len() {
        if any_keeps_out(locks, tree, txn, kind, writers) {
            return false;
        }
    }
    !is_kept_out(locks, tree, txn, kind)
}

/// Those that keep the transaction from an access of this kind, the first begun first. Where there
/// is nobody it takes no memory. The only error is that memory runs out.
pub(crate) fn keepers(
    alloc: Global,
    locks: &KeyCells<Modes>,
    tree: &Tree,
    txn: TxnNo,
    kind: Kind,
) -> Result<Vec<TxnNo>, NoMemory>
    ensures found { IfOk result (λ found.
        found.items ≡ keepers tree.now (modes_of locks.now) txn kind) }
    ensures succeeds { IsFalse (is_kept_out tree.now (modes_of locks.now) txn kind) → IsOk result }
{
    let mut found = Vec::new(alloc);
    for holder in rivals(locks, kind) {
        if keeps_out(locks, tree, txn, kind, *holder) {
            found.push(*holder)?;
        }
    }
    Ok(found)
}
