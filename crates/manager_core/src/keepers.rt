//! Who keeps an access out.
ghost use Rattle.std.specs.Prelude.{IfSome};
ghost use Rattle.lock_table.specs.ByAsked.{BlocksAsked};

use lock_table::TargetLocks;
use serial_spec::Asked;
use txn_tree::{Tree, TxnNo};

// The first of these holders that keeps the transaction from what it asks.
fn keeper_among(
    tree: &Tree,
    locks: &TargetLocks,
    txn: TxnNo,
    asked: &Asked,
    holders: &[TxnNo],
) -> Option<TxnNo>
    ensures { IfSome result (λ keeper. BlocksAsked tree.now locks.now txn asked.now keeper) }
{
    for holder in holders {
        if locks.blocks_asked(tree, *holder, txn, asked) {
            return Some(*holder);
        }
    }
    None
}

/// Somebody who keeps the transaction from what it asks: where there is anybody, one of the lists
/// of its target has somebody (Moss 1981). It takes no memory.
pub(crate) fn keeper_of(
    tree: &Tree,
    locks: &TargetLocks,
    txn: TxnNo,
    asked: &Asked,
) -> Option<TxnNo>
    ensures { IfSome result (λ keeper. BlocksAsked tree.now locks.now txn asked.now keeper) }
{
    let target = asked.target();
    for place in 0..locks.lists(&target) {
        let keeper = keeper_among(tree, locks, txn, asked, locks.list_at(&target, place));
        if keeper.is_some() {
            return keeper;
        }
    }
    None
}
