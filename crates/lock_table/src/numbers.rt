//! Rising numbers of transactions, each once.
ghost use Rattle.std.specs.Prelude.{◌≡◌, nat_eq, IsOk, IsTrue, OnOk, []};
ghost use Rattle.std.specs.List.Sorted.{IsStrictlyIncreasing};
ghost use Rattle.lock_table.specs.Targeted.{IsAmong, IsJoined};

use serial_spec::NoMemory;
use std::alloc::AllocError;
use txn_tree::TxnNo;

// Puts a number where it belongs, if it is not there.
fn add(numbers: &mut Vec<TxnNo>, txn: TxnNo) -> Result<(), NoMemory>
    requires { IsStrictlyIncreasing numbers.old.items }
    ensures rising { IsStrictlyIncreasing numbers.new.items }
    ensures ok { OnOk result
        (IsJoined numbers.old.items (λ u. IsTrue (nat_eq txn u)) numbers.new.items) }
{
    if numbers.contains(&txn) {
        return Ok(());
    }
    let place = numbers.partition_point(|number| number.place() < txn.place());
    match numbers.insert(place, txn) {
        Ok(()) => Ok(()),
        Err(_) => Err(AllocError),
    }
}

/// Puts each of these where it belongs, if it is not there. If memory runs out, the only error,
/// some of them are there.
pub(crate) fn add_all(numbers: &mut Vec<TxnNo>, more: &[TxnNo]) -> Result<(), NoMemory>
    requires { IsStrictlyIncreasing numbers.old.items }
    ensures rising { IsStrictlyIncreasing numbers.new.items }
    ensures ok { OnOk result (IsJoined numbers.old.items (IsAmong more.now) numbers.new.items) }
    ensures succeeds { more.now ≡ [] → IsOk result }
{
    for txn in more {
        add(numbers, *txn)?;
    }
    Ok(())
}
