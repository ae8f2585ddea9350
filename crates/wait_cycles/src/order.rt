//! The pairs by their first, and the numbers at which a search starts.
ghost use Rattle.std.specs.Prelude.{◌≡◌, ◌+◌, ◌^◌, ◌≤◌, ◌<◌, ◌≢◌, ℕ, nat_le, IsTrue, IfSome, IfNone, length, slice_get, vec_capacity, Some};
ghost use Rattle.wait_cycles.specs.Cycles.{is_member, waits_in};
ghost use Rattle.wait_cycles.specs.inner.Sorted.{AreRising, AreSorted, ArePartedAt, IsAwaited};

use txn_tree::TxnNo;

/// Copies the pairs and sorts the copy by the first of each. It takes no memory.
pub(crate) fn sort_pairs(sorted: &mut Vec<(TxnNo, TxnNo)>, pairs: &[(TxnNo, TxnNo)])
    requires { length pairs.now ≤ vec_capacity sorted.old }
    ensures sorted { AreSorted sorted.new.items }
    ensures same { (a b : ℕ) → waits_in sorted.new.items a b ≡ waits_in pairs.now a b }
    ensures len { length sorted.new.items ≡ length pairs.now }
    ensures capacity { vec_capacity sorted.old ≤ vec_capacity sorted.new }
{
    sorted.clear();
    // There is room, so that this takes no memory.
    let _ = sorted.extend_from_slice(pairs);
    sorted.sort_unstable_by_key(|pair| pair.0.place());
}

// Whether the first is no greater than the second.
fn leads_up(pair: (TxnNo, TxnNo)) -> bool
    ensures { result ≡ nat_le pair.0 pair.1 }
{
    pair.0.place() <= pair.1.place()
}

/// Lists, rising, whoever is waited for by one that is no greater. It takes no memory.
pub(crate) fn list_starts(starts: &mut Vec<TxnNo>, pairs: &[(TxnNo, TxnNo)])
    requires { length pairs.now ≤ vec_capacity starts.old }
    ensures all { (b : ℕ) → IsAwaited pairs.now b → IsTrue (is_member b starts.new.items) }
    ensures rising { AreRising starts.new.items }
    ensures capacity { vec_capacity starts.new ≡ vec_capacity starts.old }
{
    starts.clear();
    for pair in pairs {
        if leads_up(*pair) {
            starts.push_reserved(pair.1);
        }
    }
    starts.sort_unstable_by_key(|start| start.place());
}

/// The place at which the pairs begin whose first is this one, or would.
pub(crate) fn first_place(sorted: &[(TxnNo, TxnNo)], txn: TxnNo) -> usize
    requires { AreSorted sorted.now }
    ensures { ArePartedAt sorted.now txn result }
{
    sorted.partition_point(|pair| pair.0.place() < txn.place())
}

/// The one for which this one waits by the pair at a place, if that pair is one of its own.
pub(crate) fn waited_for(sorted: &[(TxnNo, TxnNo)], place: usize, txn: TxnNo) -> Option<TxnNo>
    ensures some { IfSome result (λ b. slice_get sorted.now place ≡ Some (txn, b)) }
    ensures next { IfSome result (λ _. place + 1 < 2 ^ 64) }
    ensures none { IfNone result ((p : ℕ × ℕ) → slice_get sorted.now place ≡ Some p → p.0 ≢ txn) }
{
    let (waiting, other) = *sorted.get(place)?;
    if waiting == txn { Some(other) } else { None }
}
