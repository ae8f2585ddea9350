//! Lists of numbers of transactions, each once, rising.
ghost use Rattle.std.specs.Prelude.{◌≡◌, ◌≤◌, ◌<◌, ◌||◌, not, nat_eq, [], filter, length, slice_get, vec_capacity, IsFalse, IfErr, IfOk, OnErr, OnOk, Some, ℕ};
ghost use Rattle.std.specs.List.{insert, list_any, remove};
ghost use Rattle.std.specs.List.Sorted.{IsStrictlyIncreasing};

use txn_tree::TxnNo;

/// Where the number is, or else where it belongs. The first is looked at before the others, since those
/// that began first mostly end first.
pub(crate) fn find(numbers: &[TxnNo], txn: TxnNo) -> Result<usize, usize>
    requires { IsStrictlyIncreasing numbers.now }
    ensures there { IfOk result (λ i. slice_get numbers.now i ≡ Some txn) }
    ensures absent { OnErr result (IsFalse (list_any (nat_eq txn) numbers.now)) }
    ensures within { IfErr result (λ i. i ≤ length numbers.now) }
    ensures rising { IfErr result (λ i. IsStrictlyIncreasing (insert numbers.now i txn)) }
{
    if let Some(first) = numbers.first() {
        if *first == txn {
            return Ok(0);
        }
    }
    numbers.binary_search(&txn)
}

/// Where the number belongs, which is not among them. That of one that began after all others is last.
pub(crate) fn place_for(numbers: &[TxnNo], txn: TxnNo) -> usize
    requires rising { IsStrictlyIncreasing numbers.now }
    requires fresh { IsFalse (list_any (nat_eq txn) numbers.now) }
    ensures within { result ≤ length numbers.now }
    ensures rising { IsStrictlyIncreasing (insert numbers.now result txn) }
{
    if let Some(last) = numbers.last() {
        if *last < txn {
            return numbers.len();
        }
    }
    match find(numbers, txn) {
        Ok(place) => place,
        Err(place) => place,
    }
}

/// Puts the number among them, if it is not there yet. There is room for it.
pub(crate) fn put_in(numbers: &mut Vec<TxnNo>, txn: TxnNo)
    requires rising { IsStrictlyIncreasing numbers.old.items }
    requires room { IsFalse (list_any (nat_eq txn) numbers.old.items) →
        length numbers.old.items < vec_capacity numbers.old }
    ensures rising { IsStrictlyIncreasing numbers.new.items }
    ensures each { (u : ℕ) → list_any (nat_eq u) numbers.new.items
        ≡ (nat_eq txn u || list_any (nat_eq u) numbers.old.items) }
    ensures capacity { vec_capacity numbers.old ≤ vec_capacity numbers.new }
{
    if let Err(place) = find(numbers.as_slice(), txn) {
        numbers.insert(place, txn).unwrap();
    }
}

/// Takes the number out, if it is there.
pub(crate) fn take_from(numbers: &mut Vec<TxnNo>, txn: TxnNo)
    requires { IsStrictlyIncreasing numbers.old.items }
    ensures left { numbers.new.items ≡ filter (λ v. not (nat_eq v txn)) numbers.old.items }
    ensures capacity { vec_capacity numbers.new ≡ vec_capacity numbers.old }
{
    if let Ok(place) = numbers.binary_search(&txn) {
        numbers.remove(place);
    }
}
