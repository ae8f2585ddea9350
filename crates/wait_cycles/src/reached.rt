//! Who is reached from a start, going from each to those that it waits for.
ghost use Rattle.std.specs.Prelude.{◌≡◌, ◌≤◌, ◌+◌, ◌&&◌, not, nat_eq, nat_le, length};
ghost use Rattle.std.specs.List.{list_any};
ghost use Rattle.wait_cycles.specs.inner.Sorted.{AreSorted, up_to};
ghost use Rattle.wait_cycles.specs.Trails.{Covers, IsLonger, IsTrail, open_pairs, KeepsFound};

use crate::order::{first_place, waited_for};
use crate::trail::{Reached, Trail};
use txn_tree::TxnNo;

// Whether it is not above the start and has not been reached yet.
fn leads_on(trail: &Trail, start: TxnNo, other: TxnNo) -> bool
    ensures { result ≡
        (nat_le other start && not (list_any (λ r. nat_eq other r.txn) trail.now.reached)) }
{
    other.place() <= start.place() && !trail.has(other)
}

// Adds those up to the start that this one waits for and that have not been reached yet. There is
// room for one a pair that leads to nobody yet.
fn reach_from(
    trail: &mut Trail,
    sorted: &[(TxnNo, TxnNo)],
    start: TxnNo,
    txn: TxnNo,
    from: Option<usize>,
)
    requires sorted { AreSorted sorted.now }
    requires room { open_pairs
        (up_to sorted.now start) trail.old.reached + length trail.old.reached ≤ trail.old.capacity }
    ensures found { KeepsFound (up_to sorted.now start)
        trail.old.reached trail.new.reached from txn }
    ensures longer { IsLonger (up_to sorted.now start) trail.old.reached trail.new.reached }
    ensures covers { Covers (up_to sorted.now start) trail.new.reached txn }
    ensures capacity { trail.old.capacity ≤ trail.new.capacity }
{
    let mut place = first_place(sorted, txn);
    while let Some(other) = waited_for(sorted, place, txn) {
        if leads_on(trail, start, other) {
            trail.push(Reached { txn: other, from });
        }
        place += 1;
    }
}

/// All that are reached from the start by way of nobody above it, each once. It takes no memory.
pub(crate) fn reached_from(trail: &mut Trail, sorted: &[(TxnNo, TxnNo)], start: TxnNo)
    requires sorted { AreSorted sorted.now }
    requires room { length sorted.now ≤ trail.old.capacity }
    ensures trail { IsTrail (up_to sorted.now start) start trail.new.reached }
    ensures capacity { trail.old.capacity ≤ trail.new.capacity }
{
    trail.clear();
    reach_from(trail, sorted, start, start, None);
    let mut done = 0;
    while done < trail.len() {
        let txn = trail.at(done).txn;
        reach_from(trail, sorted, start, txn, Some(done));
        done += 1;
    }
}
