//! What the entries of a report tell of each transaction, in one pass from the last entry to the
//! first.
ghost use Rattle.std.specs.Prelude.{◌≡◌, ◌<◌, ◌+◌, ◌^◌, ℕ, List, [], ◌∷◌, ◌++◌, length, nat_eq, replicate, reverse, slice_get, suc, None, Some, IfOk, OnOk};
ghost use Rattle.indexmap.specs.IndexMap.{get};
ghost use Rattle.report_trees.specs.Telling.{IsTelling, changed, changed_at, changed_by, next_of, number_in, told_by, told_of, told_wait, wait_at, wait_list, waits_in};

use crate::outcomes::{Ending, ending_of};
use indexmap::IndexMap;
use report_marks::{Deed, Doer, Mark};
use serial_spec::NoMemory;
use std::alloc::{AllocError, Global};

/// An abort: the entry, and who aborted.
#[derive(Clone, Copy, Debug, PartialEq, Eq)]
pub struct Abort {
    pub at: usize,
    pub by: Ending,
}

/// What is told of a transaction by its own entries. Entries count from 0.
#[derive(Clone, Copy, Debug, PartialEq, Eq)]
pub struct Told {
    /// The entry by which it began.
    pub began: Option<usize>,
    /// The entry by which it committed.
    pub committed: Option<usize>,
    pub aborted: Option<Abort>,
    /// How many of its accesses were answered.
    pub accesses: u64,
    /// How many of its accesses waited.
    pub waits: u64,
    /// For how many entries they waited.
    pub waited: u64,
}

/// An access that waited: of the transaction with this number, from the entry that says so to the
/// one that answers it.
#[derive(Clone, Copy, Debug, PartialEq, Eq)]
pub struct Wait {
    pub number: usize,
    pub from: usize,
    pub to: usize,
}

/// What the entries tell from some entry on.
#[derive(Drop)]
pub struct Telling {
    /// Of each transaction, by its number.
    pub told: Vec<Told>,
    /// The accesses that waited, the last begun first.
    pub waits: Vec<Wait>,
    /// The next entry of each session, by its number.
    pub next: IndexMap<usize, usize>,
}

impl Told {
    pub(crate) fn none() -> Told
        ensures { result ≡ told_of 0 [] 0 }
    {
        Told {
            began: None,
            committed: None,
            aborted: None,
            accesses: 0,
            waits: 0,
            waited: 0,
        }
    }
}

// The transaction whose begin, access, commit or abort it is.
fn number_in(deed: Deed) -> Option<usize>
    ensures { result ≡ number_in deed }
{
    match deed {
        Deed::Began(number) => Some(number),
        Deed::Accessed(number) => Some(number),
        Deed::Committed(number) => Some(number),
        Deed::Aborted(number) => Some(number),
        Deed::Waits(_) => None,
        Deed::Stuck => None,
        Deed::Refused(_) => None,
        Deed::Other => None,
    }
}

// What is told of the transaction with the entry that did this to it.
fn told_by(at: usize, by: Doer, deed: Deed, told: Told) -> Told
    ensures { result ≡ told_by at by deed told }
{
    let mut told = told;
    match deed {
        Deed::Began(_) => told.began = Some(at),
        Deed::Accessed(_) => told.accesses = told.accesses.saturating_add(1),
        Deed::Committed(_) => told.committed = Some(at),
        Deed::Aborted(_) => {
            told.aborted = Some(Abort {
                at,
                by: ending_of(by),
            })
        }
        Deed::Waits(_) => {}
        Deed::Stuck => {}
        Deed::Refused(_) => {}
        Deed::Other => {}
    }
    told
}

// What is told of the transaction with an access that waited.
fn told_wait(wait: Wait, told: Told) -> Told
    ensures { result ≡ told_wait wait told }
{
    let entries = wait.to.saturating_sub(wait.from) as u64;
    Told {
        began: told.began,
        committed: told.committed,
        aborted: told.aborted,
        accesses: told.accesses,
        waits: told.waits.saturating_add(1),
        waited: told.waited.saturating_add(entries),
    }
}

fn tell_deed(told: &mut Vec<Told>, at: usize, by: Doer, deed: Deed)
    ensures { told.new.items ≡ changed_at (number_in deed) (told_by at by deed) told.old.items }
{
    if let Some(number) = number_in(deed) {
        if number < told.len() {
            told[number] = told_by(at, by, deed, told[number]);
        }
    }
}

fn tell_wait(told: &mut Vec<Told>, wait: Wait)
    ensures { told.new.items ≡ changed wait.number (told_wait wait) told.old.items }
{
    if wait.number < told.len() {
        told[wait.number] = told_wait(wait, told[wait.number]);
    }
}

// The wait is one more that is told, where there is one.
fn tell_waiting(telling: &mut Telling, wait: Option<Wait>) -> Result<(), NoMemory>
    ensures told { OnOk result
        (telling.new.told.items ≡ changed_by (wait_list wait) telling.old.told.items) }
    ensures waits { OnOk result
        (telling.new.waits.items ≡ telling.old.waits.items ++ wait_list wait) }
    ensures next { telling.new.next ≡ telling.old.next }
{
    if let Some(wait) = wait {
        telling.waits.push(wait)?;
        tell_wait(&mut telling.told, wait);
    }
    Ok(())
}

// The wait that begins with this entry, if the session has an entry behind it.
fn wait_at(next: &IndexMap<usize, usize>, at: usize, by: Doer, deed: Deed) -> Option<Wait>
    ensures { (ms : List Mark) → ((s : ℕ) → get nat_eq next.now s ≡ next_of s (suc at) ms)
        → wait_list result ≡ wait_at at by deed ms }
{
    match by {
        Doer::Session(session) => match deed {
            Deed::Waits(number) => match next.get(&session) {
                Some(to) => Some(Wait {
                    number,
                    from: at,
                    to: *to,
                }),
                None => None,
            },
            Deed::Began(_) => None,
            Deed::Accessed(_) => None,
            Deed::Committed(_) => None,
            Deed::Aborted(_) => None,
            Deed::Stuck => None,
            Deed::Refused(_) => None,
            Deed::Other => None,
        },
        Doer::Victim => None,
        Doer::Close => None,
    }
}

// The entry is the next one of its session for those before it.
fn follow(next: &mut IndexMap<usize, usize>, at: usize, by: Doer) -> Result<(), NoMemory>
    // Wide: it is over all entries that may stand behind.
    ensures { OnOk result ((ms : List Mark) (d : Deed)
        → ((s : ℕ) → get nat_eq next.old s ≡ next_of s (suc at) ms)
        → (s : ℕ) → get nat_eq next.new s ≡ next_of s at (record { by = by; deed = d } ∷ ms)) }
{
    match by {
        Doer::Session(session) => match next.insert(session, at) {
            Ok(_) => Ok(()),
            Err(_) => Err(AllocError),
        },
        Doer::Victim => Ok(()),
        Doer::Close => Ok(()),
    }
}

// What the entries from this one on tell, where this is told of those behind it.
fn tell(telling: &mut Telling, at: usize, mark: &Mark) -> Result<(), NoMemory>
    // Wide: it is over all entries that may stand behind.
    ensures { OnOk result ((count : ℕ) (ms : List Mark) → length ms < 2 ^ 63
        → IsTelling count (suc at) ms telling.old
        → IsTelling count at (mark.now ∷ ms) telling.new) }
{
    let wait = wait_at(&telling.next, at, mark.by, mark.deed);
    tell_waiting(telling, wait)?;
    tell_deed(&mut telling.told, at, mark.by, mark.deed);
    follow(&mut telling.next, at, mark.by)
}

// Nothing is told of so many transactions.
fn untold(alloc: Global, count: usize) -> Result<Telling, NoMemory>
    ensures told { IfOk result (λ x. x.told.items ≡ replicate count (told_of 0 [] 0)) }
    ensures waits { IfOk result (λ x. x.waits.items ≡ []) }
    ensures next { IfOk result (λ x. (s : ℕ) → get nat_eq x.next s ≡ None) }
{
    let mut told = Vec::new(alloc);
    told.resize(count, Told::none())?;
    Ok(Telling {
        told,
        waits: Vec::new(alloc),
        next: IndexMap::new(alloc),
    })
}

/// What the entries tell of so many transactions. The only error is that memory runs out.
pub fn told_of(alloc: Global, marks: &[Mark], count: usize) -> Result<Telling, NoMemory>
    requires { length marks.now < 2 ^ 63 }
    ensures told { IfOk result (λ x. (i : ℕ) → i < count
        → slice_get x.told.items i ≡ Some (told_of 0 marks.now i)) }
    ensures waits { IfOk result (λ x. x.waits.items ≡ reverse (waits_in 0 marks.now)) }
{
    let mut telling = untold(alloc, count)?;
    let mut at = marks.len();
    while at > 0 {
        at -= 1;
        tell(&mut telling, at, &marks[at])?;
    }
    Ok(telling)
}
