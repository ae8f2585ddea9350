//! The tree: the parent of each transaction, its first child and its next sibling.
ghost use Rattle.std.specs.Prelude.{◌≡◌, ◌<◌, ◌^◌, ℕ, List, Option, map, nat_eq, slice_get, suc, None, Some, if◌then◌else◌, IfOk, IfSome, OnOk};
ghost use Rattle.indexmap.specs.IndexMap.{get};
ghost use Rattle.report_trees.specs.inner.Linked.{IsLinkedFrom, IsLinked};
ghost use Rattle.report_trees.specs.Trees.{place_above};

use indexmap::{IndexMap, IndexSet};
use serial_spec::NoMemory;
use std::alloc::{AllocError, Global};
use txn_names::Name;

/// Who is whose first child, and who began next below the same parent.
#[derive(Drop)]
pub(crate) struct Links {
    /// The first child, by the place of the parent.
    pub(crate) first: IndexMap<usize, usize>,
    /// The next sibling, if there is one, by the number of the transaction.
    pub(crate) next: IndexMap<usize, Option<usize>>,
}

// The place of the parent of the transaction with this name.
fn place_above(names: &IndexSet<Name>, name: &Name) -> usize
    ensures { result ≡ place_above names.now.keys name.now }
{
    let _count = names.len();
    match name.parent() {
        Some(parent) => match names.get_index_of(&parent) {
            Some(number) => number + 1,
            None => 0,
        },
        None => 0,
    }
}

/// The places of the parents, by the numbers of the transactions. The only error is that memory
/// runs out.
pub(crate) fn places_of(alloc: Global, names: &IndexSet<Name>) -> Result<Vec<usize>, NoMemory>
    ensures { IfOk result (λ places.
        places.items ≡ map (place_above names.now.keys) names.now.keys) }
{
    names
        .as_slice()
        .iter()
        .map(|name| place_above(names, name))
        .collect(alloc)
}

fn set_first(
    first: &mut IndexMap<usize, usize>,
    place: usize,
    number: usize,
) -> Result<(), NoMemory>
    ensures { OnOk result ((p : ℕ) → get nat_eq first.new p
        ≡ (if nat_eq place p then Some number else get nat_eq first.old p)) }
{
    match first.insert(place, number) {
        Ok(_) => Ok(()),
        Err(_) => Err(AllocError),
    }
}

fn set_next(
    next: &mut IndexMap<usize, Option<usize>>,
    number: usize,
    sibling: Option<usize>,
) -> Result<(), NoMemory>
    ensures { OnOk result ((i : ℕ) → get nat_eq next.new i
        ≡ (if nat_eq number i then Some sibling else get nat_eq next.old i)) }
{
    match next.insert(number, sibling) {
        Ok(_) => Ok(()),
        Err(_) => Err(AllocError),
    }
}

/// The first child of the place, so far.
pub(crate) fn first_of(first: &IndexMap<usize, usize>, place: usize) -> Option<usize>
    ensures first { result ≡ get nat_eq first.now place }
    ensures fits { IfSome result (λ j. j < 2 ^ 64) }
{
    match first.get(&place) {
        Some(number) => Some(*number),
        None => None,
    }
}

/// The next sibling, where it began later.
pub(crate) fn next_of(next: &IndexMap<usize, Option<usize>>, number: usize) -> Option<usize>
    ensures later { IfSome result (λ j. number < j) }
    ensures fits { IfSome result (λ j. j < 2 ^ 64) }
    ensures kept { (o : Option ℕ) → get nat_eq next.now number ≡ Some o
        → IfSome o (λ j. number < j) → result ≡ o }
{
    match next.get(&number) {
        Some(sibling) => match sibling {
            Some(other) => { if *other > number { Some(*other) } else { None } }
            None => None,
        },
        None => None,
    }
}

// The links of those from this one on, whose parent has this place.
fn link(links: &mut Links, number: usize, place: usize) -> Result<(), NoMemory>
    // Wide: it is over all places that the links may be of.
    ensures { OnOk result ((places : List ℕ) → slice_get places number ≡ Some place
        → IsLinkedFrom places (suc number) links.old → IsLinkedFrom places number links.new) }
{
    let sibling = first_of(&links.first, place);
    set_next(&mut links.next, number, sibling)?;
    set_first(&mut links.first, place, number)
}

fn no_links(alloc: Global) -> Links
    ensures first { (p : ℕ) → get nat_eq result.first p ≡ None }
    ensures next { (i : ℕ) → get nat_eq result.next i ≡ None }
{
    Links {
        first: IndexMap::new(alloc),
        next: IndexMap::new(alloc),
    }
}

/// The links by the places of the parents. The only error is that memory runs out.
pub(crate) fn links_of(alloc: Global, places: &[usize]) -> Result<Links, NoMemory>
    ensures { IfOk result (IsLinked places.now) }
{
    let mut links = no_links(alloc);
    let mut number = places.len();
    while number > 0 {
        number -= 1;
        link(&mut links, number, places[number])?;
    }
    Ok(links)
}
