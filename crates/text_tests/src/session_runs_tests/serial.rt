//! A judge of reports apart from the proofs: what the committed transactions were replied is run
//! again over one table, one transaction after another, and has to lead to the report's table.
use durable_top::Row;
use event_lists::{Act, EntryView, Said};
use run_reports::Report;
use serial_spec::{Item, PlainTable, Reply, run_items};
use std::alloc::Global;
use std::process::Abort;
use txn_names::Name;

// A transaction under way, and its items so far.
#[derive(Drop)]
struct Under {
    name: Option<Name>,
    items: Vec<Item>,
}

// The place of a transaction, or of the root.
fn place_of(under: &[Under], name: Option<Name>) -> Option<usize> {
    under.iter().position(|one| one.name == name)
}

fn begin(rt: &impl Abort, alloc: Global, under: &mut Vec<Under>, name: Option<Name>) {
    let items = Vec::new(alloc);
    under.push(Under { name, items }).expect(rt, "memory");
}

fn add(rt: &impl Abort, under: &mut Vec<Under>, name: Option<Name>, item: Item) {
    if let Some(place) = place_of(under.as_slice(), name) {
        if let Some(one) = under.get_mut(place) {
            one.items.push(item).expect(rt, "memory");
        }
    }
}

// The items of one that commits become a block of its parent's.
fn commit(rt: &impl Abort, under: &mut Vec<Under>, name: Name) {
    if let Some(place) = place_of(under.as_slice(), Some(name)) {
        if place < under.len() {
            let one = under.remove(place);
            add(rt, under, name.parent(), Item::Block(one.items));
        }
    }
}

// The reply, or another sum in its place, where that is still to be done.
fn spoiled(reply: Reply, spoils: &mut bool) -> Reply {
    match reply {
        Reply::New(sum) if *spoils => {
            *spoils = false;
            Reply::New(sum.wrapping_add(1))
        }
        _ => reply,
    }
}

fn enter(
    rt: &impl Abort,
    alloc: Global,
    under: &mut Vec<Under>,
    entry: &EntryView<'_>,
    spoils: &mut bool,
) {
    let Said::Done(reply) = entry.said else {
        return;
    };
    let reply = spoiled(reply, spoils);
    let name = *entry.event.name;
    match *entry.event.act {
        Act::Begin => begin(rt, alloc, under, Some(name)),
        Act::Access(key, op) => add(rt, under, Some(name), Item::Access { key, op, reply }),
        Act::Sum(group) => add(rt, under, Some(name), Item::Sum { group, reply }),
        Act::Commit => commit(rt, under, name),
        Act::Abort | Act::After(_) => {}
    }
}

// The table of these rows.
fn table_of(rt: &impl Abort, alloc: Global, rows: &[Row]) -> PlainTable {
    let mut table = PlainTable::new(alloc);
    for row in rows {
        table.put(&row.key, Some(row.value)).expect(rt, "memory");
    }
    table
}

fn is_same(left: &PlainTable, right: &PlainTable) -> bool {
    left.len() == right.len() && (0..left.len()).all(|place| left.at(place) == right.at(place))
}

// Whether these items lead from the report's opening rows, with these replies, to its table.
fn leads_to(rt: &impl Abort, alloc: Global, report: &Report, items: &[Item]) -> bool {
    let mut table = table_of(rt, alloc, report.opening());
    let wrong = run_items(&mut table, items).expect(rt, "memory");
    wrong.is_none() && is_same(&table, report.table())
}

/// Whether the committed top-level transactions, one after another, have these replies and leave
/// the report's table. With another sum as the reply to the first add, where that is asked, it must
/// not be so.
pub fn is_serial(rt: &impl Abort, alloc: Global, report: &Report, spoils: bool) -> bool {
    let mut under = Vec::new(alloc);
    begin(rt, alloc, &mut under, None);
    let mut spoils = spoils;
    for place in 0..report.history().len() {
        if let Some(entry) = report.history().get(place) {
            enter(rt, alloc, &mut under, &entry, &mut spoils);
        }
    }
    match under.first() {
        Some(root) => leads_to(rt, alloc, report, root.items.as_slice()),
        None => false,
    }
}
