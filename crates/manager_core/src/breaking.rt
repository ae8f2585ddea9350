//! Cycles of waits are broken: the last begun on any is aborted, until none is left.
ghost use Rattle.std.specs.Prelude.{◌≡◌, ◌≤◌, ◌<◌, ◌+◌, ◌*◌, ◌∷◌, length, IfNone, IfSome, OnOk};
ghost use Rattle.serial_spec.specs.Interleaving.{victim};
ghost use Rattle.serial_spec.specs.Legal.{AreAllowed};
ghost use Rattle.serial_spec.specs.Waits.{IsVictim, Quiet};
ghost use Rattle.txn_history.specs.Laws.{QuietBut};
ghost use Rattle.manager_core.specs.Kept.{AreTablesOf};
ghost use Rattle.manager_core.specs.Tables.{rows_in};
ghost use Rattle.manager_core.specs.inner.Victims.{HasMadeRoom, HasRoomToStep, Settles};

use crate::log::Log;
use crate::outcome::Outcome;
use crate::tables::Tables;
use event_lists::Act;
use serial_spec::{By, NoMemory};
use std::alloc::AllocError;
use txn_names::Name;
use wait_graph::CycleSearch;

// The transaction that is aborted next, if a cycle of waits stands. There is room to look for it.
fn next_victim(_log: &Log, tables: &Tables, breaker: &mut CycleSearch) -> Option<Name>
    requires allowed { AreAllowed _log.now.rows _log.now.entries }
    requires are { AreTablesOf _log.now.rows _log.now.entries tables.now }
    requires room { length tables.now.waits.waits * length tables.now.waits.waits ≤ breaker.old }
    ensures some { IfSome result (IsVictim _log.now.entries) }
    ensures none { IfNone result (Quiet _log.now.entries) }
    ensures room { breaker.old ≤ breaker.new }
{
    tables.tree.has_distinct_names();
    tables.waits.has_each_once();
    let txn = breaker.victim(&tables.tree, tables.estate.locks(), &tables.waits)?;
    tables.tree.name_of(txn).copied()
}

// Aborts it. It waits, so that fewer wait afterwards.
fn abort_victim(log: &mut Log, tables: &mut Tables, name: &Name)
    requires allowed { AreAllowed log.old.rows log.old.entries }
    requires are { AreTablesOf log.old.rows log.old.entries tables.old }
    requires is_victim { IsVictim log.old.entries name.now }
    requires room { 0 < log.old.room }
    requires marks_room { 0 < tables.old.marks.room }
    ensures rows { log.new.rows ≡ log.old.rows }
    ensures entries { log.new.entries ≡ victim name.now ∷ log.old.entries }
    ensures are { AreTablesOf log.old.rows (victim name.now ∷ log.old.entries) tables.new }
    ensures table { rows_in tables.new ≡ rows_in tables.old }
    ensures fewer { length tables.new.waits.waits < length tables.old.waits.waits }
    ensures room { log.old.room ≤ log.new.room + 1 }
    ensures marks_room { tables.old.marks.room ≤ tables.new.marks.room + 1 }
{
    name.has_labels();
    let outcome = Outcome::of(tables.abort(name));
    log.add(By::Victim, name, &Act::Abort, &outcome);
}

/// Aborts the last begun of those that lie on a cycle of waits, until no cycle is left. It takes no
/// memory: there is room to abort all that wait, and to look for them.
pub(crate) fn break_cycles(log: &mut Log, tables: &mut Tables, breaker: &mut CycleSearch)
    requires allowed { AreAllowed log.old.rows log.old.entries }
    requires are { AreTablesOf log.old.rows log.old.entries tables.old }
    requires room { length tables.old.waits.waits ≤ log.old.room }
    requires marks_room { length tables.old.waits.waits ≤ tables.old.marks.room }
    requires work_room { length tables.old.waits.waits * length tables.old.waits.waits ≤ breaker.old }
    ensures { Settles log.old.rows log.old.entries log.new tables.old tables.new }
{
    while let Some(name) = next_victim(log, tables, breaker) {
        abort_victim(log, tables, &name);
    }
}

// The transaction that is aborted next, if a cycle of waits stands, where each goes through this
// transaction, which the line named. There is room to look for it.
fn next_own_victim(
    _log: &Log,
    tables: &Tables,
    breaker: &mut CycleSearch,
    by: By,
    name: &Name,
) -> Option<Name>
    requires allowed { AreAllowed _log.now.rows _log.now.entries }
    requires are { AreTablesOf _log.now.rows _log.now.entries tables.now }
    requires own { QuietBut name.now _log.now.entries }
    requires room { length tables.now.waits.waits * length tables.now.waits.waits ≤ breaker.old }
    ensures some { IfSome result (IsVictim _log.now.entries) }
    ensures none { IfNone result (Quiet _log.now.entries) }
    ensures room { breaker.old ≤ breaker.new }
{
    let txn = tables.tree.no_by_hint(name, tables.hints.of(by))?;
    tables.tree.has_distinct_names();
    tables.waits.has_each_once();
    let last = breaker.last_through(&tables.tree, tables.estate.locks(), &tables.waits, txn)?;
    tables.tree.name_of(last).copied()
}

/// As `break_cycles`, where each cycle goes through this transaction, which the line named. So it is after each abort
/// too, which only takes pairs away, so that those alone are looked at that the transaction waits
/// for, or that one of these waits for in turn.
pub(crate) fn break_own_cycles(
    log: &mut Log,
    tables: &mut Tables,
    breaker: &mut CycleSearch,
    by: By,
    name: &Name,
)
    requires allowed { AreAllowed log.old.rows log.old.entries }
    requires are { AreTablesOf log.old.rows log.old.entries tables.old }
    requires own { QuietBut name.now log.old.entries }
    requires room { length tables.old.waits.waits ≤ log.old.room }
    requires marks_room { length tables.old.waits.waits ≤ tables.old.marks.room }
    requires work_room { length tables.old.waits.waits * length tables.old.waits.waits ≤ breaker.old }
    ensures { Settles log.old.rows log.old.entries log.new tables.old tables.new }
{
    while let Some(last) = next_own_victim(log, tables, breaker, by, name) {
        abort_victim(log, tables, &last);
    }
}

/// Makes room for an entry after which one more may wait, and for breaking the cycles that come of
/// it.
#[inline(always)]
pub(crate) fn reserve_step(
    log: &mut Log,
    tables: &mut Tables,
    breaker: &mut CycleSearch,
) -> Result<(), NoMemory>
    ensures made { HasMadeRoom log.old log.new tables.old tables.new }
    ensures room { OnOk result (HasRoomToStep log.new tables.new breaker.new) }
{
    // One entry of the call, and one for each of those that wait and of one more.
    let Some(entries) = tables.waits.len().checked_add(2) else {
        return Err(AllocError);
    };
    let waiting = entries - 1;
    log.reserve(entries)?;
    tables.reserve_aborts(waiting)?;
    breaker.reserve(waiting)
}
