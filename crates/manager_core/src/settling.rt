//! Whether an access may have closed a cycle of waits, and the breaking of those that it has
//! closed.
//!
//! Each step looks for pairs of which the first waits for the second only where the step itself can
//! have added one. All pairs together are as many as those that wait, squared, and most steps add
//! none.
ghost use Rattle.std.specs.Prelude.{◌<◌, ◌∷◌, is_some, IsFalse, IsTrue};
ghost use Rattle.serial_spec.specs.declared.entry.Answer.TheVariants.{Done, Waits};
ghost use Rattle.serial_spec.specs.declared.target.Asked.{Asked};
ghost use Rattle.serial_spec.specs.Legal.{AreAllowed};
ghost use Rattle.manager_core.specs.Kept.{AreTablesOf};
ghost use Rattle.manager_core.specs.inner.Victims.{ClosesNoCycle, EntersRefusal, IsReadyFor, Settles, cause_of_request};
ghost use Rattle.manager_core.specs.Tables.{entry_of};

use crate::accessing::Request;
use crate::breaking::{break_cycles, break_own_cycles};
use crate::log::Log;
use crate::tables::Tables;
use event_lists::Said;
use serial_spec::{Asked, By, Reply};
use txn_names::Name;
use wait_graph::{CycleSearch, any_edge_by_way_of};

// Whether the access that was answered last may have closed a cycle of waits. No cycle stood
// before, and it adds pairs of those alone whom its lock keeps out of what has a key in common with
// it, and those that wait in its branch: so it closes none unless there are both. Where nobody
// waits no cycle stands. It takes no memory.
#[inline(always)]
fn may_close_cycle(tables: &Tables, by: By, name: &Name, asked: &Asked) -> bool
    ensures { IsFalse result → ClosesNoCycle tables.now name.now asked.now }
{
    if tables.waits.is_empty() {
        return false;
    }
    let Some(txn) = tables.tree.no_by_hint(name, tables.hints.of(by)) else {
        return false;
    };
    let (tree, locks, waits) = (&tables.tree, tables.estate.locks(), &tables.waits);
    any_edge_by_way_of(tree, locks, waits, txn, &asked.target())
}

/// Enters an access that was answered, which the tables have, and aborts the last begun of those
/// that lie on a cycle of waits, until no cycle is left. It takes no memory: there is room for the
/// entry, to abort all that wait, and to look for them.
#[inline(always)]
pub(crate) fn settle_answered(
    log: &mut Log,
    tables: &mut Tables,
    breaker: &mut CycleSearch,
    request: &Request<'_>,
    reply: Reply,
)
    requires { IsReadyFor log.old (entry_of request.now (Done reply)) tables.old breaker.old }
    ensures { Settles log.old.rows (entry_of request.now (Done reply) ∷ log.old.entries)
        log.new tables.old tables.new }
{
    let Request { by, name, asked } = *request;
    // The locks looked the key up last.
    let spot = tables.estate.locks().key_hint();
    log.add_asked(by, name, asked, Said::Done(reply), name, spot);
    if may_close_cycle(tables, by, name, asked) {
        break_cycles(log, tables, breaker);
    }
}

/// As `settle_answered`, of an access that begins to wait. It adds pairs of its own transaction
/// alone, so that each cycle goes through it.
pub(crate) fn settle_waiting(
    log: &mut Log,
    tables: &mut Tables,
    breaker: &mut CycleSearch,
    request: &Request<'_>,
)
    requires { IsReadyFor log.old (entry_of request.now Waits) tables.old breaker.old }
    ensures { Settles log.old.rows (entry_of request.now Waits ∷ log.old.entries)
        log.new tables.old tables.new }
{
    let Request { by, name, asked } = *request;
    log.add_asked(by, name, asked, Said::Waits, name, 0);
    break_own_cycles(log, tables, breaker, by, name);
}

impl Tables {
    /// Enters that an access is refused, by the first cause that holds. It adds no pair, so that no
    /// cycle is looked for. Few accesses are refused, so this is no part of the callers.
    #[inline(never)]
    pub(crate) fn refuse(&self, log: &mut Log, request: &Request<'_>)
        requires allowed { AreAllowed log.old.rows log.old.entries }
        requires are { AreTablesOf log.old.rows log.old.entries self.now }
        requires refused { IsTrue (is_some (cause_of_request log.old request.now)) }
        requires room { 0 < log.old.room }
        ensures { EntersRefusal log.old log.new request.now }
    {
        let Request { by, name, asked } = *request;
        let (cause, top) = self.cause_at_access(log, by, name, asked);
        log.add_asked(by, name, asked, Said::Refused(cause), top, 0);
    }
}
