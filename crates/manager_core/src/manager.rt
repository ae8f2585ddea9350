//! The manager.
ghost use Rattle.std.specs.Prelude.{◌≡◌, ◌≤◌, ◌<◌, ◌↔◌, ℕ, [], ◌∷◌, length, reverse, IfOk, IfErr, OnOk, OnErr, IsFalse, IsTrue, is_some, Some, None};
ghost use Rattle.serial_spec.specs.declared.event.Event.TheVariants.{Abort, Begin, Commit};
ghost use Rattle.serial_spec.specs.declared.entry.Answer.TheVariants.{Refused, Stuck};
ghost use Rattle.serial_spec.specs.Allowed.{Allowed, cause_at_commit};
ghost use Rattle.serial_spec.specs.Rows.{IsRising, value_in};
ghost use Rattle.serial_spec.specs.Waits.{is_waits, wait_of};
ghost use Rattle.event_lists.specs.Views.{asked};
ghost use Rattle.durable_top.specs.Numbered.{entries_in};
ghost use Rattle.durable_top.specs.Store.{plain};
ghost use Rattle.manager_core.specs.Lines.{IsFree, IsWaitOf, waits_no_more, accessor};
ghost use Rattle.manager_core.specs.Outcomes.{answer_of};
ghost use Rattle.manager_core.specs.State.{entry};

mod asking;
mod parked;

use crate::changes::are_taken;
use crate::log::Log;
use crate::outcome::{OpenFault, Outcome};
use crate::tables::Tables;
use durable_top::{Row, TopStore, table_of};
use event_lists::{Act, Entries, EventView};
use serial_spec::{By, MOST_ROWS, NoMemory, PlainTable, Refusal, Reply};
use std::alloc::Global;
use std::marker::Model;
use txn_history::LineUse;
use txn_names::Name;
use wait_graph::CycleSearch;

/// What the opening gave.
#[derive(Drop)]
pub(crate) struct AtOpening {
    /// The rows of the store, in byte order.
    pub given: Vec<Row>,
    /// How many faults the store had counted.
    pub faults: u64,
}

/// Runs nested transactions over a store, by locks that are inherited (Moss 1981). Each call that
/// takes a line asks that the line is free for its event (`free` tells), and adds one entry to the
/// history. After want of memory the manager and its store are as before.
#[derive(Drop)]
pub struct Manager<S: TopStore> {
    log: Log,
    tables: Tables,
    breaker: CycleSearch,
    store: S,
    opened: AtOpening,
}

impl<S: TopStore> Model for Manager<S> {
    ghost use Rattle.manager_core.specs.Kept.{IsSettled};
    ghost use Rattle.manager_core.specs.State.{State};
    ghost use Rattle.manager_core.specs.Tables.{rows_in};

    ghost Value = { State S };

    ghost view = { λ m. record {
      rows = m.log.rows;
      opened = m.opened;
      history = m.log.entries;
      table = rows_in m.tables;
      store = m.store;
    } };

    ghost invariant = { λ m. IsSettled S.TopStore m.log.rows m.log.entries m.tables m.opened m.store };
}

/// What is left where a manager is taken apart.
#[derive(Drop)]
pub struct Parts<S: TopStore> {
    /// The opening rows, in byte order.
    pub opening: Vec<Row>,
    /// The entries, the oldest first.
    pub history: Entries,
    /// The table that the committed top-level transactions left.
    pub table: PlainTable,
    pub store: S,
}

impl<S: TopStore> Manager<S> {
    ghost use Rattle.manager_core.specs.Calls.{Added, Closed, Committed};
    ghost use Rattle.manager_core.specs.Opening.{HasCause, IsOpened};
    ghost use Rattle.manager_core.specs.Sound.{IsSound, is_store_refusal};

    /// Opens a store, whose rows are those of the opening. On an error the store is dropped.
    pub fn open(alloc: Global, store: S) -> Result<Manager<S>, OpenFault>
        ensures ok { IfOk result (λ m. IsOpened S.TopStore store m) }
        ensures sound { IfOk result (λ m. IsSound S.TopStore m) }
        ensures err { IfErr result (λ fault. HasCause S.TopStore store fault) }
    {
        let mut store = store;
        match store.load(alloc) {
            Ok(rows) => {
                if rows.len() > MOST_ROWS {
                    return Err(OpenFault::TooManyRows);
                }
                match Self::over(alloc, store, rows) {
                    Ok(manager) => Ok(manager),
                    Err(_) => Err(OpenFault::NoMemory),
                }
            }
            Err(fault) => Err(OpenFault::Store(fault)),
        }
    }

    // The manager over a store that gave these rows.
    fn over(alloc: Global, store: S, rows: Vec<Row>) -> Result<Manager<S>, NoMemory>
        requires rising { IsRising (plain rows.items) }
        requires rows { S.doubt store ≡ 0 → value_in (plain rows.items) ≡ S.table store }
        requires numbers { S.doubt store ≡ 0 → entries_in rows.items ≡ S.numbered store }
        ensures history { IfOk result (λ m. m.history ≡ []) }
        ensures rows { IfOk result (λ m. m.rows ≡ plain rows.items) }
        ensures table { IfOk result (λ m. value_in m.table ≡ value_in (plain rows.items)) }
        ensures given { IfOk result (λ m. m.opened.given ≡ rows) }
        ensures faults { IfOk result (λ m. m.opened.faults ≡ S.faults store) }
        ensures store { IfOk result (λ m. m.store ≡ store) }
        ensures sound { IfOk result (λ m. IsSound S.TopStore m) }
    {
        let table = table_of(alloc, &rows)?;
        // So they are these.
        table.has_rising_rows();
        let log = Log::new(alloc, &table)?;
        let faults = store.faults();
        Ok(Manager {
            log,
            tables: Tables::new(alloc, table),
            breaker: CycleSearch::new(alloc),
            store,
            opened: AtOpening {
                given: rows,
                faults,
            },
        })
    }

    /// Begins a transaction in its parent, which is the root where the name has one label. It is
    /// refused by the first of these that holds: the name began before (Used); the parent never
    /// began (NoParent), has an aborted ancestor, itself included (Orphan), or has committed
    /// (NoParent); 16,384 have begun (Full).
    pub fn begin(&mut self, by: By, name: &Name) -> Result<Outcome, NoMemory>
        requires free { IsFree self.old.history by (Begin name.now) }
        ensures ok { IfOk result (λ outcome. Added self.old self.new by (Begin name.now) outcome) }
        ensures at_once { IfOk result (λ outcome. IsFalse (is_waits (answer_of outcome))) }
        ensures err { OnErr result (self.new ≡ self.old) }
        ensures sound { OnOk result (IsSound S.TopStore self.new) }
    {
        self.log.reserve(1)?;
        let outcome = Outcome::of(self.tables.begin(by, name)?);
        self.log.add(by, name, &Act::Begin, &outcome);
        Ok(outcome)
    }

    /// Commits a transaction into its parent. It is refused by the first of these that holds: it
    /// never began (Unknown), has an aborted ancestor, itself included (Orphan), or has committed
    /// (Done); a child is live (Children); an access of it waits (Waiting). A top-level one that
    /// wrote is done only where the store took its changes (else Store).
    pub fn commit(&mut self, by: By, name: &Name) -> Result<Outcome, NoMemory>
        requires free { IsFree self.old.history by (Commit name.now) }
        ensures ok { IfOk result (λ outcome.
            Committed S.TopStore self.old self.new by name.now outcome) }
        ensures at_once { IfOk result (λ outcome. IsFalse (is_waits (answer_of outcome))) }
        ensures err { OnErr result (self.new ≡ self.old) }
        ensures sound { OnOk result (IsSound S.TopStore self.new) }
    {
        if name.depth() > 1 {
            self.commit_child(by, name)
        } else {
            self.commit_top(by, name)
        }
    }

    // A commit that is refused, by the first cause that holds. Few are, and a cause has room for a name:
    // so this is no part of the callers.
    #[inline(never)]
    fn refuse_commit(&mut self, by: By, name: &Name) -> Result<Outcome, NoMemory>
        requires free { IsFree self.old.history by (Commit name.now) }
        requires refused { IsTrue (is_some (cause_at_commit self.old.history by name.now)) }
        ensures ok { IfOk result (λ outcome.
            Committed S.TopStore self.old self.new by name.now outcome) }
        ensures at_once { IfOk result (λ outcome. IsFalse (is_waits (answer_of outcome))) }
        ensures err { OnErr result (self.new ≡ self.old) }
        ensures sound { OnOk result (IsSound S.TopStore self.new) }
    {
        match self.tables.number_at_commit(&self.log, by, name) {
            Ok(_) => unreachable!(),
            Err(refusal) => self.refuse_commit_by(by, name, refusal),
        }
    }

    // The same, by this cause.
    fn refuse_commit_by(
        &mut self,
        by: By,
        name: &Name,
        refusal: Refusal,
    ) -> Result<Outcome, NoMemory>
        requires free { IsFree self.old.history by (Commit name.now) }
        requires cause { Some refusal ≡ cause_at_commit self.old.history by name.now }
        ensures ok { IfOk result (λ outcome.
            Committed S.TopStore self.old self.new by name.now outcome) }
        ensures at_once { IfOk result (λ outcome. IsFalse (is_waits (answer_of outcome))) }
        ensures err { OnErr result (self.new ≡ self.old) }
        ensures sound { OnOk result (IsSound S.TopStore self.new) }
    {
        self.log.reserve(1)?;
        let outcome = Outcome::Refused(refusal);
        self.log.add(by, name, &Act::Commit, &outcome);
        Ok(outcome)
    }

    fn commit_child(&mut self, by: By, name: &Name) -> Result<Outcome, NoMemory>
        requires free { IsFree self.old.history by (Commit name.now) }
        requires below { 1 < length name.now }
        ensures ok { IfOk result (λ outcome.
            Committed S.TopStore self.old self.new by name.now outcome) }
        ensures at_once { IfOk result (λ outcome. IsFalse (is_waits (answer_of outcome))) }
        ensures err { OnErr result (self.new ≡ self.old) }
        ensures sound { OnOk result (IsSound S.TopStore self.new) }
    {
        let Some(txn) = self.tables.number_to_commit(&self.log, by, name) else {
            return self.refuse_commit(by, name);
        };
        self.log.reserve(1)?;
        let parent = self.tables.parent_number(name, txn);
        self.tables.reserve_commit(txn, parent)?;
        self.tables.commit_child(txn, parent);
        let outcome = Outcome::Done(Reply::Ok);
        self.log.add(by, name, &Act::Commit, &outcome);
        Ok(outcome)
    }

    // All growths come before the store's call.
    fn commit_top(&mut self, by: By, name: &Name) -> Result<Outcome, NoMemory>
        requires free { IsFree self.old.history by (Commit name.now) }
        requires top { length name.now ≡ 1 }
        ensures ok { IfOk result (λ outcome.
            Committed S.TopStore self.old self.new by name.now outcome) }
        ensures at_once { IfOk result (λ outcome. IsFalse (is_waits (answer_of outcome))) }
        ensures err { OnErr result (self.new ≡ self.old) }
        ensures sound { OnOk result (IsSound S.TopStore self.new) }
    {
        let Some(txn) = self.tables.number_to_commit(&self.log, by, name) else {
            return self.refuse_commit(by, name);
        };
        self.log.reserve(1)?;
        let changes = self.tables.changes(txn)?;
        self.tables.reserve_changes(changes.len())?;
        if are_taken(&mut self.store, &changes) {
            self.tables.commit_top(txn, &changes);
            let outcome = Outcome::Done(Reply::Ok);
            self.log.add(by, name, &Act::Commit, &outcome);
            Ok(outcome)
        } else {
            let outcome = Outcome::Refused(Refusal::Store);
            self.log.add(by, name, &Act::Commit, &outcome);
            Ok(outcome)
        }
    }

    /// Aborts a transaction with all below it, those that have committed into it too. It is refused
    /// by the first of these that holds: it never began (Unknown), has an aborted ancestor, itself
    /// included (Orphan), or has committed (Done).
    pub fn abort(&mut self, by: By, name: &Name) -> Result<Outcome, NoMemory>
        requires free { IsFree self.old.history by (Abort name.now) }
        ensures ok { IfOk result (λ outcome. Added self.old self.new by (Abort name.now) outcome) }
        ensures at_once { IfOk result (λ outcome. IsFalse (is_waits (answer_of outcome))) }
        ensures err { OnErr result (self.new ≡ self.old) }
        ensures sound { OnOk result (IsSound S.TopStore self.new) }
    {
        self.log.reserve(1)?;
        self.tables.reserve_aborts(1)?;
        name.has_labels();
        let outcome = Outcome::of(self.tables.abort(name));
        self.log.add(by, name, &Act::Abort, &outcome);
        Ok(outcome)
    }

    /// Aborts the live top-level transactions, in the order in which they began.
    pub fn close(&mut self) -> Result<(), NoMemory>
        ensures ok { OnOk result (Closed self.old self.new) }
        ensures err { OnErr result (self.new ≡ self.old) }
        ensures sound { OnOk result (IsSound S.TopStore self.new) }
    {
        let live = self.tables.count_live_tops();
        self.log.reserve(live)?;
        self.tables.reserve_aborts(live)?;
        self.tables.close_tops(&mut self.log);
        Ok(())
    }

    /// Whether an access of the transaction waits.
    pub fn waiting(&self, name: &Name) -> bool
        ensures { result ≡ is_some (wait_of self.now.history name.now) }
    {
        self.tables.waiting_access(By::Close, name).is_some()
    }

    // Whether no access of the event's transaction waits.
    fn waits_no_more(&self, event: &EventView<'_>) -> bool
        ensures { result ≡ waits_no_more self.now.history (accessor (asked event.now)) }
    {
        match event.act {
            Act::Access(_, _) | Act::Sum(_) => !self.waiting(event.name),
            _ => true,
        }
    }

    /// Whether a call may add an entry of this line for this event: it is a line without entries,
    /// or one whose only entry is a wait with this event, and the transaction waits no more.
    pub fn free(&self, by: By, event: &EventView<'_>) -> bool
        ensures { IsTrue result ↔ IsFree self.now.history by (asked event.now) }
    {
        match self.log.line_use(by, event) {
            LineUse::Unused => true,
            LineUse::Waits => self.waits_no_more(event),
            LineUse::Used => false,
        }
    }

    /// The entries, the oldest first.
    pub fn history(&self) -> &Entries
        ensures { reverse result.now.entries ≡ self.now.history }
    {
        self.log.entries()
    }

    /// The table that the committed top-level transactions left.
    pub fn table(&self) -> &PlainTable
        ensures table { result.now.rows ≡ self.now.table }
        ensures sound { IsSound S.TopStore self.now }
    {
        self.tables.base()
    }

    /// The opening rows, in byte order.
    pub fn opening(&self) -> &[Row]
        ensures rows { plain result.now ≡ self.now.rows }
        ensures given { result.now ≡ self.now.opened.given.items }
    {
        self.opened.given.as_slice()
    }

    /// All that the manager had.
    pub fn into_parts(self) -> Parts<S>
        ensures opening { plain result.opening.items ≡ self.rows }
        ensures given { result.opening ≡ self.opened.given }
        ensures history { reverse result.history.entries ≡ self.history }
        ensures table { result.table.rows ≡ self.table }
        ensures store { result.store ≡ self.store }
    {
        let Manager {
            log,
            tables,
            store,
            opened,
            ..
        } = self;
        let history = log.into_entries();
        Parts {
            opening: opened.given,
            history,
            table: tables.into_base(),
            store,
        }
    }

    /// The store.
    pub fn into_store(self) -> S
        ensures { result ≡ self.store }
    {
        let Parts { store, .. } = self.into_parts();
        store
    }
}
