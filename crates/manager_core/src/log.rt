//! The history over the opening rows.
ghost use Rattle.std.specs.Prelude.{◌≡◌, ◌+◌, ◌<◌, ◌≤◌, ◌↔◌, [], ◌∷◌, length, reverse, slice_get, OnOk, IfOk, IsTrue};
ghost use Rattle.std.specs.List.{list_any};
ghost use Rattle.txn_names.specs.Path.{label_eq};
ghost use Rattle.serial_spec.specs.declared.entry.Answer.TheVariants.{Stuck};
ghost use Rattle.serial_spec.specs.Allowed.{known};
ghost use Rattle.serial_spec.specs.History.{event_of};
ghost use Rattle.event_lists.specs.Views.{answer_by, asked, event_by, seen};
ghost use Rattle.txn_history.specs.Uses.{HasUse};
ghost use Rattle.manager_core.specs.State.{entry};
ghost use Rattle.manager_core.specs.Outcomes.{TellsEntry, answer_of};

use crate::outcome::Outcome;
use event_lists::{Act, Entries, EntryView, EventView, Said};
use serial_spec::{Asked, By, NoMemory, PlainTable};
use std::alloc::Global;
use std::marker::Model;
use txn_history::{History, LineUse};
use txn_names::{Key, Name};

/// The entries over the opening rows.
#[derive(Drop)]
pub(crate) struct Log {
    history: History,
}

impl Model for Log {
    ghost use Rattle.txn_history.specs.Recorded.{Recorded};

    ghost Value = { Recorded };

    ghost view = { λ l. l.history };
}

impl Log {
    /// No entries, over these rows.
    pub(crate) fn new(alloc: Global, table: &PlainTable) -> Result<Log, NoMemory>
        ensures rows { IfOk result (λ log. log.rows ≡ table.now.rows) }
        ensures entries { IfOk result (λ log. log.entries ≡ []) }
    {
        let history = History::new(alloc, table)?;
        Ok(Log { history })
    }

    /// The entries, the oldest first.
    pub(crate) fn entries(&self) -> &Entries
        ensures { reverse result.now.entries ≡ self.now.entries }
    {
        self.history.entries()
    }

    /// The entries, the oldest first.
    pub(crate) fn into_entries(self) -> Entries
        ensures { reverse result.entries ≡ self.entries }
    {
        self.history.into_entries()
    }

    /// How many entries there are.
    pub(crate) fn len(&self) -> usize
        ensures { result ≡ length self.now.entries }
    {
        self.history.len()
    }

    /// The outcome that the entry at this place, which is that of a call, has: the oldest has place
    /// 0. Where there is no such entry, or it is of a line that was given up, it is any.
    pub(crate) fn outcome_at(&self, place: usize) -> Outcome
        ensures { TellsEntry (slice_get (reverse self.now.entries) place) result }
    {
        match self.history.entries().get(place) {
            Some(entry) => Outcome::told(&entry.entry().answer),
            None => Outcome::Waits,
        }
    }

    /// Makes room for more entries.
    #[inline(always)]
    pub(crate) fn reserve(&mut self, additional: usize) -> Result<(), NoMemory>
        ensures rows { self.new.rows ≡ self.old.rows }
        ensures entries { self.new.entries ≡ self.old.entries }
        ensures room { OnOk result (additional ≤ self.new.room) }
    {
        self.history.reserve(additional)
    }

    // Adds the entry. The spot is a number that is mostly told with the same key, or any. It is no part
    // of its callers, which are many.
    #[inline(never)]
    fn push(&mut self, entry: &EntryView<'_>, spot: usize)
        requires { 0 < self.old.room }
        ensures rows { self.new.rows ≡ self.old.rows }
        ensures entries { self.new.entries ≡ seen entry.now ∷ self.old.entries }
        ensures room { self.old.room ≤ self.new.room + 1 }
    {
        self.history.push_near(entry, spot);
    }

    /// Adds the entry of what is asked of a transaction, and of the outcome. It is part of each
    /// caller, so that an outcome, which has room for a name, is no value in memory.
    #[inline(always)]
    pub(crate) fn add<'a>(&mut self, by: By, name: &'a Name, act: &'a Act, outcome: &'a Outcome)
        requires { 0 < self.old.room }
        ensures rows { self.new.rows ≡ self.old.rows }
        ensures entries { self.new.entries ≡
            entry by (event_by name.now act.now) (answer_of outcome.now) ∷ self.old.entries }
        ensures room { self.old.room ≤ self.new.room + 1 }
    {
        let entry = EntryView {
            by,
            event: EventView { name, act },
            said: outcome.said(),
            top: outcome.top(name),
        };
        self.push(&entry, 0);
    }

    /// Adds the entry of an access, and of what it was answered. The last name is that of the
    /// topmost aborted transaction where an orphan is refused, and else any. The spot is a number that
    /// is mostly told with the same key, or any.
    #[inline(always)]
    pub(crate) fn add_asked<'a>(
        &mut self,
        by: By,
        name: &'a Name,
        asked: &Asked,
        said: Said,
        top: &'a Name,
        spot: usize,
    )
        requires { 0 < self.old.room }
        ensures rows { self.new.rows ≡ self.old.rows }
        ensures entries { self.new.entries
            ≡ entry by (event_of name.now asked.now) (answer_by said top.now) ∷ self.old.entries }
        ensures room { self.old.room ≤ self.new.room + 1 }
    {
        let act = match asked {
            Asked::At(key, op) => Act::Access(*key, *op),
            Asked::Over(group) => Act::Sum(*group),
        };
        let entry = EntryView {
            by,
            event: EventView { name, act: &act },
            said,
            top,
        };
        self.push(&entry, spot);
    }

    /// Adds the entry of a line that is given up.
    pub(crate) fn add_stuck(&mut self, by: By, event: &EventView<'_>)
        requires { 0 < self.old.room }
        ensures rows { self.new.rows ≡ self.old.rows }
        ensures entries { self.new.entries ≡
            entry by (asked event.now) Stuck ∷ self.old.entries }
    {
        let entry = EntryView {
            by,
            event: *event,
            said: Said::Stuck,
            top: event.name,
        };
        self.push(&entry, 0);
    }

    /// Whether the key is in an opening row or in an answered access.
    pub(crate) fn knows(&self, key: &Key) -> bool
        ensures { result ≡ list_any (label_eq key.now) (known self.now.rows self.now.entries) }
    {
        self.history.knows(key)
    }

    /// How many keys are known.
    pub(crate) fn known(&self) -> usize
        ensures { result ≡ length (known self.now.rows self.now.entries) }
    {
        self.history.known()
    }

    /// What the entries of the line are to this event.
    #[inline(always)]
    pub(crate) fn line_use(&self, by: By, event: &EventView<'_>) -> LineUse
        ensures { HasUse self.now.entries by (asked event.now) result }
    {
        self.history.line_use(by, event)
    }
}
