//! The close: the live top-level transactions are aborted, in the order in which they began.
ghost use Rattle.std.specs.Prelude.{◌≡◌, ◌≤◌, ◌<◌, ◌+◌, ◌∷◌, count_by, length, slice_get, IfNone, IfSome, IsFalse, IsTrue, Some, ℕ, List};
ghost use Rattle.txn_tree.specs.States.{names};
ghost use Rattle.serial_spec.specs.History.{Name};
ghost use Rattle.serial_spec.specs.Interleaving.{closing};
ghost use Rattle.serial_spec.specs.Legal.{Legal};
ghost use Rattle.serial_spec.specs.Waits.{Quiet};
ghost use Rattle.manager_core.specs.Closing.{Closes};
ghost use Rattle.manager_core.specs.Kept.{AreTablesOf};
ghost use Rattle.manager_core.specs.Tables.{AbortsIn, is_live_top_in, rows_in};

use crate::log::Log;
use crate::outcome::Outcome;
use crate::tables::Tables;
use event_lists::Act;
use serial_spec::By;
use txn_names::Name;
use txn_tree::{Status, TxnNo};

impl Tables {
    // The transaction's name, if it is top-level and live.
    fn live_top_at(&self, txn: TxnNo) -> Option<Name>
        ensures some { IfSome result (λ t. (slice_get (names self.now.tree) txn ≡ Some t)
            × IsTrue (is_live_top_in self.now.tree t)) }
        ensures none { IfNone result ((t : Name) → slice_get (names self.now.tree) txn ≡ Some t →
            IsFalse (is_live_top_in self.now.tree t)) }
    {
        let name = self.tree.name_of(txn)?;
        if name.depth() == 1 && self.tree.status(name) == Status::Live {
            Some(*name)
        } else {
            None
        }
    }

    /// How many top-level transactions are live.
    #[tactic(auto, using(crate::proofs::TopsInTurn::tops_counted))]
    pub(crate) fn count_live_tops(&self) -> usize
        ensures { result ≡ count_by (is_live_top_in self.now.tree) (names self.now.tree) }
    {
        self.tree.has_distinct_names();
        self.tree.live_tops() as usize
    }

    // Aborts one of them.
    fn close_top(&mut self, log: &mut Log, name: &Name)
        requires live { IsTrue (is_live_top_in self.old.tree name.now) }
        requires room { 0 < log.old.room }
        requires marks_room { 0 < self.old.marks.room }
        ensures rows { log.new.rows ≡ log.old.rows }
        ensures entries { log.new.entries ≡ closing name.now ∷ log.old.entries }
        ensures aborts { AbortsIn self.old self.new name.now }
        ensures room { log.old.room ≤ log.new.room + 1 }
        ensures marks_room { self.old.marks.room ≤ self.new.marks.room + 1 }
    {
        let outcome = Outcome::of(self.abort(name));
        log.add(By::Close, name, &Act::Abort, &outcome);
    }

    /// Aborts the live top-level transactions, in the order in which they began. There is room for
    /// all of them.
    pub(crate) fn close_tops(&mut self, log: &mut Log)
        requires legal { Legal log.old.rows log.old.entries }
        requires quiet { Quiet log.old.entries }
        requires are { AreTablesOf log.old.rows log.old.entries self.old }
        requires room { count_by (is_live_top_in self.old.tree)
            (names self.old.tree) ≤ log.old.room }
        requires marks_room { count_by (is_live_top_in self.old.tree)
            (names self.old.tree) ≤ self.old.marks.room }
        ensures rows { log.new.rows ≡ log.old.rows }
        ensures closes { Closes log.old.rows log.old.entries log.new.entries self.new }
        ensures table { rows_in self.new ≡ rows_in self.old }
    {
        let mut top = self.tree.first_top();
        while let Some(txn) = top {
            if let Some(name) = self.live_top_at(txn) {
                self.close_top(log, &name);
            }
            top = self.tree.next_sibling(txn);
        }
    }
}
