//! An abort, in the tables.
ghost use Rattle.std.specs.Prelude.{◌≡◌, ◌≤◌, ◌<◌, ◌+◌, None};
ghost use Rattle.txn_tree.specs.Causes.{cause_at_abort};
ghost use Rattle.manager_core.specs.Tables.{AbortsIn, MadeUnless, rows_in, FewerWaitBelow};

use crate::tables::Tables;
use serial_spec::Refusal;
use txn_names::Name;

impl Tables {
    /// Aborts the transaction, marks it and drops what it and all below it have and wait for, or
    /// tells why that is refused. It takes no memory.
    pub(crate) fn abort(&mut self, name: &Name) -> Option<Refusal>
        requires { 0 < self.old.marks.room }
        ensures cause { result ≡ cause_at_abort self.old.tree name.now }
        ensures aborts { MadeUnless result self.old self.new (AbortsIn self.old self.new name.now) }
        ensures table { rows_in self.new ≡ rows_in self.old }
        ensures fewer { result ≡ None → FewerWaitBelow self.old self.new name.now }
        ensures room { self.old.marks.room ≤ self.new.marks.room + 1 }
    {
        match self.tree.abort(name) {
            Ok(_) => {
                self.marks.mark(name);
                let txn = self.tree.no_of(name).unwrap();
                self.looks
                    .forget_under(&self.tree, txn, self.waits.is_empty());
                self.estate.abort(&self.tree, txn);
                self.waits.drop_under(&self.tree, txn);
                None
            }
            Err(refusal) => Some(refusal),
        }
    }
}
