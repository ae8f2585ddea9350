//! A begin, in the tables.
ghost use Rattle.std.specs.Prelude.{◌≡◌, IfOk, OnErr};
ghost use Rattle.txn_tree.specs.Causes.{cause_at_begin};
ghost use Rattle.manager_core.specs.Tables.{BeginsIn, MadeUnless};

use crate::tables::Tables;
use serial_spec::{By, NoMemory, Refusal};
use std::alloc::AllocError;
use txn_names::Name;
use txn_tree::TreeFault;

impl Tables {
    /// Begins the transaction for the line, or tells why that is refused.
    pub(crate) fn begin(&mut self, by: By, name: &Name) -> Result<Option<Refusal>, NoMemory>
        ensures cause { IfOk result (λ refusal. refusal ≡ cause_at_begin self.old.tree name.now) }
        ensures begins { IfOk result (λ refusal.
            MadeUnless refusal self.old self.new (BeginsIn self.old self.new name.now)) }
        ensures err { OnErr result (self.new ≡ self.old) }
    {
        match self.tree.begin(name) {
            Ok(txn) => {
                self.hints.note_begun(by, txn);
                Ok(None)
            }
            Err(TreeFault::Refused(refusal)) => Ok(Some(refusal)),
            Err(TreeFault::NoMemory) => Err(AllocError),
        }
    }
}
