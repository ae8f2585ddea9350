//! Whether a transaction is active, which is live and no orphan, and why it is not.
ghost use Rattle.std.specs.Prelude.{◌≡◌, is_some, slice_get, true, Some, IfSome};
ghost use Rattle.std.specs.Option.{option_copied};
ghost use Rattle.txn_tree.specs.States.{is_aborted, names};
ghost use Rattle.txn_tree.specs.Asked.{is_active_in};
ghost use Rattle.txn_tree.specs.Causes.{orphan_or};
ghost use Rattle.txn_tree.specs.Numbered.{is_active_at, status_at, top_aborted_at};

use crate::number::TxnNo;
use crate::status::Status;
use crate::tree::Tree;
use serial_spec::Refusal;
use txn_names::Name;

impl Tree {
    /// Whether the transaction with this number is live and no orphan. It goes from parent to
    /// parent by their numbers, since the parent of whoever is live and no orphan is so too.
    pub fn is_active_at(&self, txn: TxnNo) -> bool
        ensures { result ≡ is_active_at self.now txn }
    {
        let mut above = txn;
        while self.is_live_at(above) {
            match self.parent_of(above) {
                Some(parent) => above = parent,
                None => return true,
            }
        }
        false
    }

    /// The number of the transaction, if it is live and no orphan.
    pub fn active_no_of(&self, name: &Name) -> Option<TxnNo>
        ensures named { IfSome result (λ n. slice_get (names self.now) n ≡ Some name.now) }
        ensures active { IfSome result (λ n. is_active_at self.now n ≡ true) }
        ensures is { is_some result ≡ is_active_in self.now name.now }
    {
        let txn = self.no_of(name)?;
        if self.is_active_at(txn) {
            Some(txn)
        } else {
            None
        }
    }

    /// The topmost aborted one among the transaction with this number and its ancestors. It goes
    /// from parent to parent by their numbers, so that no name is hashed.
    pub fn top_aborted_at(&self, txn: TxnNo) -> Option<&Name>
        ensures { option_copied result ≡ top_aborted_at self.now txn }
    {
        self.has_distinct_names();
        let mut top = None;
        let mut above = Some(txn);
        while let Some(number) = above {
            if self.has_aborted_at(number) {
                top = Some(number);
            }
            above = self.parent_of(number);
        }
        self.name_of(top?)
    }

    // Whether the transaction with this number has aborted by its own abort.
    fn has_aborted_at(&self, txn: TxnNo) -> bool
        ensures { result ≡ is_aborted (status_at self.now txn) }
    {
        self.status_at(txn) == Status::Aborted
    }

    // Why a transaction that has begun and is not active is refused: it is an orphan, or else it
    // has committed, for which this refusal stands.
    pub(crate) fn refusal_of_ended(&self, txn: TxnNo, committed: Refusal) -> Refusal
        ensures { result ≡ orphan_or (top_aborted_at self.now txn) committed }
    {
        match self.top_aborted_at(txn) {
            Some(top) => Refusal::Orphan(*top),
            None => committed,
        }
    }
}
