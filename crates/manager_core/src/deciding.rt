//! Why a line is refused, read off the tables. What is not refused goes on by the transaction's
//! number.
ghost use Rattle.std.specs.Prelude.{◌≡◌, ◌<◌, length, IfNone, IfOk, IfSome, IsTrue};
ghost use Rattle.std.specs.Prelude.{None, Some, is_some};
ghost use Rattle.std.specs.Option.{option_copied};
ghost use Rattle.std.specs.Result.{result_err};
ghost use Rattle.txn_names.specs.Path.{top_of};
ghost use Rattle.orphans.specs.Marked.{is_marked};
ghost use Rattle.event_lists.specs.Views.{refusal_by};
ghost use Rattle.txn_tree.specs.Asked.{IsNumberOf, IsRootless};
ghost use Rattle.serial_spec.specs.Allowed.{cause_at_access, cause_at_commit, is_full_for};
ghost use Rattle.serial_spec.specs.Legal.{AreAllowed};
ghost use Rattle.manager_core.specs.Kept.{AreTablesOf};
ghost use Rattle.manager_core.specs.Tables.{cause_in};

use crate::log::Log;
use crate::tables::Tables;
use event_lists::Cause;
use serial_spec::{Asked, By, MOST_KEYS, Refusal};
use txn_names::Name;
use txn_tree::{Status, TxnNo};

/// Whether the key would be one too many. A sum makes no key known.
pub(crate) fn is_full_for(log: &Log, asked: &Asked) -> bool
    ensures { result ≡ is_full_for log.now.rows log.now.entries asked.now }
{
    match asked {
        // Few know so many, and to count costs less than to look the key up.
        Asked::At(key, _) => log.known() >= MOST_KEYS && !log.knows(key),
        Asked::Over(_) => false,
    }
}

impl Tables {
    /// The number of a transaction that is live and has no aborted ancestor, or the cause that
    /// access, commit and abort share. The number of the hint is looked at first, and an aborted
    /// ancestor is looked for by name. It is part of its callers, so that a refusal, which has room
    /// for a name, is made where they want it.
    #[inline(always)]
    pub(crate) fn number_by_marks(&self, name: &Name, hint: TxnNo) -> Result<TxnNo, Refusal>
        ensures cause { result_err result ≡ cause_in self.now name.now }
        ensures number { IfOk result (IsNumberOf self.now.tree name.now) }
        ensures some { 0 < length name.now }
        ensures rootless { IsRootless self.now.tree }
    {
        name.has_labels();
        let Some(txn) = self.tree.no_by_hint(name, hint) else {
            return Err(Refusal::Unknown);
        };
        if let Some(top) = self.marks.top_aborted(name) {
            return Err(Refusal::Orphan(top));
        }
        match self.tree.status_at(txn) {
            Status::Committed => Err(Refusal::Done),
            _ => Ok(txn),
        }
    }

    // The topmost aborted one, where the transaction with this number is an orphan. It is found by
    // numbers, so that no name is hashed.
    #[inline(always)]
    fn orphan_top(&self, _log: &Log, name: &Name, txn: TxnNo) -> Option<&Name>
        requires allowed { AreAllowed _log.now.rows _log.now.entries }
        requires are { AreTablesOf _log.now.rows _log.now.entries self.now }
        requires number { IsNumberOf self.now.tree name.now txn }
        ensures { option_copied result ≡ top_of (is_marked self.now.marks) name.now }
    {
        self.tree.top_aborted_at(txn)
    }

    /// As `number_by_marks`. Whether all of the transaction's ancestors are live is found by their
    /// numbers, and so is an aborted one.
    pub(crate) fn active_number(&self, log: &Log, by: By, name: &Name) -> Result<TxnNo, Refusal>
        requires allowed { AreAllowed log.now.rows log.now.entries }
        requires are { AreTablesOf log.now.rows log.now.entries self.now }
        ensures cause { result_err result ≡ cause_in self.now name.now }
        ensures number { IfOk result (IsNumberOf self.now.tree name.now) }
        ensures some { 0 < length name.now }
        ensures rootless { IsRootless self.now.tree }
    {
        name.has_labels();
        let hint = self.hints.of(by);
        if let Some(txn) = self.tree.no_by_hint(name, hint) {
            if self.tree.is_active_at(txn) {
                return Ok(txn);
            }
            if let Some(top) = self.orphan_top(log, name, txn) {
                return Err(Refusal::Orphan(*top));
            }
        }
        self.number_by_marks(name, hint)
    }

    /// The number of a transaction whose access nothing but a lock may keep out. It is none where
    /// the access is refused. `cause_at_access` tells the cause, so that this result is small.
    pub(crate) fn number_to_ask(
        &self,
        log: &Log,
        by: By,
        name: &Name,
        asked: &Asked,
    ) -> Option<TxnNo>
        requires allowed { AreAllowed log.now.rows log.now.entries }
        requires are { AreTablesOf log.now.rows log.now.entries self.now }
        ensures some { IfSome result (λ txn. None
            ≡ cause_at_access log.now.rows log.now.entries by name.now asked.now) }
        ensures none { IfNone result (IsTrue
            (is_some (cause_at_access log.now.rows log.now.entries by name.now asked.now))) }
        ensures number { IfSome result (IsNumberOf self.now.tree name.now) }
    {
        name.has_labels();
        let txn = self.tree.no_by_hint(name, self.hints.of(by))?;
        if !self.tree.is_active_at(txn) {
            return None;
        }
        if self.waits_elsewhere(txn, by) {
            return None;
        }
        if is_full_for(log, asked) {
            return None;
        }
        Some(txn)
    }

    /// Why an access is refused, and the topmost aborted transaction where it is an orphan's. For
    /// another cause the name is any. No name is copied.
    pub(crate) fn cause_at_access<'a>(
        &'a self,
        log: &Log,
        by: By,
        name: &'a Name,
        _asked: &Asked,
    ) -> (Cause, &'a Name)
        requires allowed { AreAllowed log.now.rows log.now.entries }
        requires are { AreTablesOf log.now.rows log.now.entries self.now }
        requires refused { IsTrue
            (is_some (cause_at_access log.now.rows log.now.entries by name.now _asked.now)) }
        ensures { Some (refusal_by result.0 result.1.now)
            ≡ cause_at_access log.now.rows log.now.entries by name.now _asked.now }
    {
        name.has_labels();
        let Some(txn) = self.tree.no_by_hint(name, self.hints.of(by)) else {
            return (Cause::Unknown, name);
        };
        if let Some(top) = self.orphan_top(log, name, txn) {
            return (Cause::Orphan, top);
        }
        match self.tree.status_at(txn) {
            Status::Committed => (Cause::Done, name),
            _ => {
                if self.waits_elsewhere(txn, by) {
                    (Cause::Waiting, name)
                } else {
                    // No other cause is left.
                    (Cause::Full, name)
                }
            }
        }
    }

    /// The number of a transaction whose commit nothing refuses; the store is left aside. It is none
    /// where the commit is refused. `number_at_commit` tells the cause, so that this result is small.
    pub(crate) fn number_to_commit(&self, log: &Log, by: By, name: &Name) -> Option<TxnNo>
        requires allowed { AreAllowed log.now.rows log.now.entries }
        requires are { AreTablesOf log.now.rows log.now.entries self.now }
        ensures cause { IfSome result (λ txn. None ≡ cause_at_commit log.now.entries by name.now) }
        ensures none { IfNone result
            (IsTrue (is_some (cause_at_commit log.now.entries by name.now))) }
        ensures number { IfSome result (IsNumberOf self.now.tree name.now) }
        ensures rootless { IsRootless self.now.tree }
    {
        name.has_labels();
        let likely = self.hints.of(by);
        let txn = self.tree.no_by_hint(name, likely)?;
        if !self.tree.is_active_at(txn) {
            return None;
        }
        if self.tree.live_children_at(txn) > 0 {
            return None;
        }
        if self.waits_elsewhere(txn, by) {
            return None;
        }
        Some(txn)
    }

    /// The number of a transaction that may commit, or why the commit is refused; the store is left
    /// aside.
    pub(crate) fn number_at_commit(&self, log: &Log, by: By, name: &Name) -> Result<TxnNo, Refusal>
        requires allowed { AreAllowed log.now.rows log.now.entries }
        requires are { AreTablesOf log.now.rows log.now.entries self.now }
        ensures cause { result_err result ≡ cause_at_commit log.now.entries by name.now }
        ensures number { IfOk result (IsNumberOf self.now.tree name.now) }
        ensures rootless { IsRootless self.now.tree }
    {
        let txn = self.active_number(log, by, name)?;
        if self.tree.live_children_at(txn) > 0 {
            Err(Refusal::Children)
        } else if self.waits_elsewhere(txn, by) {
            Err(Refusal::Waiting)
        } else {
            Ok(txn)
        }
    }
}
