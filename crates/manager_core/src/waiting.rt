//! Waits, in the tables.
ghost use Rattle.std.specs.Prelude.{◌≡◌, ◌<◌, ◌≤◌, ◌+◌, length, ℕ, IsFalse, None, Some};
ghost use Rattle.txn_tree.specs.Asked.{IsNumberOf, is_absent_in};
ghost use Rattle.serial_spec.specs.declared.entry.Answer.TheVariants as answer;
ghost use Rattle.serial_spec.specs.Allowed.{waits_elsewhere};
ghost use Rattle.serial_spec.specs.Waits.{same_line, wait_of};
ghost use Rattle.manager_core.specs.Kept.{OfNumber, OfTables};
ghost use Rattle.manager_core.specs.Lines.{waiting_access};
ghost use Rattle.manager_core.specs.Tables.{IsKeptOutOf, SetsWait, wait_at, entry_of};

use crate::accessing::Request;
use crate::keepers::keeper_of;
use crate::tables::Tables;
use serial_spec::{Asked, By};
use txn_names::Name;
use txn_tree::TxnNo;

/// Whether both are of one line of a session.
pub(crate) fn same_line(a: By, b: By) -> bool
    ensures { result ≡ same_line a b }
{
    match (a, b) {
        (
            By::Line { session, line },
            By::Line {
                session: other_session,
                line: other_line,
            },
        ) => session == other_session && line == other_line,
        _ => false,
    }
}

impl Tables {
    /// The access by which the transaction with this number waits, with its line.
    pub(crate) fn waiting_access_at(&self, txn: TxnNo) -> Option<(By, Asked)>
        ensures { OfNumber self.now txn
            (λ t. OfTables self.now (λ h. result ≡ waiting_access (wait_of h t))) }
    {
        let wait = self.waits.of(txn)?;
        Some((wait.by, wait.asked))
    }

    /// The access by which the transaction waits, with its line. That is likely to be this line.
    pub(crate) fn waiting_access(&self, by: By, name: &Name) -> Option<(By, Asked)>
        ensures { OfTables self.now (λ h. result ≡ waiting_access (wait_of h name.now)) }
    {
        let txn = self.tree.no_by_hint(name, self.hints.of(by))?;
        self.waiting_access_at(txn)
    }

    /// Whether the transaction with this number waits by another line than this.
    pub(crate) fn waits_elsewhere(&self, txn: TxnNo, by: By) -> bool
        ensures { OfNumber self.now txn
            (λ t. OfTables self.now (λ h. result ≡ waits_elsewhere h by t)) }
    {
        match self.waiting_access_at(txn) {
            Some((line, _)) => !same_line(line, by),
            None => false,
        }
    }

    /// The transaction, which does not wait and is kept out of what it asks, waits from now on.
    /// There is room for it.
    pub(crate) fn start_wait(&mut self, request: &Request<'_>)
        requires begun { IsFalse (is_absent_in self.old.tree request.now.name.now) }
        requires none { (n : ℕ) → IsNumberOf self.old.tree request.now.name.now n
            → wait_at self.old n ≡ None }
        requires out { IsKeptOutOf self.old request.now.name.now request.now.asked.now }
        requires room { 0 < self.old.waits.room }
        ensures beside { self.new ≡ record self.old { waits = self.new.waits } }
        ensures waits { SetsWait self.old self.new request.now.name.now
            (Some (entry_of request.now answer.Waits)) }
        ensures grown { length self.new.waits.waits ≡ length self.old.waits.waits + 1 }
    {
        let txn = self.number_near(request.by, request.name);
        self.waits.add_reserved(txn, request.asked, request.by);
        if let Some(keeper) = keeper_of(&self.tree, self.estate.locks(), txn, request.asked) {
            self.looks.put(request.by, txn, keeper);
        }
    }

    /// The transaction waits no more. It is likely to wait by this line.
    pub(crate) fn end_wait(&mut self, by: By, name: &Name)
        requires { IsFalse (is_absent_in self.old.tree name.now) }
        ensures beside { self.new ≡ record self.old { waits = self.new.waits } }
        ensures waits { SetsWait self.old self.new name.now None }
        ensures grown { length self.new.waits.waits ≤ length self.old.waits.waits }
    {
        let txn = self.number_near(by, name);
        if let Some(wait) = self.waits.of(txn) {
            self.looks.forget(wait.by);
        }
        self.waits.cancel(txn);
    }
}
