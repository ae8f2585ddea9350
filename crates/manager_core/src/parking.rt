//! What keeps a line from its answer, read off the tables.
ghost use Rattle.std.specs.Prelude.{◌≡◌, ◌↔◌, ℕ, not, IfNone, IfSome, IsTrue, Some};
ghost use Rattle.std.specs.Int.{bit_at};
ghost use Rattle.lock_table.specs.ByAsked.{MayAsk};
ghost use Rattle.serial_spec.specs.Allowed.{has_come, is_full_for};
ghost use Rattle.serial_spec.specs.History.{event_of};
ghost use Rattle.serial_spec.specs.Legal.{AreAllowed};
ghost use Rattle.serial_spec.specs.Locks.{is_blocked};
ghost use Rattle.serial_spec.specs.Waits.{same_line};
ghost use Rattle.wait_cycles.specs.declared.waits.Wait.{Wait};
ghost use Rattle.manager_core.specs.Kept.{AreTablesOf, OfAllowed, OfNumber, OfTables};
ghost use Rattle.manager_core.specs.Lines.{IsWaitOf};
ghost use Rattle.manager_core.specs.Looked.{IsKeptFrom};
ghost use Rattle.manager_core.specs.Parking.{IsKeptOut, IsParked, IsSessionParked, NobodyWaits, WaitsOn, come_by};
ghost use Rattle.manager_core.specs.Tables.{wait_at};

use crate::deciding::is_full_for;
use crate::keepers::keeper_of;
use crate::log::Log;
use crate::looks::Look;
use crate::tables::Tables;
use crate::waiting::same_line;
use serial_spec::{Asked, By, MOST_KEYS, Refusal, When};
use txn_names::Name;
use txn_tree::TxnNo;
use wait_cycles::Wait;

// Whether a condition holds, by the cause that would refuse an abort.
fn come_by(cause: Option<Refusal>, when: When) -> bool
    ensures { result ≡ come_by cause when }
{
    match cause {
        Some(Refusal::Unknown) => false,
        Some(_) => true,
        None => match when {
            When::Begun => true,
            When::Done => false,
        },
    }
}

// Whether a wait is for this access, and by this line.
fn is_of(wait: &Wait, by: By, asked: &Asked) -> bool
    ensures { IsTrue result ↔ (IsTrue (same_line wait.now.by by) × (wait.now.asked ≡ asked.now)) }
{
    same_line(wait.by, by) && wait.asked == *asked
}

impl Tables {
    /// Whether the condition of an `after` line holds.
    pub(crate) fn has_come(&self, name: &Name, when: When) -> bool
        ensures { OfAllowed self.now (λ h. result ≡ has_come h name.now when) }
    {
        let none_likely = TxnNo::new(0);
        come_by(self.number_by_marks(name, none_likely).err(), when)
    }

    // Whether the transaction with this number waits for this access, and by this line.
    fn waits_by(&self, txn: TxnNo, by: By, asked: &Asked) -> bool
        ensures { OfNumber self.now txn
            (λ t. OfAllowed self.now (λ h. IsTrue result ↔ IsWaitOf h by (event_of t asked.now))) }
    {
        match self.waits.of(txn) {
            Some(wait) => is_of(wait, by, asked),
            None => false,
        }
    }

    /// Whether no lock keeps the access out.
    pub(crate) fn may(&self, txn: TxnNo, asked: &Asked) -> bool
        ensures blocked { OfNumber self.now txn
            (λ t. OfTables self.now (λ h. result ≡ not (is_blocked h t asked.now))) }
        ensures locks { IsTrue result ↔ MayAsk self.now.tree self.now.estate.locks txn asked.now }
    {
        self.estate.locks().may_ask(&self.tree, txn, asked)
    }

    /// As `may`. A key is looked up once and remembered, so that the place and the lock of the
    /// access find it without another look-up. It takes no memory.
    #[inline(always)]
    pub(crate) fn may_remembering(&mut self, txn: TxnNo, asked: &Asked) -> bool
        ensures blocked { OfNumber self.old txn
            (λ t. OfTables self.old (λ h. result ≡ not (is_blocked h t asked.now))) }
        ensures locks { IsTrue result
            ↔ MayAsk self.old.tree self.old.estate.locks txn asked.now }
        ensures same { self.new ≡ self.old }
    {
        self.estate.may_ask_remembering(&self.tree, txn, asked)
    }

    /// Whether nobody waits: it is so exactly where no access waits by any line.
    pub(crate) fn nobody_waits(&self, _log: &Log) -> bool
        requires allowed { AreAllowed _log.now.rows _log.now.entries }
        requires are { AreTablesOf _log.now.rows _log.now.entries self.now }
        ensures { IsTrue result ↔ NobodyWaits _log.now.entries }
    {
        self.waits.is_empty()
    }

    // The number of the transaction, if it waits for this access by this line and no cause refuses
    // the access.
    fn number_of_wait(&self, log: &Log, by: By, name: &Name, asked: &Asked) -> Option<TxnNo>
        requires allowed { AreAllowed log.now.rows log.now.entries }
        requires are { AreTablesOf log.now.rows log.now.entries self.now }
        ensures some { IfSome result
            (WaitsOn log.now.rows log.now.entries self.now.tree by name.now asked.now) }
        ensures none { IfNone result
            (IsKeptOut log.now.rows log.now.entries by (event_of name.now asked.now) → ⊥) }
    {
        // Where nobody waits no name need be looked up.
        if self.waits.is_empty() {
            return None;
        }
        let txn = self.tree.no_by_hint(name, self.hints.of(by))?;
        if !self.waits_by(txn, by, asked) {
            return None;
        }
        // Of the causes that refuse an access this alone can hold for one that waits.
        if is_full_for(log, asked) {
            return None;
        }
        Some(txn)
    }

    /// Whether this access waits, and by this line, and is kept out still.
    pub(crate) fn is_kept_out(&self, log: &Log, by: By, name: &Name, asked: &Asked) -> bool
        requires allowed { AreAllowed log.now.rows log.now.entries }
        requires are { AreTablesOf log.now.rows log.now.entries self.now }
        ensures { IsTrue result ↔ IsKeptOut log.now.rows log.now.entries by
            (event_of name.now asked.now) }
    {
        let Some(txn) = self.number_of_wait(log, by, name, asked) else {
            return false;
        };
        !self.may(txn, asked)
    }

    // Whether the key for which the transaction with this number waits would be one too many.
    fn is_full_at(&self, log: &Log, txn: TxnNo) -> bool
        ensures { (w : Wait) → wait_at self.now txn ≡ Some w
            → result ≡ is_full_for log.now.rows log.now.entries w.asked }
    {
        // Few know so many, so that mostly the wait is not looked up.
        if log.known() < MOST_KEYS {
            return false;
        }
        match self.waits.of(txn) {
            Some(wait) => is_full_for(log, &wait.asked),
            None => false,
        }
    }

    /// Whether an access that waits by this line is seen at once to be kept out still: it was seen
    /// so, and who kept it out has not ended since.
    #[inline(always)]
    pub(crate) fn is_parked(&self, log: &Log, by: By) -> bool
        requires allowed { AreAllowed log.now.rows log.now.entries }
        requires are { AreTablesOf log.now.rows log.now.entries self.now }
        ensures { IsTrue result → IsParked log.now.rows log.now.entries by }
    {
        self.tree.has_distinct_names();
        match self.looks.at(by) {
            Some(look) => !self.is_full_at(log, look.txn),
            None => false,
        }
    }

    /// The sessions of which an access is seen at once to be kept out still, as `is_parked` tells it of
    /// a line: one bit for each. Where no key more may be known it is none.
    #[inline(always)]
    pub(crate) fn parked_sessions(&self, log: &Log) -> u64
        requires allowed { AreAllowed log.now.rows log.now.entries }
        requires are { AreTablesOf log.now.rows log.now.entries self.now }
        ensures { (s : ℕ) → bit_at result s ≡ 1
            → IsSessionParked log.now.rows log.now.entries s }
    {
        self.tree.has_distinct_names();
        let has_room = log.known() < MOST_KEYS;
        if has_room { self.looks.standing() } else { 0 }
    }

    // Somebody who keeps the access of the transaction with this number out, if it waits by this
    // line and nothing else refuses it.
    fn keeper_by(&self, log: &Log, by: By, txn: TxnNo) -> Option<TxnNo>
        requires allowed { AreAllowed log.now.rows log.now.entries }
        requires are { AreTablesOf log.now.rows log.now.entries self.now }
        ensures parked { IfSome result (λ keeper. IsParked log.now.rows log.now.entries by) }
        ensures kept { IfSome result
            (IsKeptFrom self.now.tree self.now.estate.locks self.now.waits.waits by txn) }
    {
        self.tree.has_distinct_names();
        let wait = self.waits.of(txn)?;
        if !same_line(wait.by, by) {
            return None;
        }
        if is_full_for(log, &wait.asked) {
            return None;
        }
        let keeper = keeper_of(&self.tree, self.estate.locks(), txn, &wait.asked)?;
        Some(keeper)
    }

    // As `stays_parked`, of an access that was last seen so and does not stand.
    #[inline(never)]
    fn is_seen_again(&mut self, log: &Log, by: By, last: Look) -> bool
        requires allowed { AreAllowed log.now.rows log.now.entries }
        requires are { AreTablesOf log.now.rows log.now.entries self.old }
        ensures parked { IsTrue result → IsParked log.now.rows log.now.entries by }
        ensures same { self.new ≡ self.old }
    {
        let Some(keeper) = self.keeper_by(log, by, last.txn) else {
            return false;
        };
        self.looks.put(by, last.txn, keeper);
        true
    }

    /// As `is_parked`, and where the keeper has ended since, the locks are asked once more. Where
    /// somebody keeps the access out, that one is remembered.
    #[inline(always)]
    pub(crate) fn stays_parked(&mut self, log: &Log, by: By) -> bool
        requires allowed { AreAllowed log.now.rows log.now.entries }
        requires are { AreTablesOf log.now.rows log.now.entries self.old }
        ensures parked { IsTrue result → IsParked log.now.rows log.now.entries by }
        ensures same { self.new ≡ self.old }
    {
        // Of most lines no access was ever seen kept out.
        match self.looks.last_at(by) {
            Some(last) => self.is_parked(log, by) || self.is_seen_again(log, by, last),
            None => false,
        }
    }
}
