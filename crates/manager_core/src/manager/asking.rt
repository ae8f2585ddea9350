//! Accesses: operations at keys, and sums over groups.
ghost use Rattle.std.specs.Prelude.{◌≡◌, IfOk, OnErr, OnOk, IsTrue, is_some};
ghost use Rattle.serial_spec.specs.declared.event.Event.TheVariants.{Access, Sum};
ghost use Rattle.serial_spec.specs.declared.target.Asked.TheVariants.{At, Over};
ghost use Rattle.serial_spec.specs.History.{event_of};
ghost use Rattle.serial_spec.specs.Waits.{wait_of};
ghost use Rattle.manager_core.specs.Lines.{IsFree};

use crate::accessing::{Attempt, Request};
use crate::breaking::reserve_step;
use crate::manager::Manager;
use crate::outcome::{Came, Outcome};
use crate::settling::{settle_answered, settle_waiting};
use durable_top::TopStore;
use serial_spec::{Asked, By, NoMemory, Op};
use txn_names::{Group, Key, Name};

impl<S: TopStore> Manager<S> {
    ghost use Rattle.manager_core.specs.Calls.{Answered, Retried, WaitsOrIsUndone};
    ghost use Rattle.manager_core.specs.Outcomes.{CameTo};
    ghost use Rattle.manager_core.specs.Sound.{IsSound};

    /// Reads or writes a key. It is refused by the first of these that holds: the transaction never
    /// began (Unknown), has an aborted ancestor, itself included (Orphan), or has committed (Done);
    /// it waits by another line (Waiting); the key is new where 4,096 are known (Full). Else it
    /// waits where a lock keeps it out. If a cycle of waits comes of it, the last begun of those
    /// that lie on any is aborted as a victim, until none is left; the accessing transaction may be
    /// one, and then it waits no more.
    pub fn access(&mut self, by: By, name: &Name, key: &Key, op: Op) -> Result<Outcome, NoMemory>
        requires free { IsFree self.old.history by (Access name.now key.now op) }
        ensures ok { IfOk result (λ outcome.
            Answered self.old self.new by (Access name.now key.now op) outcome) }
        ensures waits { IfOk result (λ outcome. outcome ≡ Outcome.Waits →
            WaitsOrIsUndone self.new.history by name.now (At key.now op)) }
        ensures err { OnErr result (self.new ≡ self.old) }
        ensures sound { OnOk result (IsSound S.TopStore self.new) }
    {
        self.ask_telling(by, name, &Asked::At(*key, op))
    }

    /// Reads the sum of the values of all present keys of a group, and keeps each key of the group
    /// from being written by others, those that are not present too. It is refused as an access is,
    /// but never for a key too many (Full); it waits, and victims are aborted, as by `access`.
    pub fn sum(&mut self, by: By, name: &Name, group: &Group) -> Result<Outcome, NoMemory>
        requires free { IsFree self.old.history by (Sum name.now group.now) }
        ensures ok { IfOk result (λ outcome.
            Answered self.old self.new by (Sum name.now group.now) outcome) }
        ensures waits { IfOk result (λ outcome. outcome ≡ Outcome.Waits →
            WaitsOrIsUndone self.new.history by name.now (Over group.now)) }
        ensures err { OnErr result (self.new ≡ self.old) }
        ensures sound { OnOk result (IsSound S.TopStore self.new) }
    {
        self.ask_telling(by, name, &Asked::Over(*group))
    }

    /// As `access` and `sum`, of what is asked. It tells what came of it, and leaves the reply and the
    /// cause of a refusal to the history. So its result has no room for a name. It is part of its
    /// caller.
    #[inline(always)]
    pub fn ask(&mut self, by: By, name: &Name, asked: &Asked) -> Result<Came, NoMemory>
        requires free { IsFree self.old.history by (event_of name.now asked.now) }
        ensures ok { IfOk result (λ came.
            CameTo came (Answered self.old self.new by (event_of name.now asked.now))) }
        ensures waits { IfOk result (λ came. came ≡ Came.Waits →
            WaitsOrIsUndone self.new.history by name.now asked.now) }
        ensures err { OnErr result (self.new ≡ self.old) }
        ensures sound { OnOk result (IsSound S.TopStore self.new) }
    {
        let (log, tables, breaker) = (&mut self.log, &mut self.tables, &mut self.breaker);
        reserve_step(log, tables, breaker)?;
        let request = Request { by, name, asked };
        let attempt = tables.ask(log, &request)?;
        match attempt {
            Attempt::Answered(reply) => {
                settle_answered(log, tables, breaker, &request, reply);
                Ok(Came::Done)
            }
            Attempt::Waits => {
                settle_waiting(log, tables, breaker, &request);
                Ok(Came::Waits)
            }
            Attempt::Refused => {
                tables.refuse(log, &request);
                Ok(Came::Refused)
            }
        }
    }

    // As `ask`, and it tells the outcome, which is read off the entry.
    fn ask_telling(&mut self, by: By, name: &Name, asked: &Asked) -> Result<Outcome, NoMemory>
        requires free { IsFree self.old.history by (event_of name.now asked.now) }
        ensures ok { IfOk result (λ outcome.
            Answered self.old self.new by (event_of name.now asked.now) outcome) }
        ensures waits { IfOk result (λ outcome. outcome ≡ Outcome.Waits →
            WaitsOrIsUndone self.new.history by name.now asked.now) }
        ensures err { OnErr result (self.new ≡ self.old) }
        ensures sound { OnOk result (IsSound S.TopStore self.new) }
    {
        let place = self.log.len();
        self.ask(by, name, asked)?;
        Ok(self.log.outcome_at(place))
    }

    /// Asks again for the access by which the transaction waits. It is answered now, by its own
    /// line, and victims are aborted as by `access`; or it waits on, and then nothing changes.
    pub fn retry(&mut self, name: &Name) -> Result<Outcome, NoMemory>
        requires waits { IsTrue (is_some (wait_of self.old.history name.now)) }
        ensures ok { IfOk result (λ outcome. Retried self.old self.new name.now outcome) }
        ensures err { OnErr result (self.new ≡ self.old) }
        ensures sound { OnOk result (IsSound S.TopStore self.new) }
    {
        let place = self.log.len();
        match self.ask_again(By::Close, name)? {
            Came::Waits => Ok(Outcome::Waits),
            _ => Ok(self.log.outcome_at(place)),
        }
    }

    /// As `retry`. It tells what came of it, as `ask` does. The line by which it waits is likely to be
    /// this one: any line would do.
    pub fn ask_again(&mut self, likely: By, name: &Name) -> Result<Came, NoMemory>
        requires waits { IsTrue (is_some (wait_of self.old.history name.now)) }
        ensures ok { IfOk result (λ came. CameTo came (Retried self.old self.new name.now)) }
        ensures err { OnErr result (self.new ≡ self.old) }
        ensures sound { OnOk result (IsSound S.TopStore self.new) }
    {
        let (log, tables, breaker) = (&mut self.log, &mut self.tables, &mut self.breaker);
        reserve_step(log, tables, breaker)?;
        let (by, asked) = tables.waiting_access(likely, name).unwrap();
        let request = Request {
            by,
            name,
            asked: &asked,
        };
        let attempt = tables.ask_again(log, &request)?;
        match attempt {
            Attempt::Answered(reply) => {
                settle_answered(log, tables, breaker, &request, reply);
                Ok(Came::Done)
            }
            Attempt::Waits => Ok(Came::Waits),
            Attempt::Refused => {
                tables.refuse(log, &request);
                tables.end_wait(by, name);
                Ok(Came::Refused)
            }
        }
    }
}
