//! An access, in the tables.
ghost use Rattle.std.specs.Prelude.{◌≡◌, ◌≤◌, ◌+◌, length, IfOk, IsTrue, OnErr, OnOk, is_some};
ghost use Rattle.serial_spec.specs.History.{event_of};
ghost use Rattle.serial_spec.specs.Legal.{AreAllowed};
ghost use Rattle.serial_spec.specs.Waits.{wait_of};
ghost use Rattle.manager_core.specs.Lines.{IsFree};
ghost use Rattle.manager_core.specs.Kept.{AreTablesOf};
ghost use Rattle.manager_core.specs.Tables.{ComesTo, HasOtherRoom, IsKeptOutOf};
ghost use Rattle.manager_core.specs.Tables.{ReachesIn, WaitsFrom, WaitsUntil};

use crate::log::Log;
use crate::tables::Tables;
use serial_spec::{Asked, By, NoMemory, Reply};
use txn_names::Name;

/// An access that is asked for, with its line.
#[derive(Clone, Copy)]
pub(crate) struct Request<'a> {
    pub(crate) by: By,
    pub(crate) name: &'a Name,
    pub(crate) asked: &'a Asked,
}

/// What an access comes to in the tables. It is an outcome without the cause of a refusal. A cause
/// can hold a name, which is large, so it is looked for only where an access is refused.
#[derive(Clone, Copy)]
pub(crate) enum Attempt {
    Answered(Reply),
    Waits,
    Refused,
}

impl Tables {
    /// An access by a line that is free: one that is kept out waits from now on. It is part of its
    /// caller, so that a wait's part is paid for only where one begins.
    #[inline(always)]
    pub(crate) fn ask(&mut self, log: &Log, request: &Request<'_>) -> Result<Attempt, NoMemory>
        requires allowed { AreAllowed log.now.rows log.now.entries }
        requires are { AreTablesOf log.now.rows log.now.entries self.old }
        requires free { IsFree log.now.entries request.now.by
            (event_of request.now.name.now request.now.asked.now) }
        ensures comes { IfOk result (ComesTo log.now.rows log.now.entries
            request.now.by request.now.name.now request.now.asked.now) }
        ensures reaches { IfOk result
            (ReachesIn self.old self.new request.now.name.now request.now.asked.now) }
        ensures waits { IfOk result (WaitsFrom self.old self.new
            request.now.by request.now.name.now request.now.asked.now) }
        ensures grown { OnOk result
            (length self.new.waits.waits ≤ length self.old.waits.waits + 1) }
        ensures marks { self.new.marks ≡ self.old.marks }
        ensures err { OnErr result (HasOtherRoom self.old self.new) }
    {
        let attempt = self.access(log, request)?;
        if let Attempt::Waits = attempt {
            // Nothing has changed yet, so that room for the wait is made where one is to begin.
            self.waits.reserve(1)?;
            self.start_wait(request);
        }
        Ok(attempt)
    }

    /// The access by which a transaction waits: it waits on, or it is answered and waits no more.
    /// Where it is refused its wait is left, since tables that have all waits tell the cause.
    pub(crate) fn ask_again(
        &mut self,
        log: &Log,
        request: &Request<'_>,
    ) -> Result<Attempt, NoMemory>
        requires allowed { AreAllowed log.now.rows log.now.entries }
        requires are { AreTablesOf log.now.rows log.now.entries self.old }
        requires waits { IsTrue (is_some (wait_of log.now.entries request.now.name.now)) }
        ensures comes { IfOk result (ComesTo log.now.rows log.now.entries
            request.now.by request.now.name.now request.now.asked.now) }
        ensures reaches { IfOk result
            (ReachesIn self.old self.new request.now.name.now request.now.asked.now) }
        ensures waits { IfOk result (WaitsUntil self.old self.new request.now.name.now) }
        ensures grown { OnOk result (length self.new.waits.waits ≤ length self.old.waits.waits) }
        ensures marks { self.new.marks ≡ self.old.marks }
        ensures err { OnErr result (HasOtherRoom self.old self.new) }
    {
        let attempt = self.access(log, request)?;
        if let Attempt::Answered(_) = attempt {
            self.end_wait(request.by, request.name);
        }
        Ok(attempt)
    }

    // What an access comes to: a lock may keep it out (Moss 1981). The tables have it, if it is
    // answered.
    fn access(&mut self, log: &Log, request: &Request<'_>) -> Result<Attempt, NoMemory>
        requires allowed { AreAllowed log.now.rows log.now.entries }
        requires are { AreTablesOf log.now.rows log.now.entries self.old }
        ensures comes { IfOk result (ComesTo log.now.rows log.now.entries
            request.now.by request.now.name.now request.now.asked.now) }
        ensures reaches { IfOk result
            (ReachesIn self.old self.new request.now.name.now request.now.asked.now) }
        ensures out { IfOk result (λ attempt. attempt ≡ Attempt.Waits
            → IsKeptOutOf self.new request.now.name.now request.now.asked.now) }
        ensures waits { self.new.waits ≡ self.old.waits }
        ensures marks { self.new.marks ≡ self.old.marks }
        ensures err { OnErr result (HasOtherRoom self.old self.new) }
    {
        let Request { by, name, asked } = *request;
        let Some(txn) = self.number_to_ask(log, by, name, asked) else {
            return Ok(Attempt::Refused);
        };
        // One that has to wait takes no place at what it asks for, so that those with a place are
        // those with a lock.
        if !self.may_remembering(txn, asked) {
            return Ok(Attempt::Waits);
        }
        let reply = self.estate.take(&self.tree, txn, asked)?;
        self.hints.note(by, txn);
        Ok(Attempt::Answered(reply))
    }
}
