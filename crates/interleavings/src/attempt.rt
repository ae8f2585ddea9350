//! One attempt of a line.
ghost use Rattle.std.specs.Prelude.{◌≡◌, ◌⊎◌, option_copied, IfOk, OnErr};
ghost use Rattle.txn_history.specs.Lines.{IsFree, IsLine, IsWaitOf, accessor};
ghost use Rattle.event_lists.specs.Views.{asked};
ghost use Rattle.manager_core.specs.Outcomes.{CameTo};
ghost use Rattle.interleavings.specs.Attempts.{Attempts};

use durable_top::TopStore;
use event_lists::{Act, EventView};
use manager_core::{Came, Manager, Outcome};
use serial_spec::{Asked, By, NoMemory};
use std::alloc::AllocError;
use txn_names::Name;

// The transaction that an access is of.
fn accessor<'a>(event: &EventView<'a>) -> Option<&'a Name>
    ensures { option_copied result ≡ accessor (asked event.now) }
{
    match event.act {
        Act::Access(_, _) | Act::Sum(_) => Some(event.name),
        _ => None,
    }
}

// Calls what the event asks for, of a line that is free for it.
#[inline(always)]
fn call<S: TopStore>(
    manager: &mut Manager<S>,
    by: By,
    event: &EventView<'_>,
) -> Result<Outcome, NoMemory>
    requires free { IsFree manager.old.history by (asked event.now) }
    ensures ok { IfOk result (λ outcome.
        Attempts S.TopStore manager.old manager.new by (asked event.now) outcome) }
    ensures err { OnErr result (manager.new ≡ manager.old) }
{
    let name = event.name;
    match event.act {
        Act::Begin => manager.begin(by, name),
        Act::Access(key, op) => manager.access(by, name, key, *op),
        Act::Sum(group) => manager.sum(by, name, group),
        Act::Commit => manager.commit(by, name),
        Act::Abort => manager.abort(by, name),
        Act::After(when) => manager.after(by, name, *when),
    }
}

// Attempts a line that is free for its event. It is no part of its callers, since an outcome has room
// for a name, which is cleared where a function begins.
#[inline(never)]
fn attempt_other<S: TopStore>(
    manager: &mut Manager<S>,
    by: By,
    event: &EventView<'_>,
) -> Result<Came, NoMemory>
    requires free { IsFree manager.old.history by (asked event.now) }
    ensures ok { IfOk result (λ came.
        CameTo came (Attempts S.TopStore manager.old manager.new by (asked event.now))) }
    ensures err { OnErr result (manager.new ≡ manager.old) }
{
    match &call(manager, by, event) {
        Ok(outcome) => Ok(outcome.came()),
        Err(_) => Err(AllocError),
    }
}

// The same. It is part of its caller, and so is an access, of which no outcome is made.
#[inline(always)]
fn attempt_free<S: TopStore>(
    manager: &mut Manager<S>,
    by: By,
    event: &EventView<'_>,
) -> Result<Came, NoMemory>
    requires free { IsFree manager.old.history by (asked event.now) }
    ensures ok { IfOk result (λ came.
        CameTo came (Attempts S.TopStore manager.old manager.new by (asked event.now))) }
    ensures err { OnErr result (manager.new ≡ manager.old) }
{
    match event.act {
        Act::Access(key, op) => manager.ask(by, event.name, &Asked::At(*key, *op)),
        Act::Sum(group) => manager.ask(by, event.name, &Asked::Over(*group)),
        _ => attempt_other(manager, by, event),
    }
}

/// Attempts a line that is free for its event, or by which an access waits: the access is asked for
/// again.
#[inline(always)]
pub(crate) fn attempt<S: TopStore>(
    manager: &mut Manager<S>,
    by: By,
    event: &EventView<'_>,
) -> Result<Came, NoMemory>
    requires line { IsLine by }
    requires next { IsFree manager.old.history by (asked event.now)
        ⊎ IsWaitOf manager.old.history by (asked event.now) }
    ensures ok { IfOk result (λ came.
        CameTo came (Attempts S.TopStore manager.old manager.new by (asked event.now))) }
    ensures err { OnErr result (manager.new ≡ manager.old) }
{
    if manager.nobody_waits() {
        return attempt_free(manager, by, event);
    }
    let Some(name) = accessor(event) else {
        return attempt_free(manager, by, event);
    };
    if manager.free(by, event) {
        attempt_free(manager, by, event)
    } else {
        manager.ask_again(by, name)
    }
}
