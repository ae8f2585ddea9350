//! Sessions by a schedule, from a store to the report.
ghost use Rattle.std.specs.Prelude.{◌≡◌, length, IfErr, IfOk};
ghost use Rattle.interleavings.specs.Runs.{HasRunCause, IsRun, TellsStray};
ghost use Rattle.interleavings.specs.Scheduled.{BreaksOff, LetsGo, RunsOut};
ghost use Rattle.interleavings.specs.Turning.{IsClosed};

use crate::schedule::run_all;
use crate::turns::Turns;
use durable_top::TopStore;
use manager_core::OpenFault;
use run_reports::Report;
use serial_spec::NoMemory;
use session_text::Sessions;
use std::alloc::Global;

/// Why a run gave no report. Its store is dropped.
#[derive(Clone, Copy, Debug, PartialEq, Eq)]
pub enum RunFault {
    /// Memory ran out behind the opening. The store was asked what a legal history of these
    /// sessions asks, and has the table that this history leaves.
    NoMemory,
    /// The store was not opened.
    Open(OpenFault),
    /// This item of the schedule, counted from 1, is the first that is no session's number. Nothing
    /// was run.
    Schedule(usize),
}

fn count_of(sessions: &Sessions) -> u32
    ensures { result ≡ length sessions.now }
{
    sessions.len() as u32
}

// The first item, counted from 1, that is not below the number of sessions.
fn stray(count: u32, schedule: &[u32]) -> Option<usize>
    ensures { TellsStray count schedule.now result }
{
    for place in 0..schedule.len() {
        if schedule[place] >= count {
            return Some(place + 1);
        }
    }
    None
}

// The store of what was under way.
fn give_up<S: TopStore>(turns: Turns<'_, S>) -> S
    ensures { LetsGo S.TopStore turns.entry result }
{
    turns.has_legal_history();
    turns.into_progress().give_up()
}

// The report of sessions all of whose lines are answered.
fn close<S: TopStore>(turns: Turns<'_, S>) -> Result<(Report, S), S>
    ensures ok { IfOk result (λ run. IsClosed S.TopStore turns.entry run.0 run.1) }
    ensures err { IfErr result (LetsGo S.TopStore turns.entry) }
{
    match turns.into_report() {
        Ok(run) => Ok(run),
        Err(turns) => Err(give_up(turns)),
    }
}

/// Runs sessions under way to their end: the schedule's attempts, the rounds and the close, as in
/// `run_schedule`. The only error is that memory runs out; the store comes back then as what was
/// run left it.
pub fn run_opened<S: TopStore>(turns: Turns<'_, S>, schedule: &[u32]) -> Result<(Report, S), S>
    ensures ok { IfOk result (λ run. RunsOut S.TopStore schedule.now turns.entry run.0 run.1) }
    ensures err { IfErr result (BreaksOff S.TopStore turns.entry) }
{
    let mut turns = turns;
    match run_all(&mut turns, schedule) {
        Ok(()) => close(turns),
        Err(_) => Err(give_up(turns)),
    }
}

// Drops the store, where memory ran out.
fn let_go<S: TopStore>(left: S) -> RunFault
    ensures { result ≡ RunFault.NoMemory }
{
    drop(left);
    RunFault::NoMemory
}

/// Runs the sessions over the store by the schedule, and gives the store back with the report. A
/// session's number counts from 0 in order of the headers. Each item of the schedule is one attempt
/// of that session's next line, and none where its lines are all answered. Then come rounds until
/// no line is left: each attempts every session with lines left once, in order, and applies the
/// stuck rule once. Then the live top-level transactions are aborted in the order in which they
/// began. A schedule that names no session is told before the store is opened; the store is dropped
/// on every fault.
pub fn run_schedule<S: TopStore>(
    alloc: Global,
    sessions: &Sessions,
    schedule: &[u32],
    store: S,
) -> Result<(Report, S), RunFault>
    ensures ok { IfOk result (λ run. IsRun S.TopStore sessions.now schedule.now store run.0 run.1) }
    ensures err { IfErr result (λ fault.
        HasRunCause S.TopStore sessions.now schedule.now store fault) }
{
    if let Some(place) = stray(count_of(sessions), schedule) {
        return Err(RunFault::Schedule(place));
    }
    match Turns::open(alloc, sessions, store) {
        Ok(turns) => match run_opened(turns, schedule) {
            Ok(done) => Ok(done),
            Err(left) => Err(let_go(left)),
        },
        Err(fault) => Err(RunFault::Open(fault)),
    }
}
