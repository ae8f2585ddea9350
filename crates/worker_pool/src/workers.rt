//! Workers over one lock.
ghost use Rattle.std.specs.Prelude.{◌≡◌, ◌<◌, ◌≤◌, IfErr, IfOk, IfSome, IsFalse};
ghost use Rattle.crossbeam_channel.specs.Claims.{IsSeatAt};
ghost use Rattle.crossbeam_channel.specs.Ends.{sends_on};
ghost use Rattle.serial_spec.specs.declared.limits.TheConstants.{MOST_SESSIONS};
ghost use Rattle.worker_pool.specs.Jobs.{IsJob, IsNextJob};
ghost use Rattle.worker_pool.specs.inner.Working.{IsAfterOpening};

use crate::desk::{Desk, Opening, Tried};
use crate::jobs::{Channel, Job};
use crate::lanes::Lanes;
use crossbeam_channel::Pass;
use durable_top::TopStore;
use event_lists::EventView;
use interleavings::{ServeFault, Turn};
use serial_spec::NoMemory;
use session_text::Sessions;
use std::alloc::Global;
use std::sync::{Mutex, Wait};
use std::thread;
use std::thread::Threads;
use std::time::{Clock, Duration};

/// What is called around a line, by whoever tries it and outside the lock. It must not wait for a line
/// of another session, whose turn may be the same worker's.
pub trait Gate {
    /// Before each attempt of a line, also before one that comes to nothing because another worker
    /// has the lock.
    fn pass(&self, session: u32, line: u32);

    /// Once for each line that was answered.
    fn answered(&self, session: u32, line: u32);
}

/// The most workers of a run.
pub const MOST_WORKERS: u32 = 16;

/// For how long a worker sleeps behind a parked line, once it has found twice as many parked in a row
/// as there are sessions, in microseconds.
const REST: u64 = 50;

/// For how long a worker stands back that finds the lock taken, or no job, in microseconds. Each
/// time in a row it is twice as long, up to the longest.
const LOCK_REST: u64 = 200;

/// The longest time for which a worker stands back that finds the lock taken again and again, in
/// microseconds.
const LONGEST_REST: u64 = 6400;

/// The same where it finds no job, in microseconds. It is shorter, since a look for one keeps nobody
/// out, and the end of the run waits for all workers.
const LONGEST_IDLE: u64 = 1600;

// Tries a line under the lock, unless another worker has it.
fn try_line<S: TopStore, J: Opening<S>>(
    desk: &Mutex<Desk<'_, S, J>>,
    session: u32,
    line: u32,
    text: &EventView<'_>,
) -> Result<Option<Tried>, NoMemory>
    ensures { IfOk result (λ turn. IfSome turn (λ tried. IsNextJob session tried.next)) }
{
    match desk.try_lock() {
        Some(mut held) => Ok(Some(held.take_turn(session, line, text)?)),
        None => Ok(None),
    }
}

// Tries a line, and calls the gate around it. Where another worker has the lock, nothing comes of
// it.
fn turn<S: TopStore, J: Opening<S>, G: Gate>(
    desk: &Mutex<Desk<'_, S, J>>,
    gate: &G,
    session: u32,
    line: u32,
    text: &EventView<'_>,
) -> Result<Option<Tried>, NoMemory>
    ensures { IfOk result (λ turn. IfSome turn (λ tried. IsNextJob session tried.next)) }
{
    gate.pass(session, line);
    let Some(tried) = try_line(desk, session, line, text)? else {
        return Ok(None);
    };
    if tried.turn == Turn::Answered {
        gate.answered(session, line);
    }
    if let Some((other, number)) = tried.given_up {
        gate.answered(other, number);
    }
    Ok(Some(tried))
}

// The job that follows this line of the session.
fn next_job(session: u32, line: u32, tried: &Tried) -> Option<Job>
    requires { IsNextJob session tried.now.next }
    ensures { IfSome result IsJob }
{
    match tried.next {
        Some(next) => Some(Job::Line {
            session,
            line: next,
            parked: next == line,
        }),
        None => {
            if tried.finished {
                Some(Job::Stop)
            } else {
                None
            }
        }
    }
}

// How patient a worker has become.
#[derive(Drop)]
struct Patience {
    // Whether its next job is one that was parked, if there is any.
    is_parked_due: bool,
    // How many of its attempts were parked in a row, as far as that is asked.
    parked: u32,
    // For how long it stands back once its job is passed on, in microseconds.
    rest: u64,
}

// Counts a line that was tried. Behind a parked one it rests, once twice as many in a row were parked as
// there are sessions, so that each may have been tried, and a line that must be given up was looked for.
// Meanwhile nobody has the line's job, and the other workers wait for theirs.
fn count_tried<R: Clock>(rt: &R, patience: &mut Patience, sessions: u32, tried: &Tried) {
    patience.rest = 0;
    if tried.turn == Turn::Answered || tried.given_up.is_some() {
        patience.parked = 0;
    } else if patience.parked < sessions.saturating_mul(2) {
        patience.parked += 1;
    } else {
        thread::sleep(rt, Duration::from_micros(REST));
    }
}

// Counts a line that was not tried, since another worker has the lock, or that no job was there. The
// rest is so long at most.
fn count_idle(patience: &mut Patience, longest: u64) {
    patience.rest = patience.rest.saturating_mul(2).max(LOCK_REST).min(longest);
}

// Stands back, where it found the lock taken, or no job. It has passed its job on, so that whoever
// has the lock goes on with line after line of every session, and need not wake another worker at
// each. The rests get longer, since each change of the worker costs: what the lines read stands in
// the cache of another processor then. It sleeps, and does not wait in a receive, since the next
// job may come through either channel.
fn stand_back<R: Clock>(rt: &R, patience: &Patience) {
    if patience.rest > 0 {
        thread::sleep(rt, Duration::from_micros(patience.rest));
    }
}

// Does a job, and gives the one that follows: the session's next line, which may be the same again,
// or a stop.
fn follow<R: Clock, S: TopStore, J: Opening<S>, G: Gate>(
    rt: &R,
    sessions: &Sessions,
    desk: &Mutex<Desk<'_, S, J>>,
    gate: &G,
    job: Job,
    patience: &mut Patience,
) -> Option<Job>
    requires { IsJob job }
    ensures { IfSome result IsJob }
{
    let Job::Line { session, line, .. } = job else {
        return Some(Job::Stop);
    };
    match turn(desk, gate, session, line, &sessions.line(session, line)?) {
        Ok(Some(tried)) => {
            count_tried(rt, patience, count_of(sessions), &tried);
            next_job(session, line, &tried)
        }
        Ok(None) => {
            count_idle(patience, LONGEST_REST);
            Some(job)
        }
        Err(_) => Some(Job::Stop),
    }
}

// Takes a job. Behind each that was not parked comes one that was, as far as there are any.
fn take_job<R: Wait>(rt: &R, lanes: &mut Lanes<'_>, patience: &mut Patience) -> Option<Job>
    ensures { IfSome result IsJob }
{
    if !patience.is_parked_due {
        patience.is_parked_due = true;
        if let Some(job) = lanes.take_ready(rt) {
            return Some(job);
        }
    }
    patience.is_parked_due = false;
    if let Some(job) = lanes.take_parked(rt) {
        return Some(job);
    }
    lanes.take_ready(rt)
}

// Counts a line that was tried, or shares what was kept where another worker has the lock.
fn note_turn<R: Wait>(rt: &R, lanes: &mut Lanes<'_>, patience: &Patience) {
    if patience.rest > 0 {
        lanes.share(rt);
    } else {
        lanes.count();
    }
}

// Does jobs until there is a stop, which is sent on.
fn work<R: Wait + Clock, S: TopStore, J: Opening<S>, G: Gate>(
    rt: &R,
    mut lanes: Lanes<'_>,
    sessions: &Sessions,
    desk: &Mutex<Desk<'_, S, J>>,
    gate: &G,
) {
    let mut patience = Patience {
        is_parked_due: false,
        parked: 0,
        rest: 0,
    };
    for _ in rt.forever() {
        if let Some(job) = take_job(rt, &mut lanes, &mut patience) {
            let next = follow(rt, sessions, desk, gate, job, &mut patience);
            note_turn(rt, &mut lanes, &patience);
            if let Some(next) = next {
                lanes.put(rt, next);
                if matches!(next, Job::Stop) {
                    return;
                }
            }
        } else {
            count_idle(&mut patience, LONGEST_IDLE);
        }
        stand_back(rt, &patience);
    }
}

// How many sessions there are.
pub(crate) fn count_of(sessions: &Sessions) -> u32
    ensures { result ≤ MOST_SESSIONS }
{
    sessions.len() as u32
}

// Sends the first line of each session that has lines, or a stop where none has.
fn first_jobs<R: Wait>(rt: &R, ready: &Channel, pass: &mut Pass<Job, ()>, sessions: &Sessions)
    requires { IsSeatAt (sends_on ready.now.sender) pass.old }
    ensures { IsSeatAt (sends_on ready.now.sender) pass.new }
{
    let mut none = true;
    for session in 0..count_of(sessions) {
        if sessions.line(session, 1).is_some() {
            none = false;
            let first = Job::Line {
                session,
                line: 1,
                parked: false,
            };
            ready.put(rt, pass, first);
        }
    }
    if none {
        ready.put(rt, pass, Job::Stop);
    }
}

// Starts the workers, hands out the first lines and waits for the workers. It answers whether each
// could be started. Until all are there no line is in a channel, so that none is attempted where
// one cannot be started: those before it find a stop.
fn start_all<
    R: Threads + Wait + Clock + Sync,
    S: TopStore + Send,
    J: Opening<S> + Send,
    G: Gate + Sync,
>(
    rt: &R,
    alloc: Global,
    ready: &Channel,
    mut to_ready: Pass<Job, ()>,
    parked: &Channel,
    mut to_parked: Pass<Job, ()>,
    sessions: &Sessions,
    desk: &Mutex<Desk<'_, S, J>>,
    workers: u32,
    gate: &G,
) -> bool
    requires { IsSeatAt (sends_on ready.now.sender) to_ready
        × IsSeatAt (sends_on parked.now.sender) to_parked }
    ensures { IsFalse result → 0 < workers }
{
    thread::scope(
        thread::scope_env(),
        rt,
        |scope| -> bool
            requires { IsSeatAt (sends_on ready.now.sender) to_ready
                × IsSeatAt (sends_on parked.now.sender) to_parked }
            ensures { IsFalse result → 0 < workers }
        {
            for _ in 0..workers {
                let (first, second) = (
                    ready.another(&mut to_ready),
                    parked.another(&mut to_parked),
                );
                let worker = move || work(
                    rt,
                    Lanes::new(alloc, ready, parked, first, second),
                    sessions,
                    desk,
                    gate,
                );
                if scope.spawn(worker).is_err() {
                    ready.put(rt, &mut to_ready, Job::Stop);
                    return false;
                }
            }
            first_jobs(rt, ready, &mut to_ready, sessions);
            true
        },
    )
}

// The number of the session's next line.
fn next_line<R: Wait, S: TopStore, J: Opening<S>>(
    rt: &R,
    desk: &Mutex<Desk<'_, S, J>>,
    session: u32,
) -> Option<u32> {
    desk.lock(rt).next_line(session)
}

// Whether nothing is left to do.
fn is_over<R: Wait, S: TopStore, J: Opening<S>>(rt: &R, desk: &Mutex<Desk<'_, S, J>>) -> bool {
    desk.lock(rt).is_over()
}

// Tries the lines that are left, in rounds, until none is: those whose jobs were lost. Most runs
// leave none.
fn finish<R: Wait, S: TopStore, J: Opening<S>, G: Gate>(
    rt: &R,
    sessions: &Sessions,
    desk: &Mutex<Desk<'_, S, J>>,
    gate: &G,
) -> Result<(), NoMemory> {
    for _ in rt.forever() {
        if is_over(rt, desk) {
            break;
        }
        for session in 0..count_of(sessions) {
            let Some(line) = next_line(rt, desk, session) else {
                continue;
            };
            if let Some(text) = sessions.line(session, line) {
                turn(desk, gate, session, line, &text)?;
            }
        }
    }
    Ok(())
}

/// Has the lines tried by so many workers, waits for them, and tries what they left.
pub(crate) fn work_through<
    R: Threads + Wait + Clock + Sync,
    S: TopStore + Send,
    J: Opening<S> + Send,
    G: Gate + Sync,
>(
    rt: &R,
    alloc: Global,
    sessions: &Sessions,
    desk: &Mutex<Desk<'_, S, J>>,
    workers: u32,
    gate: &G,
) -> Result<(), ServeFault>
    requires { workers ≤ MOST_WORKERS }
    ensures { IfErr result (IsAfterOpening workers) }
{
    // A job of each session, and a stop of each worker and of the driver.
    let room = (count_of(sessions) + workers + 1) as usize;
    let Ok((ready, to_ready)) = Channel::new(alloc, room) else {
        return Err(ServeFault::NoMemory);
    };
    let Ok((parked, to_parked)) = Channel::new(alloc, room) else {
        return Err(ServeFault::NoMemory);
    };
    if !start_all(
        rt, alloc, &ready, to_ready, &parked, to_parked, sessions, desk, workers, gate,
    ) {
        return Err(ServeFault::Thread);
    }
    match finish(rt, sessions, desk, gate) {
        Ok(()) => Ok(()),
        Err(_) => Err(ServeFault::NoMemory),
    }
}
