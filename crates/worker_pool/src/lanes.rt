//! Where a worker takes its jobs from, and puts them.
ghost use Rattle.std.specs.Prelude.{IfSome};
ghost use Rattle.crossbeam_channel.specs.Claims.{IsSeatAt};
ghost use Rattle.crossbeam_channel.specs.Ends.{sends_on};
ghost use Rattle.worker_pool.specs.Jobs.{IsJob};

use crate::jobs::{Channel, Job};
use crate::own::OwnJobs;
use crossbeam_channel::Pass;
use serial_spec::MOST_SESSIONS;
use std::alloc::Global;
use std::sync::Wait;

/// A worker that has tried so many lines in a row, and never found the lock taken, is alone.
const ALONE: u32 = 64;

/// So often, in lines, a worker that is alone takes all jobs for itself that are there.
const ROUND: u32 = 64;

/// The two channels of a run, and the passes of one thread to them. Lines that were parked go
/// through a channel of their own, so that a worker need not take and send all of them between two
/// lines that can be answered. A worker that is alone keeps its jobs to itself, since a send and a
/// receive cost as much as a third of a line.
#[derive(Drop)]
pub(crate) struct Lanes<'a> {
    ready: &'a Channel,
    parked: &'a Channel,
    to_ready: Pass<Job, ()>,
    to_parked: Pass<Job, ()>,
    own_ready: OwnJobs,
    own_parked: OwnJobs,
    // How many lines were tried in a row.
    tried: u32,
    // How many were tried since all jobs were taken.
    since: u32,
    ghost seats: { IsSeatAt (sends_on ready.now.sender) to_ready
        × IsSeatAt (sends_on parked.now.sender) to_parked },
}

impl<'a> Lanes<'a> {
    pub(crate) fn new(
        alloc: Global,
        ready: &'a Channel,
        parked: &'a Channel,
        to_ready: Pass<Job, ()>,
        to_parked: Pass<Job, ()>,
    ) -> Lanes<'a>
        requires { IsSeatAt (sends_on ready.now.sender) to_ready
            × IsSeatAt (sends_on parked.now.sender) to_parked }
    {
        Lanes {
            ready,
            parked,
            to_ready,
            to_parked,
            own_ready: OwnJobs::new(alloc),
            own_parked: OwnJobs::new(alloc),
            tried: 0,
            since: 0,
        }
    }

    // Puts a job behind all others of its channel.
    fn send<R: Wait>(&mut self, rt: &R, job: Job)
        requires { IsJob job }
    {
        match job {
            Job::Line { parked: true, .. } => self.parked.put(rt, &mut self.to_parked, job),
            _ => self.ready.put(rt, &mut self.to_ready, job),
        }
    }

    // Keeps a job, or sends it where memory runs out.
    fn keep<R: Wait>(&mut self, rt: &R, job: Job)
        requires { IsJob job }
    {
        let kept = match job {
            Job::Line { parked: true, .. } => self.own_parked.put(job),
            _ => self.own_ready.put(job),
        };
        if let Err(job) = kept {
            self.send(rt, job);
        }
    }

    /// Puts a job behind all others of its kind. A worker that is alone keeps it.
    pub(crate) fn put<R: Wait>(&mut self, rt: &R, job: Job)
        requires { IsJob job }
    {
        match job {
            Job::Line { .. } if self.tried >= ALONE => self.keep(rt, job),
            _ => self.send(rt, job),
        }
    }

    // The foremost job of either channel, if there is one.
    fn take_one<R: Wait>(&mut self, rt: &R) -> Option<Job>
        ensures { IfSome result IsJob }
    {
        let ready = self.ready.take(rt, &mut self.to_ready);
        match ready {
            Some(job) => Some(job),
            None => self.parked.take(rt, &mut self.to_parked),
        }
    }

    // Takes all jobs for itself that are there. It answers whether there was a stop.
    fn take_all<R: Wait>(&mut self, rt: &R) -> bool {
        for _ in 0..MOST_SESSIONS {
            match self.take_one(rt) {
                Some(Job::Stop) => return true,
                Some(job) => self.keep(rt, job),
                None => return false,
            }
        }
        false
    }

    // Whether a worker that is alone is to take all jobs again.
    fn is_due(&self) -> bool {
        self.tried >= ALONE && self.since >= ROUND
    }

    /// Takes the foremost job that was not parked, if there is one.
    pub(crate) fn take_ready<R: Wait>(&mut self, rt: &R) -> Option<Job>
        ensures { IfSome result IsJob }
    {
        if self.is_due() {
            self.since = 0;
            if self.take_all(rt) {
                return Some(Job::Stop);
            }
        }
        match self.own_ready.take() {
            Some(job) => Some(job),
            None => self.ready.take(rt, &mut self.to_ready),
        }
    }

    /// Takes the foremost job that was parked, if there is one.
    pub(crate) fn take_parked<R: Wait>(&mut self, rt: &R) -> Option<Job>
        ensures { IfSome result IsJob }
    {
        match self.own_parked.take() {
            Some(job) => Some(job),
            None => self.parked.take(rt, &mut self.to_parked),
        }
    }

    // The foremost job that it kept, if there is one.
    fn take_kept(&mut self) -> Option<Job>
        ensures { IfSome result IsJob }
    {
        match self.own_ready.take() {
            Some(job) => Some(job),
            None => self.own_parked.take(),
        }
    }

    /// Counts a line that was tried.
    pub(crate) fn count(&mut self) {
        self.tried = self.tried.saturating_add(1);
        self.since = self.since.saturating_add(1);
    }

    /// Another worker has the lock: jobs that were kept go back, so that it may go on with them.
    pub(crate) fn share<R: Wait>(&mut self, rt: &R) {
        self.tried = 0;
        for _ in 0..MOST_SESSIONS {
            match self.take_kept() {
                Some(job) => self.send(rt, job),
                None => return,
            }
        }
    }
}
