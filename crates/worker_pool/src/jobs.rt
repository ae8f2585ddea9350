//! The jobs of the workers, and the channels that carry them.
ghost use Rattle.std.specs.Prelude.{◌≡◌, ℕ, ◌<◌, ◌≤◌, IfOk, IfSome};
ghost use Rattle.crossbeam_channel.specs.Claims.{IsSeatAt};
ghost use Rattle.crossbeam_channel.specs.Ends.{receives_on, sends_on};
ghost use Rattle.worker_pool.specs.Jobs.{AreJobs, IsJob};

use crossbeam_channel::protocol::{Lesson, Outcome, Protocol, Split};
use crossbeam_channel::{Pass, RuledReceiver, RuledSender, TryRecvError, bounded_with};
use std::alloc::{AllocError, Global};
use std::sync::Wait;

/// A line to be tried, or the end of the work.
#[derive(Clone, Copy, Debug, PartialEq, Eq)]
pub enum Job {
    Line {
        session: u32,
        line: u32,
        /// Whether it was parked when it was last tried.
        parked: bool,
    },
    Stop,
}

type Sender = RuledSender<Job, (), Limits>;

type Receiver = RuledReceiver<Job, (), Limits>;

/// Each job is a line within the limits, or a stop.
pub struct Limits;

impl Protocol<Job, ()> for Limits {
    ghost holds = { λ items views. AreJobs items };

    ghost first = { tt };
}

/// A send.
pub struct Sends;

impl Outcome<Job, ()> for Sends {
    ghost then = { λ v x w. Unit {0} };
}

impl Lesson<Job, ()> for Sends {
    ghost fact = { λ v items. Unit {0} };
}

/// A receive, which gives a job.
pub struct Takes;

impl Outcome<Job, ()> for Takes {
    ghost then = { λ v x w. IsJob x };
}

impl Lesson<Job, ()> for Takes {
    ghost fact = { λ v items. Unit {0} };
}

/// A pass for another thread.
pub struct Cut;

impl Split<()> for Cut {
    ghost left = { λ v. tt };

    ghost right = { λ v. tt };
}

/// The two ends of a channel.
#[derive(Drop)]
pub(crate) struct Channel {
    sender: Sender,
    receiver: Receiver,
    ghost ends: { receives_on receiver ≡ sends_on sender },
}

impl Channel {
    /// A channel with room for so many jobs, and the first pass. The only error is that memory runs
    /// out.
    pub(crate) fn new(alloc: Global, room: usize) -> Result<(Channel, Pass<Job, ()>), AllocError>
        requires { 0 < room }
        ensures { IfOk result (λ made. IsSeatAt (sends_on made.0.sender) made.1) }
    {
        let (sender, receiver, pass) = bounded_with::<Job, (), Limits, Global>(alloc, room)?;
        Ok((Channel { sender, receiver }, pass))
    }

    /// A pass for another thread.
    pub(crate) fn another(&self, pass: &mut Pass<Job, ()>) -> Pass<Job, ()>
        requires { IsSeatAt (sends_on self.now.sender) pass.old }
        ensures { IsSeatAt (sends_on self.now.sender) pass.new
            × IsSeatAt (sends_on self.now.sender) result }
    {
        self.sender.another::<Cut>(pass)
    }

    /// Puts a job behind all others. One for which there is no room is lost, and the calling thread
    /// finds its line at the end.
    pub(crate) fn put<R: Wait>(&self, rt: &R, pass: &mut Pass<Job, ()>, job: Job)
        requires seat { IsSeatAt (sends_on self.now.sender) pass.old }
        requires job { IsJob job }
        ensures { IsSeatAt (sends_on self.now.sender) pass.new }
    {
        let _ = self.sender.send_as::<Sends, R>(rt, pass, job);
    }

    /// Takes the foremost job, if there is one. A channel that nobody can send on any more gives a
    /// stop.
    pub(crate) fn take<R: Wait>(&self, rt: &R, pass: &mut Pass<Job, ()>) -> Option<Job>
        requires { IsSeatAt (sends_on self.now.sender) pass.old }
        ensures seat { IsSeatAt (sends_on self.now.sender) pass.new }
        ensures job { IfSome result IsJob }
    {
        match self.receiver.try_recv_as::<Takes, R>(rt, pass) {
            Ok(job) => Some(job),
            Err(TryRecvError::Empty) => None,
            Err(TryRecvError::Disconnected) => Some(Job::Stop),
        }
    }
}
