//! Jobs that a worker keeps for itself.
ghost use Rattle.std.specs.Prelude.{IfErr, IfSome};
ghost use Rattle.worker_pool.specs.Jobs.{IsJob};

use crate::jobs::Job;
use std::alloc::Global;
use std::collections::VecDeque;
use std::marker::Model;

/// Jobs that no other worker can take, the first that came foremost.
#[derive(Drop)]
pub(crate) struct OwnJobs {
    jobs: VecDeque<Job>,
}

impl Model for OwnJobs {
    ghost use Rattle.std.specs.Prelude.{List};
    ghost use Rattle.worker_pool.specs.Jobs.{AreJobs};
    ghost use Rattle.worker_pool.specs.declared.jobs.Job.{Job};

    ghost Value = { List Job };

    ghost view = { λ o. o.jobs.items };

    ghost invariant = { λ o. AreJobs o.jobs.items };
}

impl OwnJobs {
    /// No jobs. It takes no memory.
    pub(crate) fn new(alloc: Global) -> OwnJobs {
        OwnJobs {
            jobs: VecDeque::new(alloc),
        }
    }

    /// Puts a job behind the others. Where memory runs out it is given back.
    pub(crate) fn put(&mut self, job: Job) -> Result<(), Job>
        requires { IsJob job }
        ensures { IfErr result IsJob }
    {
        match self.jobs.push_back(job) {
            Ok(()) => Ok(()),
            Err(failed) => Err(failed.value),
        }
    }

    /// Takes the foremost job, if there is one.
    pub(crate) fn take(&mut self) -> Option<Job>
        ensures { IfSome result IsJob }
    {
        self.jobs.pop_front()
    }
}
