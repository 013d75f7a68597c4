// A job and a list that have passed their check: what is computed of one asks for nothing more. `check`
// makes them and no `TryFrom`, whose promise would have no name; one type for both, over what is checked,
// would need a trait for the fact and be longer.
ghost use Rattle.std.specs.Prelude.{◌≡◌, ◌<◌};
ghost use Rattle.job.specs.Check.{job_at};
ghost use Rattle.job.specs.Promise.{WindowPromise};

use crate::list::JobList;
use crate::record::Job;
use std::marker::Model;

// In a clause it is the job.
#[derive(Clone, Copy)]
pub struct CheckedJob {
    pub job: Job,
}

impl Model for CheckedJob {
    ghost use Rattle.job.specs.declared.record.Job.{Job};

    ghost Value = { Job };

    ghost use Rattle.job.specs.Sound.{SoundJob};

    ghost view = { λ c. c.job };

    ghost invariant = { λ c. SoundJob c.job };

    ghost inverse = { λ j. record { job = j } };
}

impl CheckedJob {
    // kT, the slots of the job's window.
    pub fn window(self) -> u32
        ensures { WindowPromise self result }
    {
        self.job.k * self.job.t
    }
}

// In a clause it is the list.
#[derive(Clone, Copy)]
pub struct CheckedList {
    pub list: JobList,
}

impl Model for CheckedList {
    ghost use Rattle.job.specs.declared.list.JobList.{JobList};

    ghost Value = { JobList };

    ghost use Rattle.job.specs.Sound.{SoundList};

    ghost view = { λ c. c.list };

    ghost invariant = { λ c. SoundList c.list };

    ghost inverse = { λ l. record { list = l } };
}

impl CheckedList {
    // The job at number `at`, which has passed with the list. The list is lent: by value it would be
    // copied for each job.
    pub fn job(&self, at: usize) -> CheckedJob
        requires { at < self.now.count }
        ensures { result ≡ job_at self.now.jobs at }
    {
        let list = &self.list;
        CheckedJob { job: list.jobs[at] }
    }
}
