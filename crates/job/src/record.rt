// One job: C slots for an instance, T slots in a period, m instances in every k periods.
ghost use Rattle.std.specs.Prelude.{◌≡◌};
ghost use Rattle.job.specs.Check.{allowed};
ghost use Rattle.job.specs.Promise.{OfPromise, NonePromise, JobCheckPromise};

use crate::checked::CheckedJob;
use crate::refusal::Refusal;

// Each number has 32 bits, so that the five digits of a sheet arrive whole and are refused by
// the row that is theirs.
#[derive(Clone, Copy, Debug, PartialEq, Eq)]
pub struct Job {
    pub c: u32,
    pub t: u32,
    pub m: u32,
    pub k: u32,
}

impl Job {
    // 'T: 1 to 4,096'
    pub const T_MOST: u32 = 4096;
    // 'k: 1 to 255'
    pub const K_MOST: u32 = 255;
    // 'common cycle, admission only: at most 16,777,216'
    pub const CYCLE_MOST: u64 = 16777216;
    // 'model 0 is relaxed, 1 is original': how a job is served. Numbers and no enum, wherever a model is
    // handed in: any other is refused by row 15.
    pub const RELAXED: u32 = 0;

    pub const ORIGINAL: u32 = 1;

    // 'Jobs are written C T m k.'
    pub fn of(c: u32, t: u32, m: u32, k: u32) -> Job
        ensures { OfPromise c t m k result }
    {
        Job { c, t, m, k }
    }

    // What stands where no job is: all zeros.
    pub fn none() -> Job
        ensures { NonePromise result }
    {
        Job {
            c: 0,
            t: 0,
            m: 0,
            k: 0,
        }
    }

    // The job at number `at` of a list, by rows 3 to 6: T before C before k before m.
    pub fn check(self, at: usize) -> Result<CheckedJob, Refusal>
        ensures { JobCheckPromise at self result }
    {
        if !within(self.t, Job::T_MOST) {
            return Err(Refusal::Period { job: at });
        }
        if !within(self.c, self.t) {
            return Err(Refusal::Service { job: at });
        }
        if !within(self.k, Job::K_MOST) {
            return Err(Refusal::Window { job: at });
        }
        if !within(self.m, self.k) {
            return Err(Refusal::Share { job: at });
        }
        Ok(CheckedJob { job: self })
    }
}

// 'x: 1 to most', as every number of a job is limited.
fn within(x: u32, most: u32) -> bool
    ensures { result ≡ allowed x most }
{
    (1 <= x) & (x <= most)
}
