// A list of jobs by value: 16 records and a count. Records at and past the count are never read. The
// count is a field of its own: any count can be handed in, and is refused by row 1 or 2.
ghost use Rattle.job.specs.Promise.{EmptyPromise, CallableBelow, ListByPromise, ListOfPromise, ListCheckPromise};

use crate::checked::CheckedList;
use crate::record::Job;
use crate::refusal::Refusal;

#[derive(Clone, Copy)]
pub struct JobList {
    pub jobs: [Job; JobList::COUNT_MOST],
    pub count: usize,
}

impl JobList {
    // 'jobs: 1 to 16'
    pub const COUNT_MOST: usize = 16;

    // A list of `count` jobs before any of them is put.
    pub fn empty(count: usize) -> JobList
        ensures { EmptyPromise count result }
    {
        JobList {
            jobs: [Job::none(); JobList::COUNT_MOST],
            count,
        }
    }

    // A list of any count, of which the first 16 jobs are there: each is what `job` answers of its number.
    pub fn by<F: Fn(usize) -> Job>(count: usize, job: F) -> JobList
        requires { CallableBelow (F.pre job) count }
        ensures { ListByPromise (F.post job) count result }
    {
        let mut list = JobList::empty(count);
        for at in 0..count.min(JobList::COUNT_MOST) {
            list.jobs[at] = job(at);
        }
        list
    }

    // A lent list of any length: its count is its length, and no job past the sixteenth is read. No
    // `From`: its promise would have no name.
    pub fn of(jobs: &[Job]) -> JobList
        ensures { ListOfPromise jobs.now result }
    {
        JobList::by(jobs.len(), |at| jobs[at])
    }

    // Rows 1, 2, then 3 to 6 for the lowest job at fault.
    pub fn check(self) -> Result<CheckedList, Refusal>
        ensures { ListCheckPromise self result }
    {
        let count = self.count;
        if count == 0 {
            return Err(Refusal::NoJobs);
        }
        if JobList::COUNT_MOST < count {
            return Err(Refusal::TooManyJobs);
        }
        for at in 0..count {
            self.jobs[at].check(at)?;
        }
        Ok(CheckedList { list: self })
    }
}
