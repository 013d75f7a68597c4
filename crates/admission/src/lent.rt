// Admission of a lent slice of job records, of any length: its first 16 make a list by value, and the
// verdict is on that.
ghost use Rattle.admission.specs.Promise.{AdmitPromise, AdmitFirstPromise};

use crate::answer::Admission;
use crate::decide::verdict;
use job::{Job, JobList};

pub fn admit(jobs: &[Job], model: u32) -> Admission
    ensures { AdmitPromise jobs.now model result }
{
    verdict(JobList::of(jobs), model)
}

// For a caller that has no slice: admits the first `n` of an array by value, by slice; all 40 where `n`
// is larger.
pub fn admit_first(jobs: [Job; 40], n: usize, model: u32) -> Admission
    ensures { AdmitFirstPromise jobs n model result }
{
    admit(&jobs[..n.min(jobs.len())], model)
}
