// Admission of job bytes.
ghost use Rattle.std.specs.Prelude.{◌≡◌};
ghost use Rattle.admission.specs.Answer.{told_admission};
ghost use Rattle.entry.specs.Entry.{admit_told};
ghost use Rattle.entry.specs.Promise.{AdmitEntryPromise};

use crate::jobs::list_from;
use admission::Admission;
use job::number_of;

// Tests 14, then those of admission.
fn admit(jobs: &[u8], model: u32) -> Admission
    ensures { told_admission result ≡ admit_told jobs.now model }
{
    admission::verdict(list_from(jobs)?, model)
}

// Returns 0 or the refusal's number.
pub fn filbertoss_admit(jobs: &[u8], model: u32) -> u32
    ensures { AdmitEntryPromise jobs.now model result }
{
    number_of(admit(jobs, model))
}
