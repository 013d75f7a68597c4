// The verdict on a list by value: 15 for the model, 1, 2, 3 to 6, 7, 8, 9.
ghost use Rattle.std.specs.Prelude.{◌≡◌};
ghost use Rattle.admission.specs.Answer.{told_admission};
ghost use Rattle.admission.specs.Promise.{VerdictPromise};
ghost use Rattle.admission.specs.Verdict.{judged_told};

use crate::answer::{Admission, Admitted};
use crate::inner::{Cycle, common_cycle, load};
use job::{Job, JobList, Refusal};

// 'Admitted means load ≤ H; cycle and load are both returned.'
#[tactic(auto, unfolding(crate::specs::Verdict::judged_told))]
fn judged(cycle: Cycle, load: u32) -> Admission
    ensures { told_admission result ≡ judged_told cycle load }
{
    let cycle = u64::from(cycle.slots);
    let load = u64::from(load);
    if cycle < load {
        return Err(Refusal::Overload { cycle, load });
    }
    Ok(Admitted { cycle, load })
}

// The model is a number: any other is refused by row 15.
pub fn verdict(list: JobList, model: u32) -> Admission
    ensures { VerdictPromise list model result }
{
    if Job::ORIGINAL < model {
        return Err(Refusal::OrderOrModel);
    }
    let checked = list.check()?;
    if model == Job::ORIGINAL {
        return Err(Refusal::OriginalModel);
    }
    let cycle = common_cycle(checked)?;
    judged(cycle, load(checked, cycle))
}
