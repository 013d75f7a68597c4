// The answer for every list and setting.
ghost use Rattle.std.specs.Prelude.{◌≡◌};
ghost use Rattle.admission.specs.Cycle.{cycle_of};
ghost use Rattle.place.specs.Sound.{Allowed};
ghost use Rattle.run.specs.State.{fresh_of};
ghost use Rattle.shortfall.specs.Tally.{tallies_of};
ghost use Rattle.shortfall.specs.Shortfall.{below_of, judged_of};
ghost use Rattle.shortfall.specs.Promise.{ShortfallPromise};

use crate::answer::{Below, Judgement};
use crate::inner::{Tally, run_through};
use admission::inner::{Cycle, common_cycle, load};
use job::{CheckedJob, CheckedList, Job, JobList, Refusal};
use place::Setting;

// One job's answer; H / kT windows a cycle.
fn below(job: CheckedJob, cycle: Cycle, tally: Tally) -> Below
    ensures { result ≡ below_of job cycle tally }
{
    Below {
        windows: cycle.slots / job.window(),
        short: tally.short,
        first: tally.first,
    }
}

// Each job's answer, by its short windows in one cycle.
fn told(list: CheckedList, cycle: Cycle, tallies: [Tally; JobList::COUNT_MOST]) -> Judgement
    ensures { result ≡ judged_of list cycle tallies }
{
    let none = Below {
        windows: 0,
        short: 0,
        first: None,
    };
    let mut all = Judgement {
        fallen: 0,
        jobs: [none; JobList::COUNT_MOST],
    };
    for at in 0..list.list.count {
        let one = below(list.job(at), cycle, tallies[at]);
        all.fallen += usize::from(0 < one.short);
        all.jobs[at] = one;
    }
    all
}

// The short windows of each job in one cycle. A list that is admitted has none in order W and the
// relaxed model, by the proof of it, and needs no run.
fn tallied(list: CheckedList, setting: Setting, cycle: Cycle) -> [Tally; JobList::COUNT_MOST]
    requires allowed { Allowed setting }
    requires cycle_value { cycle ≡ cycle_of list }
    ensures { result ≡ tallies_of (fresh_of list setting) cycle }
{
    // Order and model are numbers of the setting, for the reason at `Setting::by_units`. The list is
    // read, so that the proof sees that the list has passed its check.
    let _ = &list.list;
    if (setting.order == Setting::W) & (setting.model == Job::RELAXED) {
        if load(list, cycle) <= cycle.slots {
            return [Tally::none(); JobList::COUNT_MOST];
        }
    }
    run_through(list, setting, cycle)
}

// Tests 15, 1 to 6, 8. The cycle is asked for in either model.
pub fn shortfall(list: JobList, setting: Setting) -> Result<Judgement, Refusal>
    ensures { ShortfallPromise list setting result }
{
    if !setting.allowed() {
        return Err(Refusal::OrderOrModel);
    }
    let checked = list.check()?;
    let cycle = common_cycle(checked)?;
    Ok(told(checked, cycle, tallied(checked, setting, cycle)))
}
