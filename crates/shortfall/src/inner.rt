// The run of one cycle, behind the checks already made.
ghost use Rattle.std.specs.Prelude.{◌≡◌, ◌<◌};
ghost use Rattle.place.specs.Sound.{Allowed};
ghost use Rattle.run.specs.State.{clock_most, fresh_of};
ghost use Rattle.shortfall.specs.Tally.{no_tally, noted_of, tallies_of};

use admission::inner::Cycle;
use job::{CheckedList, JobList};
use place::Setting;
use place::inner::choice::Held;
use place::inner::sound::Sound;
use run::{CheckedState, State};

// The short windows of a job so far, and the slot of the first.
#[derive(Clone, Copy, Debug, PartialEq, Eq)]
pub struct Tally {
    pub short: u32,
    pub first: Option<u32>,
}

impl Tally {
    pub(crate) fn none() -> Tally
        ensures { result ≡ no_tally }
    {
        Tally {
            short: 0,
            first: None,
        }
    }

    // One short window more, which ends with slot n.
    #[tactic(auto, unfolding(crate::specs::Tally::noted_of))]
    fn noted(self, n: u32) -> Tally
        requires { self.short < clock_most }
        ensures { result ≡ noted_of self n }
    {
        Tally {
            short: self.short + 1,
            first: self.first.or(Some(n)),
        }
    }
}

// The short windows of each job in the slots of a cycle, from the fresh state. As in the timetable's
// writer, one pass over the places a slot, in one local array, so that no state is copied in the
// loop. Tags are not told, and so not kept: no place has one.
pub(crate) fn run_through(
    list: CheckedList,
    setting: Setting,
    cycle: Cycle,
) -> [Tally; JobList::COUNT_MOST]
    requires { Allowed setting }
    ensures { result ≡ tallies_of (fresh_of list setting) cycle }
{
    let state = State::fresh(list.list, setting);
    let mut chosen = CheckedState { state }.choose();
    let mut places = state.places;
    let mut tallies = [Tally::none(); JobList::COUNT_MOST];
    for n in 0..cycle.slots {
        let mut best = Held::nobody();
        for i in 0..state.count {
            let sound = Sound {
                setting: state.setting,
                place: places[i],
            };
            let after = sound.passed(i == chosen);
            places[i] = after.place;
            if after.short {
                tallies[i] = tallies[i].noted(n);
            }
            let sound = Sound {
                setting: state.setting,
                place: after.place,
            };
            best = best.better(i, sound);
        }
        chosen = best.at;
    }
    tallies
}
