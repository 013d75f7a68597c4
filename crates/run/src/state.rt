// The state of a run: a setting, the clock, the places of the jobs, and the totals. How many places are
// in use is a field of its own: a state of any content can be handed in, and is refused by row 10.
ghost use Rattle.run.specs.Promise.{ZerosPromise, FreshPromise, InRangePromise};

use crate::range;
use job::JobList;
use place::{Place, Setting};

#[derive(Clone, Copy, Debug, PartialEq, Eq)]
pub struct Totals {
    pub given: u32,
    pub idle: u32,
    pub tags: u64,
    pub shorts: u64,
}

#[derive(Clone, Copy, Debug, PartialEq, Eq)]
pub struct State {
    pub setting: Setting,
    pub clock: u32,
    pub count: usize,
    pub places: [Place; JobList::COUNT_MOST],
    pub totals: Totals,
}

impl State {
    // 'slot clock: 0 to 4,294,967,295'
    pub const CLOCK_MOST: u32 = 4294967295;
    // 'each of the other two totals is at most 16 times the clock'
    pub const SETS_MOST: u64 = JobList::COUNT_MOST as u64;

    // 'the state of all zeros'
    pub fn zeros() -> State
        ensures { ZerosPromise result }
    {
        State {
            setting: Setting::of(0, 0),
            clock: 0,
            count: 0,
            places: [Place::blank(); JobList::COUNT_MOST],
            totals: Totals {
                given: 0,
                idle: 0,
                tags: 0,
                shorts: 0,
            },
        }
    }

    // The fresh state of a list, which stands beside its setting as document 01 hands them over: every
    // window opens at slot 0. Places past the last job are zeros.
    pub fn fresh(list: JobList, setting: Setting) -> State
        ensures { FreshPromise list setting result }
    {
        let mut places = [Place::blank(); JobList::COUNT_MOST];
        for at in 0..list.count.min(JobList::COUNT_MOST) {
            places[at] = Place::opened(list.jobs[at]);
        }
        State {
            setting,
            count: list.count,
            places,
            ..State::zeros()
        }
    }

    // Row 10: whether the state is in its ranges, whatever it holds.
    pub fn in_range(self) -> bool
        ensures { InRangePromise self result }
    {
        self.setting.allowed()
            & (self.clock <= State::CLOCK_MOST)
            & ((1 <= self.count) & (self.count <= JobList::COUNT_MOST))
            & range::places_in_range(self)
            & range::totals_in_range(self.clock, self.totals)
    }
}
