// One slot of a sound state below the clock's limit.
ghost use Rattle.std.specs.Prelude.{◌≡◌, cond, ◌+◌, ◌^◌, ◌<◌};
ghost use Rattle.run.specs.State.{clock_most};
ghost use Rattle.run.specs.Choice.{chosen_of};
ghost use Rattle.run.specs.Slot.{choice_of, all_moved, counted_of, turn_of};

use crate::answer::{Choice, Slot};
use crate::checked::CheckedState;
use crate::state::{State, Totals};
use job::JobList;
use place::Place;
use place::inner::choice::Held;
use place::inner::sound::Sound;

#[derive(Clone, Copy)]
pub struct Turned {
    pub slot: Slot,
    pub state: State,
}

// The places after the slot; the masks of the two sets, and how many jobs each has (`all_moved` of
// specs/Slot has both: the totals are sums of the second, and need no bits counted).
#[derive(Clone, Copy)]
pub struct Outcomes {
    pub places: [Place; JobList::COUNT_MOST],
    pub tags: u32,
    pub shorts: u32,
    pub tagged: u32,
    pub short: u32,
}

// x and `more`, where b holds.
fn plus_if(b: bool, x: u32, more: u32) -> u32
    requires { x + more < 4294967296 }
    ensures { result ≡ cond b (x + more) x }
{
    if b { x + more } else { x }
}

#[tactic(auto, unfolding(crate::specs::Slot::choice_of))]
// No `From<usize>`: which number is nobody's is known here alone.
fn choice_of(at: usize) -> Choice
    ensures { result ≡ choice_of at }
{
    if at == Held::NO_PLACE {
        Choice::Idle
    } else {
        Choice::Given(at)
    }
}

// The totals after one more slot, whose sets have `tagged` and `short` jobs.
pub fn counted(totals: Totals, idle: bool, tagged: u32, short: u32) -> Totals
    requires idle_bound { totals.given + totals.idle < clock_most }
    requires tagged_bound { totals.tags + tagged < 2 ^ 64 }
    requires short_bound { totals.shorts + short < 2 ^ 64 }
    ensures { result ≡ counted_of totals idle tagged short }
{
    Totals {
        given: plus_if(!idle, totals.given, 1),
        idle: plus_if(idle, totals.idle, 1),
        tags: totals.tags + (tagged as u64),
        shorts: totals.shorts + (short as u64),
    }
}

impl CheckedState {
    // Every place moved on by the slot, which the place at number `at` is given. The pass stands here and in
    // the two slot loops: handed to a function and back, the array would be copied.
    #[tactic(auto, using(crate::proofs::MovingLaws::moving_bounded))]
    fn all_moved(self, at: usize) -> Outcomes
        requires { at ≡ chosen_of self }
        ensures { result ≡ all_moved self.setting self.places self.count at }
    {
        let places = self.state.places;
        let mut all = Outcomes {
            places,
            tags: 0,
            shorts: 0,
            tagged: 0,
            short: 0,
        };
        let mut one: u32 = 1;
        for i in 0..self.state.count {
            let sound = Sound {
                setting: self.state.setting,
                place: all.places[i],
            };
            let q = sound.moved(i == at);
            all.places[i] = q.place;
            all.tags = plus_if(q.tagged, all.tags, one);
            all.shorts = plus_if(q.short, all.shorts, one);
            all.tagged = plus_if(q.tagged, all.tagged, 1);
            all.short = plus_if(q.short, all.short, 1);
            // Doubled and not shifted: the law of a mask goes by the next bit.
            one *= 2;
        }
        all
    }

    pub(crate) fn turn(self) -> Turned
        requires { self.clock < clock_most }
        ensures { result ≡ turn_of self }
    {
        let at = self.choose();
        let all = self.all_moved(at);
        let state = self.state;
        let slot = Slot {
            choice: choice_of(at),
            tags: all.tags as u16,
            shorts: all.shorts as u16,
        };
        let places = all.places;
        let next = State {
            clock: state.clock + 1,
            places,
            totals: counted(state.totals, at == Held::NO_PLACE, all.tagged, all.short),
            ..state
        };
        Turned { slot, state: next }
    }
}
