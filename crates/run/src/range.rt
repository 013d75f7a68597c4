// Row 10, part by part: whether the places and the totals of a state of any content are in their
// ranges. Widened before they are added or multiplied, no number can wrap.
ghost use Rattle.std.specs.Prelude.{◌≡◌, ◌↔◌, IsTrue, EachIndex, true, ltb};
ghost use Rattle.job.specs.Limit.{count_most};
ghost use Rattle.place.specs.Range.{place_in_range};
ghost use Rattle.run.specs.State.{place_at};
ghost use Rattle.run.specs.Range.{totals_in_range};

use crate::state::{State, Totals};
use place::inner::range::place_in_range;

pub fn places_in_range(state: State) -> bool
    ensures { IsTrue result ↔ EachIndex state.places (λ i. place_in_range state.setting (ltb i state.count) (place_at state.places i) ≡ true) }
{
    state.places.iter().enumerate().all(|(i, place)| place_in_range(
        state.setting,
        i < state.count,
        *place,
    ))
}

// 'given + idle = clock, and each of the other two totals is at most 16 times the clock'
#[tactic(auto, unfolding(crate::specs::Range::totals_in_range))]
pub fn totals_in_range(clock: u32, totals: Totals) -> bool
    ensures { result ≡ totals_in_range clock totals }
{
    let slots = clock as u64;
    let sets = State::SETS_MOST * slots;
    ((totals.given as u64) + (totals.idle as u64) == slots)
        & (totals.tags <= sets)
        & (totals.shorts <= sets)
}
