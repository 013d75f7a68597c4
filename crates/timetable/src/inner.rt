// The writer's loop, behind the checks already made.
ghost use Rattle.std.specs.Prelude.{◌≡◌, ◌+◌, ◌≤◌, length};
ghost use Rattle.place.specs.Choice.{no_place};
ghost use Rattle.run.specs.State.{clock_most};
ghost use Rattle.run.specs.Slot.{choice_of};
ghost use Rattle.run.specs.Answer.{byte_of};
ghost use Rattle.run.specs.Run.{after_slots, choices_of};

use place::inner::choice::Held;
use place::inner::sound::Sound;
use run::inner::slot::counted;
use run::{CheckedState, State};

// 'one byte each, 0 to 15 or 255 for idle'. No `From<usize>`: which number is nobody's is known here alone.
#[tactic(auto, unfolding(run::specs::Slot::choice_of))]
fn byte_of(chosen: usize) -> u8
    requires { chosen ≤ no_place }
    ensures { result ≡ byte_of (choice_of chosen) }
{
    if chosen == Held::NO_PLACE {
        255
    } else {
        chosen as u8
    }
}

// Fills the buffer with the next choices, a slot for each byte, and returns the state after them.
// One pass over the places a slot: each is moved on, and the next slot's choice is found among
// those moved. The places stand in one local array, so that no state is copied in the loop:
// handed to a function and back they would be, and so the pass stands here, in the loop over a cycle and in
// `all_moved`.
#[tactic(auto, using(crate::proofs::FillLaws::pass_counts, crate::proofs::FillLaws::fill_chosen, crate::proofs::FillLaws::fill_totals))]
pub(crate) fn fill(checked: CheckedState, buf: &mut [u8]) -> State
    requires { checked.clock + length buf.old ≤ clock_most }
    ensures value { result ≡ after_slots checked (length buf.old) }
    ensures buf_after { buf.new ≡ choices_of checked (length buf.old) }
{
    let mut chosen = checked.choose();
    let state = checked.state;
    let setting = state.setting;
    let count = state.count;
    let mut places = state.places;
    let mut totals = state.totals;
    for byte in buf.iter_mut() {
        let mut best = Held::nobody();
        let mut tagged: u32 = 0;
        let mut short: u32 = 0;
        for i in 0..count {
            let place = places[i];
            let outcome = Sound { setting, place }.moved(i == chosen);
            let place = outcome.place;
            places[i] = place;
            tagged += outcome.tagged as u32;
            short += outcome.short as u32;
            best = best.better(i, Sound { setting, place });
        }
        *byte = byte_of(chosen);
        totals = counted(totals, chosen == Held::NO_PLACE, tagged, short);
        chosen = best.at;
    }
    State {
        clock: state.clock + (buf.len() as u32),
        places,
        totals,
        ..state
    }
}
