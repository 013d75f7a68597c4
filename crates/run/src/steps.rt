// Starting a run, and one slot of it, for every list, setting and state.
ghost use Rattle.std.specs.Prelude.{◌≡◌, Err};
ghost use Rattle.run.specs.State.{zeros};
ghost use Rattle.run.specs.Promise.{StartPromise, StepPromise};

use crate::answer::{Slot, Started};
use crate::checked::CheckedState;
use crate::state::State;
use job::{JobList, Refusal};
use place::Setting;

// 'A refused start gives the state of all zeros.'
fn not_started(refusal: Refusal) -> Started
    ensures { (result.answer ≡ Err refusal) × (result.state ≡ zeros) }
{
    Started {
        answer: Err(refusal),
        state: State::zeros(),
    }
}

// Tests 15, then 1 to 6.
pub fn start(list: JobList, setting: Setting) -> Started
    ensures { StartPromise list setting result }
{
    if !setting.allowed() {
        return not_started(Refusal::OrderOrModel);
    }
    match list.check() {
        Err(refusal) => not_started(refusal),
        Ok(_) => Started {
            answer: Ok(()),
            state: State::fresh(list, setting),
        },
    }
}

// Tests 10, 11. Refused, it leaves the state as it came.
pub fn step(state: &mut State) -> Result<Slot, Refusal>
    ensures { StepPromise state.old result state.new }
{
    if !state.in_range() {
        return Err(Refusal::StateOutOfRange);
    }
    if state.clock == State::CLOCK_MOST {
        return Err(Refusal::ClockAtLimit);
    }
    let turned = CheckedState { state: *state }.turn();
    *state = turned.state;
    Ok(turned.slot)
}
