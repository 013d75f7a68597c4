// The timetable writer, for every state, buffer, offset and number of slots.
ghost use Rattle.timetable.specs.Promise.{WritePromise};

use crate::inner::fill;
use job::Refusal;
use run::{CheckedState, State};

// 'written from a stated offset of the caller's buffer'. Tests 10, 12, 11. Refused, it writes nothing and
// leaves the state as it came.
pub fn write(state: &mut State, buf: &mut [u8], offset: usize, n: usize) -> Result<(), Refusal>
    ensures { WritePromise state.old buf.old offset n result state.new buf.new }
{
    if !state.in_range() {
        return Err(Refusal::StateOutOfRange);
    }
    if buf.len() < offset {
        return Err(Refusal::BufferTooShort);
    }
    if buf.len() - offset < n {
        return Err(Refusal::BufferTooShort);
    }
    let slots_left = State::CLOCK_MOST - state.clock;
    if (slots_left as usize) < n {
        return Err(Refusal::ClockAtLimit);
    }
    let end = offset + n;
    *state = fill(CheckedState { state: *state }, &mut buf[offset..end]);
    Ok(())
}
