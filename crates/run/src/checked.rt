// A state that has passed `in_range`: what is computed of one asks for nothing more. It is made where
// the test stands and not by a `check` that answers a `Result`: so the compiled slot loop knows more of
// the setting, and takes up to a tenth less instructions.
use crate::state::State;
use std::marker::Model;

// In a clause it is the state.
#[derive(Clone, Copy)]
pub struct CheckedState {
    pub state: State,
}

impl Model for CheckedState {
    ghost use Rattle.run.specs.declared.state.State.{State};

    ghost Value = { State };

    ghost use Rattle.run.specs.Sound.{SoundState};

    ghost view = { λ c. c.state };

    ghost invariant = { λ c. SoundState c.state };

    ghost inverse = { λ s. record { state = s } };
}
