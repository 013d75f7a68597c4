// What a slot and a start answer.
use crate::state::State;
use job::Refusal;

// 'the choice, a job or idle': an enum and no `Option`, as document 01 names the form
// (`told_choice`).
#[derive(Clone, Copy, Debug, PartialEq, Eq)]
pub enum Choice {
    Given(usize),
    Idle,
}

// 'The answer for a slot holds the choice, a job or idle, beside the set of jobs first tagged in
// their window and the set whose window ended short': bit j of a mask is job j.
#[derive(Clone, Copy, Debug, PartialEq, Eq)]
pub struct Slot {
    pub choice: Choice,
    pub tags: u16,
    pub shorts: u16,
}

// 'A refused start gives the state of all zeros' (`StartAnswers`): it stands beside the answer.
#[derive(Clone, Copy)]
pub struct Started {
    pub answer: Result<(), Refusal>,
    pub state: State,
}
