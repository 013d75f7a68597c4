// A run: its state, how it starts, and what one slot does to it, in both service models and both
// orders.
#![tactic(auto)]

mod answer;
mod checked;
pub mod inner;
mod range;
mod state;
mod steps;

pub use answer::{Choice, Slot, Started};
pub use checked::CheckedState;
pub use state::{State, Totals};
pub use steps::{start, step};
