// One slot behind a range check already made: what `step` does, and what a writer of many slots
// calls with the check made once. Each is a method of a checked state.
pub mod choice;
pub mod slot;
