// One slot of one place, behind a range check already made, and that check. What asks for a sound
// place takes it as a `Sound`.
pub mod choice;
pub mod range;
pub mod service;
pub mod sound;
