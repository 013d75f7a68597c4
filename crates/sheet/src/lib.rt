// The text sheet: a setting, a slot count and a list of jobs, or the refusal with its place.
#![tactic(auto)]

mod reader;
mod reading;

pub use reading::{Sheet, read};
