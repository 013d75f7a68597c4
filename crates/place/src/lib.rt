// A job's place in a run: how far its window has come, what one slot makes of it, and how near its
// deadline is.
#![tactic(auto)]

pub mod inner;
mod record;
mod setting;

pub use record::{Place, Progress};
pub use setting::Setting;
