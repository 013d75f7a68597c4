// The next choices of a run, written into the middle of a lent buffer.
#![tactic(auto)]

mod inner;
mod writer;

pub use writer::write;
