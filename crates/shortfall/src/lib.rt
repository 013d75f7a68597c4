// Which jobs of a list fall below their stated part, and how often: the answer of one cycle, which
// is the answer for all time.
#![tactic(auto)]

mod answer;
mod inner;
mod judge;

pub use answer::{Below, Judgement};
pub use judge::shortfall;
