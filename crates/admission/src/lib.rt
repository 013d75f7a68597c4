// Whether a list can be promised no short window: its common cycle, its load, and the verdict.
#![tactic(auto)]

mod answer;
mod decide;
pub mod divisor;
pub mod inner;
mod lent;

pub use answer::{Admission, Admitted, amounts};
pub use decide::verdict;
pub use lent::{admit, admit_first};
