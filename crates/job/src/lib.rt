// What a club member writes down: a job, a list of them, and the one numbered refusal that is
// the answer wherever a number is not allowed.
#![tactic(auto)]

mod checked;
mod list;
mod record;
mod refusal;

pub use checked::{CheckedJob, CheckedList};
pub use list::JobList;
pub use record::Job;
pub use refusal::{Refusal, number_of};
