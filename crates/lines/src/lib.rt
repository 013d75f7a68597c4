// The lines that `slots` and `below` print, each given by one function. A line is never an `impl Display`:
// `fmt` promises its bytes only where it answers Ok, and these functions cannot fail.
#![tactic(auto)]

mod answer;
mod below;
mod parts;
mod refused;
mod slot;
mod summary;

pub use answer::answer_line;
pub use below::{fallen_line, job_line};
pub use refused::refusal_line;
pub use slot::slot_line;
pub use summary::{admission_line, totals_line};

// Room for the longest line.
pub type Line = text::Text<192>;
