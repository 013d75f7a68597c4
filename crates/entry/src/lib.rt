// The three entries for ground tools in C, on numbers and byte slices, as include/filbertoss.h
// declares them; and two of them in any setting. Crate `entry_c` gives the three to C.
#![tactic(auto)]

mod admit;
mod answers;
mod filling;
mod jobs;

pub use admit::filbertoss_admit;
pub use answers::{below, filbertoss_below};
pub use filling::{filbertoss_fill, fill};
