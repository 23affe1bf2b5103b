//! What a run works on, as one value, and the loop over the lines of its input. What answers a line is a trait.
#![tactic(auto)]

mod ends;
mod lines;

pub use ends::{Outside, World};
pub use lines::{Answers, run_lines};
