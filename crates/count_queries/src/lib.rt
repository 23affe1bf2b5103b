//! Lines that count: how many live points lie in a box, and how many in each bucket of a grid, over the index that a
//! folder stores. It is opened without a set, since nothing is changed. Nothing is stored.
#![tactic(auto)]

mod answers;
mod counting;
mod lines;
mod run;
mod texts;
mod wanted;

pub use lines::{CountFault, CountLine, read_count_line};
pub use run::run_count;
