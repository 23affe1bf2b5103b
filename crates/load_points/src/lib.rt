//! Loading a CSV file: its columns are the dimensions, and all points are added and committed at once, or none is.
#![tactic(auto)]

mod loader;
mod refusals;
mod texts;

pub use loader::load;
