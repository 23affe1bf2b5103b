//! What runs that were stopped have left in a folder, and how it is taken away.
#![tactic(auto)]

mod left;

pub use left::take_away;
