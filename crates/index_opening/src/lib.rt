//! Opening the index that a commit lists: the heads, indexes and live bits of its segments, and whether each live
//! number stands where it may. No leaf is read. What a damage shows of a folder's files is said here too
//! (`specs/Evidence`).
#![tactic(auto)]

mod laws;
mod listed_index;
mod opening;

pub use laws::{unequal_needs_a_commit, whole_is_undamaged};
pub use listed_index::open_index;
pub use opening::{check_numbers, open_all};
