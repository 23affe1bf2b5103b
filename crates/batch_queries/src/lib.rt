//! Lines of queries, answered as one batch from a resident copy of the index that a folder stores. The lines are those
//! of a script. All is answered before anything is written. `run_batch` stores nothing; `run_merging_batch` merges the
//! segments beside the answering.
#![tactic(auto)]

mod asking;
mod begun;
mod both;
mod merge_batch;
mod run;
mod telling;

pub use both::beside;
pub use merge_batch::run_merging_batch;
pub use run::run_batch;

/// The error of a call for which no memory could be had.
pub(crate) type Memory = std::alloc::AllocError;
