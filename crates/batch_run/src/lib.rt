//! Batches of queries, answered by forks from a resident copy of an index.
//!
//! A `Resident` is loaded once: its files are in memory, and each leaf of them was verified. It never changes, so that
//! many threads share it. `batch` answers a list of queries from it, and the replies are the same for every number of
//! forks.
#![tactic(auto)]

mod answers;
mod batches;
mod copying;
mod loading;
mod pages;
mod queries;
mod resident;

pub use batches::batch;
pub use queries::{Docs, Nears, Query, Reply};
pub use resident::Resident;

/// The error of a call for which no memory could be had.
pub type Memory = std::alloc::AllocError;
