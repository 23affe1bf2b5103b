//! The points that `generate` draws, and the index that it makes of them.
#![tactic(auto)]

mod draws;
mod laws;

pub use draws::Draws;
pub use laws::{documents_added, documents_deleted, index_made, sums_are_small};
