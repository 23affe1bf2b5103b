//! Segments as they are built: in memory, and written when their turn comes.
//!
//! What is written of some entries depends on nothing but these, the leaf size and the segment's id: the file is that
//! of their canonical tree (`laws::one_canonical_index`).
#![tactic(auto)]

mod build;
mod laws;
mod segment;

pub use build::build_segment;
pub use laws::{
    all_live_all_entries, no_live_no_entries, one_canonical_index, one_list_of_entries,
};
pub use segment::NewSegment;
