//! Counts of points in a box, and grids of such counts, over segments with their live bits and a buffer of entries.
//!
//! A segment is clean where it has as many live numbers as entries. Of such a segment a subtree whose cell lies in one
//! bucket is one addition, since how many entries it has follows from its first leaf, its leaves and the head; so only
//! leaves are read in which the box's edge or that of a bucket runs. In other segments each leaf that isn't outside is
//! read, and none where no number is live.
#![tactic(auto)]

mod laws;
mod leaf;
mod plan;
mod queries;
mod runs;
mod sorting;
mod tallies;
mod walk;

pub use laws::clean_segments_are_live;
pub use plan::{Bucket, GridFault, GridPlan};
pub use queries::{count, grid};
