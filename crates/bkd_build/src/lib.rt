//! The bulk builder of a point index: the one canonical tree of some entries (after the bulk loading of the Bkd-tree by
//! Procopiuc, Agarwal, Arge and Vitter, and of the balanced block tree of Lucene's points).
//!
//! Entries have one canonical tree (`laws::one_canonical_tree`), so what is built of them depends on nothing else:
//! not on their order, and not on how many threads build it (`laws::one_build`).
#![tactic(auto)]

mod builder;
mod cuts;
mod extents;
mod gate;
mod halves;
mod laws;
mod parts;
mod tree;

pub use builder::{Built, build};
pub use cuts::cut;
pub use extents::widest;
pub use gate::{Gate, OpenGate};
pub use halves::{Halving, halve};
pub use laws::{built_leaves, one_build, one_canonical_tree};
