//! The tree over the leaves of a segment, walked in place over its bytes.
//!
//! A body begins with the root cell. In form 1 two tables follow, of the inner nodes in preorder and of the leaves'
//! places. In the forms 2 and 3 the nodes follow, each packed against the last split of its dimension (after Lucene's
//! packed index of a block tree); in form 3 each leaf tells its own cell too. All three are read, form 3 is written.
//! The bytes are a function of the tree, and spell no other one (`one_tree`).
#![tactic(auto)]

mod cells;
mod check;
mod fields;
mod head;
mod index;
mod laws;
mod leaf;
mod node;
mod pack;
mod place;

pub use index::{Index, NotIndex};
pub use laws::{cells_nest, leaves_are_counted, one_tree, places_ascend};
pub use node::NodeAt;
pub use place::LeafPlace;
