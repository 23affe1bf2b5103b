//! The edges of a polygon under a tree of boxes, so that a point or a small cell looks at few of them.
//!
//! The edges stand in ring order, cut into short runs; a leaf of the tree holds one run, and the leaves are in order
//! by place, whatever the order of the rings. A node tells of the edges below it the box that they lie in and, where
//! one climb can tell it, past which heights an odd number of them leads. A ray to the east that ends within a box
//! has to look within; one that passes the whole box is told by the climb. The answers are those of the plain list of
//! edges. No query takes memory.
#![tactic(auto)]

pub mod level;
pub mod locator;
pub mod nodes;
pub mod outline;
pub mod quarters;
pub mod runs;
pub mod tree;

pub use locator::Locator;
pub use outline::Bounds;
pub use tree::EdgeTree;
