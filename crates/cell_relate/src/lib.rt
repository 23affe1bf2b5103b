//! How a cell of a tree lies to a shape: whole inside it, whole outside, or crossed by its edge.
//!
//! A walk over a tree asks a shape for cells first and for single points only in the leaves that the shape crosses
//! (Apache Lucene's `IntersectVisitor`). No call of this crate takes memory.
#![tactic(auto)]

pub mod box_shape;
mod laws;
pub mod shape;

pub use box_shape::BoxShape;
pub use laws::corner_tells_outside;
pub use shape::{Relation, Shape};
