//! The walk over a segment: which live documents a shape has.
//!
//! A cell that the shape doesn't cross is taken or left whole; only in a leaf whose own cell is crossed live entries
//! are tested (Apache Lucene's `IntersectVisitor`), and of those only the ones that the shape reaches in the dimension
//! by which the leaf is sorted. How often the shape is asked and how many pages are read is bounded by the index alone.
#![tactic(auto)]

mod costs;
mod crossed;
mod inside;
mod walk;

pub use costs::{Tally, survey};
pub use walk::{Cost, intersect};
