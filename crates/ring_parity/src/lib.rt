//! Polygons as rings of edges in the plane, and the even-odd rule for points and cells.
//!
//! A point is in a polygon where it is on one of the edges, or where an odd number of edges crosses the ray that runs
//! from it to the east. A cell that no edge meets lies whole in the polygon or whole out of it: `any_meets` promises
//! that for any closed rings, which may cross themselves, repeat positions and have level edges. No call of this
//! crate takes memory.
#![tactic(auto)]

pub mod edges;
pub mod rings;

pub use edges::{Edge, Incidence, counts, incidence_of, misses, on_edge};
pub use rings::{Ring, RingFault, Rings, any_meets, odd, on_any};
