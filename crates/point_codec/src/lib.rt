//! Points of 1 to 8 whole numbers, the cells round them, and the keys by which their bytes are ordered.
//! No call of this crate takes memory.
#![tactic(auto)]

pub mod boxes;
pub mod coordinates;
pub mod entries;
pub mod keys;
pub mod names;

pub use boxes::{Cell, all_le};
pub use coordinates::{Point, Points};
pub use entries::{Entry, Near};
pub use keys::{from_sortable, key_order, sortable};
pub use names::{Name, View};

/// The greatest number of points that are ever given, and so of documents and of entries.
pub const MOST_POINTS: u32 = 1 << 24;
