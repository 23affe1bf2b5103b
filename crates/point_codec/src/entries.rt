//! An entry of the index, and a found document with its distance.

use crate::coordinates::Point;

/// A point of a document: the document's number, and the point.
#[derive(Clone, Copy, PartialEq, Eq, Debug)]
pub struct Entry<const D: usize> {
    pub doc: u32,
    pub point: Point<D>,
}

/// A found document, with the least squared distance of its points. They are in order of distance, and where that is
/// equal of number.
#[derive(Clone, Copy, PartialEq, Eq, PartialOrd, Ord, Debug)]
pub struct Near {
    pub dist2: u128,
    pub doc: u32,
}
