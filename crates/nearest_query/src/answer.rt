//! What a search for the nearest answers.

use point_codec::Near;

/// The numbers found, and how much the search for them touched.
#[derive(Debug, Drop)]
pub struct Nearest {
    /// The numbers, the nearest first, each with the least squared distance of its entries.
    pub docs: Vec<Near>,
    /// How many leaves have a cell whose least squared distance from the point is at most that of the last number
    /// found; all leaves, where fewer numbers were found than were asked for. Leaves without a live entry count too.
    pub touched: u64,
}
