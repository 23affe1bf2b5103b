//! Where an inner node is split.

ghost use Rattle.std.specs.Prelude.{◌≡◌, ◌≤◌, ◌<◌, length, take, drop};
ghost use Rattle.std.specs.List.Sorted.{IsPermutation};
ghost use Rattle.point_codec.specs.Seen.{items_of, region_of};
ghost use Rattle.bkd_build.specs.Canon.{left_count, IsCanonSplit};
ghost use Rattle.bkd_build.specs.Pieces.{AreEntriesIn};

use crate::cuts::cut;
use crate::extents::widest;
use point_codec::{Cell, Entry};

/// The split of an inner node, how many of its entries go left, and a cell round those of each half.
#[derive(Clone, Copy, Debug)]
pub struct Halving<const D: usize> {
    pub dimension: u8,
    pub at: i32,
    pub rank: usize,
    pub low: Cell<D>,
    pub high: Cell<D>,
}

/// Puts the entries of the left half of an inner node in front, and those of the right half behind them. All of them
/// lie in the cell. Takes no memory.
pub fn halve<const D: usize>(
    entries: &mut [Entry<D>],
    cell: &Cell<D>,
    leaf_size: usize,
) -> Halving<D>
    requires dims { (1 ≤ D) × (D ≤ 8) }
    requires leaf_size { 1 ≤ leaf_size }
    requires many { leaf_size < length entries.old }
    requires entries { AreEntriesIn (region_of cell.now) entries.old }
    ensures same { IsPermutation entries.old entries.new }
    ensures lefts { AreEntriesIn (region_of result.low) (take result.rank entries.new) }
    ensures rights { AreEntriesIn (region_of result.high) (drop result.rank entries.new) }
    ensures split { IsCanonSplit D leaf_size result.dimension result.at (items_of (take result.rank entries.new))
        (items_of (drop result.rank entries.new)) }
    ensures left { 1 ≤ result.rank }
    ensures right { result.rank < length entries.old }
{
    let mut round = *cell;
    let dimension = widest(entries, &mut round);
    let rank = left_count(entries.len(), leaf_size);
    let at = cut(entries, dimension, rank);
    let (low, high) = round.split(dimension, at);
    Halving {
        dimension: dimension as u8,
        at,
        rank,
        low,
        high,
    }
}

/// How many of the entries of an inner node go left: half of the leaves, where their number is odd one more, all of
/// them full.
fn left_count(count: usize, leaf_size: usize) -> usize
    requires leaf_size { 1 ≤ leaf_size }
    requires many { leaf_size < count }
    ensures value { result ≡ left_count leaf_size count }
    ensures left { 1 ≤ result }
    ensures right { result < count }
{
    let leaves = count.div_ceil(leaf_size);
    (leaves - leaves / 2) * leaf_size
}
