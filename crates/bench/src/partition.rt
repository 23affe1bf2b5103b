//! Entries parted into the leaves of a tree.

ghost use Rattle.std.specs.Prelude.{◌≤◌, ◌^◌};
ghost use Rattle.point_codec.specs.Seen.{region_of};
ghost use Rattle.bkd_build.specs.Pieces.{AreEntries, AreEntriesIn};

use crate::builds::drawn;
use bkd_build::halve;
use leaf_codec::arrange;
use point_codec::{Cell, Entry};
use std::alloc::{AllocError, Global};

/// How many entries a leaf has.
const LEAF: usize = 333;

/// Parts the entries, which lie in the cell, into full leaves, each in leaf order; half of the leaves, rounded up, are
/// left of a split.
fn part(entries: &mut [Entry<2>], cell: &Cell<2>)
    requires { AreEntriesIn (region_of cell.now) entries.old }
{
    if entries.len() <= LEAF {
        arrange(entries);
        return;
    }
    let node = halve(entries, cell, LEAF);
    let (left, right) = entries.split_at_mut(node.rank);
    part(left, &node.low);
    part(right, &node.high);
}

/// Parts the entries within the least cell round their points. Where there are none nothing is done.
#[tactic(auto, using(bkd_build::proofs::Sides::cell_holds))]
fn part_all(entries: &mut [Entry<2>])
    requires { AreEntries entries.old }
{
    if let Some(cell) = Cell::of(entries) {
        part(entries, &cell);
    }
}

/// A sum over the entries in their order after `rounds` of drawing and, where `whole`, parting so many of them.
pub fn parted(alloc: Global, whole: bool, count: u32, rounds: u32) -> Result<u64, AllocError>
    requires some { 1 ≤ count }
    requires few { count ≤ 2 ^ 24 }
{
    let drawn = drawn(alloc, count)?;
    let mut sum: u64 = 0;
    for _ in 0..rounds {
        let mut entries = Vec::from_slice(alloc, drawn.as_slice())?;
        if whole {
            part_all(entries.as_mut_slice());
        }
        for entry in &entries {
            sum = sum.wrapping_mul(31).wrapping_add(u64::from(entry.doc));
        }
    }
    Ok(sum)
}
