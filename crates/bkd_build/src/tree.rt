//! The recursion over the tree, by one thread or several.

ghost use Rattle.std.specs.Prelude.{◌≡◌, ◌≤◌, ◌<◌, OnOk, IfOk};
ghost use Rattle.std.specs.List.Sorted.{IsPermutation};
ghost use Rattle.std.specs.Thread.{IsSync};
ghost use Rattle.point_codec.specs.Seen.{items_of, region_of};
ghost use Rattle.leaf_codec.specs.Leaves.{leaf_limit};
ghost use Rattle.bkd_build.specs.Pieces.{AreEntriesIn, AddsPieces, AddsBoth, held_pieces, joined_pieces, no_pieces};
ghost use Rattle.bkd_build.specs.Pieces.{one_node};

use crate::gate::Gate;
use crate::halves::{Halving, halve};
use crate::parts::BuiltSubtree;
use byte_cursor::Memory;
use point_codec::{Cell, Entry};
use std::alloc::Global;
use std::marker::Sync;
use std::thread::{Threads, join_mut};

/// Adds the tree of the entries, which lie in the cell, to the part.
#[cycle(sequence)]
fn grow<const D: usize>(
    alloc: Global,
    entries: &mut [Entry<D>],
    cell: &Cell<D>,
    leaf_size: usize,
    part: &mut BuiltSubtree<D>,
) -> Result<(), Memory>
    requires dims { (1 ≤ D) × (D ≤ 8) }
    requires leaf_size { (1 ≤ leaf_size) × (leaf_size ≤ leaf_limit D) }
    requires entries { AreEntriesIn (region_of cell.now) entries.old }
    ensures same { IsPermutation entries.old entries.new }
    ensures added { OnOk result
        (AddsPieces D leaf_size (items_of entries.old) (held_pieces part.old) (held_pieces part.new)) }
{
    if entries.len() <= leaf_size {
        return part.push_leaf(alloc, entries, leaf_size);
    }
    let node = halve(entries, cell, leaf_size);
    part.push_node(&node)?;
    let (left, right) = entries.split_at_mut(node.rank);
    grow_halves(alloc, left, right, &node, leaf_size, part)?;
    Ok(())
}

/// Adds the trees of both halves of a node to the part, the left one first.
#[cycle(sequence)]
fn grow_halves<const D: usize>(
    alloc: Global,
    left: &mut [Entry<D>],
    right: &mut [Entry<D>],
    node: &Halving<D>,
    leaf_size: usize,
    part: &mut BuiltSubtree<D>,
) -> Result<(), Memory>
    requires dims { (1 ≤ D) × (D ≤ 8) }
    requires leaf_size { (1 ≤ leaf_size) × (leaf_size ≤ leaf_limit D) }
    requires left { AreEntriesIn (region_of node.now.low) left.old }
    requires right { AreEntriesIn (region_of node.now.high) right.old }
    ensures left_same { IsPermutation left.old left.new }
    ensures right_same { IsPermutation right.old right.new }
    ensures added { OnOk result
        (AddsBoth D leaf_size (items_of left.old) (items_of right.old) (held_pieces part.old) (held_pieces part.new)) }
{
    grow(alloc, left, &node.low, leaf_size, part)?;
    grow(alloc, right, &node.high, leaf_size, part)?;
    Ok(())
}

/// The tree of the entries, which lie in the cell, built in the caller's thread.
fn grown<const D: usize>(
    alloc: Global,
    entries: &mut [Entry<D>],
    cell: &Cell<D>,
    leaf_size: usize,
) -> Result<BuiltSubtree<D>, Memory>
    requires dims { (1 ≤ D) × (D ≤ 8) }
    requires leaf_size { (1 ≤ leaf_size) × (leaf_size ≤ leaf_limit D) }
    requires entries { AreEntriesIn (region_of cell.now) entries.old }
    ensures same { IsPermutation entries.old entries.new }
    ensures built { IfOk result (λ part. AddsPieces D leaf_size (items_of entries.old) no_pieces (held_pieces part)) }
{
    let mut part = BuiltSubtree::with_room(alloc, entries.len().div_ceil(leaf_size))?;
    grow(alloc, entries, cell, leaf_size, &mut part)?;
    Ok(part)
}

/// The tree of an inner node, from those of its halves.
fn over<const D: usize>(
    alloc: Global,
    node: &Halving<D>,
    left: BuiltSubtree<D>,
    right: BuiltSubtree<D>,
) -> Result<BuiltSubtree<D>, Memory>
    requires { (1 ≤ D) × (D ≤ 8) }
    ensures { IfOk result
        (λ part. held_pieces part ≡ joined_pieces
        (joined_pieces (one_node node.now.dimension node.now.at) (held_pieces left.entry)) (held_pieces right.entry)) }
{
    let mut part = BuiltSubtree::with_room(alloc, left.leaves.len() + right.leaves.len())?;
    part.push_node(node)?;
    part.append(left)?;
    part.append(right)?;
    Ok(part)
}

/// The tree of the entries, which lie in the cell. The halves of the nodes of its upper `forks` levels are built
/// beside each other.
#[cycle(parts)]
pub(crate) fn build_part<const D: usize, R: Threads + Sync, G: Gate>(
    rt: &R,
    alloc: Global,
    entries: &mut [Entry<D>],
    cell: &Cell<D>,
    leaf_size: usize,
    forks: u8,
    gate: &G,
) -> Result<BuiltSubtree<D>, Memory>
    requires dims { (1 ≤ D) × (D ≤ 8) }
    requires leaf_size { (1 ≤ leaf_size) × (leaf_size ≤ leaf_limit D) }
    requires entries { AreEntriesIn (region_of cell.now) entries.old }
    ensures same { IsPermutation entries.old entries.new }
    ensures built { IfOk result (λ part. AddsPieces D leaf_size (items_of entries.old) no_pieces (held_pieces part)) }
{
    if forks == 0 || entries.len() <= leaf_size {
        return grown(alloc, entries, cell, leaf_size);
    }
    let node = halve(entries, cell, leaf_size);
    let (left, right) = entries.split_at_mut(node.rank);
    let (first, second) = both(rt, alloc, left, right, &node, leaf_size, forks, gate);
    let first = first?;
    let second = second?;
    let part = over(alloc, &node, first, second)?;
    Ok(part)
}

/// The trees of both halves, built beside each other.
#[cycle(parts)]
fn both<const D: usize, R: Threads + Sync, G: Gate>(
    rt: &R,
    alloc: Global,
    left: &mut [Entry<D>],
    right: &mut [Entry<D>],
    node: &Halving<D>,
    leaf_size: usize,
    forks: u8,
    gate: &G,
) -> (
    Result<BuiltSubtree<D>, Memory>,
    Result<BuiltSubtree<D>, Memory>,
)
    requires dims { (1 ≤ D) × (D ≤ 8) }
    requires leaf_size { (1 ≤ leaf_size) × (leaf_size ≤ leaf_limit D) }
    requires forks { 0 < forks }
    requires left { AreEntriesIn (region_of node.now.low) left.old }
    requires right { AreEntriesIn (region_of node.now.high) right.old }
    ensures left_same { IsPermutation left.old left.new }
    ensures right_same { IsPermutation right.old right.new }
    ensures left_built { IfOk result.0
        (λ part. AddsPieces D leaf_size (items_of left.old) no_pieces (held_pieces part)) }
    ensures right_built { IfOk result.1
        (λ part. AddsPieces D leaf_size (items_of right.old) no_pieces (held_pieces part)) }
{
    let mut first = || -> Result<BuiltSubtree<D>, Memory>
        requires { IsSync R.row × IsSync G.row × (0 < forks) × (1 ≤ D) × (D ≤ 8) × (1 ≤ leaf_size)
            × (leaf_size ≤ leaf_limit D)
            × AreEntriesIn (region_of node.now.low) left.now }
        ensures same { IsPermutation left.entry.now left.exit.now }
        ensures built { IfOk result
            (λ part. AddsPieces D leaf_size (items_of left.entry.now) no_pieces (held_pieces part)) }
    {
        gate.pass(0);
        build_part(rt, alloc, left, &node.low, leaf_size, forks - 1, gate)
    };
    let mut second = || -> Result<BuiltSubtree<D>, Memory>
        requires { IsSync R.row × IsSync G.row × (0 < forks) × (1 ≤ D) × (D ≤ 8) × (1 ≤ leaf_size)
            × (leaf_size ≤ leaf_limit D)
            × AreEntriesIn (region_of node.now.high) right.now }
        ensures same { IsPermutation right.entry.now right.exit.now }
        ensures built { IfOk result
            (λ part. AddsPieces D leaf_size (items_of right.entry.now) no_pieces (held_pieces part)) }
    {
        gate.pass(1);
        build_part(rt, alloc, right, &node.high, leaf_size, forks - 1, gate)
    };
    join_mut(rt, &mut first, &mut second)
}
