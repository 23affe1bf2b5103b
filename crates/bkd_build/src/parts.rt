//! What the build of a subtree gives, and how a leaf and two halves come to it.

ghost use Rattle.std.specs.Prelude.{◌≡◌, ◌≤◌, ◌<◌, length, OnOk, IfOk, map};
ghost use Rattle.point_codec.specs.Cells.{IsLeastCell};
ghost use Rattle.point_codec.specs.Seen.{items_of, region_of};

use crate::halves::Halving;
use byte_cursor::{Bytes, Memory};
use leaf_codec::encode_entries;
use point_codec::{Cell, Entry};
use std::alloc::Global;

/// The inner nodes of a subtree in preorder, and its leaves from left to right.
#[derive(Drop)]
pub(crate) struct BuiltSubtree<const D: usize> {
    /// The dimension and the value of each inner node's split.
    pub(crate) nodes: Vec<(u8, i32)>,
    /// How many bytes spell each leaf.
    pub(crate) lengths: Vec<u16>,
    /// The least cell round the entries of each leaf.
    pub(crate) cells: Vec<Cell<D>>,
    /// The bytes of each leaf.
    pub(crate) leaves: Vec<Bytes>,
}

impl<const D: usize> BuiltSubtree<D> {
    ghost use Rattle.std.specs.List.Sorted.{IsPermutation};
    ghost use Rattle.point_codec.specs.Seen.{items_of};
    ghost use Rattle.leaf_codec.specs.Leaves.{leaf_limit};
    ghost use Rattle.bkd_build.specs.Pieces.{AreEntries, AddsPieces, held_pieces, joined_pieces, no_pieces, one_node};

    /// A subtree with nothing in it, and with room for so many leaves and the nodes over them.
    pub(crate) fn with_room(alloc: Global, leaves: usize) -> Result<BuiltSubtree<D>, Memory>
        requires { (1 ≤ D) × (D ≤ 8) }
        ensures { IfOk result (λ part. held_pieces part ≡ no_pieces) }
    {
        let nodes = Vec::with_capacity(alloc, leaves)?;
        let lengths = Vec::with_capacity(alloc, leaves)?;
        let cells = Vec::with_capacity(alloc, leaves)?;
        let leaves = Vec::with_capacity(alloc, leaves)?;
        Ok(BuiltSubtree {
            nodes,
            lengths,
            cells,
            leaves,
        })
    }

    /// Adds an inner node, of which the dimension and the value of the split are kept.
    pub(crate) fn push_node(&mut self, node: &Halving<D>) -> Result<(), Memory>
        requires { (1 ≤ D) × (D ≤ 8) }
        ensures { OnOk result
            (held_pieces self.new ≡ joined_pieces (held_pieces self.old) (one_node node.now.dimension node.now.at)) }
    {
        self.nodes.push((node.dimension, node.at))?;
        Ok(())
    }

    /// Adds a leaf with these entries, which it puts in leaf order.
    pub(crate) fn push_leaf(
        &mut self,
        alloc: Global,
        entries: &mut [Entry<D>],
        leaf_size: usize,
    ) -> Result<(), Memory>
        requires dims { (1 ≤ D) × (D ≤ 8) }
        requires entries { AreEntries entries.old }
        requires leaf_size { leaf_size ≤ leaf_limit D }
        requires few { length entries.old ≤ leaf_size }
        ensures same { IsPermutation entries.old entries.new }
        ensures added { OnOk result
            (AddsPieces D leaf_size (items_of entries.old) (held_pieces self.old) (held_pieces self.new)) }
    {
        let bytes = encode_entries(alloc, entries)?;
        let cell = cell_round(entries);
        self.lengths.push(bytes.as_slice().len() as u16)?;
        self.cells.push(cell)?;
        self.leaves.push(bytes)?;
        Ok(())
    }

    /// Adds what the other subtree holds.
    pub(crate) fn append(&mut self, other: BuiltSubtree<D>) -> Result<(), Memory>
        requires { (1 ≤ D) × (D ≤ 8) }
        ensures { OnOk result (held_pieces self.new ≡ joined_pieces (held_pieces self.old) (held_pieces other.entry)) }
    {
        let BuiltSubtree {
            mut nodes,
            mut lengths,
            mut cells,
            mut leaves,
        } = other;
        self.nodes.append(&mut nodes)?;
        self.lengths.append(&mut lengths)?;
        self.cells.append(&mut cells)?;
        self.leaves.append(&mut leaves)?;
        Ok(())
    }
}

/// The least cell round the points of the entries.
pub(crate) fn cell_round<const D: usize>(entries: &[Entry<D>]) -> Cell<D>
    requires dims { (1 ≤ D) × (D ≤ 8) }
    requires some { 1 ≤ length entries.now }
    ensures { IsLeastCell (map (λ x. x.at) (items_of entries.now)) (region_of result) }
{
    match Cell::of(entries) {
        Some(cell) => cell,
        None => unreachable!(),
    }
}
