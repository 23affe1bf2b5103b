//! Packing a tree into the bytes of form 3.
//!
//! Before the bytes of a left child stands the number of them, so the bytes are made from their end: each node behind
//! both of its children, the right one first, and each with its last byte first. All of them are turned once at the
//! end. So a node is written as soon as its parts are known, into one vector that is reserved once.

ghost use Rattle.std.specs.Prelude.{◌≡◌, ◌≤◌, ◌<◌, ◌+◌, ◌*◌, ◌^◌, ◌++◌, length, map, reverse, take, drop, All};
ghost use Rattle.inner_pack.specs.Heads.{placed_of};
ghost use Rattle.std.specs.Prelude.{IfOk, OnOk};
ghost use Rattle.point_codec.specs.Keys.{key};
ghost use Rattle.point_codec.specs.Seen.{region_of};
ghost use Rattle.inner_pack.specs.Places.{Spot, front, leaf_spans, leaf_begin, end_of};
ghost use Rattle.inner_pack.specs.Trees.{IndexTree};
ghost use Rattle.inner_pack.specs.Bodies.{body_bytes, head_bytes, leaf_bytes, node_bytes};
ghost use Rattle.inner_pack.specs.Packs.{end_at, AppendsReversed, IsSubtree};

use crate::cells::put_cell;
use crate::fields::shared_length;
use crate::index::{Index, keys_of};
use crate::place::{LeafPlace, PAYLOAD};
use byte_cursor::{Memory, put_slice, put_u8, put_vint};
use point_codec::{Cell, sortable};
use std::alloc::Global;

impl<const D: usize> Index<D> {
    ghost use Rattle.std.specs.Prelude.{◌≡◌, length, IfOk};
    ghost use Rattle.inner_pack.specs.Trees.{IndexTree};
    ghost use Rattle.inner_pack.specs.Bodies.{HasTree, IsSpelled};
    ghost use Rattle.inner_pack.specs.Parts.{AreParts, ArePartsOf};

    /// The index of form 3 with this root cell, these inner nodes in preorder as the dimension and the value of their
    /// split, and the lengths and own cells of its leaves from left to right.
    pub fn pack(
        alloc: Global,
        root: Cell<D>,
        nodes: &[(u8, i32)],
        lengths: &[u16],
        cells: &[Cell<D>],
    ) -> Result<Index<D>, Memory>
        requires tree { AreParts D (region_of root) nodes.now lengths.now cells.now }
        ensures packed { (t : IndexTree) → ArePartsOf D (region_of root.entry) nodes.now lengths.now cells.now t
            → IfOk result (λ i. (i.form ≡ 3) × (i.leaves ≡ length lengths.now) × HasTree D i (region_of root.entry) t) }
        ensures spelled { IfOk result (λ i. IsSpelled D i) }
    {
        let layout = Layout::of(alloc, lengths)?;
        let whole = Subtree {
            nodes,
            places: layout.places.as_slice(),
            cells,
        };
        let bytes = body_of(alloc, &root, whole)?;
        Ok(Index::of_parts(3, lengths.len() as u32, layout.pages, root, bytes))
    }
}

/// The bytes of a body of form 3: the root cell, and the node with all below it.
fn body_of<const D: usize>(
    alloc: Global,
    root: &Cell<D>,
    whole: Subtree<'_, D>,
) -> Result<Vec<u8>, Memory>
    requires { length whole.places.now ≤ 8388608 }
    ensures { (t : IndexTree) → IsSubtree D front whole.entry.nodes.now whole.entry.places.now whole.entry.cells.now t
        → IfOk result (λ b. b.items ≡ body_bytes 3 (region_of root.now) t) }
{
    let mut out = Vec::with_capacity(alloc, room(whole.places.len(), D))?;
    put_node(&mut out, keys_of(&root.lo), whole)?;
    let from = out.len();
    put_cell(&mut out, root)?;
    reverse_from(&mut out, from);
    reverse_from(&mut out, 0);
    Ok(out)
}

/// As many bytes as a body takes at most.
fn room(leaves: usize, dims: usize) -> usize
    requires leaves { leaves ≤ 8388608 }
    requires dims { dims ≤ 8 }
{
    // Each leaf has a length of at most two bytes and its own cell. Each inner node has a code, four bytes of a key,
    // a number of pages below 2^28, an offset below 2^14, and the length of its left child.
    8 * dims + leaves * (2 + 8 * dims + 1 + 4 + 4 + 2 + 5)
}

/// The places of some leaves.
#[derive(Debug, Drop)]
struct Layout {
    /// One for each leaf, from left to right.
    places: Vec<LeafPlace>,
    /// How many leaf pages they take.
    pages: u32,
}

impl Layout {
    /// Where leaves of these lengths stand, one behind the other and none over the end of a page.
    fn of(alloc: Global, lengths: &[u16]) -> Result<Layout, Memory>
        requires few { length lengths.now ≤ 8388608 }
        requires lengths { All (λ length. (1 ≤ length) × (length ≤ 4064)) lengths.now }
        ensures places { IfOk result (λ l. map placed_of l.places.items ≡ leaf_spans front lengths.now) }
        ensures pages { IfOk result (λ l. l.pages ≡ (end_of front lengths.now).page + 1) }
    {
        let mut places = Vec::with_capacity(alloc, lengths.len())?;
        let mut last = LeafPlace {
            page: 0,
            offset: 0,
            length: 0,
        };
        for size in lengths {
            last = next(&last, *size);
            places.push(last)?;
        }
        Ok(Layout {
            places,
            pages: last.page + 1,
        })
    }
}

/// The place of a leaf of so many bytes that comes next behind another one.
fn next(last: &LeafPlace, size: u16) -> LeafPlace
    requires size { size ≤ 4064 }
    requires within { last.now.offset + last.now.length ≤ 4064 }
    requires page { last.now.page < 8388608 }
    ensures begin { (placed_of result).at ≡ leaf_begin (end_at last.now) size }
    ensures size { result.length ≡ size }
    ensures within { result.offset + result.length ≤ 4064 }
    ensures page { result.page ≤ last.now.page + 1 }
{
    let offset = last.offset + last.length;
    if offset + size <= PAYLOAD {
        LeafPlace {
            page: last.page,
            offset,
            length: size,
        }
    } else {
        LeafPlace {
            page: last.page + 1,
            offset: 0,
            length: size,
        }
    }
}

/// What an inner node says before its children.
#[derive(Clone, Copy, Debug)]
struct HeadFields {
    dimension: u8,
    at: i32,
    /// How many pages further than its own first leaf that of the right child begins.
    pages: u32,
    /// At which offset it begins.
    offset: u16,
    /// How many bytes spell the left child.
    left: u32,
}

/// The parts of a node with all below it: its inner nodes in preorder, and the places and own cells of its leaves.
#[derive(Clone, Copy)]
struct Subtree<'a, const D: usize> {
    nodes: &'a [(u8, i32)],
    places: &'a [LeafPlace],
    cells: &'a [Cell<D>],
    ghost dims: { D ≤ 8 },
    ghost dimensions: { All (λ node. node.0 < D) nodes.now },
    ghost lengths: { All (λ place. place.length ≤ 4064) places.now },
    ghost many_nodes: { length nodes.now + 1 ≡ length places.now },
    ghost many_cells: { length cells.now ≡ length places.now },
}

impl<'a, const D: usize> Subtree<'a, D> {
    ghost use Rattle.std.specs.Prelude.{◌≡◌, ◌≤◌, ◌<◌, ◌+◌, length};
    ghost use Rattle.inner_pack.specs.PackedParts.{AreChildParts};

    /// Those of the left and of the right child.
    fn children(&self) -> (Subtree<'a, D>, Subtree<'a, D>)
        requires { 2 ≤ length self.now.places.now }
        ensures are { AreChildParts self.now result.0 result.1 }
        ensures left { length result.0.places.now < length self.now.places.now }
        ensures right { length result.1.places.now < length self.now.places.now }
        ensures sum { length result.0.places.now + length result.1.places.now ≡ length self.now.places.now }
    {
        let left = self.places.len() - self.places.len() / 2;
        (
            Subtree {
                nodes: &self.nodes[1..left],
                places: &self.places[..left],
                cells: &self.cells[..left],
            },
            Subtree {
                nodes: &self.nodes[left..],
                places: &self.places[left..],
                cells: &self.cells[left..],
            },
        )
    }
}

/// Appends the bytes of a node, the last one first. The references are the keys of the last split in each dimension
/// on the path from the root, and of the root cell where there is none.
fn put_node<const D: usize>(
    out: &mut Vec<u8>,
    references: [[u8; 4]; D],
    part: Subtree<'_, D>,
) -> Result<(), Memory>
    requires { length out.old.items + 89 * length part.places.now < 2 ^ 32 }
    ensures spelled { (s : Spot) (t : IndexTree)
        → IsSubtree D s part.entry.nodes.now part.entry.places.now part.entry.cells.now t
        → OnOk result (AppendsReversed out.old.items out.new.items (node_bytes 3 references.entry s t)) }
    ensures more { OnOk result (length out.old.items ≤ length out.new.items) }
    ensures room { OnOk result (length out.new.items + 20 ≤ length out.old.items + 89 * length part.entry.places.now) }
{
    if part.places.len() < 2 {
        put_leaf(out, part.places[0].length, &part.cells[0])?;
        return Ok(());
    }
    let (left, right) = part.children();
    let (dimension, at) = part.nodes[0];
    let mut below = references;
    below[dimension as usize] = sortable(at);
    put_node(out, below, right)?;
    let before = out.len();
    put_node(out, below, left)?;
    let head = HeadFields {
        dimension,
        at,
        // not below 0, since the pages of leaves in order ascend
        pages: right.places[0].page.saturating_sub(part.places[0].page),
        offset: right.places[0].offset,
        left: (out.len() - before) as u32,
    };
    put_head(out, &references, &head)?;
    Ok(())
}

/// Appends what an inner node says before its children, the last byte first.
fn put_head<const D: usize>(
    out: &mut Vec<u8>,
    references: &[[u8; 4]; D],
    head: &HeadFields,
) -> Result<(), Memory>
    requires dims { D ≤ 8 }
    requires dimension { head.now.dimension < D }
    ensures spelled { OnOk result (AppendsReversed out.old.items out.new.items
        (head_bytes references.now head.now.dimension head.now.at head.now.pages head.now.offset head.now.left)) }
    ensures more { OnOk result (length out.old.items ≤ length out.new.items) }
    ensures room { OnOk result (length out.new.items ≤ length out.old.items + 20) }
{
    let from = out.len();
    let key = sortable(head.at);
    let shared = shared_length(key, references[head.dimension as usize]);
    put_u8(out, 5 * head.dimension + shared as u8)?;
    put_slice(out, &key[shared..])?;
    put_vint(out, head.pages)?;
    put_vint(out, u32::from(head.offset))?;
    put_vint(out, head.left)?;
    reverse_from(out, from);
    Ok(())
}

/// Appends the length and the own cell of a leaf, the last byte first.
fn put_leaf<const D: usize>(out: &mut Vec<u8>, size: u16, own: &Cell<D>) -> Result<(), Memory>
    requires { size ≤ 4064 }
    ensures spelled { OnOk result
        (AppendsReversed out.old.items out.new.items (leaf_bytes 3 size (region_of own.now))) }
    ensures more { OnOk result (length out.old.items ≤ length out.new.items) }
    ensures room { OnOk result (length out.new.items ≤ length out.old.items + 69) }
{
    let from = out.len();
    put_vint(out, u32::from(size))?;
    put_cell(out, own)?;
    reverse_from(out, from);
    Ok(())
}

/// Turns the order of the bytes from there on.
fn reverse_from(out: &mut Vec<u8>, from: usize)
    requires { from ≤ length out.old.items }
    ensures { out.new.items ≡ take from out.old.items ++ reverse (drop from out.old.items) }
{
    out[from..].reverse();
}
