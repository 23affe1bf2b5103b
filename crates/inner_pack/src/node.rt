//! A node, read in place.

ghost use Rattle.std.specs.Prelude.{◌≡◌, ◌≤◌, ◌<◌, ◌↔◌, ◌+◌, ◌-◌, ◌/◌, ℕ, List, IfSome, IsNone, IsSome};
ghost use Rattle.point_codec.specs.Points.{Region};
ghost use Rattle.point_codec.specs.Seen.{region_of};
ghost use Rattle.inner_pack.specs.Places.{Spot, spot_at};
ghost use Rattle.inner_pack.specs.Trees.{IndexTree, IsInCell, leaf_count, cell_of};
ghost use Rattle.inner_pack.specs.Spelled.{IsNodeOf, IsSomeNode, IsSomeTree, IsSomeLeaf};

use crate::check::with_key;
use crate::fields::{is_cell, take_place};
use crate::head::{Head, NodeBytes, read_head};
use crate::leaf::{packed_leaf, take_length};
use crate::place::{LeafPlace, Mark};
use point_codec::Cell;

/// A node of an index, which borrows the bytes that spell it: a walk copies no byte and takes no memory.
#[derive(Clone, Copy, Debug)]
pub struct NodeAt<'a, const D: usize> {
    pub(crate) form: u8,
    /// How many leaves are below the node, or 1 at a leaf.
    pub(crate) leaves: u32,
    /// Which of the leaves in order is its first one.
    pub(crate) first: u32,
    /// The leaf page in which that leaf begins, and its offset in the payload.
    pub(crate) page: u32,
    pub(crate) offset: u16,
    /// Of a leaf its own cell, of an inner node the root cell as the splits on the way cut it.
    pub(crate) cell: Cell<D>,
    /// The key of the last split in each dimension on the way from the root, and of the root cell where there is none.
    pub(crate) references: [[u8; 4]; D],
    /// The bytes of the node with all below it; in form 1 its part of the table of inner nodes.
    pub(crate) bytes: &'a [u8],
    /// In form 1 its part of the table of places.
    pub(crate) places: &'a [u8],
    pub(crate) ghost some: { ∥ IsSomeNode D form leaves (spot_at page offset) (region_of cell)
        references bytes.now places.now ∥₁ },
    pub(crate) ghost numbered: { (1 ≤ leaves) × (first + leaves ≤ 8388608) × (page ≤ first) },
}

impl<'a, const D: usize> NodeAt<'a, D> {
    ghost use Rattle.inner_pack.specs.Nodes.{IsAt, AreChildren, IsPlaceOf};
    ghost use Rattle.inner_pack.specs.Bodies.{first_length};
    ghost use Rattle.inner_pack.specs.Heads.{SaysTree, spot_of};

    /// The cell in which all entries below the node lie: of an inner node its path cell, of a leaf its own.
    pub fn cell(&self) -> Cell<D>
        ensures { (first : ℕ) (s : Spot) (path : Region) (t : IndexTree) → IsAt self.now first s path t
            → region_of result ≡ cell_of path t }
    {
        self.cell
    }

    /// How many leaves there are at or below the node.
    pub fn leaf_count(&self) -> u32
        ensures count { (first : ℕ) (s : Spot) (path : Region) (t : IndexTree) → IsAt self.now first s path t
            → result ≡ leaf_count t }
        ensures field { result ≡ self.now.leaves }
    {
        self.leaves
    }

    /// Which of all leaves in order is the first at or below the node, from 0.
    pub fn first_leaf(&self) -> u32
        ensures number { (first : ℕ) (s : Spot) (path : Region) (t : IndexTree) → IsAt self.now first s path t
            → result ≡ first }
        ensures field { result ≡ self.now.first }
    {
        self.first
    }

    /// The left and the right child. None exactly at a leaf.
    pub fn children(&self) -> Option<(NodeAt<'a, D>, NodeAt<'a, D>)>
        ensures some { IfSome result
            (λ c. (first : ℕ) (s : Spot) (path : Region) (t : IndexTree) → IsAt self.now first s path t
            → AreChildren c.0 c.1 first s path t) }
        ensures none { IsNone result ↔ (self.now.leaves ≡ 1) }
        ensures fewer { IfSome result (λ c. (c.0.leaves < self.now.leaves) × (c.1.leaves < self.now.leaves)) }
        ensures sum { IfSome result (λ c. c.0.leaves + c.1.leaves ≡ self.now.leaves) }
    {
        if self.leaves == 1 {
            return None;
        }
        let head = self.head();
        let (left_path, right_path) = self.cell.split(head.dimension, head.at);
        let references = with_key(&self.references, head.dimension, head.key);
        let left_leaves = self.leaves - self.leaves / 2;
        let begin = Mark {
            page: self.page,
            offset: self.offset,
        };
        let right_begin = Mark {
            page: self.page + head.pages,
            offset: head.offset,
        };
        let left = NodeAt::new(
            self.form,
            left_leaves,
            self.first,
            begin,
            &left_path,
            &references,
            head.left,
        );
        let right = NodeAt::new(
            self.form,
            self.leaves / 2,
            self.first + left_leaves,
            right_begin,
            &right_path,
            &references,
            head.right,
        );
        Some((left, right))
    }

    /// Where the leaf stands. None exactly at an inner node.
    pub fn leaf_place(&self) -> Option<LeafPlace>
        ensures some { IfSome result
            (λ p. (first : ℕ) (s : Spot) (path : Region) (t : IndexTree) → IsAt self.now first s path t
            → IsPlaceOf p s t) }
        ensures none { IsSome result ↔ (self.now.leaves ≡ 1) }
        ensures small { IfSome result (λ p. p.page < 8388608) }
        ensures fits { IfSome result (λ p. p.offset + p.length ≤ 4064) }
    {
        if self.leaves != 1 {
            return None;
        }
        Some(LeafPlace {
            page: self.page,
            offset: self.offset,
            length: self.length(),
        })
    }

    /// What the inner node says of itself.
    #[inline(always)]
    fn head(&self) -> Head<'a>
        requires { 2 ≤ self.now.leaves }
        ensures cell { IsInCell D (region_of self.now.cell) result.dimension result.at }
        ensures room { result.pages ≤ self.now.leaves - self.now.leaves / 2 }
        ensures says { (path : Region) (t : IndexTree) → region_of self.now.cell ≡ cell_of path t
            → IsNodeOf D self.now.form self.now.leaves
            (spot_at self.now.page self.now.offset) path self.now.references self.now.bytes.now self.now.places.now t
            → SaysTree self.now.form self.now.references (spot_at self.now.page self.now.offset) t result }
    {
        is_cell(&self.cell);
        let part = NodeBytes {
            bytes: self.bytes,
            places: self.places,
        };
        let Some(head) = read_head(self.form, self.leaves, &self.references, part) else {
            unreachable!()
        };
        head
    }

    /// How many bytes spell the leaf.
    fn length(&self) -> u16
        requires { self.now.leaves ≡ 1 }
        ensures { (path : Region) (t : IndexTree)
            → IsNodeOf D self.now.form self.now.leaves
            (spot_at self.now.page self.now.offset) path self.now.references self.now.bytes.now self.now.places.now t
            → result ≡ first_length t }
    {
        if self.form == 1 {
            let Some((place, _)) = take_place(self.places) else {
                unreachable!()
            };
            return place.length;
        }
        let Some((length, _)) = take_length(self.bytes) else {
            unreachable!()
        };
        length
    }

    /// The node whose path cell this is.
    #[inline(always)]
    pub(crate) fn new(
        form: u8,
        leaves: u32,
        first: u32,
        begin: Mark,
        path: &Cell<D>,
        references: &[[u8; 4]; D],
        part: NodeBytes<'a>,
    ) -> NodeAt<'a, D>
        requires some { ∥ IsSomeTree D form leaves (spot_of begin)
            (region_of path.now) references.now part.bytes.now part.places.now ∥₁ }
        requires leaves { 1 ≤ leaves }
        requires last { first + leaves ≤ 8388608 }
        requires page { begin.page ≤ first }
        ensures count { result.leaves ≡ leaves }
        ensures at { (t : IndexTree)
            → IsNodeOf D form leaves (spot_of begin)
            (region_of path.now) references.now part.entry.bytes.now part.entry.places.now t
            → IsAt result first (spot_of begin) (region_of path.now) t }
    {
        NodeAt {
            form,
            leaves,
            first,
            page: begin.page,
            offset: begin.offset,
            cell: cell_at(form, leaves, path, part.bytes),
            references: *references,
            bytes: part.bytes,
            places: part.places,
        }
    }
}

/// The cell of a node with this path cell: of a leaf of form 3 the own cell that it tells.
#[inline(always)]
fn cell_at<const D: usize>(form: u8, leaves: u32, path: &Cell<D>, b: &[u8]) -> Cell<D>
    requires some { ∥ IsSomeLeaf D form leaves (region_of path.now) b.now ∥₁ }
    requires leaves { 1 ≤ leaves }
    ensures { (s : Spot) (references : List (List ℕ)) (places : List ℕ) (t : IndexTree)
        → IsNodeOf D form leaves s (region_of path.now) references b.now places t
        → region_of result ≡ cell_of (region_of path.now) t }
{
    if leaves > 1 {
        return *path;
    }
    if form != 3 {
        return *path;
    }
    let Some((_, own)) = packed_leaf(form, path, b) else {
        unreachable!()
    };
    own
}
