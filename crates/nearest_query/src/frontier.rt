//! The nodes that wait to be opened.

ghost use Rattle.std.specs.Prelude.{◌≡◌, ◌≤◌, ◌<◌, ◌+◌, ◌^◌, ℕ, [], ◌∷◌, length, OnOk, IfSome, IfNone, All, sum_by};
ghost use Rattle.std.specs.Prelude.{slice_index_or};
ghost use Rattle.std.specs.List.Sorted.{IsPermutation};
ghost use Rattle.point_codec.specs.Points.{Region};
ghost use Rattle.inner_pack.specs.Places.{Spot};
ghost use Rattle.inner_pack.specs.Trees.{IndexTree, leaf_count};
ghost use Rattle.inner_pack.specs.Nodes.{IsAt};

use crate::queue::Queue;
use inner_pack::NodeAt;
use point_codec::Point;
use std::alloc::{AllocError, Global};
use std::cmp::Reverse;
use std::marker::Model;

/// A node that waits, by its place among all nodes that ever waited.
#[derive(Clone, Copy)]
#[derive_where(PartialEq, Eq, PartialOrd, Ord)]
pub struct Waiting {
    /// The least squared distance of its cell: the nearest node comes first.
    pub dist2: Reverse<u128>,
    /// The position of its segment.
    #[derive_where(skip(EqHashOrd))]
    pub segment: usize,
    #[derive_where(skip(EqHashOrd))]
    pub place: usize,
    /// Its first leaf, and how many there are below it.
    #[derive_where(skip(EqHashOrd))]
    pub first: u32,
    #[derive_where(skip(EqHashOrd))]
    pub leaves: u32,
}

/// The nodes that wait, the nearest first. The nodes themselves stand aside, so that little is moved.
#[derive(Drop)]
pub struct Frontier<'a, const D: usize> {
    queue: Queue,
    nodes: Vec<NodeAt<'a, D>>,
}

impl<'a, const D: usize> Model for Frontier<'a, D> {
    ghost use Rattle.nearest_query.specs.Fronts.{Front};

    ghost Value = { Front D };

    ghost view = { λ f. record { waiting = f.queue; nodes = f.nodes.items } };
}

impl<'a, const D: usize> Frontier<'a, D> {
    ghost use Rattle.nearest_query.specs.Fronts.{IsWaiting, leaf_sum, sum_below};

    /// A frontier in which no node waits.
    pub fn new(alloc: Global) -> Frontier<'a, D>
        requires { D ≤ 8 }
        ensures { result ≡ record { waiting = []; nodes = [] } }
    {
        Frontier {
            queue: Queue::new(alloc),
            nodes: Vec::new(alloc),
        }
    }

    /// Lets a node of the segment wait, by how far its cell is from the point.
    pub fn push(
        &mut self,
        segment: usize,
        node: &NodeAt<'a, D>,
        at: &Point<D>,
    ) -> Result<(), AllocError>
        ensures put { OnOk result (IsWaiting at.now.c segment node.now self.old self.new) }
        ensures counted { (first : ℕ) (s : Spot) (path : Region) (t : IndexTree) → IsAt node.now first s path t
            → node.now.leaves ≡ leaf_count t }
        ensures most { (g : ℕ → ℕ → ℕ)
            → sum_by (sum_below g) self.new.waiting ≤ leaf_sum g segment node.now.first node.now.leaves + sum_by
            (sum_below g) self.old.waiting }
    {
        let waiting = Waiting {
            dist2: Reverse(node.cell().least_dist2(at)),
            segment,
            place: self.nodes.len(),
            first: node.first_leaf(),
            leaves: node.leaf_count(),
        };
        self.nodes.extend_from_slice(std::slice::from_ref(node))?;
        self.queue.push(waiting)?;
        Ok(())
    }

    /// Takes out a node that none is nearer than.
    pub fn pop(&mut self) -> Option<Waiting>
        ensures some { IfSome result (λ t. IsPermutation self.old.waiting (t ∷ self.new.waiting)) }
        ensures least { IfSome result (λ t. All (λ u. t.dist2.0 ≤ u.dist2.0) self.new.waiting) }
        ensures none { IfNone result (self.old.waiting ≡ []) }
        ensures nodes { self.new.nodes ≡ self.old.nodes }
        ensures fits { length self.new.nodes < 2 ^ 63 }
    {
        self.queue.pop()
    }

    /// The node of this place.
    pub fn node(&self, place: usize) -> &NodeAt<'a, D>
        requires { place < length self.now.nodes }
        ensures { result.now ≡ slice_index_or self.now.nodes place result.now }
    {
        &self.nodes[place]
    }
}
