//! The tree of a polygon's edges and its queries.

ghost use Rattle.std.specs.Prelude.{◌≡◌, ◌++◌, true, List, ℤ, IsFalse, IfOk, IfSome, map};
ghost use Rattle.point_codec.specs.Points.{in_box};
ghost use Rattle.point_codec.specs.Seen.{coordinates_of, region_of};
ghost use Rattle.ring_parity.specs.Rings.{edges_of, all_edges, is_on_any, is_odd, any_meets, is_within, AreClosed};
ghost use Rattle.ring_parity.specs.Seen.{ends_of};
ghost use Rattle.edge_tree.specs.Outlines.{IsLocation, HasPosition};

use crate::nodes::{Location, Node, location_in, meets_run, nodes_over};
use crate::outline::Bounds;
use crate::runs::runs_over;
use point_codec::{Cell, Point};
use ring_parity::{Edge, Rings};
use std::alloc::{AllocError, Global};
use std::marker::Model;

/// The edges of a polygon in ring order, and the nodes of a tree over runs of them, neighbours by place.
#[derive(Drop)]
pub struct EdgeTree {
    edges: Vec<Edge>,
    nodes: Vec<Node>,
}

impl Model for EdgeTree {
    ghost use Rattle.std.specs.Prelude.{List, map};
    ghost use Rattle.ring_parity.specs.Edges.{EdgeEnds};
    ghost use Rattle.ring_parity.specs.Seen.{ends_of};
    ghost use Rattle.edge_tree.specs.Trees.{IsEdgeTree};

    ghost Value = { List EdgeEnds };

    ghost view = { λ t. map ends_of t.edges.items };

    ghost invariant = { λ t. IsEdgeTree (map ends_of t.edges.items) t.nodes.items };
}

impl EdgeTree {
    /// The tree over the edges of these rings.
    pub fn new(alloc: Global, r: &Rings) -> Result<EdgeTree, AllocError>
        ensures { IfOk result (λ tree. tree ≡ all_edges r.now) }
    {
        let mut edges = Vec::new(alloc);
        for ring in r.as_slice() {
            push_edges(&mut edges, ring.as_slice())?;
        }
        let runs = runs_over(alloc, edges.as_slice())?;
        let nodes = nodes_over(alloc, edges.as_slice(), runs.as_slice())?;
        Ok(EdgeTree { edges, nodes })
    }

    /// The edges in ring order.
    pub(crate) fn edges(&self) -> &[Edge]
        ensures value { map ends_of result.now ≡ self.now }
        ensures closed { AreClosed self.now }
    {
        self.edges.as_slice()
    }

    /// The point is on an edge, an end counted.
    pub fn on_any(&self, p: &Point<2>) -> bool
        ensures { result ≡ is_on_any self.now p.now.c }
    {
        self.locate(p).on
    }

    /// An odd number of the edges counts for the point.
    pub fn odd(&self, p: &Point<2>) -> bool
        ensures { result ≡ is_odd self.now p.now.c }
    {
        self.locate(p).odd
    }

    /// The point is in the polygon: on an edge, or counted by an odd number of them.
    pub fn contains(&self, p: &Point<2>) -> bool
        ensures { result ≡ is_within self.now p.now.c }
    {
        let place = self.locate(p);
        place.on || place.odd
    }

    /// A box that has all points of the polygon: that of the node over all edges.
    pub fn bounds(&self) -> Option<Bounds>
        ensures { IfSome result (λ b. (p : List ℤ) → is_within self.now p ≡ true → HasPosition b p) }
    {
        let at = self.nodes.len();
        if at == 0 {
            return None;
        }
        let last = &self.nodes[at - 1];
        if last.before > 0 {
            return None;
        }
        Some(last.outline.bounds)
    }

    /// Where the point lies beside all the edges. A node that tells it of its subtree is taken whole.
    fn locate(&self, p: &Point<2>) -> Location
        ensures { IsLocation self.now p.now.c result.on result.odd }
    {
        let mut place = Location {
            on: false,
            odd: false,
        };
        let mut at = self.nodes.len();
        while at > 0 {
            let node = &self.nodes[at - 1];
            match node.outline.parity(p) {
                Some(odd) => {
                    place = Location { on: false, odd }.join(&place);
                    at = node.before;
                }
                None => {
                    place = location_in(&self.edges[node.first..node.end], p).join(&place);
                    at -= 1;
                }
            }
        }
        place
    }

    /// Some edge does not miss the cell. Where none meets it, the polygon has all points of the cell or none of them,
    /// so that one point tells of all.
    pub fn any_meets(&self, c: &Cell<2>) -> bool
        ensures told { result ≡ any_meets self.now (region_of c.now) }
        ensures one_answer { IsFalse result → (p q : List ℤ) → in_box (region_of c.now) p ≡ true
            → in_box (region_of c.now) q ≡ true
            → is_within self.now p ≡ is_within self.now q }
    {
        let mut at = self.nodes.len();
        while at > 0 {
            let node = &self.nodes[at - 1];
            if node.outline.bounds.is_apart(&c.lo, &c.hi) {
                at = node.before;
            } else {
                if meets_run(&self.edges[node.first..node.end], c) {
                    return true;
                }
                at -= 1;
            }
        }
        false
    }

    /// Whether the cell has a part of the box round all edges, and not the whole of it.
    pub(crate) fn is_cut_by(&self, c: &Cell<2>) -> bool {
        match self.bounds() {
            Some(bounds) => !bounds.is_apart(&c.lo, &c.hi) && !bounds.is_within(c),
            None => true,
        }
    }
}

/// Appends the edges of a ring.
fn push_edges(edges: &mut Vec<Edge>, at: &[Point<2>]) -> Result<(), AllocError>
    ensures { IfOk result
        (λ _. map ends_of edges.new.items ≡ map ends_of edges.old.items ++ edges_of (coordinates_of at.now)) }
{
    for i in 1..at.len() {
        edges.push(Edge {
            a: at[i - 1],
            b: at[i],
        })?;
    }
    Ok(())
}
