//! The nodes of a tree over runs of edges, each after the nodes of its subtree.

ghost use Rattle.std.specs.Prelude.{◌≡◌, ◌<◌, ◌++◌, ℤ, List, length, map, take, drop, All, IfOk, OnOk};
ghost use Rattle.point_codec.specs.Seen.{region_of};
ghost use Rattle.ring_parity.specs.Edges.{EdgeEnds};
ghost use Rattle.ring_parity.specs.Rings.{any_meets};
ghost use Rattle.ring_parity.specs.Seen.{ends_of};
ghost use Rattle.edge_tree.specs.Outlines.{Outlines, IsLocation};
ghost use Rattle.edge_tree.specs.Nodes.{IsRun, all_in, all_held_edges, HoldsRun, AreNodes};

use crate::outline::Outline;
use crate::runs::Run;
use point_codec::{Cell, Point};
use ring_parity::{Edge, counts, misses, on_edge};
use std::alloc::{AllocError, Global};

/// What is known of the edges that a node's subtree holds. A leaf holds the run of edges from `first` up to `end`, an
/// inner node none itself. The subtree ends with the node, and begins after the first `before` nodes.
#[derive(Clone, Copy, Debug)]
pub struct Node {
    pub outline: Outline,
    pub first: usize,
    pub end: usize,
    pub before: usize,
}

/// Where a point lies beside a run of edges.
#[derive(Clone, Copy, Debug)]
pub struct Location {
    /// It is on one of them.
    pub on: bool,
    /// It counts for an odd number of them.
    pub odd: bool,
}

impl Location {
    /// The location beside two runs together.
    pub fn join(&self, other: &Location) -> Location
        ensures { (xs ys : List EdgeEnds) (p : List ℤ) → IsLocation xs p self.now.on self.now.odd
            → IsLocation ys p other.now.on other.now.odd
            → IsLocation (xs ++ ys) p result.on result.odd }
    {
        Location {
            on: self.on || other.on,
            odd: self.odd != other.odd,
        }
    }
}

/// Where the point lies beside these edges.
pub fn location_in(edges: &[Edge], p: &Point<2>) -> Location
    ensures { IsLocation (map ends_of edges.now) p.now.c result.on result.odd }
{
    let mut on = false;
    let mut odd = false;
    for edge in edges {
        on = on || on_edge(edge, p);
        odd = odd != counts(edge, p);
    }
    Location { on, odd }
}

/// Some of these edges does not miss the cell.
pub fn meets_run(edges: &[Edge], c: &Cell<2>) -> bool
    ensures { result ≡ any_meets (map ends_of edges.now) (region_of c.now) }
{
    for edge in edges {
        if !misses(edge, c) {
            return true;
        }
    }
    false
}

/// The outline of a run of edges.
fn outline_of(edges: &[Edge]) -> Outline
    requires { 0 < length edges.now }
    ensures { Outlines (map ends_of edges.now) result }
{
    let mut outline = Outline::of(&edges[0]);
    for i in 1..edges.len() {
        outline = outline.join(&Outline::of(&edges[i]));
    }
    outline
}

/// The nodes of a tree over the edges of these runs.
pub fn nodes_over(alloc: Global, edges: &[Edge], runs: &[Run]) -> Result<Vec<Node>, AllocError>
    requires { All (IsRun (map ends_of edges.now)) runs.now }
    ensures each { IfOk result (λ nodes. AreNodes (map ends_of edges.now) nodes.items) }
    ensures whole { IfOk result
        (λ nodes. all_held_edges (map ends_of edges.now) nodes.items ≡ all_in (map ends_of edges.now) runs.now) }
{
    let mut nodes = Vec::new(alloc);
    if runs.len() > 0 {
        push_nodes(&mut nodes, edges, runs)?;
    }
    Ok(nodes)
}

/// Appends the nodes over these runs, those of the two halves before the one that is over both.
fn push_nodes(nodes: &mut Vec<Node>, edges: &[Edge], runs: &[Run]) -> Result<Outline, AllocError>
    requires some { 0 < length runs.now }
    requires there { All (IsRun (map ends_of edges.now)) runs.now }
    requires sound { AreNodes (map ends_of edges.now) nodes.old.items }

    ensures outlined { IfOk result (Outlines (all_in (map ends_of edges.now) runs.now)) }
    ensures sound { OnOk result (AreNodes (map ends_of edges.now) nodes.new.items) }
    ensures held { OnOk result
        (all_held_edges (map ends_of edges.now) (drop (length nodes.old.items) nodes.new.items) ≡ all_in
        (map ends_of edges.now) runs.now) }
    ensures kept { OnOk result (take (length nodes.old.items) nodes.new.items ≡ nodes.old.items) }
{
    let before = nodes.len();
    let node = if runs.len() == 1 {
        leaf(edges, runs, before)
    } else {
        let middle = runs.len() / 2;
        let left = push_nodes(nodes, edges, &runs[..middle])?;
        let right = push_nodes(nodes, edges, &runs[middle..])?;
        Node {
            outline: left.join(&right),
            first: 0,
            end: 0,
            before,
        }
    };
    nodes.push(node)?;
    Ok(node.outline)
}

/// The node that holds the only run.
fn leaf(edges: &[Edge], runs: &[Run], before: usize) -> Node
    requires one { length runs.now ≡ 1 }
    requires there { All (IsRun (map ends_of edges.now)) runs.now }

    ensures held { HoldsRun (map ends_of edges.now) (all_in (map ends_of edges.now) runs.now) result }
    ensures before { result.before ≡ before }
{
    let run = &runs[0];
    Node {
        outline: outline_of(&edges[run.first..run.end]),
        first: run.first,
        end: run.end,
        before,
    }
}
