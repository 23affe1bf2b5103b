//! A cell with the edges near it, which tell of its points.

ghost use Rattle.std.specs.Prelude.{◌≡◌, ◌≤◌, ◌<◌, ◌++◌, ◌+◌, ◌-◌, true, List, length, map, take};
ghost use Rattle.std.specs.Prelude.{IsTrue, slice_range, slice_index_or, vec_len, vec_capacity};
ghost use Rattle.point_codec.specs.Points.{in_box};
ghost use Rattle.point_codec.specs.Seen.{region_of};
ghost use Rattle.ring_parity.specs.Edges.{EdgeEnds};
ghost use Rattle.ring_parity.specs.Rings.{AreClosed, any_meets};
ghost use Rattle.ring_parity.specs.Seen.{ends_of};
ghost use Rattle.edge_tree.specs.Outlines.{IsLocation};
ghost use Rattle.edge_tree.specs.Levels.{differ, is_marked, IsTurned, meeting, IsLevel};

use crate::nodes::Location;
use point_codec::{Cell, Point};
use ring_parity::{Edge, incidence_of, misses};

/// A cell, and the edges from `first` up to `end` of a list: those near it.
#[derive(Clone, Copy, Debug)]
pub struct Level {
    pub cell: Cell<2>,
    pub first: usize,
    pub end: usize,
    /// An odd number of all other edges turns each point of the cell.
    pub odd: bool,
}

/// Whether the position is above `q`, and east of the first point.
fn is_marked(from: &Point<2>, q: &Point<2>, v: &Point<2>) -> bool
    ensures { result ≡ is_marked from.now.c q.now.c v.now.c }
{
    v.c[1] > q.c[1] && v.c[0] > from.c[0]
}

/// Whether just one end of the edge is marked.
fn is_half_marked(from: &Point<2>, q: &Point<2>, e: &Edge) -> bool
    ensures { result ≡ differ (is_marked from.now.c q.now.c e.now.a.c) (is_marked from.now.c q.now.c e.now.b.c) }
{
    is_marked(from, q, &e.a) != is_marked(from, q, &e.b)
}

/// Whether `q` is on one of these edges, and whether an odd number of them turns it.
pub fn turned(edges: &[Edge], from: &Point<2>, q: &Point<2>) -> Location
    ensures { IsTurned (map ends_of edges.now) from.now.c q.now.c result.on result.odd }
{
    let mut on = false;
    let mut odd = false;
    for edge in edges {
        let beside = incidence_of(edge, q);
        on = on || beside.on;
        odd = odd != (beside.counts != is_half_marked(from, q, edge));
    }
    Location { on, odd }
}

impl Level {
    /// Where a point of the cell lies beside all edges, told by those near it.
    pub fn locate(&self, listed: &[Edge], p: &Point<2>) -> Location
        requires ordered { self.now.first ≤ self.now.end }
        requires there { self.now.end ≤ length listed.now }
        ensures { (edges : List EdgeEnds) → AreClosed edges → IsLevel edges listed.now self.now
            → in_box (region_of self.now.cell) p.now.c ≡ true
            → IsLocation edges p.now.c result.on result.odd }
    {
        let beside = turned(&listed[self.first..self.end], &self.cell.lo, p);
        Location {
            on: beside.on,
            odd: beside.odd != self.odd,
        }
    }
}

/// How many of the levels there are up to the innermost whose cell has both points; 0 where none has.
pub fn innermost(levels: &[Level], p: &Point<2>, q: &Point<2>) -> usize
    ensures there { result ≤ length levels.now }
    ensures has { (d : Level) → 0 < result
        → (in_box (region_of (slice_index_or levels.now (result - 1) d).cell) p.now.c ≡ true)
        × (in_box (region_of (slice_index_or levels.now (result - 1) d).cell) q.now.c ≡ true) }
{
    let mut held = levels.len();
    while held > 0 {
        let cell = &levels[held - 1].cell;
        if cell.has(p) && cell.has(q) {
            return held;
        }
        held -= 1;
    }
    0
}

/// What was found of edges beside a cell.
#[derive(Clone, Copy, Debug)]
pub struct Gathered {
    /// Some of them does not miss the cell.
    pub meets: bool,
    /// All that don't miss it were appended.
    pub whole: bool,
}

/// Appends those of the edges from `first` up to `end` that don't miss the cell. Where they are more than `most`, some
/// of them are appended.
pub fn gather(
    listed: &mut Vec<Edge>,
    first: usize,
    end: usize,
    c: &Cell<2>,
    most: usize,
) -> Gathered
    requires ordered { first ≤ end }
    requires there { end ≤ vec_len listed.old }
    requires room { vec_len listed.old + most ≤ vec_capacity listed.old }

    ensures meets { result.meets ≡ any_meets (map ends_of (slice_range listed.old.items first end)) (region_of c.now) }
    ensures whole { IsTrue result.whole → listed.new.items ≡ listed.old.items ++ meeting (region_of c.now)
        (slice_range listed.old.items first end) }
    ensures all { end - first ≤ most → IsTrue result.whole }
    ensures kept { take (vec_len listed.old) listed.new.items ≡ listed.old.items }
    ensures room { vec_capacity listed.new ≡ vec_capacity listed.old }
{
    let start = listed.len();
    for i in first..end {
        let edge = listed[i];
        if !misses(&edge, c) {
            if listed.len() - start >= most {
                return Gathered {
                    meets: true,
                    whole: false,
                };
            }
            listed.push_reserved(edge);
        }
    }
    Gathered {
        meets: listed.len() > start,
        whole: true,
    }
}
