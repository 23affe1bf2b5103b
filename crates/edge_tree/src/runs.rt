//! The edges of a polygon in short runs, and the runs by place.

ghost use Rattle.std.specs.Prelude.{◌≡◌, ◌<◌, ◌≤◌, length, map, All, IfOk};
ghost use Rattle.ring_parity.specs.Seen.{ends_of};
ghost use Rattle.edge_tree.specs.Nodes.{IsRun, all_in, HaveSame};

use crate::outline::Bounds;
use point_codec::Point;
use ring_parity::Edge;
use std::alloc::{AllocError, Global};

/// How many edges a run has at most.
const LONGEST: usize = 8;

/// The part of the whole width and height that a run of several edges takes at most.
const NARROW: i64 = 16;

/// The edges from `first` up to `end`, and where they begin on a curve that fills the plane.
#[derive(Clone, Copy, Debug)]
pub struct Run {
    pub first: usize,
    pub end: usize,
    pub place: u64,
}

/// All these edges in runs, neighbours by place.
pub fn runs_over(alloc: Global, edges: &[Edge]) -> Result<Vec<Run>, AllocError>
    ensures each { IfOk result (λ runs. All (IsRun (map ends_of edges.now)) runs.items) }
    ensures whole { IfOk result (λ runs. HaveSame (all_in (map ends_of edges.now) runs.items) (map ends_of edges.now)) }
{
    let mut runs = cut_runs(alloc, edges)?;
    runs.sort_unstable_by_key(|run| run.place);
    Ok(runs)
}

/// The edges in runs that follow each other.
fn cut_runs(alloc: Global, edges: &[Edge]) -> Result<Vec<Run>, AllocError>
    ensures each { IfOk result (λ runs. All (IsRun (map ends_of edges.now)) runs.items) }
    ensures whole { IfOk result (λ runs. all_in (map ends_of edges.now) runs.items ≡ map ends_of edges.now) }
{
    let mut runs = Vec::new(alloc);
    let widest = size(&bounds_of(edges)) / NARROW;
    let mut first = 0;
    while first < edges.len() {
        let end = run_end(edges, first, widest);
        runs.push(Run {
            first,
            end,
            place: place_of(&edges[first].a),
        })?;
        first = end;
    }
    Ok(runs)
}

/// Where the run ends that begins at `first`: at the end of its ring, or where it would be too long or too wide.
fn run_end(edges: &[Edge], first: usize, widest: i64) -> usize
    requires { first < length edges.now }
    ensures some { first < result }
    ensures there { result ≤ length edges.now }
{
    let mut bounds = Bounds::of(&edges[first]);
    let last = edges.len().min(first + LONGEST);
    for end in first + 1..last {
        bounds = bounds.union(&Bounds::of(&edges[end]));
        if edges[end].a != edges[end - 1].b || size(&bounds) > widest {
            return end;
        }
    }
    last
}

/// The least box round these edges, and a box of one point where there is none.
fn bounds_of(edges: &[Edge]) -> Bounds {
    let [first, rest @ ..] = edges else {
        return Bounds {
            west: 0,
            south: 0,
            east: 0,
            north: 0,
        };
    };
    let mut bounds = Bounds::of(first);
    for edge in rest {
        bounds = bounds.union(&Bounds::of(edge));
    }
    bounds
}

/// The width and the height of a box together.
fn size(bounds: &Bounds) -> i64 {
    let width = bounds.east as i64 - bounds.west as i64;
    let height = bounds.north as i64 - bounds.south as i64;
    width.saturating_add(height)
}

/// Where the point is on the Z-order curve: the bits of its coordinates by turns.
fn place_of(p: &Point<2>) -> u64 {
    let x = spread(p.c[0].cast_unsigned() ^ 0x8000_0000);
    let y = spread(p.c[1].cast_unsigned() ^ 0x8000_0000);
    x | (y << 1)
}

/// The bits of a number with a 0 before each.
fn spread(x: u32) -> u64 {
    let x = x as u64;
    let x = (x | (x << 16)) & 0x0000_ffff_0000_ffff;
    let x = (x | (x << 8)) & 0x00ff_00ff_00ff_00ff;
    let x = (x | (x << 4)) & 0x0f0f_0f0f_0f0f_0f0f;
    let x = (x | (x << 2)) & 0x3333_3333_3333_3333;
    (x | (x << 1)) & 0x5555_5555_5555_5555
}
