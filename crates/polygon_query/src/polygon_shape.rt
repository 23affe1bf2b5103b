//! A polygon as a shape.

ghost use Rattle.std.specs.Prelude.{◌≡◌, ◌==◌, IfOk, length};
ghost use Rattle.point_codec.specs.Seen.{region_of};
ghost use Rattle.ring_parity.specs.Rings.{all_edges};
ghost use Rattle.cell_relate.specs.Relations.{RelatesTo};
ghost use Rattle.polygon_query.specs.Shape.{has, crosses};
ghost use Rattle.polygon_query.specs.PolygonLaws.{polygon_keeps};

use cell_relate::{Relation, Shape};
use edge_tree::Locator;
use point_codec::{Cell, Point};
use ring_parity::Rings;
use std::alloc::{AllocError, Global};
use std::marker::Model;

/// The error of a call for which no memory could be had.
pub type Memory = AllocError;

/// A polygon with the number of questions that were asked of it. It has the points on its edges and those that the
/// even-odd rule counts as inside, all its rings alike.
#[derive(Drop)]
pub struct PolygonShape {
    edges: Locator,
    tests: u64,
    compares: u64,
}

impl Model for PolygonShape {
    ghost use Rattle.polygon_query.specs.Shape.{CountedPolygon};

    ghost Value = { CountedPolygon };

    ghost view = { λ s. record { edges = s.edges; tests = s.tests; compares = s.compares } };
}

impl PolygonShape {
    /// The polygon of these rings, of which nothing was asked yet. It keeps their edges in memory of its own, and takes
    /// none after that.
    pub fn new(alloc: Global, r: &Rings) -> Result<PolygonShape, Memory>
        ensures { IfOk result (λ s. s ≡ record { edges = all_edges r.now; tests = 0; compares = 0 }) }
    {
        Ok(PolygonShape {
            edges: Locator::new(alloc, r)?,
            tests: 0,
            compares: 0,
        })
    }

    /// How many points were asked for.
    pub fn tests(&self) -> u64
        ensures { result ≡ self.now.tests }
    {
        self.tests
    }

    /// How many cells were asked for.
    pub fn compares(&self) -> u64
        ensures { result ≡ self.now.compares }
    {
        self.compares
    }
}

impl<const D: usize> Shape<D> for PolygonShape {
    ghost has = { λ s p. has D s.edges p };

    ghost crosses = { λ s cell. crosses D s.edges cell };

    ghost within_uncrossed = { λ s. polygon_keeps D s.edges };

    ghost tests = { λ s. s.tests };

    ghost compares = { λ s. s.compares };

    fn contains(&mut self, p: &Point<D>) -> bool {
        self.tests = self.tests.saturating_add(1);
        D == 2 && self.edges.contains(&in_plane(p))
    }

    fn compare(&mut self, c: &Cell<D>) -> Relation {
        self.compares = self.compares.saturating_add(1);
        if D != 2 {
            return Relation::Outside;
        }
        relation_of(&mut self.edges, &cell_in_plane(c))
    }

    fn reach(&self, d: usize) -> Option<(i32, i32)> {
        if D != 2 {
            return None;
        }
        let bounds = self.edges.tree().bounds()?;
        if d == 0 {
            Some((bounds.west, bounds.east))
        } else {
            Some((bounds.south, bounds.north))
        }
    }
}

/// How the cell lies to the polygon of these edges. A cell that no edge meets has all its points in the polygon or
/// none, so that its least corner tells which.
fn relation_of(edges: &mut Locator, c: &Cell<2>) -> Relation
    ensures told { RelatesTo (has 2 edges.old) (crosses 2 edges.old) (region_of c.now) result }
    ensures same { edges.new ≡ edges.old }
{
    if edges.any_meets(c) {
        Relation::Crosses
    } else if edges.contains(&c.lo) {
        Relation::Inside
    } else {
        Relation::Outside
    }
}

/// A cell of two dimensions as one of the plane.
fn cell_in_plane<const D: usize>(c: &Cell<D>) -> Cell<2>
    requires { D ≡ 2 }
    ensures { region_of result ≡ region_of c.now }
{
    Cell {
        lo: in_plane(&c.lo),
        hi: in_plane(&c.hi),
    }
}

/// A point of two dimensions as one of the plane.
fn in_plane<const D: usize>(p: &Point<D>) -> Point<2>
    requires { D ≡ 2 }
    ensures { result.c ≡ p.now.c }
{
    Point { c: two(&p.c) }
}

fn two(c: &[i32]) -> [i32; 2]
    requires { length c.now ≡ 2 }
    ensures { result ≡ c.now }
{
    [c[0], c[1]]
}
