//! Points of one cell after another, told by the edges that meet the cell.

ghost use Rattle.std.specs.Prelude.{◌≡◌, ◌∷◌, [], true, List, ℤ, map, IsFalse, IfOk};
ghost use Rattle.point_codec.specs.Points.{in_box};
ghost use Rattle.point_codec.specs.Seen.{region_of};
ghost use Rattle.ring_parity.specs.Rings.{all_edges, any_meets, is_within};
ghost use Rattle.ring_parity.specs.Seen.{ends_of};
ghost use Rattle.edge_tree.specs.Levels.{AreLevels};

use crate::level::{Level, gather, innermost, turned};
use crate::nodes::location_in;
use crate::quarters::{Places, QUARTERED, innermost_part, places_of, quarter_of, quarter_round};
use crate::tree::EdgeTree;
use point_codec::{Cell, Point};
use ring_parity::{Edge, Rings};
use std::alloc::{AllocError, Global};
use std::marker::Model;

/// How many levels there are at most, parts counted.
const MOST_LEVELS: usize = 84;

/// So few edges are asked for each point, and more are parted.
const FEW: usize = 8;

/// A tree of edges, with levels: cells within cells that were asked for, and the edges near each.
///
/// A walk over an index asks for a cell, then for cells within it, and then for the points of these. Each cell takes
/// its edges from those of the level round it, and with them whether the others turn its points an odd number of times.
/// So a point is told by the few edges near it. The lowest level has all edges, and the plane as its cell; what no
/// other level has is asked of the tree.
#[derive(Drop)]
pub struct Locator {
    tree: EdgeTree,
    /// The edges of each level, behind those of the levels below it.
    listed: Vec<Edge>,
    levels: Vec<Level>,
    /// The parts of the level that was asked for last.
    places: Places,
}

impl Model for Locator {
    ghost use Rattle.std.specs.Prelude.{List, vec_capacity};
    ghost use Rattle.ring_parity.specs.Edges.{EdgeEnds};
    ghost use Rattle.edge_tree.specs.Levels.{IsLocator};

    ghost Value = { List EdgeEnds };

    ghost view = { λ l. l.tree };

    ghost invariant = { λ l. IsLocator l.tree l.listed.items l.levels.items (vec_capacity l.listed)
        (vec_capacity l.levels) };
}

impl Locator {
    /// The edges of these rings. It takes all memory that any of its calls needs: eight times that of the edges.
    pub fn new(alloc: Global, r: &Rings) -> Result<Locator, AllocError>
        ensures { IfOk result (λ l. l ≡ all_edges r.now) }
    {
        let tree = EdgeTree::new(alloc, r)?;
        let edges = tree.edges();
        let mut listed = Vec::with_capacity(alloc, edges.len().saturating_mul(8))?;
        for edge in edges {
            listed.push_reserved(*edge);
        }
        let mut levels = Vec::with_capacity(alloc, MOST_LEVELS)?;
        levels.push_reserved(lowest(listed.as_slice(), &plane()));
        Ok(Locator {
            tree,
            listed,
            levels,
            places: places_of(1),
        })
    }

    /// The tree of the edges.
    pub fn tree(&self) -> &EdgeTree
        ensures { result.now ≡ self.now }
    {
        &self.tree
    }

    /// Some edge does not miss the cell. Cells within it and its points are likely to be asked for next.
    pub fn any_meets(&mut self, c: &Cell<2>) -> bool
        ensures told { result ≡ any_meets self.old (region_of c.now) }
        ensures one_answer { IsFalse result → (p q : List ℤ) → in_box (region_of c.now) p ≡ true
            → in_box (region_of c.now) q ≡ true
            → is_within self.old p ≡ is_within self.old q }
        ensures same { self.new ≡ self.old }
    {
        if innermost(self.levels.as_slice(), &c.lo, &c.hi) > 1 || self.tree.is_cut_by(c) {
            self.narrow(c)
        } else {
            self.tree.any_meets(c)
        }
    }

    /// The point is in the polygon: on an edge, or counted by an odd number of them.
    pub fn contains(&mut self, p: &Point<2>) -> bool
        ensures told { result ≡ is_within self.old p.now.c }
        ensures same { self.new ≡ self.old }
    {
        let part = innermost_part(self.levels.as_slice(), &self.places, p);
        if part.held < 2 {
            return self.tree.contains(p);
        }
        let level = self.levels[part.held - 1];
        let place = level.locate(self.listed.as_slice(), p);
        if part.number < QUARTERED && level.end - level.first > FEW {
            self.part(p);
        }
        place.on || place.odd
    }

    /// Some edge does not miss the cell, told by the edges of the innermost level round it. Where fewer of them meet it
    /// the cell becomes a level on top of that one, where there is room.
    fn narrow(&mut self, c: &Cell<2>) -> bool
        ensures told { result ≡ any_meets self.old (region_of c.now) }
        ensures same { self.new ≡ self.old }
    {
        let held = innermost(self.levels.as_slice(), &c.lo, &c.hi);
        if held == 0 {
            return self.tree.any_meets(c);
        }
        let outer = self.levels[held - 1];
        self.levels.truncate(held);
        self.listed.truncate(outer.end);
        self.places = places_of(held);
        let room = self.listed.capacity() - outer.end;
        let most = room.min(fewer(outer.end - outer.first));
        let found = gather(&mut self.listed, outer.first, outer.end, c, most);
        if !found.whole || held == MOST_LEVELS {
            self.listed.truncate(outer.end);
            return found.meets;
        }
        let end = self.listed.len();
        let corner = outer.locate(self.listed.as_slice(), &c.lo);
        let beside = turned(&self.listed[outer.end..end], &c.lo, &c.lo);
        self.levels.push_reserved(Level {
            cell: *c,
            first: outer.end,
            end,
            odd: corner.odd != beside.odd,
        });
        self.places = places_of(held + 1);
        found.meets
    }

    /// Makes the quarter round the point of the smallest part round it a part of its own, where there is room for all
    /// its edges.
    fn part(&mut self, p: &Point<2>)
        ensures { self.new ≡ self.old }
    {
        let part = innermost_part(self.levels.as_slice(), &self.places, p);
        if part.held == 0 || part.number >= QUARTERED {
            return;
        }
        let outer = self.levels[part.held - 1];
        let Some(c) = quarter_round(&outer.cell, p) else {
            return;
        };
        let start = self.listed.len();
        let most = outer.end - outer.first;
        if self.listed.capacity() - start < most || self.levels.len() == MOST_LEVELS {
            return;
        }
        gather(&mut self.listed, outer.first, outer.end, &c, most);
        let end = self.listed.len();
        let least = outer.locate(self.listed.as_slice(), &c.lo);
        let beside = turned(&self.listed[start..end], &c.lo, &c.lo);
        self.places[4 * part.number + 1 + quarter_of(&outer.cell, p)] = self.levels.len() + 1;
        self.levels.push_reserved(Level {
            cell: c,
            first: start,
            end,
            odd: least.odd != beside.odd,
        });
    }
}

/// The most edges of a level on top of one of so many: seven eighths, so that there is room for all.
fn fewer(edges: usize) -> usize {
    edges - edges / 8
}

/// The cell of all points.
fn plane() -> Cell<2> {
    Cell {
        lo: Point { c: [i32::MIN; 2] },
        hi: Point { c: [i32::MAX; 2] },
    }
}

/// The level of all edges, for this cell.
fn lowest(edges: &[Edge], plane: &Cell<2>) -> Level
    ensures { AreLevels (map ends_of edges.now) edges.now (result ∷ []) }
{
    let corner = location_in(edges, &plane.lo);
    let beside = turned(edges, &plane.lo, &plane.lo);
    Level {
        cell: *plane,
        first: 0,
        end: edges.len(),
        odd: corner.odd != beside.odd,
    }
}
