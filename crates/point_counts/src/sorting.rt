//! A box whose points are counted, each at a place of a table.

ghost use Rattle.std.specs.Prelude.{◌≡◌, ◌<◌, ℕ, List, ℤ, Bool, true, false, MatchOption};
ghost use Rattle.point_codec.specs.Points.{Region, in_box};
ghost use Rattle.point_codec.specs.Seen.{region_of};
ghost use Rattle.cell_relate.specs.Boxes.{crosses};
ghost use Rattle.cell_relate.specs.Relations.{RelatesTo, IsReach};
ghost use Rattle.point_counts.specs.Tables.{LiesAs};

use cell_relate::{BoxShape, Relation, Shape};
use point_codec::{Cell, Point, all_le};

/// How a cell lies to the box and to the places at which its points are counted.
#[derive(Clone, Copy, PartialEq, Eq, Debug)]
pub(crate) enum Lie {
    /// The box has no point of the cell.
    Outside,
    /// The box has all points of the cell, and they are counted at one place.
    At(usize),
    /// The box's edge may cut the cell, or its points may be counted at several places.
    Parted,
}

/// A box whose points are counted, each at a place.
///
/// `bounds` is the box, `place` says where a point of it is counted, and `parts` which cells are cut by the box's edge
/// or have points of two places.
pub(crate) trait Sorting<const D: usize> {
    ghost bounds: { Self → Region };

    ghost place: { Self → List ℤ → ℕ };

    ghost parts: { Self → Region → Bool };

    /// Where the point is counted. None where the box doesn't have it.
    fn place_of(&self, p: &Point<D>) -> Option<usize>
        ensures { MatchOption result (in_box (bounds self.now) p.now.c ≡ false)
            (λ k. (in_box (bounds self.now) p.now.c ≡ true) × (k ≡ place self.now p.now.c)) };

    /// How a cell lies to the box and to the places at which its points are counted.
    fn lie_of(&self, c: &Cell<D>) -> Lie
        ensures { LiesAs (bounds self.now) (place self.now) (parts self.now) (region_of c.now) result };

    /// Between which coordinates in dimension `d` the box lies.
    fn reach(&self, d: usize) -> (i32, i32)
        requires { d < D }
        ensures { IsReach (in_box (bounds self.now)) d result.0 result.1 };

    /// The last coordinate in dimension `d` up to which points may be counted at one place with those at `at`. It is
    /// only a guess.
    fn last_beside(&self, d: usize, at: &i32) -> i32;

    /// A dimension and a coordinate of it behind which a parted cell may fall into two that are not. It is only a
    /// guess.
    fn cut_of(&self, c: &Cell<D>) -> Option<(usize, i32)>;
}

/// A box, all points of which are counted at one place.
#[derive(Clone, Copy, Debug)]
pub(crate) struct WholeBox<const D: usize> {
    pub lo: Point<D>,
    pub hi: Point<D>,
}

impl<const D: usize> Sorting<D> for WholeBox<D> {
    ghost bounds = { λ s. record { lo = s.lo.c; hi = s.hi.c } };

    ghost place = { λ s p. 0 };

    ghost parts = { λ s cell. crosses (record { lo = s.lo.c; hi = s.hi.c }) cell };

    fn place_of(&self, p: &Point<D>) -> Option<usize> {
        if has(&self.lo, &self.hi, p) {
            Some(0)
        } else {
            None
        }
    }

    fn lie_of(&self, c: &Cell<D>) -> Lie {
        match relation(&self.lo, &self.hi, c) {
            Relation::Outside => Lie::Outside,
            Relation::Inside => Lie::At(0),
            Relation::Crosses => Lie::Parted,
        }
    }

    fn reach(&self, d: usize) -> (i32, i32) {
        (self.lo.c[d], self.hi.c[d])
    }

    fn last_beside(&self, d: usize, at: &i32) -> i32 {
        i32::MAX
    }

    fn cut_of(&self, c: &Cell<D>) -> Option<(usize, i32)> {
        edge_in(&self.lo, &self.hi, c)
    }
}

/// A dimension in which the box from `lo` to `hi` begins or ends within the cell, and the last coordinate before it
/// begins or the one with which it ends.
pub(crate) fn edge_in<const D: usize>(
    lo: &Point<D>,
    hi: &Point<D>,
    c: &Cell<D>,
) -> Option<(usize, i32)> {
    for d in 0..D {
        if c.lo().c[d] < lo.c[d] {
            return Some((d, lo.c[d] - 1));
        }
        if hi.c[d] < c.hi().c[d] {
            return Some((d, hi.c[d]));
        }
    }
    None
}

/// Whether the box from `lo` to `hi` has the point.
pub(crate) fn has<const D: usize>(lo: &Point<D>, hi: &Point<D>, p: &Point<D>) -> bool
    ensures { result ≡ in_box (record { lo = lo.now.c; hi = hi.now.c }) p.now.c }
{
    all_le(&lo.c, &p.c) && all_le(&p.c, &hi.c)
}

/// How the cell lies to the box from `lo` to `hi`.
pub(crate) fn relation<const D: usize>(lo: &Point<D>, hi: &Point<D>, c: &Cell<D>) -> Relation
    ensures { let bounds : Region = record { lo = lo.now.c; hi = hi.now.c } in
        RelatesTo (in_box bounds) (crosses bounds) (region_of c.now) result }
{
    BoxShape::new(*lo, *hi).compare(c)
}
