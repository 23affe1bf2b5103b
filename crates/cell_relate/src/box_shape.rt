//! A box as a shape.

ghost use Rattle.std.specs.Prelude.{◌≡◌, ◌-◌};
ghost use Rattle.point_codec.specs.Points.{Region, all_le, in_box};
ghost use Rattle.point_codec.specs.Seen.{region_of};
ghost use Rattle.point_codec.specs.Cells.{within};
ghost use Rattle.cell_relate.specs.Boxes.{meets, crosses};
ghost use Rattle.cell_relate.specs.BoxLaws.{box_keeps};
ghost use Rattle.cell_relate.specs.Relations.{RelatesTo};

use crate::shape::{Relation, Shape};
use point_codec::{Cell, Point, all_le};
use std::marker::Model;

/// The points from one corner to another, both counted, with the number of questions that were asked of it. Where some
/// coordinate of the first corner is above that of the second the box has no point.
#[derive(Debug, Drop)]
pub struct BoxShape<const D: usize> {
    lo: Point<D>,
    hi: Point<D>,
    tests: u64,
    compares: u64,
}

impl<const D: usize> Model for BoxShape<D> {
    ghost use Rattle.cell_relate.specs.Boxes.{CountedBox};

    ghost Value = { CountedBox };

    ghost view = { λ b. record { bounds = record { lo = b.lo.c; hi = b.hi.c }; tests = b.tests; compares = b.compares } };
}

impl<const D: usize> BoxShape<D> {
    /// The box from `lo` to `hi`, of which nothing was asked yet.
    pub fn new(lo: Point<D>, hi: Point<D>) -> Self
        ensures { result ≡ record { bounds = record { lo = lo.entry.c; hi = hi.entry.c }; tests = 0; compares = 0 } }
    {
        BoxShape {
            lo,
            hi,
            tests: 0,
            compares: 0,
        }
    }

    /// How many points were asked for.
    pub fn tests(&self) -> u64
        ensures { result ≡ self.now.tests }
    {
        self.tests
    }

    /// How many cells were asked for.
    pub fn compares(&self) -> u64
        ensures { result ≡ self.now.compares }
    {
        self.compares
    }
}

impl<const D: usize> Shape<D> for BoxShape<D> {
    ghost has = { λ s p. in_box s.bounds p };

    ghost crosses = { λ s cell. crosses s.bounds cell };

    ghost within_uncrossed = { λ s. box_keeps s.bounds };

    ghost tests = { λ s. s.tests };

    ghost compares = { λ s. s.compares };

    fn contains(&mut self, p: &Point<D>) -> bool {
        self.tests = self.tests.saturating_add(1);
        all_le(&self.lo.c, &p.c) && all_le(&p.c, &self.hi.c)
    }

    fn compare(&mut self, c: &Cell<D>) -> Relation {
        self.compares = self.compares.saturating_add(1);
        relation_of(&self.lo, &self.hi, c)
    }

    fn reach(&self, d: usize) -> Option<(i32, i32)> {
        Some((self.lo.c[d], self.hi.c[d]))
    }
}

/// How the cell lies to the box from `lo` to `hi`.
fn relation_of<const D: usize>(lo: &Point<D>, hi: &Point<D>, c: &Cell<D>) -> Relation
    ensures { let bounds : Region = record { lo = lo.now.c; hi = hi.now.c } in
        RelatesTo (in_box bounds) (crosses bounds) (region_of c.now) result }
{
    if !meets(lo, hi, c) {
        Relation::Outside
    } else if has_whole(lo, hi, c) {
        Relation::Inside
    } else {
        Relation::Crosses
    }
}

/// Whether the box from `lo` to `hi` and the cell have a common point.
fn meets<const D: usize>(lo: &Point<D>, hi: &Point<D>, c: &Cell<D>) -> bool
    ensures { result ≡ meets (record { lo = lo.now.c; hi = hi.now.c }) (region_of c.now) }
{
    all_le(&lo.c, &c.hi.c) && all_le(&c.lo.c, &hi.c) && all_le(&lo.c, &hi.c)
}

/// Whether the cell lies within the box from `lo` to `hi`.
fn has_whole<const D: usize>(lo: &Point<D>, hi: &Point<D>, c: &Cell<D>) -> bool
    ensures { result ≡ within (region_of c.now) (record { lo = lo.now.c; hi = hi.now.c }) }
{
    all_le(&lo.c, &c.lo.c) && all_le(&c.hi.c, &hi.c)
}
