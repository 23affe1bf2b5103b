//! A shape that tests each entry.

ghost use Rattle.std.specs.Prelude.{true};
ghost use Rattle.point_codec.specs.Points.{in_box};

use cell_relate::{BoxShape, Relation, Shape};
use point_codec::{Cell, Point};

/// The points of a box, which is said to cross each cell. It tells no reach, so each entry of a leaf is tested.
#[derive(Drop)]
pub struct Crossed {
    bounds: BoxShape<2>,
    compares: u64,
}

impl Crossed {
    pub fn new(bounds: BoxShape<2>) -> Self {
        Crossed {
            bounds,
            compares: 0,
        }
    }
}

impl Shape<2> for Crossed {
    ghost has = { λ s p. in_box s.bounds.bounds p };

    ghost crosses = { λ s cell. true };

    ghost within_uncrossed = { λ s outer inner lies ordered crossed. crossed };

    ghost tests = { λ s. s.bounds.tests };

    ghost compares = { λ s. s.compares };

    fn contains(&mut self, p: &Point<2>) -> bool {
        self.bounds.contains(p)
    }

    fn compare(&mut self, _c: &Cell<2>) -> Relation {
        self.compares = self.compares.saturating_add(1);
        Relation::Crosses
    }
}
