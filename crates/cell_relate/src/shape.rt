//! What a walk over cells asks of a shape.

ghost use Rattle.std.specs.Prelude.{◌≡◌, ℕ, ◌+◌, ◌-◌, ◌^◌, ◌<◌, min, List, ℤ, Bool, IfSome};
ghost use Rattle.point_codec.specs.Points.{Region};
ghost use Rattle.point_codec.specs.Seen.{region_of};
ghost use Rattle.cell_relate.specs.Relations.{RelatesTo, KeepsUncrossed, IsReach};

use point_codec::{Cell, Point};

/// How a cell lies to a shape (the three answers of Apache Lucene's `compare`).
#[derive(Clone, Copy, PartialEq, Eq, Debug)]
pub enum Relation {
    /// The shape does not cross the cell and has all its points.
    Inside,
    /// The shape does not cross the cell and has none of its points.
    Outside,
    /// The shape crosses the cell.
    Crosses,
}

/// A set of points that can be asked for a point and for a cell, and counts both questions.
///
/// `has` says which points the shape has, `crosses` which cells it crosses: a cell that it doesn't cross has all its
/// points in the shape or none, and by the law `within_uncrossed` each cell within it isn't crossed either. `tests` and
/// `compares` are how often `contains` and `compare` were asked; a count stands still at the greatest number of 64
/// bits. No call changes which points the shape has or which cells it crosses.
pub trait Shape<const D: usize> {
    ghost has: { Self → List ℤ → Bool };

    ghost crosses: { Self → Region → Bool };

    ghost within_uncrossed: { (s : Self) → KeepsUncrossed (crosses s) };

    ghost tests: { Self → ℕ };

    ghost compares: { Self → ℕ };

    /// Whether the shape has the point.
    fn contains(&mut self, p: &Point<D>) -> bool
        ensures answer { result ≡ has self.old p.now.c }
        ensures tests { tests self.new ≡ min (tests self.old + 1) (2 ^ 64 - 1) }
        ensures compares { compares self.new ≡ compares self.old }
        ensures has { has self.new ≡ has self.old }
        ensures crosses { crosses self.new ≡ crosses self.old };

    /// How the cell lies to the shape.
    fn compare(&mut self, c: &Cell<D>) -> Relation
        ensures answer { RelatesTo (has self.old) (crosses self.old) (region_of c.now) result }
        ensures compares { compares self.new ≡ min (compares self.old + 1) (2 ^ 64 - 1) }
        ensures tests { tests self.new ≡ tests self.old }
        ensures has { has self.new ≡ has self.old }
        ensures crosses { crosses self.new ≡ crosses self.old };

    /// The least and the greatest coordinate in dimension `d` between which all points of the shape lie. None where the
    /// shape doesn't know, and so of a shape that tells nothing here.
    fn reach(&self, d: usize) -> Option<(i32, i32)>
        requires { d < D }
        ensures { IfSome result (λ ends. IsReach (has self.now) d ends.0 ends.1) }
    {
        None
    }
}
