//! Ranges, and the boxes of the ranges that are answers on one.

ghost use Rattle.std.specs.Prelude.{◌≡◌, ◌+◌, ◌*◌, ◌/◌, ◌%◌, ◌≤◌, ◌++◌, length, replicate, true};
ghost use Rattle.std.specs.List.{list_all};
ghost use Rattle.point_codec.specs.Seen.{coordinates_of};
ghost use Rattle.range_docs.specs.Ranges.{range_of, is_range, query_of, bounds_of, box_for, HasAnswers, least};
ghost use Rattle.range_docs.specs.Ranges.{greatest};
ghost use Rattle.range_docs.specs.declared.ranges.Question.TheVariants as ask;

use point_codec::{Point, all_le};

/// What is asked of stored ranges.
#[derive(Clone, Copy, PartialEq, Eq, Debug)]
pub enum Question {
    /// Which have a point of the query's range.
    Intersects,
    /// Which have only points of the query's range.
    Within,
    /// Which have all points of the query's range.
    Contains,
}

/// The box of the ranges that have a point of the query's range. The ends of that are the first `r` coordinates of `lo`
/// and `hi`.
pub fn intersecting<const D: usize>(lo: &Point<D>, hi: &Point<D>, r: usize) -> (Point<D>, Point<D>)
    requires { D ≡ 2 * r }
    ensures bounds { bounds_of result ≡ box_for ask.Intersects (query_of r lo.now hi.now) }
    ensures answers { HasAnswers ask.Intersects r (query_of r lo.now hi.now) (bounds_of result) }
{
    let (from, _) = lo.c.split_at(r);
    let (to, _) = hi.c.split_at(r);
    (above_least(from), below_greatest(to))
}

/// The box of the ranges that have only points of the query's range. The ends of that are the first `r` coordinates of
/// `lo` and `hi`.
pub fn inside<const D: usize>(lo: &Point<D>, hi: &Point<D>, r: usize) -> (Point<D>, Point<D>)
    requires { D ≡ 2 * r }
    ensures bounds { bounds_of result ≡ box_for ask.Within (query_of r lo.now hi.now) }
    ensures answers { HasAnswers ask.Within r (query_of r lo.now hi.now) (bounds_of result) }
{
    let (from, _) = lo.c.split_at(r);
    let (to, _) = hi.c.split_at(r);
    (joined(from, from), joined(to, to))
}

/// The box of the ranges that have all points of the query's range. The ends of that are the first `r` coordinates of
/// `lo` and `hi`.
pub fn around<const D: usize>(lo: &Point<D>, hi: &Point<D>, r: usize) -> (Point<D>, Point<D>)
    requires { D ≡ 2 * r }
    ensures bounds { bounds_of result ≡ box_for ask.Contains (query_of r lo.now hi.now) }
    ensures answers { HasAnswers ask.Contains r (query_of r lo.now hi.now) (bounds_of result) }
{
    let (from, _) = lo.c.split_at(r);
    let (to, _) = hi.c.split_at(r);
    (above_least(to), below_greatest(from))
}

/// The box of the ranges that are answers on the one that the point tells.
pub(crate) fn bounds<const D: usize>(question: Question, ends: &Point<D>) -> (Point<D>, Point<D>)
    requires { D % 2 ≡ 0 }
    ensures { bounds_of result ≡ box_for question (range_of (D / 2) ends.now.c) }
{
    let (lower, upper) = ends.c.split_at(D / 2);
    let hi = joined(upper, lower);
    match question {
        Question::Intersects => intersecting(ends, &hi, D / 2),
        Question::Within => inside(ends, &hi, D / 2),
        Question::Contains => around(ends, &hi, D / 2),
    }
}

/// The least lower ends, and these upper ends.
fn above_least<const D: usize>(upper: &[i32]) -> Point<D>
    requires some { 1 ≤ D }
    requires few { D ≤ 8 }
    requires half { D ≡ 2 * length upper.now }
    ensures { result.c ≡ replicate (length upper.now) least ++ upper.now }
{
    let least = [i32::MIN; D];
    let (lower, _) = least.split_at(upper.len());
    joined(lower, upper)
}

/// These lower ends, and the greatest upper ends.
fn below_greatest<const D: usize>(lower: &[i32]) -> Point<D>
    requires some { 1 ≤ D }
    requires few { D ≤ 8 }
    requires half { D ≡ 2 * length lower.now }
    ensures { result.c ≡ lower.now ++ replicate (length lower.now) greatest }
{
    let greatest = [i32::MAX; D];
    let (upper, _) = greatest.split_at(lower.len());
    joined(lower, upper)
}

/// The point of these coordinates, one list after the other.
pub(crate) fn joined<const D: usize>(lower: &[i32], upper: &[i32]) -> Point<D>
    requires some { 1 ≤ D }
    requires few { D ≤ 8 }
    requires all { length lower.now + length upper.now ≡ D }
    ensures { result.c ≡ lower.now ++ upper.now }
{
    let mut c = [0; D];
    let (front, back) = c.split_at_mut(lower.len());
    front.copy_from_slice(lower);
    back.copy_from_slice(upper);
    Point { c }
}

/// Whether the point is a range: no lower end is greater than its upper end.
pub(crate) fn is_range<const D: usize>(p: &Point<D>) -> bool
    requires { D % 2 ≡ 0 }
    ensures { result ≡ is_range (range_of (D / 2) p.now.c) }
{
    let (lower, upper) = p.c.split_at(D / 2);
    all_le(lower, upper)
}

/// Whether each of the points is a range.
pub(crate) fn are_ranges<const D: usize>(points: &[Point<D>]) -> bool
    requires { D % 2 ≡ 0 }
    ensures { result ≡ list_all (λ p. is_range (range_of (D / 2) p)) (coordinates_of points.now) }
{
    for p in points {
        if !is_range(p) {
            return false;
        }
    }
    true
}
