//! Cells: the closed boxes of a tree's nodes.

ghost use Rattle.std.specs.Prelude.{◌≡◌, ◌<◌, ◌≤◌, ◌≤ℤ◌, ◌↔◌, length, List, ℤ, IsTrue, true, false, ◌&&◌};
ghost use Rattle.std.specs.Prelude.{◌||◌, MatchOption, IfSome, IsSome, map, slice_index_or, slice_set, pos, int_le};
ghost use Rattle.std.specs.Prelude.{◌-ℤ◌};
ghost use Rattle.std.specs.Int.{int_max, int_min};
ghost use Rattle.point_codec.specs.Points.{all_le, in_box, dist2, square};
ghost use Rattle.point_codec.specs.Cells.{by_dimension};

use crate::coordinates::{Point, squared_gap};
use crate::entries::Entry;

/// A closed box: the points from `lo` to `hi`, both counted. No coordinate of `lo` is greater than that of `hi`.
#[derive(Clone, Copy, PartialEq, Eq, Debug)]
pub struct Cell<const D: usize> {
    pub lo: Point<D>,
    pub hi: Point<D>,
    pub ghost ordered: { IsTrue (all_le lo.c hi.c) },
}

impl<const D: usize> Cell<D> {
    ghost use Rattle.point_codec.specs.Points.{all_le, in_box, dist2};
    ghost use Rattle.point_codec.specs.Cells.{left_of, right_of, nearest_in, IsLeastCell};
    ghost use Rattle.point_codec.specs.Seen.{region_of, items_of};

    /// The cell from `lo` to `hi`. None where some coordinate of `lo` is greater than that of `hi`.
    pub fn new(lo: Point<D>, hi: Point<D>) -> Option<Cell<D>>
        ensures cases { MatchOption result (all_le lo.entry.c hi.entry.c ≡ false)
            (λ cell. region_of cell ≡ record { lo = lo.entry.c; hi = hi.entry.c }) }
        ensures ordered { IfSome result (λ cell. IsTrue (all_le cell.lo.c cell.hi.c)) }
    {
        if all_le(&lo.c, &hi.c) {
            Some(Cell { lo, hi })
        } else {
            None
        }
    }

    /// The least cell round the points of the entries. None where there is no entry.
    pub fn of(entries: &[Entry<D>]) -> Option<Cell<D>>
        ensures some { IsSome result ↔ (0 < length entries.now) }
        ensures least { IfSome result (λ cell. IsLeastCell (map (λ x. x.at) (items_of entries.now)) (region_of cell)) }
    {
        let (first, rest) = entries.split_first()?;
        let mut lo = first.point;
        let mut hi = first.point;
        for entry in rest {
            lower(&mut lo.c, &entry.point.c);
            raise(&mut hi.c, &entry.point.c);
        }
        Some(Cell { lo, hi })
    }

    /// The least coordinates of the cell.
    pub fn lo(&self) -> &Point<D>
        ensures value { result.now.c ≡ self.now.lo.c }
        ensures ordered { IsTrue (all_le self.now.lo.c self.now.hi.c) }
    {
        &self.lo
    }

    /// The greatest coordinates of the cell.
    pub fn hi(&self) -> &Point<D>
        ensures value { result.now.c ≡ self.now.hi.c }
        ensures ordered { IsTrue (all_le self.now.lo.c self.now.hi.c) }
    {
        &self.hi
    }

    /// Whether the point lies in the cell.
    pub fn has(&self, p: &Point<D>) -> bool
        ensures { result ≡ in_box (region_of self.now) p.now.c }
    {
        all_le(&self.lo.c, &p.c) && all_le(&p.c, &self.hi.c)
    }

    /// The cell cut at the value `at` of dimension `dim`: the left cell ends at the value, the right one begins at it.
    pub fn split(&self, dim: usize, at: i32) -> (Cell<D>, Cell<D>)
        requires dim { dim < D }
        requires from { slice_index_or self.now.lo.c dim (pos 0) ≤ℤ at }
        requires to { at ≤ℤ slice_index_or self.now.hi.c dim (pos 0) }
        ensures left { region_of result.0 ≡ left_of (region_of self.now) dim at }
        ensures right { region_of result.1 ≡ right_of (region_of self.now) dim at }
        // the points of the cell that are at most at the value, and those that are at least at it
        ensures keeps_left { (p : List ℤ) → length p ≡ D
            → in_box (region_of result.0) p ≡
            (in_box (region_of self.now) p && int_le (slice_index_or p dim (pos 0)) at) }
        ensures keeps_right { (p : List ℤ) → length p ≡ D
            → in_box (region_of result.1) p ≡
            (in_box (region_of self.now) p && int_le at (slice_index_or p dim (pos 0))) }
        ensures together { (p : List ℤ) → length p ≡ D
            → in_box (region_of self.now) p ≡ (in_box (region_of result.0) p || in_box (region_of result.1) p) }
        // those at the value are in both
        ensures shared { (p : List ℤ) → length p ≡ D → slice_index_or p dim (pos 0) ≡ at
            → (in_box (region_of result.0) p ≡ in_box (region_of self.now) p)
            × (in_box (region_of result.1) p ≡ in_box (region_of self.now) p) }
    {
        let hi = moved_to(&self.hi, dim, at);
        let lo = moved_to(&self.lo, dim, at);
        (Cell { lo: self.lo, hi }, Cell { lo, hi: self.hi })
    }

    #[tactic(auto, using(crate::proofs::Distances::nearest_dropped, crate::proofs::Corners::all_le_at))]
    /// The least squared distance from `p` to a point of the cell. It is below 2^67.
    pub fn least_dist2(&self, p: &Point<D>) -> u128
        ensures value { result ≡ dist2 p.now.c (nearest_in (region_of self.now) p.now.c) }
        ensures bound { (q : List ℤ) → IsTrue (in_box (region_of self.now) q) → result ≤ dist2 p.now.c q }
        ensures reached { IsTrue (in_box (region_of self.now) (nearest_in (region_of self.now) p.now.c)) }
    {
        let mut sum = 0;
        for i in 0..D {
            sum += u128::from(squared_gap_to(&p.c[i], &self.lo.c[i], &self.hi.c[i]));
        }
        sum
    }
}

/// The square of the difference of `x` and the number from `lo` to `hi` that is nearest to it.
fn squared_gap_to(x: &i32, lo: &i32, hi: &i32) -> u64
    requires { lo.now ≤ℤ hi.now }
    ensures { result ≡ square (x.now -ℤ int_max lo.now (int_min x.now hi.now)) }
{
    let nearest = (*x).clamp(*lo, *hi);
    squared_gap(x, &nearest)
}

/// The point with another value in the dimension.
fn moved_to<const D: usize>(p: &Point<D>, dim: usize, value: i32) -> Point<D>
    requires { dim < D }
    ensures { result.c ≡ slice_set p.now.c dim value }
{
    let mut moved = *p;
    moved.c[dim] = value;
    moved
}

#[tactic(auto, using(crate::proofs::Corners::by_dimension_step))]
/// Moves the corner down as far as the point in each dimension.
fn lower(corner: &mut [i32], p: &[i32])
    requires { length corner.old ≡ length p.now }
    ensures { corner.new ≡ by_dimension int_min corner.old p.now }
{
    for i in 0..p.len() {
        corner[i] = corner[i].min(p[i]);
    }
}

#[tactic(auto, using(crate::proofs::Corners::by_dimension_step))]
/// Moves the corner up as far as the point in each dimension.
fn raise(corner: &mut [i32], p: &[i32])
    requires { length corner.old ≡ length p.now }
    ensures { corner.new ≡ by_dimension int_max corner.old p.now }
{
    for i in 0..p.len() {
        corner[i] = corner[i].max(p[i]);
    }
}

#[tactic(auto, using(crate::proofs::Distances::all_le_dropped))]
/// Whether no coordinate of `a` is greater than that of `b` in the same dimension.
pub fn all_le(a: &[i32], b: &[i32]) -> bool
    requires { length a.now ≡ length b.now }
    ensures { result ≡ all_le a.now b.now }
{
    for i in 0..a.len() {
        if a[i] > b[i] {
            return false;
        }
    }
    true
}
