//! Plans of grids: how a box is cut into buckets, and in which of them a point is counted.

ghost use Rattle.std.specs.Prelude.{◌≡◌, ◌≤◌, ◌<◌, ◌+◌, ◌*◌, ◌/◌};
ghost use Rattle.point_counts.specs.Grids.{IsMadeFor, plan_of, bucket_count, steps_between};
ghost use Rattle.point_counts.specs.Tables.{place_in};
ghost use Rattle.point_counts.specs.Costs.{is_parted};

use crate::sorting::{Lie, Sorting, edge_in, has, relation};
use cell_relate::Relation;
use point_codec::{Cell, Point, all_le};
use std::marker::Model;

/// The greatest number of buckets of a grid, filled or not.
const MOST_BUCKETS: u128 = 65_536;

/// A bucket of a grid: how many steps it is above the box's lower corner in both dimensions, and how many points it
/// has.
#[derive(Clone, Copy, PartialEq, Eq, Debug)]
pub struct Bucket {
    pub x: u32,
    pub y: u32,
    pub n: u64,
}

/// Why there is no such grid.
#[derive(Clone, Copy, PartialEq, Eq, Debug)]
pub enum GridFault {
    /// A dimension is none of the index, or both are one, or a step is 0.
    BadGrid,
    /// The box has more than 65,536 buckets.
    TooMany { buckets: u128 },
}

/// A box, and two of its dimensions in which it is cut into buckets, each with its step. Contracts see these.
#[derive(Debug, Drop)]
pub struct GridPlan<const D: usize> {
    lo: Point<D>,
    hi: Point<D>,
    x: usize,
    step_x: u32,
    y: usize,
    step_y: u32,
    /// The reciprocals of the steps.
    inverse_x: u64,
    inverse_y: u64,
    /// How many buckets there are above each other.
    rows: usize,
}

impl<const D: usize> Model for GridPlan<D> {
    ghost use Rattle.std.specs.Prelude.{◌≡◌, ◌+◌};
    ghost use Rattle.point_counts.specs.Grids.{Plan, IsPlan, plan_of, row_of};

    ghost Value = { Plan };

    ghost view = { λ p. plan_of p.lo.c p.hi.c p.x p.step_x p.y p.step_y };

    ghost invariant = { λ p. IsPlan D (plan_of p.lo.c p.hi.c p.x p.step_x p.y p.step_y)
        × (p.rows ≡ row_of (plan_of p.lo.c p.hi.c p.x p.step_x p.y p.step_y) p.hi.c + 1) };
}

impl<const D: usize> GridPlan<D> {
    ghost use Rattle.std.specs.Prelude.{◌≡◌, ◌+◌};
    ghost use Rattle.point_counts.specs.Grids.{IsPlan, Judges, plan_of, column_of, row_of, bucket_count};

    /// The plan of these. The faults come in the order in which `GridFault` has them; a box without points has no
    /// bucket. Takes no memory.
    pub fn new(
        lo: Point<D>,
        hi: Point<D>,
        x: u32,
        step_x: u32,
        y: u32,
        step_y: u32,
    ) -> Result<GridPlan<D>, GridFault>
        ensures { Judges D (plan_of lo.entry.c hi.entry.c x step_x y step_y) result }
    {
        let (column, row) = (x as usize, y as usize);
        if column >= D || row >= D || column == row || step_x == 0 || step_y == 0 {
            return Err(GridFault::BadGrid);
        }
        let buckets = buckets_of(&lo, &hi, column, step_x, row, step_y);
        if buckets > MOST_BUCKETS {
            return Err(GridFault::TooMany { buckets });
        }
        let rows = steps_between(lo.c[row], hi.c[row], step_y) as usize + 1;
        Ok(GridPlan {
            lo,
            hi,
            x: column,
            step_x,
            y: row,
            step_y,
            inverse_x: inverse_of(step_x),
            inverse_y: inverse_of(step_y),
            rows,
        })
    }

    /// How many buckets there are, filled or not.
    pub(crate) fn bucket_count(&self) -> usize
        ensures { result ≡ bucket_count self.now }
    {
        buckets_of(&self.lo, &self.hi, self.x, self.step_x, self.y, self.step_y) as usize
    }

    /// How many buckets there are above each other.
    pub(crate) fn rows(&self) -> usize
        ensures rows { result ≡ row_of self.now self.now.bounds.hi + 1 }
        ensures plan { IsPlan D self.now }
    {
        self.rows
    }

    /// The bucket of a point of the box.
    fn bucket_of(&self, p: &Point<D>) -> (u32, u32)
        ensures column { result.0 ≡ column_of self.now p.now.c }
        ensures row { result.1 ≡ row_of self.now p.now.c }
    {
        let column = steps_by(self.lo.c[self.x], p.c[self.x], self.step_x, self.inverse_x);
        let row = steps_by(self.lo.c[self.y], p.c[self.y], self.step_y, self.inverse_y);
        (column, row)
    }
}

impl<const D: usize> Sorting<D> for GridPlan<D> {
    ghost bounds = { λ s. s.bounds };

    ghost place = { place_in };

    ghost parts = { is_parted };

    fn place_of(&self, p: &Point<D>) -> Option<usize> {
        if !has(&self.lo, &self.hi, p) {
            return None;
        }
        let (column, row) = self.bucket_of(p);
        Some(place_at(column, row, self.rows))
    }

    fn lie_of(&self, c: &Cell<D>) -> Lie {
        match relation(&self.lo, &self.hi, c) {
            Relation::Outside => Lie::Outside,
            Relation::Crosses => Lie::Parted,
            Relation::Inside => {
                let (column, row) = self.bucket_of(c.lo());
                let (last_column, last_row) = self.bucket_of(c.hi());
                if column != last_column {
                    return Lie::Parted;
                }
                if row != last_row {
                    return Lie::Parted;
                }
                Lie::At(place_at(column, row, self.rows))
            }
        }
    }

    fn reach(&self, d: usize) -> (i32, i32) {
        (self.lo.c[d], self.hi.c[d])
    }

    fn last_beside(&self, d: usize, at: &i32) -> i32 {
        if d == self.x {
            return end_of_bucket(self.lo.c[self.x], at, self.step_x, self.inverse_x);
        }
        if d == self.y {
            return end_of_bucket(self.lo.c[self.y], at, self.step_y, self.inverse_y);
        }
        i32::MAX
    }

    fn cut_of(&self, c: &Cell<D>) -> Option<(usize, i32)> {
        if let Some(edge) = edge_in(&self.lo, &self.hi, c) {
            return Some(edge);
        }
        let column_end = self.last_beside(self.x, &c.lo().c[self.x]);
        if column_end < c.hi().c[self.x] {
            return Some((self.x, column_end));
        }
        Some((self.y, self.last_beside(self.y, &c.lo().c[self.y])))
    }
}

/// The last coordinate of the bucket of a coordinate that is no less than the first of all, or of all numbers.
fn end_of_bucket(first: i32, at: &i32, step: u32, inverse: u64) -> i32
    requires { 1 ≤ step }
{
    let steps = u64::from(steps_by(first, *at, step, inverse)) + 1;
    let end = i64::from(first).saturating_add_unsigned(steps * u64::from(step)) - 1;
    i32::try_from(end).unwrap_or(i32::MAX)
}

/// How many buckets the box has. None where it has no point.
fn buckets_of<const D: usize>(
    lo: &Point<D>,
    hi: &Point<D>,
    x: usize,
    step_x: u32,
    y: usize,
    step_y: u32,
) -> u128
    requires made { IsMadeFor D (plan_of lo.now.c hi.now.c x step_x y step_y) }
    ensures { result ≡ bucket_count (plan_of lo.now.c hi.now.c x step_x y step_y) }
{
    if !all_le(&lo.c, &hi.c) {
        return 0;
    }
    let columns = u128::from(steps_between(lo.c[x], hi.c[x], step_x)) + 1;
    let rows = u128::from(steps_between(lo.c[y], hi.c[y], step_y)) + 1;
    columns * rows
}

/// How many whole steps the second coordinate is above the first, which is no greater.
pub(crate) fn steps_between(low: i32, high: i32, step: u32) -> u32
    requires { 1 ≤ step }
    ensures { result ≡ steps_between step low high }
{
    high.abs_diff(low) / step
}

/// The same, by the reciprocal of the step.
fn steps_by(low: i32, high: i32, step: u32, inverse: u64) -> u32
    requires { 1 ≤ step }
    ensures { result ≡ steps_between step low high }
{
    quotient(high.abs_diff(low), step, inverse)
}

/// The reciprocal of a step, in parts of 2^64. It is only a guess.
fn inverse_of(step: u32) -> u64
    requires { 1 ≤ step }
{
    (u64::MAX / u64::from(step)).saturating_add(1)
}

/// How often a number has a step, by its reciprocal: a division is needed only where that guesses wrong.
fn quotient(n: u32, step: u32, inverse: u64) -> u32
    requires { 1 ≤ step }
    ensures { result ≡ n / step }
{
    let guess = u32::try_from((u128::from(n) * u128::from(inverse)) >> 64).unwrap_or(0);
    let whole = u64::from(guess) * u64::from(step);
    let next = whole + u64::from(step);
    if whole <= u64::from(n) && u64::from(n) < next {
        return guess;
    }
    n / step
}

/// Where the points of a bucket are counted.
fn place_at(column: u32, row: u32, rows: usize) -> usize
    requires { column * rows + row < 65536 }
    ensures { result ≡ column * rows + row }
{
    column as usize * rows + row as usize
}
