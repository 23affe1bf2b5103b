//! The parts of a level: the quarters of its cell, and the quarters of these.
//!
//! A level is for the cell of a leaf, whose points are many. Where its edges are many too, each of them would be asked
//! for each point. So the part round a point becomes a level of its own, with a quarter of the edges where these are
//! short, and half of them where they are long.

ghost use Rattle.std.specs.Prelude.{◌≡◌, ◌<◌, ◌≤◌, ◌-◌, true, IsTrue, IfSome, length, slice_index_or};
ghost use Rattle.point_codec.specs.Points.{in_box};
ghost use Rattle.point_codec.specs.Seen.{region_of};

use crate::level::{Level, innermost};
use point_codec::{Cell, Point};

/// How many parts there are: the whole, its quarters and theirs. The quarters of part n are the four from 4 n + 1 on.
pub const PARTS: usize = 21;

/// The parts below this one are quartered: in smaller ones there are too few points to pay for it.
pub const QUARTERED: usize = 5;

/// How many levels there are up to the one of each part, and 0 where it has none. It is a hint: what it leads to is
/// asked whether it has the point.
pub type Places = [usize; PARTS];

/// A level, told by how many there are up to it, and which part of the innermost one it is.
#[derive(Clone, Copy, Debug)]
pub struct Part {
    pub held: usize,
    pub number: usize,
}

/// The places where only the whole is known.
pub fn places_of(whole: usize) -> Places {
    let mut places = [0; PARTS];
    places[0] = whole;
    places
}

/// Which of its quarters is round a point of the cell.
pub fn quarter_of(c: &Cell<2>, p: &Point<2>) -> usize
    ensures { result < 4 }
{
    let is_east = p.c[0] > c.lo.c[0].midpoint(c.hi.c[0]);
    let is_north = p.c[1] > c.lo.c[1].midpoint(c.hi.c[1]);
    match (is_east, is_north) {
        (false, false) => 0,
        (true, false) => 1,
        (false, true) => 2,
        (true, true) => 3,
    }
}

/// The half of the range from `lo` to `hi` that has the number.
fn half_round(lo: i32, hi: i32, x: i32) -> (i32, i32) {
    let middle = lo.midpoint(hi);
    if x > middle {
        (middle.saturating_add(1), hi)
    } else {
        (lo, middle)
    }
}

/// The quarter of the cell round one of its points.
pub fn quarter_round(c: &Cell<2>, p: &Point<2>) -> Option<Cell<2>>
    ensures { IfSome result (λ quarter. (in_box (region_of c.now) quarter.lo.c ≡ true)
        × (in_box (region_of c.now) quarter.hi.c ≡ true)) }
{
    let (west, east) = half_round(c.lo.c[0], c.hi.c[0], p.c[0]);
    let (south, north) = half_round(c.lo.c[1], c.hi.c[1], p.c[1]);
    let quarter = Cell::new(Point { c: [west, south] }, Point { c: [east, north] })?;
    if c.has(&quarter.lo) && c.has(&quarter.hi) {
        Some(quarter)
    } else {
        None
    }
}

/// Whether so many levels there are, and the last of these has the point.
fn is_round(levels: &[Level], held: usize, p: &Point<2>) -> bool
    ensures some { IsTrue result → 0 < held }
    ensures there { IsTrue result → held ≤ length levels.now }
    ensures has { (d : Level) → IsTrue result
        → in_box (region_of (slice_index_or levels.now (held - 1) d).cell) p.now.c ≡ true }
{
    held > 0 && held <= levels.len() && levels[held - 1].cell.has(p)
}

/// The smallest part round the point; where the whole doesn't have it, the innermost level that does, which has no
/// parts.
pub fn innermost_part(levels: &[Level], places: &Places, p: &Point<2>) -> Part
    ensures number { result.number < 21 }
    ensures there { result.held ≤ length levels.now }
    ensures has { (d : Level) → 0 < result.held
        → in_box (region_of (slice_index_or levels.now (result.held - 1) d).cell) p.now.c ≡ true }
{
    let mut held = places[0];
    if !is_round(levels, held, p) {
        return Part {
            held: innermost(levels, p, p),
            number: QUARTERED,
        };
    }
    let mut number = 0;
    while number < QUARTERED {
        let next = 4 * number + 1 + quarter_of(&levels[held - 1].cell, p);
        if !is_round(levels, places[next], p) {
            break;
        }
        held = places[next];
        number = next;
    }
    Part { held, number }
}
