//! Queries of a segment all of whose pages are kept.

ghost use Rattle.std.specs.Prelude.{◌≤◌, ◌^◌};

use crate::crossed::Crossed;
use crate::draws::{coordinate, next};
use crate::stored::{Stored, everywhere};
use cell_relate::BoxShape;
use point_codec::Point;
use std::alloc::Global;
use std::marker::Sync;
use std::thread::Threads;

/// Half the width of a drawn box.
const HALF: i32 = 500;

/// Where the draws of queries begin.
const SEED: u64 = 7;

/// Drawn points, one after another.
#[derive(Drop)]
struct Centres(u64);

impl Centres {
    fn point(&mut self) -> Point<2> {
        let first = next(self.0);
        self.0 = next(first);
        Point {
            c: [coordinate(first), coordinate(self.0)],
        }
    }

    /// The box round a drawn point.
    fn around(&mut self) -> BoxShape<2> {
        let [x, y] = self.point().c;
        BoxShape::new(
            Point {
                c: [x.saturating_sub(HALF), y.saturating_sub(HALF)],
            },
            Point {
                c: [x.saturating_add(HALF), y.saturating_add(HALF)],
            },
        )
    }
}

/// How a walk meets the leaves.
#[derive(Clone, Copy)]
pub enum Walk {
    /// All points of each leaf's cell are in the shape.
    Inside,
    /// Each cell counts as crossed, so each entry is tested.
    Tested,
    /// Each walk has a box of its own, round a drawn centre.
    Boxes,
}

/// A sum over the numbers that so many walks over a segment of so many drawn entries find.
pub fn walked<R: Threads + Sync>(
    rt: &R,
    alloc: Global,
    kind: Walk,
    count: u32,
    times: u32,
) -> Option<u64>
    requires some { 1 ≤ count }
    requires few { count ≤ 2 ^ 24 }
{
    let mut stored = Stored::new(rt, alloc, count)?;
    let mut hits = Vec::new(alloc);
    let mut centres = Centres(SEED);
    let mut sum = 0u64;
    for _ in 0..times {
        let found = match kind {
            Walk::Inside => stored.walk(alloc, &mut everywhere(), &mut hits)?,
            Walk::Tested => stored.walk(alloc, &mut Crossed::new(everywhere()), &mut hits)?,
            Walk::Boxes => stored.walk(alloc, &mut centres.around(), &mut hits)?,
        };
        sum = sum.wrapping_add(found);
    }
    Some(sum)
}

/// A sum over the numbers that so many queries for the ten nearest among so many drawn entries find.
pub fn near<R: Threads + Sync>(rt: &R, alloc: Global, count: u32, times: u32) -> Option<u64>
    requires some { 1 ≤ count }
    requires few { count ≤ 2 ^ 24 }
{
    let mut stored = Stored::new(rt, alloc, count)?;
    let mut centres = Centres(SEED);
    let mut sum = 0u64;
    for _ in 0..times {
        let found = stored.nearest(alloc, &centres.point())?;
        sum = sum.wrapping_add(found);
    }
    Some(sum)
}
