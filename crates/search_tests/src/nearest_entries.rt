//! Answers over a buffer alone that were reckoned by hand: ties, documents of several points, and the greatest
//! distance.

ghost use Rattle.std.specs.Prelude.{◌≤◌};

use crate::asserts::same;
use nearest_query::nearest;
use outer_io::MemFolder;
use page_cache::PageCache;
use point_codec::{Entry, Near, Point};
use std::alloc::Global;
use std::test::Fail;

/// The nearest among the entries of a buffer, as their numbers and distances.
fn nearest_in<const D: usize>(
    alloc: Global,
    buffer: &[Entry<D>],
    at: &Point<D>,
    k: u16,
) -> Result<Vec<Near>, Fail>
    requires some { 1 ≤ k }
    requires few { k ≤ 10000 }
    requires dims { D ≤ 8 }
{
    let mut cache = PageCache::new(alloc, 1)?;
    let mut folder = MemFolder::new(alloc, Vec::new(alloc));
    let found = nearest(
        alloc,
        &[],
        &[],
        buffer,
        &mut cache,
        &mut folder,
        at,
        k,
        false,
    )?;
    Ok(found.docs)
}

const TWO: [Entry<2>; 2] = [
    Entry {
        doc: 0,
        point: Point { c: [3, 4] },
    },
    Entry {
        doc: 1,
        point: Point { c: [0, 6] },
    },
];

const NEARER: [Near; 1] = [Near { doc: 0, dist2: 25 }];

#[test]
fn the_nearer_of_two(rt: HostRuntime) -> Result<(), Fail> {
    let found = nearest_in(rt.alloc(), &TWO, &Point { c: [0, 0] }, 1)?;
    same(&rt, found.as_slice(), NEARER.as_slice());
    Ok(())
}

const EQUALLY_NEAR: [Entry<1>; 3] = [
    Entry {
        doc: 2,
        point: Point { c: [10] },
    },
    Entry {
        doc: 1,
        point: Point { c: [-10] },
    },
    Entry {
        doc: 0,
        point: Point { c: [10] },
    },
];

const LEAST_NUMBERS: [Near; 2] = [Near { doc: 0, dist2: 100 }, Near { doc: 1, dist2: 100 }];

#[test]
fn equally_near_ones_by_number(rt: HostRuntime) -> Result<(), Fail> {
    let found = nearest_in(rt.alloc(), &EQUALLY_NEAR, &Point { c: [0] }, 2)?;
    same(&rt, found.as_slice(), LEAST_NUMBERS.as_slice());
    Ok(())
}

/// Number 0 has two points.
const SEVERAL_POINTS: [Entry<1>; 3] = [
    Entry {
        doc: 0,
        point: Point { c: [1] },
    },
    Entry {
        doc: 1,
        point: Point { c: [2] },
    },
    Entry {
        doc: 0,
        point: Point { c: [9] },
    },
];

const EACH_ONCE: [Near; 2] = [Near { doc: 0, dist2: 0 }, Near { doc: 1, dist2: 49 }];

#[test]
fn a_document_once_by_its_nearest_point(rt: HostRuntime) -> Result<(), Fail> {
    let found = nearest_in(rt.alloc(), &SEVERAL_POINTS, &Point { c: [9] }, 2)?;
    same(&rt, found.as_slice(), EACH_ONCE.as_slice());
    Ok(())
}

const GREATEST: [Entry<8>; 1] = [Entry {
    doc: 0,
    point: Point { c: [i32::MAX; 8] },
}];

const FARTHEST: [Near; 1] = [Near {
    doc: 0,
    dist2: 147573952520956936200,
}];

#[test]
fn the_greatest_distance_and_more_places_than_numbers(rt: HostRuntime) -> Result<(), Fail> {
    let found = nearest_in(rt.alloc(), &GREATEST, &Point { c: [i32::MIN; 8] }, 10000)?;
    same(&rt, found.as_slice(), FARTHEST.as_slice());
    Ok(())
}
