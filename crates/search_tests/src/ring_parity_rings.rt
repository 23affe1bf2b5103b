//! Polygons, points and cells whose answers are known from outside.

use crate::asserts::{same, same_at};
use point_codec::{Cell, Point};
use ring_parity::{Ring, RingFault, Rings, any_meets, odd, on_any};
use std::alloc::{AllocError, Global};
use std::test::Fail;

const LEAST: i32 = i32::MIN;

const MOST: i32 = i32::MAX;

const SQUARE: [(i32, i32); 5] = [(0, 0), (10, 0), (10, 10), (0, 10), (0, 0)];

/// A square with a square hole.
const HOLED: [&[(i32, i32)]; 2] = [&SQUARE, &[(4, 4), (6, 4), (6, 6), (4, 6), (4, 4)]];

/// The two triangles between the diagonals of all the plane's points.
const HOURGLASS: [&[(i32, i32)]; 1] = [&[
    (LEAST, LEAST),
    (MOST, MOST),
    (MOST, LEAST),
    (LEAST, MOST),
    (LEAST, LEAST),
]];

const DIAMOND: [&[(i32, i32)]; 1] = [&[(0, -5), (5, 0), (0, 5), (-5, 0), (0, -5)]];

fn point(x: i32, y: i32) -> Point<2> {
    Point { c: [x, y] }
}

fn ring(alloc: Global, positions: &[(i32, i32)]) -> Result<Ring, AllocError> {
    let mut at = Vec::new(alloc);
    for (x, y) in positions {
        at.push(point(*x, *y))?;
    }
    Ok(Ring::new(at))
}

fn rings(alloc: Global, list: &[&[(i32, i32)]]) -> Result<Vec<Ring>, AllocError> {
    let mut made = Vec::new(alloc);
    for positions in list {
        made.push(ring(alloc, positions)?)?;
    }
    Ok(made)
}

/// Polygons and points: whether a point is on an edge, and whether it is within.
const POINTS: [(&[&[(i32, i32)]], i32, i32, bool, bool); 14] = [
    (&HOLED, 2, 2, false, true),
    (&HOLED, 5, 5, false, false),
    (&HOLED, 0, 0, true, true),
    (&HOLED, 10, 5, true, true),
    (&HOLED, 4, 5, true, true),
    (&HOLED, 11, 5, false, false),
    (&HOLED, -1, 4, false, false),
    (&HOURGLASS, 2_000_000_000, 0, false, true),
    (&HOURGLASS, 0, 2_000_000_000, false, false),
    (&HOURGLASS, -2_000_000_000, 0, false, true),
    (&DIAMOND, -6, 0, false, false),
    (&DIAMOND, 0, 0, false, true),
    (&DIAMOND, 5, 0, true, true),
    (&[], 0, 0, false, false),
];

#[test]
fn points_are_in_by_the_even_odd_rule(rt: HostRuntime) -> Result<(), Fail> {
    for (list, x, y, on, within) in POINTS {
        let polygon = Rings::new(rings(rt.alloc(), list)?)?;
        let p = point(x, y);
        same_at(&rt, on_any(&polygon, &p), on, &(x, y));
        same_at(
            &rt,
            on_any(&polygon, &p) || odd(&polygon, &p),
            within,
            &(x, y),
        );
    }
    Ok(())
}

/// Polygons and cells, and whether an edge meets the cell.
const CELLS: [(&[&[(i32, i32)]], [i32; 4], bool); 8] = [
    (&HOLED, [1, 1, 3, 3], false),
    (&HOLED, [3, 3, 7, 7], true),
    (&HOLED, [11, 0, 12, 1], false),
    (&HOLED, [10, 10, 12, 12], true),
    (&HOLED, [5, 5, 5, 5], false),
    (&DIAMOND, [3, 3, 4, 4], false),
    (&DIAMOND, [2, 2, 4, 4], true),
    (&HOURGLASS, [-1, 0, MOST, 1], true),
];

#[test]
fn cells_meet_edges(rt: HostRuntime) -> Result<(), Fail> {
    for (list, [west, south, east, north], meets) in CELLS {
        let polygon = Rings::new(rings(rt.alloc(), list)?)?;
        let cell = Cell::new(point(west, south), point(east, north)).ok_or("no cell")?;
        same_at(&rt, any_meets(&polygon, &cell), meets, &(west, south));
    }
    Ok(())
}

/// A ring of that many positions that goes to and fro.
fn long_ring(alloc: Global, positions: u32) -> Result<Ring, AllocError> {
    let mut at = Vec::new(alloc);
    for i in 0..positions {
        at.push(point(if i == 0 || i + 1 == positions { 0 } else { 1 }, 0))?;
    }
    Ok(Ring::new(at))
}

/// Rings, and the first fault of them.
const FAULTS: [(&[&[(i32, i32)]], Option<RingFault>); 6] = [
    (&[&[]], Some(RingFault::TooFew { ring: 0 })),
    (
        &[&SQUARE, &[(0, 0), (1, 0), (0, 0)]],
        Some(RingFault::TooFew { ring: 1 }),
    ),
    (
        &[&SQUARE, &[(0, 0), (1, 0), (1, 1), (0, 1)]],
        Some(RingFault::NotClosed { ring: 1 }),
    ),
    (
        &[&[(0, 0), (1, 0), (1, 1), (1, 0)], &[]],
        Some(RingFault::NotClosed { ring: 0 }),
    ),
    (&[&SQUARE, &SQUARE], None),
    (&[], None),
];

#[test]
fn rings_with_a_fault_are_refused(rt: HostRuntime) -> Result<(), Fail> {
    for (list, fault) in FAULTS {
        same(&rt, Rings::new(rings(rt.alloc(), list)?).err(), fault);
    }
    Ok(())
}

/// A ring of as many positions as there may be.
fn longest(alloc: Global) -> Result<Rings, Fail> {
    let mut list = Vec::new(alloc);
    list.push(long_ring(alloc, 65_536)?)?;
    Ok(Rings::new(list)?)
}

#[test]
fn the_longest_ring(rt: HostRuntime) -> Result<(), Fail> {
    let polygon = longest(rt.alloc())?;
    same(&rt, polygon.as_slice().len(), 1);
    let mut list = polygon.into_vec();
    list.push(ring(rt.alloc(), &[(0, 0)])?)?;
    let fault = RingFault::TooMany { positions: 65_537 };
    same(&rt, Rings::new(list).err(), Some(fault));
    Ok(())
}

/// So many rings without positions.
fn empty_rings(alloc: Global, count: u32) -> Result<Vec<Ring>, AllocError> {
    let mut list = Vec::new(alloc);
    for _ in 0..count {
        list.push(Ring::new(Vec::new(alloc)))?;
    }
    Ok(list)
}

#[test]
fn many_empty_rings(rt: HostRuntime) -> Result<(), Fail> {
    let list = empty_rings(rt.alloc(), 70_000)?;
    same(
        &rt,
        Rings::new(list).err(),
        Some(RingFault::TooFew { ring: 0 }),
    );
    Ok(())
}
