//! A walk down through cells within cells: a locator answers as the plain list of edges does.

use crate::asserts::same;
use crate::drawn_edges::{Draws, drawn};
use edge_tree::Locator;
use point_codec::{Cell, Point};
use ring_parity::{Ring, Rings, any_meets, odd, on_any};
use std::alloc::Global;
use std::process::Abort;
use std::test::Fail;

/// A ring, how many cells a walk goes down, each half of the one before, and how many points it asks for in each.
struct Row {
    is_smooth: bool,
    cells: usize,
    points: usize,
}

const ROWS: [Row; 4] = [
    Row {
        is_smooth: false,
        cells: 1,
        points: 60,
    },
    Row {
        is_smooth: false,
        cells: 9,
        points: 20,
    },
    Row {
        is_smooth: true,
        cells: 6,
        points: 30,
    },
    Row {
        is_smooth: true,
        cells: 12,
        points: 20,
    },
];

/// A ring of a thousand positions, most of them on a parabola.
fn smooth(alloc: Global) -> Result<Rings, Fail> {
    let first = Point {
        c: [-100_000, 90_000],
    };
    let mut at = Vec::new(alloc);
    at.push(first)?;
    for i in 0..1000_i32 {
        let x = i.saturating_mul(200).saturating_sub(100_000);
        let y = (x / 300).saturating_mul(x / 400);
        at.push(Point { c: [x, y] })?;
    }
    at.push(Point {
        c: [100_000, 90_000],
    })?;
    at.push(first)?;
    let mut list = Vec::new(alloc);
    list.push(Ring::new(at))?;
    Ok(Rings::new(list)?)
}

/// The cell of all positions of both rings.
fn whole() -> Option<Cell<2>> {
    Cell::new(
        Point {
            c: [-100_000, -100_000],
        },
        Point {
            c: [100_000, 100_000],
        },
    )
}

/// The half of the range from `lo` to `hi` nearer to a number.
fn half(lo: i32, hi: i32, x: i32) -> (i32, i32) {
    let middle = lo.midpoint(hi);
    if x > middle {
        (middle, hi)
    } else {
        (lo, middle)
    }
}

/// The half of the cell nearer to a point, cut across or along.
fn half_of(cell: &Cell<2>, aim: &Point<2>, across: bool) -> Option<Cell<2>> {
    let (mut lo, mut hi) = (*cell.lo(), *cell.hi());
    if across {
        (lo.c[0], hi.c[0]) = half(lo.c[0], hi.c[0], aim.c[0]);
    } else {
        (lo.c[1], hi.c[1]) = half(lo.c[1], hi.c[1], aim.c[1]);
    }
    Cell::new(lo, hi)
}

/// The point of the cell nearest to this one.
fn moved_into(cell: &Cell<2>, p: &Point<2>) -> Point<2> {
    let (lo, hi) = (cell.lo(), cell.hi());
    Point {
        c: [
            p.c[0].max(lo.c[0]).min(hi.c[0]),
            p.c[1].max(lo.c[1]).min(hi.c[1]),
        ],
    }
}

/// Goes down from the whole to a point, and asks for each cell and for points of it.
fn walk_down(
    rt: &impl Abort,
    locator: &mut Locator,
    rings: &Rings,
    row: &Row,
    draws: &mut Draws,
) -> Result<(), Fail> {
    let aim = draws.point();
    let mut cell = whole().ok_or("a cell above its own corner")?;
    let mut across = true;
    for _ in 0..row.cells {
        same(rt, locator.any_meets(&cell), any_meets(rings, &cell));
        for _ in 0..row.points {
            let p = moved_into(&cell, &draws.point());
            let is_within = on_any(rings, &p) || odd(rings, &p);
            same(rt, locator.contains(&p), is_within);
        }
        cell = half_of(&cell, &aim, across).ok_or("a half above its own corner")?;
        across = !across;
    }
    Ok(())
}

#[test]
fn equals_the_plain_list(rt: HostRuntime) -> Result<(), Fail> {
    let mut draws = Draws(7);
    for row in &ROWS {
        let rings = if row.is_smooth {
            smooth(rt.alloc())?
        } else {
            drawn(rt.alloc(), &mut draws)?
        };
        let mut locator = Locator::new(rt.alloc(), &rings)?;
        for _ in 0..3 {
            walk_down(&rt, &mut locator, &rings, row, &mut draws)?;
        }
    }
    Ok(())
}
