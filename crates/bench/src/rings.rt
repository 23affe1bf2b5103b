//! Points and small cells beside a star-shaped ring.

use edge_tree::EdgeTree;
use point_codec::{Cell, Point};
use ring_parity::{Ring, Rings, any_meets, odd, on_any};
use std::alloc::{AllocError, Global};

/// Half the width of the ring.
const RADIUS: i64 = 1_000_000;

/// Draws by the minimal standard generator of Park and Miller.
#[derive(Drop)]
struct Draws(u64);

impl Draws {
    fn below(&mut self, limit: i64) -> i64 {
        self.0 = self.0 % 2_147_483_647 * 48_271 % 2_147_483_647;
        i64::try_from(self.0)
            .unwrap_or(0)
            .checked_rem(limit)
            .unwrap_or(0)
    }

    fn coordinate(&mut self) -> i32 {
        narrow(self.below(2 * RADIUS).saturating_sub(RADIUS))
    }
}

fn narrow(x: i64) -> i32 {
    i32::try_from(x).unwrap_or(0)
}

/// A ring round the origin of so many positions, whose distances vary by a tenth.
fn star(alloc: Global, positions: u32) -> Result<Vec<Point<2>>, AllocError> {
    let mut draws = Draws(1);
    let mut at = Vec::new(alloc);
    let mut first = Point { c: [0, 0] };
    for k in 0..positions {
        let step = i64::from(k)
            .saturating_mul(4 * RADIUS)
            .checked_div(i64::from(positions))
            .unwrap_or(0);
        let along = step.checked_rem(RADIUS).unwrap_or(0);
        let (x, y) = match step.checked_div(RADIUS) {
            Some(0) => (RADIUS.saturating_sub(along), along),
            Some(1) => (along.saturating_neg(), RADIUS.saturating_sub(along)),
            Some(2) => (along.saturating_sub(RADIUS), along.saturating_neg()),
            _ => (along, along.saturating_sub(RADIUS)),
        };
        let distance = RADIUS.saturating_sub(draws.below(RADIUS / 10));
        let point = Point {
            c: [scaled(x, distance), scaled(y, distance)],
        };
        if k == 0 {
            first = point;
        }
        at.push(point)?;
    }
    at.push(first)?;
    Ok(at)
}

fn scaled(x: i64, distance: i64) -> i32 {
    narrow(x.saturating_mul(distance).checked_div(RADIUS).unwrap_or(0))
}

/// How many drawn points are in the ring, and how many cells of a hundredth of its width its edges meet.
pub(crate) fn inside_and_met(
    alloc: Global,
    by_tree: bool,
    positions: u32,
    queries: u32,
) -> Option<(u32, u32)> {
    let mut list = Vec::new(alloc);
    list.push(Ring::new(star(alloc, positions).ok()?)).ok()?;
    let rings = Rings::new(list).ok()?;
    let tree = EdgeTree::new(alloc, &rings).ok()?;
    let mut draws = Draws(7);
    let mut inside = 0u32;
    let mut met = 0u32;
    for _ in 0..queries {
        let point = Point {
            c: [draws.coordinate(), draws.coordinate()],
        };
        let cell = Cell::new(point, corner(&point))?;
        let (has, meets) = if by_tree {
            (tree.contains(&point), tree.any_meets(&cell))
        } else {
            (
                on_any(&rings, &point) || odd(&rings, &point),
                any_meets(&rings, &cell),
            )
        };
        inside = inside.saturating_add(u32::from(has));
        met = met.saturating_add(u32::from(meets));
    }
    Some((inside, met))
}

/// The far corner of the cell that begins at a point.
fn corner(point: &Point<2>) -> Point<2> {
    let side = narrow(RADIUS / 50);
    Point {
        c: [
            point.c[0].saturating_add(side),
            point.c[1].saturating_add(side),
        ],
    }
}
