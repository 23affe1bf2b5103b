//! Boxes and cells, with answers reckoned by hand.

use crate::asserts::{same, same_at};
use cell_relate::{BoxShape, Relation, Shape};
use point_codec::{Cell, Point};
use std::test::Fail;

/// Asks as a walk does, which knows no more than the bound.
fn ask<S: Shape<2>>(shape: &mut S, lo: [i32; 2], hi: [i32; 2]) -> Option<(Relation, bool)> {
    let cell = Cell::new(Point { c: lo }, Point { c: hi })?;
    let relation = shape.compare(&cell);
    Some((relation, shape.contains(cell.lo())))
}

/// Cells; how they lie to the box, and whether their lower corner is in it.
const CELLS: [([i32; 2], [i32; 2], (Relation, bool)); 10] = [
    ([1, 1], [3, 3], (Relation::Inside, true)),
    ([0, 0], [10, 20], (Relation::Inside, true)),
    ([5, 20], [5, 20], (Relation::Inside, true)),
    ([3, 3], [11, 7], (Relation::Crosses, true)),
    ([3, -1], [4, 7], (Relation::Crosses, false)),
    ([-5, -5], [30, 30], (Relation::Crosses, false)),
    ([10, 20], [12, 22], (Relation::Crosses, true)),
    ([11, 0], [12, 1], (Relation::Outside, false)),
    ([0, -9], [10, -1], (Relation::Outside, false)),
    ([-9, 21], [-1, 30], (Relation::Outside, false)),
];

#[test]
fn a_box_and_cells(rt: HostRuntime) -> Result<(), Fail> {
    let mut shape = BoxShape::new(Point { c: [0, 0] }, Point { c: [10, 20] });
    for (lo, hi, told) in CELLS {
        same_at(&rt, ask(&mut shape, lo, hi), Some(told), &(lo, hi));
    }
    same(&rt, (shape.tests(), shape.compares()), (10, 10));
    Ok(())
}

#[test]
fn a_box_without_points(rt: HostRuntime) -> Result<(), Fail> {
    let mut shape = BoxShape::new(Point { c: [0, 5] }, Point { c: [10, 4] });
    for (lo, hi) in [([0, 4], [10, 5]), ([0, 5], [0, 5]), ([-9, -9], [9, 9])] {
        same(
            &rt,
            ask(&mut shape, lo, hi),
            Some((Relation::Outside, false)),
        );
    }
    Ok(())
}

#[test]
fn eight_dimensions(rt: HostRuntime) -> Result<(), Fail> {
    let least = Point { c: [i32::MIN; 8] };
    let greatest = Point { c: [i32::MAX; 8] };
    let all = Cell::new(least, greatest).ok_or("no cell")?;
    same(
        &rt,
        BoxShape::new(least, greatest).compare(&all),
        Relation::Inside,
    );
    let mut last = [i32::MAX; 8];
    last[7] -= 1;
    same(
        &rt,
        BoxShape::new(least, Point { c: last }).compare(&all),
        Relation::Crosses,
    );
    Ok(())
}
