//! Draws as they are published, and the points and boxes that are made of them.

use crate::asserts::{same, same_at};
use drawn_points::Draws;

/// Seeds with the number of a draw and the draw. The first are this generator's own; the 10,000th is the one that the
/// C++ standard gives for its `minstd_rand`.
const DRAWN: [(u32, u32, u32); 5] = [
    (1, 1, 48_271),
    (1, 2, 182_605_794),
    (1, 3, 1_291_394_886),
    (1, 10_000, 399_268_537),
    (2_147_483_646, 1, 2_147_435_376),
];

#[test]
fn draws_as_published(rt: HostRuntime) {
    for (seed, number, drawn) in DRAWN {
        let mut draws = Draws::new(seed);
        let mut last = 0;
        for _ in 0..number {
            last = draws.coordinate();
        }
        // a coordinate is a draw's rest by the number of its values
        same_at(
            &rt,
            last,
            (drawn % 200_001) as i32 - 100_000,
            &(number, seed),
        );
    }
}

#[test]
fn draws_points_and_boxes(rt: HostRuntime) {
    same(&rt, Draws::new(1).coordinate(), -51_729);
    let mut draws = Draws::new(1);
    let point = draws.point();
    same(&rt, point.c, [-51_729, -95_119]);
    // the next two draws are those behind the point's
    let (lo, hi) = draws.corners();
    same(&rt, lo.c, [83_430, 6_064]);
    same(&rt, hi.c, [93_430, 16_064]);
}
