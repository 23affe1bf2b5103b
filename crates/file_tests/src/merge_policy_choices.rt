//! Which segments are merged, at the ends of levels.

use crate::asserts::holds;
use merge_policy::choose;

/// Two sizes, and whether they are of one level.
const PAIRS: [(u32, u32, bool); 9] = [
    (0, 999, true),
    (999, 1_000, false),
    (1_000, 9_999, true),
    (9_999, 10_000, false),
    (10_000, 99_999, true),
    (99_999, 100_000, false),
    (999_999, 1_000_000, false),
    (9_999_999, 10_000_000, false),
    (10_000_000, 16_777_216, true),
];

#[test]
fn sizes_have_levels(rt: HostRuntime) {
    for (less, greater, are_one) in PAIRS {
        let mut sizes = [less; 10];
        sizes[4] = greater;
        assert_eq!(rt;
            choose(&sizes, &[false; 10]).is_some(),
            are_one,
            "{less} and {greater}"
        );
    }
}

#[test]
fn chooses_the_first_ten_of_the_lowest_level(rt: HostRuntime) {
    // Twelve sizes of level 1 with ten of level 0 between them, of which one is pinned.
    let sizes = [
        1_000, 5, 5, 5, 5, 5, 5, 5, 5, 5, 5, 9_999, 2_000, 2_000, 2_000, 2_000, 2_000, 2_000,
        2_000, 2_000, 2_000, 2_000,
    ];
    let mut pinned = [false; 22];
    let lowest = choose(&sizes, &pinned);
    holds(
        &rt,
        lowest.is_some_and(|p| p.as_slice() == [1, 2, 3, 4, 5, 6, 7, 8, 9, 10].as_slice()),
    );
    pinned[3] = true;
    pinned[12] = true;
    let next = choose(&sizes, &pinned);
    holds(
        &rt,
        next.is_some_and(|p| p.as_slice() == [0, 11, 13, 14, 15, 16, 17, 18, 19, 20].as_slice()),
    );
    pinned[13] = true;
    pinned[14] = true;
    holds(&rt, choose(&sizes, &pinned).is_none());
    holds(&rt, choose(&[], &[]).is_none());
}
