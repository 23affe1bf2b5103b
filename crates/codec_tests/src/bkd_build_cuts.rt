//! Tests of the widest dimension and of the cut, with values that were reckoned by hand.

use crate::asserts::same;
use crate::samples::entry;
use bkd_build::{cut, widest};
use point_codec::{Cell, Entry};

/// The widest dimension of some entries, and 2 where there is none.
#[tactic(auto, using(bkd_build::proofs::Sides::cell_holds))]
fn widest_of(entries: &[Entry<2>]) -> usize {
    match Cell::of(entries) {
        Some(mut cell) => widest(entries, &mut cell),
        None => 2,
    }
}

#[test]
fn finds_the_widest_dimension(rt: HostRuntime) {
    let (a, b, c) = (entry(4, [5, 3]), entry(1, [-7, 9]), entry(2, [12, 4]));
    // they reach over 19 and 6
    same(&rt, widest_of(&[a, b, c]), 0);
    // 19 and 19: the first one
    same(&rt, widest_of(&[a, b, c, entry(5, [0, -10])]), 0);
    // they reach over 19 and 20
    same(&rt, widest_of(&[a, b, c, entry(6, [0, -11])]), 1);
    // the whole range of a coordinate
    same(
        &rt,
        widest_of(&[entry(6, [0, i32::MIN]), b, entry(6, [i32::MAX, i32::MAX])]),
        1,
    );
}

#[test]
fn cuts_by_a_dimension(rt: HostRuntime) {
    // by dimension 0 the numbers are 1, 0, 3, 4, 2, and by dimension 1 they are 3, 0, 4, 2, 1
    let mut few = [
        entry(4, [5, 3]),
        entry(1, [-7, 9]),
        entry(3, [5, 1]),
        entry(0, [5, 2]),
        entry(2, [12, 4]),
    ];
    same(&rt, cut(&mut few, 0, 2), 5);
    same(&rt, few[0].doc ^ few[1].doc, 1);
    same(&rt, cut(&mut few, 0, 4), 12);
    same(&rt, few[4].doc, 2);
    same(&rt, cut(&mut few, 1, 3), 4);
    same(&rt, few[3].doc ^ few[4].doc, 3);
}
