//! A leaf that a box crosses, sorted in its second dimension: only entries that the box reaches there are tested.

use crate::asserts::{holds, same_at};
use crate::stored::{Stored, open_alone};
use crate::walks::walked;
use cell_relate::{BoxShape, Shape};
use live_bits::LiveBits;
use outer_io::MemFolder;
use point_codec::Point;
use segment_file::SegmentHead;
use std::alloc::Global;
use std::process::Abort;
use std::test::Fail;

/// Two dimensions, form 3, eight entries in one leaf, 33 bytes of index, one leaf page. The numbers 0 to 7 are at
/// (0, 1), (10, 2), (20, 2), (30, 2), (40, 6), (50, 6), (60, 9) and (70, 9): there are fewer values in the second
/// dimension, so the leaf is sorted there.
const EIGHT: Stored = Stored {
    id: 7,
    fields: b"BKDPSEG2\x02\x03\0\x08\0\0\0\x08\0\0\0\x01\0\0\0\x21\0\0\0\x01",
    index: &[
        0x80, 0, 0, 0, 0x80, 0, 0, 1, 0x80, 0, 0, 70, 0x80, 0, 0, 9, 30, 0x80, 0, 0, 0, 0x80, 0, 0,
        1, 0x80, 0, 0, 70, 0x80, 0, 0, 9,
    ],
    leaves: &[
        0, 8, 0, 0, 3, 3, 0x80, 0, 0, 0x80, 0, 0, 1, 0, 1, 2, 2, 2, 6, 6, 9, 9, 0, 10, 20, 30, 40,
        50, 60, 70,
    ],
};

/// The corners of a box, its hits, and how many points it is asked for.
type Row = ([i32; 2], [i32; 2], &'static [u32], u64);

/// Each of these boxes crosses the leaf's cell but the last one, whose corners are turned.
const ROWS: [Row; 9] = [
    // from one value to another, both found with all their equals
    ([0, 2], [70, 6], &[1, 2, 3, 4, 5], 5),
    ([15, 2], [45, 6], &[2, 3, 4], 5),
    // one value, the first and the last ones
    ([0, 2], [70, 2], &[1, 2, 3], 3),
    ([0, -3], [65, 1], &[0], 1),
    ([0, 9], [65, 20], &[6], 2),
    // from one value to another, with none between
    ([0, 3], [70, 5], &[], 0),
    // all values, and to the ends of the numbers
    ([5, 1], [70, 9], &[1, 2, 3, 4, 5, 6, 7], 8),
    ([-5, i32::MIN], [30, i32::MAX], &[0, 1, 2, 3], 8),
    ([0, 6], [70, 2], &[], 0),
];

/// The hits of a row's box, and how often it is asked for a point.
fn check_row(
    rt: &impl Abort,
    alloc: Global,
    folder: &mut MemFolder,
    head: &SegmentHead<2>,
    live: &LiveBits,
    row: Row,
) -> Result<(), Fail> {
    let (lo, hi, expected, tests) = row;
    let mut shape = BoxShape::new(Point { c: lo }, Point { c: hi });
    let hits = walked(alloc, folder, head, live, &mut shape)?
        .ok()
        .ok_or("no walk")?;
    same_at(rt, hits.as_slice(), expected, &(lo, hi));
    same_at(rt, shape.tests(), tests, &(lo, hi));
    Ok(())
}

#[test]
fn entries_beyond_a_box_are_not_tested(rt: HostRuntime) -> Result<(), Fail> {
    let live = LiveBits::of_docs(rt.alloc(), &[0, 1, 2, 3, 4, 5, 6, 7])?;
    let (mut folder, head) = open_alone(rt.alloc(), &EIGHT)?;
    for row in ROWS {
        check_row(&rt, rt.alloc(), &mut folder, &head, &live, row)?;
    }
    Ok(())
}

#[test]
fn a_box_tells_its_corners(rt: HostRuntime) -> Result<(), Fail> {
    let shape: BoxShape<2> = BoxShape::new(Point { c: [1, 9] }, Point { c: [4, -2] });
    holds(&rt, shape.reach(0) == Some((1, 4)));
    holds(&rt, shape.reach(1) == Some((9, -2)));
    Ok(())
}
