//! Two leaves with a gap between them, over an index of each form: in the two older forms the cell of a leaf reaches
//! over the gap.

use crate::asserts::same_at;
use crate::stored::{Stored, open_alone};
use crate::walks::{counted, line, reads};
use live_bits::LiveBits;
use outer_io::MemFolder;
use segment_file::SegmentHead;
use std::alloc::Global;
use std::process::Abort;
use std::test::Fail;

/// Number 0 at 1 and 1 at 2; number 2 at 9.
const LEAVES: [u8; 21] = [
    0, 2, 0, 0, 3, 0x80, 0, 0, 0, 0, 1, 2, 0, 1, 0, 2, 4, 0x80, 0, 0, 9,
];

/// The heads of three entries of one dimension in leaves of two, over an index of 29, 15 and 31 bytes.
const TABLE_HEAD: [u8; 28] = *b"BKDPSEG1\x01\x01\0\x02\0\0\0\x03\0\0\0\x02\0\0\0\x1d\0\0\0\x01";

const PACKED_HEAD: [u8; 28] = *b"BKDPSEG1\x01\x02\0\x02\0\0\0\x03\0\0\0\x02\0\0\0\x0f\0\0\0\x01";

const OWN_HEAD: [u8; 28] = *b"BKDPSEG2\x01\x03\0\x02\0\0\0\x03\0\0\0\x02\0\0\0\x1f\0\0\0\x01";

/// The index over leaves of 12 and 9 bytes in the cell from 1 to 9, split at 9, in each form. Only the last one says
/// that the left leaf ends at 2.
const TABLE: [u8; 29] = [
    0x80, 0, 0, 1, 0x80, 0, 0, 9, 0, 0x80, 0, 0, 9, 0, 0, 0, 0, 0, 0, 0, 12, 0, 0, 0, 0, 0, 12, 0,
    9,
];

const PACKED: [u8; 15] = [0x80, 0, 0, 1, 0x80, 0, 0, 9, 3, 9, 0, 12, 1, 12, 9];

const OWN: [u8; 31] = [
    0x80, 0, 0, 1, 0x80, 0, 0, 9, 3, 9, 0, 12, 9, 12, 0x80, 0, 0, 1, 0x80, 0, 0, 2, 9, 0x80, 0, 0,
    9, 0x80, 0, 0, 9,
];

/// The ends of a box and its hits; over a cell that reaches over the gap the tests and the touched leaves, and over
/// the leaf's own.
type Row = ((i32, i32), &'static [u32], (u64, u64), (u64, u64));

const ROWS: [Row; 4] = [
    ((0, 10), &[0, 1, 2], (0, 2), (0, 2)),
    ((1, 2), &[0, 1], (2, 1), (0, 1)),
    ((2, 9), &[1, 2], (1, 2), (1, 2)),
    ((5, 8), &[], (0, 1), (0, 0)),
];

/// The segment in each form, and whether its leaves have cells of their own.
pub const FORMS: [(Stored, bool); 3] = [
    (
        Stored {
            id: 7,
            fields: &TABLE_HEAD,
            index: &TABLE,
            leaves: &LEAVES,
        },
        false,
    ),
    (
        Stored {
            id: 7,
            fields: &PACKED_HEAD,
            index: &PACKED,
            leaves: &LEAVES,
        },
        false,
    ),
    (
        Stored {
            id: 7,
            fields: &OWN_HEAD,
            index: &OWN,
            leaves: &LEAVES,
        },
        true,
    ),
];

/// The hits of a row's box, and what they cost.
fn check_row(
    rt: &impl Abort,
    alloc: Global,
    folder: &mut MemFolder,
    head: &SegmentHead<1>,
    live: &LiveBits,
    row: Row,
    own: bool,
) -> Result<(), Fail> {
    let (ends, expected, path_costs, own_costs) = row;
    let mut shape = line(ends);
    let (hits, cost) = counted(alloc, folder, head, live, &mut shape)?
        .ok()
        .ok_or("no walk")?;
    same_at(rt, hits.as_slice(), expected, &ends);
    let tests = shape.tests();
    let touched = cost.touched;
    let costs = if own { own_costs } else { path_costs };
    same_at(rt, (tests, touched), costs, &ends);
    let read = reads(alloc, folder, head, live, &mut shape)?;
    same_at(rt, read, touched.min(1), &ends);
    Ok(())
}

#[test]
fn an_index_of_each_form(rt: HostRuntime) -> Result<(), Fail> {
    let live = LiveBits::of_docs(rt.alloc(), &[0, 1, 2])?;
    for (segment, own) in &FORMS {
        let (mut folder, head) = open_alone(rt.alloc(), segment)?;
        for row in ROWS {
            check_row(&rt, rt.alloc(), &mut folder, &head, &live, row, *own)?;
        }
    }
    Ok(())
}
