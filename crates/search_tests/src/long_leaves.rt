//! A leaf of 333 points in a row and a leaf of one more, both on one page: number i at (i, 0).

ghost use Rattle.std.specs.Prelude.{◌<◌, All, IfOk};

use crate::asserts::same_at;
use crate::stored::{Stored, open_alone};
use crate::walks::{counted, reads};
use cell_relate::BoxShape;
use live_bits::LiveBits;
use outer_io::MemFolder;
use point_codec::Point;
use segment_file::SegmentHead;
use std::alloc::{AllocError, Global};
use std::process::Abort;
use std::test::Fail;

/// The head's fields: two dimensions, form 3, 333 entries a leaf, 334 entries, 2 leaves, 58 bytes of index, one leaf
/// page.
const FIELDS: [u8; 28] = *b"BKDPSEG2\x02\x03\x01\x4d\0\0\x01\x4e\0\0\0\x02\0\0\0\x3a\0\0\0\x01";

/// The index: the cell from (0, 0) to (333, 0), split at 333 in the first dimension; leaves of 352 and 15 bytes with
/// their cells.
const INDEX: [u8; 58] = [
    0x80, 0, 0, 0, 0x80, 0, 0, 0, 0x80, 0, 1, 0x4d, 0x80, 0, 0, 0, 2, 1, 0x4d, 0, 0xe0, 2, 18,
    0xe0, 2, 0x80, 0, 0, 0, 0x80, 0, 0, 0, 0x80, 0, 1, 0x4c, 0x80, 0, 0, 0, 15, 0x80, 0, 1, 0x4d,
    0x80, 0, 0, 0, 0x80, 0, 1, 0x4d, 0x80, 0, 0, 0,
];

/// The first leaf as far as the last bytes of its keys: 333 numbers from 0 on; of the keys two bytes are the same in
/// the first dimension and all in the second; the third byte of the first is 0 in 256 of them and 1 in 77.
const FRONT: [u8; 19] = [
    1, 0x4d, 0, 0, 2, 4, 0x80, 0, 0x80, 0, 0, 0, 0, 1, 2, 0, 255, 1, 76,
];

/// The second leaf: number 333 at (333, 0).
const LAST: [u8; 15] = [0, 1, 0, 0xcd, 2, 4, 4, 0x80, 0, 1, 0x4d, 0x80, 0, 0, 0];

/// The bytes of both leaves, one behind the other.
fn leaves(alloc: Global) -> Result<Vec<u8>, AllocError> {
    let mut bytes = FRONT.to_vec(alloc)?;
    for i in 0..333u32 {
        bytes.push((i % 256) as u8)?;
    }
    bytes.extend_from_slice(&LAST)?;
    Ok(bytes)
}

/// The numbers from 0 to 333, in ascending order.
fn numbers(alloc: Global) -> Result<Vec<u32>, AllocError>
    ensures { IfOk result (λ v. All (λ d. d < 16777216) v.items) }
{
    let mut docs = Vec::new(alloc);
    for doc in 0..334 {
        docs.push(doc)?;
    }
    Ok(docs)
}

/// The corners of a box; how many hits it has and the first of them; how many points it is asked for, how many leaves
/// the walk touches and how many pages it reads.
type Row = ([i32; 2], [i32; 2], (usize, Option<u32>), (u64, u64, u64));

/// A leaf's own cell tells that a box round it has all its points, so no point is asked for.
const ROWS: [Row; 5] = [
    ([-1, -1], [400, 1], (334, Some(0)), (0, 2, 1)),
    ([0, 0], [332, 0], (333, Some(0)), (0, 1, 1)),
    ([333, 0], [333, 0], (1, Some(333)), (0, 1, 1)),
    ([100, 0], [199, 0], (100, Some(100)), (100, 1, 1)),
    ([0, 1], [400, 1], (0, None), (0, 0, 0)),
];

/// The hits of a row's box, and what they cost.
fn check_row(
    rt: &impl Abort,
    alloc: Global,
    folder: &mut MemFolder,
    head: &SegmentHead<2>,
    live: &LiveBits,
    row: Row,
) -> Result<(), Fail> {
    let (lo, hi, expected, costs) = row;
    let mut shape = BoxShape::new(Point { c: lo }, Point { c: hi });
    let (hits, cost) = counted(alloc, folder, head, live, &mut shape)?
        .ok()
        .ok_or("no walk")?;
    same_at(rt, (hits.len(), hits.first().copied()), expected, &(lo, hi));
    let tests = shape.tests();
    let touched = cost.touched;
    let read = reads(alloc, folder, head, live, &mut shape)?;
    same_at(rt, (tests, touched, read), costs, &(lo, hi));
    Ok(())
}

/// A folder with the two leaves, and their segment's head.
pub fn open_row(alloc: Global) -> Result<(MemFolder, SegmentHead<2>), Fail> {
    let leaves = leaves(alloc)?;
    let segment = Stored {
        id: 7,
        fields: &FIELDS,
        index: &INDEX,
        leaves: leaves.as_slice(),
    };
    open_alone::<2>(alloc, &segment)
}

/// Live bits of the numbers from 0 to 333, all of which are live.
pub fn live_row(alloc: Global) -> Result<LiveBits, Fail> {
    Ok(LiveBits::of_docs(alloc, numbers(alloc)?.as_slice())?)
}

#[test]
fn a_leaf_of_333_and_one_of_one(rt: HostRuntime) -> Result<(), Fail> {
    let (mut folder, head) = open_row(rt.alloc())?;
    let live = live_row(rt.alloc())?;
    for row in ROWS {
        check_row(&rt, rt.alloc(), &mut folder, &head, &live, row)?;
    }
    Ok(())
}
