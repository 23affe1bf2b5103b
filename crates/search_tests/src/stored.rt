//! Segments that are spelled by hand, and put into a folder in memory.

ghost use Rattle.std.specs.Prelude.{◌≤◌};

use outer_io::{FileName, MemFolder};
use page_cache::pages_of;
use segment_file::{SegmentHead, open_segment};
use std::alloc::Global;
use std::test::Fail;

/// A segment: its id, the fields of its head, its index and its leaves, each of which has a page for itself.
#[derive(Drop)]
pub struct Stored<'a> {
    pub id: u64,
    pub fields: &'a [u8],
    pub index: &'a [u8],
    pub leaves: &'a [u8],
}

/// The fields of five entries: one dimension, form 3, 2 entries a leaf, 5 entries, 3 leaves, 44 bytes of index, 1
/// leaf page.
const FIVE_FIELDS: [u8; 28] = [
    0x42, 0x4b, 0x44, 0x50, 0x53, 0x45, 0x47, 0x32, 1, 3, 0, 2, 0, 0, 0, 5, 0, 0, 0, 3, 0, 0, 0,
    44, 0, 0, 0, 1,
];

/// An index over leaves of 12, 9 and 9 bytes in the cells from 5 to 7, 7 to 7 and 7 to 7, split at 7 twice.
const FIVE_INDEX: [u8; 44] = [
    0x80, 0, 0, 5, 0x80, 0, 0, 7, 3, 7, 0, 21, 22, 4, 0, 12, 9, 12, 0x80, 0, 0, 5, 0x80, 0, 0, 7,
    9, 0x80, 0, 0, 7, 0x80, 0, 0, 7, 9, 0x80, 0, 0, 7, 0x80, 0, 0, 7,
];

/// 0 at 5 and 1 at 7; 2 and 3 at 7; 4 at 7.
pub const THREE_LEAVES: Stored = Stored {
    id: 7,
    fields: &FIVE_FIELDS,
    index: &FIVE_INDEX,
    leaves: &[
        0, 2, 0, 0, 3, 0x80, 0, 0, 0, 0, 5, 7, 0, 2, 0, 2, 4, 0x80, 0, 0, 7, 0, 1, 0, 4, 4, 0x80,
        0, 0, 7,
    ],
};

/// A segment with 2 and 3 at 8, outside the cell of their leaf.
pub const ASTRAY: Stored = Stored {
    id: 7,
    fields: &FIVE_FIELDS,
    index: &FIVE_INDEX,
    leaves: &[
        0, 2, 0, 0, 3, 0x80, 0, 0, 0, 0, 5, 7, 0, 2, 0, 2, 4, 0x80, 0, 0, 8, 0, 1, 0, 4, 4, 0x80,
        0, 0, 7,
    ],
};

/// The fields of one entry in one leaf, with 17 bytes of index.
pub const ONE_FIELDS: [u8; 28] = [
    0x42, 0x4b, 0x44, 0x50, 0x53, 0x45, 0x47, 0x32, 1, 3, 0, 2, 0, 0, 0, 1, 0, 0, 0, 1, 0, 0, 0,
    17, 0, 0, 0, 1,
];

/// The fields of two entries in one leaf.
pub const TWO_FIELDS: [u8; 28] = [
    0x42, 0x4b, 0x44, 0x50, 0x53, 0x45, 0x47, 0x32, 1, 3, 0, 2, 0, 0, 0, 2, 0, 0, 0, 1, 0, 0, 0,
    17, 0, 0, 0, 1,
];

/// An index of one leaf of 9 bytes whose entries are all at 10.
pub const AT_TEN: [u8; 17] = [
    0x80, 0, 0, 10, 0x80, 0, 0, 10, 9, 0x80, 0, 0, 10, 0x80, 0, 0, 10,
];

/// An index of one leaf of 14 bytes with entries from 1 to 9.
pub const ONE_TO_NINE: [u8; 17] = [
    0x80, 0, 0, 1, 0x80, 0, 0, 9, 14, 0x80, 0, 0, 1, 0x80, 0, 0, 9,
];

/// Puts the segment into the folder, and opens it.
pub fn store<const D: usize>(
    alloc: Global,
    folder: &mut MemFolder,
    segment: &Stored,
) -> Result<SegmentHead<D>, Fail>
    requires dims { (1 ≤ D) × (D ≤ 8) }
{
    let mut body = segment.fields.to_vec(alloc)?;
    body.resize(4064, 0)?;
    body.extend_from_slice(segment.index)?;
    body.resize(8128, 0)?;
    body.extend_from_slice(segment.leaves)?;
    body.resize(12192, 0)?;
    let name = FileName::Segment(segment.id);
    let bytes = pages_of(alloc, &name, body.as_slice())?;
    folder.put(name, bytes)?;
    Ok(open_segment(alloc, folder, segment.id)?)
}

/// A folder with the segment, and its head.
pub fn open_alone<const D: usize>(
    alloc: Global,
    segment: &Stored,
) -> Result<(MemFolder, SegmentHead<D>), Fail>
    requires dims { (1 ≤ D) × (D ≤ 8) }
{
    let mut folder = MemFolder::new(alloc, Vec::new(alloc));
    let head = store(alloc, &mut folder, segment)?;
    Ok((folder, head))
}
