//! The nearest within one leaf that is sorted by its second dimension, with answers that were reckoned by hand.

use crate::asserts::{same, same_at};
use crate::stored::{Stored, open_alone};
use crate::walks::walked;
use cell_relate::BoxShape;
use live_bits::LiveBits;
use nearest_query::nearest;
use page_cache::PageCache;
use point_codec::{Entry, Near, Point};
use std::alloc::Global;
use std::process::Abort;
use std::test::Fail;

/// The head's fields: two dimensions, form 3, 6 entries a leaf, 6 entries, 1 leaf, 33 bytes of index, one leaf page.
const FIELDS: [u8; 28] = *b"BKDPSEG2\x02\x03\0\x06\0\0\0\x06\0\0\0\x01\0\0\0\x21\0\0\0\x01";

/// The cell from (6, 2) to (14, 8), and a leaf of 32 bytes in the same cell.
const INDEX: [u8; 33] = [
    0x80, 0, 0, 6, 0x80, 0, 0, 2, 0x80, 0, 0, 14, 0x80, 0, 0, 8, 32, 0x80, 0, 0, 6, 0x80, 0, 0, 2,
    0x80, 0, 0, 14, 0x80, 0, 0, 8,
];

/// 1 at (10, 2); 0 at (14, 5) and 4 at (6, 5); 2 at (9, 8), 3 at (10, 8) and 5 at (12, 8). The second coordinates take
/// three values and the first ones five.
const LEAF: [u8; 32] = [
    0, 6, 1, 0, 1, 0, 4, 2, 3, 5, 3, 3, 0x80, 0, 0, 0x80, 0, 0, 1, 0, 2, 5, 5, 8, 8, 8, 10, 14, 6,
    9, 10, 12,
];

/// The `k` nearest among the live entries of the leaf and those of the buffer.
fn nearest_in_leaf(
    alloc: Global,
    live: &[u32],
    buffer: &[Entry<2>],
    at: [i32; 2],
    k: u16,
) -> Result<Vec<Near>, Fail> {
    if k < 1 || k > 10_000 || live.iter().any(|doc| *doc >= 1 << 24) {
        return Err("not what the leaf is asked for".into());
    }
    let stored = Stored {
        id: 7,
        fields: &FIELDS,
        index: &INDEX,
        leaves: &LEAF,
    };
    let (mut folder, head) = open_alone::<2>(alloc, &stored)?;
    let lives = [LiveBits::of_docs(alloc, live)?];
    let mut cache = PageCache::new(alloc, 1)?;
    let found = nearest(
        alloc,
        &[head],
        &lives,
        buffer,
        &mut cache,
        &mut folder,
        &Point { c: at },
        k,
        false,
    )?;
    Ok(found.docs)
}

/// From the middle all numbers in order: at the same distance 1 below and 3 above, and 0 and 4 at both sides.
const ALL: [Near; 6] = [
    Near { doc: 1, dist2: 9 },
    Near { doc: 3, dist2: 9 },
    Near { doc: 2, dist2: 10 },
    Near { doc: 5, dist2: 13 },
    Near { doc: 0, dist2: 16 },
    Near { doc: 4, dist2: 16 },
];

/// The nearest where 1 and 3 are dead.
const LEFT: [Near; 4] = [
    Near { doc: 2, dist2: 10 },
    Near { doc: 5, dist2: 13 },
    Near { doc: 0, dist2: 16 },
    Near { doc: 4, dist2: 16 },
];

const EACH: &[u32] = &[0, 1, 2, 3, 4, 5];

/// The live numbers, where it is asked from, for how many, and those that are found.
type Row = (&'static [u32], [i32; 2], u16, &'static [Near]);

const ROWS: [Row; 12] = [
    // 3 comes first, and 1 ties with it
    (EACH, [10, 5], 1, &[Near { doc: 1, dist2: 9 }]),
    (
        EACH,
        [10, 5],
        2,
        &[Near { doc: 1, dist2: 9 }, Near { doc: 3, dist2: 9 }],
    ),
    (EACH, [10, 5], 6, &ALL),
    // more places than entries, few and many
    (EACH, [10, 5], 7, &ALL),
    (EACH, [10, 5], 65, &ALL),
    // below all entries, above them, and beside them
    (EACH, [10, -1], 1, &[Near { doc: 1, dist2: 9 }]),
    (
        EACH,
        [10, 11],
        2,
        &[Near { doc: 3, dist2: 9 }, Near { doc: 2, dist2: 10 }],
    ),
    (
        EACH,
        [114, 5],
        1,
        &[Near {
            doc: 0,
            dist2: 10_000,
        }],
    ),
    // some are dead, or all
    (&[0, 2, 3, 4, 5], [10, 5], 1, &[Near { doc: 3, dist2: 9 }]),
    (&[0, 2, 4, 5], [10, 5], 1, &[Near { doc: 2, dist2: 10 }]),
    (&[0, 2, 4, 5], [10, 5], 65, &LEFT),
    (&[], [10, 5], 1, &[]),
];

/// The nearest of a row.
fn check_row(rt: &impl Abort, alloc: Global, row: Row) -> Result<(), Fail> {
    let (live, at, k, expected) = row;
    let found = nearest_in_leaf(alloc, live, &[], at, k)?;
    same_at(rt, found.as_slice(), expected, &(at, k));
    Ok(())
}

#[test]
fn the_nearest_on_both_sides(rt: HostRuntime) -> Result<(), Fail> {
    for row in ROWS {
        check_row(&rt, rt.alloc(), row)?;
    }
    Ok(())
}

/// Number 9 at (13, 5).
const BUFFER: [Entry<2>; 1] = [Entry {
    doc: 9,
    point: Point { c: [13, 5] },
}];

#[test]
fn ties_with_what_was_found_before(rt: HostRuntime) -> Result<(), Fail> {
    let found = nearest_in_leaf(rt.alloc(), EACH, &BUFFER, [10, 5], 1)?;
    same(&rt, found.as_slice(), &ALL[..1]);
    let found = nearest_in_leaf(rt.alloc(), &[3], &BUFFER, [10, 5], 1)?;
    same(&rt, found.as_slice(), &ALL[1..2]);
    Ok(())
}

/// The live numbers, and the hits of a box round the leaf: in the order of the leaf, whose numbers are in no row.
const TAKEN: [(&[u32], &[u32]); 6] = [
    (EACH, &[1, 0, 4, 2, 3, 5]),
    // the first entry is dead, the last one, or those of the least and the greatest number
    (&[0, 2, 3, 4, 5], &[0, 4, 2, 3, 5]),
    (&[0, 1, 2, 3, 4], &[1, 0, 4, 2, 3]),
    (&[1, 2, 3, 4], &[1, 4, 2, 3]),
    (&[4], &[4]),
    (&[], &[]),
];

#[test]
fn taken_whole(rt: HostRuntime) -> Result<(), Fail> {
    let stored = Stored {
        id: 7,
        fields: &FIELDS,
        index: &INDEX,
        leaves: &LEAF,
    };
    let (mut folder, head) = open_alone::<2>(rt.alloc(), &stored)?;
    for (live, hits) in TAKEN {
        let bits = LiveBits::of_docs(rt.alloc(), live)?;
        let mut shape = BoxShape::new(Point { c: [6, 2] }, Point { c: [14, 8] });
        let found = walked(rt.alloc(), &mut folder, &head, &bits, &mut shape)?
            .ok()
            .ok_or("no walk")?;
        same_at(&rt, found.as_slice(), hits, &live);
        same_at(&rt, shape.tests(), 0, &live);
    }
    Ok(())
}
