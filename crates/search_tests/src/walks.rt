//! One segment, with a box that counts how often it is asked.

use crate::asserts::same_at;
use crate::stored::{ASTRAY, THREE_LEAVES, open_alone};
use bkd_reader::{Cost, Tally, intersect, survey};
use cell_relate::BoxShape;
use live_bits::LiveBits;
use outer_io::{FileName, MemFolder};
use page_cache::{Damage, PageCache, PageFault};
use point_codec::Point;
use segment_file::SegmentHead;
use std::alloc::Global;
use std::process::Abort;
use std::test::Fail;

/// The end of a box, its other end, the live numbers; then the hits, the tests, the compares; of what the walk met the
/// tested entries and the touched leaves.
type Row = (
    (i32, i32),
    &'static [u32],
    (&'static [u32], u64, u64),
    (u64, u64),
);

const ROWS: [Row; 10] = [
    ((0, 10), &[0, 1, 2, 3, 4], (&[0, 1, 2, 3, 4], 0, 1), (0, 3)),
    ((6, 8), &[0, 1, 2, 3, 4], (&[1, 2, 3, 4], 1, 5), (2, 3)),
    ((0, 5), &[0, 1, 2, 3, 4], (&[0], 1, 5), (2, 1)),
    ((6, 8), &[0, 2, 4], (&[2, 4], 1, 5), (2, 3)),
    ((8, 9), &[0, 1, 2, 3, 4], (&[], 0, 1), (0, 0)),
    ((5, 7), &[3], (&[3], 0, 1), (0, 3)),
    // the first number is dead, the last one, one between, all
    ((0, 10), &[1, 2, 3, 4], (&[1, 2, 3, 4], 0, 1), (0, 3)),
    ((0, 10), &[0, 1, 2, 3], (&[0, 1, 2, 3], 0, 1), (0, 3)),
    ((0, 10), &[0, 1, 3, 4], (&[0, 1, 3, 4], 0, 1), (0, 3)),
    ((0, 10), &[], (&[], 0, 1), (0, 3)),
];

/// What stands in a list of hits before a walk.
const BEFORE: u32 = 77;

/// The box from one end to the other.
pub fn line(ends: (i32, i32)) -> BoxShape<1> {
    BoxShape::new(Point { c: [ends.0] }, Point { c: [ends.1] })
}

/// A walk with the box behind a number that stands in the list already, and the list after it.
fn walked_behind(
    alloc: Global,
    folder: &mut MemFolder,
    cache: &mut PageCache,
    head: &SegmentHead<1>,
    live: &LiveBits,
    shape: &mut BoxShape<1>,
) -> Result<(Result<Cost, PageFault>, Vec<u32>), Fail> {
    let mut hits = vec![in alloc; BEFORE]?;
    let done = intersect(alloc, head, cache, folder, shape, live, &mut hits);
    Ok((done, hits))
}

#[test]
fn hits_and_costs(rt: HostRuntime) -> Result<(), Fail> {
    let (mut folder, head) = open_alone(rt.alloc(), &THREE_LEAVES)?;
    let mut cache = PageCache::new(rt.alloc(), 4)?;
    for (ends, docs, (expected, tests, compares), costs) in ROWS {
        let live = LiveBits::of_docs(rt.alloc(), docs)?;
        let mut shape = line(ends);
        let (done, hits) = walked_behind(
            rt.alloc(),
            &mut folder,
            &mut cache,
            &head,
            &live,
            &mut shape,
        )?;
        let cost = Cost {
            tested: costs.0,
            touched: costs.1,
        };
        same_at(&rt, done.ok(), Some(cost), &ends);
        same_at(
            &rt,
            hits.as_slice().split_first(),
            Some((&BEFORE, expected)),
            &ends,
        );
        same_at(
            &rt,
            (shape.tests(), shape.compares()),
            (tests, compares),
            &ends,
        );
        check_survey(&rt, &head, &mut shape, ends, compares, costs);
    }
    Ok(())
}

/// A survey tells what the walk before it met and that there are three leaves, tests no point, and asks for as many
/// cells as the walk did.
fn check_survey(
    rt: &impl Abort,
    head: &SegmentHead<1>,
    shape: &mut BoxShape<1>,
    ends: (i32, i32),
    walked: u64,
    costs: (u64, u64),
) {
    let before = shape.tests();
    let expected = Tally {
        tested: costs.0,
        touched: costs.1,
        leaves: 3,
    };
    same_at(rt, survey(head, shape), expected, &ends);
    same_at(rt, shape.tests(), before, &ends);
    same_at(rt, shape.compares(), walked.saturating_mul(2), &ends);
}

/// The numbers that a walk with the box finds, over a cache that keeps no page, and what it meets.
pub fn counted<const D: usize>(
    alloc: Global,
    folder: &mut MemFolder,
    head: &SegmentHead<D>,
    live: &LiveBits,
    shape: &mut BoxShape<D>,
) -> Result<Result<(Vec<u32>, Cost), PageFault>, Fail> {
    let mut cache = PageCache::new(alloc, 4)?;
    let mut hits = Vec::new(alloc);
    let done = intersect(alloc, head, &mut cache, folder, shape, live, &mut hits);
    Ok(match done {
        Ok(cost) => Ok((hits, cost)),
        Err(fault) => Err(fault),
    })
}

/// The numbers alone.
pub fn walked<const D: usize>(
    alloc: Global,
    folder: &mut MemFolder,
    head: &SegmentHead<D>,
    live: &LiveBits,
    shape: &mut BoxShape<D>,
) -> Result<Result<Vec<u32>, PageFault>, Fail> {
    Ok(match counted(alloc, folder, head, live, shape)? {
        Ok((hits, _)) => Ok(hits),
        Err(fault) => Err(fault),
    })
}

/// How many pages a walk with the box reads, over a cache that keeps none: its first read is made to fail, then its
/// second and so on until the walk is done. Each that fails is answered, and leaves the file.
pub fn reads<const D: usize>(
    alloc: Global,
    folder: &mut MemFolder,
    head: &SegmentHead<D>,
    live: &LiveBits,
    shape: &mut BoxShape<D>,
) -> Result<u64, Fail> {
    let name = FileName::Segment(head.id());
    let file = folder.get(&name).unwrap_or(&[]).to_vec(alloc)?;
    for call in 0..9 {
        folder.plan(vec![in alloc; call]?, None);
        match walked(alloc, folder, head, live, shape)? {
            Ok(_) => {
                folder.plan(Vec::new(alloc), None);
                return Ok(call);
            }
            Err(PageFault::Failed) => {}
            Err(_) => Err("another fault")?,
        }
        if folder.get(&name) != Some(file.as_slice()) {
            Err("another file")?;
        }
    }
    Err("too many reads")?
}

/// The ends of a box, and how many pages a walk with it reads.
const READS: [((i32, i32), u64); 3] = [((0, 10), 1), ((0, 5), 1), ((8, 9), 0)];

#[test]
fn three_leaves_of_a_page_are_read_once_and_none_is_read_outside(
    rt: HostRuntime,
) -> Result<(), Fail> {
    let (mut folder, head) = open_alone(rt.alloc(), &THREE_LEAVES)?;
    let live = LiveBits::of_docs(rt.alloc(), &[0, 1, 2, 3, 4])?;
    for (ends, expected) in READS {
        let read = reads(rt.alloc(), &mut folder, &head, &live, &mut line(ends))?;
        same_at(&rt, read, expected, &ends);
    }
    Ok(())
}

/// What a damage tells of its place: the page, and where in it the leaf stands.
pub fn place(fault: &PageFault) -> Option<(u32, u16, u16)> {
    match fault {
        PageFault::Damaged(
            Damage::Leaf {
                number,
                offset,
                length,
                ..
            },
        ) => Some((*number, *offset, *length)),
        _ => None,
    }
}

/// The ends of a box, how long the list of hits is then, and the place of the damage.
const DAMAGES: [((i32, i32), usize, Option<(u32, u16, u16)>); 3] = [
    ((0, 10), 3, Some((2, 12, 9))),
    ((6, 8), 2, Some((2, 12, 9))),
    ((0, 5), 2, None),
];

#[test]
fn a_leaf_astray(rt: HostRuntime) -> Result<(), Fail> {
    let (mut folder, head) = open_alone(rt.alloc(), &ASTRAY)?;
    let mut cache = PageCache::new(rt.alloc(), 4)?;
    let live = LiveBits::of_docs(rt.alloc(), &[0, 1, 2, 3, 4])?;
    for (ends, hits_then, damage) in DAMAGES {
        let (done, hits) = walked_behind(
            rt.alloc(),
            &mut folder,
            &mut cache,
            &head,
            &live,
            &mut line(ends),
        )?;
        let seen = match &done {
            Ok(_) => None,
            Err(fault) => place(fault),
        };
        same_at(&rt, (hits.len(), seen), (hits_then, damage), &ends);
        same_at(&rt, hits.first(), Some(&BEFORE), &ends);
    }
    Ok(())
}
