//! A segment of several leaf pages: what queries read of it, where one of its pages is damaged, and where a read fails.

ghost use Rattle.std.specs.Prelude.{◌≡◌, vec_len, IfOk};
ghost use Rattle.bkd_build.specs.Pieces.{AreEntries};

use crate::asserts::{holds_at, same, same_at};
use bkd_build::OpenGate;
use cell_relate::BoxShape;
use outer_io::{FileName, MemFolder};
use page_cache::{Damage, PageCache, PageFault};
use point_codec::{Entry, Point};
use segment_build::build_segment;
use segment_view::{Segments, Visit, visit};
use std::alloc::{AllocError, Global};
use std::marker::Sync;
use std::process::Abort;
use std::test::Fail;
use std::thread::Threads;

const SEGMENT: FileName = FileName::Segment(3);

/// How many entries: they fill 24 leaves of 333, eleven on a page, and eight are left for one more.
const COUNT: u32 = 8_000;

/// Number i at (i, 0).
#[tactic(auto, using(bkd_build::proofs::Numbered::none_numbered, bkd_build::proofs::Numbered::numbered_push, bkd_build::proofs::Numbered::numbered_entries))]
fn row(alloc: Global) -> Result<Vec<Entry<2>>, AllocError>
    ensures length { IfOk result (λ v. vec_len v ≡ COUNT) }
    ensures entries { IfOk result (λ v. AreEntries v.items) }
{
    let mut entries = Vec::new(alloc);
    for doc in 0..COUNT {
        entries.push(Entry {
            doc,
            point: Point { c: [doc as i32, 0] },
        })?;
    }
    Ok(entries)
}

/// The segment of the row in a folder, and the entries that it was built of.
#[derive(Drop)]
pub(crate) struct Stored {
    pub(crate) folder: MemFolder,
    pub(crate) segments: Segments<2>,
    pub(crate) entries: Vec<Entry<2>>,
}

/// The segment of the row, in leaves of 333.
pub(crate) fn make_stored<R: Threads + Sync>(rt: &R, alloc: Global) -> Result<Stored, Fail> {
    let mut folder = MemFolder::new(alloc, Vec::new(alloc));
    let mut segments = Segments::new(alloc);
    let mut entries = row(alloc)?;
    let segment = build_segment(rt, alloc, entries.as_mut_slice(), 333, 0, &OpenGate)?;
    let head = segment
        .write(alloc, &mut folder, 3)
        .ok()
        .ok_or("no segment")?;
    if segments.has(head.id()) {
        return Err("an id twice".into());
    }
    segments.insert(head, segment.into_live())?;
    Ok(Stored {
        folder,
        segments,
        entries,
    })
}

/// The numbers in the box from one corner to the other, and what was counted.
fn visited(
    alloc: Global,
    stored: &mut Stored,
    cache: &mut PageCache,
    shape: &mut BoxShape<2>,
) -> Result<Visit, PageFault> {
    visit(
        alloc,
        &stored.segments,
        &[],
        cache,
        &mut stored.folder,
        shape,
    )
}

/// The corners of a box; how many hits it has and the first of them; how many points it is asked for, how many leaves
/// the walk touches and how many pages it reads.
type Row = ([i32; 2], [i32; 2], (usize, Option<u32>), (u64, u64, u64));

/// Over 25 leaves, eleven on the first page, eleven on the second and three on the last.
const ROWS: [Row; 4] = [
    ([0, 0], [7_999, 0], (8_000, Some(0)), (0, 25, 3)),
    ([0, 0], [3_662, 0], (3_663, Some(0)), (0, 11, 1)),
    ([3_662, 0], [3_663, 0], (2, Some(3_662)), (2, 2, 2)),
    ([7_000, -5], [7_400, 5], (401, Some(7_000)), (401, 2, 2)),
];

/// The bytes of the segment's file.
fn file_of(alloc: Global, stored: &Stored) -> Result<Vec<u8>, Fail> {
    Ok(stored.folder.get(&SEGMENT).unwrap_or(&[]).to_vec(alloc)?)
}

/// A visit with the box of a row, where this call of the folder fails: the visit is done just where it doesn't come
/// to that call.
fn check_visit(
    rt: &impl Abort,
    alloc: Global,
    stored: &mut Stored,
    row: Row,
    call: u64,
) -> Result<(), Fail> {
    let (lo, hi, expected, (tests, touched, pages)) = row;
    let mut shape = BoxShape::new(Point { c: lo }, Point { c: hi });
    let mut cache = PageCache::new(alloc, 4)?;
    stored.folder.plan([call].to_vec(alloc)?, None);
    match visited(alloc, stored, &mut cache, &mut shape) {
        Ok(Visit { docs, cost }) => {
            same_at(rt, (docs.len(), docs.first().copied()), expected, &(lo, hi));
            same_at(
                rt,
                (shape.tests(), cost.touched, call),
                (tests, touched, pages),
                &(lo, hi),
            );
        }
        Err(fault) => {
            holds_at(
                rt,
                matches!(fault, PageFault::Failed) && call < pages,
                &call,
            );
        }
    }
    Ok(())
}

/// A second visit with the box of a row finds its pages kept, where the first read of the folder would fail.
fn check_again(rt: &impl Abort, alloc: Global, stored: &mut Stored, row: Row) -> Result<(), Fail> {
    let (lo, hi, expected, _) = row;
    let mut shape = BoxShape::new(Point { c: lo }, Point { c: hi });
    let mut cache = PageCache::new(alloc, 4)?;
    stored.folder.plan(Vec::new(alloc), None);
    for call in 0..2u32 {
        let Visit { docs, .. } = visited(alloc, stored, &mut cache, &mut shape)
            .ok()
            .ok_or("no hits")?;
        same_at(
            rt,
            (docs.len(), docs.first().copied()),
            expected,
            &(call, lo),
        );
        stored.folder.plan([0u64].to_vec(alloc)?, None);
    }
    Ok(())
}

/// Each read of a visit with a row's box fails in turn, and then none; then the visit again.
fn check_row(rt: &impl Abort, alloc: Global, stored: &mut Stored, row: Row) -> Result<(), Fail> {
    let (_, _, _, (_, _, pages)) = row;
    for call in 0..pages {
        check_visit(rt, alloc, stored, row, call)?;
    }
    check_visit(rt, alloc, stored, row, pages)?;
    check_again(rt, alloc, stored, row)
}

#[test]
fn a_box_reads_the_pages_of_its_leaves(rt: HostRuntime) -> Result<(), Fail> {
    let mut stored = make_stored(&rt, rt.alloc())?;
    let file = file_of(rt.alloc(), &stored)?;
    for row in ROWS {
        check_row(&rt, rt.alloc(), &mut stored, row)?;
        same(&rt, stored.folder.get(&SEGMENT), Some(file.as_slice()));
    }
    Ok(())
}

/// From where to where a box goes, and whether it is answered.
const BOXES: [(i32, i32, bool); 4] = [
    (0, 7_999, false),
    (0, 3_662, true),
    (3_662, 3_663, false),
    (7_326, 7_999, true),
];

/// A fault shows the damaged page.
fn check_fault(rt: &impl Abort, fault: &PageFault, page: &[u8]) -> Result<(), Fail> {
    match fault {
        PageFault::Damaged(
            Damage::Page {
                file,
                number,
                bytes,
            },
        ) => {
            same(rt, (*file, *number), (SEGMENT, 3));
            same(rt, bytes.b.as_slice(), page);
            Ok(())
        }
        _ => Err("another fault".into()),
    }
}

/// A visit of the damaged file is answered or shows the damaged page.
fn check_damaged(
    rt: &impl Abort,
    alloc: Global,
    stored: &mut Stored,
    page: &[u8],
    row: (i32, i32, bool),
) -> Result<(), Fail> {
    let (lo, hi, whole) = row;
    let mut shape = BoxShape::new(Point { c: [lo, 0] }, Point { c: [hi, 0] });
    let mut cache = PageCache::new(alloc, 4)?;
    let visit = visited(alloc, stored, &mut cache, &mut shape);
    same_at(rt, visit.is_ok(), whole, &(lo, hi));
    match &visit {
        Ok(_) => Ok(()),
        Err(fault) => check_fault(rt, fault, page),
    }
}

#[test]
fn a_damaged_page_is_met_where_its_leaves_are(rt: HostRuntime) -> Result<(), Fail> {
    let mut stored = make_stored(&rt, rt.alloc())?;
    let mut file = file_of(rt.alloc(), &stored)?;
    // the head, a page of index and the three pages of leaves
    assert_eq!(rt; file.len(), 5 * 4096);
    file[3 * 4096 + 100] ^= 1;
    stored
        .folder
        .put(SEGMENT, file.as_slice().to_vec(rt.alloc())?)?;
    let page = &file[3 * 4096..4 * 4096];
    for row in BOXES {
        check_damaged(&rt, rt.alloc(), &mut stored, page, row)?;
    }
    Ok(())
}
