//! Three segments of one dimension beside a buffer, with answers that were reckoned by hand.

use crate::asserts::{same, same_at};
use crate::stored::{AT_TEN, ONE_FIELDS, ONE_TO_NINE, Stored, THREE_LEAVES, TWO_FIELDS, store};
use bkd_reader::{Cost, Tally};
use cell_relate::BoxShape;
use live_bits::LiveBits;
use outer_io::MemFolder;
use page_cache::{PageCache, PageFault};
use point_codec::{Entry, Near, Point};
use segment_view::{Nearest, Segments, gather, nearest, survey, survey_near, visit};
use std::alloc::Global;
use std::process::Abort;
use std::test::Fail;

/// A segment whose one entry is number 6 at 10.
const ONE: Stored = Stored {
    id: 8,
    fields: &ONE_FIELDS,
    index: &AT_TEN,
    leaves: &[0, 1, 0, 6, 4, 0x80, 0, 0, 10],
};

/// 5 at 1 and at 9.
const TWICE: Stored = Stored {
    id: 9,
    fields: &TWO_FIELDS,
    index: &ONE_TO_NINE,
    leaves: &[0, 2, 1, 5, 0, 0, 3, 0x80, 0, 0, 0, 0, 1, 9],
};

/// 7 at 6, and 8 at 20.
pub const BUFFER: [Entry<1>; 2] = [
    Entry {
        doc: 7,
        point: Point { c: [6] },
    },
    Entry {
        doc: 8,
        point: Point { c: [20] },
    },
];

/// The ends of a box, the hits, how often it is asked for a point, and what the visit meets.
type Row = ((i32, i32), &'static [u32], u64, Cost);

const ROWS: [Row; 3] = [
    (
        (0, 10),
        &[0, 1, 2, 3, 4, 5, 6, 7],
        2,
        Cost {
            tested: 0,
            touched: 5,
        },
    ),
    (
        (6, 9),
        &[1, 2, 3, 4, 5, 7],
        4,
        Cost {
            tested: 4,
            touched: 4,
        },
    ),
    (
        (11, 12),
        &[],
        2,
        Cost {
            tested: 0,
            touched: 0,
        },
    ),
];

/// Puts the segment into the folder and among the others, with these live bits.
fn insert(
    alloc: Global,
    folder: &mut MemFolder,
    segments: &mut Segments<1>,
    segment: &Stored,
    live: LiveBits,
) -> Result<(), Fail> {
    let head = store(alloc, folder, segment)?;
    if segments.has(head.id()) {
        return Err("an id twice".into());
    }
    Ok(segments.insert(head, live)?)
}

/// The three segments and the folder that holds them.
pub fn three(alloc: Global) -> Result<(MemFolder, Segments<1>), Fail> {
    let mut folder = MemFolder::new(alloc, Vec::new(alloc));
    let mut segments = Segments::new(alloc);
    let live = LiveBits::of_docs(alloc, &[5])?;
    insert(alloc, &mut folder, &mut segments, &TWICE, live)?;
    let live = LiveBits::of_docs(alloc, &[0, 1, 2, 3, 4])?;
    insert(alloc, &mut folder, &mut segments, &THREE_LEAVES, live)?;
    let live = LiveBits::of_docs(alloc, &[6])?;
    insert(alloc, &mut folder, &mut segments, &ONE, live)?;
    Ok((folder, segments))
}

/// The ids of the segments.
fn ids(alloc: Global, segments: &Segments<1>) -> Result<Vec<u64>, Fail> {
    let mut ids = Vec::new(alloc);
    for head in segments.heads() {
        ids.push(head.id())?;
    }
    Ok(ids)
}

/// These are the ids of the segments.
fn stand(
    rt: &impl Abort,
    alloc: Global,
    segments: &Segments<1>,
    expected: &[u64],
) -> Result<(), Fail> {
    same(rt, ids(alloc, segments)?.as_slice(), expected);
    Ok(())
}

#[test]
fn segments_stand_by_their_ids(rt: HostRuntime) -> Result<(), Fail> {
    let (_, segments) = three(rt.alloc())?;
    stand(&rt, rt.alloc(), &segments, &[7, 8, 9])?;
    let sizes = segments.sizes(rt.alloc())?;
    same(&rt, sizes.as_slice(), [5, 1, 2].as_slice());
    Ok(())
}

#[test]
fn a_copy_of_segments_is_its_own(rt: HostRuntime) -> Result<(), Fail> {
    let (_, mut segments) = three(rt.alloc())?;
    let before = segments.copy(rt.alloc())?;
    same(&rt, (segments.clear(2), segments.clear(2)), (true, false));
    same(&rt, (segments.is_live(2), before.is_live(2)), (false, true));
    segments.remove(&[8, 3]);
    stand(&rt, rt.alloc(), &segments, &[7, 9])?;
    stand(&rt, rt.alloc(), &before, &[7, 8, 9])
}

#[test]
fn what_a_box_has_and_costs(rt: HostRuntime) -> Result<(), Fail> {
    let (mut folder, segments) = three(rt.alloc())?;
    let mut cache = PageCache::new(rt.alloc(), 4)?;
    for (ends, expected, tests, cost) in ROWS {
        let mut shape = BoxShape::new(Point { c: [ends.0] }, Point { c: [ends.1] });
        let found = visit(
            rt.alloc(),
            &segments,
            &BUFFER,
            &mut cache,
            &mut folder,
            &mut shape,
        )?;
        same_at(&rt, found.docs.as_slice(), expected, &ends);
        same_at(&rt, shape.tests(), tests, &ends);
        same_at(&rt, found.cost, cost, &ends);
        let tally = Tally {
            tested: cost.tested,
            touched: cost.touched,
            leaves: 5,
        };
        same_at(&rt, survey(&segments, &mut shape), tally, &ends);
    }
    Ok(())
}

#[test]
fn a_segment_without_a_live_number_counts(rt: HostRuntime) -> Result<(), Fail> {
    let (mut folder, mut segments) = three(rt.alloc())?;
    let mut cache = PageCache::new(rt.alloc(), 4)?;
    segments.clear(6);
    let mut shape = BoxShape::new(Point { c: [0] }, Point { c: [10] });
    // two pages are read: none of segment 8
    folder.plan([2].to_vec(rt.alloc())?, None);
    let found = visit(
        rt.alloc(),
        &segments,
        &[],
        &mut cache,
        &mut folder,
        &mut shape,
    )?;
    same(&rt, found.docs.as_slice(), [0, 1, 2, 3, 4, 5].as_slice());
    let cost = Cost {
        tested: 0,
        touched: 5,
    };
    same(&rt, found.cost, cost);
    Ok(())
}

#[test]
fn live_entries_of_some(rt: HostRuntime) -> Result<(), Fail> {
    let (mut folder, mut segments) = three(rt.alloc())?;
    let mut cache = PageCache::new(rt.alloc(), 4)?;
    segments.clear(2);
    segments.clear(6);
    // segment 8 has nothing live, so it isn't read
    folder.plan([2].to_vec(rt.alloc())?, None);
    let entries = gather(
        rt.alloc(),
        &segments,
        &[9, 8, 7, 99],
        &mut cache,
        &mut folder,
    )?;
    let mut told = Vec::new(rt.alloc());
    for entry in &entries {
        told.push((entry.doc, entry.point.c[0]))?;
    }
    same(
        &rt,
        told.as_slice(),
        [(0, 5), (1, 7), (3, 7), (4, 7), (5, 1), (5, 9)].as_slice(),
    );
    Ok(())
}

/// So many of the segments and the buffer that are nearest to 8.
fn nearest_to_eight(alloc: Global, k: u16) -> Result<Nearest, Fail> {
    if k < 1 || k > 10_000 {
        return Err("not 1 to 10,000".into());
    }
    let (mut folder, segments) = three(alloc)?;
    let mut cache = PageCache::new(alloc, 4)?;
    let found = nearest(
        alloc,
        &segments,
        &BUFFER,
        &mut cache,
        &mut folder,
        &Point { c: [8] },
        k,
        false,
    )?;
    Ok(found)
}

#[test]
fn the_nearest_of_segments_and_buffer(rt: HostRuntime) -> Result<(), Fail> {
    let found = nearest_to_eight(rt.alloc(), 3)?;
    let expected = [
        Near { doc: 1, dist2: 1 },
        Near { doc: 2, dist2: 1 },
        Near { doc: 3, dist2: 1 },
    ];
    same(&rt, found.docs.as_slice(), expected.as_slice());
    same(&rt, found.touched, 4);
    // fewer are found than are asked for
    same(&rt, nearest_to_eight(rt.alloc(), 20)?.touched, 5);
    let (_folder, segments) = three(rt.alloc())?;
    let at = Point { c: [8] };
    same(&rt, survey_near(&segments, &at, Some(1)), 4);
    same(&rt, survey_near(&segments, &at, None), 5);
    Ok(())
}

#[test]
fn a_folder_that_fails(rt: HostRuntime) -> Result<(), Fail> {
    let (mut folder, segments) = three(rt.alloc())?;
    let mut cache = PageCache::new(rt.alloc(), 4)?;
    folder.plan([1].to_vec(rt.alloc())?, None);
    let mut shape = BoxShape::new(Point { c: [0] }, Point { c: [10] });
    let hits = visit(
        rt.alloc(),
        &segments,
        &BUFFER,
        &mut cache,
        &mut folder,
        &mut shape,
    );
    let failed = match hits {
        Err(PageFault::Failed) => true,
        _ => false,
    };
    same(&rt, failed, true);
    Ok(())
}
