//! Counts and grids: small segments beside a scan of their entries, and a row of points of which leaves are read only
//! where they must.

ghost use Rattle.std.specs.Prelude.{◌≤◌, ◌<◌, All};

use crate::asserts::same_at;
use crate::index_forms::FORMS;
use crate::long_leaves::{live_row, open_row};
use crate::stored::{Stored, open_alone};
use crate::views::{BUFFER, three};
use live_bits::LiveBits;
use outer_io::MemFolder;
use page_cache::{PageCache, PageFault};
use point_codec::{Entry, Point};
use point_counts::{Bucket, GridFault, GridPlan, count, grid};
use segment_file::SegmentHead;
use segment_view::{Segments, gather};
use std::alloc::Global;
use std::test::Fail;

/// A list of this one segment, with these live bits.
fn alone<const D: usize>(
    alloc: Global,
    head: SegmentHead<D>,
    live: LiveBits,
) -> Result<Segments<D>, Fail>
    requires dims { D ≤ 8 }
{
    let mut segments = Segments::new(alloc);
    if segments.has(head.id()) {
        return Err("an id twice".into());
    }
    segments.insert(head, live)?;
    Ok(segments)
}

/// How many of the entries have their point between these ends.
fn between(entries: &[Entry<1>], ends: (i32, i32)) -> u64 {
    let mut found = 0u64;
    for entry in entries {
        if ends.0 <= entry.point.c[0] && entry.point.c[0] <= ends.1 {
            found = found.saturating_add(1);
        }
    }
    found
}

/// Asks for every box between -1 and 21, and for empty ones, and scans as often.
fn ask_all(
    alloc: Global,
    folder: &mut MemFolder,
    segments: &Segments<1>,
    buffer: &[Entry<1>],
) -> Result<(), Fail> {
    let mut cache = PageCache::new(alloc, 4)?;
    let entries = gather(alloc, segments, &[7, 8, 9], &mut cache, folder)?;
    for lo in -1..21 {
        for hi in -2..21 {
            let (from, to) = (Point { c: [lo] }, Point { c: [hi] });
            let told = count(alloc, segments, buffer, &mut cache, folder, &from, &to)?;
            let scanned = between(entries.as_slice(), (lo, hi));
            if told != scanned.saturating_add(between(buffer, (lo, hi))) {
                return Err("another count than that of a scan")?;
            }
        }
    }
    Ok(())
}

#[test]
fn segments_and_buffer_beside_a_scan(rt: HostRuntime) -> Result<(), Fail> {
    for cleared in [None, Some(2), Some(5), Some(6)] {
        let (mut folder, mut segments) = three(rt.alloc())?;
        if let Some(doc) = cleared {
            segments.clear(doc);
        }
        ask_all(rt.alloc(), &mut folder, &segments, &BUFFER)?;
    }
    Ok(())
}

/// Asks the segment alone, where these numbers are live.
fn ask_alone(alloc: Global, segment: &Stored, docs: &[u32]) -> Result<(), Fail>
    requires { All (λ d. d < 16777216) docs.now }
{
    let live = LiveBits::of_docs(alloc, docs)?;
    let (mut folder, head) = open_alone(alloc, segment)?;
    let segments = alone(alloc, head, live)?;
    ask_all(alloc, &mut folder, &segments, &[])
}

/// Asks the segment in each form, where these numbers are live.
fn ask_forms(alloc: Global, docs: &[u32]) -> Result<(), Fail>
    requires { All (λ d. d < 16777216) docs.now }
{
    for (segment, _) in &FORMS {
        ask_alone(alloc, segment, docs)?;
    }
    Ok(())
}

#[test]
fn forms_beside_a_scan(rt: HostRuntime) -> Result<(), Fail> {
    ask_forms(rt.alloc(), &[0, 1, 2])?;
    ask_forms(rt.alloc(), &[0, 2])?;
    ask_forms(rt.alloc(), &[])
}

/// The corners of a box, how many points of the row it has, and whether a leaf is read: where all are live, and where
/// one is not.
const COUNTS: [([i32; 2], [i32; 2], u64, (bool, bool)); 5] = [
    ([-1, -1], [400, 1], 334, (false, true)),
    ([0, 0], [332, 0], 333, (false, true)),
    ([100, 0], [199, 0], 100, (true, true)),
    ([0, 1], [400, 1], 0, (false, false)),
    ([5, 0], [0, 0], 0, (false, false)),
];

/// How many points a box of the row has, by a cache that keeps nothing yet, where the folder's first read fails or none
/// does.
fn counted(
    alloc: Global,
    folder: &mut MemFolder,
    segments: &Segments<2>,
    ends: ([i32; 2], [i32; 2]),
    fails: bool,
) -> Result<Result<u64, PageFault>, Fail> {
    let mut cache = PageCache::new(alloc, 4)?;
    let mut calls = Vec::new(alloc);
    if fails {
        calls.push(0)?;
    }
    folder.plan(calls, None);
    let (from, to) = ends;
    let (lo, hi) = (Point { c: from }, Point { c: to });
    Ok(count(alloc, segments, &[], &mut cache, folder, &lo, &hi))
}

#[test]
fn only_crossed_leaves_are_read(rt: HostRuntime) -> Result<(), Fail> {
    let (mut folder, head) = open_row(rt.alloc())?;
    let mut segments = alone(rt.alloc(), head, live_row(rt.alloc())?)?;
    for (lo, hi, points, (read, _)) in COUNTS {
        let told = counted(rt.alloc(), &mut folder, &segments, (lo, hi), false)?;
        same_at(&rt, told.ok(), Some(points), &(lo, hi));
        let stopped = counted(rt.alloc(), &mut folder, &segments, (lo, hi), true)?;
        same_at(&rt, stopped.is_err(), read, &(lo, hi));
    }
    segments.clear(333);
    for (lo, hi, points, (_, read)) in COUNTS {
        let told = counted(rt.alloc(), &mut folder, &segments, (lo, hi), false)?;
        let left = if hi[0] == 400 && points > 0 {
            points - 1
        } else {
            points
        };
        same_at(&rt, told.ok(), Some(left), &(lo, hi));
        let stopped = counted(rt.alloc(), &mut folder, &segments, (lo, hi), true)?;
        same_at(&rt, stopped.is_err(), read, &(lo, hi));
    }
    Ok(())
}

/// A bucket of the lowest row.
fn low(x: u32, n: u64) -> Bucket {
    Bucket { x, y: 0, n }
}

/// The ends of a box in the first dimension, the steps, and the filled buckets.
const GRIDS: [((i32, i32), (u32, u32), &[(u32, u64)]); 3] = [
    ((0, 333), (100, 1), &[(0, 100), (1, 100), (2, 100), (3, 34)]),
    (
        (-150, 333),
        (100, 7),
        &[(1, 50), (2, 100), (3, 100), (4, 84)],
    ),
    ((5, 0), (1, 1), &[]),
];

/// The buckets of these columns, all of the lowest row.
fn lowest(alloc: Global, columns: &[(u32, u64)]) -> Result<Vec<Bucket>, Fail> {
    let mut buckets = Vec::new(alloc);
    for (x, n) in columns {
        buckets.push(low(*x, *n))?;
    }
    Ok(buckets)
}

/// The grid over the row from one place to another.
fn gridded(alloc: Global, ends: (i32, i32), steps: (u32, u32)) -> Result<Vec<Bucket>, Fail> {
    let (mut folder, head) = open_row(alloc)?;
    let segments = alone(alloc, head, live_row(alloc)?)?;
    let mut cache = PageCache::new(alloc, 4)?;
    let (lo, hi) = (Point { c: [ends.0, 0] }, Point { c: [ends.1, 0] });
    let plan = GridPlan::new(lo, hi, 0, steps.0, 1, steps.1)
        .ok()
        .ok_or("no plan")?;
    Ok(grid(alloc, &segments, &[], &mut cache, &mut folder, &plan)?)
}

#[test]
fn grids_of_the_row(rt: HostRuntime) -> Result<(), Fail> {
    for (ends, steps, columns) in GRIDS {
        let told = gridded(rt.alloc(), ends, steps)?;
        let expected = lowest(rt.alloc(), columns)?;
        same_at(&rt, told.as_slice(), expected.as_slice(), &ends);
    }
    Ok(())
}

/// A plan's dimensions and steps, over the box from 0, 0 to 65,535, 1, and why there is none.
const REFUSED: [((u32, u32), (u32, u32), GridFault); 5] = [
    ((0, 0), (1, 1), GridFault::BadGrid),
    ((2, 1), (1, 1), GridFault::BadGrid),
    ((0, 2), (1, 1), GridFault::BadGrid),
    ((1, 0), (0, 1), GridFault::BadGrid),
    ((0, 1), (1, 1), GridFault::TooMany { buckets: 131_072 }),
];

#[test]
fn plans_that_are_none(rt: HostRuntime) -> Result<(), Fail> {
    for ((x, y), (step_x, step_y), fault) in REFUSED {
        let (lo, hi) = (Point { c: [0, 0] }, Point { c: [65_535, 1] });
        let plan = GridPlan::<2>::new(lo, hi, x, step_x, y, step_y);
        same_at(&rt, plan.err(), Some(fault), &(x, y));
    }
    Ok(())
}
