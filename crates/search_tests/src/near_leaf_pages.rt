//! What a search for the nearest reads of a segment of several leaf pages, and where a read fails.

use crate::asserts::{holds_at, same_at};
use crate::leaf_pages::{Stored, make_stored};
use page_cache::{PageCache, PageFault};
use point_codec::{Near, Point};
use segment_view::{Nearest, Segments, nearest};
use std::alloc::Global;
use std::process::Abort;
use std::test::Fail;

/// The ten nearest of the segment.
fn ten_nearest(
    alloc: Global,
    stored: &mut Stored,
    cache: &mut PageCache,
    at: &Point<2>,
) -> Result<Nearest, PageFault> {
    nearest(
        alloc,
        &stored.segments,
        &[],
        cache,
        &mut stored.folder,
        at,
        10,
        false,
    )
}

/// The ten nearest among the entries themselves, all of them in the buffer.
fn ten_of_entries(alloc: Global, stored: &mut Stored, at: &Point<2>) -> Result<Nearest, PageFault> {
    let mut cache = PageCache::new(alloc, 1)?;
    nearest(
        alloc,
        &Segments::new(alloc),
        stored.entries.as_slice(),
        &mut cache,
        &mut stored.folder,
        at,
        10,
        false,
    )
}

/// Where it is asked from, how many leaves may have one of the ten, and how many pages are read: at the first leaf;
/// at the front of a leaf in the middle of the second page; where the second page begins; past the last one.
const PLACES: [(i32, u64, u64); 4] = [(0, 1, 1), (3_996, 2, 1), (3_663, 2, 2), (9_000, 2, 1)];

/// A search over a cache without the segment's pages, where this call of the folder fails: it finds those that are
/// wanted, and tells how many leaves are near, just where it doesn't come to that call.
fn check_search(
    rt: &impl Abort,
    alloc: Global,
    stored: &mut Stored,
    cache: &mut PageCache,
    wanted: &[Near],
    place: (i32, u64, u64),
    call: u64,
) -> Result<(), Fail> {
    let (x, near_leaves, pages) = place;
    cache.forget(3);
    stored.folder.plan([call].to_vec(alloc)?, None);
    match ten_nearest(alloc, stored, cache, &Point { c: [x, 0] }) {
        Ok(found) => same_at(
            rt,
            (found.docs.as_slice(), found.touched, call),
            (wanted, near_leaves, pages),
            &x,
        ),
        Err(fault) => {
            holds_at(rt, matches!(fault, PageFault::Failed) && call < pages, &x);
        }
    }
    Ok(())
}

/// The search from a place, where each of its reads fails in turn and then none, and then over the pages that are kept.
fn check_place(
    rt: &impl Abort,
    alloc: Global,
    stored: &mut Stored,
    place: (i32, u64, u64),
) -> Result<(), Fail> {
    let (x, near_leaves, pages) = place;
    let at = Point { c: [x, 0] };
    let wanted = ten_of_entries(alloc, stored, &at)?;
    same_at(rt, wanted.touched, 0, &x);
    let mut cache = PageCache::new(alloc, 4)?;
    for call in 0..=pages {
        check_search(
            rt,
            alloc,
            stored,
            &mut cache,
            wanted.docs.as_slice(),
            place,
            call,
        )?;
    }
    stored.folder.plan(Vec::new(alloc), Some(0));
    let found = ten_nearest(alloc, stored, &mut cache, &at)?;
    same_at(rt, found.docs.as_slice(), wanted.docs.as_slice(), &x);
    same_at(rt, found.touched, near_leaves, &x);
    Ok(())
}

#[test]
fn the_nearest_read_the_pages_of_near_leaves(rt: HostRuntime) -> Result<(), Fail> {
    let mut stored = make_stored(&rt, rt.alloc())?;
    for place in PLACES {
        check_place(&rt, rt.alloc(), &mut stored, place)?;
    }
    Ok(())
}
