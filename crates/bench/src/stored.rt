//! A segment in memory, all of whose pages are kept.

ghost use Rattle.std.specs.Prelude.{◌≤◌, ◌^◌};

use crate::builds::{LEAF, drawn};
use bkd_build::OpenGate;
use bkd_reader::intersect;
use cell_relate::{BoxShape, Shape};
use live_bits::LiveBits;
use nearest_query::nearest;
use outer_io::MemFolder;
use page_cache::PageCache;
use point_codec::Point;
use segment_build::build_segment;
use segment_file::SegmentHead;
use std::alloc::Global;
use std::marker::Sync;
use std::slice::from_ref;
use std::thread::Threads;

/// More pages than the largest of these segments has.
const PAGES: u32 = 65_536;

/// A segment of drawn entries, all of them live.
#[derive(Drop)]
pub struct Stored {
    pub folder: MemFolder,
    pub cache: PageCache,
    pub head: SegmentHead<2>,
    pub live: LiveBits,
}

impl Stored {
    /// That of so many entries, of which each page was read once.
    pub fn new<R: Threads + Sync>(rt: &R, alloc: Global, count: u32) -> Option<Stored>
        requires some { 1 ≤ count }
        requires few { count ≤ 2 ^ 24 }
    {
        let mut folder = MemFolder::new(alloc, Vec::new(alloc));
        let Some((head, live)) = written(rt, alloc, &mut folder, count) else {
            return None;
        };
        let mut stored = Stored {
            folder,
            cache: PageCache::new(alloc, PAGES).ok()?,
            head,
            live,
        };
        let mut hits = Vec::new(alloc);
        let _all = stored.walk(alloc, &mut everywhere(), &mut hits)?;
        Some(stored)
    }

    /// A sum over the numbers that a walk with the shape finds.
    pub fn walk<S: Shape<2>>(
        &mut self,
        alloc: Global,
        shape: &mut S,
        hits: &mut Vec<u32>,
    ) -> Option<u64> {
        hits.clear();
        intersect(
            alloc,
            &self.head,
            &mut self.cache,
            &mut self.folder,
            shape,
            &self.live,
            hits,
        )
        .ok()?;
        let mut sum = 0u64;
        for doc in hits.as_slice() {
            sum = sum.wrapping_add(u64::from(*doc));
        }
        Some(sum)
    }

    /// A sum over the numbers of the ten entries that are nearest to a point, the nearest first.
    pub fn nearest(&mut self, alloc: Global, at: &Point<2>) -> Option<u64> {
        let found = nearest(
            alloc,
            from_ref(&self.head),
            from_ref(&self.live),
            &[],
            &mut self.cache,
            &mut self.folder,
            at,
            10,
            false,
        )
        .ok()?;
        let mut sum = 0u64;
        for near in found.docs.as_slice() {
            sum = sum.wrapping_mul(31).wrapping_add(u64::from(near.doc));
        }
        Some(sum)
    }
}

/// The box of all points.
pub fn everywhere() -> BoxShape<2> {
    BoxShape::new(Point { c: [i32::MIN; 2] }, Point { c: [i32::MAX; 2] })
}

/// Writes the segment of so many drawn entries, and answers its head and its live numbers.
fn written<R: Threads + Sync>(
    rt: &R,
    alloc: Global,
    folder: &mut MemFolder,
    count: u32,
) -> Option<(SegmentHead<2>, LiveBits)>
    requires some { 1 ≤ count }
    requires few { count ≤ 2 ^ 24 }
{
    let Ok(mut entries) = drawn(alloc, count) else {
        return None;
    };
    let Ok(segment) = build_segment(rt, alloc, entries.as_mut_slice(), LEAF, 0, &OpenGate) else {
        return None;
    };
    let Ok(head) = segment.write(alloc, folder, 1) else {
        return None;
    };
    Some((head, segment.into_live()))
}
