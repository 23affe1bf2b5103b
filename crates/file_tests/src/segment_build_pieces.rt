//! A segment of more than 256 pages, which is handed to the folder in two pieces: each of the two calls fails in
//! turn, and so does each read of a page.

ghost use Rattle.std.specs.Prelude.{◌≡◌, ◌≤◌, ◌^◌, vec_len, IfOk};
ghost use Rattle.bkd_build.specs.Pieces.{AreEntries};

use crate::asserts::{holds_at, same, same_at};
use bkd_build::OpenGate;
use outer_io::{FileName, MemFolder, WriteFault};
use page_cache::{PageCache, PageFault};
use point_codec::{Entry, Point};
use segment_build::{NewSegment, build_segment};
use segment_file::{SegmentHead, append_entries, read_entries};
use std::alloc::{AllocError, Global};
use std::marker::Sync;
use std::process::Abort;
use std::test::Fail;
use std::thread::Threads;

const SEGMENT: FileName = FileName::Segment(3);

/// How many entries fill more than 256 pages, two leaves a page.
const MANY: u32 = 200_000;

/// The point of a number, somewhere in a square.
fn point(doc: u32) -> Point<2> {
    Point {
        c: [
            (doc.wrapping_mul(7_919) % 65_536) as i32,
            (doc.wrapping_mul(104_729) % 65_536) as i32,
        ],
    }
}

/// So many entries, with the numbers from 0 on.
#[tactic(auto, using(bkd_build::proofs::Numbered::none_numbered, bkd_build::proofs::Numbered::numbered_push, bkd_build::proofs::Numbered::numbered_entries))]
fn spread(alloc: Global, count: u32) -> Result<Vec<Entry<2>>, AllocError>
    requires some { 1 ≤ count }
    requires few { count ≤ 2 ^ 24 }
    ensures length { IfOk result (λ v. vec_len v ≡ count) }
    ensures entries { IfOk result (λ v. AreEntries v.items) }
{
    let mut entries = Vec::new(alloc);
    for doc in 0..count {
        entries.push(Entry {
            doc,
            point: point(doc),
        })?;
    }
    Ok(entries)
}

/// The segment of so many entries.
fn segment<R: Threads + Sync>(rt: &R, alloc: Global, count: u32) -> Result<NewSegment<2>, Fail>
    requires some { 1 ≤ count }
    requires few { count ≤ 2 ^ 24 }
{
    let mut entries = spread(alloc, count)?;
    Ok(build_segment(rt, alloc, entries.as_mut_slice(), 333, 0, &OpenGate)?)
}

/// A folder with a file of another name.
fn folder(rt: &HostRuntime) -> Result<MemFolder, Fail> {
    let mut folder = MemFolder::new(rt.alloc(), Vec::new(rt.alloc()));
    folder.put(FileName::Commit, b"as before".to_vec(rt.alloc())?)?;
    Ok(folder)
}

/// How many bytes the segment's file has.
fn size(folder: &MemFolder) -> usize {
    folder.get(&SEGMENT).map_or(0, |bytes| bytes.len())
}

/// Which call fails, and whether the segment is written then.
const PIECES: [(u64, bool); 3] = [(0, false), (1, false), (2, true)];

/// Writes the segment where a call fails: it is written whole, of more than one piece, or fails.
fn is_written(
    alloc: Global,
    segment: &NewSegment<2>,
    folder: &mut MemFolder,
    call: u64,
) -> Result<bool, Fail> {
    folder.plan(vec![in alloc; call]?, None);
    match segment.write(alloc, folder, 3) {
        Ok(head) => Ok(head.entries() == MANY && size(folder) > 256 * 4096),
        Err(WriteFault::Failed) => Ok(false),
        Err(WriteFault::Memory) => Err("memory is wanting")?,
    }
}

#[test]
fn each_piece_that_fails(rt: HostRuntime) -> Result<(), Fail> {
    let segment = segment(&rt, rt.alloc(), MANY)?;
    let mut folder = folder(&rt)?;
    for (call, done) in PIECES {
        let written = is_written(rt.alloc(), &segment, &mut folder, call)?;
        same_at(&rt, written, done, &call);
        let before = folder.get(&FileName::Commit);
        same_at(&rt, before, Some(b"as before".as_slice()), &call);
    }
    Ok(())
}

/// All entries come once more behind those that are there.
fn append_again(
    rt: &(impl Abort + AllocGlobal),
    folder: &mut MemFolder,
    cache: &mut PageCache,
    head: &SegmentHead<2>,
    segment: &NewSegment<2>,
    entries: &mut Vec<Entry<2>>,
) -> Result<(), Fail> {
    let mut twice = entries.as_slice().to_vec(rt.alloc())?;
    twice.extend_from_slice(entries.as_slice())?;
    append_entries(rt.alloc(), folder, cache, head, segment.live(), entries)
        .ok()
        .ok_or("no entries")?;
    same(rt, entries.as_slice(), twice.as_slice());
    Ok(())
}

/// Six full leaves lie on three pages, and behind them the seventh one, of two entries.
#[test]
fn each_read_that_fails(rt: HostRuntime) -> Result<(), Fail> {
    let segment = segment(&rt, rt.alloc(), 2_000)?;
    let mut folder = folder(&rt)?;
    let head = segment
        .write(rt.alloc(), &mut folder, 3)
        .ok()
        .ok_or("no segment")?;
    same(
        &rt,
        (head.index().leaves(), head.index().leaf_pages()),
        (7, 3),
    );
    let file = folder.get(&SEGMENT).unwrap_or(&[]).to_vec(rt.alloc())?;
    for call in 0..4 {
        let mut cache = PageCache::new(rt.alloc(), 9)?;
        folder.plan(vec![in rt.alloc(); call]?, None);
        match read_entries(rt.alloc(), &mut folder, &mut cache, &head, segment.live()) {
            Ok(mut entries) => {
                assert_eq!(rt; (entries.len(), call), (2_000, 3));
                append_again(&rt, &mut folder, &mut cache, &head, &segment, &mut entries)?;
            }
            Err(fault) => {
                holds_at(&rt, matches!(fault, PageFault::Failed) && call < 3, &call);
            }
        }
        same_at(&rt, folder.get(&SEGMENT), Some(file.as_slice()), &call);
    }
    Ok(())
}
