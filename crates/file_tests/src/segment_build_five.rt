//! A segment against the file that is put together here page by page.

ghost use Rattle.std.specs.Prelude.{◌≡◌};

use crate::asserts::{holds, same};
use crate::samples::file_of_three;
use bkd_build::OpenGate;
use byte_cursor::Memory;
use live_bits::LiveBits;
use outer_io::{FileName, MemFolder, WriteFault};
use point_codec::{Entry, Point};
use segment_build::{NewSegment, build_segment};
use std::alloc::Global;
use std::marker::Sync;
use std::process::Abort;
use std::test::Fail;
use std::thread::Threads;

/// The entry of the number at the coordinate.
fn entry(doc: u32, at: i32) -> Entry<1>
    ensures { result.doc ≡ doc }
{
    Entry {
        doc,
        point: Point { c: [at] },
    }
}

/// The segment of the five entries.
fn five<R: Threads + Sync>(rt: &R, alloc: Global) -> Result<NewSegment<1>, Memory> {
    let mut entries = [
        entry(4, 7),
        entry(3, 7),
        entry(2, 7),
        entry(1, 7),
        entry(0, 5),
    ];
    build_segment(rt, alloc, &mut entries, 2, 0, &OpenGate)
}

#[test]
fn five_entries_are_written_after_a_refusal(rt: HostRuntime) -> Result<(), Fail> {
    let segment = five(&rt, rt.alloc())?;
    same(&rt, segment.entries(), 5);
    let mut folder = MemFolder::new(rt.alloc(), [0].to_vec(rt.alloc())?);
    let failed = segment.write(rt.alloc(), &mut folder, 7);
    holds(&rt, failed.is_err_and(|fault| fault == WriteFault::Failed));
    let head = segment.write(rt.alloc(), &mut folder, 7);
    holds(
        &rt,
        head.is_ok_and(|head| head.id() == 7 && head.entries() == 5),
    );
    let expected = file_of_three(&rt, 7)?;
    same(
        &rt,
        folder.get(&FileName::Segment(7)),
        Some(expected.as_slice()),
    );
    Ok(())
}

#[test]
fn five_entries_are_live(rt: HostRuntime) -> Result<(), Fail> {
    let segment = five(&rt, rt.alloc())?;
    same(&rt, segment.live().live_count(), 5);
    Ok(())
}

/// The live entries once number 3 was cleared, which is cleared once, and number 5 never.
fn cleared<R: Abort + Threads + Sync>(rt: &R, alloc: Global) -> Result<LiveBits, Fail> {
    let mut segment = five(rt, alloc)?;
    holds(rt, segment.clear(3));
    holds(rt, !segment.clear(3));
    holds(rt, !segment.clear(5));
    Ok(segment.into_live())
}

#[test]
fn a_number_is_cleared_once(rt: HostRuntime) -> Result<(), Fail> {
    let live = cleared(&rt, rt.alloc())?;
    same(&rt, live.live_count(), 4);
    holds(&rt, !live.is_live(3));
    holds(&rt, live.is_live(4));
    Ok(())
}
