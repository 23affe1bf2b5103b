//! Files as they are written: those of live bits, and those of segments.

ghost use Rattle.std.specs.Prelude.{◌≡◌, ◌≤ℤ◌, ◌∷◌, List, [], length, IfOk};
ghost use Rattle.point_codec.specs.Points.{Item};
ghost use Rattle.point_codec.specs.Seen.{region_of};
ghost use Rattle.leaf_codec.specs.Leaves.{SpellsLeafIn};

use crate::asserts::{holds, same, same_at};
use crate::samples::{Told, answer_told, changed, file_of_three, flipped, folder_with, front};
use byte_cursor::Bytes;
use inner_pack::Index;
use leaf_codec::LeafView;
use live_bits::LiveBits;
use outer_io::{FileName, MemFolder, WriteFault};
use page_file::{PageBytes, seal};
use point_codec::{Cell, Point};
use segment_file::{SegmentHead, read_live, write_live, write_segment};
use std::process::Abort;
use std::test::Fail;

/// The body of segment 2, generation 1 with the numbers 3, 4 and 9.
const BODY: [u8; 37] = [
    0x42, 0x4b, 0x44, 0x50, 0x4c, 0x49, 0x56, 0x31, // the magic bytes
    0, 0, 0, 0, 0, 0, 0, 2, // segment
    0, 0, 0, 0, 0, 0, 0, 1, // generation
    0, 0, 0, 3, // base
    0, 0, 0, 7, // span
    0, 0, 0, 3, // live
    0x43,
];

const LIVE_FILE: FileName = FileName::Live {
    segment: 2,
    generation: 1,
};

/// The page of a body of live bits of segment 2.
fn page_of(body: &[u8]) -> PageBytes {
    let part = body.split_at(body.len().min(4064)).0;
    seal(2, 2, 0, part)
}

/// What stands in the folder beside what is written.
const BEFORE: &[u8] = b"as before";

/// The folder has the page of the body, and the other file as before.
fn has_page(rt: &impl Abort, folder: &MemFolder) {
    let page = page_of(&BODY);
    same(rt, folder.get(&LIVE_FILE), Some(page.b.as_slice()));
    same(rt, folder.get(&FileName::Commit), Some(BEFORE));
}

#[test]
fn live_bits_are_a_page_of_their_own(rt: HostRuntime) -> Result<(), Fail> {
    let mut folder = folder_with(&rt, FileName::Commit, BEFORE)?;
    let live = LiveBits::of_docs(rt.alloc(), &[3, 4, 9])?;
    holds(
        &rt,
        write_live(rt.alloc(), &mut folder, 2, 1, &live).is_ok(),
    );
    has_page(&rt, &folder);
    let back = read_live(rt.alloc(), &mut folder, 2, 1)
        .ok()
        .ok_or("no live bits")?;
    same(&rt, back.live_count(), 3);
    folder.plan([0].to_vec(rt.alloc())?, None);
    let failed = write_live(rt.alloc(), &mut folder, 2, 2, &back);
    same(&rt, failed, Err(WriteFault::Failed));
    has_page(&rt, &folder);
    Ok(())
}

/// What reading the live bits of segment 2, generation 1 answers.
fn read_in(rt: &HostRuntime, folder: &mut MemFolder) -> Told {
    answer_told(read_live(rt.alloc(), folder, 2, 1))
}

/// What reading these live bits answers where their file has these bytes.
fn read(rt: &HostRuntime, bytes: &[u8]) -> Result<Told, Fail> {
    let mut folder = folder_with(rt, LIVE_FILE, bytes)?;
    Ok(read_in(rt, &mut folder))
}

/// Lengths to which the page is cut, or to which a zero fills it up, and what reading answers.
const LENGTHS: [(usize, Told); 4] = [
    (4096, Told::Fine),
    (0, Told::Size(0, 4096)),
    (4095, Told::Size(4095, 4096)),
    (4097, Told::Size(4097, 4096)),
];

#[test]
fn a_file_of_another_length_is_told(rt: HostRuntime) -> Result<(), Fail> {
    let page = page_of(&BODY);
    let long = changed(&rt, &page.b, 4096, 0)?;
    for (len, expected) in LENGTHS {
        same(&rt, read(&rt, front(long.as_slice(), len))?, expected);
    }
    Ok(())
}

#[test]
fn the_page_of_another_file_is_told(rt: HostRuntime) -> Result<(), Fail> {
    same(&rt, read(&rt, &seal(2, 3, 0, &BODY).b)?, Told::Page(0));
    same(&rt, read(&rt, &seal(1, 2, 0, &BODY).b)?, Told::Page(0));
    Ok(())
}

#[test]
fn each_byte_of_the_page_of_live_bits_counts(rt: HostRuntime) -> Result<(), Fail> {
    let page = page_of(&BODY);
    for at in 0..4096 {
        let bad = flipped(&rt, &page.b, at)?;
        same_at(&rt, read(&rt, bad.as_slice())?, Told::Page(0), &at);
    }
    same(&rt, read(&rt, &page.b)?, Told::Fine);
    Ok(())
}

/// Bytes of the body that are changed: another segment, another generation, a span, a count, a bit, a byte behind the
/// body.
const CHANGES: [(usize, u8); 6] = [(15, 3), (23, 2), (31, 6), (35, 2), (36, 0x42), (37, 1)];

#[test]
fn a_body_of_live_bits_that_is_none_is_told(rt: HostRuntime) -> Result<(), Fail> {
    for (at, byte) in CHANGES {
        let body = changed(&rt, &BODY, at, byte)?;
        let page = page_of(body.as_slice());
        same_at(&rt, read(&rt, &page.b)?, Told::Body(4064), &(at, byte));
    }
    Ok(())
}

#[test]
fn a_file_of_live_bits_that_is_missing_is_told(rt: HostRuntime) -> Result<(), Fail> {
    let mut folder = MemFolder::new(rt.alloc(), Vec::new(rt.alloc()));
    same(&rt, read_in(&rt, &mut folder), Told::Missing);
    Ok(())
}

/// The calls of reading, which are of the size and of two pages, and what reading answers where one fails.
const CALLS: [(u64, Told); 4] = [
    (0, Told::Failed),
    (1, Told::Failed),
    (2, Told::Failed),
    (3, Told::Fine),
];

/// A folder with live bits on two pages.
fn two_pages(rt: &(impl Abort + AllocGlobal)) -> Result<MemFolder, Fail> {
    let mut folder = MemFolder::new(rt.alloc(), Vec::new(rt.alloc()));
    let live = LiveBits::of_docs(rt.alloc(), &[3, 40_003])?;
    holds(rt, write_live(rt.alloc(), &mut folder, 2, 1, &live).is_ok());
    Ok(folder)
}

#[test]
fn each_call_of_reading_live_bits_that_fails_is_told(rt: HostRuntime) -> Result<(), Fail> {
    let mut folder = two_pages(&rt)?;
    let bytes = folder.get(&LIVE_FILE).unwrap_or(&[]).to_vec(rt.alloc())?;
    for (call, expected) in CALLS {
        folder.plan([call].to_vec(rt.alloc())?, None);
        same_at(&rt, read_in(&rt, &mut folder), expected, &call);
        same(&rt, folder.get(&LIVE_FILE), Some(bytes.as_slice()));
    }
    Ok(())
}

/// The three leaves, of two entries and two and one.
const FIRST: [u8; 12] = [0, 2, 0, 0, 3, 0x80, 0, 0, 0, 0, 5, 7];

const SECOND: [u8; 9] = [0, 2, 0, 2, 4, 0x80, 0, 0, 7];

const THIRD: [u8; 9] = [0, 1, 0, 4, 4, 0x80, 0, 0, 7];

/// The cell from `lo` to `hi` in one dimension.
fn line(lo: i32, hi: i32) -> Cell<1>
    requires { lo ≤ℤ hi }
    ensures { region_of result ≡ record { lo = lo ∷ []; hi = hi ∷ [] } }
{
    Cell {
        lo: Point { c: [lo] },
        hi: Point { c: [hi] },
    }
}

/// The bytes of a leaf, which are found to spell so many entries in the cell.
fn leaf(rt: &HostRuntime, bytes: &[u8], cell: &Cell<1>, count: u16) -> Result<Bytes, Fail>
    ensures long { IfOk result (λ b. length b ≡ length bytes.now) }
    ensures spells { IfOk result (λ b. (items : List Item) × SpellsLeafIn 1 b count (region_of cell.now) items) }
{
    let _view = LeafView::read(bytes, cell, count).ok_or("no leaf")?;
    Ok(Bytes::new(bytes.to_vec(rt.alloc())?))
}

/// Writes segment 7 of the three leaves.
fn write_three(
    rt: &HostRuntime,
    folder: &mut MemFolder,
) -> Result<Result<SegmentHead<1>, WriteFault>, Fail> {
    let wide = line(5, 7);
    let narrow = line(7, 7);
    let index = Index::pack(
        rt.alloc(),
        wide,
        &[(0, 7), (0, 7)],
        &[12, 9, 9],
        &[wide, narrow, narrow],
    )?;
    let leaves = [
        leaf(rt, &FIRST, &wide, 2)?,
        leaf(rt, &SECOND, &narrow, 2)?,
        leaf(rt, &THIRD, &narrow, 1)?,
    ];
    Ok(write_segment(rt.alloc(), folder, 7, 2, 5, index, &leaves))
}

#[test]
fn three_leaves_are_written_behind_their_index(rt: HostRuntime) -> Result<(), Fail> {
    let expected = file_of_three(&rt, 7)?;
    let mut folder = folder_with(&rt, FileName::Commit, BEFORE)?;
    folder.plan([0].to_vec(rt.alloc())?, None);
    let failed = write_three(&rt, &mut folder)?;
    holds(&rt, failed.is_err_and(|fault| fault == WriteFault::Failed));
    let written = write_three(&rt, &mut folder)?;
    holds(&rt, written.is_ok_and(|head| head.entries() == 5));
    same(
        &rt,
        folder.get(&FileName::Segment(7)),
        Some(expected.as_slice()),
    );
    same(&rt, folder.get(&FileName::Commit), Some(BEFORE));
    Ok(())
}
