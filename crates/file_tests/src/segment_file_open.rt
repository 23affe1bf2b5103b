//! Segments whose files are put together here page by page: opened, and each damage with what it carries.

use crate::asserts::{same, same_at};
use crate::samples::{
    LEAVES, OWN, OWN_HEAD, PACKED, Told, answer_told, changed, file, file_of_three, flipped,
    folder_with, front, put_page,
};
use outer_io::{FileName, MemFolder};
use segment_file::open_segment;
use std::test::Fail;

/// What opening segment 7 of the folder answers.
fn opened_in(rt: &HostRuntime, folder: &mut MemFolder) -> Told {
    answer_told(open_segment::<1, MemFolder>(rt.alloc(), folder, 7))
}

/// What opening segment 7 answers where its file has these bytes.
fn opened(rt: &HostRuntime, bytes: &[u8]) -> Result<Told, Fail> {
    let mut folder = folder_with(rt, FileName::Segment(7), bytes)?;
    Ok(opened_in(rt, &mut folder))
}

#[test]
fn a_segment_is_opened(rt: HostRuntime) -> Result<(), Fail> {
    let bytes = file_of_three(&rt, 7)?;
    same(&rt, opened(&rt, bytes.as_slice())?, Told::Fine);
    Ok(())
}

/// Lengths to which the file is cut, or to which a zero fills it up, and what opening answers.
const LENGTHS: [(usize, Told); 4] = [
    (0, Told::Size(0, 4096)),
    (4095, Told::Size(4095, 4096)),
    (12287, Told::Size(12287, 12288)),
    (12289, Told::Size(12289, 12288)),
];

#[test]
fn a_file_of_another_length_is_told(rt: HostRuntime) -> Result<(), Fail> {
    let mut bytes = file_of_three(&rt, 7)?;
    bytes.push(0)?;
    for (len, expected) in LENGTHS {
        same(&rt, opened(&rt, front(bytes.as_slice(), len))?, expected);
    }
    Ok(())
}

#[test]
fn the_file_of_another_segment_is_told(rt: HostRuntime) -> Result<(), Fail> {
    let other = file_of_three(&rt, 8)?;
    same(&rt, opened(&rt, other.as_slice())?, Told::Page(0));
    let mut folder = folder_with(&rt, FileName::Segment(8), other.as_slice())?;
    same(&rt, opened_in(&rt, &mut folder), Told::Missing);
    Ok(())
}

/// The calls of opening, which are of the size, the head and the index, and what opening answers where one fails.
const CALLS: [(u64, Told); 4] = [
    (0, Told::Failed),
    (1, Told::Failed),
    (2, Told::Failed),
    (3, Told::Fine),
];

#[test]
fn each_call_of_opening_that_fails_is_told(rt: HostRuntime) -> Result<(), Fail> {
    let bytes = file_of_three(&rt, 7)?;
    let mut folder = folder_with(&rt, FileName::Segment(7), bytes.as_slice())?;
    for (call, expected) in CALLS {
        folder.plan([call].to_vec(rt.alloc())?, None);
        same_at(&rt, opened_in(&rt, &mut folder), expected, &call);
        same(
            &rt,
            folder.get(&FileName::Segment(7)),
            Some(bytes.as_slice()),
        );
    }
    Ok(())
}

#[test]
fn a_page_that_was_moved_is_told(rt: HostRuntime) -> Result<(), Fail> {
    let mut bytes = Vec::new(rt.alloc());
    put_page(&mut bytes, 7, 0, &OWN_HEAD)?;
    put_page(&mut bytes, 7, 2, &LEAVES)?;
    put_page(&mut bytes, 7, 1, &OWN)?;
    same(&rt, opened(&rt, bytes.as_slice())?, Told::Page(1));
    Ok(())
}

#[test]
fn each_byte_of_the_first_page_counts(rt: HostRuntime) -> Result<(), Fail> {
    let bytes = file_of_three(&rt, 7)?;
    for at in 0..4096 {
        let bad = flipped(&rt, bytes.as_slice(), at)?;
        same_at(&rt, opened(&rt, bad.as_slice())?, Told::Page(0), &at);
    }
    Ok(())
}

/// Bytes of the head that are changed, and what opening answers: the magic bytes, those of the other form, dimensions
/// out of range, form, leaf size, entries and leaves, a byte behind the fields; then other dimensions; the length of
/// the index, by which the file is longer, or by which bytes are left of it; the leaf pages.
const CHANGES: [(usize, u8, Told); 14] = [
    (0, 0x43, Told::Body(4064)),
    (7, 0x31, Told::Body(4064)),
    (8, 0, Told::Body(4064)),
    (8, 9, Told::Body(4064)),
    (9, 2, Told::Body(4064)),
    (9, 4, Told::Body(4064)),
    (11, 1, Told::Body(4064)),
    (15, 0, Told::Body(4064)),
    (15, 7, Told::Body(4064)),
    (19, 2, Told::Body(4064)),
    (28, 1, Told::Body(4064)),
    (8, 2, Told::Unequal(1, 2)),
    (22, 0x0f, Told::Body(8128)),
    (27, 2, Told::Size(12288, 16384)),
];

#[test]
fn each_field_out_of_range_is_told(rt: HostRuntime) -> Result<(), Fail> {
    for (at, byte, expected) in CHANGES {
        let head = changed(&rt, &OWN_HEAD, at, byte)?;
        let bytes = file(&rt, 7, head.as_slice(), &OWN, &LEAVES)?;
        same_at(&rt, opened(&rt, bytes.as_slice())?, expected, &(at, byte));
    }
    Ok(())
}

#[test]
fn an_index_that_is_none_is_told(rt: HostRuntime) -> Result<(), Fail> {
    let bytes = file(&rt, 7, &OWN_HEAD, &PACKED, &LEAVES)?;
    same(&rt, opened(&rt, bytes.as_slice())?, Told::Body(8128));
    Ok(())
}

#[test]
fn an_index_of_other_pages_is_told(rt: HostRuntime) -> Result<(), Fail> {
    let head = changed(&rt, &OWN_HEAD, 27, 2)?;
    let mut bytes = file(&rt, 7, head.as_slice(), &OWN, &LEAVES)?;
    put_page(&mut bytes, 7, 3, &[])?;
    same(&rt, opened(&rt, bytes.as_slice())?, Told::Unequal(2, 1));
    Ok(())
}
