//! The Commit file: read and written over a folder in memory, good and bad, with calls that fail.

use crate::asserts::{holds, holds_at, same, same_at};
use crate::commit_list_bodies::{BODY, OLD_BODY, long_body, read};
use crate::samples::{changed, flipped};
use commit_list::{read_commit, write_commit};
use outer_io::{FileName, MemFolder, WriteFault};
use page_cache::{Damage, PageFault, pages_of};
use std::process::Abort;
use std::test::Fail;

/// The Commit file that is this body.
fn file_of(rt: &(impl Abort + AllocGlobal), body: &[u8]) -> Result<Vec<u8>, Fail> {
    assert!(rt; body.len() < 10_000);
    Ok(pages_of(rt.alloc(), &FileName::Commit, body)?)
}

/// A folder with this Commit file and a file of a segment.
fn folder_with(rt: &impl AllocGlobal, file: &[u8]) -> Result<MemFolder, Fail> {
    let mut folder = MemFolder::new(rt.alloc(), Vec::new(rt.alloc()));
    folder.put(FileName::Commit, file.to_vec(rt.alloc())?)?;
    folder.put(FileName::Segment(7), b"seven".to_vec(rt.alloc())?)?;
    Ok(folder)
}

/// What is wrong, in a line.
fn text_of(rt: &impl AllocGlobal, damage: &Damage) -> Result<String, Fail> {
    Ok(match damage {
        Damage::Page { file, number, .. } => format!(in rt.alloc(); "{file} page {number}")?,
        Damage::Body { file, bytes } => {
            format!(in rt.alloc(); "{file} body of {}", bytes.as_slice().len())?
        }
        Damage::Size { file, size, needed } => {
            format!(in rt.alloc(); "{file} has {size}, needs {needed}")?
        }
        _ => String::from_str(rt.alloc(), "another")?,
    })
}

/// What reading the folder's commit answers, in a line.
fn answer(rt: &impl AllocGlobal, folder: &mut MemFolder) -> Result<String, Fail> {
    match read_commit(rt.alloc(), folder) {
        Ok(Some(c)) => Ok(format!(in rt.alloc();
            "{} given, {} listed",
            c.points_given(),
            c.listed().len()
        )?),
        Ok(None) => Ok(String::from_str(rt.alloc(), "none")?),
        Err(PageFault::Failed) => Ok(String::from_str(rt.alloc(), "failed")?),
        Err(PageFault::Memory) => Err("memory is wanting")?,
        Err(PageFault::Damaged(damage)) => text_of(rt, &damage),
    }
}

/// Reading the commit of a folder with this Commit file answers so.
fn says(rt: &(impl Abort + AllocGlobal), file: &[u8], want: &str) -> Result<(), Fail> {
    let mut folder = folder_with(rt, file)?;
    same(rt, answer(rt, &mut folder)?.as_str(), want);
    Ok(())
}

#[test]
fn no_file(rt: HostRuntime) -> Result<(), Fail> {
    let mut empty = MemFolder::new(rt.alloc(), Vec::new(rt.alloc()));
    same(&rt, answer(&rt, &mut empty)?.as_str(), "none");
    Ok(())
}

#[test]
fn a_file_in_the_layout_of_before(rt: HostRuntime) -> Result<(), Fail> {
    let old = file_of(&rt, OLD_BODY.as_slice())?;
    says(&rt, old.as_slice(), "1 given, 1 listed")
}

/// The Commit file of so many segments.
fn long_file(rt: &(impl Abort + AllocGlobal), count: u16) -> Result<Vec<u8>, Fail> {
    let body = long_body(rt.alloc(), count)?;
    file_of(rt, body.as_slice())
}

#[test]
fn good_files(rt: HostRuntime) -> Result<(), Fail> {
    let least = long_file(&rt, 0)?;
    says(&rt, least.as_slice(), "2 given, 0 listed")?;
    let most = long_file(&rt, 200)?;
    says(&rt, most.as_slice(), "2 given, 200 listed")
}

/// Lengths to which the file of 200 segments is cut, or to which zeros fill it up.
const LENGTHS: [(usize, &str); 5] = [
    (0, "commit.bkd has 0, needs 4096"),
    (4095, "commit.bkd has 4095, needs 4096"),
    (4096, "commit.bkd has 4096, needs 8192"),
    (8191, "commit.bkd has 8191, needs 8192"),
    (8193, "commit.bkd has 8193, needs 8192"),
];

#[test]
fn bad_lengths(rt: HostRuntime) -> Result<(), Fail> {
    let file = long_file(&rt, 200)?;
    same(&rt, file.len(), 8192);
    for (len, want) in LENGTHS {
        let mut bad = file.as_slice().to_vec(rt.alloc())?;
        bad.push(0)?;
        bad.truncate(len);
        says(&rt, bad.as_slice(), want)?;
    }
    Ok(())
}

/// What is wrong where that byte of the file of 200 segments is changed.
fn page_at(at: usize) -> &'static str {
    if at < 4096 {
        "commit.bkd page 0"
    } else {
        "commit.bkd page 1"
    }
}

#[test]
fn each_byte_of_a_page_counts(rt: HostRuntime) -> Result<(), Fail> {
    let file = long_file(&rt, 200)?;
    for at in 0..8192 {
        let bad = flipped(&rt, file.as_slice(), at)?;
        says(&rt, bad.as_slice(), page_at(at))?;
    }
    Ok(())
}

#[test]
fn pages_that_change_places(rt: HostRuntime) -> Result<(), Fail> {
    let file = long_file(&rt, 200)?;
    assert_eq!(rt; file.len(), 8192);
    let (first, second) = file.as_slice().split_at(4096);
    let mut bad = second.to_vec(rt.alloc())?;
    bad.extend_from_slice(first)?;
    says(&rt, bad.as_slice(), "commit.bkd page 0")
}

/// The Commit file of the body with one byte changed, or put behind it.
fn changed_file(
    rt: &(impl Abort + AllocGlobal),
    body: &[u8],
    at: usize,
    byte: u8,
) -> Result<Vec<u8>, Fail> {
    let body = changed(rt, body, at, byte)?;
    file_of(rt, body.as_slice())
}

/// Bytes of the body of 200 segments that are changed: where, to what, and what is wrong then.
const BODIES: [(usize, u8, &str); 4] = [
    (8, 9, "commit.bkd body of 4064"), // the numbers in front of the list come first
    (28, 10, "commit.bkd has 8192, needs 4096"), // then the size that they need
    (36, 2, "commit.bkd body of 8128"), // an id that stands twice
    (4829, 1, "commit.bkd body of 8128"), // a byte behind the body
];

#[test]
fn bad_bodies(rt: HostRuntime) -> Result<(), Fail> {
    let body = long_body(rt.alloc(), 200)?;
    for (at, byte, want) in BODIES {
        let bad = changed_file(&rt, body.as_slice(), at, byte)?;
        says(&rt, bad.as_slice(), want)?;
    }
    Ok(())
}

/// The bytes that a damage of the folder's commit carries.
fn carried(rt: &impl AllocGlobal, folder: &mut MemFolder) -> Result<Vec<u8>, Fail> {
    match read_commit(rt.alloc(), folder) {
        Err(PageFault::Damaged(Damage::Body { bytes, .. })) => Ok(bytes.into_vec()),
        Err(PageFault::Damaged(Damage::Page { bytes, .. })) => Ok(
            bytes.b.as_slice().to_vec(rt.alloc())?,
        ),
        _ => Err("nothing carried")?,
    }
}

/// The Commit file of a body of nine dimensions.
fn bad_file(rt: &(impl Abort + AllocGlobal)) -> Result<Vec<u8>, Fail> {
    changed_file(rt, BODY.as_slice(), 8, 9)
}

#[test]
fn a_payload_is_carried(rt: HostRuntime) -> Result<(), Fail> {
    let file = bad_file(&rt)?;
    let mut folder = folder_with(&rt, file.as_slice())?;
    let payload = carried(&rt, &mut folder)?;
    holds(
        &rt,
        payload.len() == 4064 && file.as_slice().starts_with(payload.as_slice()),
    );
    Ok(())
}

#[test]
fn a_page_is_carried(rt: HostRuntime) -> Result<(), Fail> {
    let good = bad_file(&rt)?;
    let file = flipped(&rt, good.as_slice(), 9)?;
    let mut folder = folder_with(&rt, file.as_slice())?;
    same(&rt, carried(&rt, &mut folder)?.as_slice(), file.as_slice());
    Ok(())
}

/// Writes where one call fails: its number, and the number from which on all fail and do nothing; whether the
/// commit was written then, and how long the file is that was to become it.
const WRITES: [(u64, Option<u64>, bool, usize); 5] = [
    (2, None, true, 0),
    (0, None, false, 2048),
    (1, None, false, 4096),
    (9, Some(0), false, 0),
    (9, Some(1), false, 4096),
];

/// Whether the commit of `BODY` was written over the folder.
fn was_written(rt: &(impl Abort + AllocGlobal), folder: &mut MemFolder) -> Result<bool, Fail> {
    let c = read(rt, BODY.as_slice())?;
    match write_commit(rt.alloc(), folder, &c) {
        Ok(()) => Ok(true),
        Err(WriteFault::Failed) => Ok(false),
        Err(WriteFault::Memory) => Err("memory is wanting")?,
    }
}

/// The folder's file of this name; none is empty.
fn file_in<'a>(folder: &'a MemFolder, name: &FileName) -> &'a [u8] {
    folder.get(name).unwrap_or(&[])
}

/// Whether the commit of `BODY` is written over a folder with this Commit file where calls fail so, and the folder
/// then.
fn write_over(
    rt: &(impl Abort + AllocGlobal),
    old: &[u8],
    fail: u64,
    stop: Option<u64>,
) -> Result<(MemFolder, bool), Fail> {
    let mut folder = folder_with(rt, old)?;
    folder.plan([fail].to_vec(rt.alloc())?, stop);
    let done = was_written(rt, &mut folder)?;
    Ok((folder, done))
}

/// The commit file is the old one or the new one, and that of the segment stands.
#[test]
fn writes(rt: HostRuntime) -> Result<(), Fail> {
    let old = file_of(&rt, OLD_BODY.as_slice())?;
    let new = file_of(&rt, BODY.as_slice())?;
    for (fail, stop, expected, _) in WRITES {
        let (folder, done) = write_over(&rt, old.as_slice(), fail, stop)?;
        same_at(&rt, done, expected, &fail);
        let want = if done { &new } else { &old };
        let commit = file_in(&folder, &FileName::Commit);
        same_at(&rt, commit, want.as_slice(), &fail);
        let segment = file_in(&folder, &FileName::Segment(7));
        same(&rt, segment, b"seven".as_slice());
    }
    Ok(())
}

/// What was to become the commit file is a front of it.
#[test]
fn rests_of_writes(rt: HostRuntime) -> Result<(), Fail> {
    let old = file_of(&rt, OLD_BODY.as_slice())?;
    let new = file_of(&rt, BODY.as_slice())?;
    for (fail, stop, _, left) in WRITES {
        let (folder, _) = write_over(&rt, old.as_slice(), fail, stop)?;
        let rest = file_in(&folder, &FileName::CommitNew);
        holds_at(
            &rt,
            new.as_slice().starts_with(rest) && rest.len() == left,
            &fail,
        );
    }
    Ok(())
}

/// The calls of reading, which are of the size and of two pages, and what reading answers where one fails.
const READS: [(u64, &str); 4] = [
    (0, "failed"),
    (1, "failed"),
    (2, "failed"),
    (3, "2 given, 200 listed"),
];

#[test]
fn failing_reads(rt: HostRuntime) -> Result<(), Fail> {
    let file = long_file(&rt, 200)?;
    let mut folder = folder_with(&rt, file.as_slice())?;
    for (call, want) in READS {
        folder.plan([call].to_vec(rt.alloc())?, None);
        same_at(&rt, answer(&rt, &mut folder)?.as_str(), want, &call);
    }
    Ok(())
}
