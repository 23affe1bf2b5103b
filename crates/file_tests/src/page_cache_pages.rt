//! Pages read once, kept and dropped; files that are damaged, and what the damage carries.

ghost use Rattle.std.specs.Prelude.{◌≤◌};

use crate::asserts::{holds, same, same_at};
use crate::samples::{changed, front};
use outer_io::{FileName, MemFolder};
use page_cache::{Damage, FirstPage, PageCache, PageFault, pages_of, put_pages, read_payloads};
use page_file::PAYLOAD_LEN;
use std::process::Abort;
use std::test::Fail;

const SEGMENT: FileName = FileName::Segment(7);

/// A body of so many bytes 0x5a as a file of this name.
fn body_of(rt: &HostRuntime, name: &FileName, len: usize) -> Result<Vec<u8>, Fail>
    requires { len ≤ 65536 }
{
    let body = vec![in rt.alloc(); 0x5a_u8; len]?;
    Ok(pages_of(rt.alloc(), name, body.as_slice())?)
}

/// A file of this name with three pages.
fn stored(rt: &HostRuntime, name: &FileName) -> Result<Vec<u8>, Fail> {
    body_of(rt, name, 9000)
}

/// A folder with one file, of which the calls in `fail` fail.
fn folder_with(
    rt: &HostRuntime,
    name: FileName,
    bytes: &[u8],
    fail: &[u64],
) -> Result<MemFolder, Fail> {
    let mut folder = MemFolder::new(rt.alloc(), fail.to_vec(rt.alloc())?);
    folder.put(name, bytes.to_vec(rt.alloc())?)?;
    Ok(folder)
}

/// Where a cache of one page fails over pages 1, 1, 2, 1 when the call `fail` of the folder fails.
fn first_failure(rt: &HostRuntime, fail: u64) -> Result<Option<usize>, Fail> {
    let bytes = stored(rt, &SEGMENT)?;
    let mut folder = folder_with(rt, SEGMENT, bytes.as_slice(), &[fail])?;
    let mut cache = PageCache::new(rt.alloc(), 1)?;
    let wanted: [u32; 4] = [1, 1, 2, 1];
    for (i, number) in wanted.iter().enumerate() {
        if cache.load(rt.alloc(), &mut folder, 7, *number).is_err() {
            return Ok(Some(i));
        }
    }
    Ok(None)
}

/// The calls of the folder, and where the cache fails when one does.
const CALLS: [(u64, Option<usize>); 4] = [(0, Some(0)), (1, Some(2)), (2, Some(3)), (3, None)];

#[test]
fn a_cache_of_one_page_reads_once_not_once_once(rt: HostRuntime) -> Result<(), Fail> {
    for (call, expected) in CALLS {
        same_at(&rt, first_failure(&rt, call)?, expected, &call);
    }
    Ok(())
}

/// The kind of a damage and the two numbers that it carries.
fn told(damage: &Damage) -> (u8, u64, u64) {
    match damage {
        Damage::Missing { .. } => (1, 0, 0),
        Damage::Size { size, needed, .. } => (2, *size, *needed),
        Damage::Page { number, bytes, .. } => (3, u64::from(*number), u64::from(bytes.b[5])),
        _ => (4, 0, 0),
    }
}

/// What is told of a fault.
fn told_of(fault: &PageFault) -> (u8, u64, u64) {
    match fault {
        PageFault::Damaged(damage) => told(damage),
        PageFault::Failed => (5, 0, 0),
        PageFault::Memory => (6, 0, 0),
    }
}

/// What reading a commit file of three pages answers: its length, or the damage.
fn read_three(rt: &HostRuntime, folder: &mut MemFolder) -> Result<usize, PageFault> {
    let first = FirstPage::read(rt.alloc(), folder, &FileName::Commit)?;
    first.check_size(3)?;
    let joined = first.joined(rt.alloc(), folder, 3)?;
    Ok(joined.len())
}

/// What reading three pages of a file of these bytes comes to.
fn outcome(rt: &HostRuntime, bytes: &[u8]) -> Result<(u8, u64, u64), Fail> {
    let mut folder = folder_with(rt, FileName::Commit, bytes, &[])?;
    Ok(match read_three(rt, &mut folder) {
        Ok(len) => (0, len as u64, 0),
        Err(fault) => told_of(&fault),
    })
}

/// Lengths to which the file of three pages is cut, or to which a zero fills it up, and what is told.
const LENGTHS: [(usize, (u8, u64, u64)); 5] = [
    (12288, (0, 12192, 0)),
    (0, (2, 0, 4096)),
    (4095, (2, 4095, 4096)),
    (8192, (2, 8192, 12288)),
    (12289, (2, 12289, 12288)),
];

#[test]
fn a_file_is_read_whole_or_its_size_is_told(rt: HostRuntime) -> Result<(), Fail> {
    let mut bytes = stored(&rt, &FileName::Commit)?;
    same(&rt, bytes.len(), 12288);
    bytes.push(0)?;
    for (len, expected) in LENGTHS {
        same(&rt, outcome(&rt, front(bytes.as_slice(), len))?, expected);
    }
    Ok(())
}

#[test]
fn a_missing_file_is_told(rt: HostRuntime) -> Result<(), Fail> {
    let mut folder = MemFolder::new(rt.alloc(), [].to_vec(rt.alloc())?);
    let missing = read_three(&rt, &mut folder);
    holds(
        &rt,
        missing.is_err_and(|fault| told_of(&fault) == (1, 0, 0)),
    );
    Ok(())
}

#[test]
fn a_page_that_was_changed_is_told(rt: HostRuntime) -> Result<(), Fail> {
    let bytes = stored(&rt, &FileName::Commit)?;
    let bad = changed(&rt, bytes.as_slice(), 4096 + 5, 0x5b)?;
    same(&rt, outcome(&rt, bad.as_slice())?, (3, 1, 0x5b));
    Ok(())
}

#[test]
fn a_page_that_was_moved_is_told(rt: HostRuntime) -> Result<(), Fail> {
    let bytes = stored(&rt, &FileName::Commit)?;
    assert_eq!(rt; bytes.len(), 12288);
    let (first, others) = bytes.as_slice().split_at(4096);
    let (second, third) = others.split_at(4096);
    let mut turned = first.to_vec(rt.alloc())?;
    turned.extend_from_slice(third)?;
    turned.extend_from_slice(second)?;
    same(&rt, outcome(&rt, turned.as_slice())?, (3, 1, 0x5a));
    Ok(())
}

#[test]
fn pages_are_of_a_kind_of_file(rt: HostRuntime) -> Result<(), Fail> {
    let new = stored(&rt, &FileName::CommitNew)?;
    same(&rt, outcome(&rt, new.as_slice())?, (0, 12192, 0));
    let segment = stored(&rt, &SEGMENT)?;
    same(&rt, outcome(&rt, segment.as_slice())?, (3, 0, 0x5a));
    Ok(())
}

/// What loading a page of a segment file of these bytes answers.
fn loaded(rt: &HostRuntime, bytes: &[u8], number: u32) -> Result<(u8, u64, u64), Fail> {
    let mut folder = folder_with(rt, SEGMENT, bytes, &[])?;
    let mut cache = PageCache::new(rt.alloc(), 4)?;
    Ok(match cache.load(rt.alloc(), &mut folder, 7, number) {
        Ok(()) => (0, 0, 0),
        Err(fault) => told_of(&fault),
    })
}

/// The length of the file, the number of the page, and what is told.
const LOADS: [(usize, u32, (u8, u64, u64)); 4] = [
    (12288, 2, (0, 0, 0)),
    (12288, 3, (2, 12288, 16384)),
    (12288, 9, (2, 36864, 40960)),
    (8195, 2, (2, 8195, 12288)),
];

#[test]
fn a_page_behind_the_end_shows_the_end(rt: HostRuntime) -> Result<(), Fail> {
    let bytes = stored(&rt, &SEGMENT)?;
    same(&rt, bytes.len(), 12288);
    for (len, number, expected) in LOADS {
        let told = loaded(&rt, front(bytes.as_slice(), len), number)?;
        same_at(&rt, told, expected, &(number, len));
    }
    Ok(())
}

/// A folder with the segments 7 and 8.
fn two_segments(rt: &HostRuntime) -> Result<MemFolder, Fail> {
    let bytes = stored(rt, &SEGMENT)?;
    let mut folder = folder_with(rt, SEGMENT, bytes.as_slice(), &[])?;
    let other = FileName::Segment(8);
    folder.put(other, stored(rt, &other)?)?;
    Ok(folder)
}

/// Whether page 1 of segment 7 is viewed as it was stored.
fn views(rt: &HostRuntime, folder: &mut MemFolder, cache: &mut PageCache) -> Result<bool, Fail> {
    if cache.load(rt.alloc(), folder, 7, 1).is_err() {
        return Ok(false);
    }
    let page = cache.view(7, 1);
    Ok(page.payload().iter().all(|b| *b == 0x5a))
}

/// A file that is not of a segment.
const LIVE: FileName = FileName::Live {
    segment: 7,
    generation: 1,
};

/// Page 0 of segment 7 is taken once, and what is not kept is not.
fn takes(rt: &impl Abort, cache: &mut PageCache) {
    let taken = cache.remove(&SEGMENT, 0);
    holds(rt, taken.is_some_and(|p| p.b[0] == 0x5a));
    holds(rt, cache.remove(&SEGMENT, 0).is_none());
    holds(rt, cache.remove(&LIVE, 1).is_none());
}

/// Whether the first page of segment 8 is there where no call of the folder succeeds, and page 1 of segment 7.
fn kept(
    rt: &HostRuntime,
    folder: &mut MemFolder,
    cache: &mut PageCache,
) -> Result<(bool, bool), Fail> {
    folder.plan([].to_vec(rt.alloc())?, Some(0));
    let other = cache.load(rt.alloc(), folder, 8, 0).is_ok();
    let forgotten = cache.load(rt.alloc(), folder, 7, 1).is_ok();
    Ok((other, forgotten))
}

#[test]
fn kept_pages_are_viewed_taken_and_forgotten(rt: HostRuntime) -> Result<(), Fail> {
    let mut folder = two_segments(&rt)?;
    let mut cache = PageCache::new(rt.alloc(), 3)?;
    holds(&rt, views(&rt, &mut folder, &mut cache)?);
    holds(&rt, cache.load(rt.alloc(), &mut folder, 7, 0).is_ok());
    holds(&rt, cache.load(rt.alloc(), &mut folder, 8, 0).is_ok());
    takes(&rt, &mut cache);
    cache.forget(7);
    same(&rt, kept(&rt, &mut folder, &mut cache)?, (true, false));
    Ok(())
}

/// Two pages with a body of six bytes behind three.
fn payloads_behind(rt: &HostRuntime) -> Result<Vec<u8>, Fail> {
    let mut bytes = stored(rt, &SEGMENT)?;
    put_pages(&mut bytes, &SEGMENT, 3, b"behind")?;
    let mut folder = folder_with(rt, SEGMENT, bytes.as_slice(), &[])?;
    let payloads = read_payloads(rt.alloc(), &mut folder, &SEGMENT, 3)
        .ok()
        .ok_or("no pages")?;
    Ok(payloads)
}

#[test]
fn pages_put_behind_others_are_read_from_there(rt: HostRuntime) -> Result<(), Fail> {
    let payloads = payloads_behind(&rt)?;
    assert_eq!(rt; payloads.len(), 3 * PAYLOAD_LEN);
    let (_, behind) = payloads.as_slice().split_at(PAYLOAD_LEN);
    same(
        &rt,
        &behind[PAYLOAD_LEN..PAYLOAD_LEN + 8],
        b"behind\0\0".as_slice(),
    );
    same(&rt, &behind[870..874], [0x5a, 0x5a, 0, 0].as_slice());
    Ok(())
}
