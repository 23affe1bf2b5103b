//! What a check answers of folders that are damaged one by one: 334 documents (i, 0) in one segment of leaves of 333,
//! whose two leaves stand on page 2. Each damage was reckoned by hand.

ghost use Rattle.std.specs.Prelude.{◌≡◌, vec_len, IfOk};
ghost use Rattle.bkd_build.specs.Pieces.{AreEntries};

use crate::answers::assert_said;
use bkd_build::OpenGate;
use outer_io::{FileName, MemFolder};
use page_cache::pages_of;
use point_codec::{Entry, Point};
use segment_build::build_segment;
use segment_file::write_live;
use std::alloc::{AllocError, Global};
use std::marker::Sync;
use std::test::Fail;
use std::thread::Threads;

const SEGMENT: FileName = FileName::Segment(0);

const LIVE: FileName = FileName::Live {
    segment: 0,
    generation: 1,
};

/// How many documents there are, one more than a leaf has entries.
const COUNT: u32 = 334;

/// Two dimensions, leaves of 333, next 334, given 334, next segment 1, and the segment: 0 of generation 1, 334
/// entries, all live.
const COMMIT: [u8; 53] = *b"BKDPCOM2\x02\x01\x4d\0\0\x01\x4e\0\0\x01\x4e\0\0\0\0\0\0\0\x01\0\x01\
\0\0\0\0\0\0\0\0\0\0\0\0\0\0\0\x01\0\0\x01\x4e\0\0\x01\x4e";

/// What is told of the folder as it was written.
const OK: &str = "ok dims 2 leaf 333 next 334 live 334 segments 1\n";

/// Number i at (i, 0).
#[tactic(auto, using(bkd_build::proofs::Numbered::none_numbered, bkd_build::proofs::Numbered::numbered_push, bkd_build::proofs::Numbered::numbered_entries))]
fn row(alloc: Global) -> Result<Vec<Entry<2>>, AllocError>
    ensures length { IfOk result (λ v. vec_len v ≡ COUNT) }
    ensures entries { IfOk result (λ v. AreEntries v.items) }
{
    let mut entries = Vec::new(alloc);
    for doc in 0..COUNT {
        entries.push(Entry {
            doc,
            point: Point { c: [doc as i32, 0] },
        })?;
    }
    Ok(entries)
}

/// The folder with the segment, its live bits and the commit.
fn stored<R: Threads + Sync>(rt: &R, alloc: Global) -> Result<MemFolder, Fail> {
    let mut folder = MemFolder::new(alloc, Vec::new(alloc));
    let mut entries = row(alloc)?;
    let segment = build_segment(rt, alloc, entries.as_mut_slice(), 333, 0, &OpenGate)?;
    segment
        .write(alloc, &mut folder, 0)
        .ok()
        .ok_or("no segment")?;
    write_live(alloc, &mut folder, 0, 1, segment.live())
        .ok()
        .ok_or("no live bits")?;
    let file = pages_of(alloc, &FileName::Commit, COMMIT.as_slice())?;
    folder.put(FileName::Commit, file)?;
    Ok(folder)
}

/// The joined payloads of a file's pages.
fn payloads(alloc: Global, file: &[u8]) -> Result<Vec<u8>, AllocError> {
    let mut body = Vec::new(alloc);
    for page in file.chunks(4096) {
        for byte in page.iter().take(4064) {
            body.push(*byte)?;
        }
    }
    Ok(body)
}

/// Changes some bytes of a file's payloads, from a place on, and seals its pages anew for the file of the name `to`.
pub(crate) fn reseal(
    alloc: Global,
    folder: &mut MemFolder,
    from: &FileName,
    to: FileName,
    changes: &[(usize, &[u8])],
) -> Result<(), Fail> {
    let mut body = payloads(alloc, folder.get(from).ok_or("no file")?)?;
    for (at, bytes) in changes {
        for (i, byte) in bytes.iter().enumerate() {
            if let Some(old) = body.get_mut(at.saturating_add(i)) {
                *old = *byte;
            }
        }
    }
    if body.len() > 1 << 20 {
        return Err("too long".into());
    }
    let file = pages_of(alloc, &to, body.as_slice())?;
    Ok(folder.put(to, file)?)
}

/// Changes of a file's payloads: which file, and the bytes from a place on.
type Change = (FileName, &'static [(usize, &'static [u8])]);

/// What is changed, what is answered, and whether opening shows it.
const RESEALED: [(&[Change], &str, bool); 8] = [
    (&[], OK, false),
    // another first byte of the commit
    (&[(FileName::Commit, &[(0, b"b")])], "commit.bkd body", true),
    // a commit that says 335 entries
    (
        &[(FileName::Commit, &[(45, &[0, 0, 1, 0x4f])])],
        "seg-0000000000000000.bkd says 335, found 334",
        true,
    ),
    // document 5 cleared, 333 live
    (
        &[(LIVE, &[(32, &[0, 0, 1, 0x4d]), (36, &[0xdf])])],
        "live-0000000000000000-0000000000000001.bkd says 334, found 333",
        true,
    ),
    // a commit where the next number is 300
    (
        &[(FileName::Commit, &[(11, &[0, 0, 1, 0x2c])])],
        "document 300 beyond 300",
        true,
    ),
    // a first leaf whose third byte is 4
    (
        &[(SEGMENT, &[(8130, &[4])])],
        "seg-0000000000000000.bkd page 2 leaf at 0",
        false,
    ),
    // next and given 335, and 334 live in place of 333
    (
        &[
            (FileName::Commit, &[(11, &[0, 0, 1, 0x4f, 0, 0, 1, 0x4f])]),
            (LIVE, &[(28, &[0, 0, 1, 0x4f]), (77, &[0x5f])]),
        ],
        "live-0000000000000000-0000000000000001.bkd says 334, found 333",
        false,
    ),
    // no number live, and a leaf's form
    (
        &[
            (FileName::Commit, &[(49, &[0, 0, 0, 0])]),
            (LIVE, &[(32, &[0, 0, 0, 0]), (36, &[0; 42])]),
            (SEGMENT, &[(8130, &[4])]),
        ],
        "seg-0000000000000000.bkd page 2 leaf at 0",
        false,
    ),
];

/// The folder with these changes.
fn changed<R: Threads + Sync>(
    rt: &R,
    alloc: Global,
    changes: &[Change],
) -> Result<MemFolder, Fail> {
    let mut folder = stored(rt, alloc)?;
    for (name, bytes) in changes {
        reseal(alloc, &mut folder, name, *name, bytes)?;
    }
    Ok(folder)
}

#[test]
fn pages_that_are_sealed_anew(rt: HostRuntime) -> Result<(), Fail> {
    for (changes, want, is_shown) in RESEALED {
        let mut folder = changed(&rt, rt.alloc(), changes)?;
        assert_said(&rt, rt.alloc(), &mut folder, want, is_shown)?;
    }
    Ok(())
}

/// Puts pages of the file, in another order, in its place.
fn reorder(
    alloc: Global,
    folder: &mut MemFolder,
    from: &FileName,
    to: FileName,
    order: &[usize],
) -> Result<(), Fail> {
    let mut file = Vec::new(alloc);
    for k in order {
        if let Some(page) = folder.get(from).ok_or("no file")?.chunks(4096).nth(*k) {
            file.extend_from_slice(page)?;
        }
    }
    Ok(folder.put(to, file)?)
}

/// Of which file pages are put in place of which file, in this order, what is answered, and whether opening shows it.
const REORDERED: [(FileName, FileName, &[usize], &str, bool); 5] = [
    (
        FileName::Commit,
        FileName::Commit,
        &[],
        "commit.bkd has 0 bytes, needs 4096",
        true,
    ),
    (
        SEGMENT,
        SEGMENT,
        &[0, 2, 1],
        "seg-0000000000000000.bkd page 1",
        true,
    ),
    (
        FileName::Commit,
        SEGMENT,
        &[0],
        "seg-0000000000000000.bkd page 0",
        true,
    ),
    (
        SEGMENT,
        SEGMENT,
        &[0, 1],
        "seg-0000000000000000.bkd has 8192 bytes, needs 12288",
        true,
    ),
    (SEGMENT, FileName::CommitNew, &[1], OK, false),
];

#[test]
fn pages_of_other_places(rt: HostRuntime) -> Result<(), Fail> {
    for (from, to, order, want, is_shown) in REORDERED {
        let mut folder = stored(&rt, rt.alloc())?;
        reorder(rt.alloc(), &mut folder, &from, to, order)?;
        assert_said(&rt, rt.alloc(), &mut folder, want, is_shown)?;
    }
    Ok(())
}

/// The folder with these files alone.
fn with<R: Threads + Sync>(rt: &R, alloc: Global, names: &[FileName]) -> Result<MemFolder, Fail> {
    let full = stored(rt, alloc)?;
    let mut folder = MemFolder::new(alloc, Vec::new(alloc));
    for name in names {
        let file = full.get(name).ok_or("no file")?.to_vec(alloc)?;
        folder.put(*name, file)?;
    }
    Ok(folder)
}

/// Which files are there, what is answered, and whether opening shows it.
const LEFT: [(&[FileName], &str, bool); 4] = [
    (&[], "no index\n", false),
    (&[SEGMENT, LIVE], "no index\n", false),
    (
        &[FileName::Commit, LIVE],
        "seg-0000000000000000.bkd missing",
        true,
    ),
    (
        &[FileName::Commit, SEGMENT],
        "live-0000000000000000-0000000000000001.bkd missing",
        true,
    ),
];

#[test]
fn files_that_are_missing(rt: HostRuntime) -> Result<(), Fail> {
    for (names, want, is_shown) in LEFT {
        let mut folder = with(&rt, rt.alloc(), names)?;
        assert_said(&rt, rt.alloc(), &mut folder, want, is_shown)?;
    }
    Ok(())
}

/// The commit with a second segment: 1 of generation 1, with as many.
const TWO: [u8; 77] = *b"BKDPCOM2\x02\x01\x4d\0\0\x01\x4e\0\0\x01\x4e\0\0\0\0\0\0\0\x02\0\x02\
\0\0\0\0\0\0\0\0\0\0\0\0\0\0\0\x01\0\0\x01\x4e\0\0\x01\x4e\
\0\0\0\0\0\0\0\x01\0\0\0\0\0\0\0\x01\0\0\x01\x4e\0\0\x01\x4e";

#[test]
fn a_second_segment_with_the_same_leaves(rt: HostRuntime) -> Result<(), Fail> {
    let mut folder = stored(&rt, rt.alloc())?;
    reseal(rt.alloc(), &mut folder, &SEGMENT, FileName::Segment(1), &[])?;
    let live = FileName::Live {
        segment: 1,
        generation: 1,
    };
    reseal(rt.alloc(), &mut folder, &LIVE, live, &[(15, &[1])])?;
    let file = pages_of(rt.alloc(), &FileName::Commit, TWO.as_slice())?;
    folder.put(FileName::Commit, file)?;
    assert_said(&rt, rt.alloc(), &mut folder, "document 0 twice", true)
}
