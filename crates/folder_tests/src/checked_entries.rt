//! What a check answers of documents with several points: a segment of three leaves that is spelled here, whose last
//! entry is put to another number. Numbers 0 to 3 are live.

use crate::answers::assert_said;
use crate::checked_folders::reseal;
use live_bits::LiveBits;
use outer_io::{FileName, MemFolder};
use page_cache::pages_of;
use segment_file::write_live;
use std::alloc::Global;
use std::test::Fail;

const SEGMENT: FileName = FileName::Segment(7);

/// One dimension, form 3, leaves of 2, 5 entries, 3 leaves, 44 bytes of index, 1 leaf page.
const HEAD: [u8; 28] = *b"BKDPSEG2\x01\x03\0\x02\0\0\0\x05\0\0\0\x03\0\0\0\x2c\0\0\0\x01";

/// An index over leaves of 12, 9 and 9 bytes in the cells from 5 to 7, 7 to 7 and 7 to 7, split at 7 twice.
const INDEX: [u8; 44] = [
    0x80, 0, 0, 5, 0x80, 0, 0, 7, 3, 7, 0, 21, 22, 4, 0, 12, 9, 12, 0x80, 0, 0, 5, 0x80, 0, 0, 7,
    9, 0x80, 0, 0, 7, 0x80, 0, 0, 7, 9, 0x80, 0, 0, 7, 0x80, 0, 0, 7,
];

/// Number 0 at 5 and 1 at 7; 2 and 3 at 7; 4 at 7.
const LEAVES: [u8; 30] = [
    0, 2, 0, 0, 3, 0x80, 0, 0, 0, 0, 5, 7, 0, 2, 0, 2, 4, 0x80, 0, 0, 7, 0, 1, 0, 4, 4, 0x80, 0, 0,
    7,
];

/// Where the number of the last entry stands in the joined payloads.
const LAST: usize = 8152;

/// One dimension, leaves of 2, next 4, given 4, next segment 8, and the segment: 7 of generation 1, 5 entries, 4 live
/// numbers.
const COMMIT: [u8; 53] = *b"BKDPCOM2\x01\0\x02\0\0\0\x04\0\0\0\x04\0\0\0\0\0\0\0\x08\0\x01\
\0\0\0\0\0\0\0\x07\0\0\0\0\0\0\0\x01\0\0\0\x05\0\0\0\x04";

/// What is told where nothing is wrong.
const OK: &str = "ok dims 1 leaf 2 next 4 live 4 segments 1\n";

/// The number of the last entry, how many points were given, and what is answered.
const ROWS: [(u8, u8, &str); 5] = [
    // number 4, which isn't live
    (4, 4, OK),
    // number 0 has two points, and there is one more than was given
    (0, 4, "commit.bkd says 4, found 5"),
    (0, 5, OK),
    // number 2 has one point twice, which is told first
    (2, 5, "document 2 twice"),
    (2, 4, "document 2 twice"),
];

/// The file of the segment: its head, its index and its leaves, on a page each.
fn segment(alloc: Global) -> Result<Vec<u8>, Fail> {
    let mut body = HEAD.as_slice().to_vec(alloc)?;
    body.resize(4064, 0)?;
    body.extend_from_slice(INDEX.as_slice())?;
    body.resize(8128, 0)?;
    body.extend_from_slice(LEAVES.as_slice())?;
    body.resize(12192, 0)?;
    Ok(pages_of(alloc, &SEGMENT, body.as_slice())?)
}

/// The folder with the segment, numbers 0 to 3 live, and the commit.
fn stored(alloc: Global) -> Result<MemFolder, Fail> {
    let mut folder = MemFolder::new(alloc, Vec::new(alloc));
    let file = segment(alloc)?;
    folder.put(SEGMENT, file)?;
    let live = LiveBits::of_docs(alloc, &[0, 1, 2, 3])?;
    write_live(alloc, &mut folder, 7, 1, &live)
        .ok()
        .ok_or("no live bits")?;
    let commit = pages_of(alloc, &FileName::Commit, COMMIT.as_slice())?;
    folder.put(FileName::Commit, commit)?;
    Ok(folder)
}

/// The folder where the last entry has this number, and so many points were given.
fn changed(alloc: Global, number: u8, points_given: u8) -> Result<MemFolder, Fail> {
    let mut folder = stored(alloc)?;
    reseal(alloc, &mut folder, &SEGMENT, SEGMENT, &[(LAST, &[number])])?;
    let commit = FileName::Commit;
    reseal(
        alloc,
        &mut folder,
        &commit,
        commit,
        &[(18, &[points_given])],
    )?;
    Ok(folder)
}

#[test]
fn entries_of_other_numbers(rt: HostRuntime) -> Result<(), Fail> {
    for (number, points_given, want) in ROWS {
        // opening reads no leaf, so it doesn't show this
        let mut folder = changed(rt.alloc(), number, points_given)?;
        assert_said(&rt, rt.alloc(), &mut folder, want, false)?;
    }
    Ok(())
}
