//! Scripts over a folder that holds something already, and the files that scripts leave.

use crate::asserts::holds_at;
use crate::fixtures::empty_folder;
use crate::runs::{check_answers, outcome};
use outer_io::{FileName, MemFolder};
use page_cache::pages_of;
use std::alloc::Global;
use std::marker::Sync;
use std::process::Abort;
use std::test::Fail;
use std::thread::Threads;

/// Where the bytes of a body on the first three pages end.
const ENDS: [usize; 3] = [4064, 8128, 12192];

/// A file, by the bodies that its pages begin with.
type File = (FileName, &'static [&'static [u8]]);

/// What is in the folder before a row.
enum Before {
    /// What this script left in an empty folder.
    Script(&'static str),
    Files(&'static [File]),
}

/// A script over a folder, what it answers, and how many of its lines are refused; then a file, and what stands in it
/// behind so many bytes, where it is there at all.
struct Row {
    before: Before,
    script: &'static str,
    answers: &'static str,
    refused: u64,
    file: (FileName, usize, Option<&'static [u8]>),
}

/// The least document of two dimensions and a box that has it.
const ONE_POINT: &str = "create 2\nadd 1 2\nbox 0 0 5 5\n";

/// Five entries, four at 7.
const FIVE: &str = "create 1 leaf 2\nadd 5\nadd 7\nadd 7\nadd 7\nadd 7\nflush\nbox 7 8\n";

const FIVE_ANSWERS: &str = "ok\ndoc 0\ndoc 1\ndoc 2\ndoc 3\ndoc 4\nok\nhits 4\n1\n2\n3\n4\n";

/// A commit of two dimensions without segments in the older layout, which has no number of points: all numbers are
/// given.
const OLD_FULL: [u8; 25] = *b"BKDPCOM1\x02\x01\x4d\x01\0\0\0\0\0\0\0\0\0\0\0\0\0";

/// A commit of one document, where one point is left.
const NEARLY_FULL: [u8; 29] = *b"BKDPCOM2\x02\x01\x4d\0\0\0\x01\0\xff\xff\xff\0\0\0\0\0\0\0\0\0\0";

/// The commit of one document of two points: leaves of 333, next number 1, given 2, next segment 1; segment 0 of
/// generation 1 with two entries and one live number.
const TWO_POINTS: [u8; 53] =
    *b"BKDPCOM2\x02\x01\x4d\0\0\0\x01\0\0\0\x02\0\0\0\0\0\0\0\x01\0\x01\0\0\0\0\0\0\0\0\0\0\0\0\0\0\0\x01\0\0\0\x02\0\0\0\x01";

/// The index of the five entries: the root cell, two inner nodes, and three leaves with cells of their own.
const FIVE_INDEX: [u8; 44] = [
    0x80, 0, 0, 5, 0x80, 0, 0, 7, 3, 7, 0, 21, 22, 4, 0, 12, 9, 12, 0x80, 0, 0, 5, 0x80, 0, 0, 7,
    9, 0x80, 0, 0, 7, 0x80, 0, 0, 7, 9, 0x80, 0, 0, 7, 0x80, 0, 0, 7,
];

/// That index in the oldest form, a table: the root cell; the inner nodes' dimensions and values; the leaves' pages,
/// offsets and lengths.
const FIVE_TABLE: [u8; 42] = [
    0x80, 0, 0, 5, 0x80, 0, 0, 7, 0, 0x80, 0, 0, 7, 0, 0x80, 0, 0, 7, 0, 0, 0, 0, 0, 0, 0, 12, 0,
    0, 0, 0, 0, 12, 0, 9, 0, 0, 0, 0, 0, 21, 0, 9,
];

/// 0 at 5 and 1 at 7; 2 and 3 at 7; 4 at 7.
const FIVE_LEAVES: [u8; 30] = [
    0, 2, 0, 0, 3, 0x80, 0, 0, 0, 0, 5, 7, 0, 2, 0, 2, 4, 0x80, 0, 0, 7, 0, 1, 0, 4, 4, 0x80, 0, 0,
    7,
];

/// The head of the segment with the table, and the front of a head of the newest form.
const FIVE_HEAD: [u8; 28] = *b"BKDPSEG1\x01\x01\0\x02\0\0\0\x05\0\0\0\x03\0\0\0\x2a\0\0\0\x01";

const NEW_FRONT: [u8; 10] = *b"BKDPSEG2\x01\x03";

/// The live numbers from 0 to 4 of segment 0, generation 1.
const FIVE_LIVE: [u8; 37] =
    *b"BKDPLIV1\0\0\0\0\0\0\0\0\0\0\0\0\0\0\0\x01\0\0\0\0\0\0\0\x05\0\0\0\x05\x1f";

/// Their commit: leaves of 2, next number 5, given 5, next segment 1; segment 0 of generation 1 with five entries, all
/// live.
const FIVE_COMMIT: [u8; 53] =
    *b"BKDPCOM2\x01\0\x02\0\0\0\x05\0\0\0\x05\0\0\0\0\0\0\0\x01\0\x01\0\0\0\0\0\0\0\0\0\0\0\0\0\0\0\x01\0\0\0\x05\0\0\0\x05";

/// A folder whose only segment has a table.
const WITH_TABLE: [File; 3] = [
    (FileName::Commit, &[&FIVE_COMMIT]),
    (
        FileName::Segment(0),
        &[&FIVE_HEAD, &FIVE_TABLE, &FIVE_LEAVES],
    ),
    (
        FileName::Live {
            segment: 0,
            generation: 1,
        },
        &[&FIVE_LIVE],
    ),
];

const ROWS: &[Row] = &[
    // a run over what another run left
    Row {
        before: Before::Script(ONE_POINT),
        script: "delete 0\ncommit\nadd 3 4\nbox 0 0 5 5\n",
        answers: "deleted 1\nok\ndoc 1\nhits 1\n1\n",
        refused: 0,
        file: (FileName::CommitNew, 0, None),
    },
    // commits that give no number or no point more
    Row {
        before: Before::Files(&[(FileName::Commit, &[&OLD_FULL])]),
        script: "add 1 2\nbox 0 0 5 5\n",
        answers: "line 1: full\nhits 0\n",
        refused: 1,
        file: (FileName::Commit, 0, Some(&OLD_FULL)),
    },
    Row {
        before: Before::Files(&[(FileName::Commit, &[&NEARLY_FULL])]),
        script: "add 1 1 2 2\nadd 1 1 1 1\nadd 1 1\n",
        answers: "line 1: full\ndoc 1\nline 3: full\n",
        refused: 2,
        file: (FileName::CommitNew, 0, None),
    },
    // the bytes of the commit that is written
    Row {
        before: Before::Files(&[]),
        script: "create 2\nadd 0 0 10 10\nbox 9 9 11 11\nbox 0 0 10 10\nnearest 1 1 1\nadd 1 2 3\n",
        answers: "ok\ndoc 0\nhits 1\n0\nhits 1\n0\nnear 1\n0 2\nline 6: wrong words\n",
        refused: 1,
        file: (FileName::Commit, 0, Some(&TWO_POINTS)),
    },
    Row {
        before: Before::Files(&[]),
        script: FIVE,
        answers: FIVE_ANSWERS,
        refused: 0,
        file: (FileName::Segment(0), 4096, Some(&FIVE_INDEX)),
    },
    // a segment with a table is read, and merged into one of the newest form
    Row {
        before: Before::Files(&WITH_TABLE),
        script: "box 7 8\n",
        answers: "hits 4\n1\n2\n3\n4\n",
        refused: 0,
        file: (FileName::Segment(0), 0, Some(&FIVE_HEAD)),
    },
    Row {
        before: Before::Files(&WITH_TABLE),
        script: "add 9\nflush\nmerge\nbox 7 9\n",
        answers: "doc 5\nok\nok\nhits 5\n1\n2\n3\n4\n5\n",
        refused: 0,
        file: (FileName::Segment(2), 0, Some(&NEW_FRONT)),
    },
    Row {
        before: Before::Files(&WITH_TABLE),
        script: "merge\nbox 7 8\n",
        answers: "ok\nhits 4\n1\n2\n3\n4\n",
        refused: 0,
        file: (FileName::Segment(1), 0, Some(&NEW_FRONT)),
    },
    Row {
        before: Before::Files(&WITH_TABLE),
        script: "merge\n",
        answers: "ok\n",
        refused: 0,
        file: (FileName::Segment(0), 0, None),
    },
];

/// The bytes of a file.
fn bytes_of(alloc: Global, name: &FileName, pages: &[&[u8]]) -> Result<Vec<u8>, Fail> {
    let mut body = Vec::new(alloc);
    for (page, end) in pages.iter().zip(ENDS) {
        body.extend_from_slice(page)?;
        body.resize(end, 0)?;
    }
    if body.len() > 12192 {
        return Err("too many pages".into());
    }
    Ok(pages_of(alloc, name, body.as_slice())?)
}

/// A folder as it is before a row.
fn folder_before<R: Threads + Sync>(
    rt: &R,
    alloc: Global,
    before: &Before,
) -> Result<MemFolder, Fail> {
    let mut folder = empty_folder(alloc);
    match before {
        Before::Script(script) => {
            outcome(rt, alloc, script.as_bytes(), &mut folder)?;
        }
        Before::Files(files) => {
            for (name, pages) in *files {
                folder.put(*name, bytes_of(alloc, name, pages)?)?;
            }
        }
    }
    Ok(folder)
}

/// A file has these bytes behind so many, or isn't there.
fn check_file(
    rt: &impl Abort,
    folder: &MemFolder,
    script: &str,
    file: &(FileName, usize, Option<&'static [u8]>),
) {
    let (name, at, expected) = file;
    let found = folder.get(name);
    match expected {
        None => holds_at(rt, found.is_none(), &script),
        Some(expected) => {
            let behind = found.unwrap_or(&[]).get(*at..).unwrap_or(&[]);
            holds_at(rt, behind.starts_with(expected), &script);
        }
    }
}

fn check_row<R: Threads + Sync + Abort>(rt: &R, alloc: Global, row: &Row) -> Result<(), Fail> {
    let mut folder = folder_before(rt, alloc, &row.before)?;
    let (status, output) = outcome(rt, alloc, row.script.as_bytes(), &mut folder)?;
    check_answers(
        rt,
        alloc,
        row.script,
        (&status, &output),
        row.answers.as_bytes(),
        row.refused,
    )?;
    check_file(rt, &folder, row.script, &row.file);
    Ok(())
}

#[test]
fn each_row(rt: HostRuntime) -> Result<(), Fail> {
    for row in ROWS {
        check_row(&rt, rt.alloc(), row)?;
    }
    Ok(())
}
