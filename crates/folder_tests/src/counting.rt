//! The command `count`: what it tells of folders that scripts and files leave.

use crate::asserts::{holds, holds_at, same, same_at};
use bkd_top::{Status, code};
use outer_io::{FileName, MemFolder};
use program_tests::fixtures::called;
use std::alloc::Global;
use std::fmt::Write;
use std::marker::Sync;
use std::process::Abort;
use std::test::Fail;
use std::thread::Threads;

const COUNT: &[&str] = &[".", "count"];

/// What a script leaves, the lines of `count`, how many of them are refused, and what is told.
type Row = (&'static str, &'static str, u64, &'static str);

/// Documents 0 and 9 of one dimension; none; one of several points, a dead one, and one that stands in two segments.
const ROWS: [Row; 4] = [
    (
        "create 1\nadd 0\nadd 9\n",
        "points 0 9\ngrid 0 1 0 1 0 9\nbox 0 9\n",
        2,
        "points 2\nline 2: bad grid\nline 3: unknown command\n",
    ),
    (
        "",
        "points 1 2\n\n# a note\ngrid\n",
        2,
        "line 1: no index\nline 4: no index\n",
    ),
    (
        "create 2\nadd 0 0 5 5 9 0\nadd 3 3\nflush\nadd -7 2\ndelete 1\n",
        "points 0 0 9 9\npoints 9 0 0 9\ngrid 0 8 1 4 -8 0 9 9\npoints 0 0 9\n",
        1,
        "points 3\npoints 0\nbuckets 4\n0 0 1\n1 0 1\n1 1 1\n2 0 1\nline 4: wrong words\n",
    ),
    (
        "create 2\nadd 1 1\n",
        "grid 0 -1 1 1 0 0 9 9\ngrid 2 1 1 1 0 0 9 9\ngrid 0 1 1 0 0 0 9 9\ngrid 0 1 1 1 x 0 9 9\n",
        4,
        "line 1: bad number in word 3\nline 2: bad grid\nline 3: bad grid\nline 4: bad number in word 6\n",
    ),
];

/// Whether all lines were told, of which so many are refused.
fn refuses(status: &Status, count: u64) -> bool {
    match status {
        Status::Done => count == 0,
        Status::SomeRefused { count: found } => *found == count,
        _ => false,
    }
}

#[test]
fn counts_what_scripts_leave(rt: HostRuntime) -> Result<(), Fail> {
    for (script, lines, refused, told) in ROWS {
        let mut folder = MemFolder::new(rt.alloc(), Vec::new(rt.alloc()));
        called(&rt, rt.alloc(), &[".", "run"], script, &mut folder)?;
        let (status, text) = called(&rt, rt.alloc(), COUNT, lines, &mut folder)?;
        same_at(&rt, text.as_str(), told, &script);
        holds(&rt, refuses(&status, refused));
    }
    Ok(())
}

/// The folder of 334 points in a row, of which one leaf has 333.
fn row_of_points<R: Threads + Sync>(rt: &R, alloc: Global) -> Result<MemFolder, Fail> {
    let mut file = String::from_str(alloc, "x,y\n")?;
    for i in 0..334 {
        writeln!(file, "{i},0")?;
    }
    let mut folder = MemFolder::new(alloc, Vec::new(alloc));
    let words = [".", "load", "--columns", "x,y"];
    called(rt, alloc, &words, file.as_str(), &mut folder)?;
    Ok(folder)
}

/// Lines over this folder, how many are refused, and what is told.
const OF_A_ROW: [(&str, u64, &str); 2] = [
    (
        "points 0 0 332 0\ngrid 0 100 1 1 0 0 333 0\n",
        0,
        "points 333\nbuckets 4\n0 0 100\n1 0 100\n2 0 100\n3 0 34\n",
    ),
    (
        "grid 0 1 1 1 0 0 65535 1\ngrid 0 1 1 1 5 0 0 0\n",
        1,
        "line 1: too many buckets\nbuckets 0\n",
    ),
];

#[test]
fn counts_a_row_of_points(rt: HostRuntime) -> Result<(), Fail> {
    let mut folder = row_of_points(&rt, rt.alloc())?;
    for (lines, refused, told) in OF_A_ROW {
        let (status, text) = called(&rt, rt.alloc(), COUNT, lines, &mut folder)?;
        same(&rt, text.as_str(), told);
        holds(&rt, refuses(&status, refused));
    }
    Ok(())
}

/// A leaf that lies within the box is not read, so that its damage isn't met.
#[test]
fn counts_without_reading_leaves(rt: HostRuntime) -> Result<(), Fail> {
    let alloc = rt.alloc();
    let mut folder = row_of_points(&rt, alloc)?;
    let name = FileName::Segment(0);
    let mut bytes = folder.get(&name).ok_or("no segment")?.to_vec(alloc)?;
    assert_eq!(rt; bytes.len(), 3 * 4096);
    bytes[2 * 4096 + 100] ^= 1;
    folder.put(name, bytes)?;
    let (status, text) = called(&rt, alloc, COUNT, "points -1 -1 400 1\n", &mut folder)?;
    same(&rt, text.as_str(), "points 334\n");
    same(&rt, code(&status), 0);
    let (status, _) = called(&rt, alloc, COUNT, "points 0 0 5 0\n", &mut folder)?;
    same(&rt, code(&status), 6);
    Ok(())
}

/// Words that are none of the command.
const OTHER_WORDS: [&[&str]; 3] = [
    &[".", "count", "more"],
    &[".", "count", "--cache", "0"],
    &[".", "count", "--forks", "1"],
];

#[test]
fn other_words_are_refused(rt: HostRuntime) -> Result<(), Fail> {
    for words in OTHER_WORDS {
        let mut folder = MemFolder::new(rt.alloc(), Vec::new(rt.alloc()));
        let (status, text) = called(&rt, rt.alloc(), words, "points 1 2\n", &mut folder)?;
        holds_at(&rt, code(&status) == 1 && text.is_empty(), &words);
    }
    Ok(())
}
