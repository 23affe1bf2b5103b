//! How often the folder is asked in a run of queries: for the sizes and pages of the commit, the segment's head and
//! index and its live numbers, and for leaf pages only where a query takes a leaf, once each where they are kept.

use crate::asserts::same_at;
use crate::fixtures::{empty_folder, said};
use crate::runs::{outcome, run_from};
use outer_io::{MemFolder, MemSource};
use std::alloc::Global;
use std::fmt::Write;
use std::marker::Sync;
use std::test::Fail;
use std::thread::Threads;

/// A leaf of 333 points in a row and a leaf of one more, both on one page.
const POINTS: u32 = 334;

fn row_of_points(alloc: Global) -> Result<String, Fail> {
    let mut script = String::from_str(alloc, "create 2\n")?;
    for i in 0..POINTS {
        writeln!(script, "add {i} 0")?;
    }
    Ok(script)
}

fn folder_with_row<R: Threads + Sync>(rt: &R, alloc: Global) -> Result<MemFolder, Fail> {
    let mut folder = empty_folder(alloc);
    let script = row_of_points(alloc)?;
    outcome(rt, alloc, script.as_bytes(), &mut folder)?;
    Ok(folder)
}

/// How many points fill two leaf pages where they are strewn about.
const STREWN: i32 = 700;

fn folder_with_strewn<R: Threads + Sync>(rt: &R, alloc: Global) -> Result<MemFolder, Fail> {
    let mut folder = empty_folder(alloc);
    let mut script = String::from_str(alloc, "create 2\n")?;
    for i in 0..STREWN {
        let at = i.wrapping_mul(-1_640_531_535);
        writeln!(script, "add {at} {at}")?;
    }
    outcome(rt, alloc, script.as_bytes(), &mut folder)?;
    Ok(folder)
}

/// Whether a run of queries gets on without this call of the folder.
fn does_without<R: Threads + Sync>(
    rt: &R,
    alloc: Global,
    folder: &mut MemFolder,
    asked: (&[&str], &[u8]),
    call: u64,
) -> Result<bool, Fail> {
    let (words, queries) = asked;
    folder.plan([call].to_vec(alloc)?, None);
    let mut input = MemSource::new(queries.to_vec(alloc)?, Vec::new(alloc));
    let (status, _) = run_from(rt, alloc, words, &mut input, folder)?;
    Ok(said(alloc, &status)?.is_empty())
}

/// How many calls a run of queries makes.
fn calls<R: Threads + Sync>(
    rt: &R,
    alloc: Global,
    folder: &mut MemFolder,
    asked: (&[&str], &[u8]),
) -> Result<u64, Fail> {
    for call in 0..99 {
        if does_without(rt, alloc, folder, asked, call)? {
            return Ok(call);
        }
    }
    Err("too many calls".into())
}

/// Queries, and how many calls their run makes: sizes of three files, four pages at the opening, and one leaf page.
const ROWS: [(&[u8], u64); 4] = [
    (b"", 7),
    (b"box 1000 0 1001 0\n", 7),
    (b"box 0 0 5 0\n", 8),
    (b"box 0 0 5 0\nbox 0 0 5 0\n", 8),
];

#[test]
fn pages_are_read_once_and_only_where_they_count(rt: HostRuntime) -> Result<(), Fail> {
    let mut folder = folder_with_row(&rt, rt.alloc())?;
    for (queries, expected) in ROWS {
        let found = calls(&rt, rt.alloc(), &mut folder, (&[".", "run"], queries))?;
        same_at(&rt, found, expected, &std::str::from_utf8(queries));
    }
    Ok(())
}

/// Boxes on the first leaf page, the last, and the first again.
const BOXES: &[u8] = b"box -2147483648 -2147483648 -2100000000 -2100000000
box 2100000000 2100000000 2147483647 2147483647
box -2147483648 -2147483648 -2100000000 -2100000000
";

/// Counts in these boxes.
const COUNTS: &[u8] = b"points -2147483648 -2147483648 -2100000000 -2100000000
points 2100000000 2100000000 2147483647 2147483647
points -2147483648 -2147483648 -2100000000 -2100000000
";

/// Commands, with how many pages are kept, and how many calls they make: one page more where one alone is kept.
const KEPT: [(&[&str], &[u8], u64); 9] = [
    (&[".", "run", "--cache", "1"], BOXES, 10),
    (&[".", "run", "--cache", "2"], BOXES, 9),
    (&[".", "run"], BOXES, 9),
    (&[".", "explain", "--cache", "1"], BOXES, 10),
    (&[".", "explain", "--cache", "2"], BOXES, 9),
    (&[".", "explain"], BOXES, 9),
    (&[".", "count", "--cache", "1"], COUNTS, 10),
    (&[".", "count", "--cache", "2"], COUNTS, 9),
    (&[".", "count"], COUNTS, 9),
];

#[test]
fn pages_are_kept_as_asked(rt: HostRuntime) -> Result<(), Fail> {
    let mut folder = folder_with_strewn(&rt, rt.alloc())?;
    for (words, queries, expected) in KEPT {
        let found = calls(&rt, rt.alloc(), &mut folder, (words, queries))?;
        same_at(&rt, found, expected, &words);
    }
    Ok(())
}
