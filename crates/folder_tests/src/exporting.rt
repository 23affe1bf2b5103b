//! What `export` writes and what `info` says of folders that scripts left, of damaged ones, and where the output fails.
//! Each text was written by hand from the script.

use crate::asserts::{holds, holds_at, same, same_at};
use bkd_build::OpenGate;
use bkd_top::{Status, code, run};
use outer_io::{FileName, MemFolder, MemSink, MemSource};
use program_tests::fixtures::{called, empty_folder, faulty, words_of};
use std::alloc::{AllocError, Global};
use std::fmt::Write;
use std::marker::Sync;
use std::process::Abort;
use std::test::Fail;
use std::thread::Threads;

const EXPORT: &[&str] = &[".", "export"];

const AS_RANGES: &[&str] = &[".", "export", "--as-ranges"];

const INFO: &[&str] = &[".", "info"];

/// The command that does a script on an empty folder, the script, then a command, its exit status and what it writes.
type Row = (
    &'static str,
    &'static str,
    &'static [&'static str],
    u8,
    &'static str,
);

/// Three segments of leaves of 2, whose entries stand in another order than their numbers: documents of several points,
/// equal points, deleted ones in segments and before, and the least and the greatest coordinate.
const SEGMENTS: &str =
    "create 2 leaf 2\nadd 9 0\nadd 3 4 -1 9 3 -4\nadd 7 7\nadd 1 1\nflush\nadd 0 0 0 0\nadd 5 5\ndelete 2\n\
flush\nadd 2 2\nadd 6 6\ndelete 5\ndelete 7\nadd -2147483648 2147483647\n";

const SEGMENTS_TEXT: &str =
    "doc,c1,c2\n0,9,0\n1,-1,9\n1,3,-4\n1,3,4\n3,1,1\n4,0,0\n6,2,2\n8,-2147483648,2147483647\n";

/// Every dimension, folders without documents, and what is refused.
const ROWS: &[Row] = &[
    ("run", "", EXPORT, 2, "no index\n"),
    ("run", "", AS_RANGES, 2, "no index\n"),
    ("run", "create 2\n", EXPORT, 0, "doc,c1,c2\n"),
    (
        "run",
        "create 4\nadd 1 2 3 4\ndelete 0\n",
        AS_RANGES,
        0,
        "doc,l1,l2,h1,h2\n",
    ),
    (
        "run",
        "create 1\nadd 5\nadd -3\nadd 0\n",
        EXPORT,
        0,
        "doc,c1\n0,5\n1,-3\n2,0\n",
    ),
    ("run", "create 1\nadd 5\n", AS_RANGES, 2, "not ranges\n"),
    (
        "run",
        "create 3\nadd 1 -2 3 1 -3 4\n",
        EXPORT,
        0,
        "doc,c1,c2,c3\n0,1,-3,4\n0,1,-2,3\n",
    ),
    ("run", "create 3\nadd 1 2 3\n", AS_RANGES, 2, "not ranges\n"),
    (
        "run",
        "create 4\nadd 1 2 3 4\n",
        EXPORT,
        0,
        "doc,c1,c2,c3,c4\n0,1,2,3,4\n",
    ),
    (
        "run",
        "create 5\nadd 1 2 3 4 5\n",
        EXPORT,
        0,
        "doc,c1,c2,c3,c4,c5\n0,1,2,3,4,5\n",
    ),
    (
        "run",
        "create 6\nadd 1 2 3 4 5 6\n",
        AS_RANGES,
        0,
        "doc,l1,l2,l3,h1,h2,h3\n0,1,2,3,4,5,6\n",
    ),
    (
        "run",
        "create 7\nadd 1 2 3 4 5 6 7\n",
        EXPORT,
        0,
        "doc,c1,c2,c3,c4,c5,c6,c7\n0,1,2,3,4,5,6,7\n",
    ),
    (
        "run",
        "create 8\nadd 1 2 3 4 5 6 7 8\n",
        EXPORT,
        0,
        "doc,c1,c2,c3,c4,c5,c6,c7,c8\n0,1,2,3,4,5,6,7,8\n",
    ),
    ("run", SEGMENTS, EXPORT, 0, SEGMENTS_TEXT),
    (
        "ranges",
        "create 1\nadd 600 720 540 550\nadd 540 1080\n",
        AS_RANGES,
        0,
        "doc,l1,h1\n0,540,550\n0,600,720\n1,540,1080\n",
    ),
    ("run", "", INFO, 0, "no index\n"),
    (
        "run",
        "create 2\n",
        INFO,
        0,
        "dims 2 leaf 333 next 0 points 0 live 0 segments 0 bytes 4096\n",
    ),
    // a head, an index and the leaves on a page each, the live bits, and the commit
    (
        "run",
        "create 1\nadd 5 6\nadd 7\nflush\ndelete 1\n",
        INFO,
        0,
        "dims 1 leaf 500 next 2 points 3 live 1 segments 1 bytes 20480\n",
    ),
    (
        "run",
        SEGMENTS,
        INFO,
        0,
        "dims 2 leaf 2 next 9 points 11 live 6 segments 3 bytes 53248\n",
    ),
];

/// An empty folder on which a script was done.
fn done<R: Threads + Sync>(
    rt: &R,
    alloc: Global,
    command: &str,
    script: &str,
) -> Result<MemFolder, AllocError> {
    let mut folder = empty_folder(alloc);
    called(rt, alloc, &[".", command], script, &mut folder)?;
    Ok(folder)
}

#[test]
fn each_row(rt: HostRuntime) -> Result<(), Fail> {
    let alloc = rt.alloc();
    for (command, script, words, number, want) in ROWS {
        let mut folder = done(&rt, alloc, command, script)?;
        let (status, text) = called(&rt, alloc, words, "", &mut folder)?;
        same_at(&rt, text.as_str(), *want, &(script, words));
        same_at(&rt, code(&status), *number, &(script, words));
    }
    Ok(())
}

/// Changes a byte of the last page of a segment, which has leaves.
fn damage_leaf(alloc: Global, folder: &mut MemFolder, segment: u64) -> Result<(), Fail> {
    let name = FileName::Segment(segment);
    let mut bytes = folder.get(&name).ok_or("no segment")?.to_vec(alloc)?;
    let last = bytes.len().checked_sub(4_000).ok_or("too short")?;
    *bytes.get_mut(last).ok_or("no byte")? ^= 1;
    Ok(folder.put(name, bytes)?)
}

/// Over a damaged leaf nothing is written; `info` reads none, and odd dimensions are told first.
#[test]
fn of_a_damaged_leaf(rt: HostRuntime) -> Result<(), Fail> {
    let alloc = rt.alloc();
    let mut folder = done(&rt, alloc, "run", SEGMENTS)?;
    damage_leaf(alloc, &mut folder, 1)?;
    for words in [EXPORT, AS_RANGES] {
        let (status, text) = called(&rt, alloc, words, "", &mut folder)?;
        same_at(&rt, (text.as_str(), code(&status)), ("", 6), &words);
    }
    let (status, text) = called(&rt, alloc, INFO, "", &mut folder)?;
    holds(&rt, text.as_str().starts_with("dims 2 leaf 2 next 9 "));
    same(&rt, code(&status), 0);
    let mut odd = done(&rt, alloc, "run", "create 3\nadd 1 2 3\n")?;
    damage_leaf(alloc, &mut odd, 0)?;
    let (status, text) = called(&rt, alloc, AS_RANGES, "", &mut odd)?;
    same(&rt, (text.as_str(), code(&status)), ("not ranges\n", 2));
    Ok(())
}

/// A commit that can't be read, and live bits that are gone: both commands end with the damage, and write nothing.
#[test]
fn of_other_damage(rt: HostRuntime) -> Result<(), Fail> {
    let alloc = rt.alloc();
    let live = FileName::Live {
        segment: 0,
        generation: 1,
    };
    for name in [FileName::Commit, live] {
        for words in [EXPORT, INFO] {
            let mut folder = done(&rt, alloc, "run", "create 1\nadd 1\n")?;
            folder.put(name, Vec::new(alloc))?;
            let (status, text) = called(&rt, alloc, words, "", &mut folder)?;
            same_at(&rt, (text.as_str(), code(&status)), ("", 6), &words);
        }
    }
    Ok(())
}

/// How many records there are: with four digits each, more than fit into one piece.
const COUNT: i32 = 5_000;

/// Records (i, -i), and what is exported of them.
fn many(alloc: Global) -> Result<(String, String), Fail> {
    let mut file = String::from_str(alloc, "x,y\n")?;
    let mut text = String::from_str(alloc, "doc,c1,c2\n")?;
    for i in 0..COUNT {
        let first = 100_000_i32.wrapping_sub(i);
        writeln!(file, "{first},{i}")?;
        writeln!(text, "{i},{first},{i}")?;
    }
    Ok((file, text))
}

/// Exports a folder into a sink that has room for all, and of which these calls fail.
fn exported<R: Threads + Sync>(
    rt: &R,
    alloc: Global,
    folder: &mut MemFolder,
    fails: &[u64],
) -> Result<(Status, String), AllocError> {
    let words = words_of(alloc, EXPORT)?;
    let mut source = MemSource::new(Vec::new(alloc), Vec::new(alloc));
    let mut sink = MemSink::new(alloc, 1 << 17, fails.to_vec(alloc)?)?;
    let status = run(
        rt,
        alloc,
        words.as_slice(),
        &mut source,
        folder,
        &mut sink,
        &OpenGate,
    );
    let text = std::str::from_utf8(sink.bytes()).unwrap_or("no text");
    Ok((status, String::from_str(alloc, text)?))
}

/// The pieces of a long text come one after the other; where the output fails a prefix is out.
#[test]
fn in_pieces(rt: HostRuntime) -> Result<(), Fail> {
    let alloc = rt.alloc();
    let (file, text) = many(alloc)?;
    let mut folder = empty_folder(alloc);
    let load = &[".", "load", "--columns", "x,y"];
    called(&rt, alloc, load, file.as_str(), &mut folder)?;
    let (status, whole) = exported(&rt, alloc, &mut folder, &[])?;
    same(&rt, code(&status), 0);
    holds(&rt, whole.as_str() == text.as_str());
    for (call, is_cut) in [(0, true), (1, true), (2, false)] {
        let (status, part) = exported(&rt, alloc, &mut folder, &[call])?;
        holds_at(&rt, text.as_str().starts_with(part.as_str()), &call);
        same_at(&rt, part.len() < text.len(), is_cut, &call);
        same_at(&rt, code(&status), if is_cut { 5 } else { 0 }, &call);
    }
    Ok(())
}

/// `info` writes once.
#[test]
fn where_the_output_fails(rt: HostRuntime) -> Result<(), Fail> {
    let alloc = rt.alloc();
    let mut folder = done(&rt, alloc, "run", SEGMENTS)?;
    for words in [EXPORT, INFO] {
        let (status, text) = faulty(&rt, alloc, (words, ""), &mut folder, &[], &[0])?;
        same_at(&rt, (text.as_str(), code(&status)), ("", 5), &words);
    }
    Ok(())
}
