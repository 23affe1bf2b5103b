//! The command `check`: what it tells of folders that scripts leave, and of such whose files were changed.

use crate::asserts::{holds, same, same_at};
use bkd_top::{code, status_line};
use outer_io::{FileName, MemFolder};
use program_tests::fixtures::called;
use std::alloc::Global;
use std::marker::Sync;
use std::process::Abort;
use std::test::Fail;
use std::thread::Threads;

const RUN: &[&str] = &[".", "run"];

const CHECK: &[&str] = &[".", "check"];

/// What a script leaves, and what is told of it.
const SOUND: [(&str, &str); 5] = [
    ("", "no index\n"),
    (
        "create 2\n",
        "ok dims 2 leaf 333 next 0 live 0 segments 0\n",
    ),
    (
        "create 1 leaf 2\nadd 5\nadd 7\nadd 7\nadd 7\nadd 7\n",
        "ok dims 1 leaf 2 next 5 live 5 segments 1\n",
    ),
    (
        "create 1 leaf 2\nadd 1\nadd 2\nflush\nadd 3 4 5\nflush\ndelete 0\n",
        "ok dims 1 leaf 2 next 3 live 2 segments 2\n",
    ),
    (
        "create 8\nadd 1 2 3 4 5 6 7 8\nsnapshot a\ndelete 0\nflush\nadd 8 7 6 5 4 3 2 1\n",
        "ok dims 8 leaf 111 next 2 live 1 segments 1\n",
    ),
];

#[test]
fn tells_of_sound_folders(rt: HostRuntime) -> Result<(), Fail> {
    for (script, told) in SOUND {
        let mut folder = MemFolder::new(rt.alloc(), Vec::new(rt.alloc()));
        called(&rt, rt.alloc(), RUN, script, &mut folder)?;
        let (status, text) = called(&rt, rt.alloc(), CHECK, "not read", &mut folder)?;
        same_at(&rt, code(&status), 0, &script);
        same(&rt, text.as_str(), told);
    }
    Ok(())
}

/// A script that leaves one segment of three pages, with numbers 0 to 4 in leaves of two.
const LEAVES: &str = "create 1 leaf 2\nadd 5\nadd 7\nadd 7\nadd 7\nadd 7\n";

const SEGMENT: FileName = FileName::Segment(0);

const LIVE: FileName = FileName::Live {
    segment: 0,
    generation: 1,
};

/// A file, the place of a byte of it that is changed (behind its end the file is cut by a byte instead), and what is
/// said then.
const CHANGED: [(FileName, usize, &str); 6] = [
    (SEGMENT, 0, "damaged: seg-0000000000000000.bkd page 0\n"),
    (SEGMENT, 5_000, "damaged: seg-0000000000000000.bkd page 1\n"),
    (
        SEGMENT,
        12_287,
        "damaged: seg-0000000000000000.bkd page 2\n",
    ),
    (
        SEGMENT,
        20_000,
        "damaged: seg-0000000000000000.bkd has 12287 bytes, needs 12288\n",
    ),
    (
        LIVE,
        40,
        "damaged: live-0000000000000000-0000000000000001.bkd page 0\n",
    ),
    (FileName::Commit, 4_095, "damaged: commit.bkd page 0\n"),
];

/// Changes the byte at this place, or cuts the last one off.
fn change(alloc: Global, folder: &mut MemFolder, file: FileName, at: usize) -> Result<(), Fail> {
    let mut bytes = Vec::new(alloc);
    bytes.extend_from_slice(folder.get(&file).unwrap_or(&[]))?;
    match bytes.get_mut(at) {
        Some(byte) => *byte ^= 1,
        None => {
            bytes.pop();
        }
    }
    folder.put(file, bytes)?;
    Ok(())
}

/// A damage ends it with the file and the place, and nothing is written.
#[test]
fn names_the_first_damage(rt: HostRuntime) -> Result<(), Fail> {
    for (file, at, said) in CHANGED {
        let mut folder = MemFolder::new(rt.alloc(), Vec::new(rt.alloc()));
        called(&rt, rt.alloc(), RUN, LEAVES, &mut folder)?;
        change(rt.alloc(), &mut folder, file, at)?;
        check_said(&rt, rt.alloc(), &mut folder, said)?;
    }
    Ok(())
}

/// The command says so, writes nothing, and ends with status 6.
fn check_said<R: Threads + Sync + Abort>(
    rt: &R,
    alloc: Global,
    folder: &mut MemFolder,
    said: &str,
) -> Result<(), Fail> {
    let (status, text) = called(rt, alloc, CHECK, "", folder)?;
    let mut line = Vec::new(alloc);
    status_line(alloc, &status, &mut line)?;
    same(rt, std::str::from_utf8(line.as_slice()), Ok(said));
    holds(rt, code(&status) == 6 && text.is_empty());
    Ok(())
}
