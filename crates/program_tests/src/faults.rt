//! Faults of the streams and the folder, other words, and damage.

use crate::asserts::{holds, holds_at, same, same_at};
use crate::fixtures::{empty_folder, said};
use crate::lists::scanned;
use crate::runs::{check_said, faulty, outcome, run_words};
use crate::scripts::{LOOK, script_of};
use bkd_build::OpenGate;
use bkd_top::{Status, code, run_script};
use index_core::Settings;
use outer_io::{FileName, MemFolder, MemSink, MemSource};
use page_cache::Damage;
use std::alloc::Global;
use std::marker::Sync;
use std::process::Abort;
use std::test::Fail;
use std::thread::Threads;

const SCRIPT: &[u8] = b"create 2\nadd 1 2\nbox 0 0 5 5\n";

const ANSWERS: &[u8] = b"ok\ndoc 0\nhits 1\n0\n";

/// The calls of the input, the output and the folder that fail; what goes out, and what is said then.
type Row = (
    &'static [u64],
    &'static [u64],
    &'static [u64],
    &'static str,
    &'static str,
);

const ROWS: [Row; 6] = [
    (&[0], &[], &[], "", "source fault\n"),
    (&[1], &[], &[], "", "source fault\n"),
    (&[], &[0], &[], "", "sink fault\n"),
    (&[], &[1], &[], "ok\n", "sink fault\n"),
    (&[], &[2], &[], "ok\ndoc 0\n", "sink fault\n"),
    (&[], &[], &[0], "", "folder fault\n"),
];

fn check_row<R: Threads + Sync + Abort>(rt: &R, alloc: Global, row: Row) -> Result<(), Fail> {
    let (source_fails, sink_fails, folder_fails, answers, line) = row;
    let mut folder = empty_folder(alloc);
    folder.plan(folder_fails.to_vec(alloc)?, None);
    let (status, output) = faulty(rt, alloc, SCRIPT, &mut folder, source_fails, sink_fails)?;
    check_said(rt, alloc, &status, line)?;
    same(rt, std::str::from_utf8(output.bytes()), Ok(answers));
    holds(rt, folder.get(&FileName::Commit).is_none());
    Ok(())
}

/// What was told before a fault has gone out whole, and nothing else has; no index is stored.
#[test]
fn faults_of_the_streams_and_the_folder(rt: HostRuntime) -> Result<(), Fail> {
    for row in ROWS {
        check_row(&rt, rt.alloc(), row)?;
    }
    Ok(())
}

const SETTINGS: Settings = Settings {
    cache_pages: 1,
    forks: 0,
};

/// Runs the script over an output with so much room.
fn run_in_room<R: Threads + Sync>(
    rt: &R,
    alloc: Global,
    room: usize,
) -> Result<(Status, MemSink), Fail> {
    let mut input = MemSource::new(SCRIPT.to_vec(alloc)?, Vec::new(alloc));
    let mut folder = empty_folder(alloc);
    let mut output = MemSink::new(alloc, room, Vec::new(alloc))?;
    let status = run_script(
        rt,
        alloc,
        SETTINGS,
        &mut input,
        &mut folder,
        &mut output,
        &OpenGate,
    );
    Ok((status, output))
}

/// Where the output has no more room, what went out is a prefix of the answers.
#[test]
fn an_output_without_room(rt: HostRuntime) -> Result<(), Fail> {
    for room in 0..=ANSWERS.len() {
        let (status, output) = run_in_room(&rt, rt.alloc(), room)?;
        let line = if room < ANSWERS.len() {
            "sink fault\n"
        } else {
            ""
        };
        check_said(&rt, rt.alloc(), &status, line)?;
        same(&rt, output.bytes(), &ANSWERS[..room]);
    }
    Ok(())
}

const OTHER_WORDS: [&[&str]; 5] = [
    &[],
    &["."],
    &[".", "scan"],
    &[".", "run", "--cache", "0"],
    &[".", "load"],
];

/// Words that are none of a command.
#[test]
fn other_words(rt: HostRuntime) -> Result<(), Fail> {
    for words in OTHER_WORDS {
        let mut input = MemSource::new(b"create 1\n".to_vec(rt.alloc())?, Vec::new(rt.alloc()));
        let mut folder = empty_folder(rt.alloc());
        let mut output = MemSink::new(rt.alloc(), 64, Vec::new(rt.alloc()))?;
        let status = run_words(&rt, rt.alloc(), words, &mut input, &mut folder, &mut output)?;
        same_at(&rt, code(&status), 1, &words);
        same(&rt, output.bytes().len(), 0);
    }
    Ok(())
}

const MISSING: Damage = Damage::Missing {
    file: FileName::Segment(26),
};

/// The statuses, their exit statuses, and the lines on standard error.
const STATUSES: [(Status, u8, &str); 9] = [
    (Status::Done, 0, ""),
    (
        Status::Usage,
        1,
        "usage: bkd FOLDER run|load|explain|check|generate|session|count|ranges|batch|export|info|clean [options]\n",
    ),
    (Status::SomeRefused { count: 10 }, 2, "refused 10\n"),
    (Status::SourceFault, 3, "source fault\n"),
    (Status::FolderFault, 4, "folder fault\n"),
    (Status::SinkFault, 5, "sink fault\n"),
    (
        Status::Damaged(MISSING),
        6,
        "damaged: seg-000000000000001a.bkd missing\n",
    ),
    (Status::Memory, 7, "out of memory\n"),
    (Status::TooLarge, 8, "input too large\n"),
];

#[test]
fn statuses(rt: HostRuntime) -> Result<(), Fail> {
    for (status, number, text) in &STATUSES {
        check_said(&rt, rt.alloc(), status, text)?;
        same(&rt, code(status), *number);
    }
    Ok(())
}

/// A folder whose Commit file is no commit is damaged, and stays as it is.
#[test]
fn a_damaged_folder(rt: HostRuntime) -> Result<(), Fail> {
    let mut folder = empty_folder(rt.alloc());
    folder.put(FileName::Commit, Vec::new(rt.alloc()))?;
    let (status, output) = outcome(&rt, rt.alloc(), b"create 1\n", &mut folder)?;
    same(&rt, code(&status), 6);
    assert_eq!(rt; output.bytes().len(), 0);
    let left = folder.get(&FileName::Commit).map(|bytes| bytes.len());
    same(&rt, left, Some(0));
    Ok(())
}

/// Lines that commit, and lines between them.
const STORING: &[&str] = &[
    "add 1 1",
    "add 2 2",
    "commit",
    "delete 0",
    "add 3 3",
    "flush",
    "reopen",
    "add 4 4",
    "merge",
    "commit",
    "delete box 2 2 3 3",
];

/// The lines that commit, where `create` has place 0 and the end the last.
const COMMITS: [usize; 4] = [3, 7, 10, 12];

/// Whether a run over a folder where this call fails, or where the program stops before it, comes to that call. What
/// went out are the answers of whole lines then, and the folder answers as the lines that they are of have stored, or
/// as the commit in flight would.
fn comes_to<R: Threads + Sync + Abort>(
    rt: &R,
    alloc: Global,
    call: u64,
    stops: bool,
) -> Result<bool, Fail> {
    let mut folder = empty_folder(alloc);
    if stops {
        folder.plan(Vec::new(alloc), Some(call));
    } else {
        folder.plan([call].to_vec(alloc)?, None);
    }
    let script = script_of(alloc, STORING)?;
    let (status, output) = outcome(rt, alloc, script.as_slice(), &mut folder)?;
    if said(alloc, &status)?.is_empty() {
        return Ok(false);
    }
    check_said(rt, alloc, &status, "folder fault\n")?;
    check_left(rt, alloc, &mut folder, output.bytes(), call)?;
    Ok(true)
}

/// The folder that such a run leaves answers as it may.
fn check_left<R: Threads + Sync + Abort>(
    rt: &R,
    alloc: Global,
    folder: &mut MemFolder,
    answers: &[u8],
    call: u64,
) -> Result<(), Fail> {
    folder.plan(Vec::new(alloc), None);
    let (_, look) = outcome(rt, alloc, LOOK, folder)?;
    holds_at(rt, is_allowed(alloc, answers, look.bytes())?, &call);
    Ok(())
}

/// More calls than the script makes.
const MOST_CALLS: u64 = 400;

/// How many calls the script makes, each of which has failed in turn.
fn calls<R: Threads + Sync + Abort>(rt: &R, alloc: Global, stops: bool) -> Result<u64, Fail> {
    for call in 0..MOST_CALLS {
        if !comes_to(rt, alloc, call, stops)? {
            return Ok(call);
        }
    }
    Err("too many calls".into())
}

/// Each call on the folder fails in turn, or the program stops before it.
#[test]
fn each_call_of_the_folder_fails(rt: HostRuntime) -> Result<(), Fail> {
    for stops in [false, true] {
        holds(&rt, calls(&rt, rt.alloc(), stops)? > 0);
    }
    Ok(())
}

/// How many lines a text has.
fn lines_of(text: &[u8]) -> usize {
    let mut lines = 0usize;
    for byte in text {
        if *byte == b'\n' {
            lines = lines.saturating_add(1);
        }
    }
    lines
}

/// The last of the lines that commit among the first `done`.
fn last_commit(done: usize) -> usize {
    let mut last = 0;
    for place in COMMITS {
        if place < done {
            last = place;
        }
    }
    last
}

/// Whether a folder may answer so after these answers of `STORING`: as the last line that commits and was answered
/// has stored it, or as the next line does, where that commits.
fn is_allowed(alloc: Global, answers: &[u8], look: &[u8]) -> Result<bool, Fail> {
    let done = lines_of(answers);
    if looked(alloc, last_commit(done))?.as_slice() == look {
        return Ok(true);
    }
    Ok(COMMITS.contains(&done) && looked(alloc, done)?.as_slice() == look)
}

/// What `LOOK` answers where the first lines of `STORING` are stored; of 0 lines nothing is.
fn looked(alloc: Global, lines: usize) -> Result<Vec<u8>, Fail> {
    let mut script = Vec::new(alloc);
    if lines > 0 {
        let first = STORING.get(..lines).unwrap_or(STORING);
        script.extend_from_slice(script_of(alloc, first)?.as_slice())?;
        script.extend_from_slice(b"reopen\n")?;
    }
    let before = scanned(alloc, script.as_slice())?.answers.len();
    script.extend_from_slice(LOOK)?;
    let answers = scanned(alloc, script.as_slice())?.answers;
    let look = answers.as_slice().get(before..).unwrap_or(&[]);
    Ok(look.to_vec(alloc)?)
}
