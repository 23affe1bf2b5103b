//! Scripts over a folder against the same scripts over a list in memory: every answer is the same.

use crate::asserts::{holds_at, same, same_at};
use crate::draws::Draws;
use crate::fixtures::empty_folder;
use crate::lists::scanned;
use crate::runs::{check_answers, outcome};
use outer_io::{FileName, MemFolder};
use std::alloc::Global;
use std::marker::Sync;
use std::process::Abort;
use std::test::Fail;
use std::thread::Threads;

/// All documents of a folder.
pub const LOOK: &[u8] = b"box -99 -99 99 99\nnearest 10000 3 4\n";

const CREATE: &[u8] = b"create 2 leaf 2\n";

const REOPEN: &[u8] = b"reopen\n";

/// Each way to change an index, with lines that are refused.
const LINES: &[&str] = &[
    "add 1 2",
    "add 3 4 5 6",
    "flush",
    "add -7 8",
    "snapshot a",
    "delete 1",
    "delete 1",
    "delete 77",
    "add 2 2",
    "flush",
    "merge begin 0 1",
    "merge begin",
    "add 9 9",
    "delete 0",
    "delete box 8 8 9 9",
    "box @a -99 -99 99 99",
    "nearest @a 2 0 0",
    "merge end",
    "merge end",
    "snapshot a",
    "add 5 5",
    "release a",
    "box @a 0 0 9 9",
    "merge",
    "nearest 3 1 1",
    "polygon {\"type\":\"Polygon\",\"coordinates\":[[[0,0],[9,0],[9,9],[0,9],[0,0]]]}",
    "commit",
    "delete box -9 -9 0 9",
    "box 0 0 5 5",
    "create 2",
    "add 4 4",
];

/// The text of a script.
fn text_of(script: &[u8]) -> &str {
    std::str::from_utf8(script).unwrap_or("no text")
}

/// A script answers over a folder what it answers over a list.
fn agree_once<R: Threads + Sync + Abort>(
    rt: &R,
    alloc: Global,
    folder: &mut MemFolder,
    script: &[u8],
) -> Result<(), Fail> {
    let (status, output) = outcome(rt, alloc, script, folder)?;
    let scan = scanned(alloc, script)?;
    check_answers(
        rt,
        alloc,
        text_of(script),
        (&status, &output),
        scan.answers.as_slice(),
        scan.refused,
    )
}

/// What `LOOK` answers over a folder are the last answers of this script with it over a list.
fn check_look<R: Threads + Sync + Abort>(
    rt: &R,
    alloc: Global,
    folder: &mut MemFolder,
    script: Vec<u8>,
) -> Result<(), Fail> {
    let mut whole = script;
    whole.extend_from_slice(LOOK)?;
    let scan = scanned(alloc, whole.as_slice())?;
    let (_, output) = outcome(rt, alloc, LOOK, folder)?;
    holds_at(
        rt,
        scan.answers.as_slice().ends_with(output.bytes()),
        &text_of(whole.as_slice()),
    );
    Ok(())
}

/// A script answers over a folder what it answers over a list. The folder that it leaves answers another run as the
/// list does after a reopening.
pub fn agree<R: Threads + Sync + Abort>(rt: &R, alloc: Global, script: &[u8]) -> Result<(), Fail> {
    let mut folder = empty_folder(alloc);
    agree_once(rt, alloc, &mut folder, script)?;
    let mut again = script.to_vec(alloc)?;
    again.extend_from_slice(REOPEN)?;
    check_look(rt, alloc, &mut folder, again)
}

/// Puts these lines behind a script.
fn put_lines(script: &mut Vec<u8>, lines: &[&str]) -> Result<(), Fail> {
    for line in lines {
        script.extend_from_slice(line.as_bytes())?;
        script.push(b'\n')?;
    }
    Ok(())
}

/// The script of these lines, over leaves of two.
pub fn script_of(alloc: Global, lines: &[&str]) -> Result<Vec<u8>, Fail> {
    let mut script = CREATE.to_vec(alloc)?;
    put_lines(&mut script, lines)?;
    Ok(script)
}

/// A script with a reopening behind so many of the lines.
fn reopened(alloc: Global, place: usize) -> Result<Vec<u8>, Fail> {
    if place > LINES.len() {
        return Err("no such line".into());
    }
    let (first, second) = LINES.split_at(place);
    let mut script = script_of(alloc, first)?;
    script.extend_from_slice(REOPEN)?;
    put_lines(&mut script, second)?;
    Ok(script)
}

/// Scripts with a reopening behind each of some of the lines agree.
fn reopen_between<R: Threads + Sync + Abort>(
    rt: &R,
    alloc: Global,
    first: usize,
    last: usize,
) -> Result<(), Fail> {
    for place in first..=last {
        agree(rt, alloc, reopened(alloc, place)?.as_slice())?;
    }
    Ok(())
}

/// Half of the lines, since a test has only so much time.
const HALF: usize = 15;

#[test]
fn a_script_without_reopening(rt: HostRuntime) -> Result<(), Fail> {
    agree(&rt, rt.alloc(), script_of(rt.alloc(), LINES)?.as_slice())
}

#[test]
fn a_reopening_at_each_early_line(rt: HostRuntime) -> Result<(), Fail> {
    reopen_between(&rt, rt.alloc(), 1, HALF)
}

#[test]
fn a_reopening_at_each_late_line(rt: HostRuntime) -> Result<(), Fail> {
    reopen_between(&rt, rt.alloc(), HALF + 1, LINES.len())
}

/// The answers of a run of the first lines, and another of those behind them with `LOOK`.
fn run_twice<R: Threads + Sync>(rt: &R, alloc: Global, place: usize) -> Result<Vec<u8>, Fail> {
    if place > LINES.len() {
        return Err("no such line".into());
    }
    let (first, second) = LINES.split_at(place);
    let mut folder = empty_folder(alloc);
    outcome(rt, alloc, script_of(alloc, first)?.as_slice(), &mut folder)?;
    let mut rest = Vec::new(alloc);
    put_lines(&mut rest, second)?;
    rest.extend_from_slice(LOOK)?;
    let (_, output) = outcome(rt, alloc, rest.as_slice(), &mut folder)?;
    Ok(output.bytes().to_vec(alloc)?)
}

/// A script goes on in another run, behind each of some of the lines, as if it had been reopened.
fn go_on_between<R: Threads + Sync + Abort>(
    rt: &R,
    alloc: Global,
    first: usize,
    last: usize,
) -> Result<(), Fail> {
    for place in first..=last {
        let answers = run_twice(rt, alloc, place)?;
        let mut whole = reopened(alloc, place)?;
        whole.extend_from_slice(LOOK)?;
        let scan = scanned(alloc, whole.as_slice())?;
        same_at(
            rt,
            last_line(answers.as_slice()),
            last_line(scan.answers.as_slice()),
            &place,
        );
    }
    Ok(())
}

#[test]
fn a_run_at_each_early_line(rt: HostRuntime) -> Result<(), Fail> {
    go_on_between(&rt, rt.alloc(), 0, HALF)
}

#[test]
fn a_run_at_each_late_line(rt: HostRuntime) -> Result<(), Fail> {
    go_on_between(&rt, rt.alloc(), HALF + 1, LINES.len())
}

/// The last line of a text, without its end.
fn last_line(text: &[u8]) -> &[u8] {
    let lines = text.strip_suffix(b"\n").unwrap_or(text);
    match lines.rsplit(|byte| *byte == b'\n').next() {
        Some(line) => line,
        None => text,
    }
}

/// Scripts after which the commit has the same bytes as before.
const IDLE: [&[u8]; 3] = [b"", LOOK, b"snapshot a\ncommit\n"];

/// A run over what a run left, without a line, changes no file.
#[test]
fn a_run_without_changes(rt: HostRuntime) -> Result<(), Fail> {
    let mut folder = empty_folder(rt.alloc());
    let script = script_of(rt.alloc(), LINES)?;
    outcome(&rt, rt.alloc(), script.as_slice(), &mut folder)?;
    let before = commit_of(rt.alloc(), &folder)?;
    for lines in IDLE {
        outcome(&rt, rt.alloc(), lines, &mut folder)?;
        let after = commit_of(rt.alloc(), &folder)?;
        same(&rt, after.as_slice(), before.as_slice());
    }
    Ok(())
}

/// The bytes of the Commit file.
fn commit_of(alloc: Global, folder: &MemFolder) -> Result<Vec<u8>, Fail> {
    let bytes = folder.get(&FileName::Commit).unwrap_or(&[]);
    Ok(bytes.to_vec(alloc)?)
}

/// A script of sixty lines over leaves of three.
fn drawn_script(alloc: Global, draws: &mut Draws) -> Result<Vec<u8>, Fail> {
    let mut script = b"create 2 leaf 3\n".to_vec(alloc)?;
    for _ in 0..60 {
        draws.put_line(&mut script)?;
    }
    Ok(script)
}

#[test]
fn scripts_by_chance(rt: HostRuntime) -> Result<(), Fail> {
    let mut draws = Draws {
        seed: 88172645463325252,
    };
    for _ in 0..4 {
        let script = drawn_script(rt.alloc(), &mut draws)?;
        agree(&rt, rt.alloc(), script.as_slice())?;
    }
    Ok(())
}
