//! A script that commits twice, with each call on the folder or the output failing in turn, and a stop before each
//! call.

use crate::asserts::{holds, holds_at, same};
use crate::fixtures::empty_folder;
use crate::runs::{faulty, outcome};
use bkd_top::code;
use outer_io::MemFolder;
use std::alloc::Global;
use std::marker::Sync;
use std::process::Abort;
use std::test::Fail;
use std::thread::Threads;

const SCRIPT: &[u8] =
    b"create 1\nadd 1\nadd 2\ncommit\ndelete 0\nadd 3\nflush\nmerge\nreopen\nadd 4\n";

/// The answers to its lines, one a line.
const ANSWERS: [&str; 10] = [
    "ok\n",
    "doc 0\n",
    "doc 1\n",
    "ok\n",
    "deleted 1\n",
    "doc 2\n",
    "ok\n",
    "ok\n",
    "ok\n",
    "doc 3\n",
];

/// A query for all documents, and its answers where nothing is stored, and behind the line `commit`, the line `reopen`
/// and the end.
const LOOK: &[u8] = b"box 0 9\n";

const NOTHING: &str = "line 1: no index\n";

const COMMITTED: &str = "hits 2\n0\n1\n";

const REOPENED: &str = "hits 2\n1\n2\n";

const ENDED: &str = "hits 3\n1\n2\n3\n";

/// What may be stored where so many lines were answered: what the last commit stored, or the one in flight.
const STORED: [[&str; 2]; 11] = [
    [NOTHING, NOTHING],
    [NOTHING, NOTHING],
    [NOTHING, NOTHING],
    [NOTHING, COMMITTED],
    [COMMITTED, COMMITTED],
    [COMMITTED, COMMITTED],
    [COMMITTED, COMMITTED],
    [COMMITTED, COMMITTED],
    [COMMITTED, REOPENED],
    [REOPENED, REOPENED],
    [REOPENED, ENDED],
];

/// What is stored where the output failed at the line behind so many: what the last commit up to that line stored.
const STORED_AT_OUTPUT: [&str; 10] = [
    NOTHING, NOTHING, NOTHING, COMMITTED, COMMITTED, COMMITTED, COMMITTED, COMMITTED, REOPENED,
    REOPENED,
];

/// How many lines were answered by a text, where that is the answers to some lines, whole.
fn answered(text: &[u8]) -> Option<usize> {
    let mut rest = text;
    for (lines, answer) in ANSWERS.iter().enumerate() {
        if rest.is_empty() {
            return Some(lines);
        }
        rest = rest.strip_prefix(answer.as_bytes())?;
    }
    rest.is_empty().then_some(ANSWERS.len())
}

/// What a folder answers where no call fails any more.
fn looked<R: Threads + Sync + Abort>(
    rt: &R,
    alloc: Global,
    folder: &mut MemFolder,
) -> Result<String, Fail> {
    folder.plan(Vec::new(alloc), None);
    let (_, output) = outcome(rt, alloc, LOOK, folder)?;
    let text = std::str::from_utf8(output.bytes()).unwrap_or("no text");
    Ok(String::from_str(alloc, text)?)
}

/// Whether a folder may answer so where so many lines were answered.
fn is_allowed(done: Option<usize>, look: &str) -> bool {
    let Some(lines) = done else {
        return false;
    };
    match STORED.get(lines) {
        Some([kept, in_flight]) => look == *kept || look == *in_flight,
        None => false,
    }
}

/// Runs the script over a folder where these calls fail, and none from a number on is done. How many lines were
/// answered; None where all was done.
fn run_failing<R: Threads + Sync + Abort>(
    rt: &R,
    alloc: Global,
    fails: Vec<u64>,
    stop: Option<u64>,
) -> Result<Option<usize>, Fail> {
    let mut folder = empty_folder(alloc);
    folder.plan(fails, stop);
    let (status, output) = outcome(rt, alloc, SCRIPT, &mut folder)?;
    let done = answered(output.bytes());
    let look = looked(rt, alloc, &mut folder)?;
    if code(&status) == 0 {
        same(rt, look.as_str(), ENDED);
        return Ok(None);
    }
    same(rt, code(&status), 4);
    holds_at(rt, is_allowed(done, look.as_str()), &(look, done));
    Ok(done)
}

/// More calls than the script makes.
const MOST_CALLS: u64 = 400;

/// Each call is the only one that fails. It is met behind each line that writes, and at the end.
#[test]
fn each_call_fails(rt: HostRuntime) -> Result<(), Fail> {
    let mut at_commit = false;
    let mut at_reopen = false;
    let mut at_end = false;
    for call in 0..MOST_CALLS {
        let Some(done) = run_failing(&rt, rt.alloc(), [call].to_vec(rt.alloc())?, None)? else {
            break;
        };
        at_commit |= done == 3;
        at_reopen |= done == 8;
        at_end |= done == 10;
    }
    holds(&rt, at_commit && at_reopen && at_end);
    Ok(())
}

/// The program stops before each call.
#[test]
fn each_stop(rt: HostRuntime) -> Result<(), Fail> {
    for call in 0..MOST_CALLS {
        if run_failing(&rt, rt.alloc(), Vec::new(rt.alloc()), Some(call))?.is_none() {
            return Ok(());
        }
    }
    Err("too many calls".into())
}

/// The output fails at each line: the answers before it went out whole, and the line was done.
#[test]
fn each_answer_fails(rt: HostRuntime) -> Result<(), Fail> {
    for (call, stored) in STORED_AT_OUTPUT.iter().enumerate() {
        let mut folder = empty_folder(rt.alloc());
        let fails = [call as u64];
        let (status, output) = faulty(&rt, rt.alloc(), SCRIPT, &mut folder, &[], &fails)?;
        same(&rt, code(&status), 5);
        same(&rt, answered(output.bytes()), Some(call));
        same(&rt, looked(&rt, rt.alloc(), &mut folder)?.as_str(), *stored);
    }
    Ok(())
}
