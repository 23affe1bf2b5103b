//! Runs of the program, and what is said of them.

use crate::asserts::{same, same_at};
use crate::fixtures::{said, words_of};
use bkd_build::OpenGate;
use bkd_top::{Status, run};
use outer_io::{MemFolder, MemSink, MemSource, Source};
use std::alloc::Global;
use std::marker::Sync;
use std::process::Abort;
use std::test::Fail;
use std::thread::Threads;

/// How many bytes an output takes.
const ROOM: usize = 1 << 20;

/// The words of a script's run.
pub const RUN: [&str; 2] = [".", "run"];

/// Runs the program with these words.
pub fn run_words<R: Threads + Sync, S: Source>(
    rt: &R,
    alloc: Global,
    words: &[&str],
    input: &mut S,
    folder: &mut MemFolder,
    output: &mut MemSink,
) -> Result<Status, Fail> {
    let words = words_of(alloc, words)?;
    Ok(run(
        rt,
        alloc,
        words.as_slice(),
        input,
        folder,
        output,
        &OpenGate,
    ))
}

/// Runs the program with these words over this input.
pub fn run_from<R: Threads + Sync, S: Source>(
    rt: &R,
    alloc: Global,
    words: &[&str],
    input: &mut S,
    folder: &mut MemFolder,
) -> Result<(Status, MemSink), Fail> {
    let mut output = MemSink::new(alloc, ROOM, Vec::new(alloc))?;
    let status = run_words(rt, alloc, words, input, folder, &mut output)?;
    Ok((status, output))
}

/// Runs a script where these calls of the input fail, and these of the output.
pub fn faulty<R: Threads + Sync>(
    rt: &R,
    alloc: Global,
    script: &[u8],
    folder: &mut MemFolder,
    source_fails: &[u64],
    sink_fails: &[u64],
) -> Result<(Status, MemSink), Fail> {
    let mut input = MemSource::new(script.to_vec(alloc)?, source_fails.to_vec(alloc)?);
    let mut output = MemSink::new(alloc, ROOM, sink_fails.to_vec(alloc)?)?;
    let status = run_words(rt, alloc, &RUN, &mut input, folder, &mut output)?;
    Ok((status, output))
}

/// Runs a script where no call of the input or of the output fails.
pub fn outcome<R: Threads + Sync>(
    rt: &R,
    alloc: Global,
    script: &[u8],
    folder: &mut MemFolder,
) -> Result<(Status, MemSink), Fail> {
    faulty(rt, alloc, script, folder, &[], &[])
}

/// The status of a script of which so many lines are refused.
fn refusing(count: u64) -> Status {
    match count {
        0 => Status::Done,
        count => Status::SomeRefused { count },
    }
}

/// A script has answered so, and so many of its lines were refused.
pub fn check_answers(
    rt: &impl Abort,
    alloc: Global,
    script: &str,
    outcome: (&Status, &MemSink),
    answers: &[u8],
    refused: u64,
) -> Result<(), Fail> {
    let (status, output) = outcome;
    same_at(
        rt,
        std::str::from_utf8(output.bytes()),
        std::str::from_utf8(answers),
        &script,
    );
    let expected = said(alloc, &refusing(refused))?;
    same_at(
        rt,
        said(alloc, status)?.as_slice(),
        expected.as_slice(),
        &script,
    );
    Ok(())
}

/// A status is said so.
pub fn check_said(rt: &impl Abort, alloc: Global, status: &Status, line: &str) -> Result<(), Fail> {
    let found = said(alloc, status)?;
    same(rt, std::str::from_utf8(found.as_slice()), Ok(line));
    Ok(())
}
