//! What is answered of a folder: by a check, and by a run of an empty script, which opens the index and reads no leaf.

use crate::asserts::same;
use outer_io::MemFolder;
use program_tests::fixtures::{called, said};
use std::alloc::Global;
use std::marker::Sync;
use std::process::Abort;
use std::test::Fail;
use std::thread::Threads;

/// A check answers this, and a run of an empty script ends as damaged by the same where opening shows it, and is done
/// where not.
pub(crate) fn assert_said<R: Threads + Sync + Abort>(
    rt: &R,
    alloc: Global,
    folder: &mut MemFolder,
    want: &str,
    is_shown: bool,
) -> Result<(), Fail> {
    let checked = told(rt, alloc, &[".", "check"], folder)?;
    let ran = told(rt, alloc, &[".", "run"], folder)?;
    let ends = if is_shown { want } else { "" };
    same(rt, (checked.as_str(), ran.as_str()), (want, ends));
    Ok(())
}

/// What the program with these words, and no input, tells of a folder: its line, or what is said of the damage.
fn told<R: Threads + Sync>(
    rt: &R,
    alloc: Global,
    words: &[&str],
    folder: &mut MemFolder,
) -> Result<String, Fail> {
    let (status, mut text) = called(rt, alloc, words, "", folder)?;
    let line = said(alloc, &status)?;
    let end = std::str::from_utf8(line.as_slice()).unwrap_or("no text");
    text.push_str(end.strip_prefix("damaged: ").unwrap_or(end).trim_end())?;
    Ok(text)
}
