//! Stories: steps over one folder, each with what comes of it.

use crate::asserts::{holds_at, same, same_at};
use crate::fixtures::{empty_folder, said};
use crate::runs::{outcome, run_from};
use outer_io::{FileName, Folder, MemFolder, MemSource};
use page_cache::pages_of;
use std::alloc::Global;
use std::marker::Sync;
use std::process::Abort;
use std::test::Fail;
use std::thread::Threads;

pub const RUN: &[&str] = &[".", "run"];

pub const EXPLAIN: &[&str] = &[".", "explain"];

pub const CHECK: &[&str] = &[".", "check"];

/// Lines, with what is answered to them.
pub type Lines = (&'static str, &'static str);

/// A step over the folder of a story.
pub enum Step {
    /// The program is called with these words, and these calls on the folder fail: what it reads and answers, and what
    /// it says at the end.
    Call(&'static [&'static str], &'static [u64], &'static [Lines], &'static str),
    /// A file is put there, whose body on one page is this.
    Put(FileName, &'static [u8]),
    /// A file is put there as this script leaves it in an empty folder.
    Take(FileName, &'static [&'static str]),
    /// The first bit of a file is turned.
    Turn(FileName),
    /// A file is taken away.
    Lose(FileName),
    /// A file begins with these bytes.
    Begins(FileName, &'static [u8]),
    /// The first files are there, and the second ones are not.
    There(&'static [FileName], &'static [FileName]),
}

/// Tells each story over a folder of its own.
pub fn tell<R: Threads + Sync + Abort>(
    rt: &R,
    alloc: Global,
    stories: &[&[Step]],
) -> Result<(), Fail> {
    for story in stories {
        let mut folder = empty_folder(alloc);
        for step in *story {
            take_step(rt, alloc, &mut folder, step)?;
        }
    }
    Ok(())
}

fn take_step<R: Threads + Sync + Abort>(
    rt: &R,
    alloc: Global,
    folder: &mut MemFolder,
    step: &Step,
) -> Result<(), Fail> {
    match step {
        Step::Call(words, fails, lines, end) => {
            folder.plan(fails.to_vec(alloc)?, None);
            call(rt, alloc, folder, words, lines, end)
        }
        Step::Put(name, body) => put_one_page(alloc, folder, *name, body),
        Step::Take(name, script) => put_as_left(rt, alloc, folder, *name, script),
        Step::Turn(name) => flip_first_bit(alloc, folder, *name),
        Step::Lose(name) => lose(folder, name),
        Step::Begins(name, bytes) => begins(rt, folder, name, bytes),
        Step::There(some, none) => check_there(rt, folder, some, none),
    }
}

/// The program answers so to these lines, and says so at its end.
fn call<R: Threads + Sync + Abort>(
    rt: &R,
    alloc: Global,
    folder: &mut MemFolder,
    words: &[&str],
    lines: &[Lines],
    end: &str,
) -> Result<(), Fail> {
    let mut input = String::new(alloc);
    let mut answers = String::new(alloc);
    for (line, answer) in lines {
        input.push_str(line)?;
        answers.push_str(answer)?;
    }
    let mut source = MemSource::new(input.as_bytes().to_vec(alloc)?, Vec::new(alloc));
    let (status, output) = run_from(rt, alloc, words, &mut source, folder)?;
    let line = said(alloc, &status)?;
    same_at(
        rt,
        (
            std::str::from_utf8(output.bytes()),
            std::str::from_utf8(line.as_slice()),
        ),
        (Ok(answers.as_str()), Ok(end)),
        &input,
    );
    Ok(())
}

fn put_one_page(
    alloc: Global,
    folder: &mut MemFolder,
    name: FileName,
    body: &[u8],
) -> Result<(), Fail> {
    if body.len() > 4064 {
        return Err("more than a page".into());
    }
    let file = pages_of(alloc, &name, body)?;
    Ok(folder.put(name, file)?)
}

fn put_as_left<R: Threads + Sync>(
    rt: &R,
    alloc: Global,
    folder: &mut MemFolder,
    name: FileName,
    script: &[&str],
) -> Result<(), Fail> {
    let mut other = empty_folder(alloc);
    let mut text = String::new(alloc);
    for lines in script {
        text.push_str(lines)?;
    }
    outcome(rt, alloc, text.as_bytes(), &mut other)?;
    let file = other.get(&name).ok_or("no file")?.to_vec(alloc)?;
    Ok(folder.put(name, file)?)
}

fn flip_first_bit(alloc: Global, folder: &mut MemFolder, name: FileName) -> Result<(), Fail> {
    let mut file = folder.get(&name).ok_or("no file")?.to_vec(alloc)?;
    if let Some(first) = file.first_mut() {
        *first ^= 128;
    }
    Ok(folder.put(name, file)?)
}

fn lose(folder: &mut MemFolder, name: &FileName) -> Result<(), Fail> {
    Ok(folder.remove(name)?)
}

fn begins(rt: &impl Abort, folder: &MemFolder, name: &FileName, bytes: &[u8]) -> Result<(), Fail> {
    let file = folder.get(name).ok_or("no file")?;
    same(rt, file.get(..bytes.len()), Some(bytes));
    Ok(())
}

/// The first files are there, and the second ones are not.
pub fn check_there(
    rt: &impl Abort,
    folder: &MemFolder,
    some: &[FileName],
    none: &[FileName],
) -> Result<(), Fail> {
    for name in some {
        assert!(rt; folder.get(name).is_some(), "{name}");
    }
    for name in none {
        holds_at(rt, folder.get(name).is_none(), &name);
    }
    Ok(())
}
