//! The program over streams in memory, and over a folder there.

use bkd_build::OpenGate;
use bkd_top::{Status, run, status_line};
use outer_io::{MemFolder, MemSink, MemSource};
use std::alloc::{AllocError, Global};
use std::marker::Sync;
use std::thread::Threads;

/// An empty folder in memory.
pub fn empty_folder(alloc: Global) -> MemFolder {
    MemFolder::new(alloc, Vec::new(alloc))
}

/// Words as the program gets them.
pub fn words_of(alloc: Global, words: &[&str]) -> Result<Vec<String>, AllocError> {
    let mut list = Vec::new(alloc);
    for word in words {
        list.push(String::from_str(alloc, word)?)?;
    }
    Ok(list)
}

/// Runs the program with these words on a folder, and answers its status and what it wrote.
pub fn called<R: Threads + Sync>(
    rt: &R,
    alloc: Global,
    words: &[&str],
    input: &str,
    folder: &mut MemFolder,
) -> Result<(Status, String), AllocError> {
    faulty(rt, alloc, (words, input), folder, &[], &[])
}

/// How a run ends, and what it writes, where these calls of the input fail, and these of the output.
pub fn faulty<R: Threads + Sync>(
    rt: &R,
    alloc: Global,
    command: (&[&str], &str),
    folder: &mut MemFolder,
    source_fails: &[u64],
    sink_fails: &[u64],
) -> Result<(Status, String), AllocError> {
    let (words, input) = command;
    let list = words_of(alloc, words)?;
    let mut source = MemSource::new(input.as_bytes().to_vec(alloc)?, source_fails.to_vec(alloc)?);
    let mut sink = MemSink::new(alloc, 1 << 16, sink_fails.to_vec(alloc)?)?;
    let status = run(
        rt,
        alloc,
        list.as_slice(),
        &mut source,
        folder,
        &mut sink,
        &OpenGate,
    );
    let text = std::str::from_utf8(sink.bytes()).unwrap_or("no text");
    Ok((status, String::from_str(alloc, text)?))
}

/// What is said of a status.
pub fn said(alloc: Global, status: &Status) -> Result<Vec<u8>, AllocError> {
    let mut line = Vec::new(alloc);
    status_line(alloc, status, &mut line)?;
    Ok(line)
}
