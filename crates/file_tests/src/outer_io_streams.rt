//! Sources and sinks, in memory and over files, and how the files of an index are named.

use crate::asserts::{same, same_at};
use outer_io::{
    Failed, FileName, MemSink, MemSource, ReadAll, StdSink, StdSource, read_all, write_all,
};
use std::path::PathBuf;
use std::test::Fail;
use std::{env, fs, process};

/// What reading these bytes to the end answers, over a source that fails at the named calls.
fn outcome(
    rt: &HostRuntime,
    bytes: &[u8],
    limit: u64,
    fail: &[u64],
) -> Result<Result<usize, ReadAll>, Fail> {
    let bytes = bytes.to_vec(rt.alloc())?;
    let fail = fail.to_vec(rt.alloc())?;
    let mut source = MemSource::new(bytes, fail);
    Ok(match read_all(rt.alloc(), &mut source, limit) {
        Ok(all) => Ok(all.len()),
        Err(e) => Err(e),
    })
}

/// The bytes of a source, the limit, the calls that fail, and what reading to the end answers.
const ENDS: [(&[u8], u64, &[u64], Result<usize, ReadAll>); 5] = [
    (b"abcd", 4, &[], Ok(4)),
    (b"abcde", 4, &[], Err(ReadAll::TooLarge)),
    (b"abcd", 4, &[0], Err(ReadAll::Failed)),
    (b"abcd", 4, &[1], Err(ReadAll::Failed)),
    (b"", 0, &[2], Ok(0)),
];

#[test]
fn reads_to_the_end_within_the_limit(rt: HostRuntime) -> Result<(), Fail> {
    for (bytes, limit, fail, expected) in ENDS {
        same_at(&rt, outcome(&rt, bytes, limit, fail)?, expected, &limit);
    }
    Ok(())
}

/// The pieces that a sink with room for five bytes is given, what it answers, and what it has then.
const PIECES: [(&[u8], Result<(), Failed>, &[u8]); 3] = [
    (b"abc", Ok(()), b"abc"),
    (b"defg", Err(Failed), b"abcde"),
    (b"", Ok(()), b"abcde"),
];

#[test]
fn a_sink_without_room_has_a_prefix(rt: HostRuntime) -> Result<(), Fail> {
    let fail = [3].to_vec(rt.alloc())?;
    let mut sink = MemSink::new(rt.alloc(), 5, fail)?;
    for (piece, expected, written) in PIECES {
        same(&rt, write_all(&mut sink, piece), expected);
        same(&rt, sink.bytes(), written);
    }
    Ok(())
}

/// Files and their names in a directory.
const NAMES: [(FileName, &str); 4] = [
    (FileName::Commit, "commit.bkd"),
    (FileName::CommitNew, "commit.new"),
    (FileName::Segment(0), "seg-0000000000000000.bkd"),
    (
        FileName::Live {
            segment: 0xabc,
            generation: u64::MAX,
        },
        "live-0000000000000abc-ffffffffffffffff.bkd",
    ),
];

#[test]
fn names_in_a_directory(rt: HostRuntime) -> Result<(), Fail> {
    for (name, text) in NAMES {
        same(&rt, name.to_string(rt.alloc())?.as_str(), text);
    }
    Ok(())
}

/// A path of this process among the temporary files.
fn temporary(rt: &HostRuntime, what: &str) -> Result<PathBuf, Fail> {
    let name = format!(in rt.alloc(); "bkd-{what}-{}", process::id(rt.process()))?;
    Ok(
        env::temp_dir(rt)?
            .as_path()
            .join(rt.alloc(), name.as_str())?,
    )
}

const LINES: &[u8] = b"two lines\nof text\n";

const LIMIT: u64 = 1_000_000;

#[test]
fn streams_of_the_system(rt: HostRuntime) -> Result<(), Fail> {
    let path = temporary(&rt, "lines")?;
    let mut sink = StdSink::new(fs::create(&rt, path.as_str())?);
    same(&rt, write_all(&mut sink, LINES), Ok(()));
    let mut source = StdSource::new(fs::open(&rt, path.as_str())?);
    let all = read_all(rt.alloc(), &mut source, LIMIT)?;
    same(&rt, all.as_slice(), LINES);
    fs::remove_file(&rt, path.as_str())?;
    Ok(())
}

#[test]
fn a_stream_that_takes_nothing_fails(rt: HostRuntime) -> Result<(), Fail> {
    let path = temporary(&rt, "closed")?;
    fs::create(&rt, path.as_str())?;
    let mut closed = StdSink::new(fs::open(&rt, path.as_str())?);
    same(&rt, write_all(&mut closed, b"a"), Err(Failed));
    fs::remove_file(&rt, path.as_str())?;
    Ok(())
}
