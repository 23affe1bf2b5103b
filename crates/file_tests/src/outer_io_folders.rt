//! Folders by tables of calls: in memory, in a directory, and in memory with calls that fail or are stopped.

use crate::asserts::{holds, same, same_at};
use outer_io::{DirFolder, Failed, FileName, Folder, MemFolder, WriteFault};
use std::path::PathBuf;
use std::process::Abort;
use std::test::Fail;
use std::{env, fs, process};

/// A call of a folder. A read has room for four bytes.
#[derive(Clone, Copy)]
enum Call {
    Size(FileName),
    Read(FileName, u64),
    Write(FileName, &'static [u8]),
    Append(FileName, &'static [u8]),
    Rename(FileName, FileName),
    Remove(FileName),
}

/// What a call answers, in one type for all kinds of calls.
#[derive(Clone, Copy, PartialEq, Eq, Debug)]
enum Answer {
    Done,
    Failed,
    Memory,
    Size(u64),
    /// There is no such file.
    None,
    /// How many bytes were read, and the room for them, which held points.
    Bytes(usize, [u8; 4]),
}

/// What a call that changes files answers.
fn written(answer: Result<(), WriteFault>) -> Answer {
    match answer {
        Ok(()) => Answer::Done,
        Err(WriteFault::Failed) => Answer::Failed,
        Err(WriteFault::Memory) => Answer::Memory,
    }
}

fn moved(answer: Result<(), Failed>) -> Answer {
    match answer {
        Ok(()) => Answer::Done,
        Err(Failed) => Answer::Failed,
    }
}

fn size<F: Folder>(folder: &mut F, name: &FileName) -> Answer {
    match folder.size(name) {
        Ok(Some(size)) => Answer::Size(size),
        Ok(None) => Answer::None,
        Err(Failed) => Answer::Failed,
    }
}

fn read<F: Folder>(folder: &mut F, name: &FileName, at: u64) -> Answer {
    let mut room = *b"....";
    match folder.read_at(name, at, &mut room) {
        Ok(count) => Answer::Bytes(count, room),
        Err(Failed) => Answer::Failed,
    }
}

/// Makes a call, and says what it answers.
fn make_call<F: Folder>(folder: &mut F, call: &Call) -> Answer {
    match call {
        Call::Size(name) => size(folder, name),
        Call::Read(name, at) => read(folder, name, *at),
        Call::Write(name, bytes) => written(folder.write_file(name, bytes)),
        Call::Append(name, bytes) => written(folder.append(name, bytes)),
        Call::Rename(from, to) => moved(folder.rename(from, to)),
        Call::Remove(name) => moved(folder.remove(name)),
    }
}

/// Makes these calls in turn, and compares what each answers.
fn goes_through<F: Folder>(rt: &impl Abort, folder: &mut F, rows: &[(Call, Answer)]) {
    for (i, (call, expected)) in rows.iter().enumerate() {
        same_at(rt, make_call(folder, call), *expected, &i);
    }
}

const LIVE: FileName = FileName::Live {
    segment: 3,
    generation: 0xab,
};

const LAST: FileName = FileName::Segment(255);

const FIRST: FileName = FileName::Segment(0);

/// Calls of which each folder that doesn't fail answers the same.
const AGREED: [(Call, Answer); 18] = [
    (Call::Size(LIVE), Answer::None),
    (Call::Read(LIVE, 0), Answer::Bytes(0, *b"....")),
    (Call::Remove(LIVE), Answer::Done),
    (Call::Append(LIVE, b"abc"), Answer::Done),
    (Call::Append(LIVE, b"def"), Answer::Done),
    (Call::Size(LIVE), Answer::Size(6)),
    (Call::Read(LIVE, 1), Answer::Bytes(4, *b"bcde")),
    (Call::Read(LIVE, 5), Answer::Bytes(1, *b"f...")),
    (Call::Write(LIVE, b"gh"), Answer::Done),
    (Call::Read(LIVE, 0), Answer::Bytes(2, *b"gh..")),
    (Call::Read(LIVE, u64::MAX), Answer::Bytes(0, *b"....")),
    (Call::Rename(LIVE, LAST), Answer::Done),
    (Call::Read(LIVE, 0), Answer::Bytes(0, *b"....")),
    (Call::Size(LAST), Answer::Size(2)),
    (Call::Write(FileName::Commit, b"xyz"), Answer::Done),
    (Call::Read(LAST, 0), Answer::Bytes(2, *b"gh..")),
    (Call::Read(FileName::Commit, 0), Answer::Bytes(3, *b"xyz.")),
    (Call::Remove(FileName::Commit), Answer::Done),
];

/// Files that were read and then changed: what is read next is what they are now.
const ANEW: [(Call, Answer); 19] = [
    (Call::Write(FIRST, b"one"), Answer::Done),
    (Call::Read(FIRST, 0), Answer::Bytes(3, *b"one.")),
    (Call::Write(FIRST, b"more"), Answer::Done),
    (Call::Read(FIRST, 0), Answer::Bytes(4, *b"more")),
    (Call::Append(FIRST, b"over"), Answer::Done),
    (Call::Read(FIRST, 4), Answer::Bytes(4, *b"over")),
    (Call::Write(FileName::Commit, b"old"), Answer::Done),
    (Call::Read(FileName::Commit, 0), Answer::Bytes(3, *b"old.")),
    (Call::Write(FileName::CommitNew, b"next"), Answer::Done),
    (
        Call::Read(FileName::CommitNew, 0),
        Answer::Bytes(4, *b"next"),
    ),
    (
        Call::Rename(FileName::CommitNew, FileName::Commit),
        Answer::Done,
    ),
    (Call::Read(FileName::Commit, 0), Answer::Bytes(4, *b"next")),
    (
        Call::Read(FileName::CommitNew, 0),
        Answer::Bytes(0, *b"...."),
    ),
    (Call::Read(FIRST, 0), Answer::Bytes(4, *b"more")),
    (Call::Remove(FIRST), Answer::Done),
    (Call::Read(FIRST, 0), Answer::Bytes(0, *b"....")),
    (Call::Write(FIRST, b"anew"), Answer::Done),
    (Call::Read(FIRST, 0), Answer::Bytes(4, *b"anew")),
    (Call::Remove(FileName::Commit), Answer::Done),
];

#[test]
fn calls_in_memory(rt: HostRuntime) -> Result<(), Fail> {
    let mut folder = MemFolder::new(rt.alloc(), [].to_vec(rt.alloc())?);
    goes_through(&rt, &mut folder, &AGREED);
    goes_through(&rt, &mut folder, &ANEW);
    Ok(())
}

/// A directory of this process among the temporary ones, which is empty.
fn directory(rt: &HostRuntime, what: &str) -> Result<PathBuf, Fail> {
    let name = format!(in rt.alloc(); "bkd-{what}-{}", process::id(rt.process()))?;
    let path = env::temp_dir(rt)?
        .as_path()
        .join(rt.alloc(), name.as_str())?;
    fs::create_dir(rt, path.as_str())?;
    Ok(path)
}

/// What is left to take away, the name that a file has there, and what isn't there.
const LEFT: [(Call, Answer); 3] = [
    (Call::Remove(FIRST), Answer::Done),
    (Call::Remove(LAST), Answer::Done),
    (
        Call::Rename(FileName::CommitNew, FileName::Commit),
        Answer::Failed,
    ),
];

#[test]
fn calls_in_a_directory(rt: HostRuntime) -> Result<(), Fail> {
    let dir = directory(&rt, "calls")?;
    let mut folder = DirFolder::new(&rt, rt.alloc(), dir.as_str())?;
    goes_through(&rt, &mut folder, &AGREED);
    goes_through(&rt, &mut folder, &ANEW);
    let path = format!(in rt.alloc(); "{dir}/seg-00000000000000ff.bkd", dir = dir.as_str())?;
    holds(&rt, fs::exists(&rt, path.as_str())?);
    goes_through(&rt, &mut folder, &LEFT);
    fs::remove_dir(&rt, dir.as_str())?;
    Ok(())
}

#[test]
fn a_directory_that_is_gone(rt: HostRuntime) -> Result<(), Fail> {
    let dir = directory(&rt, "gone")?;
    let mut folder = DirFolder::new(&rt, rt.alloc(), dir.as_str())?;
    fs::remove_dir(&rt, dir.as_str())?;
    let row = (Call::Append(FileName::Commit, b"a"), Answer::Failed);
    goes_through(&rt, &mut folder, &[row]);
    Ok(())
}

/// More files than stay open or wait for a barrier.
const MANY: u64 = 70;

/// Whether each of these files has the byte of its number, when they are read in turn.
fn each_is_its_own<F: Folder>(folder: &mut F) -> bool {
    for id in 0..MANY {
        let byte = id as u8;
        if read(folder, &FileName::Segment(id), 0) != Answer::Bytes(1, [byte, b'.', b'.', b'.']) {
            return false;
        }
    }
    true
}

/// Makes each of these files, of one byte, or takes each away.
fn for_each_file<F: Folder>(folder: &mut F, make: bool) -> Result<(), WriteFault> {
    for id in 0..MANY {
        if make {
            folder.write_file(&FileName::Segment(id), &[id as u8])?;
        } else {
            folder.remove(&FileName::Segment(id))?;
        }
    }
    Ok(())
}

#[test]
fn more_files_than_stay_open(rt: HostRuntime) -> Result<(), Fail> {
    let dir = directory(&rt, "many")?;
    let mut folder = DirFolder::new(&rt, rt.alloc(), dir.as_str())?;
    same(&rt, for_each_file(&mut folder, true), Ok(()));
    holds(&rt, each_is_its_own(&mut folder));
    let row = (Call::Rename(FIRST, FIRST), Answer::Done);
    goes_through(&rt, &mut folder, &[row]);
    holds(&rt, each_is_its_own(&mut folder));
    same(&rt, for_each_file(&mut folder, false), Ok(()));
    fs::remove_dir(&rt, dir.as_str())?;
    Ok(())
}

const SEVENTH: FileName = FileName::Segment(7);

/// The second call is torn.
const TORN: [(Call, Answer); 2] = [
    (Call::Write(SEVENTH, b"ab"), Answer::Done),
    (Call::Append(SEVENTH, b"cdefg"), Answer::Failed),
];

#[test]
fn a_torn_call_leaves_half(rt: HostRuntime) -> Result<(), Fail> {
    let mut folder = MemFolder::new(rt.alloc(), [1].to_vec(rt.alloc())?);
    goes_through(&rt, &mut folder, &TORN);
    same(&rt, folder.get(&SEVENTH), Some(b"abcd".as_slice()));
    Ok(())
}

/// All calls from the second on are stopped.
const STOPPED: [(Call, Answer); 4] = [
    (
        Call::Rename(FileName::CommitNew, FileName::Commit),
        Answer::Done,
    ),
    (Call::Write(FileName::Commit, b"x"), Answer::Failed),
    (Call::Append(FileName::Commit, b"x"), Answer::Failed),
    (Call::Remove(FileName::Commit), Answer::Failed),
];

#[test]
fn a_stopped_call_leaves_all(rt: HostRuntime) -> Result<(), Fail> {
    let mut folder = MemFolder::new(rt.alloc(), [].to_vec(rt.alloc())?);
    folder.plan([].to_vec(rt.alloc())?, Some(1));
    folder.put(FileName::CommitNew, b"next".to_vec(rt.alloc())?)?;
    goes_through(&rt, &mut folder, &STOPPED);
    same(&rt, folder.get(&FileName::Commit), Some(b"next".as_slice()));
    Ok(())
}
