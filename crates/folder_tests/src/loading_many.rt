//! Loads of many records: one segment is built of them, which is the same for every number of forks.

use crate::asserts::{holds_at, same_at};
use commit_list::read_commit;
use outer_io::{FileName, MemFolder};
use program_tests::fixtures::called;
use std::alloc::Global;
use std::fmt::Write;
use std::marker::Sync;
use std::test::Fail;
use std::thread::Threads;

/// The columns of a file, how many loads of one record come before, how many records it has, and what a check says
/// then.
type Many = (&'static str, usize, usize, &'static str);

const MANY: &[Many] = &[
    (
        "x,y",
        0,
        16_384,
        "ok dims 2 leaf 333 next 16384 live 16384 segments 1\n",
    ),
    (
        "x,y",
        0,
        16_385,
        "ok dims 2 leaf 333 next 16385 live 16385 segments 1\n",
    ),
    (
        "x,y",
        9,
        20_000,
        "ok dims 2 leaf 333 next 20009 live 20009 segments 10\n",
    ),
    // ten of a level are merged first
    (
        "x,y",
        10,
        20_000,
        "ok dims 2 leaf 333 next 20010 live 20010 segments 2\n",
    ),
    (
        "x",
        0,
        20_000,
        "ok dims 1 leaf 500 next 20000 live 20000 segments 1\n",
    ),
    (
        "x,y,z",
        1,
        20_000,
        "ok dims 3 leaf 250 next 20001 live 20001 segments 2\n",
    ),
    (
        "a,b,c,d,e,f,g,h",
        0,
        17_000,
        "ok dims 8 leaf 111 next 17000 live 17000 segments 1\n",
    ),
];

/// A file with so many records, some of which are the same. A column without a name comes last, which is not loaded.
fn file_of(alloc: Global, columns: &str, count: usize) -> Result<String, Fail> {
    let mut file = String::from_str(alloc, columns)?;
    file.push_str(",\n")?;
    for record in 0..count {
        let mut value = record;
        for _ in columns.split(',') {
            value = value.wrapping_mul(31).wrapping_add(7) % 509;
            write!(file, "{value},")?;
        }
        file.push('\n')?;
    }
    Ok(file)
}

/// The folder after these loads, whose builds fork in so many levels.
fn folder_of<R: Threads + Sync>(
    rt: &R,
    alloc: Global,
    many: &Many,
    forks: &'static str,
) -> Result<MemFolder, Fail> {
    let (columns, small, count, _) = *many;
    let mut folder = MemFolder::new(alloc, Vec::new(alloc));
    let words = [".", "load", "--columns", columns, "--forks", forks];
    let one = file_of(alloc, columns, 1)?;
    for _ in 0..small {
        called(rt, alloc, &words, one.as_str(), &mut folder)?;
    }
    let file = file_of(alloc, columns, count)?;
    called(rt, alloc, &words, file.as_str(), &mut folder)?;
    Ok(folder)
}

/// Whether both folders have the same file of this name.
fn same_file(left: &MemFolder, right: &MemFolder, name: &FileName) -> bool {
    left.get(name).is_some() && left.get(name) == right.get(name)
}

#[test]
fn loads_many_records_into_one_segment(rt: HostRuntime) -> Result<(), Fail> {
    let alloc = rt.alloc();
    for many in MANY {
        let mut plain = folder_of(&rt, alloc, many, "0")?;
        let (_, text) = called(&rt, alloc, &[".", "check"], "", &mut plain)?;
        same_at(&rt, text.as_str(), many.3, many);
        let commit = read_commit(alloc, &mut plain)?.ok_or("no commit")?;
        for forks in ["1", "2"] {
            let forked = folder_of(&rt, alloc, many, forks)?;
            holds_at(&rt, same_file(&plain, &forked, &FileName::Commit), many);
            for line in commit.listed() {
                let name = FileName::Segment(line.segment);
                holds_at(&rt, same_file(&plain, &forked, &name), many);
            }
        }
    }
    Ok(())
}
