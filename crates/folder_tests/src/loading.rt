//! Files loaded into folders, with what is answered and left.

use crate::asserts::{holds, same};
use bkd_build::OpenGate;
use byte_cursor::Bytes;
use commit_list::{Commit, read_commit, write_commit};
use index_core::{Settings, Work};
use load_points::load;
use outer_io::{FileName, MemFolder};
use std::alloc::Global;
use std::marker::Sync;
use std::process::Abort;
use std::test::Fail;
use std::thread::Threads;

/// Loads a file by columns; answers the text, and whether the load is refused.
fn loaded<R: Threads + Sync>(
    rt: &R,
    alloc: Global,
    folder: &mut MemFolder,
    names: &[&str],
    file: &str,
) -> Result<(String, bool), Fail> {
    let mut columns = Vec::new(alloc);
    for name in names {
        columns.push(Bytes::new(name.as_bytes().to_vec(alloc)?))?;
    }
    if columns.is_empty() || columns.len() > 8 {
        return Err("not 1 to 8 columns".into());
    }
    let work = Work {
        rt,
        alloc,
        settings: Settings {
            cache_pages: 4,
            forks: 1,
        },
        gate: &OpenGate,
    };
    let mut text = Vec::new(alloc);
    let refused = load(
        &work,
        columns.as_slice(),
        file.as_bytes(),
        folder,
        &mut text,
    )?;
    let text = std::str::from_utf8(text.as_slice()).unwrap_or("no text");
    Ok((String::from_str(alloc, text)?, refused))
}

/// A load by these columns of a file, and its answer.
struct Row {
    columns: &'static [&'static str],
    file: &'static str,
    answer: &'static str,
}

/// What is refused, each over a folder without an index.
const REFUSALS: &[Row] = &[
    Row {
        columns: &["x", "y"],
        file: "id,x,y\n1,\"3\",4\n2,5,6\n3,2147483648,1\n",
        answer: "record 3 column x is not a whole number\n",
    },
    Row {
        columns: &["a"],
        file: "b",
        answer: "no column a\n",
    },
    Row {
        columns: &["b", "a", "c"],
        file: "b\n1,2\n",
        answer: "no column a\n",
    },
    Row {
        columns: &["a", "b"],
        file: "a,b\n1,2\n3\n",
        answer: "record 2 has another length\n",
    },
    Row {
        columns: &["a"],
        file: "",
        answer: "no column a\n",
    },
];

#[test]
fn refuses_files(rt: HostRuntime) -> Result<(), Fail> {
    let alloc = rt.alloc();
    for row in REFUSALS {
        let mut folder = MemFolder::new(alloc, Vec::new(alloc));
        let (text, refused) = loaded(&rt, alloc, &mut folder, row.columns, row.file)?;
        holds(&rt, refused);
        same(&rt, text.as_str(), row.answer);
        holds(&rt, is_empty(&folder));
    }
    Ok(())
}

/// Whether the folder has none of the files that a first commit has.
fn is_empty(folder: &MemFolder) -> bool {
    let live = FileName::Live {
        segment: 0,
        generation: 1,
    };
    folder.get(&FileName::Commit).is_none()
        && folder.get(&FileName::CommitNew).is_none()
        && folder.get(&FileName::Segment(0)).is_none()
        && folder.get(&live).is_none()
}

/// The columns, a file, the answer, and whether it is refused.
type Load = (&'static [&'static str], &'static str, &'static str, bool);

const LOADS: &[Load] = &[
    (&["x", "y"], "x,y\n", "loaded 0\nnext 0\n", false),
    (&["x", "y"], "y,x\n1,2\n3,4\n", "loaded 2\nnext 2\n", false),
    // the file's own fault comes before the number of columns
    (
        &["x"],
        "x\nno\n",
        "record 1 column x is not a whole number\n",
        true,
    ),
    (&["x"], "x\n7\n", "columns do not match dims 2\n", true),
    (
        &["x", "y", "z"],
        "x,y,z\n7,8,9\n",
        "columns do not match dims 2\n",
        true,
    ),
    (&["x", "x"], "x\n5\n", "loaded 1\nnext 3\n", false),
];

/// One load after the other into the same folder.
#[test]
fn loads_again_and_again(rt: HostRuntime) -> Result<(), Fail> {
    let alloc = rt.alloc();
    let mut folder = MemFolder::new(alloc, Vec::new(alloc));
    for (names, file, answer, is_refused) in LOADS {
        let before = commit_of(alloc, &folder)?;
        let (text, refused) = loaded(&rt, alloc, &mut folder, names, file)?;
        same(&rt, (text.as_str(), refused), (*answer, *is_refused));
        if refused {
            same(
                &rt,
                commit_of(alloc, &folder)?.as_slice(),
                before.as_slice(),
            );
        }
    }
    let commit = read_commit(alloc, &mut folder)?.ok_or("no commit")?;
    same(
        &rt,
        (
            commit.dims(),
            commit.leaf_size(),
            commit.next(),
            commit.points_given(),
        ),
        (2, 333, 3, 3),
    );
    Ok(())
}

/// The bytes of the Commit file.
fn commit_of(alloc: Global, folder: &MemFolder) -> Result<Vec<u8>, Fail> {
    Ok(
        folder
            .get(&FileName::Commit)
            .unwrap_or_default()
            .to_vec(alloc)?,
    )
}

const FULL: &[Load] = &[
    (&["a"], "a\n1\n2\n3\n", "full\n", true),
    // a fault of the file comes first
    (
        &["a"],
        "a\n1\n2\n3\nx\n",
        "record 4 column a is not a whole number\n",
        true,
    ),
    (&["a"], "a\n1\n2\n", "loaded 2\nnext 9\n", false),
    (&["a"], "a\n1\n", "full\n", true),
    (&["a"], "a\n", "loaded 0\nnext 9\n", false),
];

/// Where two points fit, three are refused, and then two are not.
#[test]
fn refuses_what_does_not_fit(rt: HostRuntime) -> Result<(), Fail> {
    let alloc = rt.alloc();
    let mut folder = MemFolder::new(alloc, Vec::new(alloc));
    let points_given = (1 << 24) - 2;
    let commit = Commit::new(1, 500, 7, points_given, 0, Vec::new(alloc));
    write_commit(alloc, &mut folder, &commit)?;
    for (names, file, answer, is_refused) in FULL {
        let (text, refused) = loaded(&rt, alloc, &mut folder, names, file)?;
        same(&rt, (text.as_str(), refused), (*answer, *is_refused));
    }
    Ok(())
}
