//! A session as a program that embeds it calls it, over a folder in memory: where a call on the folder fails all is
//! seen as before, and the line is done when it is asked again.

use crate::asserts::same_at;
use crate::fixtures::empty_folder;
use crate::stories::check_there;
use bkd_build::OpenGate;
use embed::Places;
use index_core::{Applied, Session, Settings};
use outer_io::{FileName, MemFolder};
use page_cache::PageFault;
use script_lang::read_line;
use std::alloc::Global;
use std::marker::Sync;
use std::process::Abort;
use std::test::Fail;
use std::thread::Threads;

const SETTINGS: Settings = Settings {
    cache_pages: 4,
    forks: 1,
};

/// The calls on the folder that fail, a line, its answer, and what comes of the line.
type Row = (&'static [u64], &'static str, &'static str, &'static str);

const DONE: &str = "done";

const REFUSED: &str = "refused";

const FAILED: &str = "failed";

/// Does a line, and says what comes of it.
fn applied<R: Threads + Sync>(
    rt: &R,
    alloc: Global,
    session: &mut Session<2>,
    folder: &mut MemFolder,
    line: &str,
    out: &mut Vec<u8>,
) -> Result<&'static str, Fail> {
    let command = read_line::<2>(alloc, line.as_bytes())?;
    match session.apply(rt, alloc, folder, &command, out, &OpenGate) {
        Ok(Applied::Done) => Ok(DONE),
        Ok(Applied::Refused(_)) => Ok(REFUSED),
        Err(PageFault::Failed) => Ok(FAILED),
        Err(_) => Err("another fault".into()),
    }
}

/// A session over leaves of two does each row's line.
fn check_rows<R: Threads + Sync + Abort>(
    rt: &R,
    alloc: Global,
    folder: &mut MemFolder,
    rows: &[Row],
) -> Result<(), Fail> {
    let mut session = Session::<2>::create(alloc, 2, SETTINGS)?;
    let mut out = Vec::new(alloc);
    for (fails, line, answer, comes) in rows {
        folder.plan(fails.to_vec(alloc)?, None);
        out.clear();
        let found = applied(rt, alloc, &mut session, folder, line, &mut out)?;
        same_at(
            rt,
            (found, std::str::from_utf8(out.as_slice())),
            (*comes, Ok(*answer)),
            &line,
        );
    }
    Ok(())
}

const LINES: &[Row] = &[
    (&[], "add 0 0", "doc 0\n", DONE),
    (&[], "add 10 10 -3 4", "doc 1\n", DONE),
    (&[], "box 0 0 5 5", "hits 1\n0\n", DONE),
    (&[0], "flush", "", FAILED),
    (&[], "box 0 0 10 10", "hits 2\n0\n1\n", DONE),
    (&[], "flush", "ok\n", DONE),
    (&[], "snapshot before", "ok\n", DONE),
    (&[], "snapshot before", "", REFUSED),
    (&[], "add 5 5", "doc 2\n", DONE),
    (&[], "nearest 2 0 0", "near 2\n0 0\n1 25\n", DONE),
    (&[], "commit", "ok\n", DONE),
    (&[], "merge end", "", REFUSED),
    (&[], "merge begin 0 1", "ok\n", DONE),
    (&[], "merge begin", "", REFUSED),
    (&[], "delete 0", "deleted 1\n", DONE),
    (&[], "delete 0", "deleted 0\n", DONE),
    (&[], "merge end", "ok\n", DONE),
    (&[], "box @before -9 -9 9 9", "hits 2\n0\n1\n", DONE),
    (&[1], "merge", "ok\n", FAILED),
    (&[], "nearest 2 0 0", "near 2\n1 25\n2 50\n", DONE),
    (&[], "merge", "ok\n", DONE),
    (&[], "release before", "ok\n", DONE),
    (&[], "delete box 5 5 6 6", "deleted 1\n", DONE),
    (&[], "reopen", "ok\n", DONE),
    (&[], "nearest @before 1 0 0", "", REFUSED),
    (&[], "box -9 -9 10 10", "hits 1\n1\n", DONE),
];

#[test]
fn each_line_has_its_answer(rt: HostRuntime) -> Result<(), Fail> {
    let mut folder = empty_folder(rt.alloc());
    check_rows(&rt, rt.alloc(), &mut folder, LINES)
}

/// The second file of a commit fails, and no name is written again: the next one has live numbers of the next
/// generation.
const SAVES: &[Row] = &[
    (&[], "add 0 0", "doc 0\n", DONE),
    (&[], "flush", "ok\n", DONE),
    (&[], "add 5 5", "doc 1\n", DONE),
    (&[], "flush", "ok\n", DONE),
    (&[1], "commit", "", FAILED),
    (&[], "commit", "ok\n", DONE),
];

const SAVED: &[FileName] = &[
    FileName::Segment(0),
    FileName::Segment(1),
    FileName::Live {
        segment: 0,
        generation: 2,
    },
    FileName::Live {
        segment: 1,
        generation: 2,
    },
];

const NOT_SAVED: &[FileName] = &[
    FileName::Live {
        segment: 0,
        generation: 1,
    },
    FileName::Live {
        segment: 1,
        generation: 1,
    },
];

#[test]
fn a_save_that_fails(rt: HostRuntime) -> Result<(), Fail> {
    let mut folder = empty_folder(rt.alloc());
    check_rows(&rt, rt.alloc(), &mut folder, SAVES)?;
    check_there(&rt, &folder, SAVED, NOT_SAVED)
}

/// Three segments of two documents. The first commit makes five calls: of live numbers three, and two for the commit.
/// Of the second one, behind a deletion in one segment, there are four: of live numbers one, two for the commit, and a
/// file that is taken away. The third one is refused, so that the next one has all live numbers of a next generation.
const CHANGES: &[Row] = &[
    (&[], "add 0 0", "doc 0\n", DONE),
    (&[], "add 1 1", "doc 1\n", DONE),
    (&[], "flush", "ok\n", DONE),
    (&[], "add 2 2", "doc 2\n", DONE),
    (&[], "add 3 3", "doc 3\n", DONE),
    (&[], "flush", "ok\n", DONE),
    (&[], "add 4 4", "doc 4\n", DONE),
    (&[], "add 5 5", "doc 5\n", DONE),
    (&[], "flush", "ok\n", DONE),
    (&[5], "commit", "ok\n", DONE),
    (&[], "delete 2", "deleted 1\n", DONE),
    (&[4], "commit", "ok\n", DONE),
    (&[], "delete 0", "deleted 1\n", DONE),
    (&[1], "commit", "", FAILED),
    (&[], "commit", "ok\n", DONE),
    (&[], "box 0 0 9 9", "hits 4\n1\n3\n4\n5\n", DONE),
];

const CHANGED: &[FileName] = &[
    FileName::Live {
        segment: 0,
        generation: 3,
    },
    FileName::Live {
        segment: 1,
        generation: 3,
    },
    FileName::Live {
        segment: 2,
        generation: 2,
    },
];

const GONE: &[FileName] = &[
    FileName::Live {
        segment: 0,
        generation: 2,
    },
    FileName::Live {
        segment: 1,
        generation: 2,
    },
    FileName::Live {
        segment: 2,
        generation: 1,
    },
];

#[test]
fn what_a_commit_writes(rt: HostRuntime) -> Result<(), Fail> {
    let mut folder = empty_folder(rt.alloc());
    check_rows(&rt, rt.alloc(), &mut folder, CHANGES)?;
    check_there(&rt, &folder, CHANGED, GONE)
}

/// What is asked of the worked example, the reply, and whether it is done.
const PLACES: &[(&str, &str, bool)] = &[
    ("add 13404954 52520008", "doc 0\n", true),
    ("add 2352222 48856613", "doc 1\n", true),
    (
        "nearest 1 2000000 49000000",
        "near 1\n1 144620169053\n",
        true,
    ),
    ("nearest 1 2000000", "", false),
    ("nearest @before 1 2000000 49000000", "", false),
    ("commit", "ok\n", true),
    ("box 0 50000000 15000000 55000000", "hits 1\n0\n", true),
];

#[test]
fn the_worked_example(rt: HostRuntime) -> Result<(), Fail> {
    let mut folder = empty_folder(rt.alloc());
    let Ok(mut places) = Places::new(rt.alloc()) else {
        return Err("no places".into());
    };
    let mut reply = Vec::new(rt.alloc());
    for (line, answer, is_done) in PLACES {
        reply.clear();
        let done = places
            .ask(&rt, rt.alloc(), &mut folder, line, &mut reply)
            .is_ok();
        same_at(
            &rt,
            (done, std::str::from_utf8(reply.as_slice())),
            (*is_done, Ok(*answer)),
            line,
        );
    }
    check_there(&rt, &folder, &[FileName::Commit, FileName::Segment(0)], &[])
}
