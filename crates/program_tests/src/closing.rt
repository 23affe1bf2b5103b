//! What a run leaves in its folder whose script ends with a snapshot held or a merge begun: just what its commit lists.

use crate::asserts::{holds, same, same_at};
use crate::fixtures::called;
use bkd_top::code;
use commit_list::read_commit;
use outer_io::{FileName, MemFolder};
use std::alloc::Global;
use std::marker::Sync;
use std::process::Abort;
use std::test::Fail;
use std::thread::Threads;

const RUN: &[&str] = &[".", "run"];

/// A query for all documents.
const LOOK: &str = "box 0 9\n";

/// Scripts that end with a snapshot held or a merge begun, or that held them at a commit or a reopening, and the same
/// without.
const HELD: [(&str, &str); 5] = [
    (
        "create 1\nadd 1\nadd 2\nflush\nadd 3\nflush\nsnapshot a\ndelete 0\nmerge\nadd 4\nflush\n",
        "create 1\nadd 1\nadd 2\nflush\nadd 3\nflush\ndelete 0\nmerge\nadd 4\nflush\n",
    ),
    (
        "create 1\nadd 1\nflush\nadd 2\nflush\nadd 3\nmerge begin 0 1\ndelete 1\n",
        "create 1\nadd 1\nflush\nadd 2\nflush\nadd 3\ndelete 1\n",
    ),
    // nothing changes behind the commit
    (
        "create 1\nadd 1\nflush\nadd 2\nsnapshot a\nmerge\ncommit\n",
        "create 1\nadd 1\nflush\nadd 2\nmerge\ncommit\n",
    ),
    (
        "create 1\nadd 1\nflush\nadd 2\nflush\nsnapshot a\nmerge\ncommit\nrelease a\n",
        "create 1\nadd 1\nflush\nadd 2\nflush\nmerge\ncommit\n",
    ),
    (
        "create 1\nadd 1\nflush\nadd 2\nflush\nsnapshot a\nmerge begin 0 1\nsnapshot b\nmerge end\nreopen\nadd 5\n",
        "create 1\nadd 1\nflush\nadd 2\nflush\nmerge\ncommit\nadd 5\n",
    ),
];

/// Ids and generations below this are looked for.
const MOST: u64 = 16;

/// Whether a file is there just where the commit lists it, and how many are there.
fn files_listed(alloc: Global, folder: &mut MemFolder) -> Result<Option<usize>, Fail> {
    let Some(commit) = read_commit(alloc, folder)? else {
        return Err("no commit".into());
    };
    let listed = commit.listed();
    let mut files = 0usize;
    for segment in 0..MOST {
        let is_listed = listed.iter().any(|one| one.segment == segment);
        if folder.get(&FileName::Segment(segment)).is_some() != is_listed {
            return Ok(None);
        }
        files = files.wrapping_add(usize::from(is_listed));
        for generation in 0..MOST {
            let name = FileName::Live {
                segment,
                generation,
            };
            let is_live = |one: &commit_list::Listed| one.segment == segment
                && one.generation == generation;
            let is_listed = listed.iter().any(is_live);
            if folder.get(&name).is_some() != is_listed {
                return Ok(None);
            }
            files = files.wrapping_add(usize::from(is_listed));
        }
    }
    Ok(folder.get(&FileName::CommitNew).is_none().then_some(files))
}

/// Runs a script on a folder, which has just what its commit lists then. How many files that are, and what a run finds.
fn left<R: Threads + Sync + Abort>(
    rt: &R,
    alloc: Global,
    script: &str,
    folder: &mut MemFolder,
) -> Result<(usize, String), Fail> {
    let (status, _) = called(rt, alloc, RUN, script, folder)?;
    same_at(rt, code(&status), 0, &script);
    let Some(files) = files_listed(alloc, folder)? else {
        return Err("a file that the commit doesn't list, or lists and isn't there".into());
    };
    let (_, look) = called(rt, alloc, RUN, LOOK, folder)?;
    Ok((files, look))
}

/// What was held leaves no file, and the folder answers as if it hadn't been.
#[test]
fn nothing_is_left_of_what_was_held(rt: HostRuntime) -> Result<(), Fail> {
    let alloc = rt.alloc();
    for (held, plain) in HELD {
        let mut folder = MemFolder::new(alloc, Vec::new(alloc));
        let (files, look) = left(&rt, alloc, held, &mut folder)?;
        let mut other = MemFolder::new(alloc, Vec::new(alloc));
        let (plain_files, plain_look) = left(&rt, alloc, plain, &mut other)?;
        same_at(&rt, look.as_str(), plain_look.as_str(), &held);
        same_at(&rt, files, plain_files, &held);
    }
    Ok(())
}

/// Lines that end with a snapshot held.
const AGAIN: &str = "add 5\nflush\nsnapshot a\nadd 6\ndelete 1\nmerge\n";

/// Runs that end so, one after another, leave no more files.
#[test]
fn runs_do_not_grow_a_folder(rt: HostRuntime) -> Result<(), Fail> {
    let alloc = rt.alloc();
    let mut folder = MemFolder::new(alloc, Vec::new(alloc));
    let (first, _) = left(&rt, alloc, "create 1\nadd 1\n", &mut folder)?;
    for _run in 0..6 {
        let (files, _) = left(&rt, alloc, AGAIN, &mut folder)?;
        holds(&rt, files <= first.saturating_add(2));
    }
    Ok(())
}

/// Where the folder fails while it takes away what was held, the commit is done, and a later run answers so.
#[test]
fn a_removal_that_fails(rt: HostRuntime) -> Result<(), Fail> {
    let alloc = rt.alloc();
    let mut removals = 0u32;
    // (the first calls open the index)
    for call in 8..64 {
        let mut folder = MemFolder::new(alloc, Vec::new(alloc));
        called(
            &rt,
            alloc,
            RUN,
            "create 1\nadd 1\nflush\nadd 2\n",
            &mut folder,
        )?;
        folder.plan([call].to_vec(alloc)?, None);
        let (status, _) = called(&rt, alloc, RUN, "snapshot a\nadd 3\nmerge\n", &mut folder)?;
        folder.plan(Vec::new(alloc), None);
        let (_, look) = called(&rt, alloc, RUN, LOOK, &mut folder)?;
        if code(&status) == 0 {
            holds(&rt, look.as_str() == "hits 3\n0\n1\n2\n" && removals > 2);
            return Ok(());
        }
        same(&rt, code(&status), 4);
        if look.as_str() == "hits 3\n0\n1\n2\n" {
            removals = removals.saturating_add(1);
        }
    }
    Err("too many calls".into())
}
