//! The command `batch` with a merge beside it: what it leaves, and that the merge is built beside the batch.

use crate::asserts::{holds_at, same, same_at};
use crate::batching::{MERGING, TWO, cities};
use crate::gates::{Counting, Meeting, run_gated};
use batch_queries::beside;
use batch_run::Resident;
use bkd_top::code;
use commit_list::read_commit;
use index_core::{Applied, Session, Settings, Work};
use outer_io::MemFolder;
use program_tests::fixtures::{called, faulty};
use script_lang::Positions;
use std::alloc::Global;
use std::marker::Sync;
use std::sync::atomic::Ordering;
use std::test::Fail;
use std::thread::Threads;

/// What scripts leave: how `check` tells it before a batch with a merge and after it.
const LEFT: [(&str, &str, &str); 4] = [
    (
        "create 1\nadd 1\nflush\nadd 2\nflush\nadd 3\nflush\n",
        "ok dims 1 leaf 500 next 3 live 3 segments 3\n",
        "ok dims 1 leaf 500 next 3 live 3 segments 1\n",
    ),
    (
        "create 1\nadd 1\nflush\nadd 2\nflush\ndelete 0\n",
        "ok dims 1 leaf 500 next 2 live 1 segments 2\n",
        "ok dims 1 leaf 500 next 2 live 1 segments 1\n",
    ),
    (
        "create 1\nadd 1\nflush\ndelete 0\n",
        "ok dims 1 leaf 500 next 1 live 0 segments 1\n",
        "ok dims 1 leaf 500 next 1 live 0 segments 0\n",
    ),
    (
        "create 1\n",
        "ok dims 1 leaf 500 next 0 live 0 segments 0\n",
        "ok dims 1 leaf 500 next 0 live 0 segments 0\n",
    ),
];

/// The folder that a script leaves.
fn left_by<R: Threads + Sync>(rt: &R, alloc: Global, script: &str) -> Result<MemFolder, Fail> {
    let mut folder = MemFolder::new(alloc, Vec::new(alloc));
    called(rt, alloc, &[".", "run"], script, &mut folder)?;
    Ok(folder)
}

#[test]
fn one_segment_is_left(rt: HostRuntime) -> Result<(), Fail> {
    let alloc = rt.alloc();
    for (script, before, after) in LEFT {
        for words in MERGING {
            let mut folder = left_by(&rt, alloc, script)?;
            let (_, text) = called(&rt, alloc, &[".", "check"], "", &mut folder)?;
            same_at(&rt, text.as_str(), before, &script);
            let (status, _) = called(&rt, alloc, words, "box 0 9\n", &mut folder)?;
            same_at(&rt, code(&status), 0, &words);
            let (_, text) = called(&rt, alloc, &[".", "check"], "", &mut folder)?;
            same_at(&rt, text.as_str(), after, &script);
        }
    }
    Ok(())
}

/// Where the text doesn't go out nothing is merged.
#[test]
fn an_output_fails(rt: HostRuntime) -> Result<(), Fail> {
    let alloc = rt.alloc();
    for (script, before, _) in LEFT {
        let mut folder = left_by(&rt, alloc, script)?;
        let command: (&[&str], &str) = (&[".", "batch", "--merge"], "box 0 9\n");
        let (status, text) = faulty(&rt, alloc, command, &mut folder, &[], &[0])?;
        same(&rt, code(&status), 5);
        same_at(&rt, text.as_str(), "", &script);
        let (_, text) = called(&rt, alloc, &[".", "check"], "", &mut folder)?;
        same_at(&rt, text.as_str(), before, &script);
    }
    Ok(())
}

/// The merge is built beside the batch, also where the list of queries isn't cut.
#[test]
fn both_run_beside_each_other(rt: HostRuntime) -> Result<(), Fail> {
    let mut folder = cities(&rt, rt.alloc())?;
    let gate = Meeting::new();
    let words = [".", "batch", "--forks", "0", "--merge"];
    let status = run_gated(&rt, rt.alloc(), &words, TWO.as_bytes(), &mut folder, &gate)?;
    same(&rt, code(&status), 0);
    same(&rt, gate.met(), (1, 1));
    Ok(())
}

/// What forks within a half doesn't wait at the gate of the two halves.
#[test]
fn what_forks_in_a_half_does_not_wait(rt: HostRuntime) -> Result<(), Fail> {
    for forks in ["0", "2", "6"] {
        let mut folder = cities(&rt, rt.alloc())?;
        let gate = Counting::new();
        let words = [".", "batch", "--forks", forks, "--merge"];
        let status = run_gated(&rt, rt.alloc(), &words, TWO.as_bytes(), &mut folder, &gate)?;
        same(&rt, code(&status), 0);
        same_at(&rt, gate.passes.load(Ordering::SeqCst), 2, &forks);
    }
    Ok(())
}

#[test]
fn beside_passes_both_halves(rt: HostRuntime) -> Result<(), Fail> {
    let alloc = rt.alloc();
    let mut folder = cities(&rt, alloc)?;
    let commit = read_commit(alloc, &mut folder)?.ok_or("no commit")?;
    if commit.dims() != 2 {
        return Err("other dimensions".into());
    }
    let gate = Meeting::new();
    let work = Work {
        rt: &rt,
        alloc,
        settings: Settings {
            cache_pages: 16,
            forks: 0,
        },
        gate: &gate,
    };
    let resident = Resident::<2>::load(alloc, &mut folder, &commit)?;
    let mut session = Session::<2>::attach(alloc, &mut folder, commit, work.settings)?;
    let mut text = Vec::new(alloc);
    let which = Positions::new([0].to_vec(alloc)?);
    let (replies, begun) = beside(
        &work,
        &resident,
        &[],
        &mut session,
        &mut folder,
        which,
        &mut text,
    );
    same(&rt, replies?.len(), 0);
    holds_at(&rt, matches!(begun, Ok(Applied::Done)), &begun);
    same(&rt, gate.met(), (1, 1));
    Ok(())
}
