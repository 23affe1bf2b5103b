//! The gate that a run hands to each build: halves run beside each other, and how often it is passed.

use crate::asserts::{same, same_at};
use bkd_build::Gate;
use bkd_top::{Status, run};
use outer_io::{MemFolder, MemSink, MemSource};
use program_tests::fixtures::{empty_folder, said, words_of};
use std::alloc::Global;
use std::marker::Sync;
use std::process::Abort;
use std::sync::atomic::{AtomicU64, Ordering};
use std::test::Fail;
use std::thread::Threads;

/// How often a gate looks for the other half.
const TURNS: u32 = 200_000_000;

/// A gate that waits a while for the other half.
#[derive(Drop)]
pub(crate) struct Meeting {
    came: [AtomicU64; 2],
    met: [AtomicU64; 2],
}

impl Meeting {
    /// A gate at which neither half has come yet.
    pub(crate) fn new() -> Meeting {
        Meeting {
            came: [AtomicU64::new(0), AtomicU64::new(0)],
            met: [AtomicU64::new(0), AtomicU64::new(0)],
        }
    }

    /// Whether the left half saw the right one, and the right the left.
    pub(crate) fn met(&self) -> (u64, u64) {
        let left = self.met[0].load(Ordering::SeqCst);
        let right = self.met[1].load(Ordering::SeqCst);
        (left, right)
    }
}

impl Gate for Meeting {
    fn pass(&self, piece: u32) {
        let (own, other) = if piece == 0 { (0, 1) } else { (1, 0) };
        self.came[own].store(1, Ordering::SeqCst);
        for _ in 0..TURNS {
            if self.came[other].load(Ordering::SeqCst) == 1 {
                self.met[own].store(1, Ordering::SeqCst);
                return;
            }
        }
    }
}

/// A gate that counts how often it is passed.
#[derive(Drop)]
pub(crate) struct Counting {
    pub(crate) passes: AtomicU64,
}

impl Counting {
    /// It was not passed yet.
    pub(crate) fn new() -> Counting {
        Counting {
            passes: AtomicU64::new(0),
        }
    }
}

impl Gate for Counting {
    fn pass(&self, _piece: u32) {
        self.passes.fetch_add(1, Ordering::SeqCst);
    }
}

/// A status is said so.
fn check_said(rt: &impl Abort, alloc: Global, status: &Status, line: &str) -> Result<(), Fail> {
    let found = said(alloc, status)?;
    same(rt, std::str::from_utf8(found.as_slice()), Ok(line));
    Ok(())
}

/// One build of three leaves.
const ONE_BUILD: &[u8] = b"create 1 leaf 2\nadd 5\nadd 7\nadd 7\nadd 7\nadd 7\nflush\nbox 7 8\n";

/// Builds of three leaves, one, and three.
const THREE_BUILDS: &[u8] =
    b"create 1 leaf 2\nadd 5\nadd 7\nadd 7\nadd 7\nadd 7\nflush\nadd 9\nflush\nmerge\n";

/// Runs the program with these words over a folder, and this gate.
pub(crate) fn run_gated<R: Threads + Sync, G: Gate>(
    rt: &R,
    alloc: Global,
    words: &[&str],
    script: &[u8],
    folder: &mut MemFolder,
    gate: &G,
) -> Result<Status, Fail> {
    let words = words_of(alloc, words)?;
    let mut input = MemSource::new(script.to_vec(alloc)?, Vec::new(alloc));
    let mut output = MemSink::new(alloc, 1000, Vec::new(alloc))?;
    Ok(run(
        rt,
        alloc,
        words.as_slice(),
        &mut input,
        folder,
        &mut output,
        gate,
    ))
}

#[test]
fn halves_run_beside_each_other(rt: HostRuntime) -> Result<(), Fail> {
    let gate = Meeting::new();
    let status = run_gated(
        &rt,
        rt.alloc(),
        &[".", "run", "--forks", "1"],
        ONE_BUILD,
        &mut empty_folder(rt.alloc()),
        &gate,
    )?;
    check_said(&rt, rt.alloc(), &status, "")?;
    same(&rt, gate.met(), (1, 1));
    Ok(())
}

/// Words, and the passes of the three builds with them: one level where no word gives another.
const PASSES: [(&[&str], u64); 5] = [
    (&[".", "run"], 4),
    (&[".", "run", "--forks", "0"], 0),
    (&[".", "run", "--forks", "1"], 4),
    (&[".", "run", "--forks", "2"], 8),
    (&[".", "run", "--forks", "6"], 8),
];

#[test]
fn passes_by_levels_of_forks(rt: HostRuntime) -> Result<(), Fail> {
    for (words, expected) in PASSES {
        let gate = Counting::new();
        let mut folder = empty_folder(rt.alloc());
        let status = run_gated(&rt, rt.alloc(), words, THREE_BUILDS, &mut folder, &gate)?;
        check_said(&rt, rt.alloc(), &status, "")?;
        let passes = gate.passes.load(Ordering::SeqCst);
        same_at(&rt, passes, expected, &words);
    }
    Ok(())
}
