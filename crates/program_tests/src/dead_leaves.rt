//! Leaves all of whose entries are dead. What is nearest among them is what a list in memory says, as often as it is
//! asked: for a view of now, for a snapshot from before the deletions, and after a flush, a merge and a commit.

use crate::scripts::agree;
use std::alloc::Global;
use std::fmt::Write;
use std::marker::Sync;
use std::process::Abort;
use std::test::Fail;
use std::thread::Threads;

/// The nearest to a point, asked twice, and to another one: all.
const LOOK: &str = "nearest 5 3 30\nnearest 5 3 30\nnearest 70 0 0\n";

/// These lines over the snapshot.
const LOOK_BACK: &str = "nearest @a 5 3 30\nnearest @a 5 3 30\nnearest @a 70 0 0\n";

/// What is done between two looks.
const STEPS: &[&str] = &[
    "snapshot a\n",
    // a box takes most of the documents, so that whole leaves are dead
    "delete box 0 10 9 45\n",
    // others one by one, up to the last of a leaf
    "delete 50\ndelete 49\ndelete 51\n",
    "delete 48\ndelete 52\ndelete 47\ndelete 53\ndelete 46\n",
    // a second segment among the dead of the first
    "add 3 30\nadd 4 31\nflush\n",
    "delete 60\n",
    "add 2 29\nflush\nmerge\n",
    "delete 61\ncommit\n",
];

/// The script, with a look at both views behind each step.
fn script(alloc: Global) -> Result<String, Fail> {
    let mut script = String::new(alloc);
    script.push_str("create 2 leaf 3\n")?;
    for number in 0..60 {
        writeln!(script, "add {} {number}", number % 7)?;
    }
    script.push_str("flush\n")?;
    for step in STEPS {
        script.push_str(step)?;
        script.push_str(LOOK)?;
        script.push_str(LOOK_BACK)?;
    }
    Ok(script)
}

/// Runs the script, whose answers must be those of a list in memory.
fn agree_on<R: Threads + Sync + Abort>(rt: &R, alloc: Global) -> Result<(), Fail> {
    agree(rt, alloc, script(alloc)?.as_bytes())
}

#[test]
fn the_nearest_among_the_dead(rt: HostRuntime) -> Result<(), Fail> {
    agree_on(&rt, rt.alloc())
}
