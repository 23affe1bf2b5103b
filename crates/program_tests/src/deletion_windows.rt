//! Documents that are taken out while they wait in the buffer: the newest, the oldest and those between, one by one and
//! by a box that takes most of them. Each script answers over a folder what it answers over a list in memory.

use crate::scripts::agree;
use std::alloc::Global;
use std::fmt::Write;
use std::marker::Sync;
use std::process::Abort;
use std::test::Fail;
use std::thread::Threads;

/// So many documents are added, and with each goes the one that came so many before it.
struct Window {
    adds: u32,
    back: u32,
}

const WINDOWS: &[Window] = &[
    // each document goes as soon as it has come
    Window { adds: 60, back: 0 },
    // the oldest of two, of seven, of thirty and of all but one
    Window { adds: 60, back: 1 },
    Window { adds: 60, back: 6 },
    Window { adds: 60, back: 29 },
    Window { adds: 60, back: 58 },
];

/// All documents, and the nearest.
const LOOK: &str = "box 0 0 9 999\nnearest 3 2 20\n";

/// A box takes most of what waits, while a snapshot has it still. What is left is written, and then there are none.
const ENDS: &str =
    "add 1 1 3 3\nadd 4 70\nadd 1 71 2 72\nsnapshot a\ndelete box 0 2 9 65\nbox 0 0 9 999\n\
delete box 0 0 0 0\nbox @a 0 0 9 999\nnearest @a 3 2 20\ndelete 61\ndelete 61\nadd 2 2\nflush\nbox 0 0 9 999\n\
delete 63\ndelete 60\ncommit\nbox 0 0 9 999\nadd 5 5\ndelete 64\ndelete box 0 0 9 999\nbox 0 0 9 999\nflush\n\
box @a 0 0 9 999\n";

/// The script of a window, with a look behind each tenth document.
fn script_of(alloc: Global, window: &Window) -> Result<String, Fail> {
    let mut script = String::new(alloc);
    script.push_str("create 2 leaf 3\n")?;
    for number in 0..window.adds {
        writeln!(script, "add {} {number}", number % 7)?;
        if let Some(gone) = number.checked_sub(window.back) {
            writeln!(script, "delete {gone}")?;
        }
        if number % 10 == 9 {
            script.push_str(LOOK)?;
        }
    }
    script.push_str(ENDS)?;
    Ok(script)
}

/// Runs the script of each window, whose answers must be those of a list in memory.
fn agree_all<R: Threads + Sync + Abort>(rt: &R, alloc: Global) -> Result<(), Fail> {
    for window in WINDOWS {
        agree(rt, alloc, script_of(alloc, window)?.as_bytes())?;
    }
    Ok(())
}

#[test]
fn each_window(rt: HostRuntime) -> Result<(), Fail> {
    agree_all(&rt, rt.alloc())
}
