//! The command `batch`: what it tells of folders that scripts and files leave, and that its halves run beside each
//! other.

use crate::asserts::{holds, holds_at, same, same_at};
use crate::gates::{Counting, Meeting, run_gated};
use bkd_top::{Status, code};
use outer_io::{FileName, MemFolder};
use program_tests::draws::Draws;
use program_tests::fixtures::called;
use std::alloc::{AllocError, Global};
use std::fmt::Write;
use std::marker::Sync;
use std::sync::atomic::Ordering;
use std::test::Fail;
use std::thread::Threads;

/// The words of the command with each number of forks.
const FORKS: [&[&str]; 8] = [
    &[".", "batch"],
    &[".", "batch", "--forks", "0"],
    &[".", "batch", "--forks", "1"],
    &[".", "batch", "--forks", "2"],
    &[".", "batch", "--forks", "3"],
    &[".", "batch", "--forks", "4"],
    &[".", "batch", "--forks", "5"],
    &[".", "batch", "--forks", "6"],
];

/// Batches with a merge beside them.
pub(crate) const MERGING: [&[&str]; 8] = [
    &[".", "batch", "--merge"],
    &[".", "batch", "--merge", "--forks", "0"],
    &[".", "batch", "--merge", "--forks", "1"],
    &[".", "batch", "--merge", "--forks", "2"],
    &[".", "batch", "--merge", "--forks", "3"],
    &[".", "batch", "--merge", "--forks", "4"],
    &[".", "batch", "--merge", "--forks", "5"],
    &[".", "batch", "--merge", "--forks", "6"],
];

/// What a script leaves, the lines of `batch`, the status, and what is told.
type Row = (&'static str, &'static str, u8, &'static str);

/// Documents 0 and 2 of three, in segments that were merged while 1 was deleted; no index; an index without documents;
/// documents of several points, a dead one, and one dimension of which no polygon is asked.
const ROWS: [Row; 4] = [
    (
        "create 1\nadd 1\nadd 2\nflush\nadd 3\nflush\nmerge begin 0 1\ndelete 1\nmerge end\nreopen\n",
        "box 0 9\nbox @a 0 9\nflush\n",
        2,
        "hits 2\n0\n2\nline 2: unknown snapshot\nline 3: not a query\n",
    ),
    (
        "",
        "box 0 9\n\n# a note\ncreate 2\ncreate 9\n",
        2,
        "line 1: no index\nline 4: not a query\nline 5: dims\n",
    ),
    ("create 3\n", "nearest 2 0 0 0\n", 0, "near 0\n"),
    (
        "create 2\nadd 0 0 5 5 9 0\nadd 3 3\nflush\nadd -7 2\ndelete 1\n",
        "box 0 0 9 9\ncreate 2\nnearest 5 0 0\nbox 0 0 9\nnearest 0 1 1\nadd 1 1\nbox 4 4 0 0\n",
        2,
        "hits 1\n0\nline 2: not a query\nnear 2\n0 0\n2 53\nline 4: wrong words\nline 5: bad k\n\
line 6: not a query\nhits 0\n",
    ),
];

#[test]
fn answers_what_scripts_leave(rt: HostRuntime) -> Result<(), Fail> {
    for (script, lines, number, told) in ROWS {
        let mut folder = MemFolder::new(rt.alloc(), Vec::new(rt.alloc()));
        called(&rt, rt.alloc(), &[".", "run"], script, &mut folder)?;
        for words in FORKS.iter().chain(MERGING.iter()) {
            let (status, text) = called(&rt, rt.alloc(), words, lines, &mut folder)?;
            same_at(&rt, text.as_str(), told, &script);
            same(&rt, code(&status), number);
        }
    }
    Ok(())
}

/// Three cities by longitude and latitude, in millionths of a degree.
const CITIES: &str =
    "name,lon,lat\nBerlin,13404954,52520008\nParis,2352222,48856613\nRome,12496366,41902782\n";

/// A query of each kind over the cities: a box, the nearest one, and a polygon.
const OF_CITIES: &str = "box 0 45000000 15000000 55000000\nnearest 1 12000000 42000000\n\
polygon {\"type\":\"Polygon\",\"coordinates\":[[[0,40000000],[20000000,40000000],[20000000,50000000],\
[0,50000000],[0,40000000]]]}\n";

/// What is told of them.
const OF_CITIES_TOLD: &str = "hits 2\n0\n1\nnear 1\n2 255830545480\nhits 2\n1\n2\n";

/// The folder of the three cities.
pub(crate) fn cities<R: Threads + Sync>(rt: &R, alloc: Global) -> Result<MemFolder, Fail> {
    let mut folder = MemFolder::new(alloc, Vec::new(alloc));
    let words = [".", "load", "--columns", "lon,lat"];
    called(rt, alloc, &words, CITIES, &mut folder)?;
    Ok(folder)
}

#[test]
fn answers_of_cities(rt: HostRuntime) -> Result<(), Fail> {
    let mut folder = cities(&rt, rt.alloc())?;
    for words in FORKS.iter().chain(MERGING.iter()) {
        let (status, text) = called(&rt, rt.alloc(), words, OF_CITIES, &mut folder)?;
        same(&rt, text.as_str(), OF_CITIES_TOLD);
        same(&rt, code(&status), 0);
        let (_, text) = called(&rt, rt.alloc(), &[".", "check"], "", &mut folder)?;
        same(
            &rt,
            text.as_str(),
            "ok dims 2 leaf 333 next 3 live 3 segments 1\n",
        );
    }
    Ok(())
}

/// A script that leaves documents of one to three points in several segments, some of them dead.
fn drawn_script(alloc: Global, draws: &mut Draws) -> Result<String, AllocError> {
    let mut script = String::from_str(alloc, "create 2 leaf 4\n")?;
    for i in 0..60_u64 {
        let x = draws.below(100);
        let y = draws.below(100);
        match draws.below(4) {
            0 => writeln!(script, "add {x} {y} {y} {x} {x} {x}")?,
            1 => writeln!(script, "delete {x}")?,
            _ => writeln!(script, "add {x} {y}")?,
        }
        if i % 17 == 16 {
            script.push_str("flush\n")?;
        }
    }
    Ok(script)
}

/// Queries of them, with some lines that are none.
fn drawn_queries(alloc: Global, draws: &mut Draws) -> Result<String, AllocError> {
    let mut lines = String::new(alloc);
    for _ in 0..16 {
        let x = draws.below(100);
        let y = draws.below(100);
        let side = draws.below(40);
        match draws.below(5) {
            0 | 1 => writeln!(lines, "box {x} {y} {} {}", x + side, y + side)?,
            2 => writeln!(
                lines,
                "polygon {{\"type\":\"Polygon\",\"coordinates\":[[[{x},{y}],[{},{y}],[{x},{}],[{x},{y}]]]}}",
                x + side,
                y + side
            )?,
            3 => writeln!(lines, "nearest {} {x} {y}", side + 1)?,
            _ => writeln!(lines, "box {x} {y}")?,
        }
    }
    Ok(lines)
}

#[test]
fn answers_as_run_does(rt: HostRuntime) -> Result<(), Fail> {
    let mut draws = Draws { seed: 1 };
    for _ in 0..2 {
        let script = drawn_script(rt.alloc(), &mut draws)?;
        let lines = drawn_queries(rt.alloc(), &mut draws)?;
        let mut folder = MemFolder::new(rt.alloc(), Vec::new(rt.alloc()));
        called(&rt, rt.alloc(), &[".", "run"], script.as_str(), &mut folder)?;
        let (_, expected) = called(&rt, rt.alloc(), &[".", "run"], lines.as_str(), &mut folder)?;
        for words in FORKS.iter().chain(MERGING.iter()) {
            let (_, text) = called(&rt, rt.alloc(), words, lines.as_str(), &mut folder)?;
            same_at(&rt, text.as_str(), expected.as_str(), &lines);
        }
    }
    Ok(())
}

/// Where a page is damaged nothing is told of any line, whether a query has to look there or not.
#[test]
fn damage_comes_before_the_text(rt: HostRuntime) -> Result<(), Fail> {
    let alloc = rt.alloc();
    let mut folder = cities(&rt, alloc)?;
    let name = FileName::Segment(0);
    let mut bytes = folder.get(&name).ok_or("no segment")?.to_vec(alloc)?;
    assert_eq!(rt; bytes.len(), 3 * 4096);
    bytes[2 * 4096 + 100] ^= 1;
    folder.put(name, bytes)?;
    for words in FORKS.iter().chain(MERGING.iter()) {
        let (status, text) = called(&rt, alloc, words, "box 9 9 9 9\n", &mut folder)?;
        holds_at(&rt, code(&status) == 6 && text.is_empty(), words);
    }
    Ok(())
}

/// Words that are none of the command.
const OTHER_WORDS: [&[&str]; 4] = [
    &[".", "batch", "more"],
    &[".", "batch", "--forks", "7"],
    &[".", "batch", "--cache", "16"],
    &[".", "batch", "--merge", "1"],
];

#[test]
fn other_words_are_refused(rt: HostRuntime) -> Result<(), Fail> {
    for words in OTHER_WORDS {
        let mut folder = MemFolder::new(rt.alloc(), Vec::new(rt.alloc()));
        let (status, text) = called(&rt, rt.alloc(), words, "box 1 2\n", &mut folder)?;
        holds_at(&rt, code(&status) == 1 && text.is_empty(), &words);
    }
    Ok(())
}

/// The first two queries of the cities.
pub(crate) const TWO: &str = "box 0 45000000 15000000 55000000\nnearest 1 12000000 42000000\n";

#[test]
fn halves_run_beside_each_other(rt: HostRuntime) -> Result<(), Fail> {
    let mut folder = cities(&rt, rt.alloc())?;
    let gate = Meeting::new();
    let words = [".", "batch", "--forks", "1"];
    let status = run_gated(&rt, rt.alloc(), &words, TWO.as_bytes(), &mut folder, &gate)?;
    same(&rt, code(&status), 0);
    same(&rt, gate.met(), (1, 1));
    Ok(())
}

/// Four queries, so that both halves can be cut again.
const FOUR: &str =
    "box 0 45000000 15000000 55000000\nnearest 1 12000000 42000000\nbox 0 0 1 1\nnearest 2 0 0\n";

/// Words, and how often the gate is passed with them for two queries, for the three, and for four.
const PASSES: [(&[&str], [u64; 3]); 4] = [
    (&[".", "batch", "--forks", "0"], [0, 0, 0]),
    (&[".", "batch"], [2, 2, 2]),
    (&[".", "batch", "--forks", "2"], [2, 4, 6]),
    (&[".", "batch", "--forks", "6"], [2, 4, 6]),
];

#[test]
fn passes_by_levels_of_forks(rt: HostRuntime) -> Result<(), Fail> {
    let mut folder = cities(&rt, rt.alloc())?;
    for (words, [of_two, of_three, of_four]) in PASSES {
        for (lines, expected) in [(TWO, of_two), (OF_CITIES, of_three), (FOUR, of_four)] {
            let gate = Counting::new();
            run_gated(&rt, rt.alloc(), words, lines.as_bytes(), &mut folder, &gate)?;
            let passes = gate.passes.load(Ordering::SeqCst);
            same_at(&rt, passes, expected, &words);
        }
    }
    Ok(())
}
