//! Small sets and lists, with answers reckoned by hand.

ghost use Rattle.std.specs.Prelude.{◌<◌};

use crate::asserts::{same, same_at};
use byte_cursor::Memory;
use document_checks::{Misplaced, doubled, misplaced, tally};
use live_bits::LiveBits;
use point_codec::{Entry, Point};
use std::alloc::Global;
use std::test::Fail;

/// The set of these numbers.
fn set_of(alloc: Global, numbers: &[u32]) -> Result<LiveBits, Fail> {
    if numbers.iter().any(|d| *d >= 1 << 24) {
        return Err("a number of 24 bits")?;
    }
    Ok(LiveBits::of_docs(alloc, numbers)?)
}

/// The sets of these numbers.
fn sets_of(alloc: Global, lists: &[&[u32]]) -> Result<Vec<LiveBits>, Fail> {
    let mut sets = Vec::new(alloc);
    for list in lists {
        sets.push(set_of(alloc, list)?)?;
    }
    Ok(sets)
}

/// Sets, the next number, and what is told of them.
const MISPLACED: [(&[&[u32]], u32, Option<Misplaced>); 13] = [
    (&[], 0, None),
    (&[&[0, 1, 2], &[], &[3, 4]], 5, None),
    (
        &[&[0, 5, 100], &[1, 100, 200]],
        300,
        Some(Misplaced::Doubled(100)),
    ),
    // over the ends of words
    (
        &[&[63, 64, 127, 128], &[65, 126, 128]],
        129,
        Some(Misplaced::Doubled(128)),
    ),
    (&[&[63, 64, 127, 128], &[62, 65, 126]], 129, None),
    // the least one comes last
    (&[&[10, 20], &[20], &[10]], 30, Some(Misplaced::Doubled(10))),
    (&[&[3], &[9]], 9, Some(Misplaced::NotGiven(9))),
    (&[&[70], &[9, 300]], 9, Some(Misplaced::NotGiven(9))),
    // beyond, although it is doubled too
    (&[&[9], &[9], &[3]], 9, Some(Misplaced::NotGiven(9))),
    (&[&[9], &[9], &[3]], 10, Some(Misplaced::Doubled(9))),
    (&[&[3, 9], &[3]], 5, Some(Misplaced::Doubled(3))),
    (
        &[&[16_777_215]],
        16_777_215,
        Some(Misplaced::NotGiven(16_777_215)),
    ),
    (&[&[16_777_215]], 16_777_216, None),
];

#[test]
fn tells_the_least(rt: HostRuntime) -> Result<(), Fail> {
    for (lists, next, answer) in MISPLACED {
        let sets = sets_of(rt.alloc(), lists)?;
        if next > 1 << 24 {
            return Err("a number of 24 bits")?;
        }
        same_at(
            &rt,
            misplaced(rt.alloc(), sets.as_slice(), next)?,
            answer,
            &next,
        );
    }
    Ok(())
}

/// Entries of these numbers and coordinates.
fn entries_of(alloc: Global, pairs: &[(u32, i32)]) -> Result<Vec<Entry<2>>, Memory> {
    let mut entries = Vec::new(alloc);
    for (doc, x) in pairs {
        entries.push(Entry {
            doc: *doc,
            point: Point { c: [*x, 7] },
        })?;
    }
    Ok(entries)
}

/// Entries, and the least number that is crowded.
const DOUBLED: [(&[(u32, i32)], Option<u32>); 9] = [
    (&[], None),
    (&[(9, 1), (3, 1), (70, 1)], None),
    (&[(9, 1), (3, 1), (9, 2), (9, -1)], None),
    (&[(9, 1), (3, 1), (9, 2), (9, 1)], Some(9)),
    (&[(5, 1), (3, 1), (5, 2), (3, 1)], Some(3)),
    // of two that are crowded the least is told
    (&[(9, 1), (3, 1), (9, 1), (3, 1)], Some(3)),
    (&[(3, 1), (70, 5), (70, 5), (9, 8), (9, 8)], Some(9)),
    (
        &[(16_777_215, 0), (0, 0), (16_777_215, 0)],
        Some(16_777_215),
    ),
    (&[(0, 0), (0, 0)], Some(0)),
];

#[test]
fn finds_doubled_entries(rt: HostRuntime) -> Result<(), Fail> {
    for (pairs, answer) in DOUBLED {
        let entries = entries_of(rt.alloc(), pairs)?;
        same(&rt, doubled(rt.alloc(), entries.as_slice())?, answer);
    }
    Ok(())
}

/// Numbers, of each how many entries there are at different places, and the least number that is crowded.
const RUNS: [(&[(u32, i32)], Option<u32>); 4] = [
    (&[(8, 1), (4, 16)], None),
    (&[(8, 1), (4, 17)], Some(4)),
    (&[(8, 17), (4, 16)], Some(8)),
    (&[(8, 17), (4, 17)], Some(4)),
];

#[test]
fn counts_to_sixteen(rt: HostRuntime) -> Result<(), Fail> {
    for (runs, answer) in RUNS {
        let mut entries = Vec::new(rt.alloc());
        for (doc, count) in runs {
            for x in 0..*count {
                entries.push(Entry {
                    doc: *doc,
                    point: Point { c: [x, 7] },
                })?;
            }
        }
        same_at(&rt, doubled(rt.alloc(), entries.as_slice())?, answer, &runs);
    }
    Ok(())
}

/// Live numbers, entries, how many of the numbers have one, and the least number that is crowded.
const TALLIES: [(&[u32], &[(u32, i32)], (u32, Option<u32>)); 11] = [
    (&[], &[], (0, None)),
    (&[1, 2, 3], &[], (0, None)),
    (&[], &[(1, 0), (2, 0)], (0, None)),
    (&[1, 2, 300], &[(300, 0), (1, 0), (1, 5), (4, 0)], (2, None)),
    (
        &[63, 64, 128],
        &[(64, 0), (128, 0), (63, 0), (129, 0)],
        (3, None),
    ),
    (&[0, 16_777_215], &[(16_777_215, 0), (5, 0)], (1, None)),
    // all entries are live, and of different numbers
    (&[1, 2, 3], &[(3, 0), (1, 0), (2, 0)], (3, None)),
    // as many entries as numbers, of which one lacks and one stands twice
    (&[1, 2, 3], &[(3, 0), (1, 0), (3, 0)], (2, Some(3))),
    // only the last number is crowded
    (&[1, 2], &[(2, 0), (1, 0), (2, 7), (2, 7)], (2, Some(2))),
    // of numbers that aren't live
    (&[1], &[(9, 0), (1, 0), (9, 0)], (1, Some(9))),
    (&[5], &[(9, 0), (9, 0), (4, 0), (4, 0)], (0, Some(4))),
];

#[test]
fn tallies_entries(rt: HostRuntime) -> Result<(), Fail> {
    for (numbers, pairs, answer) in TALLIES {
        let live = set_of(rt.alloc(), numbers)?;
        let entries = entries_of(rt.alloc(), pairs)?;
        same_at(
            &rt,
            tally(rt.alloc(), &live, entries.as_slice())?,
            answer,
            &numbers,
        );
    }
    Ok(())
}
