//! Trees built by several threads.

ghost use Rattle.std.specs.Prelude.{◌≡◌, ◌≤◌, ◌^◌, vec_len, IfOk};
ghost use Rattle.bkd_build.specs.Pieces.{AreEntries};

use crate::draws::{coordinate, next};
use bkd_build::{Built, OpenGate, build};
use point_codec::{Entry, Point};
use std::alloc::{AllocError, Global};
use std::marker::Sync;
use std::thread::Threads;

/// The most entries in a leaf of two dimensions.
pub const LEAF: u16 = 333;

/// So many entries at drawn points, with the numbers from 0 on.
#[tactic(auto, using(bkd_build::proofs::Numbered::none_numbered, bkd_build::proofs::Numbered::numbered_push, bkd_build::proofs::Numbered::numbered_entries))]
pub fn drawn(alloc: Global, count: u32) -> Result<Vec<Entry<2>>, AllocError>
    requires some { 1 ≤ count }
    requires few { count ≤ 2 ^ 24 }
    ensures length { IfOk result (λ v. vec_len v ≡ count) }
    ensures entries { IfOk result (λ v. AreEntries v.items) }
{
    let mut draw = 1;
    let mut entries = Vec::new(alloc);
    for doc in 0..count {
        let first = next(draw);
        draw = next(first);
        let point = Point {
            c: [coordinate(first), coordinate(draw)],
        };
        entries.push(Entry { doc, point })?;
    }
    Ok(entries)
}

/// A sum over the bytes of what is built of so many drawn entries, the upper `forks` levels by two threads each;
/// built so many times.
pub fn built<R: Threads + Sync>(
    rt: &R,
    alloc: Global,
    count: u32,
    forks: u8,
    rounds: u32,
) -> Result<u64, AllocError>
    requires some { 1 ≤ count }
    requires few { count ≤ 2 ^ 24 }
{
    let mut sum = 0;
    for _ in 0..rounds {
        let mut entries = drawn(alloc, count)?;
        let built = build(rt, alloc, entries.as_mut_slice(), LEAF, forks, &OpenGate)?;
        sum = sum_of(&built);
    }
    Ok(sum)
}

/// A sum over the bytes of the index and the lengths of the leaves.
fn sum_of(built: &Built<2>) -> u64 {
    let mut sum = 0u64;
    for byte in built.index().body() {
        sum = sum.wrapping_mul(31).wrapping_add(u64::from(*byte));
    }
    for leaf in built.leaves() {
        sum = sum
            .wrapping_mul(31)
            .wrapping_add(leaf.as_slice().len() as u64);
    }
    sum
}
