//! Trees against bytes that were computed by hand, and built by several threads.

ghost use Rattle.std.specs.Prelude.{◌≡◌, ◌≤◌, ◌<◌, ◌^◌, length, vec_len, All, IfOk};
ghost use Rattle.point_codec.specs.Seen.{items_of};
ghost use Rattle.leaf_codec.specs.LeafOrder.{NoneTwice};
ghost use Rattle.bkd_build.specs.Pieces.{AreEntries};

use crate::asserts::{holds, holds_at, same, same_at};
use crate::samples::{FIRST, OWN, SECOND, THIRD, entry};
use bkd_build::{Built, Gate, OpenGate, build};
use byte_cursor::Memory;
use point_codec::Entry;
use std::alloc::Global;
use std::marker::Sync;
use std::process::Abort;
use std::sync::atomic::{AtomicU64, Ordering};
use std::test::Fail;
use std::thread::Threads;

/// The leaves of five entries at 5, 7, 7, 7 and 7, two in each.
const LEAVES: [&[u8]; 3] = [&FIRST, &SECOND, &THIRD];

/// The index of one entry at 5.
const ONE_BODY: [u8; 17] = [
    0x80, 0, 0, 5, 0x80, 0, 0, 5, 9, 0x80, 0, 0, 5, 0x80, 0, 0, 5,
];
/// The root cell and the root's head, where three points lie on the diagonal of a square: it is split in dimension 0.
const SQUARE_HEAD: [u8; 18] = [
    0x80, 0, 0, 0, 0x80, 0, 0, 0, 0x80, 0, 0, 2, 0x80, 0, 0, 2, 3, 2,
];
/// How many entries are drawn.
const DRAWN: u32 = 5_000;
/// How often a gate looks for the other half.
const TURNS: u32 = 200_000_000;

/// What is built in one thread.
fn alone<const D: usize, R: Threads + Sync>(
    rt: &R,
    alloc: Global,
    entries: &mut [Entry<D>],
) -> Result<Built<D>, Memory>
    requires dims { (1 ≤ D) × (D ≤ 8) }
    requires some { 1 ≤ length entries.old }
    requires few { length entries.old ≤ 16 }
    requires numbers { All (λ e. e.doc < 2 ^ 24) entries.old }
    requires once { NoneTwice (items_of entries.old) }
{
    build(rt, alloc, entries, 2, 0, &OpenGate)
}

#[test]
fn five(rt: HostRuntime) -> Result<(), Fail> {
    let mut entries = [
        entry(4, [7]),
        entry(3, [7]),
        entry(2, [7]),
        entry(1, [7]),
        entry(0, [5]),
    ];
    let built = alone(&rt, rt.alloc(), &mut entries)?;
    same(&rt, built.index().body(), OWN.as_slice());
    same(&rt, built.leaves().len(), 3);
    for (bytes, expected) in built.leaves().iter().zip(LEAVES.as_slice()) {
        same(&rt, bytes.as_slice(), *expected);
    }
    Ok(())
}

#[test]
fn one(rt: HostRuntime) -> Result<(), Fail> {
    let built = alone(&rt, rt.alloc(), &mut [entry(0, [5])])?;
    same(&rt, built.index().body(), ONE_BODY.as_slice());
    same(&rt, built.leaves().len(), 1);
    Ok(())
}

#[test]
fn equal_extents(rt: HostRuntime) -> Result<(), Fail> {
    let mut entries = [entry(0, [0, 0]), entry(1, [1, 1]), entry(2, [2, 2])];
    let built = alone(&rt, rt.alloc(), &mut entries)?;
    let (index, _leaves) = built.into_parts();
    assert!(rt; index.body().len() > 18);
    same(&rt, &index.body()[..18], SQUARE_HEAD.as_slice());
    Ok(())
}

/// The next draw of the minimal standard generator of Park and Miller.
fn next(draw: u64) -> u64 {
    (draw % 2_147_483_647).wrapping_mul(48_271) % 2_147_483_647
}

/// A coordinate from -100,000 to 100,000.
fn coordinate(draw: u64) -> i32 {
    i32::try_from(draw % 200_001)
        .unwrap_or(0)
        .saturating_sub(100_000)
}

/// So many entries at drawn points, with the numbers from 0 on.
#[tactic(auto, using(bkd_build::proofs::Numbered::none_numbered, bkd_build::proofs::Numbered::numbered_push, bkd_build::proofs::Numbered::numbered_entries))]
fn drawn(alloc: Global, count: u32) -> Result<Vec<Entry<2>>, Memory>
    requires some { 1 ≤ count }
    requires few { count ≤ 2 ^ 24 }
    ensures length { IfOk result (λ v. vec_len v ≡ count) }
    ensures entries { IfOk result (λ v. AreEntries v.items) }
{
    let mut draw = 1;
    let mut entries = Vec::new(alloc);
    for doc in 0..count {
        let first = next(draw);
        draw = next(first);
        entries.push(entry(doc, [coordinate(first), coordinate(draw)]))?;
    }
    Ok(entries)
}

/// What is built of the drawn entries.
fn built<R: Threads + Sync>(
    rt: &R,
    alloc: Global,
    leaf_size: u16,
    forks: u8,
) -> Result<Built<2>, Memory>
    requires { (2 ≤ leaf_size) × (leaf_size ≤ 333) }
{
    let mut entries = drawn(alloc, DRAWN)?;
    build(
        rt,
        alloc,
        entries.as_mut_slice(),
        leaf_size,
        forks,
        &OpenGate,
    )
}

/// Whether the bytes are the same.
fn are_same(a: &Built<2>, b: &Built<2>) -> bool {
    if a.index().body() != b.index().body() || a.leaves().len() != b.leaves().len() {
        return false;
    }
    for (x, y) in a.leaves().iter().zip(b.leaves()) {
        if x.as_slice() != y.as_slice() {
            return false;
        }
    }
    true
}

/// Whether the same is built with so many forks.
fn is_built_again<R: Threads + Sync>(
    rt: &R,
    alloc: Global,
    leaf_size: u16,
    forks: u8,
    whole: &Built<2>,
) -> Result<bool, Memory>
    requires { (2 ≤ leaf_size) × (leaf_size ≤ 333) }
{
    let again = built(rt, alloc, leaf_size, forks)?;
    Ok(are_same(whole, &again))
}

/// What is built in leaves of this size is built with each number of forks.
fn forks_leave<R: Threads + Sync + Abort>(rt: &R, alloc: Global, leaf_size: u16) -> Result<(), Fail>
    requires { (2 ≤ leaf_size) × (leaf_size ≤ 333) }
{
    let whole = built(rt, alloc, leaf_size, 0)?;
    for forks in 1..7 {
        let again = is_built_again(rt, alloc, leaf_size, forks, &whole)?;
        holds_at(rt, again, &forks);
    }
    Ok(())
}

#[test]
fn forks_make_no_difference(rt: HostRuntime) -> Result<(), Fail> {
    forks_leave(&rt, rt.alloc(), 2)?;
    forks_leave(&rt, rt.alloc(), 333)
}

/// A gate that waits a while for the other half.
#[derive(Drop)]
struct Meeting {
    came: [AtomicU64; 2],
    met: [AtomicU64; 2],
}

impl Gate for Meeting {
    fn pass(&self, piece: u32) {
        let (own, other) = if piece == 0 { (0, 1) } else { (1, 0) };
        self.came[own].store(1, Ordering::SeqCst);
        for _ in 0..TURNS {
            if self.came[other].load(Ordering::SeqCst) == 1 {
                self.met[own].store(1, Ordering::SeqCst);
                return;
            }
        }
    }
}

/// Whether both halves of four entries met at the gate.
fn meet<R: Threads + Sync>(rt: &R, alloc: Global, gate: &Meeting) -> Result<bool, Memory> {
    let mut entries = drawn(alloc, 4)?;
    let _built = build(rt, alloc, entries.as_mut_slice(), 2, 1, gate)?;
    let left = gate.met[0].load(Ordering::SeqCst);
    let right = gate.met[1].load(Ordering::SeqCst);
    Ok(left == 1 && right == 1)
}

#[test]
fn halves_run_beside_each_other(rt: HostRuntime) -> Result<(), Fail> {
    let gate = Meeting {
        came: [AtomicU64::new(0), AtomicU64::new(0)],
        met: [AtomicU64::new(0), AtomicU64::new(0)],
    };
    holds(&rt, meet(&rt, rt.alloc(), &gate)?);
    Ok(())
}

/// Counts how often each half passes.
#[derive(Drop)]
struct Counting {
    passes: [AtomicU64; 2],
}

impl Gate for Counting {
    fn pass(&self, piece: u32) {
        let own = if piece == 0 { 0 } else { 1 };
        self.passes[own].fetch_add(1, Ordering::SeqCst);
    }
}

/// How many drawn entries, two in a leaf, how many levels are forked, and how many inner nodes stand on these levels:
/// of each the left half passes once, and the right one once.
const FORKED: [(u32, u8, u64); 10] = [
    // trees of one leaf and of two
    (2, 3, 0),
    (4, 0, 0),
    (4, 1, 1),
    // two leaves on each side of the root
    (8, 1, 1),
    (8, 2, 3),
    (8, 3, 3),
    // two and one; three and two; four and three
    (6, 2, 2),
    (10, 2, 3),
    (10, 3, 4),
    (14, 3, 6),
];

/// How often the left halves passed, and how often the right ones. Of no entries, or too many, nothing is built.
fn passes<R: Threads + Sync>(
    rt: &R,
    alloc: Global,
    count: u32,
    forks: u8,
) -> Result<(u64, u64), Memory> {
    if count == 0 || count > 1 << 24 {
        return Ok((0, 0));
    }
    let gate = Counting {
        passes: [AtomicU64::new(0), AtomicU64::new(0)],
    };
    let mut entries = drawn(alloc, count)?;
    let _built = build(rt, alloc, entries.as_mut_slice(), 2, forks, &gate)?;
    let left = gate.passes[0].load(Ordering::SeqCst);
    let right = gate.passes[1].load(Ordering::SeqCst);
    Ok((left, right))
}

#[test]
fn both_halves_fork_deeper(rt: HostRuntime) -> Result<(), Fail> {
    for (count, forks, nodes) in FORKED {
        same_at(
            &rt,
            passes(&rt, rt.alloc(), count, forks)?,
            (nodes, nodes),
            &(count, forks),
        );
    }
    Ok(())
}
