//! The search: waiting nodes are opened, the nearest first, until none can have an entry among the nearest.

ghost use Rattle.std.specs.Prelude.{◌≡◌, ◌≤◌, ◌<◌, ◌+◌, ℕ, List, ◌∷◌, length, All, IsTrue, true, OnOk, sum_by};
ghost use Rattle.std.specs.Prelude.{IfOk, Option};
ghost use Rattle.point_codec.specs.Points.{Region};
ghost use Rattle.point_codec.specs.declared.entries.Near.{Near};
ghost use Rattle.inner_pack.specs.Places.{Spot};
ghost use Rattle.inner_pack.specs.Trees.{IndexTree, leaf_count};
ghost use Rattle.inner_pack.specs.Nodes.{IsAt};
ghost use Rattle.page_cache.specs.Cache.{Agrees};
ghost use Rattle.page_cache.specs.Evidence.{OnDamage, NotDamaged};
ghost use Rattle.page_cache.specs.Reading.{ReadsMarking, ReadsNothing};
ghost use Rattle.segment_file.specs.Damages.{IsLeafDamageOf};
ghost use Rattle.documents.specs.NearestEntries.{IsNearest};
ghost use Rattle.nearest_query.specs.Best.{found_of};
ghost use Rattle.nearest_query.specs.Dead.{MayPass, MarksDead};
ghost use Rattle.nearest_query.specs.Segments.{AreLeavesKept, HasId, IsSegmentDamage, is_within, bound_of};
ghost use Rattle.nearest_query.specs.Fronts.{Front, IsOpened, IsWaiting, leaf_sum, one_leaf, sum_below, work};
ghost use Rattle.nearest_query.specs.Search.{World, AreInside, IsOver, IsInside, IsNodeBelow, IsNode, IsSought};
ghost use Rattle.nearest_query.specs.Search.{one_within};

use crate::candidates::Candidates;
use crate::frontier::{Frontier, Waiting};
use crate::leaves::open_leaf;
use inner_pack::NodeAt;
use live_bits::LiveBits;
use outer_io::Pages;
use page_cache::{PageCache, PageFault};
use point_codec::Point;
use segment_file::SegmentHead;
use std::alloc::{AllocError, Global};

/// Lets both children of a node wait.
fn fork<'a, const D: usize>(
    frontier: &mut Frontier<'a, D>,
    segment: usize,
    left: &NodeAt<'a, D>,
    right: &NodeAt<'a, D>,
    at: &Point<D>,
) -> Result<(), AllocError>
    ensures put { OnOk result
        ((mid : Front D) × IsWaiting at.now.c segment left.now frontier.old mid
        × IsWaiting at.now.c segment right.now mid frontier.new) }
    ensures counted { (first : ℕ) (s : Spot) (path : Region) (t : IndexTree) → IsAt left.now first s path t
        → left.now.leaves ≡ leaf_count t }
    ensures most { (g : ℕ → ℕ → ℕ) → sum_by (sum_below g) frontier.new.waiting
        ≤ leaf_sum g segment left.now.first left.now.leaves + leaf_sum g segment right.now.first right.now.leaves +
        sum_by
        (sum_below g) frontier.old.waiting }
{
    frontier.push(segment, left, at)?;
    frontier.push(segment, right, at)?;
    Ok(())
}

/// Opens a node that was taken out: its children wait then, and the entries of a leaf are offered to the candidates.
fn open<'a, const D: usize, F: Pages>(
    alloc: Global,
    folder: &mut F,
    cache: &mut PageCache,
    heads: &'a [SegmentHead<D>],
    lives: &[LiveBits],
    at: &Point<D>,
    next: Waiting,
    frontier: &mut Frontier<'a, D>,
    found: &mut Candidates,
    watched: bool,
) -> Result<(), PageFault>
    requires lives { length lives.now ≡ length heads.now }
    requires passes { IsTrue watched → MayPass D cache.old heads.now lives.now }
    requires inside { IsInside (length heads.now) frontier.old.nodes next }
    ensures marks { MarksDead D watched heads.now lives.now cache.old cache.new }
    ensures reading { ReadsMarking F.told (HasId heads.now) (F.files folder.old) (F.files folder.new)
        cache.old cache.new (F.faults folder.old) (F.faults folder.new) result }
    ensures room { found.new.many.room ≡ found.old.many.room }
    ensures work { OnOk result (sum_by work frontier.new.waiting < work next + sum_by work frontier.old.waiting) }
    ensures inside { (taken : ℕ) → AreInside (length heads.now) (taken + 1) frontier.old
        → OnOk result (AreInside (length heads.now) (taken + one_leaf next) frontier.new) }
    ensures sought { IsTrue F.told → Agrees (F.files folder.old) cache.old → (w : World) (all : List Near)
        → IsOver w at.now.c heads.now lives.now (F.files folder.old)
        → IsSought D w all (next ∷ frontier.old.waiting) frontier.old.nodes found.old
        → OnOk result (IsSought D w all frontier.new.waiting frontier.new.nodes found.new) }
    ensures opened { (w : World) (bound : Option ℕ) → IsNode D w frontier.old.nodes next → w.at ≡ at.now.c
        → is_within bound next.dist2.0 ≡ true
        → IsOpened (one_within w bound) next frontier.old.waiting frontier.new.waiting (F.reads folder.old)
        (F.reads folder.new) result }
    ensures kept { (trees : ℕ → IndexTree) → IsNodeBelow heads.now trees frontier.old.nodes next
        → AreLeavesKept cache.old heads.now trees
        → ReadsNothing (F.reads folder.old) (F.reads folder.new) cache.old cache.new result }
    ensures damage { IsTrue F.told → Agrees (F.files folder.old) cache.old
        → OnDamage result (IsLeafDamageOf (F.files folder.old)) }
    ensures parts { (trees : ℕ → IndexTree)
        → All (IsNodeBelow heads.now trees frontier.old.nodes) (next ∷ frontier.old.waiting)
        → OnOk result (All (IsNodeBelow heads.now trees frontier.new.nodes) frontier.new.waiting) }
    ensures shown { (trees : ℕ → IndexTree) → IsNodeBelow heads.now trees frontier.old.nodes next
        → OnDamage result (IsSegmentDamage D heads.now trees) }
    ensures whole { IsTrue F.told → Agrees (F.files folder.old) cache.old → (w : World)
        → IsOver w at.now.c heads.now lives.now (F.files folder.old)
        → IsNode D w frontier.old.nodes next → NotDamaged result }
{
    match frontier.node(next.place).children() {
        Some((left, right)) => Ok(fork(frontier, next.segment, &left, &right, at)?),
        None => open_leaf(
            alloc,
            folder,
            cache,
            &heads[next.segment],
            &lives[next.segment],
            frontier.node(next.place),
            at,
            found,
            watched,
        ),
    }
}

/// Opens nodes, the nearest first, until no node can have an entry that is among the nearest. It answers how many
/// leaves it took out: those whose cell is as near as the last number found, also where they are known to be dead.
pub fn search<'a, const D: usize, F: Pages>(
    alloc: Global,
    folder: &mut F,
    cache: &mut PageCache,
    heads: &'a [SegmentHead<D>],
    lives: &[LiveBits],
    at: &Point<D>,
    frontier: &mut Frontier<'a, D>,
    found: &mut Candidates,
    watched: bool,
) -> Result<u64, PageFault>
    requires lives { length lives.now ≡ length heads.now }
    requires passes { IsTrue watched → MayPass D cache.old heads.now lives.now }
    requires inside { AreInside (length heads.now) 0 frontier.old }
    ensures marks { MarksDead D watched heads.now lives.now cache.old cache.new }
    ensures reading { ReadsMarking F.told (HasId heads.now) (F.files folder.old) (F.files folder.new)
        cache.old cache.new (F.faults folder.old) (F.faults folder.new) result }
    ensures answer { IsTrue F.told → Agrees (F.files folder.old) cache.old → (w : World) (all : List Near)
        → IsOver w at.now.c heads.now lives.now (F.files folder.old)
        → IsSought D w all frontier.old.waiting frontier.old.nodes found.old
        → OnOk result (IsNearest found.old.many.room all (found_of found.new)) }
    ensures reads { IsTrue F.told → Agrees (F.files folder.old) cache.old → (w : World) (all nearest : List Near)
        → IsOver w at.now.c heads.now lives.now (F.files folder.old)
        → IsSought D w all frontier.old.waiting frontier.old.nodes found.old → IsNearest found.old.many.room all nearest
        → F.reads folder.new ≤ F.reads folder.old + sum_by
        (sum_below (one_within w (bound_of found.old.many.room nearest))) frontier.old.waiting }
    ensures touched { IsTrue F.told → Agrees (F.files folder.old) cache.old → (w : World) (all : List Near)
        → IsOver w at.now.c heads.now lives.now (F.files folder.old)
        → IsSought D w all frontier.old.waiting frontier.old.nodes found.old
        → IfOk result (λ n. n ≡ sum_by
        (sum_below (one_within w (bound_of found.old.many.room (found_of found.new)))) frontier.old.waiting) }
    ensures kept { (trees : ℕ → IndexTree) → All (IsNodeBelow heads.now trees frontier.old.nodes) frontier.old.waiting
        → AreLeavesKept cache.old heads.now trees
        → ReadsNothing (F.reads folder.old) (F.reads folder.new) cache.old cache.new result }
    ensures damage { IsTrue F.told → Agrees (F.files folder.old) cache.old
        → OnDamage result (IsLeafDamageOf (F.files folder.old)) }
    ensures shown { (trees : ℕ → IndexTree) → All (IsNodeBelow heads.now trees frontier.old.nodes) frontier.old.waiting
        → OnDamage result (IsSegmentDamage D heads.now trees) }
    ensures whole { IsTrue F.told → Agrees (F.files folder.old) cache.old → (w : World) (all : List Near)
        → IsOver w at.now.c heads.now lives.now (F.files folder.old)
        → IsSought D w all frontier.old.waiting frontier.old.nodes found.old → NotDamaged result }
{
    let mut taken = 0;
    while let Some(next) = frontier.pop() {
        if found.ends_before(next.dist2.0) {
            return Ok(taken);
        }
        open(
            alloc, folder, cache, heads, lives, at, next, frontier, found, watched,
        )?;
        taken += one_leaf(next);
    }
    Ok(taken)
}

/// 1 for a leaf, and 0 for another node.
fn one_leaf(next: Waiting) -> u64
    ensures { result ≡ one_leaf next }
{
    if next.leaves == 1 { 1 } else { 0 }
}
