//! The nearest documents of segments and a buffer.

ghost use Rattle.std.specs.Prelude.{◌≡◌, ◌≤◌, ◌<◌, ◌+◌, ◌++◌, ℕ, List, [], length, All, IsTrue, OnOk, IfOk};
ghost use Rattle.std.specs.Prelude.{sum_by};
ghost use Rattle.std.specs.List.{range_with_len};
ghost use Rattle.point_codec.specs.Points.{Item};
ghost use Rattle.point_codec.specs.Seen.{items_of};
ghost use Rattle.point_codec.specs.declared.entries.Near.{Near};
ghost use Rattle.inner_pack.specs.Trees.{IndexTree};
ghost use Rattle.page_cache.specs.Cache.{Agrees};
ghost use Rattle.page_cache.specs.Evidence.{OnDamage, NotDamaged};
ghost use Rattle.page_cache.specs.Reading.{ReadsMarking, ReadsNothing};
ghost use Rattle.segment_file.specs.Damages.{IsLeafDamageOf};
ghost use Rattle.documents.specs.NearestEntries.{IsNearest, nears_of};
ghost use Rattle.nearest_query.specs.Dead.{MayPass, MarksDead};
ghost use Rattle.nearest_query.specs.Segments.{AreLeavesKept, AreSegments, AreNearLeaves, HasId, HaveTrees};
ghost use Rattle.nearest_query.specs.Segments.{IsSegmentDamage, bound_of, live_in};
ghost use Rattle.nearest_query.specs.Found.{IsFound};
ghost use Rattle.nearest_query.specs.Fronts.{leaf_sum, sum_below};
ghost use Rattle.nearest_query.specs.Search.{World, AreInside, IsNodeBelow, IsNode, HasRoots, head_at, live_at};
ghost use Rattle.nearest_query.specs.Search.{sum_of_live};

use crate::answer::Nearest;
use crate::candidates::Candidates;
use crate::frontier::Frontier;
use crate::leaves::offer_all;
use crate::search::search;
use crate::survey::survey_dead;
use live_bits::LiveBits;
use outer_io::Pages;
use page_cache::{PageCache, PageFault};
use point_codec::{Entry, Near, Point};
use segment_file::SegmentHead;
use std::alloc::{AllocError, Global};

/// The `k` numbers that are nearest to a point among the live entries of the segments and those of the buffer, the
/// nearest first, each with the least squared distance of its entries: all numbers, where there are fewer than `k`.
/// Of equally near ones the smaller comes first. `k` is 1 to 10,000. Beside them it tells how many leaves have a cell
/// as near as the last number found.
///
/// Leaves are read by way of the cache, and only those whose cell is as near as the last number found, of segments that
/// have a live number. It answers a damage of a leaf that it had to read, Failed and Memory; a cache keeps nothing new
/// then but pages of these segments.
///
/// Where the live sets are watched over (`watched`), the cache remembers which leaves have no live entry, and these are
/// passed over: the caller sees to it then that no number becomes live again while pages of its segment may be kept.
pub fn nearest<const D: usize, F: Pages>(
    alloc: Global,
    heads: &[SegmentHead<D>],
    lives: &[LiveBits],
    buffer: &[Entry<D>],
    cache: &mut PageCache,
    folder: &mut F,
    at: &Point<D>,
    k: u16,
    watched: bool,
) -> Result<Nearest, PageFault>
    requires lives { length lives.now ≡ length heads.now }
    requires some { 1 ≤ k }
    requires few { k ≤ 10000 }
    // no leaf that the cache knows to be dead has an entry that is live
    requires passes { IsTrue watched → MayPass D cache.old heads.now lives.now }
    ensures marks { MarksDead D watched heads.now lives.now cache.old cache.new }
    ensures answer { IsTrue F.told → Agrees (F.files folder.old) cache.old → (contents : ℕ → List Item)
        → AreSegments D (F.files folder.old) contents heads.now
        → IfOk result (IsFound D k at.now.c heads.now
        (live_in contents heads.now lives.now ++ items_of buffer.now)) }
    ensures reads { IsTrue F.told → Agrees (F.files folder.old) cache.old → (contents : ℕ → List Item)
        → AreSegments D (F.files folder.old) contents heads.now
        → (found : List Near)
        → IsNearest k (nears_of at.now.c (live_in contents heads.now lives.now ++ items_of buffer.now)) found
        → (leaves : ℕ) → AreNearLeaves D at.now.c (bound_of k found) heads.now leaves
        → F.reads folder.new ≤ F.reads folder.old + leaves }
    // where the page of each leaf is kept nothing is read
    ensures kept { (trees : ℕ → IndexTree) → HaveTrees D heads.now trees → AreLeavesKept cache.old heads.now trees
        → ReadsNothing (F.reads folder.old) (F.reads folder.new) cache.old cache.new result }
    // what a damage shows by what it carries, and of the files; there is none where the files hold the segments
    ensures shown { (trees : ℕ → IndexTree) → HaveTrees D heads.now trees
        → OnDamage result (IsSegmentDamage D heads.now trees) }
    ensures damage { IsTrue F.told → Agrees (F.files folder.old) cache.old
        → OnDamage result (IsLeafDamageOf (F.files folder.old)) }
    ensures whole { IsTrue F.told → Agrees (F.files folder.old) cache.old → (contents : ℕ → List Item)
        → AreSegments D (F.files folder.old) contents heads.now → NotDamaged result }
    ensures reading { ReadsMarking F.told (HasId heads.now) (F.files folder.old) (F.files folder.new)
        cache.old cache.new (F.faults folder.old) (F.faults folder.new) result }
{
    let mut found = Candidates::new(alloc, usize::from(k));
    offer_all(buffer, at, &mut found)?;
    let mut frontier = Frontier::new(alloc);
    push_roots(&mut frontier, heads, lives, at)?;
    let taken = search(
        alloc,
        folder,
        cache,
        heads,
        lives,
        at,
        &mut frontier,
        &mut found,
        watched,
    )?;
    let docs = found.found(alloc)?;
    let touched = survey_dead(taken, heads, lives, at, reach(k, docs.as_slice()))?;
    Ok(Nearest { docs, touched })
}

/// How far a search for so many numbers goes that finds these: as far as the last, and over all where there are fewer.
fn reach(k: u16, found: &[Near]) -> Option<u128>
    ensures { result ≡ bound_of k found.now }
{
    match found.last() {
        Some(last) if found.len() >= usize::from(k) => Some(last.dist2),
        _ => None,
    }
}

/// Lets the root of each segment wait that has a live number.
fn push_roots<'a, const D: usize>(
    frontier: &mut Frontier<'a, D>,
    heads: &'a [SegmentHead<D>],
    lives: &[LiveBits],
    at: &Point<D>,
) -> Result<(), AllocError>
    requires none { frontier.old.waiting ≡ [] }
    requires lives { length lives.now ≡ length heads.now }
    ensures inside { OnOk result (AreInside (length heads.now) 0 frontier.new) }
    ensures parts { (trees : ℕ → IndexTree) → HaveTrees D heads.now trees
        → OnOk result (All (IsNodeBelow heads.now trees frontier.new.nodes) frontier.new.waiting) }
    ensures nodes { (w : World) → HasRoots D w → w.heads ≡ heads.now → w.at ≡ at.now.c
        → OnOk result (All (IsNode D w frontier.new.nodes) frontier.new.waiting) }
    // together they have all that a segment with a live number has, and no more than all segments have
    ensures totals { (w : World) → HasRoots D w → w.heads ≡ heads.now → w.lives ≡ lives.now → (g : ℕ → ℕ → ℕ)
        → ((i n : ℕ) → (live_at w i).live ≡ [] → g i n ≡ 0)
        → OnOk result
        (sum_by (sum_below g) frontier.new.waiting ≡ sum_by (λ i. leaf_sum g i 0 (head_at w i).index.leaves)
        (range_with_len 0 (length heads.now))) }
    ensures live { (w : World) → HasRoots D w → w.heads ≡ heads.now → w.lives ≡ lives.now → (g : ℕ → ℕ → ℕ)
        → OnOk result (sum_by (sum_below g) frontier.new.waiting ≡ sum_of_live w g (length heads.now)) }
    ensures most { (w : World) → HasRoots D w → w.heads ≡ heads.now → (g : ℕ → ℕ → ℕ)
        → OnOk result
        (sum_by (sum_below g) frontier.new.waiting ≤ sum_by (λ i. leaf_sum g i 0 (head_at w i).index.leaves)
        (range_with_len 0 (length heads.now))) }
{
    for i in 0..heads.len() {
        if lives[i].live_count() == 0 {
            continue;
        }
        frontier.push(i, &heads[i].index().walk(), at)?;
    }
    Ok(())
}
