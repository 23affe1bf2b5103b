//! The documents nearest to a point.

ghost use Rattle.std.specs.Prelude.{◌≤◌, ◌+◌, ◌++◌, ℕ, List, All, Contains, IsTrue, IfOk};
ghost use Rattle.point_codec.specs.declared.entries.Near.{Near};
ghost use Rattle.point_codec.specs.Seen.{items_of};
ghost use Rattle.inner_pack.specs.Trees.{IndexTree};
ghost use Rattle.page_cache.specs.Cache.{Agrees};
ghost use Rattle.page_cache.specs.Evidence.{OnDamage, NotDamaged};
ghost use Rattle.page_cache.specs.Reading.{ReadsMarking, ReadsNothing};
ghost use Rattle.segment_file.specs.Heads.{IsHead};
ghost use Rattle.segment_file.specs.Damages.{IsLeafDamageOf};
ghost use Rattle.documents.specs.NearestEntries.{IsNearest, nears_of};
ghost use Rattle.nearest_query.specs.Segments.{AreLeavesKept, AreNearLeaves, HaveTrees, bound_of};
ghost use Rattle.nearest_query.specs.Found.{IsFound};
ghost use Rattle.segment_view.specs.LiveSegments.{Contents, AreRead, heads_of, ids_of, live_in_parts};
ghost use Rattle.segment_view.specs.Unhidden.{HidesNoneOf, MarksDeadOf};
ghost use Rattle.segment_view.specs.Damages.{IsPartDamage};

use crate::segments::Segments;
use nearest_query::Nearest;
use outer_io::Pages;
use page_cache::{PageCache, PageFault};
use point_codec::{Entry, Point};
use segment_file::SegmentHead;
use std::alloc::Global;

/// The `k` numbers that are nearest to a point among the live entries of the segments and those of the buffer, the
/// nearest first, each with the least squared distance of its entries: all numbers, where there are fewer than `k`.
/// Of equally near ones the smaller comes first. `k` is 1 to 10,000. Beside them it tells how many leaves have a cell
/// as near as the last number found.
///
/// Only leaves whose cell is as near as the last number found are read. The answer may be a damage of a leaf that had
/// to be read, Failed and Memory.
///
/// Where the live sets are watched over (`watched`) the cache remembers which leaves have no live entry, and these are
/// passed over: the caller sees to it then that no number becomes live again while pages of its segment may be kept.
pub fn nearest<const D: usize, F: Pages>(
    alloc: Global,
    segments: &Segments<D>,
    buffer: &[Entry<D>],
    cache: &mut PageCache,
    folder: &mut F,
    at: &Point<D>,
    k: u16,
    watched: bool,
) -> Result<Nearest, PageFault>
    requires some { 1 ≤ k }
    requires few { k ≤ 10000 }
    // no leaf that the cache knows to be dead has an entry that is live
    requires hides { IsTrue watched → All (HidesNoneOf D cache.old) segments.now }
    ensures marks { MarksDeadOf D watched segments.now cache.old cache.new }
    ensures answer { IsTrue F.told → Agrees (F.files folder.old) cache.old → (c : Contents)
        → AreRead D (F.files folder.old) c segments.now
        → IfOk result (IsFound D k at.now.c (heads_of segments.now)
        (live_in_parts c segments.now ++ items_of buffer.now)) }
    ensures reads { IsTrue F.told → Agrees (F.files folder.old) cache.old → (c : Contents)
        → AreRead D (F.files folder.old) c segments.now
        → (found : List Near)
        → IsNearest k (nears_of at.now.c (live_in_parts c segments.now ++ items_of buffer.now)) found
        → (leaves : ℕ) → AreNearLeaves D at.now.c (bound_of k found) (heads_of segments.now) leaves
        → F.reads folder.new ≤ F.reads folder.old + leaves }
    // where the page of each leaf is kept nothing is read
    ensures kept { (trees : ℕ → IndexTree) → HaveTrees D (heads_of segments.now) trees
        → AreLeavesKept cache.old (heads_of segments.now) trees
        → ReadsNothing (F.reads folder.old) (F.reads folder.new) cache.old cache.new result }
    ensures reading { ReadsMarking F.told (Contains (ids_of segments.now)) (F.files folder.old) (F.files folder.new)
        cache.old cache.new (F.faults folder.old) (F.faults folder.new) result }
    // What a damage says.
    ensures shown { OnDamage result (IsPartDamage D segments.now) }
    ensures damage { IsTrue F.told → Agrees (F.files folder.old) cache.old
        → OnDamage result (IsLeafDamageOf (F.files folder.old)) }
    ensures whole { IsTrue F.told → Agrees (F.files folder.old) cache.old → (c : Contents)
        → AreRead D (F.files folder.old) c segments.now → NotDamaged result }
{
    have_trees(segments.heads());
    nearest_query::nearest(
        alloc,
        segments.heads(),
        segments.lives(),
        buffer,
        cache,
        folder,
        at,
        k,
        watched,
    )
}

/// The index of each head spells a tree: said for proofs, nothing is done.
fn have_trees<const D: usize>(heads: &[SegmentHead<D>])
    ensures { All (λ h. ∥ IsHead D h ∥₁) heads.now }
{
    for head in heads {
        head.index().is_spelled();
    }
}
