//! The walk over a segment.

ghost use Rattle.std.specs.Prelude.{◌≡◌, ◌≤◌, ◌+◌, ◌-◌, ◌*◌, min, ℕ, List, All, true, false, IsTrue, OnOk};
ghost use Rattle.std.specs.Bool.{OnTrue, OnFalse};
ghost use Rattle.outer_io.specs.Files.{bytes_of};
ghost use Rattle.outer_io.specs.declared.file_name.FileName.TheVariants.{Segment};
ghost use Rattle.point_codec.specs.Points.{Item, Region, in_box};
ghost use Rattle.live_bits.specs.LiveSet.{LiveSet, is_live};
ghost use Rattle.cell_relate.specs.Boxes.{crosses};
ghost use Rattle.cell_relate.specs.Relations.{is_outside};
ghost use Rattle.inner_pack.specs.Places.{Spot};
ghost use Rattle.inner_pack.specs.Trees.{IndexTree, cell_of};
ghost use Rattle.inner_pack.specs.Nodes.{IsAt};
ghost use Rattle.page_cache.specs.Cache.{Agrees};
ghost use Rattle.page_cache.specs.Evidence.{OnDamage, NotDamaged};
ghost use Rattle.page_cache.specs.Reading.{ReadsCached};
ghost use Rattle.segment_file.specs.Segments.{HoldsTree};
ghost use Rattle.segment_file.specs.Damages.{IsLeafDamage, IsLeafDamageOf};
ghost use Rattle.bkd_reader.specs.Below.{IsRoot};
ghost use Rattle.point_counts.specs.Tables.{AddsCounts, live_at};
ghost use Rattle.point_counts.specs.Costs.{opened_below};

use crate::leaf::{add, count_leaf};
use crate::sorting::{Lie, Sorting};
use inner_pack::NodeAt;
use live_bits::LiveBits;
use outer_io::Pages;
use page_cache::{PageCache, PageFault};
use segment_file::SegmentHead;
use std::alloc::Global;

/// Counts the live entries at or below a node, each at its place. In a clean segment, each entry of which is live, only
/// parted leaves are read.
pub(crate) fn count_below<const D: usize, S: Sorting<D>, F: Pages>(
    alloc: Global,
    head: &SegmentHead<D>,
    node: &NodeAt<'_, D>,
    cache: &mut PageCache,
    folder: &mut F,
    sorting: &S,
    live: &LiveBits,
    clean: bool,
    table: &mut [u64],
) -> Result<(), PageFault>
    ensures counts { IsTrue F.told → Agrees (F.files folder.old) cache.old
        → (first : ℕ) (s : Spot) (path : Region) (t : IndexTree) (items : List Item) → IsRoot node.now first s path t
        → HoldsTree D (bytes_of (F.files folder.old (Segment head.now.id))) head.now first s t items
        → (clean ≡ true → All (λ e. is_live live.now e.doc ≡ true) items)
        → OnOk result
        (AddsCounts (live_at (S.bounds sorting.now) (S.place sorting.now) live.now items) table.old table.new) }
    ensures reads { (first : ℕ) (s : Spot) (path : Region) (t : IndexTree) → IsRoot node.now first s path t
        → F.reads folder.new ≤ F.reads folder.old + opened_below clean (S.bounds sorting.now) (S.parts sorting.now) t }
    ensures reading { ReadsCached F.told (λ i. i ≡ head.now.id) (F.files folder.old) (F.files folder.new)
        cache.old cache.new (F.faults folder.old) (F.faults folder.new) result }
    ensures shown { (first : ℕ) (s : Spot) (path : Region) (t : IndexTree) → IsAt node.now first s path t
        → OnDamage result (IsLeafDamage D head.now first s t) }
    ensures damage { IsTrue F.told → Agrees (F.files folder.old) cache.old
        → OnDamage result (IsLeafDamageOf (F.files folder.old)) }
    ensures whole { IsTrue F.told → Agrees (F.files folder.old) cache.old
        → (first : ℕ) (s : Spot) (path : Region) (t : IndexTree) (items : List Item) → IsAt node.now first s path t
        → HoldsTree D (bytes_of (F.files folder.old (Segment head.now.id))) head.now first s t items
        → NotDamaged result }
{
    if is_settled(head, node, sorting, clean, table) {
        return Ok(());
    }
    match node.children() {
        Some((left, right)) => {
            count_below(
                alloc, head, &left, cache, folder, sorting, live, clean, table,
            )?;
            count_below(
                alloc, head, &right, cache, folder, sorting, live, clean, table,
            )
        }
        None => count_leaf(
            alloc, head, node, cache, folder, sorting, live, clean, table,
        ),
    }
}

/// Whether the entries at or below a node are counted without a look at them: none, or in a clean segment all at one
/// place. They are counted then.
fn is_settled<const D: usize, S: Sorting<D>>(
    head: &SegmentHead<D>,
    node: &NodeAt<'_, D>,
    sorting: &S,
    clean: bool,
    table: &mut [u64],
) -> bool
    ensures counts { (first : ℕ) (s : Spot) (path : Region) (t : IndexTree) (bytes : List ℕ) (items : List Item)
        → IsRoot node.now first s path t
        → HoldsTree D bytes head.now first s t items → (live : LiveSet)
        → (clean ≡ true → All (λ e. is_live live e.doc ≡ true) items)
        → OnTrue result
        (AddsCounts (live_at (S.bounds sorting.now) (S.place sorting.now) live items) table.old table.new) }
    ensures stays { OnFalse result (table.new ≡ table.old) }
    ensures parted { OnFalse result (clean ≡ true → (first : ℕ) (s : Spot) (path : Region) (t : IndexTree)
        → IsAt node.now first s path t → S.parts sorting.now (cell_of path t) ≡ true) }
    ensures touched { OnFalse result ((first : ℕ) (s : Spot) (path : Region) (t : IndexTree)
        → IsAt node.now first s path t
        → is_outside (in_box (S.bounds sorting.now)) (crosses (S.bounds sorting.now)) (cell_of path t) ≡ false) }
{
    match sorting.lie_of(&node.cell()) {
        Lie::Outside => true,
        Lie::At(place) => {
            if !clean {
                return false;
            }
            add(table, place, entries_below(head, node));
            true
        }
        Lie::Parted => false,
    }
}

/// How many entries there are at or below the node: all leaves are full but the last one of all.
fn entries_below<const D: usize>(head: &SegmentHead<D>, node: &NodeAt<'_, D>) -> u64
    ensures { result ≡ min (node.now.leaves * head.now.leaf_size)
        (head.now.entries - node.now.first * head.now.leaf_size) }
{
    let size = u64::from(head.leaf_size());
    let before = u64::from(node.first_leaf()) * size;
    let left = u64::from(head.entries()).saturating_sub(before);
    left.min(u64::from(node.leaf_count()) * size)
}
