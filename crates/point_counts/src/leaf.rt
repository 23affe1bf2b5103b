//! The counts of one leaf.

ghost use Rattle.std.specs.Prelude.{◌≡◌, ◌≤◌, ◌+◌, ◌==◌, if◌then◌else◌, ℕ, List, IsTrue, OnOk, All};
ghost use Rattle.std.specs.Prelude.{length, take, true};
ghost use Rattle.outer_io.specs.Files.{bytes_of};
ghost use Rattle.outer_io.specs.declared.file_name.FileName.TheVariants.{Segment};
ghost use Rattle.point_codec.specs.Points.{Item, Region, in_box};
ghost use Rattle.point_codec.specs.Seen.{region_of};
ghost use Rattle.live_bits.specs.LiveSet.{is_live};
ghost use Rattle.inner_pack.specs.Places.{Spot};
ghost use Rattle.inner_pack.specs.Trees.{IndexTree};
ghost use Rattle.inner_pack.specs.Nodes.{IsAt};
ghost use Rattle.page_cache.specs.Cache.{Agrees};
ghost use Rattle.page_cache.specs.Evidence.{OnDamage, NotDamaged};
ghost use Rattle.page_cache.specs.Reading.{ReadsCached};
ghost use Rattle.segment_file.specs.Segments.{HoldsTree};
ghost use Rattle.segment_file.specs.Damages.{IsLeafDamage, IsLeafDamageOf};
ghost use Rattle.point_counts.specs.Tables.{AddsCounts, RaisesCounts, live_at};

use crate::runs::count_runs;
use crate::sorting::Sorting;
use inner_pack::NodeAt;
use leaf_codec::LeafView;
use live_bits::LiveBits;
use outer_io::Pages;
use page_cache::{PageCache, PageFault};
use point_codec::Cell;
use segment_file::{SegmentHead, bad_leaf, leaf_in, load_leaf};
use std::alloc::Global;

/// Counts the live entries of a leaf, each at its place.
pub(crate) fn count_leaf<const D: usize, S: Sorting<D>, F: Pages>(
    alloc: Global,
    head: &SegmentHead<D>,
    node: &NodeAt<'_, D>,
    cache: &mut PageCache,
    folder: &mut F,
    sorting: &S,
    live: &LiveBits,
    clean: bool,
    table: &mut [u64],
) -> Result<(), PageFault>
    requires leaf { node.now.leaves ≡ 1 }
    ensures counts { IsTrue F.told → Agrees (F.files folder.old) cache.old
        → (first : ℕ) (s : Spot) (path : Region) (t : IndexTree) (items : List Item) → IsAt node.now first s path t
        → HoldsTree D (bytes_of (F.files folder.old (Segment head.now.id))) head.now first s t items
        → (clean ≡ true → All (λ e. is_live live.now e.doc ≡ true) items)
        → OnOk result
        (AddsCounts (live_at (S.bounds sorting.now) (S.place sorting.now) live.now items) table.old table.new) }
    ensures reads { F.reads folder.new ≤ F.reads folder.old + 1 }
    ensures reading { ReadsCached F.told (λ i. i ≡ head.now.id) (F.files folder.old) (F.files folder.new)
        cache.old cache.new (F.faults folder.old) (F.faults folder.new) result }
    ensures shown { (first : ℕ) (s : Spot) (path : Region) (t : IndexTree) → IsAt node.now first s path t
        → OnDamage result (IsLeafDamage D head.now first s t) }
    ensures damage { IsTrue F.told → Agrees (F.files folder.old) cache.old
        → OnDamage result (IsLeafDamageOf (F.files folder.old)) }
    ensures whole { IsTrue F.told → Agrees (F.files folder.old) cache.old
        → (first : ℕ) (s : Spot) (path : Region) (t : IndexTree) (items : List Item) → IsAt node.now first s path t
        → HoldsTree D (bytes_of (F.files folder.old (Segment head.now.id))) head.now first s t items
        → NotDamaged result }
{
    let place = load_leaf(alloc, folder, cache, head, node)?;
    let Some(leaf) = leaf_in(cache, head, node, place) else {
        return Err(bad_leaf(cache, head, node, place));
    };
    count_live(&leaf, &node.cell(), sorting, live, clean, table);
    Ok(())
}

/// Counts the leaf's live entries, each at its place. Those beyond the box where the leaf ascends are not looked at.
fn count_live<const D: usize, S: Sorting<D>>(
    leaf: &LeafView<'_, D>,
    cell: &Cell<D>,
    sorting: &S,
    live: &LiveBits,
    clean: bool,
    table: &mut [u64],
)
    ensures { All (λ x. in_box (region_of cell.now) x.at ≡ true) leaf.now
        → (clean ≡ true → All (λ x. is_live live.now x.doc ≡ true) leaf.now)
        → AddsCounts (live_at (S.bounds sorting.now) (S.place sorting.now) live.now leaf.now) table.old table.new }
{
    let d = leaf.sorted_dimension();
    let (low, high) = sorting.reach(d);
    let (from, end) = leaf.between(d, &low, &high);
    if end <= from {
        return;
    }
    if clean {
        count_runs(leaf, cell, d, from, end, sorting, table);
        return;
    }
    count_each(leaf, from, end, sorting, live, table);
}

/// Counts the live entries from `from` to `end`, each at its place. Of those outside of the box no number is looked at.
fn count_each<const D: usize, S: Sorting<D>>(
    leaf: &LeafView<'_, D>,
    from: u16,
    end: u16,
    sorting: &S,
    live: &LiveBits,
    table: &mut [u64],
)
    requires order { from ≤ end }
    requires within { end ≤ length leaf.now }
    ensures { RaisesCounts (live_at (S.bounds sorting.now) (S.place sorting.now) live.now (take from leaf.now))
        (live_at (S.bounds sorting.now) (S.place sorting.now) live.now (take end leaf.now)) table.old table.new }
{
    for i in from..end {
        let Some(place) = sorting.place_of(&leaf.point(i)) else {
            continue;
        };
        if !live.is_live(leaf.doc(i)) {
            continue;
        }
        add(table, place, 1);
    }
}

/// Adds to the count at a place, where the table has it.
pub(crate) fn add(table: &mut [u64], place: usize, more: u64)
    ensures { AddsCounts (λ k. if place == k then more else 0) table.old table.new }
{
    if place < table.len() {
        table[place] = table[place].saturating_add(more);
    }
}
