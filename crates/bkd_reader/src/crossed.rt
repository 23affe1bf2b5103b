//! A leaf whose cell the shape crosses.

ghost use Rattle.std.specs.Prelude.{◌≡◌, ◌≤◌, ◌+◌, ◌++◌, ℕ, List, length, take, drop, All, true, false};
ghost use Rattle.std.specs.Prelude.{IsTrue, IfOk, OnOk};
ghost use Rattle.outer_io.specs.Files.{bytes_of};
ghost use Rattle.outer_io.specs.declared.file_name.FileName.TheVariants.{Segment};
ghost use Rattle.point_codec.specs.Points.{Item, Region};
ghost use Rattle.inner_pack.specs.Places.{Spot};
ghost use Rattle.inner_pack.specs.Trees.{IndexTree, cell_of};
ghost use Rattle.inner_pack.specs.Nodes.{IsAt};
ghost use Rattle.cell_relate.specs.Relations.{KeepsShape};
ghost use Rattle.page_cache.specs.Cache.{Agrees};
ghost use Rattle.page_cache.specs.Evidence.{OnDamage, NotDamaged};
ghost use Rattle.page_cache.specs.Reading.{ReadsCached};
ghost use Rattle.segment_file.specs.Heads.{count_of};
ghost use Rattle.segment_file.specs.Segments.{HoldsTree};
ghost use Rattle.segment_file.specs.Damages.{IsLeafDamage, IsLeafDamageOf};
ghost use Rattle.bkd_reader.specs.Counts.{CountsLeaf, tested_entries};
ghost use Rattle.bkd_reader.specs.Hits.{AreHits, Appends, Begins, hits_in};
ghost use Rattle.bkd_reader.specs.Unread.{ReadsLeaf};

use crate::costs::entries_of;
use crate::walk::Cost;
use cell_relate::Shape;
use inner_pack::NodeAt;
use leaf_codec::LeafView;
use live_bits::LiveBits;
use outer_io::Pages;
use page_cache::{PageCache, PageFault};
use segment_file::{SegmentHead, bad_leaf, leaf_in, load_leaf};
use std::alloc::{AllocError, Global};

/// Appends the numbers of the live entries of a leaf that the shape has. It is asked for some of the entries, before
/// their numbers are looked at, since mostly it has few of them. All, live or dead, count as tested.
pub fn test_leaf<const D: usize, S: Shape<D>, F: Pages>(
    alloc: Global,
    head: &SegmentHead<D>,
    node: &NodeAt<'_, D>,
    cache: &mut PageCache,
    folder: &mut F,
    shape: &mut S,
    live: &LiveBits,
    hits: &mut Vec<u32>,
) -> Result<Cost, PageFault>
    requires leaf { node.now.leaves ≡ 1 }
    ensures begins { Begins hits.old.items hits.new.items }
    ensures hits { IsTrue F.told → Agrees (F.files folder.old) cache.old
        → (first : ℕ) (s : Spot) (path : Region) (t : IndexTree) → IsAt node.now first s path t
        → OnOk result
        (Appends hits.old.items hits.new.items
        (AreHits D (bytes_of (F.files folder.old (Segment head.now.id))) head.now
        (S.has shape.old) live.now first s t)) }
    ensures tests { (first : ℕ) (s : Spot) (path : Region) (t : IndexTree) → IsAt node.now first s path t
        → S.crosses shape.old (cell_of path t) ≡ true
        → S.tests shape.new ≤ S.tests shape.old + tested_entries (S.crosses shape.old) (count_of head.now) first t }
    ensures counts { IfOk result (CountsLeaf head.now node.now) }
    ensures compares { S.compares shape.new ≡ S.compares shape.old }
    ensures reads { ReadsLeaf head.now node.now (F.reads folder.old) (F.reads folder.new) cache.old cache.new result }
    ensures shape { KeepsShape (S.has shape.old) (S.has shape.new) (S.crosses shape.old) (S.crosses shape.new) }
    ensures reading { ReadsCached F.told (λ i. i ≡ head.now.id) (F.files folder.old) (F.files folder.new)
        cache.old cache.new (F.faults folder.old) (F.faults folder.new) result }
    ensures shown { (first : ℕ) (s : Spot) (path : Region) (t : IndexTree) → IsAt node.now first s path t
        → OnDamage result (IsLeafDamage D head.now first s t) }
    ensures damage { IsTrue F.told → Agrees (F.files folder.old) cache.old
        → OnDamage result (IsLeafDamageOf (F.files folder.old)) }
    ensures whole { IsTrue F.told → Agrees (F.files folder.old) cache.old
        → (first : ℕ) (s : Spot) (path : Region) (t : IndexTree) (items : List Item) → IsAt node.now first s path t
        → HoldsTree D (bytes_of (F.files folder.old (Segment head.now.id))) head.now first s t items
        → NotDamaged result }
{
    let place = load_leaf(alloc, folder, cache, head, node)?;
    let Some(leaf) = leaf_in(cache, head, node, place) else {
        return Err(bad_leaf(cache, head, node, place));
    };
    push_tested(&leaf, shape, live, hits)?;
    Ok(Cost {
        tested: entries_of(head, node),
        touched: 1,
    })
}

/// Appends the numbers of the leaf's live entries that the shape has. Those beyond its reach are not tested.
fn push_tested<const D: usize, S: Shape<D>>(
    leaf: &LeafView<'_, D>,
    shape: &mut S,
    live: &LiveBits,
    hits: &mut Vec<u32>,
) -> Result<(), AllocError>
    ensures begins { Begins hits.old.items hits.new.items }
    ensures hits { OnOk result (hits.new.items ≡ hits.old.items ++ hits_in (S.has shape.old) live.now leaf.now) }
    ensures tests { S.tests shape.new ≤ S.tests shape.old + length leaf.now }
    ensures compares { S.compares shape.new ≡ S.compares shape.old }
    ensures has { S.has shape.new ≡ S.has shape.old }
    ensures crosses { S.crosses shape.new ≡ S.crosses shape.old }
{
    let (from, end) = within_reach(leaf, shape);
    for i in from..end {
        if !shape.contains(&leaf.point(i)) {
            continue;
        }
        let doc = leaf.doc(i);
        if !live.is_live(doc) {
            continue;
        }
        hits.push(doc)?;
    }
    Ok(())
}

/// The places between which the entries stand that the shape can have: it has none before the first, and none from the
/// second on. The entries ascend in one dimension, in which the shape may tell how far it reaches.
fn within_reach<const D: usize, S: Shape<D>>(leaf: &LeafView<'_, D>, shape: &S) -> (u16, u16)
    ensures within { (result.0 ≤ length leaf.now) × (result.1 ≤ length leaf.now) }
    ensures before { All (λ x. S.has shape.now x.at ≡ false) (take result.0 leaf.now) }
    ensures behind { All (λ x. S.has shape.now x.at ≡ false) (drop result.1 leaf.now) }
{
    let d = leaf.sorted_dimension();
    match shape.reach(d) {
        Some((low, high)) => leaf.between(d, &low, &high),
        None => (0, leaf.count()),
    }
}
