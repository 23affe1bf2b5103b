//! A leaf all points of whose cell the shape has.

ghost use Rattle.std.specs.Prelude.{◌≡◌, ◌+◌, ◌++◌, ℕ, List, ℤ, Bool, true, IsTrue, OnOk};
ghost use Rattle.outer_io.specs.Files.{bytes_of};
ghost use Rattle.outer_io.specs.declared.file_name.FileName.TheVariants.{Segment};
ghost use Rattle.point_codec.specs.Points.{Item, Region};
ghost use Rattle.cell_relate.specs.Relations.{AllAnswer};
ghost use Rattle.inner_pack.specs.Places.{Spot};
ghost use Rattle.inner_pack.specs.Trees.{IndexTree, cell_of};
ghost use Rattle.inner_pack.specs.Nodes.{IsAt};
ghost use Rattle.page_cache.specs.Cache.{Agrees};
ghost use Rattle.page_cache.specs.Evidence.{OnDamage, NotDamaged};
ghost use Rattle.page_cache.specs.Reading.{ReadsCached};
ghost use Rattle.segment_file.specs.Segments.{HoldsTree};
ghost use Rattle.segment_file.specs.Damages.{IsLeafDamage, IsLeafDamageOf};
ghost use Rattle.bkd_reader.specs.Hits.{AreHits, Appends, Begins, hits_in};
ghost use Rattle.bkd_reader.specs.Unread.{ReadsLeaf};

use inner_pack::NodeAt;
use leaf_codec::LeafView;
use live_bits::LiveBits;
use outer_io::Pages;
use page_cache::{PageCache, PageFault};
use segment_file::{SegmentHead, bad_leaf, leaf_in, load_leaf};
use std::alloc::{AllocError, Global};

/// Appends the numbers of the live entries of a leaf all points of whose cell the shape has. The shape is not asked.
pub fn collect_leaf<const D: usize, F: Pages>(
    alloc: Global,
    head: &SegmentHead<D>,
    node: &NodeAt<'_, D>,
    cache: &mut PageCache,
    folder: &mut F,
    live: &LiveBits,
    hits: &mut Vec<u32>,
) -> Result<(), PageFault>
    requires leaf { node.now.leaves ≡ 1 }
    ensures begins { Begins hits.old.items hits.new.items }
    ensures hits { IsTrue F.told → Agrees (F.files folder.old) cache.old
        → (first : ℕ) (s : Spot) (path : Region) (t : IndexTree) → IsAt node.now first s path t
        → (has : List ℤ → Bool) → AllAnswer has true (cell_of path t)
        → OnOk result
        (Appends hits.old.items hits.new.items
        (AreHits D (bytes_of (F.files folder.old (Segment head.now.id))) head.now has live.now first s t)) }
    ensures reads { ReadsLeaf head.now node.now (F.reads folder.old) (F.reads folder.new) cache.old cache.new result }
    ensures reading { ReadsCached F.told (λ i. i ≡ head.now.id) (F.files folder.old) (F.files folder.new)
        cache.old cache.new (F.faults folder.old) (F.faults folder.new) result }
    ensures shown { (first : ℕ) (s : Spot) (path : Region) (t : IndexTree) → IsAt node.now first s path t
        → OnDamage result (IsLeafDamage D head.now first s t) }
    ensures damage { IsTrue F.told → Agrees (F.files folder.old) cache.old
        → OnDamage result (IsLeafDamageOf (F.files folder.old)) }
    ensures whole { IsTrue F.told → Agrees (F.files folder.old) cache.old
        → (first : ℕ) (s : Spot) (path : Region) (t : IndexTree) (items : List Item) → IsAt node.now first s path t
        → HoldsTree D (bytes_of (F.files folder.old (Segment head.now.id))) head.now first s t items
        → NotDamaged result }
{
    let place = load_leaf(alloc, folder, cache, head, node)?;
    let Some(leaf) = leaf_in(cache, head, node, place) else {
        return Err(bad_leaf(cache, head, node, place));
    };
    push_live(&leaf, live, hits)?;
    Ok(())
}

/// Appends the numbers of the leaf's live entries: the numbers of all, and of those the live ones stay.
fn push_live<const D: usize>(
    leaf: &LeafView<'_, D>,
    live: &LiveBits,
    hits: &mut Vec<u32>,
) -> Result<(), AllocError>
    ensures begins { Begins hits.old.items hits.new.items }
    ensures hits { OnOk result (hits.new.items ≡ hits.old.items ++ hits_in (λ _. true) live.now leaf.now) }
{
    let before = hits.len();
    leaf.push_numbers(hits)?;
    live.keep_live(hits, before);
    Ok(())
}
