//! Entries offered to the candidates: those of a leaf, and those of the buffer.

ghost use Rattle.std.specs.Prelude.{◌≡◌, ◌≤◌, ◌+◌, ℕ, List, length, IsTrue, OnOk};
ghost use Rattle.outer_io.specs.Files.{bytes_of};
ghost use Rattle.outer_io.specs.declared.file_name.FileName.TheVariants.{Segment};
ghost use Rattle.point_codec.specs.Points.{Item, Region};
ghost use Rattle.point_codec.specs.Seen.{items_of};
ghost use Rattle.point_codec.specs.declared.entries.Near.{Near};
ghost use Rattle.inner_pack.specs.Places.{Spot};
ghost use Rattle.inner_pack.specs.Trees.{IndexTree, Leaf};
ghost use Rattle.inner_pack.specs.Nodes.{IsAt};
ghost use Rattle.page_cache.specs.Cache.{Agrees, IsKept};
ghost use Rattle.page_cache.specs.Evidence.{OnDamage, NotDamaged};
ghost use Rattle.page_cache.specs.Reading.{ReadsMarking, ReadsNothing};
ghost use Rattle.segment_file.specs.Heads.{page_of};
ghost use Rattle.segment_file.specs.Segments.{HoldsLeaf};
ghost use Rattle.segment_file.specs.Damages.{IsLeafDamage, IsLeafDamageOf};
ghost use Rattle.documents.specs.NearestEntries.{nears_of};
ghost use Rattle.nearest_query.specs.Best.{AreBest, AreAdded};
ghost use Rattle.nearest_query.specs.Dead.{HidesNone, MarksOf};
ghost use Rattle.nearest_query.specs.Segments.{live_items};

use crate::candidates::Candidates;
use crate::dead::{has_none_live, is_known_dead, may_be_dead, remember};
use crate::outwards::{offer_above, offer_below};
use inner_pack::NodeAt;
use leaf_codec::LeafView;
use live_bits::LiveBits;
use outer_io::Pages;
use page_cache::{PageCache, PageFault};
use point_codec::{Entry, Near, Point};
use segment_file::{SegmentHead, bad_leaf, leaf_in, load_leaf};
use std::alloc::{AllocError, Global};

/// Offers the live entries of a leaf. Its page is read where it isn't kept. Where the live set is watched over, a leaf
/// that is known to be dead isn't looked at, and one without a live entry is known to be dead from then on.
pub fn open_leaf<const D: usize, F: Pages>(
    alloc: Global,
    folder: &mut F,
    cache: &mut PageCache,
    head: &SegmentHead<D>,
    live: &LiveBits,
    node: &NodeAt<'_, D>,
    at: &Point<D>,
    found: &mut Candidates,
    watched: bool,
) -> Result<(), PageFault>
    requires leaf { node.now.leaves ≡ 1 }
    requires hides { IsTrue watched → HidesNone D cache.old head.now.id live.now }
    ensures marks { MarksOf D watched head.now.id live.now cache.old cache.new }
    ensures reading { ReadsMarking F.told (λ i. i ≡ head.now.id) (F.files folder.old) (F.files folder.new)
        cache.old cache.new (F.faults folder.old) (F.faults folder.new) result }
    ensures reads { F.reads folder.new ≤ F.reads folder.old + 1 }
    ensures kept { (first : ℕ) (s : Spot) (path : Region) (t : IndexTree) → IsAt node.now first s path t
        → IsKept cache.old head.now.id (page_of head.now s.page)
        → ReadsNothing (F.reads folder.old) (F.reads folder.new) cache.old cache.new result }
    ensures room { found.new.many.room ≡ found.old.many.room }
    ensures found { IsTrue F.told → Agrees (F.files folder.old) cache.old
        → (first : ℕ) (s : Spot) (path : Region) (len : ℕ) (own : Region) (items : List Item) (seen : List Near)
        → IsAt node.now first s path (Leaf len own)
        → HoldsLeaf D (bytes_of (F.files folder.old (Segment head.now.id))) head.now first s len own items
        → AreBest seen found.old
        → OnOk result (AreAdded seen (nears_of at.now.c (live_items live.now items)) found.new) }
    ensures damage { IsTrue F.told → Agrees (F.files folder.old) cache.old
        → OnDamage result (IsLeafDamageOf (F.files folder.old)) }
    ensures shown { (first : ℕ) (s : Spot) (path : Region) (t : IndexTree) → IsAt node.now first s path t
        → OnDamage result (IsLeafDamage D head.now first s t) }
    ensures whole { IsTrue F.told → Agrees (F.files folder.old) cache.old
        → (first : ℕ) (s : Spot) (path : Region) (len : ℕ) (own : Region) (items : List Item)
        → IsAt node.now first s path (Leaf len own)
        → HoldsLeaf D (bytes_of (F.files folder.old (Segment head.now.id))) head.now first s len own items
        → NotDamaged result }
{
    let watch = may_be_dead(head, live, watched);
    if is_known_dead(cache, head, node, watch) {
        return Ok(());
    }
    let place = load_leaf(alloc, folder, cache, head, node)?;
    let Some(view) = leaf_in(cache, head, node, place) else {
        return Err(bad_leaf(cache, head, node, place));
    };
    offer_leaf(&view, live, at, found)?;
    let dead = has_none_live(&view, live, watch);
    remember(cache, head, place, dead);
    Ok(())
}

/// Offers the live entries of a leaf that is read in place: outwards from the point, up to those that are too far away
/// in the dimension in which they ascend.
fn offer_leaf<const D: usize>(
    view: &LeafView<'_, D>,
    live: &LiveBits,
    at: &Point<D>,
    found: &mut Candidates,
) -> Result<(), AllocError>
    ensures room { found.new.many.room ≡ found.old.many.room }
    ensures found { (seen : List Near) → AreBest seen found.old
        → OnOk result (AreAdded seen (nears_of at.now.c (live_items live.now view.now)) found.new) }
{
    let d = view.sorted_dimension();
    let place = view.count_below(d, &coordinates(at)[d]);
    offer_above(view, live, at, d, place, found)?;
    offer_below(view, live, at, d, place, found)
}

/// The coordinates of the point.
fn coordinates<const D: usize>(at: &Point<D>) -> &[i32]
    requires { D ≤ 8 }
    ensures value { result.now ≡ at.now.c }
    ensures long { length at.now.c ≡ D }
{
    &at.c
}

/// Offers all of the entries.
pub fn offer_all<const D: usize>(
    entries: &[Entry<D>],
    at: &Point<D>,
    found: &mut Candidates,
) -> Result<(), AllocError>
    ensures room { found.new.many.room ≡ found.old.many.room }
    ensures found { (seen : List Near) → AreBest seen found.old
        → OnOk result (AreAdded seen (nears_of at.now.c (items_of entries.now)) found.new) }
{
    for entry in entries {
        found.offer(Near {
            dist2: entry.point.dist2(at),
            doc: entry.doc,
        })?;
    }
    Ok(())
}
