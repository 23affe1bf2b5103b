//! One leaf, read in place in a page that the cache keeps.

ghost use Rattle.std.specs.Prelude.{◌≡◌, ◌≤◌, ◌<◌, ◌+◌, ℕ, List, length, take, drop, IsTrue, IsOk, IfOk};
ghost use Rattle.std.specs.Prelude.{IfSome, IfNone};
ghost use Rattle.outer_io.specs.Files.{Files, bytes_of};
ghost use Rattle.outer_io.specs.declared.file_name.FileName.TheVariants.{Segment};
ghost use Rattle.point_codec.specs.Points.{Item, Region};
ghost use Rattle.point_codec.specs.Seen.{region_of};
ghost use Rattle.leaf_codec.specs.Leaves.{SpellsLeaf, SpellsLeafIn, SpellsSomeIn};
ghost use Rattle.inner_pack.specs.Places.{Spot};
ghost use Rattle.inner_pack.specs.Trees.{IndexTree, Leaf};
ghost use Rattle.inner_pack.specs.Nodes.{IsAt, IsPlaceOf};
ghost use Rattle.page_file.specs.Page.{payload_of};
ghost use Rattle.page_cache.specs.Cache.{Keeps, IsKept, KeepsFile, KeepsPages, MarksGo, Agrees};
ghost use Rattle.page_cache.specs.Evidence.{OnDamage, NotDamaged};
ghost use Rattle.page_cache.specs.FilePages.{IsFilePage};
ghost use Rattle.page_cache.specs.Reading.{ReadsCached};
ghost use Rattle.segment_file.specs.Heads.{page_of, count_of};
ghost use Rattle.segment_file.specs.Segments.{HoldsLeaf};
ghost use Rattle.segment_file.specs.Damages.{IsLeafDamage, IsLeafDamageOf};
ghost use Rattle.segment_file.specs.Kept.{SpellsNoLeaf, IsLeafFault, OnFault};

use crate::head::SegmentHead;
use inner_pack::{LeafPlace, NodeAt};
use leaf_codec::LeafView;
use outer_io::{FileName, Pages};
use page_cache::{Damage, LeafNote, PageCache, PageFault};
use point_codec::Cell;
use std::alloc::Global;

/// Sees to it that the page is kept in which a leaf of the head's index stands, and answers the leaf's place.
/// A kept page is found without a read and without memory.
pub fn load_leaf<const D: usize, F: Pages>(
    alloc: Global,
    folder: &mut F,
    cache: &mut PageCache,
    head: &SegmentHead<D>,
    node: &NodeAt<'_, D>,
) -> Result<LeafPlace, PageFault>
    requires leaf { node.now.leaves ≡ 1 }
    ensures reading { ReadsCached F.told (λ i. i ≡ head.now.id) (F.files folder.old) (F.files folder.new)
        cache.old cache.new (F.faults folder.old) (F.faults folder.new) result }
    ensures reads { F.reads folder.new ≤ F.reads folder.old + 1 }
    ensures place { IfOk result
        (λ p. (first : ℕ) (s : Spot) (path : Region) (t : IndexTree) → IsAt node.now first s path t
        → IsPlaceOf p s t) }
    ensures small { IfOk result (λ p. p.page < 8388608) }
    ensures fits { IfOk result (λ p. p.offset + p.length ≤ 4064) }
    ensures kept { IfOk result (λ p. IsKept cache.new head.now.id (page_of head.now p.page)) }
    ensures hit { (first : ℕ) (s : Spot) (path : Region) (t : IndexTree) → IsAt node.now first s path t
        → IsKept cache.old head.now.id (page_of head.now s.page) → IsOk result
        × (F.reads folder.new ≡ F.reads folder.old) × KeepsPages cache.old cache.new }
    ensures shown { (first : ℕ) (s : Spot) (path : Region) (t : IndexTree) → IsAt node.now first s path t
        → OnDamage result (IsLeafDamage D head.now first s t) }
    ensures damage { IsTrue F.told → OnDamage result (IsLeafDamageOf (F.files folder.old)) }
    ensures whole { IsTrue F.told → (first : ℕ) (s : Spot) (path : Region) (t : IndexTree)
        → IsAt node.now first s path t
        → IsFilePage (Segment head.now.id) (bytes_of (F.files folder.old (Segment head.now.id)))
        (page_of head.now s.page) → NotDamaged result }
{
    let Some(place) = node.leaf_place() else {
        unreachable!()
    };
    cache.load(alloc, folder, head.id(), head.page_of(place))?;
    note_leaf(cache, head, node, place);
    Ok(place)
}

/// Notes the leaf of the node in its page, which is kept, where the page has it: so it is verified once while the page
/// is kept.
fn note_leaf<const D: usize>(
    cache: &mut PageCache,
    head: &SegmentHead<D>,
    node: &NodeAt<'_, D>,
    place: LeafPlace,
)
    requires small { place.page < 8388608 }
    requires fits { place.offset + place.length ≤ 4064 }
    requires kept { IsKept cache.old head.now.id (page_of head.now place.page) }
    ensures { cache.new ≡ cache.old }
{
    let cell = node.cell();
    let count = head.count_of(node.first_leaf());
    let note = LeafNote::of(&cell, place.offset, place.length, count);
    let id = head.id();
    let number = head.page_of(place);
    let (page, known) = cache.noted_view(id, number, &note);
    if known {
        return;
    }
    if LeafView::read(part_of(page.payload(), place), &cell, count).is_some() {
        cache.note(id, number, note);
    }
}

/// The leaf of the node in its page, which is kept. None exactly where the page has no leaf of the node's count
/// and cell there. Nothing is copied, and no digest is computed.
pub fn leaf_in<'a, const D: usize>(
    cache: &'a PageCache,
    head: &SegmentHead<D>,
    node: &NodeAt<'_, D>,
    place: LeafPlace,
) -> Option<LeafView<'a, D>>
    requires small { place.page < 8388608 }
    requires fits { place.offset + place.length ≤ 4064 }
    requires kept { IsKept cache.now head.now.id (page_of head.now place.page) }
    ensures some { IfSome result
        (λ view. (files : Files) (first : ℕ) (s : Spot) (path : Region) (len : ℕ) (own : Region)
        → Agrees files cache.now → IsAt node.now first s path (Leaf len own) → IsPlaceOf place s (Leaf len own)
        → HoldsLeaf D (bytes_of (files (Segment head.now.id))) head.now first s len own view) }
    ensures none { IfNone result ((files : Files) (first : ℕ) (s : Spot) (path : Region) (len : ℕ) (own : Region)
        → Agrees files cache.now → IsAt node.now first s path (Leaf len own) → IsPlaceOf place s (Leaf len own)
        → (items : List Item)
        → HoldsLeaf D (bytes_of (files (Segment head.now.id))) head.now first s len own items → ⊥) }
    // As many as the head says, over every folder.
    ensures count { IfSome result
        (λ view. (first : ℕ) (s : Spot) (path : Region) (t : IndexTree) → IsAt node.now first s path t
        → length view ≡ count_of head.now first) }
    ensures bad { IfNone result (SpellsNoLeaf cache.now head.now node.now place) }
    // What the kept page spells there, over every folder.
    ensures spelled { IfSome result (λ view. (bytes : List ℕ)
        → Keeps cache.now head.now.id (page_of head.now place.page) bytes
        → SpellsLeaf D (take place.length (drop place.offset (payload_of bytes))) view) }
{
    let cell = node.cell();
    let count = head.count_of(node.first_leaf());
    let note = LeafNote::of(&cell, place.offset, place.length, count);
    let (page, known) = cache.noted_view(head.id(), head.page_of(place), &note);
    let part = part_of(page.payload(), place);
    read_part(part, &cell, count, known)
}

/// The leaf that the bytes are. Where it is known that they are one, nothing is checked.
fn read_part<'a, const D: usize>(
    part: &'a [u8],
    cell: &Cell<D>,
    count: u16,
    known: bool,
) -> Option<LeafView<'a, D>>
    requires { IsTrue known → SpellsSomeIn D part.now count (region_of cell.now) }
    ensures some { IfSome result (λ view. SpellsLeafIn D part.now count (region_of cell.now) view) }
    ensures none { IfNone result ((items : List Item) → SpellsLeafIn D part.now count (region_of cell.now) items → ⊥) }
{
    if known {
        return Some(LeafView::of_valid(part, cell, count));
    }
    LeafView::read(part, cell, count)
}

/// The part of a page's payload that is a leaf's place.
fn part_of(payload: &[u8], place: LeafPlace) -> &[u8]
    requires { place.offset + place.length ≤ length payload.now }
    ensures { result.now ≡ take place.length (drop place.offset payload.now) }
{
    let (_, rest) = payload.split_at(usize::from(place.offset));
    let (part, _) = rest.split_at(usize::from(place.length));
    part
}

/// The damage of a leaf that `leaf_in` did not find. The page is taken out of the cache and carried by it, so no
/// memory is taken.
pub fn bad_leaf<const D: usize>(
    cache: &mut PageCache,
    head: &SegmentHead<D>,
    node: &NodeAt<'_, D>,
    place: LeafPlace,
) -> PageFault
    requires small { place.page < 8388608 }
    requires kept { IsKept cache.old head.now.id (page_of head.now place.page) }
    requires bad { SpellsNoLeaf cache.old head.now node.now place }
    ensures is { IsLeafFault cache.old head.now place result }
    ensures shown { (first : ℕ) (s : Spot) (path : Region) (t : IndexTree) → IsAt node.now first s path t
        → IsPlaceOf place s t
        → OnFault result (IsLeafDamage D head.now first s t) }
    ensures damage { (files : Files) → Agrees files cache.old → OnFault result (IsLeafDamageOf files) }
    ensures fewer { (i : ℕ) → KeepsFile cache.new i → KeepsFile cache.old i }
    ensures marks { MarksGo cache.old cache.new }
    ensures agrees { (files : Files) → Agrees files cache.old → Agrees files cache.new }
{
    let file = FileName::Segment(head.id());
    let number = head.page_of(place);
    let Some(bytes) = cache.remove(&file, number) else {
        unreachable!()
    };
    PageFault::Damaged(Damage::Leaf {
        file,
        number,
        offset: place.offset,
        length: place.length,
        bytes,
    })
}
