//! All entries of a segment, read leaf by leaf.

ghost use Rattle.std.specs.Prelude.{◌≡◌, ◌≤◌, ◌+◌, ◌++◌, ℕ, List, [], filter, true, All, IsTrue, IfOk, OnOk};
ghost use Rattle.outer_io.specs.Files.{bytes_of};
ghost use Rattle.outer_io.specs.declared.file_name.FileName.TheVariants.{Segment};
ghost use Rattle.point_codec.specs.Points.{Item, Region};
ghost use Rattle.point_codec.specs.Seen.{items_of};
ghost use Rattle.live_bits.specs.LiveSet.{is_live};
ghost use Rattle.inner_pack.specs.Places.{Spot, front};
ghost use Rattle.inner_pack.specs.Nodes.{IsAt};
ghost use Rattle.inner_pack.specs.Trees.{IndexTree, leaf_count};
ghost use Rattle.inner_pack.specs.Bodies.{HasTree, pages_of};
ghost use Rattle.page_cache.specs.Cache.{IsKept, Agrees};
ghost use Rattle.page_cache.specs.Evidence.{OnDamage, NotDamaged};
ghost use Rattle.page_cache.specs.Reading.{ReadsCached};
ghost use Rattle.segment_file.specs.Heads.{page_of};
ghost use Rattle.segment_file.specs.Segments.{HoldsTree, IsHeadOf, IsSegment};
ghost use Rattle.segment_file.specs.Gathers.{AreLeavesWith, Gathers, ReadsEach, last_page};
ghost use Rattle.segment_file.specs.Sinks.{Adds, set_without_entries};
ghost use Rattle.segment_file.specs.Damages.{IsLeafDamage, IsLeafDamageOf};

use crate::head::SegmentHead;
use crate::leaf::{bad_leaf, leaf_in, load_leaf};
use crate::sink::LeafSink;
use inner_pack::NodeAt;
use live_bits::LiveBits;
use outer_io::Pages;
use page_cache::{PageCache, PageFault};
use point_codec::Entry;
use std::alloc::Global;
use std::mem;

/// The entries of a segment whose numbers are live, in the order of the leaves. Each leaf page is read once at
/// most. Ok only where each leaf of this head is spelled in its page, whether or not the file has this head. Before the
/// first leaf there is room for as many entries as there are live numbers, and for a leaf of them more.
pub fn read_entries<const D: usize, F: Pages>(
    alloc: Global,
    folder: &mut F,
    cache: &mut PageCache,
    head: &SegmentHead<D>,
    live: &LiveBits,
) -> Result<Vec<Entry<D>>, PageFault>
    ensures reading { ReadsCached F.told (λ i. i ≡ head.now.id) (F.files folder.old) (F.files folder.new)
        cache.old cache.new (F.faults folder.old) (F.faults folder.new) result }
    ensures reads { (root : Region) (t : IndexTree) → HasTree D head.now.index root t
        → F.reads folder.new ≤ F.reads folder.old + head.now.index.leaves }
    // each leaf page once at most, whatever the cache held
    ensures pages { (root : Region) (t : IndexTree) → HasTree D head.now.index root t
        → F.reads folder.new ≤ F.reads folder.old + pages_of t }
    // the leaves are those of this head, also where the file has another one
    ensures gathers { IsTrue F.told → Agrees (F.files folder.old) cache.old
        → (root : Region) (t : IndexTree) → HasTree D head.now.index root t
        → IfOk result (λ v. Gathers D (bytes_of (F.files folder.old (Segment head.now.id))) head.now 0 front t
        live.now [] (items_of v.items)) }
    ensures spelled { IsTrue F.told → Agrees (F.files folder.old) cache.old
        → IsHeadOf D (bytes_of (F.files folder.old (Segment head.now.id))) head.now
        → IfOk result
        (λ v. (items : List Item) × IsSegment D (bytes_of (F.files folder.old (Segment head.now.id))) head.now items
        × (items_of v.items ≡ filter (λ x. is_live live.now x.doc) items)) }
    ensures entries { IsTrue F.told → Agrees (F.files folder.old) cache.old → (items : List Item)
        → IsSegment D (bytes_of (F.files folder.old (Segment head.now.id))) head.now items
        → IfOk result (λ v. items_of v.items ≡ filter (λ x. is_live live.now x.doc) items) }
    // whatever the folder gives
    ensures live { IfOk result (λ v. All (λ x. is_live live.now x.doc ≡ true) (items_of v.items)) }
    ensures shown { (root : Region) (t : IndexTree) → HasTree D head.now.index root t
        → OnDamage result (IsLeafDamage D head.now 0 front t) }
    ensures damage { IsTrue F.told → Agrees (F.files folder.old) cache.old
        → OnDamage result (IsLeafDamageOf (F.files folder.old)) }
    ensures whole { IsTrue F.told → Agrees (F.files folder.old) cache.old → (items : List Item)
        → IsSegment D (bytes_of (F.files folder.old (Segment head.now.id))) head.now items
        → NotDamaged result }
{
    // where each live number has one entry, the list is never moved
    let room = live
        .live_count()
        .saturating_add(u32::from(head.leaf_size()));
    let list = Vec::with_capacity(alloc, room.min(head.entries()) as usize)?;
    let mut sink = LeafSink::Entries(list);
    gather_all(alloc, folder, cache, head, live, &mut sink)?;
    match sink {
        LeafSink::Entries(entries) => Ok(entries),
        LeafSink::Numbers(_numbers) => unreachable!(),
    }
}

/// Puts the entries of a segment whose numbers are live behind those of the list, in the order of the leaves. Each leaf
/// page is read once at most. Ok only where each leaf of this head is spelled in its page. Where there is room for the
/// live entries and for a leaf more the list isn't moved. After an error it may have some of them.
pub fn append_entries<const D: usize, F: Pages>(
    alloc: Global,
    folder: &mut F,
    cache: &mut PageCache,
    head: &SegmentHead<D>,
    live: &LiveBits,
    entries: &mut Vec<Entry<D>>,
) -> Result<(), PageFault>
    ensures reading { ReadsCached F.told (λ i. i ≡ head.now.id) (F.files folder.old) (F.files folder.new)
        cache.old cache.new (F.faults folder.old) (F.faults folder.new) result }
    ensures reads { (root : Region) (t : IndexTree) → HasTree D head.now.index root t
        → F.reads folder.new ≤ F.reads folder.old + head.now.index.leaves }
    // each leaf page once at most, whatever the cache held
    ensures pages { (root : Region) (t : IndexTree) → HasTree D head.now.index root t
        → F.reads folder.new ≤ F.reads folder.old + pages_of t }
    ensures spelled { IsTrue F.told → Agrees (F.files folder.old) cache.old
        → IsHeadOf D (bytes_of (F.files folder.old (Segment head.now.id))) head.now
        → OnOk result
        ((items : List Item) × IsSegment D (bytes_of (F.files folder.old (Segment head.now.id))) head.now items
        × (items_of entries.new.items ≡ items_of entries.old.items ++ filter (λ x. is_live live.now x.doc) items)) }
    ensures entries { IsTrue F.told → Agrees (F.files folder.old) cache.old → (items : List Item)
        → IsSegment D (bytes_of (F.files folder.old (Segment head.now.id))) head.now items
        → OnOk result
        (items_of entries.new.items ≡ items_of entries.old.items ++ filter (λ x. is_live live.now x.doc) items) }
    // whatever the folder gives
    ensures live { OnOk result
        ((more : List Item) × (items_of entries.new.items ≡ items_of entries.old.items ++ more)
        × All (λ x. is_live live.now x.doc ≡ true) more) }
    ensures shown { (root : Region) (t : IndexTree) → HasTree D head.now.index root t
        → OnDamage result (IsLeafDamage D head.now 0 front t) }
    ensures damage { IsTrue F.told → Agrees (F.files folder.old) cache.old
        → OnDamage result (IsLeafDamageOf (F.files folder.old)) }
    ensures whole { IsTrue F.told → Agrees (F.files folder.old) cache.old → (items : List Item)
        → IsSegment D (bytes_of (F.files folder.old (Segment head.now.id))) head.now items
        → NotDamaged result }
{
    let taken = mem::replace(entries, Vec::new(alloc));
    let mut sink = LeafSink::Entries(taken);
    let done = gather_all(alloc, folder, cache, head, live, &mut sink);
    // put back whatever the answer is; no leaf makes numbers of a list
    match sink {
        LeafSink::Entries(list) => {
            *entries = list;
            done
        }
        LeafSink::Numbers(_numbers) => done,
    }
}

/// The live numbers of which the segment has no entry. Each leaf page is read once at most, and no entry is kept: the
/// call takes memory of the set's bits. Ok only where each leaf of this head is spelled in its page.
pub fn numbers_without_entry<const D: usize, F: Pages>(
    alloc: Global,
    folder: &mut F,
    cache: &mut PageCache,
    head: &SegmentHead<D>,
    live: &LiveBits,
) -> Result<LiveBits, PageFault>
    ensures reading { ReadsCached F.told (λ i. i ≡ head.now.id) (F.files folder.old) (F.files folder.new)
        cache.old cache.new (F.faults folder.old) (F.faults folder.new) result }
    // each leaf page once at most, whatever the cache held
    ensures pages { (root : Region) (t : IndexTree) → HasTree D head.now.index root t
        → F.reads folder.new ≤ F.reads folder.old + pages_of t }
    ensures spelled { IsTrue F.told → Agrees (F.files folder.old) cache.old
        → IsHeadOf D (bytes_of (F.files folder.old (Segment head.now.id))) head.now
        → IfOk result
        (λ s. (items : List Item) × IsSegment D (bytes_of (F.files folder.old (Segment head.now.id))) head.now items
        × (s ≡ set_without_entries items live.now)) }
    // whatever the folder gives
    ensures live { IfOk result (λ s. (items : List Item) × (s ≡ set_without_entries items live.now)) }
    ensures shown { (root : Region) (t : IndexTree) → HasTree D head.now.index root t
        → OnDamage result (IsLeafDamage D head.now 0 front t) }
    ensures damage { IsTrue F.told → Agrees (F.files folder.old) cache.old
        → OnDamage result (IsLeafDamageOf (F.files folder.old)) }
    ensures whole { IsTrue F.told → Agrees (F.files folder.old) cache.old → (items : List Item)
        → IsSegment D (bytes_of (F.files folder.old (Segment head.now.id))) head.now items
        → NotDamaged result }
{
    let numbers = live.copy(alloc)?;
    let mut sink = LeafSink::Numbers(numbers);
    gather_all(alloc, folder, cache, head, live, &mut sink)?;
    match sink {
        LeafSink::Numbers(left) => Ok(left),
        LeafSink::Entries(_entries) => unreachable!(),
    }
}

/// Adds the entries of all leaves to the sink.
fn gather_all<const D: usize, F: Pages>(
    alloc: Global,
    folder: &mut F,
    cache: &mut PageCache,
    head: &SegmentHead<D>,
    live: &LiveBits,
    sink: &mut LeafSink<D>,
) -> Result<(), PageFault>
    ensures reading { ReadsCached F.told (λ i. i ≡ head.now.id) (F.files folder.old) (F.files folder.new)
        cache.old cache.new (F.faults folder.old) (F.faults folder.new) result }
    ensures reads { (root : Region) (t : IndexTree) → HasTree D head.now.index root t
        → F.reads folder.new ≤ F.reads folder.old + head.now.index.leaves }
    ensures pages { (root : Region) (t : IndexTree) → HasTree D head.now.index root t
        → F.reads folder.new ≤ F.reads folder.old + pages_of t }
    ensures gathers { IsTrue F.told → Agrees (F.files folder.old) cache.old
        → (root : Region) (t : IndexTree) → HasTree D head.now.index root t
        → OnOk result
        (AreLeavesWith D (bytes_of (F.files folder.old (Segment head.now.id))) head.now 0 front t
        (λ items. Adds sink.old live.now items sink.new)) }
    ensures added { OnOk result ((items : List Item) × Adds sink.old live.now items sink.new) }
    ensures shown { (root : Region) (t : IndexTree) → HasTree D head.now.index root t
        → OnDamage result (IsLeafDamage D head.now 0 front t) }
    ensures damage { IsTrue F.told → Agrees (F.files folder.old) cache.old
        → OnDamage result (IsLeafDamageOf (F.files folder.old)) }
    ensures whole { IsTrue F.told → Agrees (F.files folder.old) cache.old → (items : List Item)
        → IsSegment D (bytes_of (F.files folder.old (Segment head.now.id))) head.now items
        → NotDamaged result }
{
    let root = head.index().walk();
    gather(alloc, folder, cache, head, live, &root, sink)
}

/// Adds the entries of all leaves at or below the node.
fn gather<const D: usize, F: Pages>(
    alloc: Global,
    folder: &mut F,
    cache: &mut PageCache,
    head: &SegmentHead<D>,
    live: &LiveBits,
    node: &NodeAt<'_, D>,
    sink: &mut LeafSink<D>,
) -> Result<(), PageFault>
    ensures reading { ReadsCached F.told (λ i. i ≡ head.now.id) (F.files folder.old) (F.files folder.new)
        cache.old cache.new (F.faults folder.old) (F.faults folder.new) result }
    ensures reads { (first : ℕ) (s : Spot) (path : Region) (t : IndexTree) → IsAt node.now first s path t
        → F.reads folder.new ≤ F.reads folder.old + leaf_count t }
    ensures pages { (first : ℕ) (s : Spot) (path : Region) (t : IndexTree) → IsAt node.now first s path t
        → ReadsEach (F.reads folder.old) (F.reads folder.new) cache.old head.now s t }
    ensures last { (first : ℕ) (s : Spot) (path : Region) (t : IndexTree) → IsAt node.now first s path t
        → OnOk result (IsKept cache.new head.now.id (page_of head.now (last_page s t))) }
    ensures gathers { IsTrue F.told → Agrees (F.files folder.old) cache.old
        → (first : ℕ) (s : Spot) (path : Region) (t : IndexTree)
        → IsAt node.now first s path t
        → OnOk result
        (AreLeavesWith D (bytes_of (F.files folder.old (Segment head.now.id))) head.now first s t
        (λ items. Adds sink.old live.now items sink.new)) }
    ensures added { OnOk result ((items : List Item) × Adds sink.old live.now items sink.new) }
    ensures shown { (first : ℕ) (s : Spot) (path : Region) (t : IndexTree) → IsAt node.now first s path t
        → OnDamage result (IsLeafDamage D head.now first s t) }
    ensures damage { IsTrue F.told → Agrees (F.files folder.old) cache.old
        → OnDamage result (IsLeafDamageOf (F.files folder.old)) }
    ensures whole { IsTrue F.told → Agrees (F.files folder.old) cache.old
        → (first : ℕ) (s : Spot) (path : Region) (t : IndexTree)
        → IsAt node.now first s path t
        → (items : List Item)
        → HoldsTree D (bytes_of (F.files folder.old (Segment head.now.id))) head.now first s t items
        → NotDamaged result }
{
    match node.children() {
        Some((left, right)) => {
            gather(alloc, folder, cache, head, live, &left, sink)?;
            gather(alloc, folder, cache, head, live, &right, sink)
        }
        None => gather_leaf(alloc, folder, cache, head, live, node, sink),
    }
}

/// Adds the entries of a leaf.
fn gather_leaf<const D: usize, F: Pages>(
    alloc: Global,
    folder: &mut F,
    cache: &mut PageCache,
    head: &SegmentHead<D>,
    live: &LiveBits,
    node: &NodeAt<'_, D>,
    sink: &mut LeafSink<D>,
) -> Result<(), PageFault>
    requires { node.now.leaves ≡ 1 }
    ensures reading { ReadsCached F.told (λ i. i ≡ head.now.id) (F.files folder.old) (F.files folder.new)
        cache.old cache.new (F.faults folder.old) (F.faults folder.new) result }
    ensures reads { (first : ℕ) (s : Spot) (path : Region) (t : IndexTree) → IsAt node.now first s path t
        → F.reads folder.new ≤ F.reads folder.old + leaf_count t }
    ensures pages { (first : ℕ) (s : Spot) (path : Region) (t : IndexTree) → IsAt node.now first s path t
        → ReadsEach (F.reads folder.old) (F.reads folder.new) cache.old head.now s t }
    ensures last { (first : ℕ) (s : Spot) (path : Region) (t : IndexTree) → IsAt node.now first s path t
        → OnOk result (IsKept cache.new head.now.id (page_of head.now (last_page s t))) }
    ensures gathers { IsTrue F.told → Agrees (F.files folder.old) cache.old
        → (first : ℕ) (s : Spot) (path : Region) (t : IndexTree)
        → IsAt node.now first s path t
        → OnOk result
        (AreLeavesWith D (bytes_of (F.files folder.old (Segment head.now.id))) head.now first s t
        (λ items. Adds sink.old live.now items sink.new)) }
    ensures added { OnOk result ((items : List Item) × Adds sink.old live.now items sink.new) }
    ensures shown { (first : ℕ) (s : Spot) (path : Region) (t : IndexTree) → IsAt node.now first s path t
        → OnDamage result (IsLeafDamage D head.now first s t) }
    ensures damage { IsTrue F.told → Agrees (F.files folder.old) cache.old
        → OnDamage result (IsLeafDamageOf (F.files folder.old)) }
    ensures whole { IsTrue F.told → Agrees (F.files folder.old) cache.old
        → (first : ℕ) (s : Spot) (path : Region) (t : IndexTree)
        → IsAt node.now first s path t
        → (items : List Item)
        → HoldsTree D (bytes_of (F.files folder.old (Segment head.now.id))) head.now first s t items
        → NotDamaged result }
{
    let place = load_leaf(alloc, folder, cache, head, node)?;
    let Some(view) = leaf_in(cache, head, node, place) else {
        return Err(bad_leaf(cache, head, node, place));
    };
    sink.add_leaf(&view, live)?;
    Ok(())
}
