//! The live entries of some of the segments.

ghost use Rattle.std.specs.Prelude.{◌≡◌, ◌≤◌, ◌<◌, ◌+◌, ◌^◌, ◌++◌, List, [], ◌∷◌, true, All, IsTrue, IfOk, OnOk};
ghost use Rattle.point_codec.specs.Points.{Item};
ghost use Rattle.point_codec.specs.Seen.{items_of};
ghost use Rattle.live_bits.specs.LiveSet.{is_live};
ghost use Rattle.page_cache.specs.Cache.{Agrees};
ghost use Rattle.page_cache.specs.Causes.{HasPageCause};
ghost use Rattle.page_cache.specs.Evidence.{OnDamage, NotDamaged};
ghost use Rattle.segment_file.specs.Damages.{IsLeafDamageOf};
ghost use Rattle.segment_view.specs.LiveSegments.{Contents, IsRead, AreRead, live_segment, heads_of, ids_of};
ghost use Rattle.segment_view.specs.LiveSegments.{live_in_parts};
ghost use Rattle.segment_view.specs.LiveSegments.{parts_among, has_live};
ghost use Rattle.segment_view.specs.Held.{HasOwnHead, IsHeld, AreHeld};
ghost use Rattle.segment_view.specs.Costs.{leaves_in};
ghost use Rattle.segment_view.specs.Calm.{IsCalm};
ghost use Rattle.segment_view.specs.Damages.{IsPartDamage, IsReadDamage};

use crate::room::room_for;
use crate::segments::Segments;
use live_bits::LiveBits;
use outer_io::Pages;
use page_cache::{PageCache, PageFault};
use point_codec::Entry;
use segment_file::{SegmentHead, append_entries};
use std::alloc::Global;

/// The live entries of the segments of these ids, one segment after another in ascending order of their ids. An id
/// that no segment has counts for nothing.
///
/// Each leaf of these segments is read once at most, by way of the cache; where no number of a segment is live
/// nothing of it is read. Memory for all is taken before the first leaf is read. The answer may be a damage of a leaf
/// that had to be read, Failed and Memory.
pub fn gather<const D: usize, F: Pages>(
    alloc: Global,
    segments: &Segments<D>,
    ids: &[u64],
    cache: &mut PageCache,
    folder: &mut F,
) -> Result<Vec<Entry<D>>, PageFault>
    ensures entries { IsTrue F.told → Agrees (F.files folder.old) cache.old → (c : Contents)
        → AreRead D (F.files folder.old) c segments.now
        → IfOk result (λ v. items_of v.items ≡ live_in_parts c (parts_among ids.now segments.now)) }
    // where no more is known of the files than their heads
    ensures held { IsTrue F.told → Agrees (F.files folder.old) cache.old
        → All (HasOwnHead D (F.files folder.old)) segments.now
        → IfOk result (λ v. AreHeld D (F.files folder.old) (parts_among ids.now segments.now) (items_of v.items)) }
    // Over every folder.
    ensures live { IfOk result
        (λ v. All (λ x. has_live x.doc (parts_among ids.now segments.now) ≡ true) (items_of v.items)) }
    ensures numbers { IfOk result (λ v. All (λ e. e.doc < 2 ^ 24) v.items) }
    ensures reads { F.reads folder.new ≤ F.reads folder.old + leaves_in (heads_of (parts_among ids.now segments.now)) }
    ensures calm { IsCalm F.told (F.files folder.old) (F.files folder.new) cache.old cache.new
        (ids_of (parts_among ids.now segments.now)) }
    // What an error says.
    ensures cause { HasPageCause (F.faults folder.old) (F.faults folder.new) result }
    ensures shown { OnDamage result (IsPartDamage D (parts_among ids.now segments.now)) }
    ensures damage { IsTrue F.told → Agrees (F.files folder.old) cache.old
        → OnDamage result (IsLeafDamageOf (F.files folder.old)) }
    ensures whole { IsTrue F.told → Agrees (F.files folder.old) cache.old → (c : Contents)
        → AreRead D (F.files folder.old) c segments.now → NotDamaged result }
{
    // where each live number has one entry, the list is never moved
    let mut entries = Vec::with_capacity(alloc, room_for(segments, ids))?;
    for i in 0..segments.len() {
        let (head, live) = segments.part(i);
        gather_one(alloc, head, live, ids, cache, folder, &mut entries)?;
    }
    Ok(entries)
}

/// Appends the live entries of a segment, where its id is one of these.
fn gather_one<const D: usize, F: Pages>(
    alloc: Global,
    head: &SegmentHead<D>,
    live: &LiveBits,
    ids: &[u64],
    cache: &mut PageCache,
    folder: &mut F,
    entries: &mut Vec<Entry<D>>,
) -> Result<(), PageFault>
    ensures entries { IsTrue F.told → Agrees (F.files folder.old) cache.old → (c : Contents)
        → IsRead D (F.files folder.old) c (live_segment head.now live.now)
        → OnOk result
        (items_of entries.new.items ≡ items_of entries.old.items ++ live_in_parts c
        (parts_among ids.now (live_segment head.now live.now ∷ []))) }
    ensures held { IsTrue F.told → Agrees (F.files folder.old) cache.old
        → HasOwnHead D (F.files folder.old) (live_segment head.now live.now)
        → OnOk result ((more : List Item) × (items_of entries.new.items ≡ items_of entries.old.items ++ more)
        × AreHeld D (F.files folder.old) (parts_among ids.now (live_segment head.now live.now ∷ [])) more) }
    ensures live { OnOk result
        ((more : List Item) × (items_of entries.new.items ≡ items_of entries.old.items ++ more)
        × All (λ x. has_live x.doc (parts_among ids.now (live_segment head.now live.now ∷ [])) ≡ true) more) }
    ensures numbers { All (λ e. e.doc < 2 ^ 24) entries.old.items
        → OnOk result (All (λ e. e.doc < 2 ^ 24) entries.new.items) }
    ensures reads { F.reads folder.new ≤ F.reads folder.old + leaves_in
        (heads_of (parts_among ids.now (live_segment head.now live.now ∷ []))) }
    ensures calm { IsCalm F.told (F.files folder.old) (F.files folder.new) cache.old cache.new
        (ids_of (parts_among ids.now (live_segment head.now live.now ∷ []))) }
    ensures cause { HasPageCause (F.faults folder.old) (F.faults folder.new) result }
    ensures shown { OnDamage result (IsPartDamage D (parts_among ids.now (live_segment head.now live.now ∷ []))) }
    ensures damage { IsTrue F.told → Agrees (F.files folder.old) cache.old
        → OnDamage result (IsLeafDamageOf (F.files folder.old)) }
    ensures whole { IsTrue F.told → Agrees (F.files folder.old) cache.old → (c : Contents)
        → IsRead D (F.files folder.old) c (live_segment head.now live.now) → NotDamaged result }
{
    if !ids.contains(&head.id()) {
        return Ok(());
    }
    append_live(alloc, head, live, cache, folder, entries)
}

/// Appends the live entries of a segment.
fn append_live<const D: usize, F: Pages>(
    alloc: Global,
    head: &SegmentHead<D>,
    live: &LiveBits,
    cache: &mut PageCache,
    folder: &mut F,
    entries: &mut Vec<Entry<D>>,
) -> Result<(), PageFault>
    ensures entries { IsTrue F.told → Agrees (F.files folder.old) cache.old → (c : Contents)
        → IsRead D (F.files folder.old) c (live_segment head.now live.now)
        → OnOk result
        (items_of entries.new.items ≡ items_of entries.old.items ++ live_in_parts c
        (live_segment head.now live.now ∷ [])) }
    ensures held { IsTrue F.told → Agrees (F.files folder.old) cache.old
        → HasOwnHead D (F.files folder.old) (live_segment head.now live.now)
        → OnOk result
        ((more : List Item) × (items_of entries.new.items ≡ items_of entries.old.items ++ more)
        × IsHeld D (F.files folder.old) (live_segment head.now live.now) more) }
    ensures live { OnOk result
        ((more : List Item) × (items_of entries.new.items ≡ items_of entries.old.items ++ more)
        × All (λ x. is_live live.now x.doc ≡ true) more) }
    ensures numbers { All (λ e. e.doc < 2 ^ 24) entries.old.items
        → OnOk result (All (λ e. e.doc < 2 ^ 24) entries.new.items) }
    ensures reads { F.reads folder.new ≤ F.reads folder.old + head.now.index.leaves }
    ensures calm { IsCalm F.told (F.files folder.old) (F.files folder.new) cache.old cache.new (head.now.id ∷ []) }
    ensures cause { HasPageCause (F.faults folder.old) (F.faults folder.new) result }
    ensures shown { OnDamage result (IsReadDamage D head.now) }
    ensures damage { IsTrue F.told → Agrees (F.files folder.old) cache.old
        → OnDamage result (IsLeafDamageOf (F.files folder.old)) }
    ensures whole { IsTrue F.told → Agrees (F.files folder.old) cache.old → (c : Contents)
        → IsRead D (F.files folder.old) c (live_segment head.now live.now) → NotDamaged result }
{
    if live.live_count() == 0 {
        return Ok(());
    }
    head.index().is_spelled();
    append_entries(alloc, folder, cache, head, live, entries)
}
