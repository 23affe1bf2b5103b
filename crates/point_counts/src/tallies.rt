//! The counts of segments and of a buffer.

ghost use Rattle.std.specs.Prelude.{◌≤◌, ◌+◌, ℕ, [], ◌∷◌, length, IsTrue, OnOk};
ghost use Rattle.point_codec.specs.Seen.{items_of};
ghost use Rattle.page_cache.specs.Cache.{Agrees};
ghost use Rattle.page_cache.specs.Causes.{HasPageCause};
ghost use Rattle.page_cache.specs.Evidence.{OnDamage, NotDamaged};
ghost use Rattle.segment_file.specs.Damages.{IsLeafDamageOf};
ghost use Rattle.segment_view.specs.LiveSegments.{Contents, IsRead, AreRead, live_segment, ids_of, live_in_parts};
ghost use Rattle.segment_view.specs.Calm.{IsCalm};
ghost use Rattle.segment_view.specs.Damages.{IsPartDamage, IsReadDamage};
ghost use Rattle.point_counts.specs.Tables.{AddsCounts, all_at};
ghost use Rattle.point_counts.specs.Costs.{OpensLeaves};

use crate::leaf::add;
use crate::sorting::Sorting;
use crate::walk::count_below;
use live_bits::LiveBits;
use outer_io::Pages;
use page_cache::{PageCache, PageFault};
use point_codec::Entry;
use segment_file::SegmentHead;
use segment_view::Segments;
use std::alloc::Global;

/// Counts the live entries of the segments, each at its place.
pub(crate) fn count_segments<const D: usize, S: Sorting<D>, F: Pages>(
    alloc: Global,
    segments: &Segments<D>,
    cache: &mut PageCache,
    folder: &mut F,
    sorting: &S,
    table: &mut [u64],
) -> Result<(), PageFault>
    ensures counts { IsTrue F.told → Agrees (F.files folder.old) cache.old → (c : Contents)
        → AreRead D (F.files folder.old) c segments.now
        → OnOk result (AddsCounts (all_at (S.bounds sorting.now) (S.place sorting.now) (live_in_parts c segments.now))
        table.old table.new) }
    ensures few { length segments.now ≤ 16777216 }
    ensures reads { (n : ℕ) → OpensLeaves D (S.bounds sorting.now) (S.parts sorting.now) segments.now n
        → F.reads folder.new ≤ F.reads folder.old + n }
    ensures calm { IsCalm F.told (F.files folder.old) (F.files folder.new) cache.old cache.new (ids_of segments.now) }
    ensures cause { HasPageCause (F.faults folder.old) (F.faults folder.new) result }
    ensures shown { OnDamage result (IsPartDamage D segments.now) }
    ensures damage { IsTrue F.told → Agrees (F.files folder.old) cache.old
        → OnDamage result (IsLeafDamageOf (F.files folder.old)) }
    ensures whole { IsTrue F.told → Agrees (F.files folder.old) cache.old → (c : Contents)
        → AreRead D (F.files folder.old) c segments.now → NotDamaged result }
{
    for i in 0..segments.len() {
        let (head, live) = segments.part(i);
        count_one(alloc, head, live, cache, folder, sorting, table)?;
    }
    Ok(())
}

/// Counts the live entries of a segment, each at its place.
fn count_one<const D: usize, S: Sorting<D>, F: Pages>(
    alloc: Global,
    head: &SegmentHead<D>,
    live: &LiveBits,
    cache: &mut PageCache,
    folder: &mut F,
    sorting: &S,
    table: &mut [u64],
) -> Result<(), PageFault>
    ensures counts { IsTrue F.told → Agrees (F.files folder.old) cache.old → (c : Contents)
        → IsRead D (F.files folder.old) c (live_segment head.now live.now)
        → OnOk result (AddsCounts (all_at (S.bounds sorting.now) (S.place sorting.now)
        (live_in_parts c (live_segment head.now live.now ∷ []))) table.old table.new) }
    ensures reads { (n : ℕ)
        → OpensLeaves D (S.bounds sorting.now) (S.parts sorting.now) (live_segment head.now live.now ∷ [])
        n → F.reads folder.new ≤ F.reads folder.old + n }
    ensures calm { IsCalm F.told (F.files folder.old) (F.files folder.new) cache.old cache.new (head.now.id ∷ []) }
    ensures cause { HasPageCause (F.faults folder.old) (F.faults folder.new) result }
    ensures shown { OnDamage result (IsReadDamage D head.now) }
    ensures damage { IsTrue F.told → Agrees (F.files folder.old) cache.old
        → OnDamage result (IsLeafDamageOf (F.files folder.old)) }
    ensures whole { IsTrue F.told → Agrees (F.files folder.old) cache.old → (c : Contents)
        → IsRead D (F.files folder.old) c (live_segment head.now live.now) → NotDamaged result }
{
    let count = live.live_count();
    if count == 0 {
        return Ok(());
    }
    let clean = count == head.entries();
    head.index().is_spelled();
    let root = head.index().walk();
    count_below(
        alloc, head, &root, cache, folder, sorting, live, clean, table,
    )
}

/// Counts the buffer's entries, each at its place.
pub(crate) fn count_buffer<const D: usize, S: Sorting<D>>(
    buffer: &[Entry<D>],
    sorting: &S,
    table: &mut [u64],
)
    ensures { AddsCounts
        (all_at (S.bounds sorting.now) (S.place sorting.now) (items_of buffer.now)) table.old table.new }
{
    for entry in buffer {
        let Some(place) = sorting.place_of(&entry.point) else {
            continue;
        };
        add(table, place, 1);
    }
}
