//! The leaves of all segments, read one segment after the other.

ghost use Rattle.std.specs.Prelude.{◌≡◌, ◌≤◌, ◌+◌, ◌++◌, List, length, sum_by, true, IsTrue, IfOk, OnOk, All};
ghost use Rattle.std.specs.List.{AllZip};
ghost use Rattle.point_codec.specs.Points.{Item};
ghost use Rattle.point_codec.specs.Seen.{items_of};
ghost use Rattle.page_cache.specs.Cache.{Agrees};
ghost use Rattle.page_cache.specs.Causes.{HasPageCause};
ghost use Rattle.page_cache.specs.Evidence.{OnDamage, NotDamaged};
ghost use Rattle.segment_file.specs.Damages.{IsLeafDamageOf};
ghost use Rattle.segment_view.specs.LiveSegments.{heads_of, live_segment};
ghost use Rattle.segment_view.specs.Held.{AreHeld, HasOwnHead, IsHeld};
ghost use Rattle.segment_view.specs.Damages.{IsPartDamage, IsReadDamage};
ghost use Rattle.folder_check.specs.Checked.{leaf_pages};
ghost use Rattle.folder_check.specs.First.{IsFirstLeaf};
ghost use Rattle.folder_check.specs.Found.{HasSegment, IsFinding};

use crate::findings::Finding;
use document_checks::tally;
use live_bits::LiveBits;
use outer_io::Pages;
use page_cache::{PageCache, PageFault};
use point_codec::Entry;
use segment_file::{SegmentHead, append_entries, numbers_without_entry, read_entries};
use segment_view::Segments;
use std::alloc::Global;

/// What the leaves of each segment have. All leaves are read, those of segments without a live number too, and each of
/// their pages once: leaves of one page follow each other, and the page that was read last is kept. Where `keeps` is
/// set the live entries of all segments are put behind those of `kept`. Else those of one segment at a time are in
/// memory, and of one with as many entries as live numbers a bit for each number alone.
pub(crate) fn read_leaves<const D: usize, F: Pages>(
    alloc: Global,
    folder: &mut F,
    segments: &Segments<D>,
    keeps: bool,
    kept: &mut Vec<Entry<D>>,
) -> Result<Vec<Finding>, PageFault>
    ensures kept { keeps ≡ true → IsTrue F.told → All (HasOwnHead D (F.files folder.old)) segments.now → OnOk result
        ((more : List Item) × (items_of kept.new.items ≡ items_of kept.old.items ++ more)
        × AreHeld D (F.files folder.old) segments.now more) }
    ensures found { IsTrue F.told → All (HasOwnHead D (F.files folder.old)) segments.now
        → IfOk result (λ v. AllZip (IsFinding D (F.files folder.old)) segments.now v.items) }
    ensures each { IfOk result (λ v. length v.items ≡ length segments.now) }
    ensures files { IsTrue F.told → F.files folder.new ≡ F.files folder.old }
    ensures reads { IsTrue F.told → All (HasOwnHead D (F.files folder.old)) segments.now
        → F.reads folder.new ≤ F.reads folder.old + sum_by (leaf_pages (F.files folder.old)) (heads_of segments.now) }
    ensures cause { HasPageCause (F.faults folder.old) (F.faults folder.new) result }
    ensures shown { OnDamage result (IsPartDamage D segments.now) }
    // of the first segment that has one
    ensures first { IsTrue F.told → All (HasOwnHead D (F.files folder.old)) segments.now
        → OnDamage result (IsFirstLeaf D (F.files folder.old) segments.now) }
    ensures damage { IsTrue F.told → OnDamage result (IsLeafDamageOf (F.files folder.old)) }
    ensures whole { IsTrue F.told → All (HasSegment D (F.files folder.old)) segments.now → NotDamaged result }
{
    let mut cache = PageCache::new(alloc, 1)?;
    let mut findings = Vec::new(alloc);
    for i in 0..segments.len() {
        let (head, live) = segments.part(i);
        let finding = read_segment(alloc, folder, &mut cache, head, live, keeps, kept)?;
        findings.extend_from_slice(&[finding])?;
    }
    Ok(findings)
}

/// What the leaves of a segment have. Where `keeps` is set its live entries are put behind those of `kept`.
fn read_segment<const D: usize, F: Pages>(
    alloc: Global,
    folder: &mut F,
    cache: &mut PageCache,
    head: &SegmentHead<D>,
    live: &LiveBits,
    keeps: bool,
    kept: &mut Vec<Entry<D>>,
) -> Result<Finding, PageFault>
    ensures kept { keeps ≡ true → IsTrue F.told → Agrees (F.files folder.old) cache.old
        → HasOwnHead D (F.files folder.old) (live_segment head.now live.now) → OnOk result
        ((more : List Item) × (items_of kept.new.items ≡ items_of kept.old.items ++ more)
        × IsHeld D (F.files folder.old) (live_segment head.now live.now) more) }
    ensures found { IsTrue F.told → Agrees (F.files folder.old) cache.old
        → HasOwnHead D (F.files folder.old) (live_segment head.now live.now)
        → IfOk result (IsFinding D (F.files folder.old) (live_segment head.now live.now)) }
    ensures files { IsTrue F.told → F.files folder.new ≡ F.files folder.old }
    ensures agrees { IsTrue F.told → Agrees (F.files folder.old) cache.old → Agrees (F.files folder.old) cache.new }
    ensures reads { IsTrue F.told → HasOwnHead D (F.files folder.old) (live_segment head.now live.now)
        → F.reads folder.new ≤ F.reads folder.old + leaf_pages (F.files folder.old) head.now }
    ensures cause { HasPageCause (F.faults folder.old) (F.faults folder.new) result }
    ensures shown { OnDamage result (IsReadDamage D head.now) }
    ensures damage { IsTrue F.told → Agrees (F.files folder.old) cache.old
        → OnDamage result (IsLeafDamageOf (F.files folder.old)) }
    ensures whole { IsTrue F.told → Agrees (F.files folder.old) cache.old
        → HasSegment D (F.files folder.old) (live_segment head.now live.now) → NotDamaged result }
{
    if keeps {
        keep_entries(alloc, folder, cache, head, live, kept)
    } else {
        count_entries(alloc, folder, cache, head, live)
    }
}

/// What the leaves of a segment have, whose live entries are put behind those of the list.
fn keep_entries<const D: usize, F: Pages>(
    alloc: Global,
    folder: &mut F,
    cache: &mut PageCache,
    head: &SegmentHead<D>,
    live: &LiveBits,
    kept: &mut Vec<Entry<D>>,
) -> Result<Finding, PageFault>
    ensures kept { IsTrue F.told → Agrees (F.files folder.old) cache.old
        → HasOwnHead D (F.files folder.old) (live_segment head.now live.now) → OnOk result
        ((more : List Item) × (items_of kept.new.items ≡ items_of kept.old.items ++ more)
        × IsHeld D (F.files folder.old) (live_segment head.now live.now) more) }
    ensures found { IsTrue F.told → Agrees (F.files folder.old) cache.old
        → HasOwnHead D (F.files folder.old) (live_segment head.now live.now)
        → IfOk result (IsFinding D (F.files folder.old) (live_segment head.now live.now)) }
    ensures files { IsTrue F.told → F.files folder.new ≡ F.files folder.old }
    ensures agrees { IsTrue F.told → Agrees (F.files folder.old) cache.old → Agrees (F.files folder.old) cache.new }
    ensures reads { IsTrue F.told → HasOwnHead D (F.files folder.old) (live_segment head.now live.now)
        → F.reads folder.new ≤ F.reads folder.old + leaf_pages (F.files folder.old) head.now }
    ensures cause { HasPageCause (F.faults folder.old) (F.faults folder.new) result }
    ensures shown { OnDamage result (IsReadDamage D head.now) }
    ensures damage { IsTrue F.told → Agrees (F.files folder.old) cache.old
        → OnDamage result (IsLeafDamageOf (F.files folder.old)) }
    ensures whole { IsTrue F.told → Agrees (F.files folder.old) cache.old
        → HasSegment D (F.files folder.old) (live_segment head.now live.now) → NotDamaged result }
{
    head.index().is_spelled();
    let from = kept.len();
    append_entries(alloc, folder, cache, head, live, kept)?;
    let entries = &kept.as_slice()[from..];
    let told = tally(alloc, live, entries)?;
    Ok(Finding {
        found: told.0,
        crowded: told.1,
        entries: entries.len() as u64,
    })
}

/// What the leaves of a segment have.
fn count_entries<const D: usize, F: Pages>(
    alloc: Global,
    folder: &mut F,
    cache: &mut PageCache,
    head: &SegmentHead<D>,
    live: &LiveBits,
) -> Result<Finding, PageFault>
    ensures found { IsTrue F.told → Agrees (F.files folder.old) cache.old
        → HasOwnHead D (F.files folder.old) (live_segment head.now live.now)
        → IfOk result (IsFinding D (F.files folder.old) (live_segment head.now live.now)) }
    ensures files { IsTrue F.told → F.files folder.new ≡ F.files folder.old }
    ensures agrees { IsTrue F.told → Agrees (F.files folder.old) cache.old → Agrees (F.files folder.old) cache.new }
    ensures reads { IsTrue F.told → HasOwnHead D (F.files folder.old) (live_segment head.now live.now)
        → F.reads folder.new ≤ F.reads folder.old + leaf_pages (F.files folder.old) head.now }
    ensures cause { HasPageCause (F.faults folder.old) (F.faults folder.new) result }
    ensures shown { OnDamage result (IsReadDamage D head.now) }
    ensures damage { IsTrue F.told → Agrees (F.files folder.old) cache.old
        → OnDamage result (IsLeafDamageOf (F.files folder.old)) }
    ensures whole { IsTrue F.told → Agrees (F.files folder.old) cache.old
        → HasSegment D (F.files folder.old) (live_segment head.now live.now) → NotDamaged result }
{
    if head.entries() == live.live_count() {
        return read_numbers(alloc, folder, cache, head, live);
    }
    head.index().is_spelled();
    let entries = read_entries(alloc, folder, cache, head, live)?;
    let told = tally(alloc, live, entries.as_slice())?;
    Ok(Finding {
        found: told.0,
        crowded: told.1,
        entries: entries.len() as u64,
    })
}

/// What the leaves of a segment have that has as many entries as live numbers. Where each of these has an entry, none
/// has another: none is crowded, and all entries are live. So the numbers tell all, and no entry is kept.
fn read_numbers<const D: usize, F: Pages>(
    alloc: Global,
    folder: &mut F,
    cache: &mut PageCache,
    head: &SegmentHead<D>,
    live: &LiveBits,
) -> Result<Finding, PageFault>
    requires { head.now.entries ≡ length live.now.live }
    ensures found { IsTrue F.told → Agrees (F.files folder.old) cache.old
        → HasOwnHead D (F.files folder.old) (live_segment head.now live.now)
        → IfOk result (IsFinding D (F.files folder.old) (live_segment head.now live.now)) }
    ensures files { IsTrue F.told → F.files folder.new ≡ F.files folder.old }
    ensures agrees { IsTrue F.told → Agrees (F.files folder.old) cache.old → Agrees (F.files folder.old) cache.new }
    ensures reads { IsTrue F.told → HasOwnHead D (F.files folder.old) (live_segment head.now live.now)
        → F.reads folder.new ≤ F.reads folder.old + leaf_pages (F.files folder.old) head.now }
    ensures cause { HasPageCause (F.faults folder.old) (F.faults folder.new) result }
    ensures shown { OnDamage result (IsReadDamage D head.now) }
    ensures damage { IsTrue F.told → Agrees (F.files folder.old) cache.old
        → OnDamage result (IsLeafDamageOf (F.files folder.old)) }
    ensures whole { IsTrue F.told → Agrees (F.files folder.old) cache.old
        → HasSegment D (F.files folder.old) (live_segment head.now live.now) → NotDamaged result }
{
    head.index().is_spelled();
    let left = numbers_without_entry(alloc, folder, cache, head, live)?;
    Ok(Finding {
        found: live.live_count() - left.live_count(),
        crowded: None,
        entries: u64::from(head.entries()),
    })
}
