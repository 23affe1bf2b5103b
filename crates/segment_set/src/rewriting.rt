//! Live entries of segments are gathered, a segment is built of them, and it takes their place.

ghost use Rattle.std.specs.Prelude.{◌≡◌, ◌≤◌, ◌<◌, ◌^◌, ℕ, List, true, None, Some, length};
ghost use Rattle.std.specs.Prelude.{All, IsTrue, IfOk, OnOk, OnErr, IsErrOf};
ghost use Rattle.std.specs.List.Sorted.{IsPermutation};
ghost use Rattle.std.specs.Option.{option_copied};
ghost use Rattle.outer_io.specs.declared.file_name.FileName.TheVariants.{Segment};
ghost use Rattle.point_codec.specs.Points.{Item};
ghost use Rattle.point_codec.specs.Seen.{items_of};
ghost use Rattle.leaf_codec.specs.LeafOrder.{NoneTwice};
ghost use Rattle.live_bits.specs.LiveSet.{IsLiveSet, is_live};
ghost use Rattle.documents.specs.Entries.{MakeDocs, has_entry, is_among};
ghost use Rattle.page_cache.specs.Causes.{HasPageCause};
ghost use Rattle.page_cache.specs.Evidence.{OnDamage, NotDamaged};
ghost use Rattle.page_cache.specs.declared.faults.PageFault.TheVariants as fault;
ghost use Rattle.segment_view.specs.LiveSegments.{Contents, AreRead, live_in_parts, parts_among};
ghost use Rattle.document_checks.specs.Crowded.{AreUncrowded};
ghost use Rattle.segment_build.specs.NewSegments.{NewSegmentData, HasEntries};
ghost use Rattle.file_names.specs.Names.{NameList, is_named};
ghost use Rattle.segment_set.specs.Sets.{AreAlone, IsNamed};
ghost use Rattle.segment_set.specs.Kept.{KeepsNamed};
ghost use Rattle.segment_set.specs.Merges.{IsGathered, IsMerged, Swaps, LosesNone, MakesLive};
ghost use Rattle.segment_set.specs.Merges.{Replaces, living};
ghost use Rattle.segment_set.specs.Damages.{IsDoubt, IsEvidentIn, IsMergeDamage, IsMergeDamageOf};
ghost use Rattle.segment_set.specs.Faithful.{HasFileHead};

use crate::build_plan::BuildPlan;
use bkd_build::Gate;
use document_checks::{doubled, fits_docs};
use file_names::FileNames;
use outer_io::{FileName, Folder, Pages};
use page_cache::{Damage, PageCache, PageFault};
use point_codec::Entry;
use segment_build::{NewSegment, build_segment};
use segment_view::{Segments, gather};
use std::alloc::Global;
use std::marker::Sync;
use std::thread::Threads;

/// Looks for more entries than points were given, and for a number with more than 16 or one twice: a damage.
fn check_entries<const D: usize>(
    alloc: Global,
    entries: &[Entry<D>],
    points_given: u32,
) -> Result<(), PageFault>
    ensures few { OnOk result (length entries.now ≤ points_given) }
    ensures once { OnOk result (NoneTwice (items_of entries.now)) }
    ensures uncrowded { OnOk result (AreUncrowded (items_of entries.now)) }
    ensures unfailed { IsErrOf result fault.Failed → ⊥ }
    ensures shown { OnDamage result (IsDoubt points_given (items_of entries.now)) }
    ensures whole { (next : ℕ) → MakeDocs next (items_of entries.now) → length entries.now ≤ points_given
        → NotDamaged result }
{
    fits_docs();
    let found = entries.len() as u64;
    if found > u64::from(points_given) {
        return Err(PageFault::Damaged(Damage::Unequal {
            file: FileName::Commit,
            said: u64::from(points_given),
            found,
        }));
    }
    match doubled(alloc, entries)? {
        Some(doc) => Err(PageFault::Damaged(Damage::Doubled { doc })),
        None => Ok(()),
    }
}

/// Builds a segment of entries, where they may be those of documents.
fn build_of<const D: usize, R: Threads + Sync, G: Gate>(
    rt: &R,
    alloc: Global,
    entries: &mut [Entry<D>],
    plan: &BuildPlan<D>,
    gate: &G,
) -> Result<NewSegment<D>, PageFault>
    requires dims { D ≤ 8 }
    requires some { 1 ≤ length entries.old }
    requires numbers { All (λ e. e.doc < 2 ^ 24) entries.old }
    ensures has { IfOk result
        (λ n. (items : List Item) × IsPermutation (items_of entries.old) items × HasEntries D items n) }
    ensures live { IfOk result
        (λ n. IsLiveSet n.live × (is_live n.live ≡ (λ number. has_entry number (items_of entries.old)))) }
    ensures leaf_size { IfOk result (λ n. n.leaf_size ≡ plan.now.leaf_size) }
    ensures uncrowded { OnOk result (AreUncrowded (items_of entries.old)) }
    ensures unfailed { IsErrOf result fault.Failed → ⊥ }
    ensures shown { OnDamage result (IsDoubt plan.now.points_given (items_of entries.old)) }
    ensures whole { (next : ℕ) → MakeDocs next (items_of entries.old) → length entries.old ≤ plan.now.points_given
        → NotDamaged result }
{
    check_entries(alloc, entries, plan.points_given)?;
    Ok(build_segment(rt, alloc, entries, plan.leaf_size, plan.forks, gate)?)
}

/// Gathers what is live in the segments of these ids, and builds a segment of it; none, where nothing is live. Leaves
/// are read by way of a cache of one page, since those of a page follow each other, and what queries keep stays kept.
pub(crate) fn gathered<const D: usize, R: Threads + Sync, F: Pages, G: Gate>(
    rt: &R,
    alloc: Global,
    segments: &Segments<D>,
    ids: &[u64],
    folder: &mut F,
    plan: &BuildPlan<D>,
    gate: &G,
) -> Result<Option<NewSegment<D>>, PageFault>
    requires { D ≤ 8 }
    ensures gathered { IfOk result
        (λ o. (n : NewSegmentData) → o ≡ Some n
        → IsGathered D plan.now.leaf_size (parts_among ids.now segments.now) n) }
    ensures makes { IsTrue F.told → (c : Contents) → AreRead D (F.files folder.old) c segments.now
        → IfOk result (MakesLive D (live_in_parts c (parts_among ids.now segments.now))) }
    ensures loses { IfOk result (LosesNone D (IsTrue F.told) (F.files folder.old) ids.now segments.now) }
    ensures files { IsTrue F.told → F.files folder.new ≡ F.files folder.old }
    ensures cause { HasPageCause (F.faults folder.old) (F.faults folder.new) result }
    ensures whole { IsTrue F.told → (c : Contents) → AreRead D (F.files folder.old) c segments.now
        → (next : ℕ) → MakeDocs next (live_in_parts c (parts_among ids.now segments.now))
        → length (live_in_parts c (parts_among ids.now segments.now)) ≤ plan.now.points_given
        → NotDamaged result }
    ensures shown { (names now : NameList)
        → OnDamage result (IsMergeDamage D plan.now.points_given names now segments.now) }
    ensures damage { IsTrue F.told → OnDamage result (IsMergeDamageOf (F.files folder.new) plan.now.points_given) }
    ensures doubled { IsTrue F.told → (c : Contents) → AreRead D (F.files folder.old) c segments.now
        → OnDamage result (IsDoubt plan.now.points_given (live_in_parts c segments.now)) }
    ensures evident { OnDamage result
        (IsEvidentIn D (F.files folder.old) segments.now 0 plan.now.points_given
        (IsTrue F.told × All (HasFileHead D (F.files folder.old)) segments.now × AreAlone segments.now)
        (F.files folder.new)) }
{
    let mut once = PageCache::new(alloc, 1)?;
    let mut entries = gather(alloc, segments, ids, &mut once, folder)?;
    if entries.is_empty() {
        return Ok(None);
    }
    Ok(Some(build_of(rt, alloc, entries.as_mut_slice(), plan, gate)?))
}

/// Writes a segment under a new name, and puts it in place of the segments of these ids. A refusal leaves the segments.
pub(crate) fn swap<const D: usize, F: Folder>(
    alloc: Global,
    folder: &mut F,
    names: &mut FileNames,
    segments: &mut Segments<D>,
    new: &NewSegment<D>,
    ids: &[u64],
) -> Result<(), PageFault>
    requires dims { D ≤ 8 }
    requires named { All (IsNamed names.old) segments.old }
    requires among { (id : ℕ) → is_among ids.now id ≡ true → is_named names.old.names (Segment id) ≡ true }
    ensures put { OnOk result
        (Swaps D (IsTrue F.told) names.old names.new (F.files folder.new) ids.now new.now segments.old segments.new) }
    ensures refused { OnErr result (segments.new ≡ segments.old) }
    ensures kept { KeepsNamed (IsTrue F.told) names.old names.new (F.files folder.old) (F.files folder.new) }
    ensures reads { F.reads folder.new ≡ F.reads folder.old }
    ensures cause { HasPageCause (F.faults folder.old) (F.faults folder.new) result }
    ensures whole { NotDamaged result }
{
    let live = new.live().copy(alloc)?;
    let id = names.name_segment()?;
    let head = new.write(alloc, folder, id)?;
    segments.insert(head, live)?;
    segments.remove(ids);
    Ok(())
}

/// Puts what was built in place of the segments of these ids. Where no number of it is live, or nothing was built,
/// these only go.
pub(crate) fn replace<const D: usize, F: Folder>(
    alloc: Global,
    folder: &mut F,
    names: &mut FileNames,
    segments: &mut Segments<D>,
    built: Option<&NewSegment<D>>,
    ids: &[u64],
) -> Result<(), PageFault>
    requires dims { D ≤ 8 }
    requires named { All (IsNamed names.old) segments.old }
    requires among { (id : ℕ) → is_among ids.now id ≡ true → is_named names.old.names (Segment id) ≡ true }
    ensures unnamed { OnOk result (living (option_copied built.entry) ≡ None → names.new ≡ names.old) }
    ensures replaced { OnOk result
        (Replaces D (IsTrue F.told) names.old names.new (F.files folder.new) ids.now
        (living (option_copied built.entry)) segments.old segments.new) }
    ensures refused { OnErr result (segments.new ≡ segments.old) }
    ensures kept { KeepsNamed (IsTrue F.told) names.old names.new (F.files folder.old) (F.files folder.new) }
    ensures reads { F.reads folder.new ≡ F.reads folder.old }
    ensures cause { HasPageCause (F.faults folder.old) (F.faults folder.new) result }
    ensures whole { NotDamaged result }
{
    match built {
        Some(new) if new.live().live_count() > 0 => swap(alloc, folder, names, segments, new, ids),
        _ => {
            segments.remove(ids);
            Ok(())
        }
    }
}

/// Merges the segments of these ids into one. A refusal leaves the segments.
pub(crate) fn merge<const D: usize, R: Threads + Sync, F: Folder, G: Gate>(
    rt: &R,
    alloc: Global,
    folder: &mut F,
    names: &mut FileNames,
    segments: &mut Segments<D>,
    ids: &[u64],
    plan: &BuildPlan<D>,
    gate: &G,
) -> Result<(), PageFault>
    requires dims { D ≤ 8 }
    requires named { All (IsNamed names.old) segments.old }
    requires among { (id : ℕ) → is_among ids.now id ≡ true → is_named names.old.names (Segment id) ≡ true }
    ensures merged { OnOk result
        (IsMerged D (IsTrue F.told) plan.now.leaf_size names.old names.new (F.files folder.old)
        (F.files folder.new) ids.now segments.old segments.new) }
    ensures refused { OnErr result (segments.new ≡ segments.old) }
    ensures kept { KeepsNamed (IsTrue F.told) names.old names.new (F.files folder.old) (F.files folder.new) }
    ensures cause { HasPageCause (F.faults folder.old) (F.faults folder.new) result }
    ensures whole { IsTrue F.told → (c : Contents) → AreRead D (F.files folder.old) c segments.old
        → (next : ℕ) → MakeDocs next (live_in_parts c (parts_among ids.now segments.old))
        → length (live_in_parts c (parts_among ids.now segments.old)) ≤ plan.now.points_given
        → NotDamaged result }
    ensures shown { OnDamage result (IsMergeDamage D plan.now.points_given names.old names.new segments.old) }
    ensures damage { IsTrue F.told → OnDamage result (IsMergeDamageOf (F.files folder.new) plan.now.points_given) }
    ensures doubled { IsTrue F.told → (c : Contents) → AreRead D (F.files folder.old) c segments.old
        → OnDamage result (IsDoubt plan.now.points_given (live_in_parts c segments.old)) }
    ensures evident { OnDamage result
        (IsEvidentIn D (F.files folder.old) segments.old 0 plan.now.points_given
        (IsTrue F.told × All (HasFileHead D (F.files folder.old)) segments.old × AreAlone segments.old)
        (F.files folder.new)) }
{
    let built = gathered(rt, alloc, segments, ids, folder, plan, gate)?;
    replace(alloc, folder, names, segments, built.as_ref(), ids)
}
