//! Which segments are merged: those that the policy chooses, and those at given positions.

ghost use Rattle.std.specs.Prelude.{◌≡◌, ◌≤◌, ◌<◌, ◌+◌, ◌↔◌, ℕ, List, true, false, not, nat_lt, length, map, filter};
ghost use Rattle.std.specs.Prelude.{take, slice_index, count_by, All, IsTrue, IfOk, IfNone, IfSome};
ghost use Rattle.std.specs.List.Sorted.{IsStrictlyIncreasing};
ghost use Rattle.documents.specs.Entries.{is_among};
ghost use Rattle.merge_policy.specs.Choice.{IsChoice, free_count};
ghost use Rattle.segment_view.specs.LiveSegments.{heads_of, ids_of, live_segment, parts_among};
ghost use Rattle.segment_set.specs.Sets.{inputs_of, sizes_of};
ghost use Rattle.segment_set.specs.Merged.{IsApart, IsWhole, each_once};

use crate::set::Begun;
use arrayvec::ArrayVec;
use live_bits::LiveBits;
use merge_policy::{choose, few_are_left};
use page_cache::Memory;
use segment_file::SegmentHead;
use segment_view::Segments;
use std::alloc::Global;

/// The inputs of the begun merge; none, where none is begun.
pub(crate) fn inputs_of<const D: usize>(begun: &Option<Begun<D>>) -> &[u64]
    ensures { result.now ≡ inputs_of begun.now }
{
    match begun {
        Some(merge) => merge.inputs.as_slice(),
        None => &[],
    }
}

/// The ids of the segments that the policy chooses, of which none is an input of the begun merge; None where it chooses
/// none.
pub(crate) fn chosen<const D: usize>(
    alloc: Global,
    segments: &Segments<D>,
    inputs: &[u64],
) -> Result<Option<Vec<u64>>, Memory>
    requires dims { D ≤ 8 }
    requires few { length segments.now ≤ 65535 }
    ensures none { IfOk result
        (λ o. IfNone o
        ((level : ℕ) → free_count level (sizes_of segments.now)
        (map (λ p. is_among inputs.now p.head.id) segments.now) < 10)) }
    ensures apart { IfOk result (λ o. IfSome o (λ ids. IsApart ids.items inputs.now segments.now)) }
    ensures some { IfOk result (λ o. IfSome o (λ ids. 2 ≤ length (parts_among ids.items segments.now))) }
    ensures ten { IfOk result (λ o. IfSome o (λ ids. (level : ℕ)
        × (10 ≤ free_count level (sizes_of segments.now) (map (λ p. is_among inputs.now p.head.id) segments.now)))) }
    ensures choice { IfOk result (λ o. IfSome o (λ ids. (positions : List ℕ)
        × IsChoice (sizes_of segments.now) (map (λ p. is_among inputs.now p.head.id) segments.now) positions
        × (ids.items ≡ map (slice_index (ids_of segments.now)) positions))) }
    // where nothing is chosen there are few segments: nine of a level at most are no inputs
    ensures room { length inputs.now ≤ 64 → IfOk result (λ o. IfNone o (length segments.now < 200)) }
{
    let sizes = segments.sizes(alloc)?;
    let pins = pins(alloc, segments, inputs)?;
    let Some(positions) = choice(sizes.as_slice(), pins.as_slice()) else {
        return Ok(None);
    };
    Ok(Some(ids_at(alloc, segments, positions.as_slice())?))
}

/// The positions that the policy chooses. Where it chooses none few are left that are no inputs.
fn choice(sizes: &[u32], pins: &[bool]) -> Option<ArrayVec<u32, 10>>
    requires same { length sizes.now ≡ length pins.now }
    requires few { length sizes.now ≤ 65535 }
    ensures choice { IfSome result (λ positions. IsChoice sizes.now pins.now positions.items) }
    ensures none { IfNone result ((level : ℕ) → free_count level sizes.now pins.now < 10) }
    ensures left { IfNone result (length sizes.now ≤ 72 + count_by (λ pin. pin) pins.now) }
{
    few_are_left();
    choose(sizes, pins)
}

/// Whether each segment is one of the inputs.
fn pins<const D: usize>(
    alloc: Global,
    segments: &Segments<D>,
    inputs: &[u64],
) -> Result<Vec<bool>, Memory>
    requires { D ≤ 8 }
    ensures pins { IfOk result (λ v. v.items ≡ map (λ h. is_among inputs.now h.id) (heads_of segments.now)) }
    ensures ascend { IsStrictlyIncreasing (ids_of segments.now) }
{
    let mut pins = Vec::new(alloc);
    for head in segments.heads() {
        pins.push(inputs.contains(&head.id()))?;
    }
    Ok(pins)
}

/// The ids of the segments that are none of the inputs.
pub(crate) fn unpinned<const D: usize>(
    alloc: Global,
    segments: &Segments<D>,
    inputs: &[u64],
) -> Result<Vec<u64>, Memory>
    requires { D ≤ 8 }
    ensures { IfOk result (λ v. v.items ≡ filter (λ id. not (is_among inputs.now id)) (ids_of segments.now)) }
{
    let mut ids = Vec::new(alloc);
    for head in segments.heads() {
        if !inputs.contains(&head.id()) {
            ids.push(head.id())?;
        }
    }
    Ok(ids)
}

/// The ids of the segments at these positions.
pub(crate) fn ids_at<const D: usize>(
    alloc: Global,
    segments: &Segments<D>,
    positions: &[u32],
) -> Result<Vec<u64>, Memory>
    requires dims { D ≤ 8 }
    requires within { All (λ i. i < length segments.now) positions.now }
    ensures { IfOk result (λ v. v.items ≡ map (slice_index (ids_of segments.now)) positions.now) }
{
    let heads = segments.heads();
    let mut ids = Vec::new(alloc);
    for position in positions {
        ids.push(heads[*position as usize].id())?;
    }
    Ok(ids)
}

/// The first 64 different positions that are below the count.
pub(crate) fn first_places(positions: &[u32], count: usize) -> ArrayVec<u32, 64>
    ensures { result.items ≡ take 64 (filter (λ i. nat_lt i count) (each_once positions.now)) }
{
    let mut places = ArrayVec::<u32, 64>::new();
    for &position in positions {
        if places.is_full() {
            return places;
        }
        if (position as usize) < count && !places.contains(&position) {
            places.push(position);
        }
    }
    places
}

/// Whether merging these segments would change nothing: there is one at most, and that is whole.
pub(crate) fn is_settled<const D: usize>(segments: &Segments<D>, ids: &[u64]) -> bool
    requires { D ≤ 8 }
    ensures { IsTrue result ↔ ((length ids.now ≤ 1) × All IsWhole (parts_among ids.now segments.now)) }
{
    if ids.len() > 1 {
        return false;
    }
    for i in 0..segments.len() {
        let (head, live) = segments.part(i);
        if ids.contains(&head.id()) & !is_whole(head, live) {
            return false;
        }
    }
    true
}

/// Whether the segment has an index of form 3 and as many live numbers as entries.
fn is_whole<const D: usize>(head: &SegmentHead<D>, live: &LiveBits) -> bool
    ensures { IsTrue result ↔ IsWhole (live_segment head.now live.now) }
{
    head.index().form() == 3 && live.live_count() == head.entries()
}
