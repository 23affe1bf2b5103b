//! Heads and live bits that are kept beside each other: what changes both.

ghost use Rattle.std.specs.Prelude.{◌≡◌, ◌<◌, ◌≤◌, false, length, take, drop, map, insert, All, IfOk, OnOk, OnErr};
ghost use Rattle.std.specs.List.{list_any};
ghost use Rattle.std.specs.List.Sorted.{IsStrictlyIncreasing};
ghost use Rattle.live_bits.specs.LiveSet.{is_live, live_set_without};
ghost use Rattle.documents.specs.Entries.{is_among};
ghost use Rattle.segment_view.specs.LiveSegments.{parts_of, parts_but};

use live_bits::LiveBits;
use segment_file::SegmentHead;
use std::alloc::{AllocError, Global};

/// A copy of these heads.
pub(crate) fn copy_heads<const D: usize>(
    alloc: Global,
    heads: &[SegmentHead<D>],
) -> Result<Vec<SegmentHead<D>>, AllocError>
    requires { D ≤ 8 }
    ensures { IfOk result (λ v. v.items ≡ heads.now) }
{
    let mut copies = Vec::with_capacity(alloc, heads.len())?;
    for head in heads {
        copies.push(head.copy(alloc)?)?;
    }
    Ok(copies)
}

/// A copy of these live bits.
pub(crate) fn copy_lives(alloc: Global, lives: &[LiveBits]) -> Result<Vec<LiveBits>, AllocError>
    ensures { IfOk result (λ v. v.items ≡ lives.now) }
{
    let mut copies = Vec::with_capacity(alloc, lives.len())?;
    for live in lives {
        copies.push(live.copy(alloc)?)?;
    }
    Ok(copies)
}

/// How many entries each segment has.
pub(crate) fn sizes_of<const D: usize>(
    alloc: Global,
    heads: &[SegmentHead<D>],
) -> Result<Vec<u32>, AllocError>
    ensures { IfOk result (λ v. v.items ≡ map (λ h. h.entries) heads.now) }
{
    let mut sizes = Vec::with_capacity(alloc, heads.len())?;
    for head in heads {
        sizes.push(head.entries())?;
    }
    Ok(sizes)
}

/// Whether one of the heads has this id.
pub(crate) fn has_id<const D: usize>(heads: &[SegmentHead<D>], id: u64) -> bool
    ensures { result ≡ is_among (map (λ h. h.id) heads.now) id }
{
    for head in heads {
        if head.id() == id {
            return true;
        }
    }
    false
}

/// Whether the number is live in one of the sets.
pub(crate) fn is_live_in(lives: &[LiveBits], doc: u32) -> bool
    ensures { result ≡ list_any (λ s. is_live s doc) lives.now }
{
    for live in lives {
        if live.is_live(doc) {
            return true;
        }
    }
    false
}

/// Takes the number out of each set, and answers whether it was live in one.
pub(crate) fn clear_in(lives: &mut Vec<LiveBits>, doc: u32) -> bool
    ensures answer { result ≡ list_any (λ s. is_live s doc) lives.old.items }
    ensures after { lives.new.items ≡ map (live_set_without doc) lives.old.items }
{
    let mut was_live = false;
    for live in lives.iter_mut() {
        was_live |= live.clear(doc);
    }
    was_live
}

/// How many of the heads have lesser ids than this one.
pub(crate) fn place_of<const D: usize>(heads: &[SegmentHead<D>], id: u64) -> usize
    requires ascend { IsStrictlyIncreasing (map (λ h. h.id) heads.now) }
    requires fresh { is_among (map (λ h. h.id) heads.now) id ≡ false }
    ensures bound { result ≤ length heads.now }
    ensures below { All (λ h. h.id < id) (take result heads.now) }
    ensures above { All (λ h. id < h.id) (drop result heads.now) }
{
    for (i, head) in heads.iter().enumerate() {
        if id < head.id() {
            return i;
        }
    }
    heads.len()
}

/// Puts a head and its live bits at a place. For want of memory both lists stay.
pub(crate) fn insert_pair<const D: usize>(
    heads: &mut Vec<SegmentHead<D>>,
    lives: &mut Vec<LiveBits>,
    place: usize,
    head: SegmentHead<D>,
    live: LiveBits,
) -> Result<(), AllocError>
    requires dims { D ≤ 8 }
    requires place { place ≤ length heads.old.items }
    requires same { length lives.old.items ≡ length heads.old.items }
    ensures heads { OnOk result (heads.new.items ≡ insert heads.old.items place head.entry) }
    ensures lives { OnOk result (lives.new.items ≡ insert lives.old.items place live) }
    ensures refused { OnErr result ((heads.new.items ≡ heads.old.items) × (lives.new.items ≡ lives.old.items)) }
{
    heads.reserve(1)?;
    lives.insert(place, live)?;
    // there is room, so no error can come between the two lists
    heads.insert(place, head)?;
    Ok(())
}

/// Takes out the heads of these ids and their live bits.
pub(crate) fn remove_pairs<const D: usize>(
    heads: &mut Vec<SegmentHead<D>>,
    lives: &mut Vec<LiveBits>,
    ids: &[u64],
)
    requires dims { D ≤ 8 }
    requires same { length lives.old.items ≡ length heads.old.items }
    ensures rest { parts_of heads.new.items lives.new.items ≡ parts_but ids.now
        (parts_of heads.old.items lives.old.items) }
    ensures same { length lives.new.items ≡ length heads.new.items }
{
    for i in (0..heads.len()).rev() {
        if !ids.contains(&heads[i].id()) {
            continue;
        }
        heads.remove(i);
        lives.remove(i);
    }
}
