//! Builds a segment of entries in memory: its tree, and live bits in which all of its numbers are live.

ghost use Rattle.std.specs.Prelude.{◌≡◌, ◌≤◌, ◌<◌, ◌^◌, List, length, All, IfOk};
ghost use Rattle.std.specs.List.Sorted.{IsPermutation};
ghost use Rattle.point_codec.specs.Points.{Item};
ghost use Rattle.point_codec.specs.Seen.{items_of};
ghost use Rattle.leaf_codec.specs.LeafOrder.{NoneTwice};
ghost use Rattle.leaf_codec.specs.Leaves.{leaf_limit};
ghost use Rattle.live_bits.specs.LiveSet.{IsLiveSet, is_live};
ghost use Rattle.documents.specs.Entries.{has_entry};
ghost use Rattle.segment_build.specs.NewSegments.{HasEntries};

use crate::segment::NewSegment;
use bkd_build::{Gate, build};
use byte_cursor::Memory;
use live_bits::LiveBits;
use point_codec::Entry;
use std::alloc::Global;
use std::marker::Sync;
use std::thread::Threads;

/// Builds the segment of these entries with leaves of `leaf_size` entries, all of whose numbers are live. The slice
/// holds the same entries in some order afterwards, also where memory is wanting. The upper `forks` levels of the tree
/// are built in threads, whose halves pass the gate (`bkd_build::build`); nothing depends on these two.
pub fn build_segment<const D: usize, R: Threads + Sync, G: Gate>(
    rt: &R,
    alloc: Global,
    entries: &mut [Entry<D>],
    leaf_size: u16,
    forks: u8,
    gate: &G,
) -> Result<NewSegment<D>, Memory>
    requires dims { (1 ≤ D) × (D ≤ 8) }
    requires some { 1 ≤ length entries.old }
    requires few { length entries.old ≤ 2 ^ 24 }
    requires numbers { All (λ e. e.doc < 2 ^ 24) entries.old }
    requires once { NoneTwice (items_of entries.old) }
    requires least_leaf { 2 ≤ leaf_size }
    requires greatest_leaf { leaf_size ≤ leaf_limit D }
    ensures same { IsPermutation entries.old entries.new }
    ensures has { IfOk result
        (λ n. (items : List Item) × IsPermutation (items_of entries.old) items × HasEntries D items n) }
    ensures live { IfOk result
        (λ n. IsLiveSet n.live × (is_live n.live ≡ (λ number. has_entry number (items_of entries.old)))) }
    // the live numbers are those of its entries
    ensures found { IfOk result
        (λ n. (items : List Item) → HasEntries D items n → is_live n.live ≡ (λ number. has_entry number items)) }
    ensures leaf_size { IfOk result (λ n. (n.leaf_size ≡ leaf_size) × (n.entries ≡ length entries.old)) }
{
    let live = numbers_of(alloc, entries)?;
    let count = entries.len() as u32;
    let built = build(rt, alloc, entries, leaf_size, forks, gate)?;
    Ok(NewSegment {
        built,
        leaf_size,
        entries: count,
        live,
    })
}

/// The set of the numbers of the entries.
fn numbers_of<const D: usize>(alloc: Global, entries: &[Entry<D>]) -> Result<LiveBits, Memory>
    requires { All (λ e. e.doc < 2 ^ 24) entries.now }
    ensures live { IfOk result (λ b. is_live b ≡ (λ number. has_entry number (items_of entries.now))) }
    ensures set { IfOk result IsLiveSet }
{
    let mut numbers = Vec::with_capacity(alloc, entries.len())?;
    for entry in entries {
        numbers.push(entry.doc)?;
    }
    LiveBits::of_docs(alloc, numbers.as_slice())
}
