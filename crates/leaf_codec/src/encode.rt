//! Spells a leaf of entries in bytes, in the one way that there is for them.

ghost use Rattle.std.specs.Prelude.{◌≡◌, ◌≤◌, ◌<◌, ◌^◌, length, All, IfOk, map, unwrap_or};
ghost use Rattle.std.specs.List.{range_with_len};
ghost use Rattle.std.specs.List.Sorted.{IsPermutation, IsStrictlySortedBy};
ghost use Rattle.point_codec.specs.Seen.{items_of};
ghost use Rattle.leaf_codec.specs.Dimensions.{shared_prefix, sorted_dimension};
ghost use Rattle.leaf_codec.specs.LeafOrder.{leaf_order, NoneTwice};
ghost use Rattle.leaf_codec.specs.Leaves.{SpellsLeaf, leaf_limit};

use crate::dimensions::Dimensions;
use crate::order::arrange_by;
use crate::write_keys::{put_prefixes, put_rests, put_sorted};
use crate::write_numbers::put_numbers;
use byte_cursor::{Bytes, Memory, put_u16};
use point_codec::Entry;
use std::alloc::Global;

/// The one spelling of a leaf of these entries.
pub fn encode_leaf<const D: usize>(alloc: Global, entries: &[Entry<D>]) -> Result<Bytes, Memory>
    requires dims { (1 ≤ D) × (D ≤ 8) }
    requires some { 1 ≤ length entries.now }
    requires few { length entries.now ≤ leaf_limit D }
    requires numbers { All (λ e. e.doc < 2 ^ 24) entries.now }
    requires ascending { IsStrictlySortedBy (leaf_order D (items_of entries.now)) (items_of entries.now) }
    ensures spelled { IfOk result (λ b. SpellsLeaf D b (items_of entries.now)) }
    // it fits into the payload of a page
    ensures length { IfOk result (λ b. (1 ≤ length b) × (length b ≤ 4064)) }
{
    spell(alloc, entries, &Dimensions::of(entries))
}

/// Puts the entries in leaf order, and spells the leaf of them. What their keys share, and which dimension is the
/// sorted one, is the same in any order: so it is found once, for both.
pub fn encode_entries<const D: usize>(
    alloc: Global,
    entries: &mut [Entry<D>],
) -> Result<Bytes, Memory>
    requires dims { (1 ≤ D) × (D ≤ 8) }
    requires some { 1 ≤ length entries.old }
    requires few { length entries.old ≤ leaf_limit D }
    requires numbers { All (λ e. e.doc < 2 ^ 24) entries.old }
    requires once { NoneTwice (items_of entries.old) }
    ensures same { IsPermutation entries.old entries.new }
    ensures spelled { IfOk result (λ b. SpellsLeaf D b (items_of entries.new)) }
    // it fits into the payload of a page
    ensures length { IfOk result (λ b. (1 ≤ length b) × (length b ≤ 4064)) }
{
    let dimensions = Dimensions::of(entries);
    arrange_by(entries, dimensions.sorted);
    spell(alloc, entries, &dimensions)
}

/// The one spelling of a leaf of these entries, which have these dimensions.
fn spell<const D: usize>(
    alloc: Global,
    entries: &[Entry<D>],
    dimensions: &Dimensions<D>,
) -> Result<Bytes, Memory>
    requires dims { (1 ≤ D) × (D ≤ 8) }
    requires some { 1 ≤ length entries.now }
    requires few { length entries.now ≤ leaf_limit D }
    requires numbers { All (λ e. e.doc < 2 ^ 24) entries.now }
    requires ascending { IsStrictlySortedBy (leaf_order D (items_of entries.now)) (items_of entries.now) }
    requires lengths { dimensions.now.lengths ≡ map (λ d. shared_prefix d (items_of entries.now)) (range_with_len 0 D) }
    requires sorted { dimensions.now.sorted ≡ unwrap_or (sorted_dimension D (items_of entries.now)) D }
    ensures spelled { IfOk result (λ b. SpellsLeaf D b (items_of entries.now)) }
    // it fits into the payload of a page
    ensures length { IfOk result (λ b. (1 ≤ length b) × (length b ≤ 4064)) }
{
    let mut out = Vec::with_capacity(alloc, room(entries.len(), dimensions))?;
    put_u16(&mut out, entries.len() as u16)?;
    put_numbers(&mut out, entries)?;
    put_prefixes(&mut out, entries, dimensions)?;
    put_sorted(&mut out, entries, dimensions)?;
    put_rests(&mut out, entries, dimensions)?;
    // a build keeps all its leaves, and mostly they need less than what was reserved
    out.shrink_to_fit();
    Ok(Bytes::new(out))
}

/// As many bytes as a leaf of `count` entries takes at most.
fn room<const D: usize>(count: usize, dimensions: &Dimensions<D>) -> usize
    requires dims { D ≤ 8 }
    requires few { count ≤ 500 }
{
    let mut left = 4;
    for d in 0..D {
        left += 4 - dimensions.lengths[d] as usize;
    }
    12 + 5 * D + count * left
}
