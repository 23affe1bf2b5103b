//! What a leaf says of itself, in each form.

ghost use Rattle.std.specs.Prelude.{◌≡◌, ◌≤◌, ◌<◌, ◌+◌, ◌++◌, ℕ, List, length, IfSome, IsSomeAnd};
ghost use Rattle.std.specs.Prelude.{IsTrue, ◌↔◌, ◌==◌};
ghost use Rattle.point_codec.specs.Points.{Region};
ghost use Rattle.point_codec.specs.Seen.{region_of};
ghost use Rattle.point_codec.specs.Cells.{within};
ghost use Rattle.byte_cursor.specs.Vint.{vint};
ghost use Rattle.inner_pack.specs.Places.{leaf_begin};
ghost use Rattle.inner_pack.specs.Trees.{Leaf};
ghost use Rattle.inner_pack.specs.Spelled.{IsNodeOf};
ghost use Rattle.inner_pack.specs.Heads.{IsPackedLeaf, IsOwnCell, IsTableLeaf, IsLeafBehind, spot_of};

use crate::fields::{cell_of, is_cell, take_place, take_vint};
use crate::head::NodeBytes;
use crate::place::{Mark, PAYLOAD};
use point_codec::{Cell, all_le};

/// The length of the leaf next behind the mark, where the part is that of one leaf.
#[inline(always)]
pub(crate) fn read_leaf<const D: usize>(
    form: u8,
    path: &Cell<D>,
    part: NodeBytes,
    behind: Mark,
) -> Option<u16>
    requires form { (1 ≤ form) × (form ≤ 3) }
    requires room { behind.page < 8388608 }
    requires offset { behind.offset ≤ 4064 }
    ensures found { (references : List (List ℕ))
        → IfSome result
        (IsLeafBehind D form (spot_of behind)
        (region_of path.now) references part.entry.bytes.now part.entry.places.now) }
    ensures only { (references : List (List ℕ)) (n : ℕ) (own : Region)
        → IsNodeOf D form 1 (leaf_begin (spot_of behind) n)
        (region_of path.now) references part.entry.bytes.now part.entry.places.now (Leaf n own)
        → IsSomeAnd result (λ x. x ≡ n) }
{
    is_cell(path);
    if form == 1 {
        return table_leaf(part, behind);
    }
    if !part.places.is_empty() {
        return None;
    }
    let (length, _) = packed_leaf(form, path, part.bytes)?;
    Some(length)
}

/// The length of the leaf next behind the mark in the tables of form 1.
fn table_leaf(part: NodeBytes, behind: Mark) -> Option<u16>
    requires room { behind.page < 8388608 }
    requires offset { behind.offset ≤ 4064 }
    ensures found { IfSome result (IsTableLeaf (spot_of behind) part.entry.bytes.now part.entry.places.now) }
    ensures only { (n : ℕ) → IsTableLeaf (spot_of behind) part.entry.bytes.now part.entry.places.now n
        → IsSomeAnd result (λ x. x ≡ n) }
{
    if !part.bytes.is_empty() {
        return None;
    }
    let (place, rest) = take_place(part.places)?;
    if !rest.is_empty() {
        return None;
    }
    if place.length < 1 {
        return None;
    }
    if place.length > PAYLOAD {
        return None;
    }
    let begin = behind.fit(place.length);
    if place.page != begin.page {
        return None;
    }
    if place.offset != begin.offset {
        return None;
    }
    Some(place.length)
}

/// The length and the own cell of a leaf of a packed form.
#[inline(always)]
pub(crate) fn packed_leaf<const D: usize>(
    form: u8,
    path: &Cell<D>,
    b: &[u8],
) -> Option<(u16, Cell<D>)>
    requires form { (2 ≤ form) × (form ≤ 3) }
    ensures found { IfSome result (λ x. IsPackedLeaf D form (region_of path.now) b.now x.0 (region_of x.1)) }
    ensures only { (n : ℕ) (own : Region) → IsPackedLeaf D form (region_of path.now) b.now n own
        → IsSomeAnd result (λ x. (x.0 ≡ n) × (region_of x.1 ≡ own)) }
{
    let (length, rest) = take_length(b)?;
    let own = own_cell(form, path, rest)?;
    Some((length, own))
}

/// The length of a leaf, with which its bytes begin in a packed form, and the bytes behind it.
#[inline(always)]
pub(crate) fn take_length(b: &[u8]) -> Option<(u16, &[u8])>
    ensures found { IfSome result (λ x. (1 ≤ x.0) × (x.0 ≤ 4064) × (b.now ≡ vint x.0 ++ x.1.now)) }
    ensures only { (n : ℕ) (rest : List ℕ) → 1 ≤ n → n ≤ 4064 → b.now ≡ vint n ++ rest
        → IsSomeAnd result (λ x. (x.0 ≡ n) × (x.1.now ≡ rest)) }
{
    let (length, rest) = take_vint(b)?;
    if length < 1 {
        return None;
    }
    if length > u32::from(PAYLOAD) {
        return None;
    }
    Some((length as u16, rest))
}

/// A leaf's own cell, which in form 3 is all that follows its length. In form 2 nothing does, and it is the path cell.
#[inline(always)]
fn own_cell<const D: usize>(form: u8, path: &Cell<D>, b: &[u8]) -> Option<Cell<D>>
    requires form { (2 ≤ form) × (form ≤ 3) }
    ensures found { IfSome result (λ own. IsOwnCell D form (region_of path.now) b.now (region_of own)) }
    ensures only { (own : Region) → IsOwnCell D form (region_of path.now) b.now own
        → IsSomeAnd result (λ x. region_of x ≡ own) }
{
    if form == 2 {
        return whole_path(path, b);
    }
    let own = cell_of::<D>(b)?;
    if !lies_within(&own, path) {
        return None;
    }
    is_cell(&own);
    Some(own)
}

/// The path cell, where no bytes are left.
fn whole_path<const D: usize>(path: &Cell<D>, b: &[u8]) -> Option<Cell<D>>
    ensures found { IfSome result (λ own. IsOwnCell D 2 (region_of path.now) b.now (region_of own)) }
    ensures only { (own : Region) → IsOwnCell D 2 (region_of path.now) b.now own
        → IsSomeAnd result (λ x. region_of x ≡ own) }
{
    if !b.is_empty() {
        return None;
    }
    is_cell(path);
    Some(*path)
}

/// Whether the first cell lies within the second.
fn lies_within<const D: usize>(inner: &Cell<D>, outer: &Cell<D>) -> bool
    ensures { IsTrue result ↔ IsTrue (within (region_of inner.now) (region_of outer.now)) }
{
    if !all_le(&outer.lo.c, &inner.lo.c) {
        return false;
    }
    all_le(&inner.hi.c, &outer.hi.c)
}
