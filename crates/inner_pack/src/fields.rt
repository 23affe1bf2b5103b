//! The fields of an index body: cells, keys and vints.

ghost use Rattle.std.specs.Prelude.{◌≡◌, ◌≤◌, ◌<◌, ◌*◌, ◌+◌, ◌-◌, ◌^◌, ◌++◌, ◌∷◌, ℕ, List, length, take, drop, All};
ghost use Rattle.std.specs.Prelude.{IfSome, IsSomeAnd, FitsSigned, slice_index_or, pos};
ghost use Rattle.std.specs.Int.{w32};
ghost use Rattle.std.specs.List.{flat_map};
ghost use Rattle.point_codec.specs.Points.{Region};
ghost use Rattle.point_codec.specs.Seen.{region_of};
ghost use Rattle.point_codec.specs.Keys.{key};
ghost use Rattle.byte_cursor.specs.Vint.{vint};
ghost use Rattle.inner_pack.specs.Trees.{IsCell};
ghost use Rattle.inner_pack.specs.Bodies.{cell_bytes, place_bytes, shared_front};
ghost use Rattle.inner_pack.specs.Places.{LeafSpan};
ghost use Rattle.inner_pack.specs.Heads.{placed_of};

use crate::place::LeafPlace;
use byte_cursor::{Cursor, cut};
use point_codec::{Cell, Point, from_sortable};

/// The cell of these bytes.
pub(crate) fn cell_of<const D: usize>(b: &[u8]) -> Option<Cell<D>>
    requires { (1 ≤ D) × (D ≤ 8) }
    ensures found { IfSome result (λ cell. b.now ≡ cell_bytes (region_of cell)) }
    ensures only { (r : Region) → IsCell D r → b.now ≡ cell_bytes r → IsSomeAnd result (λ cell. region_of cell ≡ r) }
{
    if b.len() != 8 * D {
        return None;
    }
    let (front, back) = b.split_at(4 * D);
    let lo = point_of::<D>(front);
    let hi = point_of::<D>(back);
    are_coordinates(&lo);
    are_coordinates(&hi);
    Cell::new(lo, hi)
}

/// The point of these keys.
fn point_of<const D: usize>(front: &[u8]) -> Point<D>
    requires dims { (1 ≤ D) × (D ≤ 8) }
    requires long { length front.now ≡ 4 * D }
    ensures { flat_map key result.c ≡ front.now }
{
    let mut c = [0; D];
    for d in 0..D {
        let at = 4 * d;
        c[d] = from_sortable([front[at], front[at + 1], front[at + 2], front[at + 3]]);
    }
    Point { c }
}

/// Coordinates have 32 bits: said for the proof, nothing is done.
pub(crate) fn are_coordinates<const D: usize>(p: &Point<D>)
    ensures long { length p.now.c ≡ D }
    ensures fit { All (λ x. FitsSigned w32 x) p.now.c }
{
    let c = coordinates(p);
    for d in 0..D {
        is_coordinate(c, d);
    }
}

/// The coordinates of a point.
pub(crate) fn coordinates<const D: usize>(p: &Point<D>) -> &[i32]
    ensures value { result.now ≡ p.now.c }
    ensures long { length p.now.c ≡ D }
{
    &p.c
}

/// A coordinate has 32 bits: said for the proof, nothing is done.
fn is_coordinate(c: &[i32], d: usize)
    requires { d < length c.now }
    ensures { FitsSigned w32 (slice_index_or c.now d (pos 0)) }
{
    let _x = c[d];
}

/// What a cell is: said for the proof, nothing runs.
pub(crate) fn is_cell<const D: usize>(cell: &Cell<D>)
    ensures { IsCell D (region_of cell.now) }
{
    are_coordinates(cell.lo());
    are_coordinates(cell.hi());
}

/// The number of the vint with which the bytes begin, and the bytes behind it.
#[inline(always)]
pub(crate) fn take_vint(b: &[u8]) -> Option<(u32, &[u8])>
    ensures found { IfSome result (λ x. b.now ≡ vint x.0 ++ x.1.now) }
    ensures only { (n : ℕ) (rest : List ℕ) → n < 2 ^ 32 → b.now ≡ vint n ++ rest
        → IsSomeAnd result (λ x. (x.0 ≡ n) × (x.1.now ≡ rest)) }
{
    let mut cursor = Cursor::new(b);
    let Ok(n) = cursor.take_vint() else {
        return None;
    };
    Some((n, cursor.rest()))
}

/// The key of which so many bytes at the front, and no more, are those of the reference, and the others stand at the
/// front of the bytes; and the bytes behind it.
#[inline(always)]
pub(crate) fn take_key(b: &[u8], reference: [u8; 4], prefix: usize) -> Option<([u8; 4], &[u8])>
    requires { prefix ≤ 4 }
    ensures found { IfSome result (λ x. (shared_front x.0 reference ≡ prefix) × (b.now ≡ drop prefix x.0 ++ x.1.now)) }
    ensures only { (k rest : List ℕ) → length k ≡ 4 → shared_front k reference ≡ prefix → b.now ≡ drop prefix k ++ rest
        → IsSomeAnd result (λ x. (x.0 ≡ k) × (x.1.now ≡ rest)) }
{
    let (back, rest) = cut(b, 4 - prefix)?;
    let key = joined(reference, prefix, back);
    if shared_length(key, reference) != prefix {
        return None;
    }
    Some((key, rest))
}

/// The front of the reference, and these bytes.
#[inline(always)]
fn joined(reference: [u8; 4], prefix: usize, back: &[u8]) -> [u8; 4]
    requires prefix { prefix ≤ 4 }
    requires back { length back.now ≡ 4 - prefix }
    ensures value { result ≡ take prefix reference ++ back.now }
    ensures long { length reference ≡ 4 }
{
    let [a, b, c, _] = reference;
    match back {
        [] => reference,
        [z] => [a, b, c, *z],
        [y, z] => [a, b, *y, *z],
        [x, y, z] => [a, *x, *y, *z],
        [w, x, y, z, ..] => [*w, *x, *y, *z],
    }
}

/// The place with which the bytes begin, and the bytes behind it.
pub(crate) fn take_place(b: &[u8]) -> Option<(LeafPlace, &[u8])>
    ensures found { IfSome result (λ x. b.now ≡ place_bytes (placed_of x.0) ++ x.1.now) }
    ensures only { (p : LeafSpan) (rest : List ℕ) → p.at.page < 2 ^ 32 → p.at.offset < 2 ^ 16 → p.length < 2 ^ 16
        → b.now ≡ place_bytes p ++ rest
        → IsSomeAnd result (λ x. (placed_of x.0 ≡ p) × (x.1.now ≡ rest)) }
{
    let mut cursor = Cursor::new(b);
    let Ok(page) = cursor.take_u32() else {
        return None;
    };
    let Ok(offset) = cursor.take_u16() else {
        return None;
    };
    let Ok(length) = cursor.take_u16() else {
        return None;
    };
    let place = LeafPlace {
        page,
        offset,
        length,
    };
    Some((place, cursor.rest()))
}

/// The first byte and the others.
#[inline(always)]
pub(crate) fn take_byte(b: &[u8]) -> Option<(u8, &[u8])>
    ensures found { IfSome result (λ x. b.now ≡ x.0 ∷ x.1.now) }
    ensures only { (n : ℕ) (rest : List ℕ) → b.now ≡ n ∷ rest → IsSomeAnd result (λ x. (x.0 ≡ n) × (x.1.now ≡ rest)) }
{
    let [first, rest @ ..] = b else {
        return None;
    };
    Some((*first, rest))
}

/// How many bytes the two keys share at the front.
#[inline(always)]
pub(crate) fn shared_length(a: [u8; 4], b: [u8; 4]) -> usize
    ensures value { result ≡ shared_front a b }
    ensures few { result ≤ 4 }
{
    let [a0, a1, a2, a3] = a;
    let [b0, b1, b2, b3] = b;
    if a0 != b0 {
        return 0;
    }
    if a1 != b1 {
        return 1;
    }
    if a2 != b2 {
        return 2;
    }
    if a3 != b3 {
        return 3;
    }
    4
}
