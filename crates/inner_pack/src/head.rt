//! What an inner node says of itself, in each form.

ghost use Rattle.std.specs.Prelude.{◌≡◌, ◌≤◌, ◌<◌, ◌*◌, ◌+◌, ◌-◌, ◌++◌, ◌∷◌, [], ℕ, ℤ, List, length};
ghost use Rattle.std.specs.Prelude.{IfSome, IsSomeAnd, slice_index_or, FitsSigned};
ghost use Rattle.std.specs.Int.{w32};
ghost use Rattle.point_codec.specs.Points.{Region};
ghost use Rattle.point_codec.specs.Keys.{key};
ghost use Rattle.inner_pack.specs.Places.{Spot};
ghost use Rattle.inner_pack.specs.Trees.{IndexTree, Split};
ghost use Rattle.inner_pack.specs.Spelled.{IsNodeOf};
ghost use Rattle.inner_pack.specs.Heads.{IsNodeHead, SaysSplit};

use crate::fields::{take_byte, take_key, take_place, take_vint};
use crate::place::PAYLOAD;
use byte_cursor::cut;
use point_codec::from_sortable;

/// The bytes of a node with all below it.
#[derive(Clone, Copy, Debug)]
pub(crate) struct NodeBytes<'a> {
    /// The node; in form 1 its part of the table of inner nodes.
    pub bytes: &'a [u8],
    /// In form 1 its part of the table of places.
    pub places: &'a [u8],
}

/// What an inner node says of itself.
#[derive(Clone, Copy, Debug)]
pub(crate) struct Head<'a> {
    pub dimension: usize,
    /// The split value, and its key.
    pub at: i32,
    pub key: [u8; 4],
    /// How many pages behind the node's first leaf, and at which offset, the right child's first leaf begins.
    pub pages: u32,
    pub offset: u16,
    pub left: NodeBytes<'a>,
    pub right: NodeBytes<'a>,
}

/// The head of an inner node.
#[inline(always)]
pub(crate) fn read_head<'a, const D: usize>(
    form: u8,
    leaves: u32,
    references: &[[u8; 4]; D],
    part: NodeBytes<'a>,
) -> Option<Head<'a>>
    requires dims { (1 ≤ D) × (D ≤ 8) }
    requires form { (1 ≤ form) × (form ≤ 3) }
    requires leaves { (2 ≤ leaves) × (leaves ≤ 8388608) }
    ensures found { IfSome result (IsNodeHead D form references.now part.entry.bytes.now part.entry.places.now) }
    ensures only { (s : Spot) (path : Region) (d : ℕ) (x : ℤ) (l r : IndexTree) → s.page ≤ 8388608 → FitsSigned w32 x
        → IsNodeOf D form leaves s path references.now part.entry.bytes.now part.entry.places.now (Split d x l r)
        → IsSomeAnd result (SaysSplit form references.now s d x l r) }
{
    if form == 1 {
        table_head::<D>(leaves, part)
    } else {
        packed_head(references, part)
    }
}

/// The head of an inner node in the tables of form 1.
fn table_head<'a, const D: usize>(leaves: u32, part: NodeBytes<'a>) -> Option<Head<'a>>
    requires dims { D ≤ 8 }
    requires leaves { (2 ≤ leaves) × (leaves ≤ 8388608) }
    ensures found { (references : List (List ℕ))
        → IfSome result (IsNodeHead D 1 references part.entry.bytes.now part.entry.places.now) }
    ensures only { (references : List (List ℕ)) (s : Spot) (path : Region) (d : ℕ) (x : ℤ) (l r : IndexTree)
        → s.page ≤ 8388608 → FitsSigned w32 x
        → IsNodeOf D 1 leaves s path references part.entry.bytes.now part.entry.places.now (Split d x l r)
        → IsSomeAnd result (SaysSplit 1 references s d x l r) }
{
    let (dimension, key, cuts) = take_cut::<D>(part.bytes)?;
    let left_leaves = (leaves - leaves / 2) as usize;
    let (left, right) = cut(cuts, 5 * (left_leaves - 1))?;
    let (left_places, right_places) = cut(part.places, 8 * left_leaves)?;
    let (first, _) = take_place(left_places)?;
    let (middle, _) = take_place(right_places)?;
    let pages = middle.page.checked_sub(first.page)?;
    Some(Head {
        dimension,
        at: from_sortable(key),
        key,
        pages,
        offset: middle.offset,
        left: NodeBytes {
            bytes: left,
            places: left_places,
        },
        right: NodeBytes {
            bytes: right,
            places: right_places,
        },
    })
}

/// The dimension and the key of a split in a table, and what follows them.
fn take_cut<const D: usize>(b: &[u8]) -> Option<(usize, [u8; 4], &[u8])>
    ensures found { IfSome result (λ x. (x.0 < D) × (b.now ≡ x.0 ∷ x.1 ++ x.2.now)) }
    ensures only { (d : ℕ) (k rest : List ℕ) → d < D → length k ≡ 4 → b.now ≡ d ∷ k ++ rest
        → IsSomeAnd result (λ x. (x.0 ≡ d) × (x.1 ≡ k) × (x.2.now ≡ rest)) }
{
    let [dimension, k0, k1, k2, k3, rest @ ..] = b else {
        return None;
    };
    let dimension = *dimension as usize;
    if dimension >= D {
        return None;
    }
    Some((dimension, [*k0, *k1, *k2, *k3], rest))
}

/// The head of an inner node of a packed form.
#[inline(always)]
fn packed_head<'a, const D: usize>(
    references: &[[u8; 4]; D],
    part: NodeBytes<'a>,
) -> Option<Head<'a>>
    requires dims { D ≤ 8 }
    ensures found { (form : ℕ) → 2 ≤ form
        → IfSome result (IsNodeHead D form references.now part.entry.bytes.now part.entry.places.now) }
    ensures only { (form leaves : ℕ) (s : Spot) (path : Region) (d : ℕ) (x : ℤ) (l r : IndexTree) → 2 ≤ form
        → leaves ≤ 8388608 → FitsSigned w32 x
        → IsNodeOf D form leaves s path references.now part.entry.bytes.now part.entry.places.now (Split d x l r)
        → IsSomeAnd result (SaysSplit form references.now s d x l r) }
{
    let (code, rest) = take_byte(part.bytes)?;
    let dimension = code as usize / 5;
    if dimension >= D {
        return None;
    }
    let reference = reference_in(references, dimension);
    let (key, rest) = take_key(rest, reference, code as usize % 5)?;
    let (pages, rest) = take_vint(rest)?;
    let (offset, rest) = take_vint(rest)?;
    let (left_length, rest) = take_vint(rest)?;
    if offset > u32::from(PAYLOAD) {
        return None;
    }
    let (left, right) = cut(rest, left_length as usize)?;
    Some(Head {
        dimension,
        at: from_sortable(key),
        key,
        pages,
        offset: offset as u16,
        left: NodeBytes {
            bytes: left,
            places: part.places,
        },
        right: NodeBytes {
            bytes: right,
            places: part.places,
        },
    })
}

/// The reference of a dimension.
#[inline(always)]
fn reference_in<const D: usize>(references: &[[u8; 4]; D], dimension: usize) -> [u8; 4]
    requires { dimension < D }
    ensures value { result ≡ slice_index_or references.now dimension [] }
    ensures long { length references.now ≡ D }
{
    references[dimension]
}
