//! Writing the keys of a leaf: shared prefixes, sorted bytes and rests.

ghost use Rattle.std.specs.Prelude.{◌≡◌, ◌≤◌, ◌<◌, ◌++◌, ◌-◌, length, All, OnOk, map, take, drop, unwrap_or};
ghost use Rattle.std.specs.List.{flat_map, range_with_len};
ghost use Rattle.point_codec.specs.Seen.{items_of};
ghost use Rattle.leaf_codec.specs.Dimensions.{key_of, key_byte, shared_prefix, sorted_dimension, told_of};
ghost use Rattle.leaf_codec.specs.LeafOrder.{item_of};
ghost use Rattle.leaf_codec.specs.Leaves.{IsPoint};
ghost use Rattle.leaf_codec.specs.Spelling.{prefixes, pieces, piece_bytes, sorted_bytes, sorted_part, rest, rests};

use crate::dimensions::Dimensions;
use crate::keys::key;
use crate::runs::{count_pieces, first_piece};
use byte_cursor::{Memory, put_slice, put_u8};
use point_codec::Entry;

/// Appends the length of each dimension's shared prefix, and the prefixes.
pub fn put_prefixes<const D: usize>(
    out: &mut Vec<u8>,
    entries: &[Entry<D>],
    dimensions: &Dimensions<D>,
) -> Result<(), Memory>
    requires dims { D ≤ 8 }
    requires some { 1 ≤ length entries.now }
    requires lengths { dimensions.now.lengths ≡ map (λ d. shared_prefix d (items_of entries.now)) (range_with_len 0 D) }
    ensures { OnOk result (out.new.items ≡ out.old.items ++ prefixes D (items_of entries.now)) }
{
    put_slice(out, &dimensions.lengths)?;
    for d in 0..D {
        let key = key(&entries[0], d);
        put_slice(out, &key[..dimensions.lengths[d] as usize])?;
    }
    Ok(())
}

/// Appends the sorted dimension, where there is one, and its bytes.
pub fn put_sorted<const D: usize>(
    out: &mut Vec<u8>,
    entries: &[Entry<D>],
    dimensions: &Dimensions<D>,
) -> Result<(), Memory>
    requires dims { D ≤ 8 }
    requires few { length entries.now ≤ 500 }
    requires lengths { dimensions.now.lengths ≡ map (λ d. shared_prefix d (items_of entries.now)) (range_with_len 0 D) }
    requires sorted { dimensions.now.sorted ≡ unwrap_or (sorted_dimension D (items_of entries.now)) D }
    ensures { OnOk result
        (out.new.items ≡ out.old.items ++ sorted_part (sorted_dimension D (items_of entries.now))
        (items_of entries.now)) }
{
    let d = dimensions.sorted;
    if d >= D {
        return Ok(());
    }
    put_u8(out, d as u8)?;
    let table = key_bytes(entries, d, dimensions.lengths[d]);
    put_sorted_bytes(out, &table[..entries.len()])
}

/// Byte `i` of the key in dimension `d` of each entry, from the front of the table on.
fn key_bytes<const D: usize>(entries: &[Entry<D>], d: usize, i: u8) -> [u8; 500]
    requires dims { D ≤ 8 }
    requires within { d < D }
    requires byte { i < 4 }
    requires few { length entries.now ≤ 500 }
    ensures { take (length entries.now) result ≡ map (key_byte d i) (items_of entries.now) }
{
    let mut table = [0; 500];
    for (at, entry) in entries.iter().enumerate() {
        table[at] = key(entry, d)[i as usize];
    }
    table
}

/// Appends the bytes as they are, or in pieces where these are fewer than half.
#[tactic(auto, unfolding(crate::specs::Spelling::sorted_bytes))]
fn put_sorted_bytes(out: &mut Vec<u8>, bytes: &[u8]) -> Result<(), Memory>
    requires { length bytes.now ≤ 500 }
    ensures { OnOk result (out.new.items ≡ out.old.items ++ sorted_bytes bytes.now) }
{
    let pieces = count_pieces(bytes);
    if 2 * pieces < bytes.len() {
        put_u8(out, 1)?;
        put_u8(out, pieces as u8)?;
        put_pieces(out, bytes)
    } else {
        put_u8(out, 0)?;
        put_slice(out, bytes)
    }
}

/// Appends the pieces of the bytes, each as its byte and its length less 1.
fn put_pieces(out: &mut Vec<u8>, bytes: &[u8]) -> Result<(), Memory>
    ensures { OnOk result (out.new.items ≡ out.old.items ++ flat_map piece_bytes (pieces bytes.now)) }
{
    let mut rest = bytes;
    while !rest.is_empty() {
        let n = first_piece(rest);
        put_u8(out, rest[0])?;
        put_u8(out, (n - 1) as u8)?;
        rest = &rest[n..];
    }
    Ok(())
}

/// Appends what is left of the keys.
pub fn put_rests<const D: usize>(
    out: &mut Vec<u8>,
    entries: &[Entry<D>],
    dimensions: &Dimensions<D>,
) -> Result<(), Memory>
    requires dims { D ≤ 8 }
    requires lengths { dimensions.now.lengths ≡ map (λ d. shared_prefix d (items_of entries.now)) (range_with_len 0 D) }
    requires sorted { dimensions.now.sorted ≡ unwrap_or (sorted_dimension D (items_of entries.now)) D }
    ensures points { OnOk result (All (λ x. IsPoint D x.at) (items_of entries.now)) }
    ensures ok { OnOk result (out.new.items ≡ out.old.items ++ rests D (items_of entries.now)) }
{
    for entry in entries {
        put_rest(out, entry, dimensions)?;
    }
    Ok(())
}

/// Appends what is left of the keys of one entry.
fn put_rest<const D: usize>(
    out: &mut Vec<u8>,
    entry: &Entry<D>,
    dimensions: &Dimensions<D>,
) -> Result<(), Memory>
    requires dims { D ≤ 8 }
    ensures point { OnOk result (IsPoint D entry.now.point.c) }
    ensures ok { OnOk result (out.new.items ≡ out.old.items
        ++ flat_map (λ d. drop (told_of dimensions.now.lengths dimensions.now.sorted d) (key_of d (item_of entry.now)))
        (range_with_len 0 D)) }
{
    for d in 0..D {
        let told = dimensions.lengths[d] as usize + usize::from(d == dimensions.sorted);
        put_slice(out, &key(entry, d)[told..])?;
    }
    Ok(())
}
