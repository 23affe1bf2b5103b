//! Reading the sorted bytes of a leaf.

ghost use Rattle.std.specs.Prelude.{◌≡◌, ◌≤◌, ◌<◌, ◌%◌, ◌*◌, ◌+◌, ◌-◌, ◌++◌, ◌∷◌, ◌↔◌, ℕ, List, length, IfSome, IsSome};
ghost use Rattle.std.specs.Prelude.{IsTrue, take, replicate};
ghost use Rattle.std.specs.List.{flat_map};
ghost use Rattle.leaf_codec.specs.Spelling.{pieces, piece_bytes, sorted_bytes};
ghost use Rattle.leaf_codec.specs.Words.{pairs_expanded};

use crate::runs::count_pieces;

/// A byte for each entry of a leaf, from the front on.
pub type Table = [u8; 500];

/// The `count` sorted bytes that are spelled at the front of `b`, and what follows them.
pub fn take_sorted(b: &[u8], count: usize) -> Option<(Table, &[u8])>
    requires { count ≤ 500 }
    ensures found { IfSome result (λ x. b.now ≡ sorted_bytes (take count x.0) ++ x.1.now) }
    ensures only { (bytes tail : List ℕ) → length bytes ≡ count → b.now ≡ sorted_bytes bytes ++ tail → IsSome result }
{
    let (form, rest) = b.split_first()?;
    match *form {
        0 => take_plain(rest, count),
        1 => take_pieces(rest, count),
        _ => None,
    }
}

/// The bytes as they stand, where their pieces aren't due.
fn take_plain(b: &[u8], count: usize) -> Option<(Table, &[u8])>
    requires { count ≤ 500 }
    ensures found { IfSome result (λ x. 0 ∷ b.now ≡ sorted_bytes (take count x.0) ++ x.1.now) }
    ensures only { (bytes tail : List ℕ) → length bytes ≡ count → 0 ∷ b.now ≡ sorted_bytes bytes ++ tail
        → IsSome result }
{
    if b.len() < count {
        return None;
    }
    let (bytes, rest) = b.split_at(count);
    if 2 * count_pieces(bytes) < count {
        return None;
    }
    Some((table_of(bytes), rest))
}

/// The bytes of pieces, where these are due and are cut as they should be.
fn take_pieces(b: &[u8], count: usize) -> Option<(Table, &[u8])>
    requires { count ≤ 500 }
    ensures found { IfSome result (λ x. 1 ∷ b.now ≡ sorted_bytes (take count x.0) ++ x.1.now) }
    ensures only { (bytes tail : List ℕ) → length bytes ≡ count → 1 ∷ b.now ≡ sorted_bytes bytes ++ tail
        → IsSome result }
{
    let (number, rest) = b.split_first()?;
    let size = 2 * *number as usize;
    if size >= count || rest.len() < size {
        return None;
    }
    let (pieces, rest) = rest.split_at(size);
    if !are_cut(pieces) {
        return None;
    }
    let table = filled(pieces, count)?;
    Some((table, rest))
}

/// The bytes at the front of a table.
fn table_of(bytes: &[u8]) -> Table
    requires { length bytes.now ≤ 500 }
    ensures { take (length bytes.now) result ≡ bytes.now }
{
    let mut table = [0; 500];
    for (i, byte) in bytes.iter().enumerate() {
        table[i] = *byte;
    }
    table
}

/// The bytes of the pieces at the front of a table, or None where they aren't `count` bytes. Not inlined: within `read`
/// its loop would keep its place in memory.
#[inline(never)]
fn filled(pieces: &[u8], count: usize) -> Option<Table>
    requires { count ≤ 500 }
    ensures found { IfSome result (λ table. take count table ≡ pairs_expanded pieces.now) }
    ensures only { length (pairs_expanded pieces.now) ≡ count → IsSome result }
{
    let mut table = [0; 500];
    let mut rest = pieces;
    let mut at = 0;
    while rest.len() >= 2 {
        let end = at + rest[1] as usize + 1;
        if end > count {
            return None;
        }
        fill_piece(&mut table, at, end, rest[0]);
        at = end;
        rest = &rest[2..];
    }
    if at == count { Some(table) } else { None }
}

/// Writes the byte to the places from `at` up to `end`, and perhaps behind it: mostly a piece is short, and eight
/// places at once take less time than a loop to an end that is never the same.
fn fill_piece(table: &mut Table, at: usize, end: usize, byte: u8)
    requires { (at ≤ end) × (end ≤ 500) }
    ensures { take end table.new ≡ take at table.old ++ replicate (end - at) byte }
{
    if at <= 492 && end <= at + 8 {
        fill(table, at, at + 8, byte);
    } else {
        fill(table, at, end, byte);
    }
}

/// Writes the byte to the places from `at` up to `end`.
fn fill(table: &mut Table, at: usize, end: usize, byte: u8)
    requires { (at ≤ end) × (end ≤ 500) }
    ensures { take end table.new ≡ take at table.old ++ replicate (end - at) byte }
{
    for i in at..end {
        table[i] = byte;
    }
}

/// Whether the bytes that these pieces say would be cut so: each piece begins another byte, or goes on behind 256 of
/// its own.
fn are_cut(spelled: &[u8]) -> bool
    requires { length spelled.now % 2 ≡ 0 }
    ensures { IsTrue result ↔ (flat_map piece_bytes (pieces (pairs_expanded spelled.now)) ≡ spelled.now) }
{
    let mut rest = spelled;
    while rest.len() >= 4 {
        let whole = rest[1] == 255;
        let other = rest[0] != rest[2];
        if !(whole | other) {
            return false;
        }
        rest = &rest[2..];
    }
    true
}
