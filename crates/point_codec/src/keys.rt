//! Sortable keys: bytes whose order is that of the numbers.

ghost use Rattle.std.specs.Prelude.{◌≡◌, ℤ, FitsSigned};
ghost use Rattle.std.specs.Ordering.{int_cmp, nat_cmp};
ghost use Rattle.std.specs.Cmp.Lexicographic.{slice_cmp};
ghost use Rattle.point_codec.specs.Keys.{key};
ghost use mir.Syntax.{w32};

use std::cmp::Ordering;

/// The key of a coordinate: its bits with the sign turned, greatest byte first.
pub fn sortable(x: i32) -> [u8; 4]
    ensures { result ≡ key x }
{
    (x.cast_unsigned() ^ 0x8000_0000).to_be_bytes()
}

/// The coordinate of a key. The inverse of `sortable`.
pub fn from_sortable(b: [u8; 4]) -> i32
    ensures is { key result ≡ b }
    ensures back { (x : ℤ) → FitsSigned w32 x → key x ≡ b → result ≡ x }
{
    (u32::from_be_bytes(b) ^ 0x8000_0000).cast_signed()
}

/// The order of two keys by their bytes, which is that of their numbers.
pub fn key_order(a: &[u8; 4], b: &[u8; 4]) -> Ordering
    ensures bytes { result ≡ slice_cmp nat_cmp a.now b.now }
    ensures numbers { (x y : ℤ) → FitsSigned w32 x → FitsSigned w32 y → a.now ≡ key x → b.now ≡ key y
        → result ≡ int_cmp x y }
{
    a.cmp(b)
}
