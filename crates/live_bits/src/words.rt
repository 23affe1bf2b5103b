//! Bits sixty-four at a time, as words of which bit 0 is the first.

ghost use Rattle.std.specs.Prelude.{◌≡◌, ◌<◌, ◌+◌, ◌-◌, ◌*◌, ◌/◌, ◌&&◌, ℕ, nat_le, slice_index, length};
ghost use Rattle.live_bits.specs.LiveBody.{has_bit, is_set};

/// The 64 bits from bit `i` of the bytes on, with zeros past their end.
pub(crate) fn word_from(bits: &[u8], i: u32) -> u64
    ensures { (k : ℕ) → k < 64 → has_bit result k ≡ is_set bits.now (i + k) }
{
    let at = (i / 8) as usize;
    let low = u64::from_le_bytes(eight_bytes(bits, at));
    let shift = i % 8;
    if shift == 0 {
        return low;
    }
    let high = bits.get(at + 8).copied().unwrap_or(0);
    low >> shift | u64::from(high) << (64 - shift)
}

/// `gap` zeros, and then the bits from bit 0 of the bytes on: 64 together.
pub(crate) fn word_after(bits: &[u8], gap: u32) -> u64
    ensures { (k : ℕ) → k < 64 → has_bit result k ≡ (nat_le gap k && is_set bits.now (k - gap)) }
{
    if gap >= 64 {
        return 0;
    }
    word_from(bits, 0) << gap
}

/// The eight bytes from `at` on, with zeros past their end.
fn eight_bytes(bytes: &[u8], at: usize) -> [u8; 8]
    ensures { (j : ℕ) → j < 8 → slice_index result j ≡ slice_index bytes.now (at + j) }
{
    let rest = &bytes[at.min(bytes.len())..];
    match rest.first_chunk::<8>() {
        Some(eight) => *eight,
        None => padded(rest),
    }
}

/// The bytes, fewer than eight, and zeros behind them.
fn padded(bytes: &[u8]) -> [u8; 8]
    requires { length bytes.now < 8 }
    ensures { (j : ℕ) → j < 8 → slice_index result j ≡ slice_index bytes.now j }
{
    let mut eight = [0; 8];
    eight[..bytes.len()].copy_from_slice(bytes);
    eight
}
