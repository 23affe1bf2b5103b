//! Bits in bytes, the lowest bit of each byte first.

ghost use Rattle.std.specs.Prelude.{◌≡◌, ◌<◌, ◌≤◌, ◌+◌, ◌/◌, ◌^◌, ◌&&◌, ◌||◌, ◌↔◌, ℕ, not, false, nat_eq, length};
ghost use Rattle.std.specs.Prelude.{IsTrue, sum_by, count_ones, All};
ghost use Rattle.live_bits.specs.LiveBody.{is_set};

/// Bit `i` of the bytes.
pub(crate) fn bit_at(bits: &[u8], i: u32) -> bool
    requires { i / 8 < length bits.now }
    ensures { result ≡ is_set bits.now i }
{
    bits[(i / 8) as usize] >> (i % 8) & 1 == 1
}

/// Sets bit `i` of the bytes.
pub(crate) fn set_bit(bits: &mut [u8], i: u32)
    requires { i / 8 < length bits.old }
    ensures { (j : ℕ) → is_set bits.new j ≡ (is_set bits.old j || nat_eq j i) }
{
    bits[(i / 8) as usize] |= 1 << (i % 8);
}

/// Clears bit `i` of the bytes.
pub(crate) fn clear_bit(bits: &mut [u8], i: u32)
    requires { i / 8 < length bits.old }
    ensures { (j : ℕ) → is_set bits.new j ≡ (is_set bits.old j && not (nat_eq j i)) }
{
    bits[(i / 8) as usize] &= !(1 << (i % 8));
}

/// How many bits of the bytes are set.
pub(crate) fn count_set(bits: &[u8]) -> u32
    requires { length bits.now < 2 ^ 28 }
    ensures value { result ≡ sum_by count_ones bits.now }
    ensures bytes { All (λ b. b < 256) bits.now }
{
    let mut count = 0;
    for b in bits {
        count += b.count_ones();
    }
    count
}

/// Whether the bytes are as many as `span` bits need, with zeros past the span.
pub(crate) fn is_filled(bits: &[u8], span: u32) -> bool
    requires { span ≤ 16777216 }
    ensures { IsTrue result ↔ ((length bits.now ≡ (span + 7) / 8) × ((i : ℕ) → span ≤ i → is_set bits.now i ≡ false)) }
{
    if bits.len() != ((span + 7) / 8) as usize {
        return false;
    }
    if span % 8 == 0 {
        return true;
    }
    bits[(span / 8) as usize] >> (span % 8) == 0
}
