//! The bits of a list of document numbers.

ghost use Rattle.std.specs.Prelude.{◌≡◌, ◌<◌, ◌≤◌, ◌-◌, ◌/◌, ◌||◌, ℕ, nat_eq, length, All, IsTrue};
ghost use Rattle.std.specs.List.{list_any};
ghost use Rattle.live_bits.specs.LiveSet.{Spans};
ghost use Rattle.live_bits.specs.LiveBody.{is_set};

use crate::bits::set_bit;

/// The least of the numbers, and how many numbers there are from it to the greatest; zeros for none.
pub(crate) fn reach(docs: &[u32]) -> (u32, u32)
    requires { All (λ d. d < 16777216) docs.now }
    ensures { Spans result.0 result.1 docs.now }
{
    let [first, ..] = docs else {
        return (0, 0);
    };
    let mut least = *first;
    let mut greatest = *first;
    for doc in docs {
        least = least.min(*doc);
        greatest = greatest.max(*doc);
    }
    (least, greatest - least + 1)
}

/// Whether all of the numbers are from `low` on and below `end`.
pub(crate) fn lie_between(numbers: &[u32], low: u32, end: u32) -> bool
    ensures { IsTrue result → All (λ n. (low ≤ n) × (n < end)) numbers.now }
{
    for number in numbers {
        if *number < low || *number >= end {
            return false;
        }
    }
    true
}

/// Sets the bit of each of the numbers.
pub(crate) fn set_docs(bits: &mut [u8], base: u32, docs: &[u32])
    requires { All (λ d. (base ≤ d) × ((d - base) / 8 < length bits.old)) docs.now }
    ensures { (j : ℕ) → is_set bits.new j ≡ (is_set bits.old j || list_any (λ d. nat_eq j (d - base)) docs.now) }
{
    for doc in docs {
        set_bit(bits, *doc - base);
    }
}
