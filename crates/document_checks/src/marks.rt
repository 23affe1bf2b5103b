//! Numbers that are marked, a bit of a word for each.

ghost use Rattle.std.specs.Prelude.{◌≡◌, ◌<◌, ◌+◌, ◌*◌, ◌/◌, ◌%◌, ◌&&◌, ◌||◌, ℕ, nat_eq, length};
ghost use Rattle.live_bits.specs.LiveBody.{has_bit};
ghost use Rattle.document_checks.specs.Marks.{is_marked};

/// Whether the number is marked.
pub(crate) fn is_marked(words: &[u64], number: u32) -> bool
    requires { number / 64 < length words.now }
    ensures { result ≡ is_marked words.now number }
{
    words[(number / 64) as usize] >> (number % 64) & 1 == 1
}

/// Marks the number, and answers whether it was marked.
pub(crate) fn mark(words: &mut [u64], number: u32) -> bool
    requires { number / 64 < length words.old }
    ensures was { result ≡ is_marked words.old number }
    ensures after { (n : ℕ) → is_marked words.new n ≡ (is_marked words.old n || nat_eq n number) }
{
    let was = is_marked(words, number);
    words[(number / 64) as usize] |= 1 << (number % 64);
    was
}

/// Marks of the 64 numbers from `64 * at` on those of which the bit in `word` is set, and answers which of them were
/// marked.
pub(crate) fn mark_word(words: &mut [u64], at: usize, word: u64) -> u64
    requires { at < length words.old }
    ensures were { (k : ℕ) → k < 64 → has_bit result k ≡ (is_marked words.old (64 * at + k) && has_bit word k) }
    ensures after { (n : ℕ)
        → is_marked words.new n ≡ (is_marked words.old n || (nat_eq (n / 64) at && has_bit word (n % 64))) }
{
    let marked = words[at];
    words[at] = marked | word;
    marked & word
}
