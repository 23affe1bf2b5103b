//! Live numbers beside the sets that may have them.

ghost use Rattle.std.specs.Prelude.{◌≡◌, ◌<◌, ◌≤◌, ◌*◌, ◌^◌, ◌&&◌, ◌||◌, ℕ, true, false, length, IfOk, IfSome, IfNone};
ghost use Rattle.live_bits.specs.LiveSet.{is_live};
ghost use Rattle.stored_index.specs.Segments.{places};
ghost use Rattle.document_checks.specs.Marks.{is_marked};
ghost use Rattle.document_checks.specs.Placed.{IsPlacedOnce, IsLeastMisplaced};

use crate::Memory;
use crate::marks::mark_word;
use crate::told::Misplaced;
use live_bits::LiveBits;
use point_codec::MOST_POINTS;
use std::alloc::Global;

/// The least live number that isn't below `next` or is live in two of the sets, if there is one. A number of which
/// both hold is told as NotGiven. The sets are gone through once, a word of their bits at a time, and the call takes
/// memory of a bit for each number below `next`.
pub fn misplaced(alloc: Global, lives: &[LiveBits], next: u32) -> Result<Option<Misplaced>, Memory>
    requires { next ≤ 2 ^ 24 }
    ensures none { IfOk result (λ r. IfNone r ((number : ℕ) → IsPlacedOnce next lives.now number)) }
    ensures some { IfOk result (λ r. IfSome r (IsLeastMisplaced next lives.now)) }
{
    let mut marks = vec![in alloc; 0u64; next.div_ceil(64) as usize]?;
    let doubled = least_doubled(marks.as_mut_slice(), lives, next);
    if doubled < next {
        return Ok(Some(Misplaced::Doubled(doubled)));
    }
    let beyond = least_beyond(lives, next);
    if beyond < MOST_POINTS {
        return Ok(Some(Misplaced::NotGiven(beyond)));
    }
    Ok(None)
}

/// The least number below `next` that is live in two of the sets, or `next` where there is none. Nothing is marked
/// before.
fn least_doubled(marks: &mut [u64], lives: &[LiveBits], next: u32) -> u32
    requires room { next ≤ 64 * length marks.old }
    requires unmarked { (n : ℕ) → is_marked marks.old n ≡ false }
    ensures within { result ≤ next }
    ensures before { (n : ℕ) → n < result → places n lives.now ≤ 1 }
    ensures found { result < next → 2 ≤ places result lives.now }
{
    // no number from the limit on is of interest, since the limit is live in two sets already
    let mut limit = next;
    for live in lives {
        limit = mark_live(marks, live, limit);
    }
    limit
}

/// Marks the live numbers of the set in ascending order, up to the limit or to the first that is marked already.
/// Answers with that one, or with the limit where there is none.
fn mark_live(marks: &mut [u64], live: &LiveBits, limit: u32) -> u32
    requires { limit ≤ 64 * length marks.old }
    ensures within { result ≤ limit }
    ensures once { (n : ℕ) → n < result → (is_marked marks.old n && is_live live.now n) ≡ false }
    ensures found { result < limit → (is_marked marks.old result && is_live live.now result) ≡ true }
    ensures after { (n : ℕ) → n < result → is_marked marks.new n ≡ (is_marked marks.old n || is_live live.now n) }
{
    let from = live.base() / 64;
    let to = limit.min(live.base() + live.span()).div_ceil(64);
    for at in from..to {
        let doubled = mark_word(marks, at as usize, live.word(64 * at));
        if doubled != 0 {
            return limit.min(64 * at + doubled.trailing_zeros());
        }
    }
    limit
}

/// The least live number of the sets from `next` on, or MOST_POINTS where there is none.
fn least_beyond(lives: &[LiveBits], next: u32) -> u32
    ensures within { result ≤ 2 ^ 24 }
    ensures before { (n : ℕ) → next ≤ n → n < result → places n lives.now ≡ 0 }
    ensures found { result < 2 ^ 24 → (next ≤ result) × (1 ≤ places result lives.now) }
    ensures above { (n : ℕ) → 2 ^ 24 ≤ n → places n lives.now ≡ 0 }
{
    let mut limit = MOST_POINTS;
    for live in lives {
        limit = first_live(live, next, limit);
    }
    limit
}

/// The least live number of the set that is at least `from` and below the limit, or the limit where there is none.
fn first_live(live: &LiveBits, from: u32, limit: u32) -> u32
    ensures within { result ≤ limit }
    ensures before { (n : ℕ) → from ≤ n → n < result → is_live live.now n ≡ false }
    ensures found { result < limit → (from ≤ result) × (is_live live.now result ≡ true) }
    ensures above { (n : ℕ) → 2 ^ 24 ≤ n → is_live live.now n ≡ false }
{
    let first = from.max(live.base());
    let end = limit.min(live.base() + live.span());
    for i in 0..end.saturating_sub(first).div_ceil(64) {
        let at = first + 64 * i;
        let word = live.word(at);
        if word != 0 {
            return limit.min(at + word.trailing_zeros());
        }
    }
    limit
}
