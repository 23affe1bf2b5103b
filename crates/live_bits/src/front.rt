//! What the first bytes of a body say of the whole.

ghost use Rattle.std.specs.Prelude.{◌≡◌, ◌≢◌, ◌≤◌, ◌++◌, ℕ, List, length, IfSome, IfNone};
ghost use Rattle.live_bits.specs.LiveSet.{LiveSet};
ghost use Rattle.live_bits.specs.LiveBody.{IsLiveBody, SaysLength};

use crate::body::fields_of;
use point_codec::MOST_POINTS;

/// How many bytes the body has that begins with these bytes, as its sizes say. None where no body begins so. The
/// bytes are at least the 36 before the bits.
pub fn body_len(segment: u64, generation: u64, front: &[u8]) -> Option<u32>
    ensures some { IfSome result
        (λ n. (s : LiveSet) (body x y : List ℕ) → 36 ≤ length front.now → IsLiveBody segment generation s body
        → front.now ++ x ≡ body ++ y → length body ≡ n) }
    ensures said { IfSome result (SaysLength segment generation front.now) }
    ensures few { IfSome result (λ n. (36 ≤ n) × (n ≤ 2097188)) }
    ensures none { IfNone result
        ((s : LiveSet) (body x y : List ℕ) → 36 ≤ length front.now → IsLiveBody segment generation s body
        → front.now ++ x ≢ body ++ y) }
{
    let (sizes, _) = fields_of(segment, generation, front)?;
    if sizes.span > MOST_POINTS {
        return None;
    }
    if sizes.base > MOST_POINTS - sizes.span {
        return None;
    }
    Some(36 + (sizes.span + 7) / 8)
}
