//! Where a coordinate may stand among the entries of a leaf.

ghost use Rattle.std.specs.Prelude.{◌≤◌, ◌<◌};
ghost use Rattle.leaf_codec.specs.Views.{IsParts};

use crate::read_parts::{Parts, Slots};
use point_codec::sortable;

/// A place near the first entry whose coordinate in dimension `d` isn't below `x`. It is only a guess: of the sorted
/// dimension the sorted bytes tell it, which are at hand; of another one it is the middle.
pub fn guess<const D: usize>(parts: &Parts, slots: &Slots<D>, d: usize, x: &i32) -> u16
    requires parts { IsParts D parts.now }
    requires dimension { d < D }
{
    let scale = slots.scales[d];
    if scale == 0 {
        return parts.count as u16 / 2;
    }
    let key = u32::from_be_bytes(sortable(*x));
    let byte = key.saturating_sub(slots.bases[d]) / scale;
    (first_from(parts, byte) as u16).saturating_sub(1)
}

/// The first entry whose sorted byte isn't below this one, if those bytes ascend.
fn first_from(parts: &Parts, byte: u32) -> usize
    requires { parts.now.count ≤ 500 }
    ensures { result ≤ 500 }
{
    let mut from = 0;
    let mut end = parts.count;
    while from < end {
        let half = from + (end - from) / 2;
        if u32::from(parts.table[half]) < byte {
            from = half + 1;
        } else {
            end = half;
        }
    }
    from
}
