//! What the keys of a leaf's entries share in each dimension, and the sorted dimension.

ghost use Rattle.std.specs.Prelude.{◌≡◌, ◌≢◌, ◌≤◌, ◌<◌, ℕ, length, All, map, unwrap_or, nat_lt, slice_index};
ghost use Rattle.std.specs.List.{range_with_len};
ghost use Rattle.point_codec.specs.Seen.{items_of};
ghost use Rattle.leaf_codec.specs.Dimensions.{different, shared_prefix, narrowest, sorted_dimension, told_of};

use crate::byte_set::ByteSet;
use crate::keys::key;
use point_codec::Entry;

/// What a leaf says of its dimensions.
#[derive(Drop)]
pub struct Dimensions<const D: usize> {
    /// How many bytes all keys share, in each dimension.
    pub lengths: [u8; D],
    /// The sorted dimension, or `D` where there is none.
    pub sorted: usize,
    pub ghost told: { (d : ℕ) → d < D → told_of lengths sorted d ≤ 4 },
}

impl<const D: usize> Dimensions<D> {
    /// The dimensions of a leaf of these entries, in any order.
    pub fn of(entries: &[Entry<D>]) -> Dimensions<D>
        requires { (1 ≤ D) × (D ≤ 8) }
        ensures lengths { result.lengths ≡ map (λ d. shared_prefix d (items_of entries.now)) (range_with_len 0 D) }
        ensures sorted { result.sorted ≡ unwrap_or (sorted_dimension D (items_of entries.now)) D }
    {
        let mut lengths = [4; D];
        let mut spreads = [0; D];
        for d in 0..D {
            let shared = shared_prefix(entries, d);
            lengths[d] = shared;
            if shared < 4 {
                spreads[d] = different(entries, d, shared);
            }
        }
        let sorted = narrowest(&lengths, &spreads);
        Dimensions { lengths, sorted }
    }
}

/// The dimension of the least spread among those in which less than the whole key is shared, the least on ties,
/// or the number of dimensions where there is none.
pub fn narrowest(lengths: &[u8], spreads: &[usize]) -> usize
    requires same { length spreads.now ≡ length lengths.now }
    requires few { All (λ n. n ≤ 256) spreads.now }
    ensures { let dims = length lengths.now in
        result ≡ unwrap_or (narrowest dims (λ d. nat_lt (slice_index lengths.now d) 4) (slice_index spreads.now)) dims }
{
    let dims = lengths.len();
    let mut best = dims;
    let mut least = usize::MAX;
    for d in 0..dims {
        if lengths[d] < 4 && spreads[d] < least {
            best = d;
            least = spreads[d];
        }
    }
    best
}

/// How many bytes the keys in dimension `d` share, up to 4.
fn shared_prefix<const D: usize>(entries: &[Entry<D>], d: usize) -> u8
    requires within { d < D }
    requires dims { D ≤ 8 }
    ensures { result ≡ shared_prefix d (items_of entries.now) }
{
    if entries.is_empty() {
        return 4;
    }
    let first = key(&entries[0], d);
    let mut shared = 4;
    for entry in entries {
        shared = shared.min(common(&first, &key(entry, d)));
    }
    shared
}

/// How many bytes from the first on two keys have in common.
fn common(a: &[u8; 4], b: &[u8; 4]) -> u8
    ensures short { result ≤ 4 }
    ensures same { (k : ℕ) → k < result → slice_index a.now k ≡ slice_index b.now k }
    ensures differ { result < 4 → slice_index a.now result ≢ slice_index b.now result }
{
    for i in 0..4 {
        if a[i as usize] != b[i as usize] {
            return i;
        }
    }
    4
}

/// How many different values byte `i` of the keys in dimension `d` takes.
fn different<const D: usize>(entries: &[Entry<D>], d: usize, i: u8) -> usize
    requires within { d < D }
    requires byte { i < 4 }
    requires dims { D ≤ 8 }
    ensures value { result ≡ different d i (items_of entries.now) }
    ensures few { result ≤ 256 }
{
    let mut seen = ByteSet::new();
    for entry in entries {
        seen.insert(key(entry, d)[i as usize]);
    }
    seen.count()
}
