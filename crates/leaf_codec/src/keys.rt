//! The keys of an entry.

ghost use Rattle.std.specs.Prelude.{◌≡◌, ◌≤◌, ◌<◌, FitsSigned, pos, length, slice_index_or};
ghost use Rattle.std.specs.Int.{w32};
ghost use Rattle.leaf_codec.specs.Dimensions.{key_of};
ghost use Rattle.leaf_codec.specs.LeafOrder.{item_of};

use point_codec::{Entry, sortable};

/// The sortable key of the entry's coordinate in dimension `d`.
#[tactic(auto, unfolding(crate::specs::Dimensions::key_of))]
pub fn key<const D: usize>(entry: &Entry<D>, d: usize) -> [u8; 4]
    requires within { d < D }
    requires dims { D ≤ 8 }
    ensures value { result ≡ key_of d (item_of entry.now) }
    ensures fits { FitsSigned w32 (slice_index_or entry.now.point.c d (pos 0)) }
    ensures long { length entry.now.point.c ≡ D }
{
    sortable(coordinates(entry)[d])
}

/// The coordinates of the entry.
fn coordinates<const D: usize>(entry: &Entry<D>) -> &[i32]
    requires { D ≤ 8 }
    ensures value { result.now ≡ entry.now.point.c }
    ensures long { length entry.now.point.c ≡ D }
{
    &entry.point.c
}
