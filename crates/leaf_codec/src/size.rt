//! The greatest number of entries of a leaf, which depends on the number of dimensions.

ghost use Rattle.std.specs.Prelude.{◌≡◌, ◌≤◌};
ghost use Rattle.leaf_codec.specs.Leaves.{leaf_limit};

/// The greatest number of entries of a leaf of `dims` dimensions: 500, 333, 250, 200, 166, 142, 125 and 111 for
/// 1 to 8 dimensions, so that its bytes fit into a page.
pub fn greatest_leaf(dims: u8) -> u16
    requires some { 1 ≤ dims }
    requires few { dims ≤ 8 }
    ensures { result ≡ leaf_limit dims }
{
    4000 / (4 + 4 * u16::from(dims))
}
