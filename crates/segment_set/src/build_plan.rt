//! The plan by which the segments of a set are built: leaf size, levels that fork, and points given.

ghost use Rattle.std.specs.Prelude.{◌≤◌, ◌^◌};
ghost use Rattle.leaf_codec.specs.Leaves.{leaf_limit};

/// How the segments of a set are built: how many entries a leaf has, in how many levels a build forks, and how many
/// points were given, than which there are no more entries.
#[derive(Clone, Copy)]
pub(crate) struct BuildPlan<const D: usize> {
    pub(crate) leaf_size: u16,
    pub(crate) forks: u8,
    pub(crate) points_given: u32,
    ghost some_dims: { 1 ≤ D },
    ghost few_dims: { D ≤ 8 },
    ghost least_leaf: { 2 ≤ leaf_size },
    ghost greatest_leaf: { leaf_size ≤ leaf_limit D },
    ghost most_given: { points_given ≤ 2 ^ 24 },
}
