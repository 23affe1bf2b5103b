//! Laws of what is built. Each function has an empty body: its contract is the law.

ghost use Rattle.std.specs.Prelude.{◌≡◌, ◌≤◌, ℕ, List, length};
ghost use Rattle.std.specs.List.{flat_map};
ghost use Rattle.std.specs.List.Sorted.{IsPermutation};
ghost use Rattle.point_codec.specs.Points.{Item, Region};
ghost use Rattle.bkd_build.specs.Canon.{KdTree, Canon, BuiltValue, IsBuilt, leaves_of, index_tree_of};
ghost use Rattle.bkd_build.specs.Leaves.{AreLeaves};

/// Entries have one canonical tree, in whatever order they stand.
pub fn one_canonical_tree()
    ensures { (D leaf_size : ℕ) (xs ys : List Item) (r s : Region) (t u : KdTree) → IsPermutation xs ys
        → Canon D leaf_size xs r t → Canon D leaf_size ys s u → (r ≡ s) × (t ≡ u) }
{}

/// One value is built of entries, in whatever order they stand: the same index and the same bytes of each leaf.
pub fn one_build()
    ensures one { (D leaf_size : ℕ) (xs ys : List Item) (p q : BuiltValue) → IsPermutation xs ys
        → IsBuilt D leaf_size xs p → IsBuilt D leaf_size ys q → p ≡ q }
    ensures any_order { (D leaf_size : ℕ) (xs ys : List Item) (p : BuiltValue) → IsPermutation xs ys
        → IsBuilt D leaf_size xs p → IsBuilt D leaf_size ys p }
{}

/// What is built has all the entries in its leaves, and nothing else.
pub fn built_leaves()
    ensures leaves { (D leaf_size : ℕ) (items : List Item) (b : BuiltValue) → 1 ≤ leaf_size
        → (h : IsBuilt D leaf_size items b)
        → AreLeaves D leaf_size (length items) b h.root (index_tree_of D h.tree) (leaves_of h.tree) }
    ensures same { (D leaf_size : ℕ) (items : List Item) (b : BuiltValue) → (h : IsBuilt D leaf_size items b)
        → IsPermutation items (flat_map (λ leaf. leaf) (leaves_of h.tree)) }
{}
