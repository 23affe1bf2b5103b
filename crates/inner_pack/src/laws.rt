//! Laws of indexes. Each function has an empty body: its contract is the law.

ghost use Rattle.std.specs.Prelude.{◌≡◌, ◌≤◌, ℕ, ℤ, List, All, true, length};
ghost use Rattle.point_codec.specs.Points.{Region};
ghost use Rattle.point_codec.specs.Cells.{within, left_of, right_of};
ghost use Rattle.inner_pack.specs.Places.{Spot, end_of};
ghost use Rattle.inner_pack.specs.Trees.{IndexTree, Split, IsShaped, IsCell, IsInCell, HasCells, cell_of, leaf_count};
ghost use Rattle.inner_pack.specs.Trees.{lengths_of};
ghost use Rattle.inner_pack.specs.Bodies.{SpellsIndex, right_begin};

/// No bytes are the body of two trees, or over two root cells, of one form and number of leaves. That a tree has one
/// body of a form is in the definition: the body is a function of the tree.
pub fn one_tree()
    ensures { (D form n : ℕ) (b : List ℕ) (r s : Region) (t u : IndexTree) → SpellsIndex D form n b r t
        → SpellsIndex D form n b s u → (r ≡ s) × (t ≡ u) }
{}

/// A tree has as many leaves as its shape is of.
pub fn leaves_are_counted()
    ensures count { (n : ℕ) (t : IndexTree) → IsShaped n t → leaf_count t ≡ n }
    ensures lengths { (t : IndexTree) → length (lengths_of t) ≡ leaf_count t }
{}

/// The leaves below a node end no further than those of the whole: so each stands in one of the leaf pages.
pub fn places_ascend()
    // the right child's last leaf is the node's
    ensures right { (s : Spot) (d : ℕ) (x : ℤ) (l r : IndexTree)
        → All (λ length. (1 ≤ length) × (length ≤ 4064)) (lengths_of r)
        → end_of (right_begin s l r) (lengths_of r) ≡ end_of s (lengths_of (Split d x l r)) }

    ensures left { (s : Spot) (d : ℕ) (x : ℤ) (l r : IndexTree)
        → (end_of s (lengths_of l)).page ≤ (end_of s (lengths_of (Split d x l r))).page }
    ensures first { (s : Spot) (t : IndexTree) → s.page ≤ (end_of s (lengths_of t)).page }
{}

/// The cells of a tree lie one within the other.
pub fn cells_nest()
    ensures left { (D : ℕ) (path : Region) (d : ℕ) (x : ℤ) → IsCell D path → IsInCell D path d x
        → within (left_of path d x) path ≡ true }
    ensures right { (D : ℕ) (path : Region) (d : ℕ) (x : ℤ) → IsCell D path → IsInCell D path d x
        → within (right_of path d x) path ≡ true }
    // the cell of a node lies within its path cell
    ensures own { (D : ℕ) (path : Region) (t : IndexTree) → HasCells D path t → within (cell_of path t) path ≡ true }
{}
