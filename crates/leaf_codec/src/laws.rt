//! Laws of leaves. Each function has an empty body: its contract is the law.

ghost use Rattle.std.specs.Prelude.{◌≡◌, ℕ, List};
ghost use Rattle.std.specs.List.Sorted.{IsPermutation};
ghost use Rattle.point_codec.specs.Points.{Item};
ghost use Rattle.leaf_codec.specs.Dimensions.{sorted_dimension};
ghost use Rattle.leaf_codec.specs.Leaves.{SpellsLeaf};

/// Bytes spell one list of entries at most, and a list has one spelling.
pub fn one_leaf()
    ensures items { (D : ℕ) (bytes : List ℕ) (xs ys : List Item) → SpellsLeaf D bytes xs → SpellsLeaf D bytes ys
        → xs ≡ ys }
    ensures bytes { (D : ℕ) (a b : List ℕ) (xs : List Item) → SpellsLeaf D a xs → SpellsLeaf D b xs → a ≡ b }
{}

/// The sorted dimension depends on the entries and not on their order.
pub fn sorted_in_any_order()
    ensures { (D : ℕ) (xs ys : List Item) → IsPermutation xs ys → sorted_dimension D xs ≡ sorted_dimension D ys }
{}
