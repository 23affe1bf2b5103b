//! Laws of segments in memory and of what is written of them. Each function has an empty body: its contract is the law.

ghost use Rattle.std.specs.Prelude.{◌≡◌, ℕ, List, [], length, filter};
ghost use Rattle.std.specs.List.Sorted.{IsPermutation};
ghost use Rattle.point_codec.specs.Points.{Item};
ghost use Rattle.live_bits.specs.LiveSet.{LiveSet, is_live};
ghost use Rattle.documents.specs.Entries.{has_entry};
ghost use Rattle.segment_file.specs.Heads.{Head};
ghost use Rattle.segment_build.specs.NewSegments.{NewSegmentData, HasEntries, IsCanonical};

/// A segment in memory has one list of entries, in the order of its leaves.
pub fn one_list_of_entries()
    ensures { (D : ℕ) (xs ys : List Item) (n : NewSegmentData) → HasEntries D xs n → HasEntries D ys n → xs ≡ ys }
{}

/// Segments of the same entries, in whatever order, and of one leaf size have the same index; and an index that is
/// canonical for entries is so for them in any order.
pub fn one_canonical_index()
    ensures one { (D : ℕ) (xs ys : List Item) (g h : Head) → g.leaf_size ≡ h.leaf_size → IsPermutation xs ys
        → IsCanonical D g xs → IsCanonical D h ys → g.index ≡ h.index }
    ensures any_order { (D : ℕ) (xs ys : List Item) (h : Head) → IsPermutation xs ys → IsCanonical D h xs
        → IsCanonical D h ys }
{}

/// Where no number is live no entry is.
pub fn no_live_no_entries()
    ensures { (live : LiveSet) (items : List Item) → length live.live ≡ 0
        → filter (λ x. is_live live x.doc) items ≡ [] }
{}

/// Where the live numbers are those of the entries all entries are live.
pub fn all_live_all_entries()
    ensures { (live : LiveSet) (items : List Item) → is_live live ≡ (λ number. has_entry number items)
        → filter (λ x. is_live live x.doc) items ≡ items }
{}
