//! Laws of the files of segments. Each function has an empty body: its contract is the law.

ghost use Rattle.std.specs.Prelude.{◌≡◌, ℕ, List, length};
ghost use Rattle.point_codec.specs.Points.{Item};
ghost use Rattle.live_bits.specs.LiveSet.{LiveSet};
ghost use Rattle.segment_file.specs.Heads.{Head, HasRanges};
ghost use Rattle.segment_file.specs.Segments.{IsHeadOf, IsSegment};
ghost use Rattle.segment_file.specs.LiveFiles.{IsLiveFile};

use inner_pack::one_tree;

/// A file has one head at most.
pub fn one_head()
    ensures { (D : ℕ) (bytes : List ℕ) (g h : Head) → g.id ≡ h.id → IsHeadOf D bytes g → IsHeadOf D bytes h → g ≡ h }
{}

/// A file is that of one segment at most.
pub fn one_segment()
    ensures head { (D : ℕ) (bytes : List ℕ) (h : Head) (items : List Item) → IsSegment D bytes h items
        → IsHeadOf D bytes h }
    ensures items { (D : ℕ) (bytes : List ℕ) (h : Head) (xs ys : List Item) → IsSegment D bytes h xs
        → IsSegment D bytes h ys
        → xs ≡ ys }
{
    one_tree();
}

/// A file has one set of live numbers at most.
pub fn one_live_set()
    ensures { (segment generation : ℕ) (bytes : List ℕ) (s t : LiveSet) → IsLiveFile segment generation bytes s
        → IsLiveFile segment generation bytes t → s ≡ t }
{}

/// A segment has as many entries as its head says, and the numbers of its head are in range.
pub fn segments_are_counted()
    ensures entries { (D : ℕ) (bytes : List ℕ) (h : Head) (items : List Item) → IsSegment D bytes h items
        → length items ≡ h.entries }
    ensures ranges { (D : ℕ) (bytes : List ℕ) (h : Head) (items : List Item) → IsSegment D bytes h items
        → HasRanges D h }
{}
