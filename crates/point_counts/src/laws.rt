//! Laws of clean segments. Each function has an empty body: its contract is the law.

ghost use Rattle.std.specs.Prelude.{◌≡◌, ℕ, nat_eq, true, All};
ghost use Rattle.std.specs.List.{count_by};
ghost use Rattle.outer_io.specs.Files.{Files};
ghost use Rattle.live_bits.specs.LiveSet.{IsLiveSet, is_live};
ghost use Rattle.segment_view.specs.LiveSegments.{LiveSegment, Contents, IsRead};
ghost use Rattle.point_counts.specs.Costs.{is_clean};

/// Each entry of a clean segment is live, and no number is that of two: the live numbers are as many as the entries,
/// and each is that of one.
pub fn clean_segments_are_live()
    ensures live { (D : ℕ) (files : Files) (c : Contents) (p : LiveSegment) → IsRead D files c p → IsLiveSet p.live
        → is_clean p ≡ true
        → All (λ e. is_live p.live e.doc ≡ true) (c p.head.id) }
    ensures once { (D : ℕ) (files : Files) (c : Contents) (p : LiveSegment) → IsRead D files c p → IsLiveSet p.live
        → is_clean p ≡ true
        → All (λ e. count_by (λ f. nat_eq f.doc e.doc) (c p.head.id) ≡ 1) (c p.head.id) }
{}
