//! Laws of segments and their live entries. Each function has an empty body: its contract is the law.

ghost use Rattle.std.specs.Prelude.{◌≡◌, ◌++◌, ◌&&◌, ℕ, Bool, List, [], ◌∷◌, not, nat_eq, Contains};
ghost use Rattle.outer_io.specs.Files.{Files};
ghost use Rattle.outer_io.specs.declared.file_name.FileName.TheVariants.{Segment};
ghost use Rattle.page_cache.specs.declared.cache.PageCache.{PageCache};
ghost use Rattle.documents.specs.Entries.{SameTotals, entries_but, has_entry};
ghost use Rattle.nearest_query.specs.Segments.{live_in};
ghost use Rattle.segment_view.specs.LiveSegments.{LiveSegment, Contents, IsRead, AreRead, IsPlaced, heads_of, lives_of};
ghost use Rattle.segment_view.specs.LiveSegments.{ids_of};
ghost use Rattle.segment_view.specs.LiveSegments.{live_in_parts, parts_among, parts_but, has_live, cleared_parts};
ghost use Rattle.segment_view.specs.Calm.{IsCalm};

/// The live entries of segments are those of each, however the list is told; in whatever order they stand, where the
/// clause is by totals (`permutations_by_totals` of the crate `documents`).
pub fn entries_join()
    ensures joined { (c : Contents) (xs ys : List LiveSegment)
        → live_in_parts c (xs ++ ys) ≡ live_in_parts c xs ++ live_in_parts c ys }
    ensures placed { (c : Contents) (p : LiveSegment) (old new : List LiveSegment) → IsPlaced p old new
        → SameTotals (live_in_parts c old ++ live_in_parts c (p ∷ [])) (live_in_parts c new) }
    ensures parted { (c : Contents) (ids : List ℕ) (parts : List LiveSegment)
        → SameTotals (live_in_parts c (parts_among ids parts) ++ live_in_parts c (parts_but ids parts))
        (live_in_parts c parts) }
    // as the nearest query has them
    ensures listed { (c : Contents) (parts : List LiveSegment)
        → live_in c (heads_of parts) (lives_of parts) ≡ live_in_parts c parts }
{}

/// A number that is taken out takes its entries out and nothing else.
pub fn clearing_takes_entries_out()
    ensures entries { (c : Contents) (number : ℕ) (parts : List LiveSegment)
        → live_in_parts c (cleared_parts number parts) ≡ entries_but number (live_in_parts c parts) }
    ensures heads { (number : ℕ) (parts : List LiveSegment) → heads_of (cleared_parts number parts) ≡ heads_of parts }
    ensures ids { (number : ℕ) (parts : List LiveSegment) → ids_of (cleared_parts number parts) ≡ ids_of parts }
    ensures live { (number m : ℕ) (parts : List LiveSegment)
        → has_live m (cleared_parts number parts) ≡ (has_live m parts && not (nat_eq m number)) }
{}

/// A number is live in one of the segments exactly where it is that of a live entry.
pub fn live_numbers_have_entries()
    ensures { (D : ℕ) (files : Files) (c : Contents) (number : ℕ) (parts : List LiveSegment) → AreRead D files c parts
        → has_live number parts ≡ has_entry number (live_in_parts c parts) }
{}

/// Segments that are read stay read: where their files and their entries stay, where numbers are taken out, where
/// another comes, and where some of them go.
pub fn segments_stay_read()
    ensures alike { (D : ℕ) (old new : Files) (c d : Contents) (parts : List LiveSegment)
        → ((id : ℕ) → Contains (ids_of parts) id → new (Segment id) ≡ old (Segment id))
        → ((id : ℕ) → Contains (ids_of parts) id → d id ≡ c id) → AreRead D old c parts → AreRead D new d parts }
    ensures entries { (c d : Contents) (parts : List LiveSegment)
        → ((id : ℕ) → Contains (ids_of parts) id → d id ≡ c id)
        → live_in_parts d parts ≡ live_in_parts c parts }
    ensures cleared { (D : ℕ) (files : Files) (c : Contents) (number : ℕ) (parts : List LiveSegment)
        → AreRead D files c parts
        → AreRead D files c (cleared_parts number parts) }
    ensures placed { (D : ℕ) (files : Files) (c : Contents) (p : LiveSegment) (old new : List LiveSegment)
        → IsPlaced p old new
        → IsRead D files c p → AreRead D files c old → AreRead D files c new }
    ensures among { (D : ℕ) (files : Files) (c : Contents) (ids : List ℕ) (parts : List LiveSegment)
        → AreRead D files c parts
        → AreRead D files c (parts_among ids parts) }
    ensures others { (D : ℕ) (files : Files) (c : Contents) (ids : List ℕ) (parts : List LiveSegment)
        → AreRead D files c parts
        → AreRead D files c (parts_but ids parts) }
{}

/// Calls that only read may be told as one.
pub fn calm_calls_join()
    ensures none { (told : Bool) (files : Files) (cache : PageCache) (ids : List ℕ)
        → IsCalm told files files cache cache ids }
    ensures after { (told : Bool) (old mid new : Files) (before between after : PageCache) (ids : List ℕ)
        → IsCalm told old mid before between ids
        → IsCalm told mid new between after ids → IsCalm told old new before after ids }
    ensures more { (told : Bool) (old new : Files) (before after : PageCache) (ids more : List ℕ)
        → ((id : ℕ) → Contains ids id → Contains more id)
        → IsCalm told old new before after ids → IsCalm told old new before after more }
{}
