//! Laws of what a folder stores. Each function has an empty body: its contract is the law.

ghost use Rattle.std.specs.Prelude.{◌≡◌, ◌≢◌, ◌≤◌, ◌<◌, ◌+◌, ◌++◌, ◌∷◌, ◌↔◌, ℕ, Bool, true, false, List, [], None};
ghost use Rattle.std.specs.Prelude.{Some, length, map, All, AllPairs, Contains};
ghost use Rattle.outer_io.specs.declared.file_name.FileName.{FileName};
ghost use Rattle.outer_io.specs.declared.file_name.FileName.TheVariants.{Commit, CommitNew, Segment, Live};
ghost use Rattle.outer_io.specs.Files.{Files, bytes_of, SameBut, SameButTwo};
ghost use Rattle.point_codec.specs.Points.{Item};
ghost use Rattle.documents.specs.Documents.{Document, is_live as is_live_doc};
ghost use Rattle.documents.specs.Entries.{AreDocs, MakeDocs, has_entry};
ghost use Rattle.index_model.specs.State.{State};
ghost use Rattle.live_bits.specs.LiveSet.{LiveSet, IsLiveSet, is_live};
ghost use Rattle.commit_list.specs.declared.listed.Listed.{Listed};
ghost use Rattle.commit_list.specs.Commits.{CommitData, IsListed};
ghost use Rattle.commit_list.specs.CommitFiles.{IsCommitFile};
ghost use Rattle.segment_file.specs.Heads.{Head};
ghost use Rattle.segment_file.specs.Segments.{IsHeadOf, IsSegment};
ghost use Rattle.segment_file.specs.LiveFiles.{IsLiveFile};
ghost use Rattle.stored_index.specs.Segments.{SegmentData, HoldsListed, AreApart, live_entries, all_live_entries};
ghost use Rattle.stored_index.specs.Segments.{live_sets, entries_at, places};
ghost use Rattle.stored_index.specs.Stored.{HoldsFiles, HoldAll, HoldsIndex, HasHead, HasLive, HaveHeads, HaveLive};
ghost use Rattle.stored_index.specs.Stored.{IsStored, IsUndefined, index_of};
ghost use Rattle.stored_index.specs.Kept.{ListsFile, SameKept};
ghost use Rattle.stored_index.specs.Opening.{IsOpening, opening_pages, segments_pages, listed_pages};

use segment_file::one_segment;

/// The files of a listed segment hold one segment at most: the head and the live bits that the files spell are its own.
pub fn one_holding()
    ensures segment { (dims leaf_size : ℕ) (s : Listed) (a b : List ℕ) (d e : SegmentData)
        → HoldsListed dims leaf_size s a b d → HoldsListed dims leaf_size s a b e → d ≡ e }
    ensures head { (dims leaf_size : ℕ) (s : Listed) (a b : List ℕ) (d : SegmentData) (head : Head)
        → HoldsListed dims leaf_size s a b d → head.id ≡ s.segment → IsHeadOf dims a head → head ≡ d.head }
    ensures live { (dims leaf_size : ℕ) (s : Listed) (a b : List ℕ) (d : SegmentData) (live : LiveSet)
        → HoldsListed dims leaf_size s a b d → IsLiveFile s.segment s.generation b live → live ≡ d.live }
{
    one_segment();
}

/// A folder stores one state at most, and holds one list of documents and one list of segments at most.
pub fn one_stored()
    ensures state { (files : Files) (s t : State) → IsStored files s → IsStored files t → s ≡ t }
    ensures docs { (files : Files) (c : CommitData) (docs others : List Document) → HoldsIndex files c docs
        → HoldsIndex files c others → docs ≡ others }
    ensures segments { (files : Files) (c : CommitData) (xs ys : List SegmentData) → HoldAll files c xs
        → HoldAll files c ys
        → xs ≡ ys }
{
    one_segment();
}

/// What is stored depends on what is kept alone.
pub fn stored_is_kept()
    ensures stored { (old new : Files) (state : State) → SameKept old new → IsStored old state → IsStored new state }
    ensures undefined { (old new : Files) → SameKept old new → IsUndefined old → IsUndefined new }
    ensures held { (old new : Files) (c : CommitData) (docs : List Document) → SameKept old new → HoldsIndex old c docs
        → HoldsIndex new c docs }
    ensures opening { (old new : Files) (pages : ℕ) → SameKept old new → IsOpening old pages → IsOpening new pages }
{}

/// Files that are kept alike are so in either order, and in turn.
pub fn kept_files_are_alike()
    ensures itself { (files : Files) → SameKept files files }
    ensures back { (old new : Files) → SameKept old new → SameKept new old }
    ensures after { (old middle new : Files) → SameKept old middle → SameKept middle new → SameKept old new }
{}

/// What is kept stays where only files are changed that the Commit file doesn't list.
pub fn kept_after_writes()
    ensures one { (old new : Files) (name : FileName) → SameBut name old new → name ≢ Commit
        → ((c : CommitData) → IsCommitFile (bytes_of (old Commit)) c → ListsFile c name → ⊥) → SameKept old new }
    // a list of names has all that the commit lists, and no file that it names has changed
    ensures named { (old new : Files) (is_named : FileName → Bool) → new Commit ≡ old Commit
        → ((c : CommitData) → IsCommitFile (bytes_of (old Commit)) c → (name : FileName) → ListsFile c name
        → is_named name ≡ true)
        → ((name : FileName) → is_named name ≡ true → new name ≡ old name) → SameKept old new }
    // where there is no Commit file nothing else is kept
    ensures none { (old new : Files) → old Commit ≡ None → new Commit ≡ None → SameKept old new }
    ensures commit_new { (old new : Files) → SameBut CommitNew old new → SameKept old new }
    // a commit that was refused before its rename
    ensures refused { (old new : Files) → SameButTwo CommitNew Commit old new → new Commit ≡ old Commit
        → SameKept old new }
{}

/// The files of a listed segment hold it as long as these two stay.
pub fn segments_stay()
    ensures one { (old new : Files) (c : CommitData) (s : Listed) (d : SegmentData)
        → new (Segment s.segment) ≡ old (Segment s.segment)
        → new (Live s.segment s.generation) ≡ old (Live s.segment s.generation) → HoldsFiles old c s d
        → HoldsFiles new c s d }
    ensures all { (old new : Files) (c : CommitData) (parts : List SegmentData)
        → ((name : FileName) → ListsFile c name → new name ≡ old name) → HoldAll old c parts → HoldAll new c parts }
{}

/// In an index that is held each number is live in one segment at most, and in none from the next number on. A number
/// is live in a segment exactly where it is that of a document.
pub fn numbers_are_alone()
    ensures live { (files : Files) (c : CommitData) (docs : List Document) → (held : HoldsIndex files c docs)
        → (number : ℕ) → (1 ≤ places number (live_sets held.parts)) ↔ (is_live_doc number docs ≡ true) }
    ensures below { (files : Files) (c : CommitData) (docs : List Document) → (held : HoldsIndex files c docs)
        → (number : ℕ) → c.next ≤ number → places number (live_sets held.parts) ≡ 0 }
    ensures apart { (sets : List LiveSet) → ((number : ℕ) → places number sets ≤ 1) ↔ AllPairs AreApart sets }
{}

/// The live entries of all segments are those of documents exactly where those of each segment are: their numbers are
/// below the next, a number has at most 16 of them, and none stands twice.
pub fn docs_by_segment()
    ensures { (next : ℕ) (parts : List SegmentData) → ((number : ℕ) → places number (live_sets parts) ≤ 1)
        → All (λ d. MakeDocs next (live_entries d)) parts ↔
        ((docs : List Document) × AreDocs next (all_live_entries parts) docs) }
{}

/// A segment whose live numbers have entries may be listed: it has entries, and no more numbers are live than it has.
pub fn segments_may_be_listed()
    ensures listed { (D : ℕ) (bytes : List ℕ) (head : Head) (entries : List Item) (live : LiveSet)
        (generation next_segment : ℕ)
        → IsSegment D bytes head entries → IsLiveSet live
        → ((number : ℕ) → is_live live number ≡ true → has_entry number entries ≡ true)
        → head.id < next_segment
        → IsListed next_segment
        (record { segment = head.id; generation = generation; entries = head.entries; live = length live.live }) }
    ensures live { (live : LiveSet) (entries : List Item) → IsLiveSet live
        → ((number : ℕ) → is_live live number ≡ true → has_entry number entries ≡ true)
        → length live.live ≤ length entries }
{}

/// A commit whose segments are held, with live entries of documents and no number live in two of them, is stored.
pub fn index_is_stored()
    // one that lists no segment has no documents
    ensures none { (files : Files) (c : CommitData) → IsCommitFile (bytes_of (files Commit)) c → c.listed ≡ []
        → IsStored files (Some (index_of c [])) }
    ensures held { (files : Files) (c : CommitData) (parts : List SegmentData) (docs : List Document)
        → IsCommitFile (bytes_of (files Commit)) c
        → HoldAll files c parts → ((number : ℕ) → places number (live_sets parts) ≤ 1)
        → AreDocs c.next (all_live_entries parts) docs
        → length (all_live_entries parts) ≤ c.points_given → IsStored files (Some (index_of c docs)) }
{}

/// Where the Commit file says a commit, what is stored is the index that is held for it.
pub fn commit_holds_index()
    ensures { (files : Files) (c : CommitData) (state : State) → IsStored files state
        → IsCommitFile (bytes_of (files Commit)) c
        → (docs : List Document) × HoldsIndex files c docs × (state ≡ Some (index_of c docs)) }
{}

/// The entries of each segment that is held are found by its id.
pub fn contents_by_id()
    ensures { (files : Files) (c : CommitData) (parts : List SegmentData) → IsCommitFile (bytes_of (files Commit)) c
        → HoldAll files c parts
        → All (λ d. entries_at parts d.head.id ≡ d.entries) parts }
{}

/// The heads and live sets that the files of the listed segments have are those of the segments that are held.
pub fn held_heads_and_sets()
    ensures heads { (files : Files) (c : CommitData) (parts : List SegmentData) → HoldAll files c parts
        → HaveHeads files c (map (λ d. d.head) parts)
        × ((heads : List Head) → HaveHeads files c heads → heads ≡ map (λ d. d.head) parts) }
    ensures sets { (files : Files) (c : CommitData) (parts : List SegmentData) → HoldAll files c parts
        → HaveLive files c (live_sets parts)
        × ((sets : List LiveSet) → HaveLive files c sets → sets ≡ live_sets parts) }
{}

/// What shows that a folder stores no state, in the order in which it is looked for.
pub fn damage_is_undefined()
    ensures commit { (files : Files) → files Commit ≢ None
        → ((c : CommitData) → IsCommitFile (bytes_of (files Commit)) c → ⊥)
        → IsUndefined files }
    // a listed segment has no head, or one of another leaf size or number of entries
    ensures head { (files : Files) (c : CommitData) (s : Listed) → IsCommitFile (bytes_of (files Commit)) c
        → Contains c.listed s
        → ((head : Head) → HasHead c.dims files s head → head.leaf_size ≡ c.leaf_size → head.entries ≡ s.entries → ⊥)
        → IsUndefined files }
    // it has no live bits, or another number of them
    ensures live { (files : Files) (c : CommitData) (s : Listed) → IsCommitFile (bytes_of (files Commit)) c
        → Contains c.listed s
        → ((live : LiveSet) → HasLive files s live → length live.live ≡ s.live → ⊥) → IsUndefined files }
    // a number that wasn't given is live, or one is live in two segments
    ensures beyond { (files : Files) (c : CommitData) (sets : List LiveSet) (number : ℕ)
        → IsCommitFile (bytes_of (files Commit)) c
        → HaveLive files c sets → c.next ≤ number → 1 ≤ places number sets → IsUndefined files }
    ensures doubled { (files : Files) (c : CommitData) (sets : List LiveSet) (number : ℕ)
        → IsCommitFile (bytes_of (files Commit)) c
        → HaveLive files c sets → 2 ≤ places number sets → IsUndefined files }
    // the files of a segment hold none, as where some leaf isn't spelled
    ensures segment { (files : Files) (c : CommitData) (s : Listed) → IsCommitFile (bytes_of (files Commit)) c
        → Contains c.listed s
        → ((d : SegmentData) → HoldsFiles files c s d → ⊥) → IsUndefined files }
    // a live number has no entry
    ensures unfound { (files : Files) (c : CommitData) (s : Listed) (head : Head) (entries : List Item) (live : LiveSet)
        (number : ℕ)
        → IsCommitFile (bytes_of (files Commit)) c → Contains c.listed s → head.id ≡ s.segment
        → IsSegment c.dims (bytes_of (files (Segment s.segment))) head entries → HasLive files s live
        → is_live live number ≡ true → has_entry number entries ≡ false → IsUndefined files }
    // the live entries are of no documents, or more than the points given
    ensures entries { (files : Files) (c : CommitData) (parts : List SegmentData)
        → IsCommitFile (bytes_of (files Commit)) c
        → HoldAll files c parts
        → ((docs : List Document) → AreDocs c.next (all_live_entries parts) docs
        → length (all_live_entries parts) ≤ c.points_given → ⊥) → IsUndefined files }
{
    one_segment();
}

/// Opening reads one number of pages, where a state is stored. Where an index is held it reads those for the heads of
/// its segments.
pub fn one_opening()
    ensures one { (files : Files) (m n : ℕ) → IsOpening files m → IsOpening files n → m ≡ n }
    ensures stored { (files : Files) (state : State) → IsStored files state → (pages : ℕ) × IsOpening files pages }
    ensures held { (files : Files) (c : CommitData) (docs : List Document) → (held : HoldsIndex files c docs)
        → IsOpening files (opening_pages files c (map (λ d. d.head) held.parts)) }
    ensures grows { (files : Files) (listed : List Listed) (heads : List Head) (s : Listed) (head : Head)
        → length listed ≡ length heads
        → segments_pages files (listed ++ s ∷ [])
        (heads ++ head ∷ []) ≡ segments_pages files listed heads + listed_pages files s head }
{}
