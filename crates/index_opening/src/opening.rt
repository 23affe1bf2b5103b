//! The segments that a commit lists, as their files have them.

ghost use Rattle.std.specs.Prelude.{◌≡◌, ◌≢◌, ◌≤◌, ◌+◌, ◌/◌, ◌^◌, ◌↔◌, ℕ, List, length, Contains, IsTrue, IsOk};
ghost use Rattle.std.specs.Prelude.{IsErrOf, IfOk, OnOk};
ghost use Rattle.std.specs.List.{AllZip};
ghost use Rattle.outer_io.specs.Files.{bytes_of};
ghost use Rattle.outer_io.specs.declared.file_name.FileName.TheVariants.{Live, Segment};
ghost use Rattle.live_bits.specs.LiveSet.{LiveSet};
ghost use Rattle.page_cache.specs.declared.faults.PageFault.TheVariants as page;
ghost use Rattle.page_cache.specs.Causes.{HasPageCause};
ghost use Rattle.page_cache.specs.Evidence.{OnDamage, NotDamaged};
ghost use Rattle.commit_list.specs.declared.listed.Listed.{Listed};
ghost use Rattle.commit_list.specs.Commits.{CommitData};
ghost use Rattle.segment_file.specs.Heads.{Head, index_pages};
ghost use Rattle.segment_file.specs.Damages.{IsPairDamage};
ghost use Rattle.stored_index.specs.Segments.{SegmentData, places};
ghost use Rattle.stored_index.specs.Opening.{listed_pages, segments_pages};
ghost use Rattle.stored_index.specs.Stored.{HasHead, HasLive, HaveHeads, HaveLive, HoldAll, HoldsFiles};
ghost use Rattle.segment_view.specs.LiveSegments.{live_segment};
ghost use Rattle.index_opening.specs.Damages.{IsMisplaced, IsListedDamage, IsListedDamageOf};
ghost use Rattle.index_opening.specs.First.{IsFirstIn, IsFirstListed, IsOfFile, IsOfLeast};
ghost use Rattle.index_opening.specs.Opened.{IsOpened};

use commit_list::{Commit, Listed};
use document_checks::{Misplaced, misplaced};
use live_bits::LiveBits;
use outer_io::{FileName, Folder};
use page_cache::{Damage, PageFault};
use segment_file::{SegmentHead, open_segment, read_live};
use segment_view::Segments;
use std::alloc::Global;

/// The segments that the commit lists. Of each first the head and the index are read, then the live bits.
pub fn open_all<const D: usize, F: Folder>(
    alloc: Global,
    folder: &mut F,
    c: &Commit,
) -> Result<Segments<D>, PageFault>
    requires { c.now.dims ≡ D }
    ensures opened { IfOk result
        (λ parts. AllZip (IsOpened (IsTrue F.told) (F.files folder.old) c.now) c.now.listed parts) }
    ensures files { IsTrue F.told → F.files folder.new ≡ F.files folder.old }
    ensures reads { IsTrue F.told → (heads : List Head) (sets : List LiveSet)
        → HaveHeads (F.files folder.old) c.now heads
        → HaveLive (F.files folder.old) c.now sets
        → F.reads folder.new ≤ F.reads folder.old + segments_pages (F.files folder.old) c.now.listed heads }
    ensures cause { HasPageCause (F.faults folder.old) (F.faults folder.new) result }
    ensures shown { OnDamage result (λ d. (s : Listed) × Contains c.now.listed s × IsListedDamage s d) }
    ensures damage { IsTrue F.told
        → OnDamage result
        (λ d. (s : Listed) × Contains c.now.listed s × IsListedDamageOf (F.files folder.old) c.now s d) }
    // the first in the order in which they are read
    ensures first { OnDamage result (IsFirstListed (IsTrue F.told) (F.files folder.old) c.now) }
    ensures whole { IsTrue F.told → (parts : List SegmentData) → HoldAll (F.files folder.old) c.now parts
        → NotDamaged result }
{
    let listed = c.listed();
    let mut segments = Segments::new(alloc);
    for s in listed {
        let (head, live) = open_one::<D, F>(alloc, folder, c, *s)?;
        segments.insert(head, live)?;
    }
    Ok(segments)
}

/// The head and the live bits of a segment that the commit lists, where they are as it says.
fn open_one<const D: usize, F: Folder>(
    alloc: Global,
    folder: &mut F,
    c: &Commit,
    s: Listed,
) -> Result<(SegmentHead<D>, LiveBits), PageFault>
    requires { c.now.dims ≡ D }
    ensures opened { IfOk result (λ r. IsOpened (IsTrue F.told) (F.files folder.old) c.now s (live_segment r.0 r.1)) }
    ensures files { IsTrue F.told → F.files folder.new ≡ F.files folder.old }
    ensures reads { IsTrue F.told → (head : Head) (live : LiveSet) → HasHead c.now.dims (F.files folder.old) s head
        → HasLive (F.files folder.old) s live
        → F.reads folder.new ≤ F.reads folder.old + listed_pages (F.files folder.old) s head }
    ensures cause { HasPageCause (F.faults folder.old) (F.faults folder.new) result }
    ensures shown { OnDamage result (IsListedDamage s) }
    ensures damage { IsTrue F.told → OnDamage result (IsListedDamageOf (F.files folder.old) c.now s) }
    ensures first { OnDamage result (IsFirstIn (IsTrue F.told) (F.files folder.old) c.now s) }
    ensures whole { IsTrue F.told → (d : SegmentData) → HoldsFiles (F.files folder.old) c.now s d → NotDamaged result }
{
    let head = open_head::<D, F>(alloc, folder, c, s)?;
    let live = open_live(alloc, folder, s)?;
    Ok((head, live))
}

/// The head of a segment, where its leaf size and its number of entries are those that the commit says.
fn open_head<const D: usize, F: Folder>(
    alloc: Global,
    folder: &mut F,
    c: &Commit,
    s: Listed,
) -> Result<SegmentHead<D>, PageFault>
    requires { c.now.dims ≡ D }
    ensures listed { IfOk result (λ h. (h.id ≡ s.segment) × (h.leaf_size ≡ c.now.leaf_size) × (h.entries ≡ s.entries)) }
    ensures head { IsTrue F.told → IfOk result (HasHead c.now.dims (F.files folder.old) s) }
    ensures files { IsTrue F.told → F.files folder.new ≡ F.files folder.old }
    ensures reads { IsTrue F.told → (h : Head) → HasHead c.now.dims (F.files folder.old) s h
        → F.reads folder.new ≤ F.reads folder.old + 1 + index_pages h }
    ensures cause { HasPageCause (F.faults folder.old) (F.faults folder.new) result }
    ensures shown { OnDamage result (IsListedDamage s) }
    ensures damage { IsTrue F.told → OnDamage result (IsListedDamageOf (F.files folder.old) c.now s) }
    ensures of { OnDamage result (IsOfFile (Segment s.segment)) }
    ensures whole { IsTrue F.told → (d : SegmentData) → HoldsFiles (F.files folder.old) c.now s d → NotDamaged result }
{
    let leaf_size = c.leaf_size();
    let head = open_segment::<D, F>(alloc, folder, s.segment)?;
    let file = FileName::Segment(s.segment);
    agree(file, u64::from(leaf_size), u64::from(head.leaf_size()))?;
    agree(file, u64::from(s.entries), u64::from(head.entries()))?;
    Ok(head)
}

/// The live bits of a segment, where they are as many as the commit says.
fn open_live<F: Folder>(alloc: Global, folder: &mut F, s: Listed) -> Result<LiveBits, PageFault>
    ensures listed { IfOk result (λ live. length live.live ≡ s.live) }
    ensures live { IsTrue F.told → IfOk result (HasLive (F.files folder.old) s) }
    ensures files { IsTrue F.told → F.files folder.new ≡ F.files folder.old }
    ensures reads { IsTrue F.told → (live : LiveSet) → HasLive (F.files folder.old) s live
        → F.reads folder.new ≤ F.reads folder.old + length
        (bytes_of (F.files folder.old (Live s.segment s.generation))) / 4096 }
    ensures cause { HasPageCause (F.faults folder.old) (F.faults folder.new) result }
    ensures shown { OnDamage result (IsListedDamage s) }
    ensures damage { IsTrue F.told → (c : CommitData) → OnDamage result (IsListedDamageOf (F.files folder.old) c s) }
    ensures of { OnDamage result (IsOfFile (Live s.segment s.generation)) }
    ensures whole { IsTrue F.told → (c : CommitData) (d : SegmentData) → HoldsFiles (F.files folder.old) c s d
        → NotDamaged result }
{
    let live = read_live(alloc, folder, s.segment, s.generation)?;
    let file = FileName::Live {
        segment: s.segment,
        generation: s.generation,
    };
    agree(file, u64::from(s.live), u64::from(live.live_count()))?;
    Ok(live)
}

/// Whether a number that the commit says is the one that the file has.
fn agree(file: FileName, said: u64, found: u64) -> Result<(), PageFault>
    ensures ok { IsOk result ↔ (said ≡ found) }
    ensures pair { OnDamage result (λ d. IsPairDamage file said found d × (said ≢ found)) }
    ensures no_fault { IsErrOf result page.Failed → ⊥ }
{
    if said == found {
        return Ok(());
    }
    Err(PageFault::Damaged(Damage::Unequal { file, said, found }))
}

/// Whether each live number is below the next one and live in one segment alone.
pub fn check_numbers(alloc: Global, lives: &[LiveBits], next: u32) -> Result<(), PageFault>
    requires { next ≤ 2 ^ 24 }
    ensures alone { OnOk result
        ((number : ℕ) → (places number lives.now ≤ 1) × (next ≤ number → places number lives.now ≡ 0)) }
    ensures shown { OnDamage result
        (IsMisplaced (λ doc. 1 ≤ places doc lives.now) (λ doc. 2 ≤ places doc lives.now) next) }
    ensures least { OnDamage result (IsOfLeast next lives.now) }
    ensures no_fault { IsErrOf result page.Failed → ⊥ }
{
    match misplaced(alloc, lives, next)? {
        None => Ok(()),
        Some(Misplaced::NotGiven(doc)) => Err(PageFault::Damaged(Damage::NotGiven { doc, next })),
        Some(Misplaced::Doubled(doc)) => Err(PageFault::Damaged(Damage::Doubled { doc })),
    }
}
