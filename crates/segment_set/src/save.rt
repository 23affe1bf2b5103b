//! Saves a set: it is flushed, live bits that changed are written, and a commit lists its segments.

ghost use Rattle.std.specs.Prelude.{◌≡◌, ◌≢◌, ◌≤◌, ◌↔◌, ◌++◌, ◌∷◌, ℕ, true, [], Some, length, All, Contains};
ghost use Rattle.std.specs.Prelude.{IsTrue, IfOk, IfNone, IfSome, OnOk, OnErr};
ghost use Rattle.std.specs.List.{AllZip};
ghost use Rattle.std.specs.List.Sorted.{IsStrictlyIncreasing};
ghost use Rattle.outer_io.specs.declared.file_name.FileName.TheVariants.{Live, Segment};
ghost use Rattle.page_cache.specs.Causes.{HasPageCause};
ghost use Rattle.page_cache.specs.Evidence.{OnDamage, NotDamaged};
ghost use Rattle.commit_list.specs.Commits.{IsListed};
ghost use Rattle.merge_policy.specs.Choice.{free_count};
ghost use Rattle.index_model.specs.State.{Index};
ghost use Rattle.segment_view.specs.LiveSegments.{ids_of, live_segment};
ghost use Rattle.file_names.specs.Names.{is_named};
ghost use Rattle.segment_set.specs.Sets.{IsNamed};
ghost use Rattle.segment_set.specs.Kept.{KeepsNamed};
ghost use Rattle.segment_set.specs.Saved.{HasNoLine, IsAnew, IsLastOrNext, IsLineOf, IsSaved, StaysButSaved};

use crate::set::SegmentSet;
use bkd_build::Gate;
use commit_list::{Commit, Listed};
use file_names::FileNames;
use live_bits::LiveBits;
use outer_io::{FileName, Folder};
use page_cache::PageFault;
use segment_file::{SegmentHead, write_live};
use segment_view::Segments;
use std::alloc::Global;
use std::marker::Sync;
use std::thread::Threads;

impl<const D: usize> SegmentSet<D> {
    ghost use Rattle.segment_set.specs.Sets.{IsSettled, IsWell, pins_of, sizes_of};
    ghost use Rattle.segment_set.specs.Effects.{Rewrites, Saves, ShowsMergeDamage};
    ghost use Rattle.segment_set.specs.Seen.{Sees};
    ghost use Rattle.segment_set.specs.Kept.{IsAsBefore, IsCommitOf, StaysAlone};
    ghost use Rattle.segment_set.specs.Settles.{Flushes, IsLeft, SetMoment, moment};
    ghost use Rattle.segment_set.specs.Faithful.{IsFaithful};

    /// Flushes, and answers the commit that lists the segments of now. A segment is listed as the last commit lists it
    /// where that says as many live numbers, since numbers only go. The live bits of each other one are written, under
    /// a generation that the list of names doesn't have.
    pub fn save<R: Threads + Sync, F: Folder, G: Gate>(
        &mut self,
        rt: &R,
        alloc: Global,
        folder: &mut F,
        last: &[Listed],
        gate: &G,
    ) -> Result<Commit, PageFault>
        ensures seen { IsTrue F.told → (i : Index) → Sees D (F.files folder.old) self.old i
            → Sees D (F.files folder.new) self.new i }
        ensures emptied { OnOk result (self.new.buffer ≡ []) }
        ensures levels { OnOk result
            ((level : ℕ) → free_count level (sizes_of self.new.parts) (pins_of self.new.begun self.new.parts) ≤ 10) }
        // the commit: its files are named, and those of its live bits are new or the last one's, and hold what is live
        ensures saves { Saves D (IsTrue F.told) (F.files folder.old) (F.files folder.new) last.now self.old self.new
            result }
        // what is done, and after a fault what was done before: merges of the policy and a flush, each whole
        ensures flushed { IfOk result
            (λ c. (s : SetMoment) × Flushes D (IsTrue F.told) (moment (F.files folder.old) self.old) s
            × StaysButSaved s.set self.new × All (IsLastOrNext s.set.names last.now) c.listed) }
        ensures left { OnErr result
            (IsLeft (Flushes D (IsTrue F.told) (moment (F.files folder.old) self.old)) self.new) }
        // what stays
        ensures stays { StaysAlone self.old self.new }
        ensures rewrites { Rewrites D (IsTrue F.told) (F.files folder.old) (F.files folder.new) self.old self.new }
        ensures begun { self.new.begun ≡ self.old.begun }
        // where the policy chooses nothing, nothing is read
        ensures rested { IsSettled self.old → F.reads folder.new ≡ F.reads folder.old }
        // what an error says
        ensures cause { HasPageCause (F.faults folder.old) (F.faults folder.new) result }
        ensures damaged { ShowsMergeDamage D (IsTrue F.told) (F.files folder.old) (F.files folder.new) self.old
            self.new (λ P. OnDamage result P) }
    {
        self.flush(rt, alloc, folder, gate)?;
        self.list_segments(alloc, folder, last)
    }

    /// Writes the live bits of each segment that the last commit doesn't list with as many live numbers, and answers
    /// the commit that lists the segments. What waits in the buffer isn't in it.
    fn list_segments<F: Folder>(
        &mut self,
        alloc: Global,
        folder: &mut F,
        last: &[Listed],
    ) -> Result<Commit, PageFault>
        ensures rest { StaysButSaved self.old self.new }
        ensures faithful { IsTrue F.told → IsFaithful D (F.files folder.old) self.old
            → IsFaithful D (F.files folder.new) self.new }
        ensures kept { KeepsNamed (IsTrue F.told) self.old.names self.new.names (F.files folder.old)
            (F.files folder.new) }
        ensures saved { IfOk result (λ c. self.new.saved ≡ Some c) }
        ensures refused { OnErr result (IsAsBefore self.old self.new) }
        ensures commit { IfOk result (IsCommitOf D self.new) }
        ensures listed { IfOk result
            (λ c. AllZip (IsSaved (IsTrue F.told) last.now self.old.names self.new.names (F.files folder.new)) c.listed
            self.old.parts) }
        ensures well { IsWell D self.old }
        ensures reads { F.reads folder.new ≡ F.reads folder.old }
        ensures cause { HasPageCause (F.faults folder.old) (F.faults folder.new) result }
        ensures whole { NotDamaged result }
    {
        // called for its clause that the ids ascend
        self.segments.heads();
        let listed = list_lives(alloc, folder, &mut self.names, last, &self.segments)?;
        let again = Vec::from_slice(alloc, listed.as_slice())?;
        let next_segment = self.names.next_segment();
        let next = self.buffer.next();
        let kept = Commit::new(
            D as u8,
            self.leaf_size,
            next,
            self.points_given,
            next_segment,
            again,
        );
        self.saved = Some(kept);
        Ok(Commit::new(
            D as u8,
            self.leaf_size,
            next,
            self.points_given,
            next_segment,
            listed,
        ))
    }
}

/// Lists each segment as the last commit does, or with live bits that are written under a generation of their own.
fn list_lives<const D: usize, F: Folder>(
    alloc: Global,
    folder: &mut F,
    names: &mut FileNames,
    last: &[Listed],
    segments: &Segments<D>,
) -> Result<Vec<Listed>, PageFault>
    requires named { All (IsNamed names.old) segments.now }
    requires ascend { IsStrictlyIncreasing (ids_of segments.now) }
    requires fits { All (λ p. length p.live.live ≤ p.head.entries) segments.now }
    ensures kept { KeepsNamed (IsTrue F.told) names.old names.new (F.files folder.old) (F.files folder.new) }
    ensures next { names.new.next_segment ≡ names.old.next_segment }
    ensures listed { IfOk result
        (λ v. AllZip (IsSaved (IsTrue F.told) last.now names.old names.new (F.files folder.new)) v.items segments.now) }
    ensures reads { F.reads folder.new ≡ F.reads folder.old }
    ensures cause { HasPageCause (F.faults folder.old) (F.faults folder.new) result }
    ensures whole { NotDamaged result }
{
    let mut listed = Vec::with_capacity(alloc, segments.len())?;
    for i in 0..segments.len() {
        let (head, live) = segments.part(i);
        let one = list_one(alloc, folder, names, last, head, live)?;
        listed.push_reserved(one);
    }
    Ok(listed)
}

/// Lists a segment as the last commit does, where that says as many live numbers and its file is named, or with live
/// bits that are written.
fn list_one<const D: usize, F: Folder>(
    alloc: Global,
    folder: &mut F,
    names: &mut FileNames,
    last: &[Listed],
    head: &SegmentHead<D>,
    live: &LiveBits,
) -> Result<Listed, PageFault>
    requires named { is_named names.old.names (Segment head.now.id) ≡ true }
    requires fits { length live.now.live ≤ head.now.entries }
    ensures kept { KeepsNamed (IsTrue F.told) names.old names.new (F.files folder.old) (F.files folder.new) }
    ensures next { names.new.next_segment ≡ names.old.next_segment }
    ensures listed { IfOk result (λ l. IsSaved (IsTrue F.told) last.now names.old names.new (F.files folder.new) l
        (live_segment head.now live.now)) }
    // no name of another segment's live bits joined
    ensures apart { IfOk result (λ l. (id n : ℕ) → id ≢ l.segment
        → is_named names.new.names (Live id n) ≡ is_named names.old.names (Live id n)) }
    ensures reads { F.reads folder.new ≡ F.reads folder.old }
    ensures cause { HasPageCause (F.faults folder.old) (F.faults folder.new) result }
    ensures whole { NotDamaged result }
{
    // the numbers of the head are in range, its id is below the next one, and the live numbers are a set
    head.index();
    names.next_segment();
    live.live_count();
    match kept_line(names, last, head, live) {
        Some(line) => Ok(line),
        None => write_one(alloc, folder, names, head, live),
    }
}

/// The line of the last commit that says what there is of the segment, and whose file is named.
fn kept_line<const D: usize>(
    names: &FileNames,
    last: &[Listed],
    head: &SegmentHead<D>,
    live: &LiveBits,
) -> Option<Listed>
    ensures some { IfSome result
        (λ l. Contains last.now l × IsLineOf names.now l (live_segment head.now live.now)) }
    ensures none { IfNone result (HasNoLine names.now last.now (live_segment head.now live.now)) }
{
    for line in last {
        if is_line_of(names, line, head, live) {
            return Some(*line);
        }
    }
    None
}

/// Whether the line says how many entries and live numbers the segment has, and its file of live bits is named.
fn is_line_of<const D: usize>(
    names: &FileNames,
    line: &Listed,
    head: &SegmentHead<D>,
    live: &LiveBits,
) -> bool
    ensures { IsTrue result ↔ IsLineOf names.now line.now (live_segment head.now live.now) }
{
    if line.segment != head.id() {
        return false;
    }
    if line.entries != head.entries() {
        return false;
    }
    if line.live != live.live_count() {
        return false;
    }
    names.has(&FileName::Live {
        segment: line.segment,
        generation: line.generation,
    })
}

/// Writes the live bits of a segment under a generation that it hasn't had, and lists it with them.
fn write_one<const D: usize, F: Folder>(
    alloc: Global,
    folder: &mut F,
    names: &mut FileNames,
    head: &SegmentHead<D>,
    live: &LiveBits,
) -> Result<Listed, PageFault>
    requires named { is_named names.old.names (Segment head.now.id) ≡ true }
    requires fits { length live.now.live ≤ head.now.entries }
    ensures kept { KeepsNamed (IsTrue F.told) names.old names.new (F.files folder.old) (F.files folder.new) }
    ensures next { names.new.next_segment ≡ names.old.next_segment }
    ensures line { IfOk result (λ l. IsLineOf names.new l (live_segment head.now live.now)
        × IsListed names.new.next_segment l) }
    ensures anew { IfOk result (λ l. IsAnew (IsTrue F.told) names.old (F.files folder.new) l live.now) }
    ensures joined { IfOk result (λ l. names.new.names ≡ names.old.names ++ Live l.segment l.generation ∷ []) }
    ensures reads { F.reads folder.new ≡ F.reads folder.old }
    ensures cause { HasPageCause (F.faults folder.old) (F.faults folder.new) result }
    ensures whole { NotDamaged result }
{
    // the numbers of the head are in range, and its id is below the next one
    head.index();
    names.next_segment();
    let segment = head.id();
    let generation = names.name_live(segment)?;
    write_live(alloc, folder, segment, generation, live)?;
    Ok(Listed {
        segment,
        generation,
        entries: head.entries(),
        live: live.live_count(),
    })
}
