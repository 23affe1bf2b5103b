//! The buffer goes to a segment, and segments are merged.

ghost use Rattle.std.specs.Prelude.{◌≡◌, ◌≤◌, ◌<◌, ◌+◌, ◌↔◌, ◌⊎◌, true, false, None, Some, is_some};
ghost use Rattle.std.specs.Prelude.{length, All, IsTrue, IfOk, OnOk, OnErr, IsErrOf};
ghost use Rattle.live_bits.specs.LiveSet.{is_live};
ghost use Rattle.page_cache.specs.Causes.{HasPageCause};
ghost use Rattle.page_cache.specs.Evidence.{OnDamage};
ghost use Rattle.index_model.specs.State.{Index};
ghost use Rattle.segment_view.specs.LiveSegments.{Contents, ids_of, parts_among};

use crate::build_plan::BuildPlan;
use crate::choosing::{first_places, ids_at, inputs_of, is_settled, unpinned};
use crate::faults::{BeginFault, EndFault};
use crate::rewriting::{gathered, merge, replace};
use crate::set::{Begun, SegmentSet};
use bkd_build::Gate;
use outer_io::Folder;
use page_cache::{Memory, PageFault};
use std::alloc::Global;
use std::marker::Sync;
use std::thread::Threads;

impl<const D: usize> SegmentSet<D> {
    ghost use Rattle.segment_set.specs.Faults.{HasCauseOf, OnBeginDamage, OnEndDamage};
    ghost use Rattle.segment_set.specs.Effects.{EndsMerge, Rewrites, ShowsMergeDamage};
    ghost use Rattle.segment_set.specs.Sets.{BegunMerge, IsWell, inputs_of};
    ghost use Rattle.segment_set.specs.Seen.{Sees, StandsOver};
    ghost use Rattle.segment_set.specs.Kept.{IsAsBefore, StaysAlone, StaysButCache};
    ghost use Rattle.segment_set.specs.Kept.{StaysButMerge, StaysButParts};
    ghost use Rattle.segment_set.specs.Merged.{IsApart, IsTidy, IsWhole, KeepsEntries, Rearranges, chosen_ids};
    ghost use Rattle.segment_set.specs.Merged.{free_ids, free_parts};
    ghost use Rattle.segment_set.specs.Merges.{Collects, IsMerged};
    ghost use Rattle.segment_set.specs.Settles.{MergesParts, moment};
    ghost use Rattle.segment_set.specs.Faithful.{IsFaithful};
    ghost use Rattle.segment_set.specs.declared.faults.BeginFault.TheVariants as begin;
    ghost use Rattle.segment_set.specs.declared.faults.EndFault.TheVariants as end;

    /// Merges all segments that are no inputs of a begun merge into one. On a single such segment it does nothing
    /// exactly where that has index form 3 and as many live numbers as entries. A merge whose entries are all dead
    /// leaves no segment.
    pub fn merge_all<R: Threads + Sync, F: Folder, G: Gate>(
        &mut self,
        rt: &R,
        alloc: Global,
        folder: &mut F,
        gate: &G,
    ) -> Result<(), PageFault>
        ensures moves { Rearranges D (IsTrue F.told) (F.files folder.old) (F.files folder.new) self.old self.new }
        ensures buffer { self.new.buffer ≡ self.old.buffer }
        // of the segments that are no inputs one is left at most, without dead entries
        ensures one { OnOk result
            ((length (free_parts self.new) ≤ 1) × All (λ p. p.head.index.form ≡ 3) (free_parts self.new)) }
        ensures all_live { IsTrue F.told → (i : Index) → Sees D (F.files folder.old) self.old i
            → OnOk result ((c : Contents) → StandsOver D (F.files folder.new) c self.new
            → All (λ p. All (λ x. is_live p.live x.doc ≡ true) (c p.head.id)) (free_parts self.new)) }
        ensures merged { OnOk result
            (IsTidy self.old
            ⊎ MergesParts D (IsTrue F.told) (free_ids self.old) (moment (F.files folder.old) self.old)
            (moment (F.files folder.new) self.new)) }
        // its pages drive none out that queries keep
        ensures cache { self.new.cache ≡ self.old.cache }
        // where this is so already nothing is done
        ensures still { IsTidy self.old → (self.new ≡ self.old) × (F.reads folder.new ≡ F.reads folder.old) }
        ensures unwritten { IsTrue F.told → IsTidy self.old → F.files folder.new ≡ F.files folder.old }
        ensures refused { OnErr result (IsAsBefore self.old self.new) }
        // what stays
        ensures faithful { IsTrue F.told → IsFaithful D (F.files folder.old) self.old
            → IsFaithful D (F.files folder.new) self.new }
        // what an error says
        ensures cause { HasPageCause (F.faults folder.old) (F.faults folder.new) result }
        ensures damaged { ShowsMergeDamage D (IsTrue F.told) (F.files folder.old) (F.files folder.new) self.old
            self.new (λ P. OnDamage result P) }
    {
        let ids = self.unpinned(alloc)?;
        if self.is_settled(ids.as_slice()) {
            return Ok(());
        }
        self.merge(rt, alloc, folder, ids.as_slice(), gate)
    }

    /// Begins a merge of the segments at these positions, counted from 0 in ascending order of their ids. Positions
    /// that name no segment, repeats and all after the first 64 that count are ignored. Begun exactly where one is
    /// begun. The merged segment is built now of what is live now.
    pub fn merge_begin<R: Threads + Sync, F: Folder, G: Gate>(
        &mut self,
        rt: &R,
        alloc: Global,
        folder: &mut F,
        which: &[u32],
        gate: &G,
    ) -> Result<(), BeginFault>
        ensures seen { IsTrue F.told → (i : Index) → Sees D (F.files folder.old) self.old i
            → OnOk result (Sees D (F.files folder.new) self.new (record i { begun = true })) }
        ensures refused { IsTrue F.told → (i : Index) → Sees D (F.files folder.old) self.old i
            → OnErr result (Sees D (F.files folder.new) self.new i) }
        ensures begun { IsErrOf result begin.Begun ↔ (is_some self.old.begun ≡ true) }
        ensures inputs { OnOk result
            ((b : BegunMerge) × (self.new.begun ≡ Some b)
            × (b.inputs ≡ chosen_ids which.now (ids_of self.old.parts))) }
        // what is built has no dead entry, and no live number is lost
        ensures built { OnOk result ((b : BegunMerge) → self.new.begun ≡ Some b
            → Collects D self.old.leaf_size (IsTrue F.told) (F.files folder.old) self.old.parts b) }
        // what stays
        ensures files { IsTrue F.told → F.files folder.new ≡ F.files folder.old }
        ensures cache { self.new.cache ≡ self.old.cache }
        ensures rest { StaysButMerge self.old self.new }
        ensures stays { OnErr result (StaysButCache self.old self.new) }
        ensures faithful { IsTrue F.told → IsFaithful D (F.files folder.old) self.old
            → IsFaithful D (F.files folder.new) self.new }
        // what an error says
        ensures cause { HasCauseOf begin.Failed (F.faults folder.old) (F.faults folder.new) result }
        ensures damaged { ShowsMergeDamage D (IsTrue F.told) (F.files folder.old) (F.files folder.new) self.old
            self.new (λ P. OnBeginDamage result P) }
    {
        if self.begun.is_some() {
            return Err(BeginFault::Begun);
        }
        let plan = self.plan();
        let places = first_places(which, self.segments.len());
        let inputs = ids_at(alloc, &self.segments, places.as_slice())?;
        let built = gathered(
            rt,
            alloc,
            &self.segments,
            inputs.as_slice(),
            folder,
            &plan,
            gate,
        )?;
        self.begun = Some(Begun { inputs, built });
        Ok(())
    }

    /// Ends the begun merge: the merged segment replaces its inputs, and deletions since the begin are carried over.
    /// Where none of its entries is live any more the inputs only go. NotBegun exactly where none is begun. Nothing
    /// is read, so it answers no damage.
    pub fn merge_end<F: Folder>(&mut self, alloc: Global, folder: &mut F) -> Result<(), EndFault>
        ensures seen { IsTrue F.told → (i : Index) → Sees D (F.files folder.old) self.old i
            → OnOk result (Sees D (F.files folder.new) self.new (record i { begun = false })) }
        ensures refused { IsTrue F.told → (i : Index) → Sees D (F.files folder.old) self.old i
            → OnErr result (Sees D (F.files folder.new) self.new i) }
        ensures not_begun { IsErrOf result end.NotBegun ↔ (is_some self.old.begun ≡ false) }
        ensures ends { EndsMerge D (IsTrue F.told) (F.files folder.new) self.old self.new result }
        ensures rest { OnErr result (IsAsBefore self.old self.new) }
        ensures buffer { self.new.buffer ≡ self.old.buffer }
        // what stays
        ensures stays { StaysAlone self.old (record self.new { begun = self.old.begun }) }
        ensures rewrites { Rewrites D (IsTrue F.told) (F.files folder.old) (F.files folder.new) self.old self.new }
        ensures saved { self.new.saved ≡ self.old.saved }
        ensures unread { F.reads folder.new ≡ F.reads folder.old }
        // what an error says
        ensures cause { HasCauseOf end.Failed (F.faults folder.old) (F.faults folder.new) result }
        ensures whole { OnEndDamage result (λ _. ⊥) }
    {
        let Some(begun) = &self.begun else {
            return Err(EndFault::NotBegun);
        };
        replace(
            alloc,
            folder,
            &mut self.names,
            &mut self.segments,
            begun.built.as_ref(),
            begun.inputs.as_slice(),
        )?;
        self.begun = None;
        Ok(())
    }

    /// The plan by which this set's segments are built: its leaf size, levels that fork, and points given.
    pub(crate) fn plan(&self) -> BuildPlan<D>
        ensures leaf_size { result.leaf_size ≡ self.now.leaf_size }
        ensures points_given { result.points_given ≡ self.now.points_given }
    {
        BuildPlan {
            leaf_size: self.leaf_size,
            forks: self.forks,
            points_given: self.points_given,
        }
    }

    /// The ids of the segments that are no inputs of a begun merge.
    fn unpinned(&self, alloc: Global) -> Result<Vec<u64>, Memory>
        ensures apart { IfOk result (λ ids. IsApart ids.items (inputs_of self.now.begun) self.now.parts) }
        ensures all { IfOk result (λ ids. ids.items ≡ free_ids self.now) }
        ensures well { IsWell D self.now }
    {
        unpinned(alloc, &self.segments, inputs_of(&self.begun))
    }

    /// Whether merging these segments would change nothing.
    fn is_settled(&self, ids: &[u64]) -> bool
        ensures { IsTrue result ↔ ((length ids.now ≤ 1) × All IsWhole (parts_among ids.now self.now.parts)) }
    {
        is_settled(&self.segments, ids)
    }

    /// Merges the segments of these ids into one.
    pub(crate) fn merge<R: Threads + Sync, F: Folder, G: Gate>(
        &mut self,
        rt: &R,
        alloc: Global,
        folder: &mut F,
        ids: &[u64],
        gate: &G,
    ) -> Result<(), PageFault>
        requires { IsApart ids.now (inputs_of self.old.begun) self.old.parts }
        ensures moves { Rearranges D (IsTrue F.told) (F.files folder.old) (F.files folder.new) self.old self.new }
        ensures entries { KeepsEntries D (IsTrue F.told) (F.files folder.old) (F.files folder.new) self.old self.new }
        ensures faithful { IsTrue F.told → IsFaithful D (F.files folder.old) self.old
            → IsFaithful D (F.files folder.new) self.new }
        ensures buffer { self.new.buffer ≡ self.old.buffer }
        ensures cache { self.new.cache ≡ self.old.cache }
        ensures merged { OnOk result
            (IsMerged D (IsTrue F.told) self.old.leaf_size self.old.names self.new.names (F.files folder.old)
            (F.files folder.new) ids.now self.old.parts self.new.parts) }
        ensures fewer { OnOk result
            (length self.new.parts + length (parts_among ids.now self.old.parts) ≤ length self.old.parts + 1) }
        ensures rest { StaysButParts self.old self.new }
        ensures refused { OnErr result (IsAsBefore self.old self.new) }
        ensures cause { HasPageCause (F.faults folder.old) (F.faults folder.new) result }
        ensures damaged { ShowsMergeDamage D (IsTrue F.told) (F.files folder.old) (F.files folder.new) self.old
            self.new (λ P. OnDamage result P) }
    {
        let plan = self.plan();
        merge(
            rt,
            alloc,
            folder,
            &mut self.names,
            &mut self.segments,
            ids,
            &plan,
            gate,
        )
    }
}
