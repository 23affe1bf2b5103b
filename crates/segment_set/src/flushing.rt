//! Flushing: the buffer becomes a segment, and levels with ten segments are merged.

ghost use Rattle.std.specs.Prelude.{◌≡◌, ◌≤◌, ◌<◌, ◌+◌, ◌⊎◌, ℕ, List, [], Some};
ghost use Rattle.std.specs.Prelude.{length, map, slice_index, IsTrue, IfOk, IfNone, IfSome, OnOk, OnErr};
ghost use Rattle.page_cache.specs.Causes.{HasPageCause};
ghost use Rattle.page_cache.specs.Evidence.{OnDamage, NotDamaged};
ghost use Rattle.merge_policy.specs.Choice.{IsChoice, free_count};
ghost use Rattle.segment_view.specs.LiveSegments.{ids_of, parts_among};

use crate::choosing::{chosen, inputs_of};
use crate::set::SegmentSet;
use crate::writing::write_buffer;
use bkd_build::Gate;
use outer_io::Folder;
use page_cache::{Memory, PageFault};
use std::alloc::Global;
use std::marker::Sync;
use std::thread::Threads;

impl<const D: usize> SegmentSet<D> {
    ghost use Rattle.segment_set.specs.Sets.{IsSettled, IsWell, inputs_of, pins_of, sizes_of};
    ghost use Rattle.segment_set.specs.Effects.{ShowsMergeDamage};
    ghost use Rattle.segment_set.specs.Kept.{IsAsBefore};
    ghost use Rattle.segment_set.specs.Merged.{IsApart, Rearranges};
    ghost use Rattle.segment_set.specs.Settles.{Flushes, IsLeft, Settles, WritesBuffer, moment};
    ghost use Rattle.segment_set.specs.Faithful.{IsFaithful};

    /// Settles, then writes the buffer as a new segment unless it is empty.
    pub fn flush<R: Threads + Sync, F: Folder, G: Gate>(
        &mut self,
        rt: &R,
        alloc: Global,
        folder: &mut F,
        gate: &G,
    ) -> Result<(), PageFault>
        ensures moves { Rearranges D (IsTrue F.told) (F.files folder.old) (F.files folder.new) self.old self.new }
        ensures emptied { OnOk result (self.new.buffer ≡ []) }
        ensures levels { OnOk result
            ((level : ℕ) → free_count level (sizes_of self.new.parts) (pins_of self.new.begun self.new.parts) ≤ 10) }
        // what is done, and after a fault what was done before: merges of the policy, each whole
        ensures flushed { OnOk result
            (Flushes D (IsTrue F.told) (moment (F.files folder.old) self.old) (moment (F.files folder.new) self.new)) }
        ensures left { OnErr result
            (IsLeft (Settles D (IsTrue F.told) (moment (F.files folder.old) self.old)) self.new) }
        // what stays
        ensures faithful { IsTrue F.told → IsFaithful D (F.files folder.old) self.old
            → IsFaithful D (F.files folder.new) self.new }
        ensures cache { self.new.cache ≡ self.old.cache }
        // where the policy chooses nothing, nothing is read
        ensures rested { IsSettled self.old → F.reads folder.new ≡ F.reads folder.old }
        // what an error says
        ensures cause { HasPageCause (F.faults folder.old) (F.faults folder.new) result }
        ensures damaged { ShowsMergeDamage D (IsTrue F.told) (F.files folder.old) (F.files folder.new) self.old
            self.new (λ P. OnDamage result P) }
    {
        self.merge_settle(rt, alloc, folder, gate)?;
        self.write_buffer(rt, alloc, folder, gate)
    }

    /// Merges what the policy chooses until it chooses none. Inputs of a begun merge are pinned.
    pub fn merge_settle<R: Threads + Sync, F: Folder, G: Gate>(
        &mut self,
        rt: &R,
        alloc: Global,
        folder: &mut F,
        gate: &G,
    ) -> Result<(), PageFault>
        ensures moves { Rearranges D (IsTrue F.told) (F.files folder.old) (F.files folder.new) self.old self.new }
        ensures buffer { self.new.buffer ≡ self.old.buffer }
        ensures levels { OnOk result
            ((level : ℕ) → free_count level (sizes_of self.new.parts) (pins_of self.new.begun self.new.parts) < 10) }
        ensures room { OnOk result (length self.new.parts < 200) }
        // what is done, and after a fault what was done before: merges of the policy, each whole
        ensures settled { OnOk result
            (Settles D (IsTrue F.told) (moment (F.files folder.old) self.old) (moment (F.files folder.new) self.new)) }
        ensures left { OnErr result
            (IsLeft (Settles D (IsTrue F.told) (moment (F.files folder.old) self.old)) self.new) }
        // what stays
        ensures faithful { IsTrue F.told → IsFaithful D (F.files folder.old) self.old
            → IsFaithful D (F.files folder.new) self.new }
        ensures cache { self.new.cache ≡ self.old.cache }
        // where the policy chooses nothing, nothing is done
        ensures rested { IsSettled self.old → F.reads folder.new ≡ F.reads folder.old }
        ensures still { IsSettled self.old → self.new ≡ self.old }
        // what an error says
        ensures cause { HasPageCause (F.faults folder.old) (F.faults folder.new) result }
        ensures damaged { ShowsMergeDamage D (IsTrue F.told) (F.files folder.old) (F.files folder.new) self.old
            self.new (λ P. OnDamage result P) }
    {
        while let Some(ids) = self.next_merge(alloc)? {
            self.merge(rt, alloc, folder, ids.as_slice(), gate)?;
        }
        Ok(())
    }

    /// The ids of the segments that the policy chooses for the next merge, if it chooses some.
    fn next_merge(&self, alloc: Global) -> Result<Option<Vec<u64>>, Memory>
        ensures none { IfOk result
            (λ o. IfNone o
            ((level : ℕ) → free_count level (sizes_of self.now.parts) (pins_of self.now.begun self.now.parts) < 10)) }
        ensures apart { IfOk result
            (λ o. IfSome o (λ ids. IsApart ids.items (inputs_of self.now.begun) self.now.parts)) }
        ensures some { IfOk result (λ o. IfSome o (λ ids. 2 ≤ length (parts_among ids.items self.now.parts))) }
        ensures ten { IfOk result
            (λ o. IfSome o
            (λ ids. (level : ℕ)
            × (10 ≤ free_count level (sizes_of self.now.parts) (pins_of self.now.begun self.now.parts)))) }
        ensures choice { IfOk result (λ o. IfSome o (λ ids. (positions : List ℕ)
            × IsChoice (sizes_of self.now.parts) (pins_of self.now.begun self.now.parts) positions
            × (ids.items ≡ map (slice_index (ids_of self.now.parts)) positions))) }
        ensures room { IfOk result (λ o. IfNone o (length self.now.parts < 200)) }
        ensures well { IsWell D self.now }
    {
        chosen(alloc, &self.segments, inputs_of(&self.begun))
    }

    /// Writes what waits in the buffer as a segment.
    fn write_buffer<R: Threads + Sync, F: Folder, G: Gate>(
        &mut self,
        rt: &R,
        alloc: Global,
        folder: &mut F,
        gate: &G,
    ) -> Result<(), PageFault>
        requires { length self.old.parts < 200 }
        ensures well { IsWell D self.old }
        ensures moves { Rearranges D (IsTrue F.told) (F.files folder.old) (F.files folder.new) self.old self.new }
        ensures faithful { IsTrue F.told → IsFaithful D (F.files folder.old) self.old
            → IsFaithful D (F.files folder.new) self.new }
        ensures cache { self.new.cache ≡ self.old.cache }
        ensures emptied { OnOk result (self.new.buffer ≡ []) }
        ensures writes { OnOk result ((moment (F.files folder.new) self.new ≡ moment (F.files folder.old) self.old)
            ⊎ WritesBuffer D (IsTrue F.told) (moment (F.files folder.old) self.old)
            (moment (F.files folder.new) self.new)) }
        ensures refused { OnErr result (IsAsBefore self.old self.new) }
        ensures one_more { (level : ℕ)
            → free_count level (sizes_of self.new.parts) (pins_of self.new.begun self.new.parts)
            ≤ free_count level (sizes_of self.old.parts) (pins_of self.old.begun self.old.parts) + 1 }
        ensures reads { F.reads folder.new ≡ F.reads folder.old }
        ensures cause { HasPageCause (F.faults folder.old) (F.faults folder.new) result }
        ensures whole { NotDamaged result }
    {
        if self.buffer.is_empty() {
            return Ok(());
        }
        let plan = self.plan();
        write_buffer(
            rt,
            alloc,
            folder,
            &mut self.names,
            &mut self.segments,
            &mut self.buffer,
            &plan,
            gate,
        )
    }
}
