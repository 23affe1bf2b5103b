//! Many documents of one point each: one segment is built of them at once.

ghost use Rattle.std.specs.Prelude.{◌≡◌, ◌≤◌, ◌<◌, ◌+◌, ◌^◌, length, IsTrue, OnOk, OnErr};
ghost use Rattle.point_codec.specs.Seen.{items_of};
ghost use Rattle.page_cache.specs.Causes.{HasPageCause};
ghost use Rattle.page_cache.specs.Evidence.{OnDamage, NotDamaged};
ghost use Rattle.index_model.specs.State.{Index};

use crate::set::SegmentSet;
use crate::writing::write_entries;
use bkd_build::Gate;
use outer_io::Folder;
use page_cache::PageFault;
use point_codec::Entry;
use std::alloc::Global;
use std::marker::Sync;
use std::thread::Threads;

impl<const D: usize> SegmentSet<D> {
    ghost use Rattle.segment_set.specs.AtOnce.{AreNumbered, WritesEntries, points_in, with_points};
    ghost use Rattle.segment_set.specs.Effects.{AddsAlone, LeavesWhole, Rewrites, ShowsMergeDamage};
    ghost use Rattle.segment_set.specs.Kept.{IsAsBefore};
    ghost use Rattle.segment_set.specs.Seen.{Sees};
    ghost use Rattle.segment_set.specs.Sets.{IsWell};
    ghost use Rattle.segment_set.specs.Settles.{SetMoment, Settles, moment};

    /// Adds a document for each entry, whose number it must have: the next one, and so on. It settles, and then one
    /// segment is built of all entries; what waits in the buffer stays there. The slice holds the same entries in some
    /// order afterwards. After a fault none is added.
    pub fn add_entries<R: Threads + Sync, F: Folder, G: Gate>(
        &mut self,
        rt: &R,
        alloc: Global,
        folder: &mut F,
        entries: &mut [Entry<D>],
        gate: &G,
    ) -> Result<(), PageFault>
        requires some { 1 ≤ length entries.old }
        requires numbered { AreNumbered self.old.next entries.old }
        requires fits { self.old.points_given + length entries.old ≤ 2 ^ 24 }
        ensures seen { IsTrue F.told → (i : Index) → Sees D (F.files folder.old) self.old i
            → OnOk result (Sees D (F.files folder.new) self.new (with_points i (points_in entries.old))) }
        ensures refused { IsTrue F.told → (i : Index) → Sees D (F.files folder.old) self.old i
            → OnErr result (Sees D (F.files folder.new) self.new i) }
        ensures gives { OnOk result
            ((self.new.next ≡ self.old.next + length entries.old)
            × (self.new.points_given ≡ self.old.points_given + length entries.old)) }
        // what is done, and after a fault what was done before: merges of the policy, and one segment of all entries
        ensures added { OnOk result
            ((s : SetMoment) × Settles D (IsTrue F.told) (moment (F.files folder.old) self.old) s
            × WritesEntries D (IsTrue F.told) (items_of entries.old) s (moment (F.files folder.new) self.new)) }
        ensures left { LeavesWhole (Settles D (IsTrue F.told) (moment (F.files folder.old) self.old)) self.old self.new
            result }
        ensures rewrites { Rewrites D (IsTrue F.told) (F.files folder.old) (F.files folder.new) self.old self.new }
        ensures rest { AddsAlone self.old self.new }
        // what an error says
        ensures cause { HasPageCause (F.faults folder.old) (F.faults folder.new) result }
        ensures damaged { ShowsMergeDamage D (IsTrue F.told) (F.files folder.old) (F.files folder.new) self.old
            self.new (λ P. OnDamage result P) }
    {
        self.merge_settle(rt, alloc, folder, gate)?;
        self.write_entries(rt, alloc, folder, entries, gate)
    }

    /// Writes the segment of the entries, and counts their numbers and points.
    fn write_entries<R: Threads + Sync, F: Folder, G: Gate>(
        &mut self,
        rt: &R,
        alloc: Global,
        folder: &mut F,
        entries: &mut [Entry<D>],
        gate: &G,
    ) -> Result<(), PageFault>
        requires room { length self.old.parts < 200 }
        requires some { 1 ≤ length entries.old }
        requires numbered { AreNumbered self.old.next entries.old }
        requires fits { self.old.points_given + length entries.old ≤ 2 ^ 24 }
        ensures well { IsWell D self.old }
        ensures seen { IsTrue F.told → (i : Index) → Sees D (F.files folder.old) self.old i
            → OnOk result (Sees D (F.files folder.new) self.new (with_points i (points_in entries.old))) }
        ensures stays { IsTrue F.told → (i : Index) → Sees D (F.files folder.old) self.old i
            → OnErr result (Sees D (F.files folder.new) self.new i) }
        ensures writes { OnOk result (WritesEntries D (IsTrue F.told) (items_of entries.old)
            (moment (F.files folder.old) self.old) (moment (F.files folder.new) self.new)) }
        ensures refused { OnErr result (IsAsBefore self.old self.new) }
        ensures rewrites { Rewrites D (IsTrue F.told) (F.files folder.old) (F.files folder.new) self.old self.new }
        ensures cause { HasPageCause (F.faults folder.old) (F.faults folder.new) result }
        ensures whole { NotDamaged result }
    {
        let count = entries.len() as u32;
        let plan = self.plan();
        write_entries(
            rt,
            alloc,
            folder,
            &mut self.names,
            &mut self.segments,
            entries,
            &plan,
            gate,
        )?;
        self.buffer.pass(count);
        self.points_given += count;
        Ok(())
    }
}
