//! Documents that come and go.

ghost use Rattle.std.specs.Prelude.{◌≡◌, ◌≤◌, ◌<◌, ◌+◌, ◌^◌, ◌++◌, ◌∷◌, ◌↔◌, [], length};
ghost use Rattle.std.specs.Prelude.{All, IsTrue, IsOk, IfOk, OnOk, OnErr};
ghost use Rattle.point_codec.specs.Points.{ArePoints};
ghost use Rattle.page_cache.specs.Causes.{HasPageCause};
ghost use Rattle.page_cache.specs.Evidence.{OnDamage};
ghost use Rattle.index_model.specs.State.{Index};

use crate::faults::AddFault;
use crate::set::SegmentSet;
use bkd_build::Gate;
use outer_io::Folder;
use page_cache::PageFault;
use point_codec::{MOST_POINTS, Points};
use std::alloc::{AllocError, Global};
use std::marker::Sync;
use std::thread::Threads;

/// The greatest number of entries in the buffer.
pub const MOST_BUFFERED: usize = 16384;

impl<const D: usize> SegmentSet<D> {
    ghost use Rattle.segment_set.specs.Faults.{HasCauseOf, OnAddDamage};
    ghost use Rattle.segment_set.specs.Effects.{AddsAlone, AddsInRoom, GivesNumber, LeavesWhole, RefusesFull};
    ghost use Rattle.segment_set.specs.Effects.{Rewrites, ShowsMergeDamage};
    ghost use Rattle.segment_set.specs.Merged.{Rearranges};
    ghost use Rattle.segment_set.specs.Sets.{IsNamed, IsSettled, set_with};
    ghost use Rattle.segment_set.specs.Seen.{Sees};
    ghost use Rattle.segment_set.specs.Settles.{Flushes, IsLeft, Settles, SetMoment, moment};
    ghost use Rattle.segment_set.specs.Faithful.{IsFaithful};
    ghost use Rattle.segment_set.specs.declared.faults.AddFault.TheVariants.{Full, Failed};

    /// Adds a document with these points, and answers its number. Full exactly where more than 16,777,216 points
    /// would be given. Where the buffer would hold more than 16,384 entries it is flushed first. All points of a
    /// document go into one segment.
    pub fn add<R: Threads + Sync, F: Folder, G: Gate>(
        &mut self,
        rt: &R,
        alloc: Global,
        folder: &mut F,
        points: &Points<D>,
        gate: &G,
    ) -> Result<u32, AddFault>
        ensures seen { IsTrue F.told → (i : Index) → Sees D (F.files folder.old) self.old i
            → OnOk result (Sees D (F.files folder.new) self.new
            (record i {
              next = i.next + 1;
              points_given = i.points_given + length points.now;
              docs = i.docs ++ record
                  { number = i.next; points = points.now } ∷ [];
            })) }
        ensures refused { IsTrue F.told → (i : Index) → Sees D (F.files folder.old) self.old i
            → OnErr result (Sees D (F.files folder.new) self.new i) }
        ensures gives { GivesNumber self.old self.new (length points.now) result }
        // where it is full everything stays, and nothing is read
        ensures full { RefusesFull (IsTrue F.told) (F.files folder.old) (F.files folder.new) self.old self.new
            (F.reads folder.old) (F.reads folder.new) (length points.now) result }
        // what is done, and after a fault what was done before: merges of the policy and a flush, each whole
        ensures added { OnOk result
            ((s : SetMoment) × Flushes D (IsTrue F.told) (moment (F.files folder.old) self.old) s
            × (self.new ≡ set_with points.now s.set)) }
        ensures left { LeavesWhole (Flushes D (IsTrue F.told) (moment (F.files folder.old) self.old)) self.old self.new
            result }
        ensures rewrites { Rewrites D (IsTrue F.told) (F.files folder.old) (F.files folder.new) self.old self.new }
        ensures rest { AddsAlone self.old self.new }
        // where the buffer has room nothing is read or written
        ensures in_room { AddsInRoom (IsTrue F.told) (F.files folder.old) (F.files folder.new) self.old self.new
            (F.reads folder.old) (F.reads folder.new) (length points.now) result }
        // and where the policy chooses nothing, nothing is read
        ensures rested { IsSettled self.old → F.reads folder.new ≡ F.reads folder.old }
        // what an error says
        ensures cause { HasCauseOf Failed (F.faults folder.old) (F.faults folder.new) result }
        ensures damaged { ShowsMergeDamage D (IsTrue F.told) (F.files folder.old) (F.files folder.new) self.old
            self.new (λ P. OnAddDamage result P) }
    {
        let count = points.as_slice().len() as u32;
        if self.is_full(count) {
            return Err(AddFault::Full);
        }
        self.make_room(rt, alloc, folder, count, gate)?;
        Ok(self.push(points)?)
    }

    /// Puts a document of the next number at the end of the buffer, and answers the number. For want of memory nothing
    /// changes.
    fn push(&mut self, points: &Points<D>) -> Result<u32, AllocError>
        requires room { length self.old.buffer + length points.now ≤ 16384 }
        requires points_given { self.old.points_given + length points.now ≤ 2 ^ 24 }
        ensures put { OnOk result (self.new ≡ set_with points.now self.old) }
        ensures number { IfOk result (λ n. n ≡ self.old.next) }
        ensures refused { OnErr result (self.new ≡ self.old) }
        ensures points { ArePoints points.now }
    {
        let count = points.as_slice().len() as u32;
        let number = self.buffer.put(points)?;
        self.points_given += count;
        Ok(number)
    }

    /// Flushes, where the buffer has no room for so many entries more.
    fn make_room<R: Threads + Sync, F: Folder, G: Gate>(
        &mut self,
        rt: &R,
        alloc: Global,
        folder: &mut F,
        count: u32,
        gate: &G,
    ) -> Result<(), PageFault>
        requires { count ≤ 16 }
        ensures room { OnOk result (length self.new.buffer + count ≤ 16384) }
        ensures roomy { length self.old.buffer + count ≤ 16384 → IsOk result × (self.new ≡ self.old)
            × (F.reads folder.new ≡ F.reads folder.old) }
        ensures files { IsTrue F.told → length self.old.buffer + count ≤ 16384
            → F.files folder.new ≡ F.files folder.old }
        ensures rested { IsSettled self.old → F.reads folder.new ≡ F.reads folder.old }
        ensures moves { Rearranges D (IsTrue F.told) (F.files folder.old) (F.files folder.new) self.old self.new }
        // what stays
        ensures flushed { OnOk result
            (Flushes D (IsTrue F.told) (moment (F.files folder.old) self.old) (moment (F.files folder.new) self.new)) }
        ensures left { OnErr result
            (IsLeft (Settles D (IsTrue F.told) (moment (F.files folder.old) self.old)) self.new) }
        ensures faithful { IsTrue F.told → IsFaithful D (F.files folder.old) self.old
            → IsFaithful D (F.files folder.new) self.new }
        // what an error says
        ensures cause { HasPageCause (F.faults folder.old) (F.faults folder.new) result }
        ensures damaged { ShowsMergeDamage D (IsTrue F.told) (F.files folder.old) (F.files folder.new) self.old
            self.new (λ P. OnDamage result P) }
    {
        if self.has_room(count) {
            return Ok(());
        }
        self.flush(rt, alloc, folder, gate)
    }

    /// Whether so many points more would be too many.
    fn is_full(&self, count: u32) -> bool
        requires { count ≤ 16 }
        ensures full { IsTrue result ↔ (2 ^ 24 < self.now.points_given + count) }
        ensures named { All (IsNamed self.now.names) self.now.parts }
    {
        self.points_given + count > MOST_POINTS
    }

    /// Whether the buffer has room for so many entries more.
    fn has_room(&self, count: u32) -> bool
        requires { count ≤ 16 }
        ensures room { IsTrue result ↔ (length self.now.buffer + count ≤ 16384) }
        ensures named { All (IsNamed self.now.names) self.now.parts }
    {
        self.buffer.len() + count as usize <= MOST_BUFFERED
    }
}
