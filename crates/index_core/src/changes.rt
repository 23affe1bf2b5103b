//! Commands that change the documents, the segments or the snapshots.

ghost use Rattle.std.specs.Prelude.{◌≡◌, ◌≤◌, ◌<◌, ◌+◌, ◌^◌, ◌⊎◌, ℕ, false, nat_lt, length, IsTrue, IsOk};
ghost use Rattle.std.specs.Prelude.{OnErr};
ghost use Rattle.outer_io.specs.Files.{Files};
ghost use Rattle.script_lang.specs.Requests as asks;
ghost use Rattle.index_model.specs.Step.{step_on};
ghost use Rattle.index_core.specs.Steps.{Applies};
ghost use Rattle.page_cache.specs.Evidence.{NotDamaged};
ghost use Rattle.index_core.specs.Costs.{ReadsAtMost};
ghost use Rattle.index_core.specs.Damages.{ShowsDamage};
ghost use Rattle.segment_set.specs.Sets.{IsWell, is_live_in, set_but, set_released, set_snapped};
ghost use Rattle.segment_set.specs.Faithful.{IsFaithful};
ghost use Rattle.index_core.specs.Lasting.{Lasts};
ghost use Rattle.segment_set.specs.Kept.{StaysButCache};
ghost use Rattle.index_core.specs.Sessions.{IsStill};
ghost use Rattle.index_core.specs.Light.{StaysLight};
ghost use Rattle.index_core.specs.Arranged.{HasAdded, IsArranged};
ghost use Rattle.index_core.specs.Effects.{IsFlushed, KeepsStill, OnDone, OnRefused};

use crate::replies::{add_answer, snap_answer, take_back};
use crate::session::Session;
use bkd_build::Gate;
use cell_relate::BoxShape;
use index_model::Applied;
use outer_io::Folder;
use page_cache::PageFault;
use point_codec::{MOST_POINTS, Name, Point, Points, View};
use script_lang::{Refusal, put_deleted, put_doc, put_ok};
use std::alloc::Global;
use std::marker::Sync;
use std::thread::Threads;

impl<const D: usize> Session<D> {
    /// Adds a document. Its reply is written first, since the document stays once it is added. Where the set is full
    /// nothing is written.
    pub(crate) fn add<R: Threads + Sync, F: Folder, G: Gate>(
        &mut self,
        rt: &R,
        alloc: Global,
        folder: &mut F,
        points: &Points<D>,
        out: &mut Vec<u8>,
        gate: &G,
    ) -> Result<Applied, PageFault>
        ensures applies { Applies D (IsTrue F.told) (λ i. step_on i (asks.Add points.now)) false
            (record {
              files = F.files folder.old;
              session = self.old;
              text = out.old.items;
              faults = F.faults folder.old;
            })
            (record {
              files = F.files folder.new;
              session = self.new;
              text = out.new.items;
              faults = F.faults folder.new;
            }) result }
        ensures reads { ReadsAtMost D (IsTrue F.told) (asks.Add points.now) (F.files folder.old) self.old
            (F.reads folder.old)
            (F.reads folder.new) }
        ensures damage { ShowsDamage D (IsTrue F.told) (asks.Add points.now) (F.files folder.old)
            (F.files folder.new) self.old self.new result }
        ensures still { KeepsStill (IsTrue F.told) (asks.Add points.now) (F.files folder.old)
            (F.files folder.new) self.old self.new result }
        ensures light { length self.old.set.buffer + length points.now ≤ 16384
            → StaysLight (IsTrue F.told) (length points.now) (F.files folder.old)
            (F.files folder.new) self.old self.new }
        ensures unread { OnRefused result (F.reads folder.new ≡ F.reads folder.old) }
        ensures barred { 2 ^ 24 < self.old.set.points_given + length points.now → IsOk result }
        ensures leaves { OnDone result
            (HasAdded D (IsTrue F.told) points.now (F.files folder.old) self.old.set self.new.set) }
        ensures lasts { IsTrue F.told → IsFaithful D (F.files folder.old) self.old.set
            → Lasts D (λ number. ⊥) (F.files folder.old) (F.files folder.new) self.old.set self.new.set }
        ensures left { OnErr result (IsArranged D (IsTrue F.told) (F.files folder.old) self.old.set self.new.set) }
    {
        if self.is_full(points) {
            return Ok(Applied::Refused(Refusal::Full));
        }
        put_doc(out, self.set.next())?;
        add_answer(self.set.add(rt, alloc, folder, points, gate))
    }

    /// Whether more points would be given with these than ever may be.
    fn is_full(&self, points: &Points<D>) -> bool
        ensures full { result ≡ nat_lt (2 ^ 24) (self.now.set.points_given + length points.now) }
        ensures well { IsWell D self.now.set }
    {
        let _leaf_size = self.set.leaf_size();
        self.set.points_given() + points.as_slice().len() as u32 > MOST_POINTS
    }

    /// Deletes a document. The reply that it was live is written first, since it can't be brought back.
    pub(crate) fn delete(&mut self, doc: u32, out: &mut Vec<u8>) -> Result<Applied, PageFault>
        ensures applies { (files : Files) (faults : ℕ) → Applies D (Unit {0}) (λ i. step_on i (asks.Delete doc)) false
            (record { files = files; session = self.old; text = out.old.items; faults = faults })
            (record { files = files; session = self.new; text = out.new.items; faults = faults }) result }
        ensures damage { NotDamaged result }
        ensures light { (files : Files) → StaysLight (Unit {0}) 0 files files self.old self.new }
        ensures leaves { OnDone result (self.new.set ≡ set_but doc self.old.set) }
        ensures lasts { (files : Files) → Lasts D (λ number. number ≡ doc) files files self.old.set self.new.set }
        ensures left { OnErr result
            ((self.new ≡ self.old)
            ⊎ ((is_live_in self.old.set doc ≡ false) × (self.new.set ≡ set_but doc self.old.set))) }
    {
        let before = out.len();
        put_deleted(out, 1)?;
        if self.set.delete(doc) {
            return Ok(Applied::Done);
        }
        out.truncate(before);
        put_deleted(out, 0)?;
        Ok(Applied::Done)
    }

    /// Deletes the documents with a point in the box: they are looked for, their number is written, and then they go.
    pub(crate) fn delete_box<F: Folder>(
        &mut self,
        alloc: Global,
        folder: &mut F,
        lo: &Point<D>,
        hi: &Point<D>,
        out: &mut Vec<u8>,
    ) -> Result<Applied, PageFault>
        ensures applies { Applies D (IsTrue F.told) (λ i. step_on i (asks.DeleteBox lo.now.c hi.now.c)) false
            (record {
              files = F.files folder.old;
              session = self.old;
              text = out.old.items;
              faults = F.faults folder.old;
            })
            (record {
              files = F.files folder.new;
              session = self.new;
              text = out.new.items;
              faults = F.faults folder.new;
            }) result }
        ensures reads { ReadsAtMost D (IsTrue F.told) (asks.DeleteBox lo.now.c hi.now.c) (F.files folder.old) self.old
            (F.reads folder.old) (F.reads folder.new) }
        ensures damage { ShowsDamage D (IsTrue F.told) (asks.DeleteBox lo.now.c hi.now.c) (F.files folder.old)
            (F.files folder.new) self.old self.new result }
        ensures unread { OnRefused result (F.reads folder.new ≡ F.reads folder.old) }
        ensures left { OnErr result (StaysButCache self.old.set self.new.set) }
        // no segment comes that wasn't there
        ensures lasts { IsTrue F.told → IsFaithful D (F.files folder.old) self.old.set
            → Lasts D (λ number. Unit {0}) (F.files folder.old) (F.files folder.new) self.old.set self.new.set }
    {
        let mut shape = BoxShape::new(*lo, *hi);
        let hits = self.set.visit(alloc, folder, &View::Now, &mut shape)?;
        let Ok(count) = u32::try_from(hits.docs.len()) else {
            return Err(PageFault::Memory);
        };
        put_deleted(out, count)?;
        self.set.delete_all(hits.docs.as_slice());
        // its segments are all named
        let _leaf_size = self.set.leaf_size();
        Ok(Applied::Done)
    }

    /// Writes the buffer to a segment.
    pub(crate) fn flush<R: Threads + Sync, F: Folder, G: Gate>(
        &mut self,
        rt: &R,
        alloc: Global,
        folder: &mut F,
        out: &mut Vec<u8>,
        gate: &G,
    ) -> Result<Applied, PageFault>
        ensures applies { Applies D (IsTrue F.told) (λ i. step_on i asks.Flush) false
            (record {
              files = F.files folder.old;
              session = self.old;
              text = out.old.items;
              faults = F.faults folder.old;
            })
            (record {
              files = F.files folder.new;
              session = self.new;
              text = out.new.items;
              faults = F.faults folder.new;
            }) result }
        ensures leaves { OnDone result
            (IsFlushed D (IsTrue F.told) (F.files folder.old) (F.files folder.new) self.old.set self.new.set) }
        ensures lasts { IsTrue F.told → IsFaithful D (F.files folder.old) self.old.set
            → Lasts D (λ number. ⊥) (F.files folder.old) (F.files folder.new) self.old.set self.new.set }
        ensures left { OnErr result (IsArranged D (IsTrue F.told) (F.files folder.old) self.old.set self.new.set) }
        ensures reads { ReadsAtMost D (IsTrue F.told) asks.Flush (F.files folder.old) self.old (F.reads folder.old)
            (F.reads folder.new) }
        ensures damage { ShowsDamage D (IsTrue F.told) asks.Flush (F.files folder.old)
            (F.files folder.new) self.old self.new result }
        ensures unread { OnRefused result (F.reads folder.new ≡ F.reads folder.old) }
    {
        // its segments are all named
        let _leaf_size = self.set.leaf_size();
        self.set.flush(rt, alloc, folder, gate)?;
        put_ok(out)?;
        Ok(Applied::Done)
    }

    /// Keeps what is live now under a name.
    pub(crate) fn snapshot(
        &mut self,
        alloc: Global,
        name: &Name,
        out: &mut Vec<u8>,
    ) -> Result<Applied, PageFault>
        ensures applies { (files : Files) (faults : ℕ)
            → Applies D (Unit {0}) (λ i. step_on i (asks.Snapshot name.now)) false
            (record { files = files; session = self.old; text = out.old.items; faults = faults })
            (record { files = files; session = self.new; text = out.new.items; faults = faults }) result }
        ensures damage { NotDamaged result }
        ensures light { (files : Files) → StaysLight (Unit {0}) 0 files files self.old self.new }
        ensures still { (files : Files) → OnRefused result (IsStill (Unit {0}) files files self.old self.new) }
        ensures leaves { OnDone result (self.new.set ≡ set_snapped name.now self.old.set) }
        ensures left { OnErr result (self.new ≡ self.old) }
    {
        let before = out.len();
        put_ok(out)?;
        let answer = snap_answer(self.set.snapshot(alloc, *name));
        take_back(out, before, &answer);
        answer
    }

    /// Lets the snapshot of a name go.
    pub(crate) fn release(&mut self, name: &Name, out: &mut Vec<u8>) -> Result<Applied, PageFault>
        ensures applies { (files : Files) (faults : ℕ)
            → Applies D (Unit {0}) (λ i. step_on i (asks.Release name.now)) false
            (record { files = files; session = self.old; text = out.old.items; faults = faults })
            (record { files = files; session = self.new; text = out.new.items; faults = faults }) result }
        ensures damage { NotDamaged result }
        ensures light { (files : Files) → StaysLight (Unit {0}) 0 files files self.old self.new }
        ensures still { (files : Files) → OnRefused result (IsStill (Unit {0}) files files self.old self.new) }
        ensures leaves { OnDone result (self.new.set ≡ set_released name.now self.old.set) }
        ensures left { OnErr result (self.new ≡ self.old) }
    {
        if !self.set.has_snapshot(name) {
            return Ok(Applied::Refused(Refusal::UnknownSnapshot));
        }
        put_ok(out)?;
        self.set.release(name);
        Ok(Applied::Done)
    }
}
