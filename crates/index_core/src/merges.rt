//! Merges that a line asks for.

ghost use Rattle.std.specs.Prelude.{◌≡◌, ◌<◌, ◌+◌, None, false, IsTrue, IsOk, OnErr};
ghost use Rattle.script_lang.specs.Requests as asks;
ghost use Rattle.index_model.specs.Step.{step_on};
ghost use Rattle.segment_set.specs.Kept.{IsAsBefore, StaysButCache};
ghost use Rattle.segment_set.specs.Faithful.{IsFaithful};
ghost use Rattle.index_core.specs.Lasting.{Lasts};
ghost use Rattle.index_core.specs.Arranged.{IsArranged};
ghost use Rattle.index_core.specs.Steps.{Applies};
ghost use Rattle.index_core.specs.Costs.{ReadsAtMost};
ghost use Rattle.index_core.specs.Damages.{ShowsDamage};
ghost use Rattle.index_core.specs.Effects.{HasBegun, HasEnded, IsMergedAll, KeepsStill, OnDone, OnRefused};

use crate::replies::{begin_answer, end_answer};
use crate::session::Session;
use bkd_build::Gate;
use index_model::Applied;
use outer_io::Folder;
use page_cache::PageFault;
use script_lang::{Refusal, put_ok};
use std::alloc::Global;
use std::marker::Sync;
use std::thread::Threads;

impl<const D: usize> Session<D> {
    /// Merges all segments that no begun merge has as inputs. The reply is written first, since what is merged stays
    /// so.
    pub(crate) fn merge<R: Threads + Sync, F: Folder, G: Gate>(
        &mut self,
        rt: &R,
        alloc: Global,
        folder: &mut F,
        out: &mut Vec<u8>,
        gate: &G,
    ) -> Result<Applied, PageFault>
        ensures applies { Applies D (IsTrue F.told) (λ i. step_on i asks.Merge) false
            (record {
              files = F.files folder.old;
              session = self.old;
              text = out.old.items;
              faults = F.faults folder.old;
            })
            (record {
              files = F.files folder.new;
              session = self.new;
              text = out.new.items;
              faults = F.faults folder.new;
            }) result }
        ensures leaves { OnDone result
            (IsMergedAll D (IsTrue F.told) (F.files folder.old) (F.files folder.new) self.old.set self.new.set) }
        ensures lasts { IsTrue F.told → IsFaithful D (F.files folder.old) self.old.set
            → Lasts D (λ number. ⊥) (F.files folder.old) (F.files folder.new) self.old.set self.new.set }
        ensures damage { ShowsDamage D (IsTrue F.told) asks.Merge (F.files folder.old)
            (F.files folder.new) self.old self.new result }
        ensures left { OnErr result (IsArranged D (IsTrue F.told) (F.files folder.old) self.old.set self.new.set) }
        ensures unread { OnRefused result (F.reads folder.new ≡ F.reads folder.old) }
    {
        put_ok(out)?;
        // its segments are all named
        let _leaf_size = self.set.leaf_size();
        self.set.merge_all(rt, alloc, folder, gate)?;
        Ok(Applied::Done)
    }

    /// Begins a merge of the segments at these positions.
    pub(crate) fn merge_begin<R: Threads + Sync, F: Folder, G: Gate>(
        &mut self,
        rt: &R,
        alloc: Global,
        folder: &mut F,
        which: &[u32],
        out: &mut Vec<u8>,
        gate: &G,
    ) -> Result<Applied, PageFault>
        ensures applies { Applies D (IsTrue F.told) (λ i. step_on i (asks.MergeBegin which.now)) false
            (record {
              files = F.files folder.old;
              session = self.old;
              text = out.old.items;
              faults = F.faults folder.old;
            })
            (record {
              files = F.files folder.new;
              session = self.new;
              text = out.new.items;
              faults = F.faults folder.new;
            }) result }
        ensures leaves { OnDone result
            (HasBegun D (IsTrue F.told) (F.files folder.old) which.now self.old.set self.new.set) }
        ensures files { IsTrue F.told → F.files folder.new ≡ F.files folder.old }
        ensures left { OnErr result (StaysButCache self.old.set self.new.set) }
        ensures damage { ShowsDamage D (IsTrue F.told) (asks.MergeBegin which.now) (F.files folder.old)
            (F.files folder.new) self.old self.new result }
        ensures unread { OnRefused result (F.reads folder.new ≡ F.reads folder.old) }
        ensures still { KeepsStill (IsTrue F.told) (asks.MergeBegin which.now) (F.files folder.old)
            (F.files folder.new) self.old self.new result }
    {
        if self.set.is_merging() {
            return Ok(Applied::Refused(Refusal::Begun));
        }
        put_ok(out)?;
        begin_answer(self.set.merge_begin(rt, alloc, folder, which, gate))
    }

    /// Does the line `merge end`, which is refused where no merge is begun.
    pub(crate) fn merge_end<F: Folder>(
        &mut self,
        alloc: Global,
        folder: &mut F,
        out: &mut Vec<u8>,
    ) -> Result<Applied, PageFault>
        ensures applies { Applies D (IsTrue F.told) (λ i. step_on i asks.MergeEnd) false
            (record {
              files = F.files folder.old;
              session = self.old;
              text = out.old.items;
              faults = F.faults folder.old;
            })
            (record {
              files = F.files folder.new;
              session = self.new;
              text = out.new.items;
              faults = F.faults folder.new;
            }) result }
        ensures leaves { OnDone result (HasEnded D (IsTrue F.told) (F.files folder.new) self.old.set self.new.set) }
        ensures lasts { IsTrue F.told → IsFaithful D (F.files folder.old) self.old.set
            → Lasts D (λ number. ⊥) (F.files folder.old) (F.files folder.new) self.old.set self.new.set }
        ensures left { OnErr result (IsAsBefore self.old.set self.new.set) }
        ensures reads { ReadsAtMost D (IsTrue F.told) asks.MergeEnd (F.files folder.old) self.old (F.reads folder.old)
            (F.reads folder.new) }
        ensures damage { ShowsDamage D (IsTrue F.told) asks.MergeEnd (F.files folder.old)
            (F.files folder.new) self.old self.new result }
        ensures unread { OnRefused result (F.reads folder.new ≡ F.reads folder.old) }
        ensures barred { self.old.set.begun ≡ None → IsOk result }
        ensures still { KeepsStill (IsTrue F.told) asks.MergeEnd (F.files folder.old)
            (F.files folder.new) self.old self.new result }
    {
        if !self.set.is_merging() {
            return Ok(Applied::Refused(Refusal::NotBegun));
        }
        put_ok(out)?;
        // the inputs of the begun merge are named
        let _leaf_size = self.set.leaf_size();
        end_answer(self.set.merge_end(alloc, folder))
    }
}
