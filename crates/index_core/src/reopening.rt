//! Sessions anew over a commit.

ghost use Rattle.std.specs.Prelude.{◌≡◌, Some, true, false, IsTrue, IsSome};
ghost use Rattle.std.specs.Prelude.{IfOk, OnErr};
ghost use Rattle.outer_io.specs.declared.file_name.FileName.{FileName};
ghost use Rattle.page_cache.specs.Causes.{HasPageCause};
ghost use Rattle.page_cache.specs.Evidence.{NotDamaged, OnDamage};
ghost use Rattle.commit_list.specs.Commits.{CommitData};
ghost use Rattle.script_lang.specs.Requests as asks;
ghost use Rattle.index_model.specs.State.{Index, State};
ghost use Rattle.index_model.specs.Step.{step_on};
ghost use Rattle.stored_index.specs.Stored.{HaveLive, IsStored};
ghost use Rattle.segment_view.specs.LiveSegments.{lives_of};
ghost use Rattle.stored_index.specs.Kept.{ListsFile};
ghost use Rattle.segment_set.specs.Seen.{Sees};
ghost use Rattle.index_opening.specs.Evidence.{IsEvident};
ghost use Rattle.segment_set.specs.Faithful.{IsFaithful};
ghost use Rattle.index_opening.specs.Damages.{IsAttachDamage, IsAttachDamageOf};
ghost use Rattle.file_names.specs.Names.{is_named};
ghost use Rattle.segment_set.specs.Kept.{IsAtRest};
ghost use Rattle.index_core.specs.Sessions.{Guards, IsSetTraced};
ghost use Rattle.index_core.specs.Arranged.{IsArranged};
ghost use Rattle.index_core.specs.Lasting.{Lasts};
ghost use Rattle.index_core.specs.Damages.{ShowsDamage};
ghost use Rattle.index_core.specs.Effects.{OnRefused};
ghost use Rattle.index_core.specs.Steps.{Applies};

use crate::session::Session;
use bkd_build::Gate;
use index_model::Applied;
use outer_io::Folder;
use page_cache::PageFault;
use script_lang::put_ok;
use segment_set::SegmentSet;
use std::alloc::Global;
use std::marker::Sync;
use std::thread::Threads;

impl<const D: usize> Session<D> {
    /// Commits and attaches anew, which lets snapshots and a begun merge go. The set of before stays until all that can
    /// fail is done, and its list of names stays: the next sweep removes the files that only they needed.
    pub(crate) fn reopen<R: Threads + Sync, F: Folder, G: Gate>(
        &mut self,
        rt: &R,
        alloc: Global,
        folder: &mut F,
        out: &mut Vec<u8>,
        gate: &G,
    ) -> Result<Applied, PageFault>
        ensures applies { Applies D (IsTrue F.told) (λ i. step_on i asks.Reopen) true
            (record {
              files = F.files folder.old;
              session = self.old;
              text = out.old.items;
              faults = F.faults folder.old;
            })
            (record {
              files = F.files folder.new;
              session = self.new;
              text = out.new.items;
              faults = F.faults folder.new;
            }) result }
        ensures damage { ShowsDamage D (IsTrue F.told) asks.Reopen (F.files folder.old)
            (F.files folder.new) self.old self.new result }
        ensures left { OnErr result (IsArranged D (IsTrue F.told) (F.files folder.old) self.old.set self.new.set) }
        ensures lasts { IsTrue F.told → IsFaithful D (F.files folder.old) self.old.set
            → Guards D (F.files folder.old) self.old
            → Lasts D (λ number. ⊥) (F.files folder.old) (F.files folder.new) self.old.set self.new.set }
        ensures unread { OnRefused result (F.reads folder.new ≡ F.reads folder.old) }
    {
        self.commit(rt, alloc, folder, gate)?;
        let set = self.attach_anew(alloc, folder)?;
        put_ok(out)?;
        // the files of its segments are in the list
        let _leaf_size = self.set.leaf_size();
        self.set.renew(set);
        Ok(Applied::Done)
    }

    /// A set anew over the session's own commit.
    fn attach_anew<F: Folder>(
        &self,
        alloc: Global,
        folder: &mut F,
    ) -> Result<SegmentSet<D>, PageFault>
        requires { IsSome self.now.commit }
        ensures seen { IsTrue F.told → self.now.refused ≡ false → Guards D (F.files folder.old) self.now → (i : Index)
            → IsStored (F.files folder.old) (Some i)
            → IfOk result (λ s. Sees D (F.files folder.old) s i) }
        ensures guards { IsTrue F.told → self.now.refused ≡ false → Guards D (F.files folder.old) self.now
            → IfOk result (λ s. Guards D (F.files folder.old) (record self.now { set = s })) }
        ensures faithful { IsTrue F.told → IfOk result (IsFaithful D (F.files folder.old)) }
        ensures traced { IsTrue F.told → self.now.refused ≡ false → Guards D (F.files folder.old) self.now
            → IfOk result (λ s. IsSetTraced D (F.files folder.old) s) }
        ensures names { (c : CommitData) → self.now.commit ≡ Some c
            → IfOk result (λ s. (m : FileName) → is_named s.names.names m ≡ true → ListsFile c m) }
        ensures unchanged { (c : CommitData) → self.now.commit ≡ Some c → IfOk result (λ s. IsAtRest s c) }
        ensures lives { IsTrue F.told → (c : CommitData) → self.now.commit ≡ Some c
            → IfOk result (λ s. HaveLive (F.files folder.old) c (lives_of s.parts)) }
        ensures files { IsTrue F.told → F.files folder.new ≡ F.files folder.old }
        ensures cause { HasPageCause (F.faults folder.old) (F.faults folder.new) result }
        ensures whole { IsTrue F.told → self.now.refused ≡ false → Guards D (F.files folder.old) self.now
            → (state : State)
            → IsStored (F.files folder.old) state → NotDamaged result }
        ensures shown { (c : CommitData) → self.now.commit ≡ Some c → OnDamage result (IsAttachDamage c) }
        ensures damage { IsTrue F.told → (c : CommitData) → self.now.commit ≡ Some c
            → OnDamage result (IsAttachDamageOf (F.files folder.old) c) }
        ensures evident { OnDamage result
            (IsEvident (IsTrue F.told × (self.now.refused ≡ false) × Guards D (F.files folder.old) self.now)
            (F.files folder.old)) }
    {
        let Some(commit) = &self.commit else {
            unreachable!()
        };
        SegmentSet::attach(alloc, folder, commit, self.settings)
    }
}
