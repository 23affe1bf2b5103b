//! Commits, and sessions anew over one.

ghost use Rattle.std.specs.Prelude.{◌≡◌, ◌↔◌, ◌⊎◌, [], None, Some, true, false, IsTrue, IsSome, IsOk};
ghost use Rattle.std.specs.Prelude.{OnOk};
ghost use Rattle.std.specs.List.{AllZip};
ghost use Rattle.outer_io.specs.Files.{Files, SameButTwo, bytes_of};
ghost use Rattle.outer_io.specs.declared.file_name.FileName.{FileName};
ghost use Rattle.outer_io.specs.declared.file_name.FileName.TheVariants.{Commit as CommitName, CommitNew, Live};
ghost use Rattle.commit_list.specs.CommitFiles.{IsCommitFile};
ghost use Rattle.script_lang.specs.Requests as asks;
ghost use Rattle.segment_file.specs.LiveFiles.{IsLiveFile};
ghost use Rattle.index_model.specs.State.{Index, at_rest};
ghost use Rattle.index_model.specs.Step.{step_on};
ghost use Rattle.stored_index.specs.Stored.{IsStored};
ghost use Rattle.stored_index.specs.Kept.{ListsFile, SameKept};
ghost use Rattle.segment_set.specs.Seen.{Sees};
ghost use Rattle.segment_set.specs.Faithful.{IsFaithful};
ghost use Rattle.segment_set.specs.Sets.{IsSettled, IsWell};
ghost use Rattle.segment_set.specs.Kept.{Follows, IsCommitOf, StaysButFiles};
ghost use Rattle.index_core.specs.Sessions.{Guards, GuardsSet, IsSetTraced, IsSound, IsUnchanged, StaysTrue};
ghost use Rattle.index_core.specs.Sessions.{last_lines};
ghost use Rattle.index_core.specs.Arranged.{IsArranged};
ghost use Rattle.index_core.specs.Lasting.{Lasts};
ghost use Rattle.index_core.specs.Calls.{HasNoDamage, IsCommitted, IsDurable, ShowsFault, SweepsAway};
ghost use Rattle.index_core.specs.Closed.{IsSessionClosed, IsIdle};
ghost use Rattle.index_core.specs.Costs.{ReadsAtMost};
ghost use Rattle.index_core.specs.Damages.{ShowsDamage, ShowsMerge};
ghost use Rattle.index_core.specs.Effects.{BringsCanonical, OnRefused};
ghost use Rattle.index_core.specs.Light.{KeepsLevels};
ghost use Rattle.index_core.specs.Steps.{Applies, KeepsOver, SaysCommit, Stores};

use crate::session::Session;
use bkd_build::Gate;
use commit_list::{Commit, Listed, write_commit};
use index_model::Applied;
use outer_io::{Failed, Folder};
use page_cache::PageFault;
use script_lang::put_ok;
use std::alloc::Global;
use std::marker::Sync;
use std::thread::Threads;

impl<const D: usize> Session<D> {
    /// Commits, only if something changed: there is no commit yet, one was refused, or the documents, the next
    /// number, the points given or the segments are others than those of the last one.
    pub fn commit<R: Threads + Sync, F: Folder, G: Gate>(
        &mut self,
        rt: &R,
        alloc: Global,
        folder: &mut F,
        gate: &G,
    ) -> Result<(), PageFault>
        ensures seen { IsTrue F.told → (i : Index) → Sees D (F.files folder.old) self.old.set i
            → Sees D (F.files folder.new) self.new.set i }
        ensures stays { StaysTrue D (IsTrue F.told) (F.files folder.old) (F.files folder.new) self.old self.new }
        ensures durable { IsDurable D (IsTrue F.told) (F.files folder.old)
            (F.files folder.new) self.old self.new result }
        // whatever is answered, all that is kept is the same, or the commit in flight is there
        ensures flight { IsTrue F.told → Guards D (F.files folder.old) self.old
            → SameKept (F.files folder.old) (F.files folder.new) ⊎ SaysCommit (F.files folder.new) self.new.set.saved }
        ensures done { OnOk result
            (IsCommitted D (IsTrue F.told) (F.files folder.old) (F.files folder.new) self.old self.new) }
        // where nothing changed it is done, with no call on the folder
        ensures idle { IsUnchanged self.old → IsOk result × (self.new ≡ self.old)
            × (F.files folder.new ≡ F.files folder.old) × (F.reads folder.new ≡ F.reads folder.old) }
        // where no segments are chosen to be merged nothing is read
        ensures rested { IsSettled self.old.set → F.reads folder.new ≡ F.reads folder.old }
        // each segment that is written is canonical, whatever is answered, and has a name that wasn't in the list
        ensures canon { IsTrue F.told
            → BringsCanonical D (F.files folder.old) (F.files folder.new) self.old.set.parts self.new.set.parts }
        ensures follows { Follows self.old.set.names self.old.set.parts self.new.set.parts }
        // whatever is answered, the set is as before, but that segments may be arranged anew
        ensures arranged { IsArranged D (IsTrue F.told) (F.files folder.old) self.old.set self.new.set }
        ensures faults { ShowsFault D (IsTrue F.told) (F.files folder.old) (F.files folder.new) self.old
            (F.faults folder.old)
            (F.faults folder.new) result }
        ensures damage { ShowsMerge D (IsTrue F.told) (F.files folder.old) (F.files folder.new) self.old.set
            self.new.set result }
    {
        if !self.is_changed() {
            return Ok(());
        }
        let last = last_lines(&self.commit, self.refused);
        let commit = self.set.save(rt, alloc, folder, last, gate)?;
        self.write(alloc, folder, commit)?;
        self.sweep(folder)
    }

    /// Commits, lets snapshots and the begun merge go, and removes the files that only they needed. Where this removal
    /// fails the commit is done.
    pub fn close<R: Threads + Sync, F: Folder, G: Gate>(
        &mut self,
        rt: &R,
        alloc: Global,
        folder: &mut F,
        gate: &G,
    ) -> Result<(), PageFault>
        ensures closed { OnOk result
            (IsSessionClosed D (IsTrue F.told) (F.files folder.old) (F.files folder.new) self.old self.new) }
        ensures durable { IsDurable D (IsTrue F.told) (F.files folder.old)
            (F.files folder.new) self.old self.new result }
        // where nothing changed and nothing is to be removed no file is changed
        ensures idle { IsTrue F.told → IsIdle self.old → F.files folder.new ≡ F.files folder.old }
        ensures reads { IsUnchanged self.old ⊎ IsSettled self.old.set → F.reads folder.new ≡ F.reads folder.old }
        ensures few { IsTrue F.told → Guards D (F.files folder.old) self.old → self.old.set.begun ≡ None
            → OnOk result (KeepsLevels (F.files folder.old) (F.files folder.new)) }
        ensures canon { IsTrue F.told
            → BringsCanonical D (F.files folder.old) (F.files folder.new) self.old.set.parts self.new.set.parts }
        ensures faults { ShowsFault D (IsTrue F.told) (F.files folder.old) (F.files folder.new) self.old
            (F.faults folder.old)
            (F.faults folder.new) result }
    {
        self.commit(rt, alloc, folder, gate)?;
        self.set.rest();
        self.sweep(folder)
    }

    /// Whether something isn't as the last commit says.
    fn is_changed(&self) -> bool
        ensures unchanged { (result ≡ false) ↔ IsUnchanged self.now }
        ensures sound { result ≡ false → IsSound D self.now }
        ensures well { IsWell D self.now.set }
    {
        let _leaf_size = self.set.leaf_size();
        let Some(commit) = &self.commit else {
            return true;
        };
        if self.refused {
            return true;
        }
        self.set.differs(commit)
    }

    /// Makes the commit that the set saved the folder's. Where that is refused it isn't known which of the two is
    /// there.
    fn write<F: Folder>(
        &mut self,
        alloc: Global,
        folder: &mut F,
        commit: Commit,
    ) -> Result<(), PageFault>
        requires listed { IsCommitOf D self.old.set commit }
        requires saved { self.old.set.saved ≡ Some commit }
        requires emptied { self.old.set.buffer ≡ [] }
        ensures set { self.new.set ≡ self.old.set }
        ensures others { IsTrue F.told → SameButTwo CommitNew CommitName (F.files folder.old) (F.files folder.new) }
        ensures faithful { IsTrue F.told → IsFaithful D (F.files folder.old) self.old.set
            → IsFaithful D (F.files folder.new) self.new.set }
        ensures gone { IsTrue F.told → OnOk result (F.files folder.new CommitNew ≡ None) }
        ensures written { OnOk result ((self.new.commit ≡ Some commit) × (self.new.refused ≡ false)) }
        ensures seen { IsTrue F.told → (i : Index) → Sees D (F.files folder.old) self.old.set i
            → Sees D (F.files folder.new) self.new.set i }
        ensures guards { IsTrue F.told → GuardsSet D (F.files folder.old) self.old.set
            → AllZip (λ l p. IsLiveFile l.segment l.generation
            (bytes_of (F.files folder.old (Live l.segment l.generation))) p.live) commit.listed self.old.set.parts
            → Guards D (F.files folder.new) self.new }
        ensures traced { IsTrue F.told
            → AllZip (λ l p. IsLiveFile l.segment l.generation
            (bytes_of (F.files folder.old (Live l.segment l.generation))) p.live) commit.listed self.old.set.parts
            → IsSetTraced D (F.files folder.old) self.old.set
            → IsSetTraced D (F.files folder.new) self.new.set }
        ensures kept { IsTrue F.told → KeepsOver true (F.files folder.old) (F.files folder.new) self.new result }
        ensures stored { IsTrue F.told → (i : Index)
            → ((files : Files) → IsCommitFile (bytes_of (files CommitName)) commit
            → ((m : FileName) → ListsFile commit m → files m ≡ F.files folder.old m)
            → IsStored files (Some (at_rest i)))
            → Stores (F.files folder.old) (F.files folder.new) i self.new.set result }
        ensures faults { HasNoDamage (F.faults folder.old) (F.faults folder.new) result }
        ensures unread { F.reads folder.new ≡ F.reads folder.old }
    {
        let _leaf_size = self.set.leaf_size();
        match write_commit(alloc, folder, &commit) {
            Ok(()) => {
                self.commit = Some(commit);
                self.refused = false;
                Ok(())
            }
            Err(fault) => {
                self.refused = true;
                Err(PageFault::from(fault))
            }
        }
    }

    /// Removes the files that neither the commit nor a view needs.
    fn sweep<F: Folder>(&mut self, folder: &mut F) -> Result<(), PageFault>
        requires there { IsSome self.old.commit }
        requires written { self.old.refused ≡ false }
        ensures rest { StaysButFiles self.old.set self.new.set }
        ensures removes { SweepsAway (IsTrue F.told) (F.files folder.old)
            (F.files folder.new) self.old self.new result }
        ensures faithful { IsTrue F.told → IsFaithful D (F.files folder.old) self.old.set
            → IsFaithful D (F.files folder.new) self.new.set }
        ensures written { (self.new.commit ≡ self.old.commit) × (self.new.refused ≡ false) }
        ensures seen { IsTrue F.told → (i : Index) → Sees D (F.files folder.old) self.old.set i
            → Sees D (F.files folder.new) self.new.set i }
        ensures guards { IsTrue F.told → Guards D (F.files folder.old) self.old
            → Guards D (F.files folder.new) self.new }
        ensures traced { IsTrue F.told → Guards D (F.files folder.old) self.old
            → IsSetTraced D (F.files folder.old) self.old.set
            → IsSetTraced D (F.files folder.new) self.new.set }
        ensures kept { IsTrue F.told → Guards D (F.files folder.old) self.old
            → SameKept (F.files folder.old) (F.files folder.new) }
        ensures faults { HasNoDamage (F.faults folder.old) (F.faults folder.new) result }
        ensures unread { F.reads folder.new ≡ F.reads folder.old }
    {
        let Some(commit) = &self.commit else {
            unreachable!()
        };
        match self.set.sweep(folder, commit) {
            Ok(()) => Ok(()),
            Err(Failed) => Err(PageFault::Failed),
        }
    }

    /// Does the line `commit`: commits, and appends `ok` to `out` where that is done.
    pub(crate) fn commit_line<R: Threads + Sync, F: Folder, G: Gate>(
        &mut self,
        rt: &R,
        alloc: Global,
        folder: &mut F,
        out: &mut Vec<u8>,
        gate: &G,
    ) -> Result<Applied, PageFault>
        ensures applies { Applies D (IsTrue F.told) (λ i. step_on i asks.Commit) true
            (record {
              files = F.files folder.old;
              session = self.old;
              text = out.old.items;
              faults = F.faults folder.old;
            })
            (record {
              files = F.files folder.new;
              session = self.new;
              text = out.new.items;
              faults = F.faults folder.new;
            }) result }
        ensures reads { ReadsAtMost D (IsTrue F.told) asks.Commit (F.files folder.old) self.old (F.reads folder.old)
            (F.reads folder.new) }
        ensures damage { ShowsDamage D (IsTrue F.told) asks.Commit (F.files folder.old)
            (F.files folder.new) self.old self.new result }
        ensures arranged { IsArranged D (IsTrue F.told) (F.files folder.old) self.old.set self.new.set }
        ensures lasts { IsTrue F.told → IsFaithful D (F.files folder.old) self.old.set
            → Lasts D (λ number. ⊥) (F.files folder.old) (F.files folder.new) self.old.set self.new.set }
        ensures unread { OnRefused result (F.reads folder.new ≡ F.reads folder.old) }
    {
        self.commit(rt, alloc, folder, gate)?;
        put_ok(out)?;
        Ok(Applied::Done)
    }
}

/// The segments that the last commit lists; none, where one was refused since.
fn last_lines(commit: &Option<Commit>, refused: bool) -> &[Listed]
    ensures { result.now ≡ last_lines refused commit.now }
{
    if refused {
        return &[];
    }
    match commit {
        Some(commit) => commit.listed(),
        None => &[],
    }
}
