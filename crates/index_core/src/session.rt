//! The session: an index that is kept in a folder, with the calls that start one and that do a command on it.

ghost use Rattle.std.specs.Prelude.{◌≡◌, ◌≤◌, ◌+◌, List, [], None, Some, false, IsTrue, IfOk};
ghost use Rattle.outer_io.specs.Files.{Files};
ghost use Rattle.outer_io.specs.declared.file_name.FileName.TheVariants.{Commit as CommitName};
ghost use Rattle.leaf_codec.specs.Leaves.{leaf_limit};
ghost use Rattle.page_cache.specs.Causes.{HasPageCause};
ghost use Rattle.page_cache.specs.Evidence.{OnDamage};
ghost use Rattle.script_lang.specs.Seen.{IsWithinLimits, request_of};
ghost use Rattle.index_model.specs.State.{new_index};
ghost use Rattle.index_model.specs.Step.{step_on};
ghost use Rattle.live_bits.specs.LiveSet.{LiveSet};
ghost use Rattle.segment_file.specs.Heads.{Head};
ghost use Rattle.stored_index.specs.Stored.{HaveHeads, HaveLive};
ghost use Rattle.stored_index.specs.Opening.{segments_pages};
ghost use Rattle.segment_set.specs.Seen.{Sees};
ghost use Rattle.segment_set.specs.Effects.{ShowsAttachDamage};
ghost use Rattle.segment_set.specs.Faithful.{IsFaithful};

use bkd_build::Gate;
use cell_relate::BoxShape;
use commit_list::Commit;
use index_model::Applied;
use outer_io::Folder;
use page_cache::{Memory, PageFault};
use script_lang::{Command, Refusal};
use segment_set::{SegmentSet, Settings};
use std::alloc::Global;
use std::marker::{Model, Sync};
use std::thread::Threads;

/// An index of `D` dimensions that is kept in a folder. Contracts see its set, the commit that it attached or last
/// wrote, and whether one was refused since then.
#[derive(Drop)]
pub struct Session<const D: usize> {
    pub(crate) set: SegmentSet<D>,
    pub(crate) settings: Settings,
    pub(crate) commit: Option<Commit>,
    pub(crate) refused: bool,
}

impl<const D: usize> Model for Session<D> {
    ghost use Rattle.index_core.specs.Sessions.{IsOfDims, SessionData};

    ghost Value = { SessionData };

    ghost view = { λ s. record { set = s.set; commit = s.commit; refused = s.refused } };

    ghost invariant = { λ s. IsOfDims D s.commit };
}

impl<const D: usize> Session<D> {
    ghost use Rattle.index_core.specs.Sessions.{Guards, IsSetTraced};
    ghost use Rattle.index_core.specs.Calls.{Attaches, Spares};
    ghost use Rattle.index_core.specs.Steps.{Applies, is_committing};
    ghost use Rattle.index_core.specs.Carried.{AreOfListed};
    ghost use Rattle.index_core.specs.Damages.{ShowsDamage};
    ghost use Rattle.index_core.specs.Effects.{Leaves, OnDone};

    /// A session over a folder that has no index: one without documents.
    pub fn create(alloc: Global, leaf_size: u16, settings: Settings) -> Result<Session<D>, Memory>
        requires dims { (1 ≤ D) × (D ≤ 8) }
        requires least_leaf { 2 ≤ leaf_size }
        requires greatest_leaf { leaf_size ≤ leaf_limit D }
        ensures seen { IfOk result (λ s. (files : Files) → Sees D files s.set (new_index D leaf_size)) }
        ensures guards { IfOk result (λ s. (files : Files) → files CommitName ≡ None → Guards D files s) }
        ensures faithful { IfOk result (λ s. (files : Files) → IsFaithful D files s.set) }
        ensures bare { IfOk result (λ s. s.set.parts ≡ []) }
        ensures traced { IfOk result (λ s. (files : Files) → IsSetTraced D files s.set) }
        ensures own { IfOk result (λ s. (files : Files) → AreOfListed files s.set) }
    {
        let set = SegmentSet::new(alloc, leaf_size, settings)?;
        // its list of names is empty, and has the files of all its segments
        let _leaf_size = set.leaf_size();
        Ok(Session {
            set,
            settings,
            commit: None,
            refused: false,
        })
    }

    /// A session over the index that a commit lists. No leaf is read.
    pub fn attach<F: Folder>(
        alloc: Global,
        folder: &mut F,
        commit: Commit,
        settings: Settings,
    ) -> Result<Session<D>, PageFault>
        requires { commit.dims ≡ D }
        ensures attaches { Attaches D (IsTrue F.told) (F.files folder.old) commit result }
        ensures files { IsTrue F.told → F.files folder.new ≡ F.files folder.old }
        // it reads what opening the segments reads
        ensures reads { IsTrue F.told → (heads : List Head) (sets : List LiveSet)
            → HaveHeads (F.files folder.old) commit heads
            → HaveLive (F.files folder.old) commit sets
            → F.reads folder.new ≤ F.reads folder.old + segments_pages (F.files folder.old) commit.listed heads }
        ensures cause { HasPageCause (F.faults folder.old) (F.faults folder.new) result }
        // where there is a damage nothing is stored
        ensures damaged { ShowsAttachDamage (IsTrue F.told) (F.files folder.old) commit (λ P. OnDamage result P) }
    {
        let _dims = commit.dims();
        Ok(Session {
            set: SegmentSet::attach(alloc, folder, &commit, settings)?,
            settings,
            commit: Some(commit),
            refused: false,
        })
    }

    /// Does what a command asks, and appends the answer to `out`. A refused command changes nothing. After a fault
    /// the session is seen as before, and `out` begins with what it held; what the folder keeps is then as before, or
    /// that of the commit in flight.
    pub fn apply<R: Threads + Sync, F: Folder, G: Gate>(
        &mut self,
        rt: &R,
        alloc: Global,
        folder: &mut F,
        c: &Command<D>,
        out: &mut Vec<u8>,
        gate: &G,
    ) -> Result<Applied, PageFault>
        requires { IsWithinLimits (request_of c.now) }
        ensures applies { Applies D (IsTrue F.told) (λ i. step_on i (request_of c.now))
            (is_committing (request_of c.now))
            (record {
              files = F.files folder.old;
              session = self.old;
              text = out.old.items;
              faults = F.faults folder.old;
            })
            (record {
              files = F.files folder.new;
              session = self.new;
              text = out.new.items;
              faults = F.faults folder.new;
            }) result }
        // what a done request leaves of the set, but for a box that deletes and a new opening
        ensures leaves { OnDone result
            (Leaves D (IsTrue F.told) (request_of c.now) (F.files folder.old)
            (F.files folder.new) self.old.set self.new.set) }
        ensures damage { ShowsDamage D (IsTrue F.told) (request_of c.now) (F.files folder.old)
            (F.files folder.new) self.old self.new result }
        ensures spares { Spares D (IsTrue F.told) (request_of c.now) (F.files folder.old)
            (F.files folder.new) self.old self.new (F.reads folder.old)
            (F.reads folder.new) result }
    {
        self.step(rt, alloc, folder, c, out, gate)
    }

    /// Hands a command to the call that does it.
    fn step<R: Threads + Sync, F: Folder, G: Gate>(
        &mut self,
        rt: &R,
        alloc: Global,
        folder: &mut F,
        c: &Command<D>,
        out: &mut Vec<u8>,
        gate: &G,
    ) -> Result<Applied, PageFault>
        requires { IsWithinLimits (request_of c.now) }
        ensures applies { Applies D (IsTrue F.told) (λ i. step_on i (request_of c.now))
            (is_committing (request_of c.now))
            (record {
              files = F.files folder.old;
              session = self.old;
              text = out.old.items;
              faults = F.faults folder.old;
            })
            (record {
              files = F.files folder.new;
              session = self.new;
              text = out.new.items;
              faults = F.faults folder.new;
            }) result }
        ensures leaves { OnDone result
            (Leaves D (IsTrue F.told) (request_of c.now) (F.files folder.old)
            (F.files folder.new) self.old.set self.new.set) }
        ensures damage { ShowsDamage D (IsTrue F.told) (request_of c.now) (F.files folder.old)
            (F.files folder.new) self.old self.new result }
        ensures spares { Spares D (IsTrue F.told) (request_of c.now) (F.files folder.old)
            (F.files folder.new) self.old self.new (F.reads folder.old)
            (F.reads folder.new) result }
    {
        match c {
            Command::Blank => Ok(Applied::Done),
            Command::Create {
                dims: _,
                leaf_size: _,
            } => Ok(Applied::Refused(Refusal::Exists)),
            Command::Add(points) => self.add(rt, alloc, folder, points, out, gate),
            Command::Delete(doc) => self.delete(*doc, out),
            Command::DeleteBox { lo, hi } => self.delete_box(alloc, folder, lo, hi, out),
            Command::InBox { view, lo, hi } => self.find(
                alloc,
                folder,
                view,
                &mut BoxShape::new(*lo, *hi),
                out,
            ),
            Command::Polygon { view, rings } => self.find_in(alloc, folder, view, rings, out),
            Command::Nearest { view, k, at } => self.nearest(alloc, folder, view, *k, at, out),
            Command::Flush => self.flush(rt, alloc, folder, out, gate),
            Command::Merge => self.merge(rt, alloc, folder, out, gate),
            Command::MergeBegin(which) => {
                self.merge_begin(rt, alloc, folder, which.as_slice(), out, gate)
            },
            Command::MergeEnd => self.merge_end(alloc, folder, out),
            Command::Snapshot(name) => self.snapshot(alloc, name, out),
            Command::Release(name) => self.release(name, out),
            Command::Commit => self.commit_line(rt, alloc, folder, out, gate),
            Command::Reopen => self.reopen(rt, alloc, folder, out, gate),
        }
    }
}
