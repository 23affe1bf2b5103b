//! A set over an index that is stored.

ghost use Rattle.std.specs.Prelude.{◌≡◌, ◌≤◌, ◌+◌, ◌↔◌, ℕ, List, true, None, Some, IsTrue, IfOk};
ghost use Rattle.outer_io.specs.Files.{Files, bytes_of};
ghost use Rattle.outer_io.specs.declared.file_name.FileName.{FileName};
ghost use Rattle.outer_io.specs.declared.file_name.FileName.TheVariants.{Commit as CommitName, Segment};
ghost use Rattle.live_bits.specs.LiveSet.{LiveSet};
ghost use Rattle.page_cache.specs.Cache.{room_of};
ghost use Rattle.page_cache.specs.Causes.{HasPageCause};
ghost use Rattle.page_cache.specs.Evidence.{OnDamage};
ghost use Rattle.commit_list.specs.CommitFiles.{IsCommitFile};
ghost use Rattle.segment_file.specs.Heads.{Head};
ghost use Rattle.stored_index.specs.Kept.{ListsFile};
ghost use Rattle.stored_index.specs.Opening.{segments_pages};
ghost use Rattle.stored_index.specs.Stored.{HaveHeads, HaveLive, IsStored};
ghost use Rattle.index_model.specs.State.{Index};
ghost use Rattle.segment_view.specs.LiveSegments.{lives_of};
ghost use Rattle.file_names.specs.Names.{is_named};

use crate::buffer::Buffer;
use crate::set::SegmentSet;
use crate::settings::Settings;
use commit_list::Commit;
use file_names::FileNames;
use index_opening::{check_numbers, open_all};
use outer_io::{FileName, Folder};
use page_cache::{Memory, PageCache, PageFault};
use std::alloc::Global;

impl<const D: usize> SegmentSet<D> {
    ghost use Rattle.segment_set.specs.Seen.{Sees};
    ghost use Rattle.segment_set.specs.Effects.{ShowsAttachDamage};
    ghost use Rattle.segment_set.specs.Kept.{IsAtRest};
    ghost use Rattle.segment_set.specs.Faithful.{IsFaithful};

    /// The set of a commit's segments. It reads their heads, indexes and live bits, no leaf, and answers Unequal,
    /// NotGiven or Doubled where these show it.
    pub fn attach<F: Folder>(
        alloc: Global,
        folder: &mut F,
        c: &Commit,
        settings: Settings,
    ) -> Result<SegmentSet<D>, PageFault>
        requires { c.now.dims ≡ D }
        ensures seen { IsTrue F.told → IsCommitFile (bytes_of (F.files folder.old CommitName)) c.now → (i : Index)
            → IsStored (F.files folder.old) (Some i)
            → IfOk result (λ s. Sees D (F.files folder.old) s i) }
        // the set is as the commit says, and its list of names has just the files that this lists
        ensures commit { IfOk result (λ s. IsAtRest s c.now) }
        ensures names { IfOk result (λ s. (m : FileName) → (is_named s.names.names m ≡ true) ↔ ListsFile c.now m) }
        ensures room { IfOk result (λ s. room_of s.cache ≡ settings.cache_pages) }
        ensures live { IsTrue F.told → IfOk result (λ s. HaveLive (F.files folder.old) c.now (lives_of s.parts)) }
        ensures faithful { IsTrue F.told → IfOk result (IsFaithful D (F.files folder.old)) }
        ensures files { IsTrue F.told → F.files folder.new ≡ F.files folder.old }
        ensures reads { IsTrue F.told → (heads : List Head) (sets : List LiveSet)
            → HaveHeads (F.files folder.old) c.now heads
            → HaveLive (F.files folder.old) c.now sets
            → F.reads folder.new ≤ F.reads folder.old + segments_pages (F.files folder.old) c.now.listed heads }
        // what an error says: where a state is stored there is no damage, and where there is one none is
        ensures cause { HasPageCause (F.faults folder.old) (F.faults folder.new) result }
        ensures damaged { ShowsAttachDamage (IsTrue F.told) (F.files folder.old) c.now (λ P. OnDamage result P) }
    {
        let names = names_of(alloc, c)?;
        let segments = open_all::<D, F>(alloc, folder, c)?;
        check_numbers(alloc, segments.lives(), c.next())?;
        let cache = PageCache::new(alloc, settings.cache_pages)?;
        Ok(SegmentSet {
            leaf_size: c.leaf_size(),
            forks: settings.forks,
            points_given: c.points_given(),
            names,
            segments,
            buffer: Buffer::new(alloc, c.next()),
            snapshots: Vec::new(alloc),
            begun: None,
            cache,
            saved: None,
        })
    }

    /// Takes over all that another set has but its list of names: so a sweep finds the files that only this one needed.
    pub fn renew(&mut self, set: SegmentSet<D>)
        requires { (id : ℕ) → is_named set.names.names (Segment id) ≡ true
            → is_named self.old.names.names (Segment id) ≡ true }
        ensures seen { (files : Files) (i : Index) → Sees D files set.entry i → Sees D files self.new i }
        ensures faithful { (files : Files) → IsFaithful D files set.entry → IsFaithful D files self.new }
        ensures kept { self.new ≡ record set.entry { names = self.old.names } }
    {
        self.leaf_size = set.leaf_size;
        self.forks = set.forks;
        self.points_given = set.points_given;
        self.segments = set.segments;
        self.buffer = set.buffer;
        self.snapshots = set.snapshots;
        self.begun = set.begun;
        self.cache = set.cache;
        self.saved = set.saved;
    }
}

ghost use Rattle.std.specs.Prelude.{false};

/// The names of the files that the commit lists.
fn names_of(alloc: Global, c: &Commit) -> Result<FileNames, Memory>
    ensures names { IfOk result (λ n. (m : FileName) → (is_named n.names m ≡ true) ↔ ListsFile c.now m) }
    ensures next { IfOk result (λ n. n.next_segment ≡ c.now.next_segment) }
    ensures own { IfOk result (λ n. is_named n.names CommitName ≡ false) }
{
    let mut names = FileNames::of_commit(alloc, c.next_segment());
    let listed = c.listed();
    for s in listed {
        names.add(FileName::Segment(s.segment))?;
        names.add(FileName::Live {
            segment: s.segment,
            generation: s.generation,
        })?;
    }
    Ok(names)
}
