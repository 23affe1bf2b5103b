//! Removes the files that neither the commit nor a view needs.

ghost use Rattle.std.specs.Prelude.{◌≡◌, ◌<◌, ◌+◌, ◌-◌, ◌^◌, ℕ, true, false};
ghost use Rattle.std.specs.Prelude.{take, length, slice_get, All, Some, None, IsTrue, IfOk, OnOk};
ghost use Rattle.std.specs.List.{list_any};
ghost use Rattle.outer_io.specs.Faults.{HasCause};
ghost use Rattle.outer_io.specs.Files.{Files};
ghost use Rattle.outer_io.specs.declared.file_name.FileName.{FileName};
ghost use Rattle.outer_io.specs.declared.file_name.FileName.TheVariants.{Segment};
ghost use Rattle.page_cache.specs.Cache.{Agrees, KeepsFile, MarksGo};
ghost use Rattle.documents.specs.Entries.{is_among};
ghost use Rattle.index_model.specs.State.{Index};
ghost use Rattle.segment_view.specs.LiveSegments.{ids_of};
ghost use Rattle.file_names.specs.Names.{is_named};

use crate::set::SegmentSet;
use crate::snapshots::Snapshot;
use commit_list::Commit;
use outer_io::{Failed, FileName, Folder};
use page_cache::PageCache;
use stored_index::lists_file;

impl<const D: usize> SegmentSet<D> {
    ghost use Rattle.segment_set.specs.Seen.{Sees};
    ghost use Rattle.segment_set.specs.Kept.{IsNeeded};
    ghost use Rattle.segment_set.specs.Faithful.{IsFaithful};
    ghost use Rattle.segment_set.specs.Swept.{IsSwept, IsUnneeded, shows_file};

    /// Removes every file of the list of names but those that the commit lists and those that a view needs. After Ok
    /// only these are in the list, and the others aren't there.
    pub fn sweep<F: Folder>(&mut self, folder: &mut F, c: &Commit) -> Result<(), Failed>
        ensures seen { IsTrue F.told → (i : Index) → Sees D (F.files folder.old) self.old i
            → Sees D (F.files folder.new) self.new i }
        // whatever is answered: what left the list is gone
        ensures swept { IsSwept (IsTrue F.told) c.now self.old self.new (F.files folder.old) (F.files folder.new) }
        ensures only { OnOk result ((m : FileName) → is_named self.new.names.names m ≡ true
            → IsNeeded self.old c.now m) }
        ensures gone { IsTrue F.told → OnOk result ((m : FileName) → is_named self.old.names.names m ≡ true
            → (IsNeeded self.old c.now m → ⊥) → F.files folder.new m ≡ None) }
        ensures faithful { IsTrue F.told → IsFaithful D (F.files folder.old) self.old
            → IsFaithful D (F.files folder.new) self.new }
        ensures unread { F.reads folder.new ≡ F.reads folder.old }
        ensures cause { HasCause (F.faults folder.old) (F.faults folder.new) result }
    {
        let mut place = 0;
        'names: while place < self.names.as_slice().len() {
            place = self.sweep_at(folder, c, place)?;
        }
        Ok(())
    }

    /// Removes the file at a place of the list of names unless it is needed, and answers the place of the next one.
    fn sweep_at<F: Folder>(
        &mut self,
        folder: &mut F,
        c: &Commit,
        place: usize,
    ) -> Result<usize, Failed>
        requires { place < length self.old.names.names }
        ensures seen { IsTrue F.told → (i : Index) → Sees D (F.files folder.old) self.old i
            → Sees D (F.files folder.new) self.new i }
        ensures swept { IsSwept (IsTrue F.told) c.now self.old self.new (F.files folder.old) (F.files folder.new) }
        ensures faithful { IsTrue F.told → IsFaithful D (F.files folder.old) self.old
            → IsFaithful D (F.files folder.new) self.new }
        ensures front { All (IsNeeded self.old c.now) (take place self.old.names.names)
            → IfOk result (λ n. All (IsNeeded self.old c.now) (take n self.new.names.names)) }
        ensures next { IfOk result (λ n. length self.new.names.names - n < length self.old.names.names - place) }
        ensures unread { F.reads folder.new ≡ F.reads folder.old }
        ensures cause { HasCause (F.faults folder.old) (F.faults folder.new) result }
    {
        let name = self.name_at(place);
        if self.needs(c, &name) {
            return Ok(place + 1);
        }
        self.remove_file(folder, c, &name)?;
        Ok(place)
    }

    /// The name at a place of the list.
    fn name_at(&self, place: usize) -> FileName
        requires { place < length self.now.names.names }
        ensures name { slice_get self.now.names.names place ≡ Some result }
        ensures more { place + 1 < 2 ^ 64 }
    {
        self.names.as_slice()[place]
    }

    /// Removes a file, its name and what is kept of it.
    fn remove_file<F: Folder>(
        &mut self,
        folder: &mut F,
        c: &Commit,
        name: &FileName,
    ) -> Result<(), Failed>
        requires named { is_named self.old.names.names name.now ≡ true }
        requires unneeded { IsUnneeded self.old c.now name.now }
        ensures seen { IsTrue F.told → (i : Index) → Sees D (F.files folder.old) self.old i
            → Sees D (F.files folder.new) self.new i }
        ensures swept { IsSwept (IsTrue F.told) c.now self.old self.new (F.files folder.old) (F.files folder.new) }
        ensures faithful { IsTrue F.told → IsFaithful D (F.files folder.old) self.old
            → IsFaithful D (F.files folder.new) self.new }
        ensures names { OnOk result
            (self.new.names.names ≡ filter (λ n. not (same_name n name.now)) self.old.names.names) }
        ensures unread { F.reads folder.new ≡ F.reads folder.old }
        ensures cause { HasCause (F.faults folder.old) (F.faults folder.new) result }
    {
        forget(&mut self.cache, name);
        folder.remove(name)?;
        self.names.remove(name);
        Ok(())
    }

    /// Whether the commit lists the file, or a view needs it.
    fn needs(&self, c: &Commit, name: &FileName) -> bool
        ensures yes { result ≡ true → IsNeeded self.now c.now name.now }
        ensures no { result ≡ false → IsUnneeded self.now c.now name.now }
    {
        if self.shows(name) {
            return true;
        }
        lists_file(c, name)
    }

    /// Whether a view needs the file.
    fn shows(&self, name: &FileName) -> bool
        ensures { result ≡ shows_file self.now name.now }
    {
        let FileName::Segment(id) = *name else {
            return false;
        };
        let now = self.segments.has(id);
        let kept = any_has(self.snapshots.as_slice(), id);
        now | kept
    }
}

ghost use Rattle.std.specs.Prelude.{not, filter};
ghost use Rattle.outer_io.specs.Names.{same_name};

/// Whether one of the snapshots shows the segment of this id.
fn any_has<const D: usize>(snapshots: &[Snapshot<D>], id: u64) -> bool
    ensures { result ≡ list_any (λ v. is_among (ids_of v.parts) id) snapshots.now }
{
    for snapshot in snapshots {
        if snapshot.segments.has(id) {
            return true;
        }
    }
    false
}

/// Takes out what is kept of the file.
fn forget(cache: &mut PageCache, name: &FileName)
    ensures gone { (id : ℕ) → name.now ≡ Segment id → KeepsFile cache.new id → ⊥ }
    ensures fewer { (id : ℕ) → KeepsFile cache.new id → KeepsFile cache.old id }
    ensures marks { MarksGo cache.old cache.new }
    ensures agrees { (files : Files) → Agrees files cache.old → Agrees files cache.new }
{
    if let FileName::Segment(id) = *name {
        cache.forget(id);
    }
}
