//! Loading the resident copy of an index.

ghost use Rattle.std.specs.Prelude.{◌≡◌, List, IsTrue, IfOk, OnOk};
ghost use Rattle.outer_io.specs.MemFolder.{folder_files};
ghost use Rattle.documents.specs.Documents.{Document};
ghost use Rattle.page_cache.specs.Causes.{HasPageCause};
ghost use Rattle.page_cache.specs.Evidence.{NotDamaged, OnDamage};
ghost use Rattle.segment_file.specs.Heads.{HasRanges};
ghost use Rattle.stored_index.specs.Stored.{HoldsIndex, IsUndefined};
ghost use Rattle.index_opening.specs.Evidence.{IsEvident, ShowsItself};
ghost use Rattle.batch_run.specs.Copies.{IsCommitIn, ReadsListed};
ghost use Rattle.batch_run.specs.Residents.{IsCopyIn};

use crate::copying::copy_index;
use crate::resident::Resident;
use commit_list::Commit;
use folder_check::check_index;
use index_opening::open_index;
use outer_io::{Folder, MemFolder};
use page_cache::PageFault;
use std::alloc::Global;

impl<const D: usize> Resident<D> {
    /// The index that a commit lists, copied from its folder. Each page of its files is read once, and each leaf is
    /// verified. A damage is answered as the check of a folder answers it.
    pub fn load<F: Folder>(
        alloc: Global,
        folder: &mut F,
        c: &Commit,
    ) -> Result<Resident<D>, PageFault>
        requires { c.now.dims ≡ D }
        ensures copy { IsTrue F.told → IfOk result (IsCopyIn (F.files folder.old) c.now) }
        ensures files { IsTrue F.told → F.files folder.new ≡ F.files folder.old }
        ensures reads { IsTrue F.told → OnOk result
            (ReadsListed (F.files folder.old) c.now (F.reads folder.old) (F.reads folder.new)) }
        ensures cause { HasPageCause (F.faults folder.old) (F.faults folder.new) result }
        ensures undefined { IsTrue F.told → IsCommitIn (F.files folder.old) c.now
            → OnDamage result (λ _. IsUndefined (F.files folder.old)) }
        ensures evident { OnDamage result
            (IsEvident (IsTrue F.told × IsCommitIn (F.files folder.old) c.now) (F.files folder.old)) }
    {
        let copy = copy_index(alloc, folder, c)?;
        match open_copy(alloc, copy, c) {
            Ok(resident) => Ok(resident),
            Err(PageFault::Damaged(damage)) => {
                // what is damaged of the copy is damaged of the folder, and is told of that
                check_index::<D, F>(alloc, folder, c)?;
                Err(PageFault::Damaged(damage))
            }
            // no call on files in memory fails but for want of memory
            Err(_) => Err(PageFault::Memory),
        }
    }
}

/// The index of a copy whose Commit file says this commit, all its leaves verified.
fn open_copy<const D: usize>(
    alloc: Global,
    mut copy: MemFolder,
    c: &Commit,
) -> Result<Resident<D>, PageFault>
    requires dims { c.now.dims ≡ D }
    requires commit { IsCommitIn (folder_files copy) c.now }
    ensures copy { IfOk result (IsCopyIn (folder_files copy) c.now) }
    ensures whole { (docs : List Document) → HoldsIndex (folder_files copy) c.now docs
        → NotDamaged result }
    ensures shown { OnDamage result (ShowsItself HasRanges) }
{
    check_index::<D, MemFolder>(alloc, &mut copy, c)?;
    let segments = open_index::<D, MemFolder>(alloc, &mut copy, c)?;
    Ok(Resident {
        segments,
        files: copy,
    })
}
