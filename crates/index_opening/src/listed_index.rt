//! The index that a commit lists, as far as it is opened.

ghost use Rattle.std.specs.Prelude.{◌≡◌, ◌≤◌, ◌+◌, ℕ, List, IsTrue, IfOk};
ghost use Rattle.std.specs.List.{AllZip};
ghost use Rattle.outer_io.specs.Files.{bytes_of};
ghost use Rattle.outer_io.specs.declared.file_name.FileName.TheVariants.{Commit as CommitName};
ghost use Rattle.live_bits.specs.LiveSet.{LiveSet};
ghost use Rattle.page_cache.specs.Causes.{HasPageCause};
ghost use Rattle.page_cache.specs.Evidence.{OnDamage};
ghost use Rattle.commit_list.specs.CommitFiles.{IsCommitFile};
ghost use Rattle.segment_file.specs.Heads.{Head};
ghost use Rattle.stored_index.specs.Opening.{segments_pages};
ghost use Rattle.stored_index.specs.Stored.{HaveHeads, HaveLive, IsUndefined};
ghost use Rattle.segment_view.specs.LiveSegments.{lives_of};
ghost use Rattle.document_checks.specs.Placed.{IsPlacedOnce};
ghost use Rattle.index_opening.specs.First.{IsFirstOpened};
ghost use Rattle.index_opening.specs.Opened.{IsOpened};
ghost use Rattle.index_opening.specs.Evidence.{IsEvident, IsFound};

use crate::opening::{check_numbers, open_all};
use commit_list::Commit;
use outer_io::Folder;
use page_cache::PageFault;
use segment_view::Segments;
use std::alloc::Global;

/// The segments that the commit lists, where each live number is below the next one and live in one segment alone. No
/// leaf is read. A damage is answered only where no state is stored.
pub fn open_index<const D: usize, F: Folder>(
    alloc: Global,
    folder: &mut F,
    c: &Commit,
) -> Result<Segments<D>, PageFault>
    requires { c.now.dims ≡ D }
    ensures opened { IfOk result
        (λ parts. AllZip (IsOpened (IsTrue F.told) (F.files folder.old) c.now) c.now.listed parts) }
    ensures placed { IfOk result (λ parts. (number : ℕ) → IsPlacedOnce c.now.next (lives_of parts) number) }
    ensures files { IsTrue F.told → F.files folder.new ≡ F.files folder.old }
    ensures reads { IsTrue F.told → (heads : List Head) (sets : List LiveSet)
        → HaveHeads (F.files folder.old) c.now heads
        → HaveLive (F.files folder.old) c.now sets
        → F.reads folder.new ≤ F.reads folder.old + segments_pages (F.files folder.old) c.now.listed heads }
    ensures cause { HasPageCause (F.faults folder.old) (F.faults folder.new) result }
    ensures undefined { IsTrue F.told → IsCommitFile (bytes_of (F.files folder.old CommitName)) c.now
        → OnDamage result (λ _. IsUndefined (F.files folder.old)) }
    // the first in the order in which they are looked for
    ensures first { OnDamage result (IsFirstOpened (IsTrue F.told) (F.files folder.old) c.now) }
    ensures named { IsTrue F.told → IsCommitFile (bytes_of (F.files folder.old CommitName)) c.now
        → OnDamage result (IsFound (F.files folder.old)) }
    ensures evident { OnDamage result
        (IsEvident (IsTrue F.told × IsCommitFile (bytes_of (F.files folder.old CommitName)) c.now)
        (F.files folder.old)) }
{
    let segments = open_all::<D, F>(alloc, folder, c)?;
    check_numbers(alloc, segments.lives(), c.next())?;
    Ok(segments)
}
