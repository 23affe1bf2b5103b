//! The command `clean`.

ghost use Rattle.std.specs.Prelude.{◌≡◌, IsTrue, IfOk};
ghost use Rattle.outer_io.specs.Faults.{Rose};
ghost use Rattle.page_cache.specs.Causes.{HasPageCause};
ghost use Rattle.page_cache.specs.Evidence.{OnDamage};
ghost use Rattle.stored_index.specs.Stored.{IsUndefined};
ghost use Rattle.index_opening.specs.Evidence.{IsEvident};
ghost use Rattle.run_status.specs.Ends.{DoesNothing, OnStatusDamage};
ghost use Rattle.clean_folder.specs.Cleaned.{EndsClean, IsCleaned, Spares};

use crate::removing::take_unlisted;
use crate::texts::removed_line;
use commit_list::read_commit;
use folder_check::check;
use outer_io::{FileName, Folder, Sink};
use page_cache::PageFault;
use run_status::{Status, send, status_of, stopped};
use std::alloc::Global;

/// What there is to tell, and how much of it is refused.
#[derive(Drop)]
struct Told {
    text: Vec<u8>,
    refused: u64,
}

/// The command `clean`: takes away those of these files that the folder's commit doesn't list, and tells how many they
/// were. First all that the commit lists is checked, as `check` does, since a list that is damaged may miss files that
/// hold documents: over a damaged folder, and over one without a Commit file, no file changes. The names are those of
/// the folder, each once.
pub fn run_clean<F: Folder, K: Sink>(
    alloc: Global,
    names: &[FileName],
    folder: &mut F,
    out: &mut K,
) -> Status
    ensures done { DoesNothing result → ⊥ }
    ensures ends { IsTrue F.told → EndsClean (IsTrue K.told) names.now (F.files folder.old) (F.files folder.new)
        (K.written out.old) (K.written out.new) result }
    ensures spares { IsTrue F.told → Spares (F.files folder.old) (F.files folder.new) }
    ensures evident { OnStatusDamage result (IsEvident (IsTrue F.told) (F.files folder.new)) }
    ensures folder_fault { result ≡ Status.FolderFault → Rose (F.faults folder.old) (F.faults folder.new) }
    ensures sink_fault { result ≡ Status.SinkFault → Rose (K.faults out.old) (K.faults out.new) }
{
    match cleaned(alloc, names, folder) {
        Ok(told) => status_of(send(out, told.text.as_slice(), told.refused)),
        Err(fault) => status_of(stopped(fault)),
    }
}

/// Checks the folder, takes away what its commit doesn't list, and answers what there is to tell.
fn cleaned<F: Folder>(alloc: Global, names: &[FileName], folder: &mut F) -> Result<Told, PageFault>
    ensures cleaned { IsTrue F.told
        → IfOk result (λ t. IsCleaned names.now (F.files folder.old) (F.files folder.new) t.text.items t.refused) }
    ensures spares { IsTrue F.told → Spares (F.files folder.old) (F.files folder.new) }
    ensures undefined { IsTrue F.told → OnDamage result (λ _. IsUndefined (F.files folder.old)) }
    ensures still { IsTrue F.told → OnDamage result (λ _. F.files folder.new ≡ F.files folder.old) }
    ensures evident { OnDamage result (IsEvident (IsTrue F.told) (F.files folder.new)) }
    ensures cause { HasPageCause (F.faults folder.old) (F.faults folder.new) result }
{
    let mut text = Vec::new(alloc);
    check(alloc, folder, &mut text)?;
    let Some(commit) = read_commit(alloc, folder)? else {
        return Ok(Told { text, refused: 1 });
    };
    let removed = take_unlisted(folder, &commit, names)?;
    Ok(Told {
        text: removed_line(alloc, &removed)?,
        refused: 0,
    })
}
