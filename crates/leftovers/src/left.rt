//! The files that a stopped run has left, taken away.

ghost use Rattle.std.specs.Prelude.{◌≡◌, ◌↔◌, None, true, IsTrue, OnOk, All};
ghost use Rattle.outer_io.specs.Faults.{HasCause};
ghost use Rattle.outer_io.specs.Files.{bytes_of};
ghost use Rattle.outer_io.specs.declared.file_name.FileName.{FileName};
ghost use Rattle.outer_io.specs.declared.file_name.FileName.TheVariants.{Commit as CommitName};
ghost use Rattle.commit_list.specs.Commits.{CommitData};
ghost use Rattle.commit_list.specs.CommitFiles.{IsCommitFile};
ghost use Rattle.page_cache.specs.Causes.{HasPageCause};
ghost use Rattle.stored_index.specs.Kept.{SameKept};
ghost use Rattle.leftovers.specs.Left.{IsLater, IsLeft, TakesAway};

use commit_list::{Commit, read_commit};
use outer_io::{Failed, FileName, Folder};
use page_cache::PageFault;
use std::alloc::Global;
use stored_index::lists_file;

/// Takes away those of these files that a stopped run has left: they came after the folder's commit, which doesn't list
/// them. Without a commit that is each of them. All other files stay, older ones too, which a list that is mended may
/// want. Where the Commit can't be read nothing is taken away.
pub fn take_away<F: Folder>(
    alloc: Global,
    folder: &mut F,
    names: &[FileName],
) -> Result<(), PageFault>
    ensures kept { IsTrue F.told → SameKept (F.files folder.old) (F.files folder.new) }
    ensures gone { IsTrue F.told → (c : CommitData) → IsCommitFile (bytes_of (F.files folder.old CommitName)) c
        → OnOk result (All (λ name. IsLeft (Some c) name → F.files folder.new name ≡ None) names.now) }
    ensures bare { IsTrue F.told → F.files folder.old CommitName ≡ None
        → OnOk result (All (λ name. F.files folder.new name ≡ None) names.now) }
    ensures others { IsTrue F.told → (c : CommitData) → IsCommitFile (bytes_of (F.files folder.old CommitName)) c
        → TakesAway (Some c) (F.files folder.old) (F.files folder.new) }
    ensures cause { HasPageCause (F.faults folder.old) (F.faults folder.new) result }
{
    let commit = read_commit(alloc, folder)?;
    remove_left(folder, &commit, names)?;
    Ok(())
}

/// Takes away those of these files that were left by this commit.
fn remove_left<F: Folder>(
    folder: &mut F,
    commit: &Option<Commit>,
    names: &[FileName],
) -> Result<(), Failed>
    ensures takes { IsTrue F.told → TakesAway commit.now (F.files folder.old) (F.files folder.new) }
    ensures gone { IsTrue F.told
        → OnOk result (All (λ name. IsLeft commit.now name → F.files folder.new name ≡ None) names.now) }
    ensures cause { HasCause (F.faults folder.old) (F.faults folder.new) result }
{
    for name in names {
        remove_if_left(folder, commit, name)?;
    }
    Ok(())
}

/// Takes away a file if it was left.
fn remove_if_left<F: Folder>(
    folder: &mut F,
    commit: &Option<Commit>,
    name: &FileName,
) -> Result<(), Failed>
    ensures takes { IsTrue F.told → TakesAway commit.now (F.files folder.old) (F.files folder.new) }
    ensures gone { IsTrue F.told → OnOk result (IsLeft commit.now name.now → F.files folder.new name.now ≡ None) }
    ensures cause { HasCause (F.faults folder.old) (F.faults folder.new) result }
{
    if is_left(commit, name) {
        return folder.remove(name);
    }
    Ok(())
}

/// Whether a stopped run has left the file.
fn is_left(commit: &Option<Commit>, name: &FileName) -> bool
    ensures { (result ≡ true) ↔ IsLeft commit.now name.now }
{
    match commit {
        Some(c) => !lists_file(c, name) && is_later(c, name),
        None => !name.is(&FileName::Commit),
    }
}

/// Whether the file came after the commit.
fn is_later(c: &Commit, name: &FileName) -> bool
    ensures { (result ≡ true) ↔ IsLater c.now name.now }
{
    match *name {
        FileName::Commit => false,
        FileName::CommitNew => true,
        FileName::Segment(id) => c.next_segment() <= id,
        FileName::Live {
            segment,
            generation: _,
        } => c.next_segment() <= segment || lists_file(c, &FileName::Segment(segment)),
    }
}
