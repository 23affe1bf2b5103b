//! Files that a commit doesn't list, taken away one after the other and counted.

ghost use Rattle.std.specs.Prelude.{◌≡◌, ◌≢◌, ◌↔◌, None, true, IsTrue, IfOk, OnOk, All, AllPairs};
ghost use Rattle.outer_io.specs.Faults.{HasCause};
ghost use Rattle.outer_io.specs.Files.{SameBut};
ghost use Rattle.clean_folder.specs.Cleaned.{Fewer, IsCounted, IsUnlisted, TakesUnlisted, CountsRemoved, KeepsCount};
ghost use Rattle.clean_folder.specs.Cleaned.{is_there, size_in};

use commit_list::Commit;
use outer_io::{Failed, FileName, Folder};
use stored_index::lists_file;

/// How many files were taken away, and how many bytes they had, each up to the greatest u64.
#[derive(Clone, Copy, PartialEq, Eq, Debug)]
pub(crate) struct Removed {
    pub(crate) files: u64,
    pub(crate) bytes: u64,
}

/// Takes away those of these files that the commit doesn't list, and counts them. The Commit file stays.
pub(crate) fn take_unlisted<F: Folder>(
    folder: &mut F,
    commit: &Commit,
    names: &[FileName],
) -> Result<Removed, Failed>
    ensures takes { IsTrue F.told → TakesUnlisted commit.now (F.files folder.old) (F.files folder.new) }
    ensures gone { IsTrue F.told
        → OnOk result (All (λ name. IsUnlisted commit.now name → F.files folder.new name ≡ None) names.now) }
    ensures counts { IsTrue F.told → AllPairs (λ a b. a ≢ b) names.now
        → IfOk result (λ r. CountsRemoved names.now (F.files folder.old) (F.files folder.new) r.files r.bytes) }
    ensures cause { HasCause (F.faults folder.old) (F.faults folder.new) result }
{
    let mut removed = Removed { files: 0, bytes: 0 };
    for name in names {
        take_if_unlisted(folder, commit, name, &mut removed)?;
    }
    Ok(removed)
}

/// Takes a file away if the commit doesn't list it, and counts it.
fn take_if_unlisted<F: Folder>(
    folder: &mut F,
    commit: &Commit,
    name: &FileName,
    removed: &mut Removed,
) -> Result<(), Failed>
    ensures takes { IsTrue F.told → TakesUnlisted commit.now (F.files folder.old) (F.files folder.new) }
    ensures others { IsTrue F.told → SameBut name.now (F.files folder.old) (F.files folder.new) }
    ensures gone { IsTrue F.told → OnOk result (IsUnlisted commit.now name.now → F.files folder.new name.now ≡ None) }
    ensures counts { IsTrue F.told
        → OnOk result (KeepsCount (F.files folder.old name.now) (F.files folder.new name.now) removed.old removed.new) }
    ensures cause { HasCause (F.faults folder.old) (F.faults folder.new) result }
{
    if !is_unlisted(commit, name) {
        return Ok(());
    }
    take(folder, name, removed)
}

/// Whether the file is neither the Commit file nor one that the commit lists.
fn is_unlisted(commit: &Commit, name: &FileName) -> bool
    ensures { (result ≡ true) ↔ IsUnlisted commit.now name.now }
{
    !name.is(&FileName::Commit) && !lists_file(commit, name)
}

/// Takes a file away and counts it, where it is there.
fn take<F: Folder>(folder: &mut F, name: &FileName, removed: &mut Removed) -> Result<(), Failed>
    ensures others { IsTrue F.told → SameBut name.now (F.files folder.old) (F.files folder.new) }
    ensures fewer { IsTrue F.told → Fewer name.now (F.files folder.old) (F.files folder.new) }
    ensures gone { IsTrue F.told → OnOk result (F.files folder.new name.now ≡ None) }
    ensures files { IsTrue F.told
        → OnOk result (IsCounted (is_there (F.files folder.old name.now)) removed.old.files removed.new.files) }
    ensures bytes { IsTrue F.told
        → OnOk result (IsCounted (size_in (F.files folder.old name.now)) removed.old.bytes removed.new.bytes) }
    ensures cause { HasCause (F.faults folder.old) (F.faults folder.new) result }
{
    let Some(size) = folder.size(name)? else {
        return Ok(());
    };
    folder.remove(name)?;
    removed.files = removed.files.saturating_add(1);
    removed.bytes = removed.bytes.saturating_add(size);
    Ok(())
}
