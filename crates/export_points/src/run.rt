//! The command `export`.

ghost use Rattle.std.specs.Prelude.{◌≡◌, ◌%◌, ◌==◌, ◌&&◌, false, IsTrue};
ghost use Rattle.outer_io.specs.Faults.{Rose};
ghost use Rattle.outer_io.specs.Files.{bytes_of};
ghost use Rattle.outer_io.specs.declared.file_name.FileName.TheVariants.{Commit as CommitName};
ghost use Rattle.commit_list.specs.CommitFiles.{IsCommitFile};
ghost use Rattle.index_model.specs.State.{State};
ghost use Rattle.stored_index.specs.Stored.{IsStored};
ghost use Rattle.index_opening.specs.Evidence.{IsEvident};
ghost use Rattle.run_status.specs.Ends.{DoesNothing, IsDamaged, OnStatusDamage};
ghost use Rattle.export_points.specs.Ends.{Exports, ExportsCommit};

use crate::sending::send_entries;
use commit_list::{Commit, read_commit};
use folder_check::stored_entries;
use outer_io::{Folder, Sink};
use run_status::{Status, send, status_of, stopped};
use std::alloc::Global;

/// The command `export`: writes all live documents of the index that the folder's commit lists, as CSV with a record
/// for each point, by number and then by coordinates. All files are looked at as `check` looks at them before anything
/// is written, so a damaged folder ends with its first damage and no text; but where ranges are asked for and the
/// commit's dimensions are odd that alone is told. No file changes, whatever the status, and the input is not read.
pub fn run_export<F: Folder, K: Sink>(
    alloc: Global,
    as_ranges: bool,
    folder: &mut F,
    out: &mut K,
) -> Status
    ensures done { DoesNothing result → ⊥ }
    ensures exports { IsTrue F.told → Exports (IsTrue K.told) as_ranges (F.files folder.old) (F.files folder.new)
        (K.written out.old) (K.written out.new) (F.reads folder.old) (F.reads folder.new) result }
    ensures whole { IsTrue F.told → (state : State) → IsStored (F.files folder.old) state → IsDamaged result → ⊥ }
    ensures evident { OnStatusDamage result (IsEvident (IsTrue F.told) (F.files folder.new)) }
    ensures folder_fault { result ≡ Status.FolderFault → Rose (F.faults folder.old) (F.faults folder.new) }
    ensures sink_fault { result ≡ Status.SinkFault → Rose (K.faults out.old) (K.faults out.new) }
{
    match read_commit(alloc, folder) {
        Ok(None) => status_of(send(out, b"no index\n", 1)),
        Ok(Some(commit)) => export_commit(alloc, as_ranges, &commit, folder, out),
        Err(fault) => status_of(stopped(fault)),
    }
}

/// Exports the index that a commit lists, or refuses it where it has no ranges.
fn export_commit<F: Folder, K: Sink>(
    alloc: Global,
    as_ranges: bool,
    commit: &Commit,
    folder: &mut F,
    out: &mut K,
) -> Status
    ensures done { DoesNothing result → ⊥ }
    ensures exports { IsTrue F.told → IsCommitFile (bytes_of (F.files folder.old CommitName)) commit.now
        → ExportsCommit commit.now (IsTrue K.told) as_ranges (F.files folder.old) (F.files folder.new)
        (K.written out.old) (K.written out.new) (F.reads folder.old) (F.reads folder.new) result }
    ensures evident { OnStatusDamage result
        (IsEvident (IsTrue F.told × IsCommitFile (bytes_of (F.files folder.old CommitName)) commit.now)
        (F.files folder.old)) }
    ensures folder_fault { result ≡ Status.FolderFault → Rose (F.faults folder.old) (F.faults folder.new) }
    ensures sink_fault { result ≡ Status.SinkFault → Rose (K.faults out.old) (K.faults out.new) }
{
    if is_not_ranges(as_ranges, commit) {
        return status_of(send(out, b"not ranges\n", 1));
    }
    export_listed(alloc, as_ranges, commit, folder, out)
}

/// Whether ranges are asked for, and the commit's dimensions are odd.
fn is_not_ranges(as_ranges: bool, commit: &Commit) -> bool
    ensures { result ≡ (as_ranges && commit.now.dims % 2 == 1) }
{
    as_ranges && commit.dims() % 2 == 1
}

/// Exports the index that a commit lists, in as many dimensions as it has.
fn export_listed<F: Folder, K: Sink>(
    alloc: Global,
    as_ranges: bool,
    commit: &Commit,
    folder: &mut F,
    out: &mut K,
) -> Status
    requires { (as_ranges && commit.now.dims % 2 == 1) ≡ false }
    ensures done { DoesNothing result → ⊥ }
    ensures exports { IsTrue F.told → IsCommitFile (bytes_of (F.files folder.old CommitName)) commit.now
        → ExportsCommit commit.now (IsTrue K.told) as_ranges (F.files folder.old) (F.files folder.new)
        (K.written out.old) (K.written out.new) (F.reads folder.old) (F.reads folder.new) result }
    ensures evident { OnStatusDamage result
        (IsEvident (IsTrue F.told × IsCommitFile (bytes_of (F.files folder.old CommitName)) commit.now)
        (F.files folder.old)) }
    ensures folder_fault { result ≡ Status.FolderFault → Rose (F.faults folder.old) (F.faults folder.new) }
    ensures sink_fault { result ≡ Status.SinkFault → Rose (K.faults out.old) (K.faults out.new) }
{
    match commit.dims() {
        1 => export_index::<1, F, K>(alloc, as_ranges, commit, folder, out),
        2 => export_index::<2, F, K>(alloc, as_ranges, commit, folder, out),
        3 => export_index::<3, F, K>(alloc, as_ranges, commit, folder, out),
        4 => export_index::<4, F, K>(alloc, as_ranges, commit, folder, out),
        5 => export_index::<5, F, K>(alloc, as_ranges, commit, folder, out),
        6 => export_index::<6, F, K>(alloc, as_ranges, commit, folder, out),
        7 => export_index::<7, F, K>(alloc, as_ranges, commit, folder, out),
        _ => export_index::<8, F, K>(alloc, as_ranges, commit, folder, out),
    }
}

/// Exports the index of `D` dimensions that a commit lists.
fn export_index<const D: usize, F: Folder, K: Sink>(
    alloc: Global,
    as_ranges: bool,
    commit: &Commit,
    folder: &mut F,
    out: &mut K,
) -> Status
    requires dims { commit.now.dims ≡ D }
    requires even { (as_ranges && commit.now.dims % 2 == 1) ≡ false }
    ensures done { DoesNothing result → ⊥ }
    ensures exports { IsTrue F.told → IsCommitFile (bytes_of (F.files folder.old CommitName)) commit.now
        → ExportsCommit commit.now (IsTrue K.told) as_ranges (F.files folder.old) (F.files folder.new)
        (K.written out.old) (K.written out.new) (F.reads folder.old) (F.reads folder.new) result }
    ensures evident { OnStatusDamage result
        (IsEvident (IsTrue F.told × IsCommitFile (bytes_of (F.files folder.old CommitName)) commit.now)
        (F.files folder.old)) }
    ensures folder_fault { result ≡ Status.FolderFault → Rose (F.faults folder.old) (F.faults folder.new) }
    ensures sink_fault { result ≡ Status.SinkFault → Rose (K.faults out.old) (K.faults out.new) }
{
    // they are at most 8
    let _dims = commit.dims();
    match stored_entries::<D, F>(alloc, folder, commit) {
        Ok(entries) => status_of(send_entries(alloc, as_ranges, entries, out)),
        Err(fault) => status_of(stopped(fault)),
    }
}
