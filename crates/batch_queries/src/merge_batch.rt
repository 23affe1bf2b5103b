//! The command `batch` that merges: a batch, and the merge of the first segments beside it.

ghost use Rattle.std.specs.Prelude.{◌≡◌, ◌≤◌, ◌^◌, ℕ, Bool, None, length, IsTrue};
ghost use Rattle.outer_io.specs.Files.{Files};
ghost use Rattle.outer_io.specs.declared.file_name.FileName.TheVariants.{Commit as CommitName};
ghost use Rattle.script_lang.specs.Lines.{lines_of};
ghost use Rattle.index_model.specs.State.{State};
ghost use Rattle.stored_index.specs.Stored.{IsStored};
ghost use Rattle.index_opening.specs.Evidence.{IsEvident};
ghost use Rattle.commands.specs.Opens.{Reads};
ghost use Rattle.run_status.specs.Causes.{HasCauses, ReadsInput};
ghost use Rattle.run_status.specs.Ends.{DoesNothing, IsDamaged, OnStatusDamage};
ghost use Rattle.run_status.specs.Stops.{status_of};
ghost use Rattle.batch_run.specs.Copies.{IsCommitIn};
ghost use Rattle.batch_queries.specs.Batched.{TellsBatch};
ghost use Rattle.batch_queries.specs.Ends.{TellsStored};
ghost use Rattle.batch_queries.specs.Merging.{EndsMerging, MergeLeaves};
ghost use Rattle.batch_queries.specs.MergeRuns.{AreOpen, MergesBatch};

use crate::begun::{answer_beside, end_merge};
use crate::telling::tell_bare;
use batch_run::Resident;
use bkd_build::Gate;
use command_words::CACHE_PAGES;
use commit_list::{Commit, read_commit};
use index_core::{Session, Settings, Work};
use outer_io::{Folder, ReadAll, Sink, Source, read_all};
use run_status::{MAX_INPUT, Status, Stop, send, status_of};
use std::alloc::Global;
use std::marker::Sync;
use std::thread::Threads;

/// The command `batch` with `--merge`: answers a list of queries as `run_batch` does, and merges the segments that the
/// commit lists, the first 64 of them. The merge is built beside the batch. Then the text goes out, and then the merge
/// is ended and committed: a fault before leaves no text, and where the text doesn't go out nothing is merged. Nothing
/// goes out unless the folder stores a state.
pub fn run_merging_batch<S: Source, F: Folder, K: Sink, R: Threads + Sync, G: Gate>(
    rt: &R,
    alloc: Global,
    forks: u8,
    input: &mut S,
    folder: &mut F,
    out: &mut K,
    gate: &G,
) -> Status
    requires { forks ≤ 6 }
    ensures never_usage { result ≡ Status.Usage → ⊥ }
    ensures ends { IsTrue S.told → IsTrue F.told → (state : State) → IsStored (F.files folder.old) state
        → EndsMerging (IsTrue K.told) (TellsBatch state) (lines_of (S.left input.old))
        (K.written out.old) (K.written out.new) result }
    ensures leaves { IsTrue F.told → MergeLeaves (F.files folder.old) (F.files folder.new) result }
    ensures stored { IsTrue F.told
        → TellsStored (F.files folder.old) (K.written out.old) (K.written out.new) result }
    // a Commit file that is none is left, and all else
    ensures stays { IsTrue F.told → (Reads (F.files folder.old) → ⊥) → F.files folder.new ≡ F.files folder.old }
    ensures input { IsTrue S.told → ReadsInput (S.left input.old) (S.left input.new) result }
    ensures untouched { DoesNothing result → (folder.new ≡ folder.old) × (out.new ≡ out.old) }
    ensures whole { IsTrue F.told → (state : State) → IsStored (F.files folder.old) state → IsDamaged result → ⊥ }
    ensures evident { OnStatusDamage result (IsEvident (IsTrue F.told) (F.files folder.new)) }
    ensures causes { HasCauses
        (record { source = S.faults input.old; folder = F.faults folder.old; sink = K.faults out.old })
        (record { source = S.faults input.new; folder = F.faults folder.new; sink = K.faults out.new }) result }
{
    let settings = Settings {
        cache_pages: CACHE_PAGES,
        forks,
    };
    let work = Work {
        rt,
        alloc,
        settings,
        gate,
    };
    match read_all(alloc, input, MAX_INPUT) {
        Ok(lines) => status_of(merge_stored(&work, lines.as_slice(), folder, out)),
        Err(ReadAll::Failed) => Status::SourceFault,
        Err(ReadAll::TooLarge) => Status::TooLarge,
        Err(ReadAll::Memory) => Status::Memory,
    }
}

/// Answers lines over what a folder stores, and merges. It answers how many lines are refused.
fn merge_stored<F: Folder, K: Sink, R: Threads + Sync, G: Gate>(
    work: &Work<'_, R, G>,
    lines: &[u8],
    folder: &mut F,
    out: &mut K,
) -> Result<u64, Stop>
    requires { length lines.now ≤ 2 ^ 32 }
    ensures merges { MergesBatch (IsTrue F.told) (IsTrue K.told) (Unit {0}) (lines_of lines.now)
        (record {
          files = F.files folder.old;
          faults = F.faults folder.old;
          written = K.written out.old;
          sink = K.faults out.old;
        })
        (record {
          files = F.files folder.new;
          faults = F.faults folder.new;
          written = K.written out.new;
          sink = K.faults out.new;
        }) (status_of result) }
    ensures stays { IsTrue F.told → (Reads (F.files folder.old) → ⊥) → F.files folder.new ≡ F.files folder.old }
{
    match read_commit(work.alloc, folder)? {
        None => tell_none(work.alloc, lines, out),
        Some(commit) => merge_listed(work, commit, lines, folder, out),
    }
}

/// Tells lines where no index is there. The folder is not asked.
fn tell_none<K: Sink>(alloc: Global, lines: &[u8], out: &mut K) -> Result<u64, Stop>
    requires { length lines.now ≤ 2 ^ 32 }
    ensures { (told : Bool) (files : Files) (faults : ℕ)
        → MergesBatch (IsTrue told) (IsTrue K.told) (files CommitName ≡ None) (lines_of lines.now)
        (record { files = files; faults = faults; written = K.written out.old; sink = K.faults out.old })
        (record { files = files; faults = faults; written = K.written out.new; sink = K.faults out.new })
        (status_of result) }
{
    let text = tell_bare(alloc, lines)?;
    send(out, text.bytes.as_slice(), text.refused)
}

/// Answers lines over the index that a commit lists, and merges.
fn merge_listed<F: Folder, K: Sink, R: Threads + Sync, G: Gate>(
    work: &Work<'_, R, G>,
    commit: Commit,
    lines: &[u8],
    folder: &mut F,
    out: &mut K,
) -> Result<u64, Stop>
    requires { length lines.now ≤ 2 ^ 32 }
    ensures { MergesBatch (IsTrue F.told) (IsTrue K.told) (IsCommitIn (F.files folder.old) commit) (lines_of lines.now)
        (record {
          files = F.files folder.old;
          faults = F.faults folder.old;
          written = K.written out.old;
          sink = K.faults out.old;
        })
        (record {
          files = F.files folder.new;
          faults = F.faults folder.new;
          written = K.written out.new;
          sink = K.faults out.new;
        }) (status_of result) }
{
    match commit.dims() {
        1 => merge_over::<1, F, K, R, G>(work, commit, lines, folder, out),
        2 => merge_over::<2, F, K, R, G>(work, commit, lines, folder, out),
        3 => merge_over::<3, F, K, R, G>(work, commit, lines, folder, out),
        4 => merge_over::<4, F, K, R, G>(work, commit, lines, folder, out),
        5 => merge_over::<5, F, K, R, G>(work, commit, lines, folder, out),
        6 => merge_over::<6, F, K, R, G>(work, commit, lines, folder, out),
        7 => merge_over::<7, F, K, R, G>(work, commit, lines, folder, out),
        _ => merge_over::<8, F, K, R, G>(work, commit, lines, folder, out),
    }
}

/// Answers lines over the index of `D` dimensions that a commit lists, and merges.
fn merge_over<const D: usize, F: Folder, K: Sink, R: Threads + Sync, G: Gate>(
    work: &Work<'_, R, G>,
    commit: Commit,
    lines: &[u8],
    folder: &mut F,
    out: &mut K,
) -> Result<u64, Stop>
    requires some { 1 ≤ D }
    requires few { D ≤ 8 }
    requires dims { commit.dims ≡ D }
    requires lines { length lines.now ≤ 2 ^ 32 }
    ensures { MergesBatch (IsTrue F.told) (IsTrue K.told) (IsCommitIn (F.files folder.old) commit) (lines_of lines.now)
        (record {
          files = F.files folder.old;
          faults = F.faults folder.old;
          written = K.written out.old;
          sink = K.faults out.old;
        })
        (record {
          files = F.files folder.new;
          faults = F.faults folder.new;
          written = K.written out.new;
          sink = K.faults out.new;
        }) (status_of result) }
{
    let resident = Resident::<D>::load(work.alloc, folder, &commit)?;
    let mut session = Session::<D>::attach(work.alloc, folder, commit, work.settings)?;
    merge_with(work, &resident, &mut session, lines, folder, out)
}

/// Answers lines from a resident copy, sends the text, and ends the merge that was begun beside it.
fn merge_with<const D: usize, F: Folder, K: Sink, R: Threads + Sync, G: Gate>(
    work: &Work<'_, R, G>,
    resident: &Resident<D>,
    session: &mut Session<D>,
    lines: &[u8],
    folder: &mut F,
    out: &mut K,
) -> Result<u64, Stop>
    requires some { 1 ≤ D }
    requires few { D ≤ 8 }
    requires lines { length lines.now ≤ 2 ^ 32 }
    ensures { MergesBatch (IsTrue F.told) (IsTrue K.told) (AreOpen D (F.files folder.old) resident.now session.old)
        (lines_of lines.now)
        (record {
          files = F.files folder.old;
          faults = F.faults folder.old;
          written = K.written out.old;
          sink = K.faults out.old;
        })
        (record {
          files = F.files folder.new;
          faults = F.faults folder.new;
          written = K.written out.new;
          sink = K.faults out.new;
        }) (status_of result) }
{
    let text = answer_beside(work, resident, session, lines, folder)?;
    let refused = send(out, text.bytes.as_slice(), text.refused)?;
    end_merge(work, session, folder)?;
    Ok(refused)
}
