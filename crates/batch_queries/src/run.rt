//! The command `batch`: all queries of the input are answered from a copy of the index, and then all is written.

ghost use Rattle.std.specs.Prelude.{◌≡◌, ◌≤◌, ◌^◌, ℕ, Bool, List, length, IsTrue, IfErr, IfOk, OnOk, IsOk, Err};
ghost use Rattle.outer_io.specs.Faults.{Rose};
ghost use Rattle.outer_io.specs.Files.{Files};
ghost use Rattle.page_cache.specs.Causes.{HasPageCause};
ghost use Rattle.page_cache.specs.Evidence.{NotDamaged, OnDamage};
ghost use Rattle.script_lang.specs.Lines.{lines_of};
ghost use Rattle.index_model.specs.State.{State};
ghost use Rattle.stored_index.specs.Stored.{IsStored};
ghost use Rattle.index_opening.specs.Evidence.{IsEvident};
ghost use Rattle.run_status.specs.Causes.{HasCauses, ReadsInput};
ghost use Rattle.run_status.specs.Ends.{DoesNothing, IsAnswer, IsDamaged, OnStatusDamage};
ghost use Rattle.run_status.specs.Stops.{status_of, stop_of};
ghost use Rattle.batch_run.specs.Copies.{IsCommitIn, ReadsListed};
ghost use Rattle.batch_queries.specs.Batched.{IsBatchText, TellsBatch};
ghost use Rattle.batch_queries.specs.Ends.{EndsBatch, LeavesNoText, ReadsOnce, StoresSome};

use crate::asking::collect;
use crate::telling::{Text, tell_all, tell_bare};
use batch_run::{Resident, batch};
use bkd_build::Gate;
use commit_list::{Commit, read_commit};
use outer_io::{Folder, ReadAll, Sink, Source, read_all};
use page_cache::PageFault;
use run_status::{MAX_INPUT, Status, send, status_of, stopped};
use std::alloc::Global;
use std::marker::Sync;
use std::thread::Threads;

/// The command `batch`: answers a list of queries from a resident copy of the index, the upper `forks` levels of the
/// list in halves beside each other. The whole input is read before anything is done, and all is answered before
/// anything is written. No file changes, whatever the status.
pub fn run_batch<S: Source, F: Folder, K: Sink, R: Threads + Sync, G: Gate>(
    rt: &R,
    alloc: Global,
    forks: u8,
    input: &mut S,
    folder: &mut F,
    out: &mut K,
    gate: &G,
) -> Status
    ensures never_usage { result ≡ Status.Usage → ⊥ }
    ensures ends { IsTrue S.told → IsTrue F.told → (state : State) → IsStored (F.files folder.old) state
        → EndsBatch (IsTrue K.told) (TellsBatch state) (lines_of (S.left input.old))
        (K.written out.old) (K.written out.new) result }
    ensures stored { IsTrue F.told → (LeavesNoText result → ⊥) → StoresSome (F.files folder.old) }
    ensures files { IsTrue F.told → F.files folder.new ≡ F.files folder.old }
    ensures reads { IsTrue F.told → IsAnswer result
        → ReadsOnce (F.files folder.old) (F.reads folder.old) (F.reads folder.new) }
    ensures input { IsTrue S.told → ReadsInput (S.left input.old) (S.left input.new) result }
    ensures untouched { DoesNothing result → (folder.new ≡ folder.old) × (out.new ≡ out.old) }
    ensures unwritten { LeavesNoText result → out.new ≡ out.old }
    ensures whole { IsTrue F.told → (state : State) → IsStored (F.files folder.old) state → IsDamaged result → ⊥ }
    ensures evident { OnStatusDamage result (IsEvident (IsTrue F.told) (F.files folder.new)) }
    ensures causes { HasCauses (record {
      source = S.faults input.old;
      folder = F.faults folder.old;
      sink = K.faults
          out.old;
    })
        (record { source = S.faults input.new; folder = F.faults folder.new; sink = K.faults out.new }) result }
{
    match read_all(alloc, input, MAX_INPUT) {
        Ok(lines) => tell(
            out,
            answer(rt, alloc, forks, lines.as_slice(), folder, gate),
        ),
        Err(ReadAll::Failed) => Status::SourceFault,
        Err(ReadAll::TooLarge) => Status::TooLarge,
        Err(ReadAll::Memory) => Status::Memory,
    }
}

/// Sends the text of a batch, and says how it ended.
fn tell<K: Sink>(out: &mut K, done: Result<Text, PageFault>) -> Status
    ensures done { DoesNothing result → ⊥ }
    ensures told { (LeavesNoText result → ⊥) → IsOk done }
    ensures unwritten { LeavesNoText result → out.new ≡ out.old }
    ensures ends { (state : State) (lines : List (List ℕ)) → NotDamaged done
        → IfOk done (λ t. IsBatchText state lines t.bytes.items t.refused)
        → EndsBatch (IsTrue K.told) (TellsBatch state) lines (K.written out.old) (K.written out.new) result }
    ensures damaged { NotDamaged done → IsDamaged result → ⊥ }
    // each fault is told as what it is
    ensures faults { IfErr done (λ fault. result ≡ status_of (Err (stop_of fault))) }
    ensures evident { (told : Bool) (files : Files) → OnDamage done (IsEvident (IsTrue told) files)
        → OnStatusDamage result (IsEvident (IsTrue told) files) }
    ensures folder_fault { (old new : ℕ) → HasPageCause old new done → result ≡ Status.FolderFault → Rose old new }
    ensures sink_fault { result ≡ Status.SinkFault → Rose (K.faults out.old) (K.faults out.new) }
{
    match done {
        Ok(text) => status_of(send(out, text.bytes.as_slice(), text.refused)),
        Err(fault) => status_of(stopped(fault)),
    }
}

/// The text of lines over what a folder stores.
fn answer<F: Folder, R: Threads + Sync, G: Gate>(
    rt: &R,
    alloc: Global,
    forks: u8,
    lines: &[u8],
    folder: &mut F,
    gate: &G,
) -> Result<Text, PageFault>
    requires { length lines.now ≤ 2 ^ 32 }
    ensures text { IsTrue F.told → (state : State) → IsStored (F.files folder.old) state
        → IfOk result (λ t. IsBatchText state (lines_of lines.now) t.bytes.items t.refused) }
    ensures stored { IsTrue F.told → IfOk result (λ _. StoresSome (F.files folder.old)) }
    ensures files { IsTrue F.told → F.files folder.new ≡ F.files folder.old }
    ensures reads { IsTrue F.told
        → OnOk result (ReadsOnce (F.files folder.old) (F.reads folder.old) (F.reads folder.new)) }
    ensures cause { HasPageCause (F.faults folder.old) (F.faults folder.new) result }
    ensures whole { IsTrue F.told → (state : State) → IsStored (F.files folder.old) state → NotDamaged result }
    ensures evident { OnDamage result (IsEvident (IsTrue F.told) (F.files folder.old)) }
{
    match read_commit(alloc, folder)? {
        None => Ok(tell_bare(alloc, lines)?),
        Some(commit) => answer_stored(rt, alloc, forks, &commit, lines, folder, gate),
    }
}

/// The text of lines over the index that a commit lists.
fn answer_stored<F: Folder, R: Threads + Sync, G: Gate>(
    rt: &R,
    alloc: Global,
    forks: u8,
    commit: &Commit,
    lines: &[u8],
    folder: &mut F,
    gate: &G,
) -> Result<Text, PageFault>
    requires { length lines.now ≤ 2 ^ 32 }
    ensures text { IsTrue F.told → IsCommitIn (F.files folder.old) commit.now
        → (state : State) → IsStored (F.files folder.old) state
        → IfOk result (λ t. IsBatchText state (lines_of lines.now) t.bytes.items t.refused) }
    ensures stored { IsTrue F.told → IsCommitIn (F.files folder.old) commit.now
        → IfOk result (λ _. StoresSome (F.files folder.old)) }
    ensures files { IsTrue F.told → F.files folder.new ≡ F.files folder.old }
    ensures reads { IsTrue F.told → OnOk result
        (ReadsListed (F.files folder.old) commit.now (F.reads folder.old) (F.reads folder.new)) }
    ensures cause { HasPageCause (F.faults folder.old) (F.faults folder.new) result }
    ensures whole { IsTrue F.told → IsCommitIn (F.files folder.old) commit.now
        → (state : State) → IsStored (F.files folder.old) state → NotDamaged result }
    ensures evident { OnDamage result
        (IsEvident (IsTrue F.told × IsCommitIn (F.files folder.old) commit.now) (F.files folder.old)) }
{
    match commit.dims() {
        1 => answer_over::<1, F, R, G>(rt, alloc, forks, commit, lines, folder, gate),
        2 => answer_over::<2, F, R, G>(rt, alloc, forks, commit, lines, folder, gate),
        3 => answer_over::<3, F, R, G>(rt, alloc, forks, commit, lines, folder, gate),
        4 => answer_over::<4, F, R, G>(rt, alloc, forks, commit, lines, folder, gate),
        5 => answer_over::<5, F, R, G>(rt, alloc, forks, commit, lines, folder, gate),
        6 => answer_over::<6, F, R, G>(rt, alloc, forks, commit, lines, folder, gate),
        7 => answer_over::<7, F, R, G>(rt, alloc, forks, commit, lines, folder, gate),
        _ => answer_over::<8, F, R, G>(rt, alloc, forks, commit, lines, folder, gate),
    }
}

/// The text of lines over the index of `D` dimensions that a commit lists.
fn answer_over<const D: usize, F: Folder, R: Threads + Sync, G: Gate>(
    rt: &R,
    alloc: Global,
    forks: u8,
    commit: &Commit,
    lines: &[u8],
    folder: &mut F,
    gate: &G,
) -> Result<Text, PageFault>
    requires some { 1 ≤ D }
    requires few { D ≤ 8 }
    requires dims { commit.now.dims ≡ D }
    requires lines { length lines.now ≤ 2 ^ 32 }
    ensures text { IsTrue F.told → IsCommitIn (F.files folder.old) commit.now
        → (state : State) → IsStored (F.files folder.old) state
        → IfOk result (λ t. IsBatchText state (lines_of lines.now) t.bytes.items t.refused) }
    ensures stored { IsTrue F.told → IsCommitIn (F.files folder.old) commit.now
        → IfOk result (λ _. StoresSome (F.files folder.old)) }
    ensures files { IsTrue F.told → F.files folder.new ≡ F.files folder.old }
    ensures reads { IsTrue F.told → OnOk result
        (ReadsListed (F.files folder.old) commit.now (F.reads folder.old) (F.reads folder.new)) }
    ensures cause { HasPageCause (F.faults folder.old) (F.faults folder.new) result }
    ensures whole { IsTrue F.told → IsCommitIn (F.files folder.old) commit.now
        → (state : State) → IsStored (F.files folder.old) state → NotDamaged result }
    ensures evident { OnDamage result
        (IsEvident (IsTrue F.told × IsCommitIn (F.files folder.old) commit.now) (F.files folder.old)) }
{
    let resident = Resident::<D>::load(alloc, folder, commit)?;
    let queries = collect(alloc, lines)?;
    let replies = batch(rt, alloc, &resident, queries.as_slice(), forks, gate)?;
    Ok(tell_all::<D>(alloc, lines, replies.as_slice())?)
}
