//! A merge that begins while lines are answered, and its end.

ghost use Rattle.std.specs.Prelude.{◌≡◌, ◌≤◌, ◌^◌, ℕ, List, Some, length, IfOk, IsTrue};
ghost use Rattle.script_lang.specs.Lines.{lines_of};
ghost use Rattle.index_model.specs.State.{Index};
ghost use Rattle.stored_index.specs.Stored.{IsStored};
ghost use Rattle.batch_queries.specs.Batched.{IsBatchText};
ghost use Rattle.batch_queries.specs.Merging.{below, merged_count};
ghost use Rattle.batch_queries.specs.MergeRuns.{BeginsMerge, EndsMerge, AreOpen};

use crate::Memory;
use crate::asking::collect;
use crate::both::{apply, beside};
use crate::telling::{Text, tell_all};
use batch_run::Resident;
use bkd_build::Gate;
use index_core::{Session, Work};
use outer_io::Folder;
use page_cache::PageFault;
use script_lang::{Command, Positions};
use std::alloc::Global;
use std::marker::Sync;
use std::thread::Threads;

/// How many segments are merged at most.
const MERGED_COUNT: u32 = 64;

/// The text of lines, answered while the merge of the first segments begins.
pub(crate) fn answer_beside<const D: usize, F: Folder, R: Threads + Sync, G: Gate>(
    work: &Work<'_, R, G>,
    resident: &Resident<D>,
    session: &mut Session<D>,
    lines: &[u8],
    folder: &mut F,
) -> Result<Text, PageFault>
    requires some { 1 ≤ D }
    requires few { D ≤ 8 }
    requires lines { length lines.now ≤ 2 ^ 32 }
    ensures text { AreOpen D (F.files folder.old) resident.now session.old → (i : Index)
        → IsStored (F.files folder.old) (Some i)
        → IfOk result (λ t. IsBatchText (Some i) (lines_of lines.now) t.bytes.items t.refused) }
    ensures begins { BeginsMerge D (IsTrue F.told) resident.now
        (record { files = F.files folder.old; session = session.old; faults = F.faults folder.old })
        (record { files = F.files folder.new; session = session.new; faults = F.faults folder.new }) result }
{
    let queries = collect(work.alloc, lines)?;
    let which = first_positions(work.alloc)?;
    let mut answer = Vec::new(work.alloc);
    let (replies, begun) = beside(
        work,
        resident,
        queries.as_slice(),
        session,
        folder,
        which,
        &mut answer,
    );
    begun?;
    let replies = replies?;
    Ok(tell_all::<D>(work.alloc, lines, replies.as_slice())?)
}

/// The positions of the segments that are merged.
fn first_positions(alloc: Global) -> Result<Positions, Memory>
    ensures { IfOk result (λ p. p ≡ below merged_count) }
{
    let mut list = Vec::new(alloc);
    for position in 0..MERGED_COUNT {
        list.push(position)?;
    }
    Ok(Positions::new(list))
}

/// Ends the merge and commits.
pub(crate) fn end_merge<const D: usize, F: Folder, R: Threads + Sync, G: Gate>(
    work: &Work<'_, R, G>,
    session: &mut Session<D>,
    folder: &mut F,
) -> Result<(), PageFault>
    requires { D ≤ 8 }
    ensures { (ids : List ℕ) (i : Index) → EndsMerge D (IsTrue F.told) ids i
        (record { files = F.files folder.old; session = session.old; faults = F.faults folder.old })
        (record { files = F.files folder.new; session = session.new; faults = F.faults folder.new }) result }
{
    let mut answer = Vec::new(work.alloc);
    apply(
        work.rt,
        work.alloc,
        session,
        folder,
        &Command::MergeEnd,
        &mut answer,
        work.gate,
    )?;
    session.commit(work.rt, work.alloc, folder, work.gate)
}
