//! A batch, and beside it a merge that begins.

ghost use Rattle.std.specs.Prelude.{◌≡◌, ◌≤◌, false, All, IfOk, IsTrue};
ghost use Rattle.std.specs.Thread.{IsSync};
ghost use Rattle.script_lang.specs.Requests as asks;
ghost use Rattle.script_lang.specs.Seen.{IsWithinLimits, request_of};
ghost use Rattle.index_model.specs.Step.{step_on};
ghost use Rattle.index_core.specs.Damages.{ShowsDamage};
ghost use Rattle.index_core.specs.Effects.{HasBegun, Leaves, OnDone};
ghost use Rattle.index_core.specs.Steps.{Applies, is_committing};
ghost use Rattle.batch_run.specs.Queries.{IsInRange};
ghost use Rattle.batch_run.specs.Residents.{AreReplies};

use crate::Memory;
use batch_run::{Query, Reply, Resident, batch};
use bkd_build::{Gate, OpenGate};
use index_core::{Applied, Session, Work};
use outer_io::Folder;
use page_cache::PageFault;
use script_lang::{Command, Positions};
use std::alloc::Global;
use std::marker::Sync;
use std::thread::{Threads, join_mut};

/// The replies to queries from a resident copy, while a session begins a merge of the segments at these positions.
/// Each half says for itself how it ended: the replies are those of `batch`, and the session does what it does for
/// the line `merge begin`. Before that the half of the batch calls `gate.pass(0)` and the other one `gate.pass(1)`;
/// within them nothing waits at a gate.
pub fn beside<const D: usize, R: Threads + Sync, F: Folder, G: Gate>(
    work: &Work<'_, R, G>,
    resident: &Resident<D>,
    queries: &[Query<D>],
    session: &mut Session<D>,
    folder: &mut F,
    which: Positions,
    text: &mut Vec<u8>,
) -> (Result<Vec<Reply>, Memory>, Result<Applied, PageFault>)
    requires few { D ≤ 8 }
    requires range { All (IsInRange D) queries.now }
    ensures replies { IfOk result.0 (λ v. AreReplies resident.now queries.now v.items) }
    ensures begins { Applies D (IsTrue F.told) (λ i. step_on i (asks.MergeBegin which)) false
        (record {
          files = F.files folder.old;
          session = session.old;
          text = text.old.items;
          faults = F.faults folder.old;
        })
        (record {
          files = F.files folder.new;
          session = session.new;
          text = text.new.items;
          faults = F.faults folder.new;
        }) result.1 }
    ensures leaves { OnDone result.1
        (HasBegun D (IsTrue F.told) (F.files folder.old) which session.old.set session.new.set) }
{
    let rt = work.rt;
    let alloc = work.alloc;
    let gate = work.gate;
    let forks = work.settings.forks;
    let command = Command::MergeBegin(which);
    let mut first = || -> Result<Vec<Reply>, Memory>
        requires { IsSync R.row × IsSync G.row × All (IsInRange D) queries.now }
        ensures { IfOk result (λ v. AreReplies resident.entry.now queries.entry.now v.items) }
    {
        gate.pass(0);
        batch(rt, alloc, resident, queries, forks, &OpenGate)
    };
    let mut second = || -> Result<Applied, PageFault>
        requires { IsSync R.row × IsSync G.row × (D ≤ 8) × IsWithinLimits (request_of command)
            × (is_committing (request_of command) ≡ false) }
        ensures applies { Applies D (IsTrue F.told) (λ i. step_on i (request_of command)) false
            (record {
              files = F.files folder.entry.now;
              session = session.entry.now;
              text = text.entry.now.items;
              faults = F.faults folder.entry.now;
            })
            (record {
              files = F.files folder.exit.now;
              session = session.exit.now;
              text = text.exit.now.items;
              faults = F.faults folder.exit.now;
            }) result }
        ensures leaves { OnDone result
            (Leaves D (IsTrue F.told) (request_of command) (F.files folder.entry.now) (F.files folder.exit.now)
            session.entry.now.set session.exit.now.set) }
    {
        gate.pass(1);
        apply(rt, alloc, session, folder, &command, text, &OpenGate)
    };
    join_mut(rt, &mut first, &mut second)
}

/// Does a command that commits nothing.
pub(crate) fn apply<const D: usize, R: Threads + Sync, F: Folder, G: Gate>(
    rt: &R,
    alloc: Global,
    session: &mut Session<D>,
    folder: &mut F,
    command: &Command<D>,
    text: &mut Vec<u8>,
    gate: &G,
) -> Result<Applied, PageFault>
    requires few { D ≤ 8 }
    requires limits { IsWithinLimits (request_of command.now) }
    requires calm { is_committing (request_of command.now) ≡ false }
    ensures applies { Applies D (IsTrue F.told) (λ i. step_on i (request_of command.now)) false
        (record {
          files = F.files folder.old;
          session = session.old;
          text = text.old.items;
          faults = F.faults folder.old;
        })
        (record {
          files = F.files folder.new;
          session = session.new;
          text = text.new.items;
          faults = F.faults folder.new;
        }) result }
    ensures leaves { OnDone result
        (Leaves D (IsTrue F.told) (request_of command.now) (F.files folder.old) (F.files folder.new) session.old.set
        session.new.set) }
    ensures damage { ShowsDamage D (IsTrue F.told) (request_of command.now) (F.files folder.old)
        (F.files folder.new) session.old session.new result }
{
    session.apply(rt, alloc, folder, command, text, gate)
}
