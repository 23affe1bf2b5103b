//! The lines of a source on an index that is there, and the end of their session.

ghost use Rattle.std.specs.Prelude.{◌≡◌, ◌≤◌, Some, [], IsOk, IsTrue, OnOk, ℕ};
ghost use Rattle.index_opening.specs.Evidence.{IsEvident, IsEvidentSince};
ghost use Rattle.commands.specs.Opens.{Opens};
ghost use Rattle.index_core.specs.Brought.{KeepsCommit};
ghost use Rattle.index_core.specs.KeptLive.{KeepsSet};
ghost use Rattle.index_core.specs.Carried.{IsEvidentOver};
ghost use Rattle.index_core.specs.Sessions.{Trusts};
ghost use Rattle.index_model.specs.State.{Index, State};
ghost use Rattle.line_source.specs.Reader.{KnowsEnd};
ghost use Rattle.script_run.specs.LineAnswers.{IsEnd, IsSessionOf};
ghost use Rattle.script_run.specs.Costs.{NoneCommits};
ghost use Rattle.script_run.specs.Halted.{HasHaltCause, HasSourceCause, OfLines, OnHaltDamage};
ghost use Rattle.script_run.specs.Kept.{HaltKeeps, LinesKeep, StopKeeps};
ghost use Rattle.script_run.specs.Languages.{meaning};
ghost use Rattle.script_run.specs.Leads.{Closes, Leads, LeadsFrom};
ghost use Rattle.script_run.specs.Origins.{dims_of, IsFrom, IsAllowed, IsOriginOf};
ghost use Rattle.script_run.specs.Runs.{EndsRead};
ghost use Rattle.script_run.specs.Taking.{IsTakenOut};
ghost use Rattle.run_status.specs.Ends.{HasStopCause, OnStopDamage};

use crate::answers::answer_line;
use crate::halt::{Halt, halt_result};
use crate::lines::{Tally, Work};
use crate::origin::{Origin, open};
use bkd_build::Gate;
use index_core::Session;
use line_source::{LineReader, ReadFault};
use outer_io::{Folder, Sink, Source};
use run_status::{Stop, stopped};
use std::marker::Sync;
use std::thread::Threads;

/// Does the lines that a reader has, on an index of `D` dimensions, and commits.
pub(crate) fn run_over<const D: usize, S: Source, R: Threads + Sync, F: Folder, K: Sink, G: Gate>(
    work: &Work<'_, R, G>,
    origin: Origin,
    tally: Tally,
    reader: &mut LineReader,
    input: &mut S,
    folder: &mut F,
    out: &mut K,
) -> Result<u64, Halt>
    requires some { 1 ≤ D }
    requires few { D ≤ 8 }
    requires dims { dims_of origin ≡ D }
    requires made { IsAllowed origin }
    requires refused { tally.refused ≤ tally.line }
    ensures does { IsTrue F.told
        → OfLines (IsTrue S.told) reader.old (S.left input.old)
        (λ lines. (i : Index) → (stored : State) → IsFrom (F.files folder.old) origin i stored
        → EndsRead (meaning work.now.language) (IsTrue K.told) (record {
          line = tally.line;
          refused = tally.refused;
          state = Some i;
          stored = stored;
          rest = lines;
          written = K.written out.old;
        })
        (F.files folder.new) (K.written out.new) result
        × LeadsFrom work.now.language origin i stored tally.line lines (F.files folder.old) (F.files folder.new)
        (F.reads folder.old) (F.reads folder.new) result) }
    ensures read { IsTrue S.told → KnowsEnd reader.old (S.left input.old) → OnOk result (S.left input.new ≡ []) }
    ensures cause { HasHaltCause (F.faults folder.old) (F.faults folder.new) (K.faults out.old)
        (K.faults out.new) result }
    ensures source { HasSourceCause (S.faults input.old) (S.faults input.new) result }
    ensures keeps { IsTrue F.told
        → OfLines (IsTrue S.told) reader.old (S.left input.old)
        (λ lines. IsOriginOf (F.files folder.old) origin
        → LinesKeep (NoneCommits work.now.language (dims_of origin) lines)
        (IsTakenOut work.now.language (dims_of origin) lines)
        (F.files folder.old) (F.files folder.new) result) }
    ensures lasting { IsTrue F.told → IsOriginOf (F.files folder.old) origin
        → KeepsCommit (F.files folder.old) (F.files folder.new) }
    ensures opened { IsTrue F.told → IsOriginOf (F.files folder.old) origin → IsOk result
        → Opens (F.files folder.old) }
    ensures evident { OnHaltDamage result
        (IsEvidentSince (F.files folder.old) (IsTrue F.told × IsOriginOf (F.files folder.old) origin)
        (F.files folder.new)) }
{
    match open::<D, F>(work.alloc, work.settings, origin, folder) {
        Ok(mut session) => run_made(work, &mut session, tally, reader, input, folder, out),
        Err(fault) => halt_result(stopped(fault)),
    }
}

/// Does the lines that a reader has, in a session, and commits.
fn run_made<const D: usize, S: Source, R: Threads + Sync, F: Folder, K: Sink, G: Gate>(
    work: &Work<'_, R, G>,
    session: &mut Session<D>,
    tally: Tally,
    reader: &mut LineReader,
    input: &mut S,
    folder: &mut F,
    out: &mut K,
) -> Result<u64, Halt>
    requires some { 1 ≤ D }
    requires few { D ≤ 8 }
    requires refused { tally.refused ≤ tally.line }
    ensures does { IsTrue F.told
        → OfLines (IsTrue S.told) reader.old (S.left input.old)
        (λ lines. (i : Index) → (stored : State) → IsSessionOf D (F.files folder.old) session.old i stored
        → EndsRead (meaning work.now.language) (IsTrue K.told) (record {
          line = tally.line;
          refused = tally.refused;
          state = Some i;
          stored = stored;
          rest = lines;
          written = K.written out.old;
        })
        (F.files folder.new) (K.written out.new) result
        × Leads work.now.language tally.line i lines
        (record { files = F.files folder.old; session = session.old; reads = F.reads folder.old })
        (record { files = F.files folder.new; session = session.new; reads = F.reads folder.new }) result) }
    ensures read { IsTrue S.told → KnowsEnd reader.old (S.left input.old) → OnOk result (S.left input.new ≡ []) }
    ensures cause { HasHaltCause (F.faults folder.old) (F.faults folder.new) (K.faults out.old)
        (K.faults out.new) result }
    ensures source { HasSourceCause (S.faults input.old) (S.faults input.new) result }
    ensures keeps { IsTrue F.told
        → OfLines (IsTrue S.told) reader.old (S.left input.old)
        (λ lines. Trusts D (F.files folder.old) session.old
        → (NoneCommits work.now.language D lines → HaltKeeps (F.files folder.old) (F.files folder.new) result)
        × KeepsSet D (IsTakenOut work.now.language D lines)
        (F.files folder.old) (F.files folder.new) session.old.set) }
    ensures lasting { IsTrue F.told → Trusts D (F.files folder.old) session.old
        → KeepsCommit (F.files folder.old) (F.files folder.new) }
    ensures evident { OnHaltDamage result
        (IsEvidentOver (F.files folder.old) session.old.set
        (IsTrue F.told × Trusts D (F.files folder.old) session.old) (F.files folder.new)) }
{
    let mut reply = Vec::new(work.alloc);
    let mut text = Vec::new(work.alloc);
    let mut refused = tally.refused;
    'lines: for line in tally.line..u64::MAX {
        match reader.next_line(input, &mut text) {
            Ok(true) => match answer_line(
                work,
                session,
                folder,
                line,
                text.as_slice(),
                &mut reply,
                out,
            ) {
                Ok(is_refused) => refused += u64::from(is_refused),
                Err(stop) => return Err(Halt::Stopped(stop)),
            },
            Ok(false) => return halt_result(finish(work, session, folder, refused)),
            Err(ReadFault::Failed) => return Err(Halt::Source),
            Err(ReadFault::Memory) => return Err(Halt::Stopped(Stop::Memory)),
        }
    }
    // no input has so many lines
    Err(Halt::Stopped(Stop::Memory))
}

/// Commits what the lines left, of which so many were refused, and leaves no file that the commit doesn't list.
fn finish<const D: usize, R: Threads + Sync, F: Folder, G: Gate>(
    work: &Work<'_, R, G>,
    session: &mut Session<D>,
    folder: &mut F,
    refused: u64,
) -> Result<u64, Stop>
    ensures ends { IsTrue F.told → (i : Index) → (stored : State)
        → IsSessionOf D (F.files folder.old) session.old i stored
        → IsEnd (F.files folder.new) i stored refused result }
    ensures closes { IsTrue F.told → (i : Index) → (stored : State)
        → IsSessionOf D (F.files folder.old) session.old i stored
        → Closes D i (record { files = F.files folder.old; session = session.old; reads = F.reads folder.old })
        (record { files = F.files folder.new; session = session.new; reads = F.reads folder.new }) result }
    ensures cause { (sink : ℕ) → HasStopCause (F.faults folder.old) (F.faults folder.new) sink sink result }
    ensures undone { IsTrue F.told → Trusts D (F.files folder.old) session.old
        → StopKeeps (F.files folder.old) (F.files folder.new) result }
    ensures lasts { IsTrue F.told → Trusts D (F.files folder.old) session.old
        → KeepsSet D (λ number. ⊥) (F.files folder.old) (F.files folder.new) session.old.set }
    ensures lasting { IsTrue F.told → Trusts D (F.files folder.old) session.old
        → KeepsCommit (F.files folder.old) (F.files folder.new) }
    ensures evident { OnStopDamage result
        (IsEvident (IsTrue F.told × Trusts D (F.files folder.old) session.old) (F.files folder.new)) }
{
    match session.close(work.rt, work.alloc, folder, work.gate) {
        Ok(()) => Ok(refused),
        Err(fault) => stopped(fault),
    }
}
