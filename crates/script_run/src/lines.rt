//! The lines of a source, one after the other.

ghost use Rattle.std.specs.Prelude.{◌≡◌, ◌≤◌, Some, None, [], IsOk, IsTrue, OnOk};
ghost use Rattle.outer_io.specs.declared.file_name.FileName.TheVariants.{Commit as CommitName};
ghost use Rattle.index_opening.specs.Evidence.{IsEvidentSince};
ghost use Rattle.commands.specs.Opens.{Opens, OpensOrStays};
ghost use Rattle.index_core.specs.Brought.{KeepsCommit};
ghost use Rattle.index_model.specs.State.{Index, State};
ghost use Rattle.stored_index.specs.Stored.{IsStored};
ghost use Rattle.line_source.specs.Reader.{KnowsEnd};
ghost use Rattle.script_run.specs.Costs.{NoneCommits};
ghost use Rattle.script_run.specs.Halted.{HasHaltCause, HasSourceCause, OfLines, OfSource, OnHaltDamage};
ghost use Rattle.script_run.specs.Kept.{AsksNoCommit, LinesKeep};
ghost use Rattle.script_run.specs.Languages.{meaning};
ghost use Rattle.script_run.specs.Leads.{LeadsAll, LeadsFrom};
ghost use Rattle.script_run.specs.Origins.{dims_of, IsFrom, IsAllowed, IsOriginOf};
ghost use Rattle.script_run.specs.Progress.{start};
ghost use Rattle.script_run.specs.Runs.{EndsRead};
ghost use Rattle.script_run.specs.Taking.{IsTakenOut, IsTakenOutOf};

use crate::answers::{Opening, answer_first};
use crate::halt::{Halt, halt_result};
use crate::indexed::run_over;
use crate::language::Language;
use crate::origin::Origin;
use bkd_build::Gate;
use commit_list::read_commit;
use index_core::Settings;
use line_source::{LineReader, ReadFault};
use outer_io::{Folder, Sink, Source};
use run_status::{Stop, stopped};
use std::alloc::{AllocError, Global};
use std::marker::Sync;
use std::thread::Threads;

/// What a run works with: none of it but the language changes what is answered.
#[derive(Drop)]
pub struct Work<'a, R, G> {
    pub rt: &'a R,
    pub alloc: Global,
    /// The language of the lines: points or ranges.
    pub language: Language,
    pub settings: Settings,
    pub gate: &'a G,
}

/// Where a run stands: the number of the next line, and how many lines were refused.
#[derive(Clone, Copy)]
pub struct Tally {
    pub line: u64,
    pub refused: u64,
}

/// Does the lines of a source on what the folder stores, and commits at the end. Answers how many lines were refused.
/// Each line is done and answered as soon as it has come, before the source is asked again.
pub fn run_lines<S: Source, R: Threads + Sync, F: Folder, K: Sink, G: Gate>(
    work: &Work<'_, R, G>,
    input: &mut S,
    folder: &mut F,
    out: &mut K,
) -> Result<u64, Halt>
    ensures does { IsTrue F.told
        → OfSource (IsTrue S.told) (S.left input.old) (λ lines. (state : State) → IsStored (F.files folder.old) state
        → EndsRead (meaning work.now.language) (IsTrue K.told) (start state lines (K.written out.old))
        (F.files folder.new) (K.written out.new) result
        × LeadsAll work.now.language state lines (F.files folder.old) (F.files folder.new) (F.reads folder.old)
        (F.reads folder.new) result) }
    ensures read { IsTrue S.told → OnOk result (S.left input.new ≡ []) }
    ensures cause { HasHaltCause (F.faults folder.old) (F.faults folder.new) (K.faults out.old)
        (K.faults out.new) result }
    ensures source { HasSourceCause (S.faults input.old) (S.faults input.new) result }
    ensures keeps { IsTrue F.told
        → OfSource (IsTrue S.told) (S.left input.old)
        (λ lines. LinesKeep (AsksNoCommit work.now.language (F.files folder.old) lines)
        (IsTakenOutOf work.now.language (F.files folder.old) lines)
        (F.files folder.old) (F.files folder.new) result) }
    // whatever it ends with, what was kept is, or a commit has taken its place of which each listed file is whole
    ensures lasting { IsTrue F.told → KeepsCommit (F.files folder.old) (F.files folder.new) }
    // lines are all answered only where what the commit lists can be opened
    ensures opened { IsTrue F.told → OpensOrStays (IsOk result) (F.files folder.old) (F.files folder.new) }
    ensures evident { OnHaltDamage result (IsEvidentSince (F.files folder.old) (IsTrue F.told) (F.files folder.new)) }
{
    match LineReader::new(work.alloc) {
        Ok(mut reader) => run_read(work, &mut reader, input, folder, out),
        Err(AllocError) => Err(Halt::Stopped(Stop::Memory)),
    }
}

/// Does the lines that a reader has, on what the folder stores.
fn run_read<S: Source, R: Threads + Sync, F: Folder, K: Sink, G: Gate>(
    work: &Work<'_, R, G>,
    reader: &mut LineReader,
    input: &mut S,
    folder: &mut F,
    out: &mut K,
) -> Result<u64, Halt>
    ensures does { IsTrue F.told
        → OfLines (IsTrue S.told) reader.old (S.left input.old)
        (λ lines. (state : State) → IsStored (F.files folder.old) state
        → EndsRead (meaning work.now.language) (IsTrue K.told) (start state lines (K.written out.old))
        (F.files folder.new) (K.written out.new) result
        × LeadsAll work.now.language state lines (F.files folder.old) (F.files folder.new) (F.reads folder.old)
        (F.reads folder.new) result) }
    ensures read { IsTrue S.told → KnowsEnd reader.old (S.left input.old) → OnOk result (S.left input.new ≡ []) }
    ensures cause { HasHaltCause (F.faults folder.old) (F.faults folder.new) (K.faults out.old)
        (K.faults out.new) result }
    ensures source { HasSourceCause (S.faults input.old) (S.faults input.new) result }
    ensures keeps { IsTrue F.told
        → OfLines (IsTrue S.told) reader.old (S.left input.old)
        (λ lines. LinesKeep (AsksNoCommit work.now.language (F.files folder.old) lines)
        (IsTakenOutOf work.now.language (F.files folder.old) lines)
        (F.files folder.old) (F.files folder.new) result) }
    ensures lasting { IsTrue F.told → KeepsCommit (F.files folder.old) (F.files folder.new) }
    ensures opened { IsTrue F.told → OpensOrStays (IsOk result) (F.files folder.old) (F.files folder.new) }
    ensures evident { OnHaltDamage result (IsEvidentSince (F.files folder.old) (IsTrue F.told) (F.files folder.new)) }
{
    match read_commit(work.alloc, folder) {
        Ok(None) => run_first(work, reader, input, folder, out),
        Ok(Some(commit)) => {
            let tally = Tally {
                line: 1,
                refused: 0,
            };
            run_from(
                work,
                Origin::Stored(commit),
                tally,
                reader,
                input,
                folder,
                out,
            )
        }
        Err(fault) => halt_result(stopped(fault)),
    }
}

/// Does the lines that a reader has, on a folder that has no index.
fn run_first<S: Source, R: Threads + Sync, F: Folder, K: Sink, G: Gate>(
    work: &Work<'_, R, G>,
    reader: &mut LineReader,
    input: &mut S,
    folder: &mut F,
    out: &mut K,
) -> Result<u64, Halt>
    ensures does { IsTrue F.told
        → OfLines (IsTrue S.told) reader.old (S.left input.old) (λ lines. F.files folder.old CommitName ≡ None
        → EndsRead (meaning work.now.language) (IsTrue K.told) (start None lines (K.written out.old))
        (F.files folder.new) (K.written out.new) result
        × LeadsAll work.now.language None lines (F.files folder.old) (F.files folder.new) (F.reads folder.old)
        (F.reads folder.new) result) }
    ensures read { IsTrue S.told → KnowsEnd reader.old (S.left input.old) → OnOk result (S.left input.new ≡ []) }
    ensures cause { HasHaltCause (F.faults folder.old) (F.faults folder.new) (K.faults out.old)
        (K.faults out.new) result }
    ensures source { HasSourceCause (S.faults input.old) (S.faults input.new) result }
    ensures lasting { IsTrue F.told → F.files folder.old CommitName ≡ None
        → KeepsCommit (F.files folder.old) (F.files folder.new) }
    ensures evident { OnHaltDamage result
        (IsEvidentSince (F.files folder.old) (IsTrue F.told × (F.files folder.old CommitName ≡ None))
        (F.files folder.new)) }
{
    let mut reply = Vec::new(work.alloc);
    let mut text = Vec::new(work.alloc);
    let mut refused = 0;
    'lines: for line in 1..u64::MAX {
        match reader.next_line(input, &mut text) {
            Ok(true) => match answer_first(work.language, line, text.as_slice(), &mut reply, out) {
                Ok(
                    Opening::Nothing {
                        refused: is_refused,
                    },
                ) => refused += u64::from(is_refused),
                Ok(Opening::Made { dims, leaf_size }) => {
                    let tally = Tally {
                        line: line + 1,
                        refused,
                    };
                    return run_from(
                        work,
                        Origin::New { dims, leaf_size },
                        tally,
                        reader,
                        input,
                        folder,
                        out,
                    );
                }
                Err(stop) => return Err(Halt::Stopped(stop)),
            },
            Ok(false) => return Ok(refused),
            Err(ReadFault::Failed) => return Err(Halt::Source),
            Err(ReadFault::Memory) => return Err(Halt::Stopped(Stop::Memory)),
        }
    }
    // no input has so many lines
    Err(Halt::Stopped(Stop::Memory))
}

/// Does the lines that a reader has, on an index, with as many dimensions as that has.
fn run_from<S: Source, R: Threads + Sync, F: Folder, K: Sink, G: Gate>(
    work: &Work<'_, R, G>,
    origin: Origin,
    tally: Tally,
    reader: &mut LineReader,
    input: &mut S,
    folder: &mut F,
    out: &mut K,
) -> Result<u64, Halt>
    requires made { IsAllowed origin }
    requires refused { tally.refused ≤ tally.line }
    ensures does { IsTrue F.told
        → OfLines (IsTrue S.told) reader.old (S.left input.old)
        (λ lines. (i : Index) → (stored : State) → IsFrom (F.files folder.old) origin i stored
        → EndsRead (meaning work.now.language) (IsTrue K.told) (record {
          line = tally.line;
          refused = tally.refused;
          state = Some i;
          stored = stored;
          rest = lines;
          written = K.written out.old;
        })
        (F.files folder.new) (K.written out.new) result
        × LeadsFrom work.now.language origin i stored tally.line lines (F.files folder.old) (F.files folder.new)
        (F.reads folder.old) (F.reads folder.new) result) }
    ensures read { IsTrue S.told → KnowsEnd reader.old (S.left input.old) → OnOk result (S.left input.new ≡ []) }
    ensures cause { HasHaltCause (F.faults folder.old) (F.faults folder.new) (K.faults out.old)
        (K.faults out.new) result }
    ensures source { HasSourceCause (S.faults input.old) (S.faults input.new) result }
    ensures keeps { IsTrue F.told
        → OfLines (IsTrue S.told) reader.old (S.left input.old)
        (λ lines. IsOriginOf (F.files folder.old) origin
        → LinesKeep (NoneCommits work.now.language (dims_of origin) lines)
        (IsTakenOut work.now.language (dims_of origin) lines)
        (F.files folder.old) (F.files folder.new) result) }
    ensures lasting { IsTrue F.told → IsOriginOf (F.files folder.old) origin
        → KeepsCommit (F.files folder.old) (F.files folder.new) }
    ensures opened { IsTrue F.told → IsOriginOf (F.files folder.old) origin → IsOk result
        → Opens (F.files folder.old) }
    ensures evident { OnHaltDamage result
        (IsEvidentSince (F.files folder.old) (IsTrue F.told × IsOriginOf (F.files folder.old) origin)
        (F.files folder.new)) }
{
    match origin.dims() {
        1 => run_over::<1, S, R, F, K, G>(work, origin, tally, reader, input, folder, out),
        2 => run_over::<2, S, R, F, K, G>(work, origin, tally, reader, input, folder, out),
        3 => run_over::<3, S, R, F, K, G>(work, origin, tally, reader, input, folder, out),
        4 => run_over::<4, S, R, F, K, G>(work, origin, tally, reader, input, folder, out),
        5 => run_over::<5, S, R, F, K, G>(work, origin, tally, reader, input, folder, out),
        6 => run_over::<6, S, R, F, K, G>(work, origin, tally, reader, input, folder, out),
        7 => run_over::<7, S, R, F, K, G>(work, origin, tally, reader, input, folder, out),
        _ => run_over::<8, S, R, F, K, G>(work, origin, tally, reader, input, folder, out),
    }
}
