//! Scripts: of points, read whole or as they come, and of ranges.

ghost use Rattle.std.specs.Prelude.{◌≡◌, ◌≤◌, ◌^◌, ◌⊎◌, [], length, IsTrue};
ghost use Rattle.outer_io.specs.Faults.{Rose};
ghost use Rattle.script_lang.specs.Lines.{lines_of};
ghost use Rattle.index_model.specs.State.{State};
ghost use Rattle.stored_index.specs.Stored.{IsStored};
ghost use Rattle.commands.specs.Opens.{OpensOrStays};
ghost use Rattle.index_core.specs.Brought.{KeepsCommit};
ghost use Rattle.index_core.specs.Whole.{HasNewCanonical};
ghost use Rattle.run_status.specs.Causes.{HasCauses, ReadsInput};
ghost use Rattle.run_status.specs.Ends.{DoesNothing, IsAnswer};
ghost use Rattle.script_run.specs.Kept.{RunCosts};
ghost use Rattle.script_run.specs.Languages.{meaning};
ghost use Rattle.script_run.specs.Progress.{start};
ghost use Rattle.script_run.specs.RangeScript.{AreRanges, EndsRanges};
ghost use Rattle.script_run.specs.Runs.{Ends, EndsSession};
ghost use Rattle.script_run.specs.declared.language.Language.TheVariants.{Points, Ranges};
ghost use Rattle.bkd_top.specs.Calls.{TellsDamage};

use bkd_build::Gate;
use index_core::Settings;
use line_source::HeldBytes;
use outer_io::{Folder, ReadAll, Sink, Source, read_all};
use run_status::{MAX_INPUT, Status};
use script_run::{Language, Work, run_lines, status_of_lines};
use std::alloc::Global;
use std::marker::Sync;
use std::thread::Threads;

/// The command `run`, which is `run` without its words.
pub fn run_script<S: Source, F: Folder, K: Sink, R: Threads + Sync, G: Gate>(
    rt: &R,
    alloc: Global,
    settings: Settings,
    input: &mut S,
    folder: &mut F,
    out: &mut K,
    gate: &G,
) -> Status
    ensures never_usage { result ≡ Status.Usage → ⊥ }
    ensures ends { IsTrue S.told → IsTrue F.told → (state : State) → IsStored (F.files folder.old) state
        → Ends (meaning Points) (IsTrue K.told) (start state (lines_of (S.left input.old)) (K.written out.old))
        (F.files folder.new) (K.written out.new) result }
    ensures input { IsTrue S.told → ReadsInput (S.left input.old) (S.left input.new) result }
    ensures untouched { DoesNothing result → (folder.new ≡ folder.old) × (out.new ≡ out.old) }
    ensures canon { IsTrue F.told → (state : State) → IsStored (F.files folder.old) state → IsAnswer result
        → HasNewCanonical (F.files folder.old) (F.files folder.new) }
    ensures costs { IsTrue S.told → IsTrue F.told
        → RunCosts Points (lines_of (S.left input.old)) (F.files folder.old) (F.files folder.new) (F.reads folder.old)
        (F.reads folder.new) result }
    ensures lasting { IsTrue F.told → KeepsCommit (F.files folder.old) (F.files folder.new) }
    ensures opened { IsTrue F.told → OpensOrStays (IsAnswer result) (F.files folder.old) (F.files folder.new) }
    ensures damage { TellsDamage (IsTrue F.told) (F.files folder.old) (F.files folder.new) result }
    ensures causes { HasCauses
        (record { source = S.faults input.old; folder = F.faults folder.old; sink = K.faults out.old })
        (record { source = S.faults input.new; folder = F.faults folder.new; sink = K.faults out.new }) result }
{
    let work = Work {
        rt,
        alloc,
        language: Language::Points,
        settings,
        gate,
    };
    run_whole(&work, input, folder, out)
}

/// The command `ranges`: does the lines of a script over documents that have ranges, as `run` does those over points.
/// A range of `R` dimensions, 1 to 4, is kept as a point of `2 R` coordinates; on an index of an odd number of
/// dimensions each line but a blank one is refused.
pub fn run_ranges<S: Source, F: Folder, K: Sink, R: Threads + Sync, G: Gate>(
    rt: &R,
    alloc: Global,
    settings: Settings,
    input: &mut S,
    folder: &mut F,
    out: &mut K,
    gate: &G,
) -> Status
    ensures never_usage { result ≡ Status.Usage → ⊥ }
    ensures ends { IsTrue S.told → IsTrue F.told → (state : State) → IsStored (F.files folder.old) state
        → Ends (meaning Ranges) (IsTrue K.told) (start state (lines_of (S.left input.old)) (K.written out.old))
        (F.files folder.new) (K.written out.new) result }
    // over points that are ranges it is the script that is said by the points of ranges
    ensures ranges { IsTrue S.told → IsTrue F.told → (state : State) → IsStored (F.files folder.old) state
        → AreRanges state
        → EndsRanges (IsTrue K.told) (start state (lines_of (S.left input.old)) (K.written out.old))
        (F.files folder.new) (K.written out.new) result }
    ensures input { IsTrue S.told → ReadsInput (S.left input.old) (S.left input.new) result }
    ensures untouched { DoesNothing result → (folder.new ≡ folder.old) × (out.new ≡ out.old) }
    ensures canon { IsTrue F.told → (state : State) → IsStored (F.files folder.old) state → IsAnswer result
        → HasNewCanonical (F.files folder.old) (F.files folder.new) }
    ensures costs { IsTrue S.told → IsTrue F.told
        → RunCosts Ranges (lines_of (S.left input.old)) (F.files folder.old) (F.files folder.new) (F.reads folder.old)
        (F.reads folder.new) result }
    ensures lasting { IsTrue F.told → KeepsCommit (F.files folder.old) (F.files folder.new) }
    ensures opened { IsTrue F.told → OpensOrStays (IsAnswer result) (F.files folder.old) (F.files folder.new) }
    ensures damage { TellsDamage (IsTrue F.told) (F.files folder.old) (F.files folder.new) result }
    ensures causes { HasCauses
        (record { source = S.faults input.old; folder = F.faults folder.old; sink = K.faults out.old })
        (record { source = S.faults input.new; folder = F.faults folder.new; sink = K.faults out.new }) result }
{
    let work = Work {
        rt,
        alloc,
        language: Language::Ranges,
        settings,
        gate,
    };
    run_whole(&work, input, folder, out)
}

/// The command `session`: does the lines of a script as `run` does, each as soon as it has come. The whole answer to
/// a line is written before the input is asked for more. There is no limit on the whole input; a line is held as far
/// as 4,194,306 bytes.
pub fn run_session<S: Source, F: Folder, K: Sink, R: Threads + Sync, G: Gate>(
    rt: &R,
    alloc: Global,
    settings: Settings,
    input: &mut S,
    folder: &mut F,
    out: &mut K,
    gate: &G,
) -> Status
    ensures never { (result ≡ Status.Usage) ⊎ (result ≡ Status.TooLarge) → ⊥ }
    ensures ends { IsTrue S.told → IsTrue F.told → (state : State) → IsStored (F.files folder.old) state
        → EndsSession (meaning Points) (IsTrue K.told) (start state (lines_of (S.left input.old)) (K.written out.old))
        (F.files folder.new) (K.written out.new) result }
    ensures lines { IsTrue S.told → IsAnswer result → S.left input.new ≡ [] }
    ensures canon { IsTrue F.told → (state : State) → IsStored (F.files folder.old) state → IsAnswer result
        → HasNewCanonical (F.files folder.old) (F.files folder.new) }
    ensures costs { IsTrue S.told → IsTrue F.told
        → RunCosts Points (lines_of (S.left input.old)) (F.files folder.old) (F.files folder.new) (F.reads folder.old)
        (F.reads folder.new) result }
    ensures lasting { IsTrue F.told → KeepsCommit (F.files folder.old) (F.files folder.new) }
    ensures opened { IsTrue F.told → OpensOrStays (IsAnswer result) (F.files folder.old) (F.files folder.new) }
    ensures damage { TellsDamage (IsTrue F.told) (F.files folder.old) (F.files folder.new) result }
    ensures causes { HasCauses
        (record { source = S.faults input.old; folder = F.faults folder.old; sink = K.faults out.old })
        (record { source = S.faults input.new; folder = F.faults folder.new; sink = K.faults out.new }) result }
{
    let work = Work {
        rt,
        alloc,
        language: Language::Points,
        settings,
        gate,
    };
    run_source(&work, input, folder, out)
}

/// Reads a script whole, and runs it.
fn run_whole<S: Source, F: Folder, K: Sink, R: Threads + Sync, G: Gate>(
    work: &Work<'_, R, G>,
    input: &mut S,
    folder: &mut F,
    out: &mut K,
) -> Status
    ensures never_usage { result ≡ Status.Usage → ⊥ }
    ensures ends { IsTrue S.told → IsTrue F.told → (state : State) → IsStored (F.files folder.old) state
        → Ends (meaning work.now.language) (IsTrue K.told)
        (start state (lines_of (S.left input.old)) (K.written out.old)) (F.files folder.new)
        (K.written out.new) result }
    ensures input { IsTrue S.told → ReadsInput (S.left input.old) (S.left input.new) result }
    ensures untouched { DoesNothing result → (folder.new ≡ folder.old) × (out.new ≡ out.old) }
    ensures canon { IsTrue F.told → (state : State) → IsStored (F.files folder.old) state → IsAnswer result
        → HasNewCanonical (F.files folder.old) (F.files folder.new) }
    ensures costs { IsTrue S.told → IsTrue F.told
        → RunCosts work.now.language (lines_of (S.left input.old)) (F.files folder.old) (F.files folder.new)
        (F.reads folder.old) (F.reads folder.new) result }
    ensures lasting { IsTrue F.told → KeepsCommit (F.files folder.old) (F.files folder.new) }
    ensures opened { IsTrue F.told → OpensOrStays (IsAnswer result) (F.files folder.old) (F.files folder.new) }
    ensures damage { TellsDamage (IsTrue F.told) (F.files folder.old) (F.files folder.new) result }
    ensures causes { HasCauses
        (record { source = S.faults input.old; folder = F.faults folder.old; sink = K.faults out.old })
        (record { source = S.faults input.new; folder = F.faults folder.new; sink = K.faults out.new }) result }
{
    match read_all(work.alloc, input, MAX_INPUT) {
        Ok(script) => run_text(work, script.as_slice(), folder, out),
        Err(ReadAll::Failed) => Status::SourceFault,
        Err(ReadAll::TooLarge) => Status::TooLarge,
        Err(ReadAll::Memory) => Status::Memory,
    }
}

/// Runs a script that was read.
fn run_text<F: Folder, K: Sink, R: Threads + Sync, G: Gate>(
    work: &Work<'_, R, G>,
    script: &[u8],
    folder: &mut F,
    out: &mut K,
) -> Status
    requires { length script.now ≤ 2 ^ 32 }
    ensures lines { DoesNothing result → ⊥ }
    ensures ends { IsTrue F.told → (state : State) → IsStored (F.files folder.old) state
        → Ends (meaning work.now.language) (IsTrue K.told) (start state (lines_of script.now) (K.written out.old))
        (F.files folder.new) (K.written out.new) result }
    ensures canon { IsTrue F.told → (state : State) → IsStored (F.files folder.old) state → IsAnswer result
        → HasNewCanonical (F.files folder.old) (F.files folder.new) }
    ensures costs { IsTrue F.told
        → RunCosts work.now.language (lines_of script.now) (F.files folder.old) (F.files folder.new)
        (F.reads folder.old) (F.reads folder.new) result }
    ensures lasting { IsTrue F.told → KeepsCommit (F.files folder.old) (F.files folder.new) }
    ensures opened { IsTrue F.told → OpensOrStays (IsAnswer result) (F.files folder.old) (F.files folder.new) }
    ensures damage { TellsDamage (IsTrue F.told) (F.files folder.old) (F.files folder.new) result }
    ensures folder_fault { result ≡ Status.FolderFault → Rose (F.faults folder.old) (F.faults folder.new) }
    ensures sink_fault { result ≡ Status.SinkFault → Rose (K.faults out.old) (K.faults out.new) }
{
    let mut script = HeldBytes { left: script };
    run_source(work, &mut script, folder, out)
}

/// Runs a script as it comes from a source.
fn run_source<S: Source, F: Folder, K: Sink, R: Threads + Sync, G: Gate>(
    work: &Work<'_, R, G>,
    input: &mut S,
    folder: &mut F,
    out: &mut K,
) -> Status
    ensures never { (result ≡ Status.Usage) ⊎ (result ≡ Status.TooLarge) → ⊥ }
    ensures ends { IsTrue S.told → IsTrue F.told → (state : State) → IsStored (F.files folder.old) state
        → EndsSession (meaning work.now.language) (IsTrue K.told)
        (start state (lines_of (S.left input.old)) (K.written out.old)) (F.files folder.new)
        (K.written out.new) result }
    ensures lines { IsTrue S.told → IsAnswer result → S.left input.new ≡ [] }
    ensures canon { IsTrue F.told → (state : State) → IsStored (F.files folder.old) state → IsAnswer result
        → HasNewCanonical (F.files folder.old) (F.files folder.new) }
    ensures costs { IsTrue S.told → IsTrue F.told
        → RunCosts work.now.language (lines_of (S.left input.old)) (F.files folder.old) (F.files folder.new)
        (F.reads folder.old) (F.reads folder.new) result }
    ensures lasting { IsTrue F.told → KeepsCommit (F.files folder.old) (F.files folder.new) }
    ensures opened { IsTrue F.told → OpensOrStays (IsAnswer result) (F.files folder.old) (F.files folder.new) }
    ensures damage { TellsDamage (IsTrue F.told) (F.files folder.old) (F.files folder.new) result }
    ensures causes { HasCauses
        (record { source = S.faults input.old; folder = F.faults folder.old; sink = K.faults out.old })
        (record { source = S.faults input.new; folder = F.faults folder.new; sink = K.faults out.new }) result }
{
    status_of_lines(run_lines(work, input, folder, out))
}
