//! Commands that are done at once, with one text: loading and generating.

ghost use Rattle.std.specs.Prelude.{◌≡◌, ◌≤◌, ℕ, Bool, true, List, length, [], IsTrue, IsOk, Ok};
ghost use Rattle.outer_io.specs.Faults.{Rose};
ghost use Rattle.outer_io.specs.Files.{Files};
ghost use Rattle.page_cache.specs.Causes.{HasPageCause};
ghost use Rattle.page_cache.specs.Evidence.{NotDamaged, OnDamage};
ghost use Rattle.index_model.specs.Script.{Answer};
ghost use Rattle.index_model.specs.State.{State};
ghost use Rattle.stored_index.specs.Stored.{IsStored};
ghost use Rattle.index_opening.specs.Evidence.{IsEvident};
ghost use Rattle.drawn_points.specs.Generated.{generate_answer};
ghost use Rattle.load_points.specs.Loaded.{load_answer};
ghost use Rattle.commands.specs.Opens.{OpensOrStays, ReadsOrStays};
ghost use Rattle.index_core.specs.Brought.{KeepsCommit};
ghost use Rattle.index_core.specs.Steps.{KeepsUndone};
ghost use Rattle.index_core.specs.Whole.{DoesWhole, HasNewCanonical};
ghost use Rattle.run_status.specs.Causes.{HasCauses, ReadsInput};
ghost use Rattle.bkd_top.specs.Calls.{TellsDamage, WholeLeaves};
ghost use Rattle.script_run.specs.Kept.{StatusKeeps};
ghost use Rattle.run_status.specs.Ends.{IsAnswer};
ghost use Rattle.bkd_top.specs.Commands.{Before, EndsWhole};
ghost use Rattle.run_status.specs.Ends.{DoesNothing, IsDamaged, OnStatusDamage};

use bkd_build::Gate;
use byte_cursor::Bytes;
use command_words::CACHE_PAGES;
use generate_index::generate;
use index_core::{Settings, Work};
use load_points::load;
use outer_io::{Folder, ReadAll, Sink, Source, read_all};
use page_cache::PageFault;
use run_status::{MAX_INPUT, Status, send, status_of, stopped};
use std::alloc::Global;
use std::marker::Sync;
use std::thread::Threads;

/// The command `load`: adds the points of a CSV file, whose columns of these names are the dimensions, and commits.
/// It says how many came and the number of the next document, or the first refusal, which leaves the folder's files.
pub fn run_load<S: Source, F: Folder, K: Sink, R: Threads + Sync, G: Gate>(
    rt: &R,
    alloc: Global,
    columns: &[Bytes],
    forks: u8,
    input: &mut S,
    folder: &mut F,
    out: &mut K,
    gate: &G,
) -> Status
    requires some { 1 ≤ length columns.now }
    requires few { length columns.now ≤ 8 }
    requires forks { forks ≤ 6 }
    ensures never_usage { result ≡ Status.Usage → ⊥ }
    ensures ends { IsTrue S.told → IsTrue F.told → (state : State) → IsStored (F.files folder.old) state
        → EndsWhole (IsTrue K.told)
        (record { state = state; files = F.files folder.old; input = S.left input.old; written = K.written out.old })
        (load_answer state (S.left input.old) columns.now) (F.files folder.new) (K.written out.new) result }
    ensures input { IsTrue S.told → ReadsInput (S.left input.old) (S.left input.new) result }
    ensures untouched { DoesNothing result → (folder.new ≡ folder.old) × (out.new ≡ out.old) }
    ensures canon { IsTrue F.told → (state : State) → IsStored (F.files folder.old) state → IsAnswer result
        → HasNewCanonical (F.files folder.old) (F.files folder.new) }
    ensures whole { IsTrue F.told → WholeLeaves (F.files folder.old) (F.files folder.new) result }
    ensures lasting { IsTrue F.told → KeepsCommit (F.files folder.old) (F.files folder.new) }
    ensures opened { IsTrue F.told → OpensOrStays (IsAnswer result) (F.files folder.old) (F.files folder.new) }
    ensures damage { TellsDamage (IsTrue F.told) (F.files folder.old) (F.files folder.new) result }
    ensures causes { HasCauses
        (record { source = S.faults input.old; folder = F.faults folder.old; sink = K.faults out.old })
        (record { source = S.faults input.new; folder = F.faults folder.new; sink = K.faults out.new }) result }
{
    match read_all(alloc, input, MAX_INPUT) {
        Ok(file) => load_file(
            rt,
            alloc,
            columns,
            forks,
            file.as_slice(),
            folder,
            out,
            gate,
        ),
        Err(ReadAll::Failed) => Status::SourceFault,
        Err(ReadAll::TooLarge) => Status::TooLarge,
        Err(ReadAll::Memory) => Status::Memory,
    }
}

/// Loads a file that was read.
fn load_file<F: Folder, K: Sink, R: Threads + Sync, G: Gate>(
    rt: &R,
    alloc: Global,
    columns: &[Bytes],
    forks: u8,
    file: &[u8],
    folder: &mut F,
    out: &mut K,
    gate: &G,
) -> Status
    requires some { 1 ≤ length columns.now }
    requires few { length columns.now ≤ 8 }
    requires forks { forks ≤ 6 }
    ensures done { DoesNothing result → ⊥ }
    ensures ends { IsTrue F.told → (state : State) → IsStored (F.files folder.old) state
        → EndsWhole (IsTrue K.told)
        (record { state = state; files = F.files folder.old; input = file.now; written = K.written out.old })
        (load_answer state file.now columns.now) (F.files folder.new) (K.written out.new) result }
    ensures canon { IsTrue F.told → (state : State) → IsStored (F.files folder.old) state → IsAnswer result
        → HasNewCanonical (F.files folder.old) (F.files folder.new) }
    ensures whole { IsTrue F.told → WholeLeaves (F.files folder.old) (F.files folder.new) result }
    ensures lasting { IsTrue F.told → KeepsCommit (F.files folder.old) (F.files folder.new) }
    ensures opened { IsTrue F.told → OpensOrStays (IsAnswer result) (F.files folder.old) (F.files folder.new) }
    ensures damage { TellsDamage (IsTrue F.told) (F.files folder.old) (F.files folder.new) result }
    ensures folder_fault { result ≡ Status.FolderFault → Rose (F.faults folder.old) (F.faults folder.new) }
    ensures sink_fault { result ≡ Status.SinkFault → Rose (K.faults out.old) (K.faults out.new) }
{
    let work = Work {
        rt,
        alloc,
        settings: Settings {
            cache_pages: CACHE_PAGES,
            forks,
        },
        gate,
    };
    let mut text = Vec::new(alloc);
    let done = load(&work, columns, file, folder, &mut text);
    tell(out, done, text.as_slice())
}

/// The command `generate`: makes an index of so many drawn documents, deletes every tenth, and says what drawn
/// queries find. The input is not read.
pub fn run_generate<F: Folder, K: Sink, R: Threads + Sync, G: Gate>(
    rt: &R,
    alloc: Global,
    docs: u32,
    seed: u32,
    forks: u8,
    folder: &mut F,
    out: &mut K,
    gate: &G,
) -> Status
    requires docs { docs ≤ 1000000 }
    requires forks { forks ≤ 6 }
    ensures done { DoesNothing result → ⊥ }
    ensures ends { IsTrue F.told → (state : State) → IsStored (F.files folder.old) state → (input : List ℕ)
        → EndsWhole (IsTrue K.told)
        (record { state = state; files = F.files folder.old; input = input; written = K.written out.old })
        (generate_answer state docs seed) (F.files folder.new) (K.written out.new) result }
    ensures canon { IsTrue F.told → (state : State) → IsStored (F.files folder.old) state → IsAnswer result
        → HasNewCanonical (F.files folder.old) (F.files folder.new) }
    ensures whole { IsTrue F.told → WholeLeaves (F.files folder.old) (F.files folder.new) result }
    ensures lasting { IsTrue F.told → KeepsCommit (F.files folder.old) (F.files folder.new) }
    ensures opened { IsTrue F.told → ReadsOrStays (IsAnswer result) (F.files folder.old) (F.files folder.new) }
    ensures damage { TellsDamage (IsTrue F.told) (F.files folder.old) (F.files folder.new) result }
    ensures folder_fault { result ≡ Status.FolderFault → Rose (F.faults folder.old) (F.faults folder.new) }
    ensures sink_fault { result ≡ Status.SinkFault → Rose (K.faults out.old) (K.faults out.new) }
{
    let work = Work {
        rt,
        alloc,
        settings: Settings {
            cache_pages: CACHE_PAGES,
            forks,
        },
        gate,
    };
    let mut text = Vec::new(alloc);
    let done = generate(&work, docs, seed, folder, &mut text);
    tell(out, done, text.as_slice())
}

/// Sends the text of a command that is done or refused, and says how it ended.
fn tell<K: Sink>(out: &mut K, done: Result<bool, PageFault>, text: &[u8]) -> Status
    ensures done { DoesNothing result → ⊥ }
    ensures ends { (b : Before) → (a : Answer) → (files : Files) → DoesWhole files b.state a [] text.now done
        → b.written ≡ K.written out.old
        → EndsWhole (IsTrue K.told) b a files (K.written out.new) result }
    ensures answer { IsAnswer result → IsOk done }
    ensures refused { (count : ℕ) → result ≡ Status.SomeRefused count → done ≡ Ok true }
    ensures undone { (old new : Files) → KeepsUndone old new done → StatusKeeps old new result }
    ensures folder_fault { (old new : ℕ) → HasPageCause old new done → result ≡ Status.FolderFault → Rose old new }
    ensures damaged { NotDamaged done → IsDamaged result → ⊥ }
    ensures evident { (told : Bool) (files : Files) → OnDamage done (IsEvident (IsTrue told) files)
        → OnStatusDamage result (IsEvident (IsTrue told) files) }
    ensures sink_fault { result ≡ Status.SinkFault → Rose (K.faults out.old) (K.faults out.new) }
{
    match done {
        Ok(refused) => status_of(send(out, text, u64::from(refused))),
        Err(fault) => status_of(stopped(fault)),
    }
}
