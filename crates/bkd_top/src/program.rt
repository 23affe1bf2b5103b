//! The top call, `run`: which command the words ask for, and the contract of the whole program.

ghost use Rattle.std.specs.Prelude.{◌≡◌, ◌++◌, map, true, false, None, IsTrue, string_bytes};
ghost use Rattle.index_model.specs.State.{State};
ghost use Rattle.stored_index.specs.Stored.{IsStored};
ghost use Rattle.run_status.specs.Ends.{DoesNothing};
ghost use Rattle.command_words.specs.Commands.{IsWithin, task_in, task_of};
ghost use Rattle.index_core.specs.Brought.{KeepsCommit};
ghost use Rattle.index_core.specs.Whole.{HasNewCanonical};
ghost use Rattle.run_status.specs.Causes.{HasCauses};
ghost use Rattle.bkd_top.specs.Calls.{LeavesTask, OpensTask, Promises, TakesInput, TellsDamage};
ghost use Rattle.bkd_top.specs.Headline.{IsRun, script_end, script_text};
ghost use Rattle.run_status.specs.Ends.{IsAnswer};
ghost use Rattle.bkd_top.specs.Commands.{EndsTask, does, is_session, reads_input, reads_whole};

use crate::check::{run_check, run_info};
use crate::loads::{run_generate, run_load};
use crate::scripts::{run_ranges, run_script, run_session};
use batch_queries::{run_batch, run_merging_batch};
use bkd_build::Gate;
use command_words::{Words, WordsFault, read_words};
use count_queries::run_count;
use explain_queries::run_explain;
use export_points::run_export;
use index_core::Settings;
use outer_io::{Folder, Sink, Source};
use run_status::Status;
use std::alloc::Global;
use std::marker::Sync;
use std::thread::Threads;

/// Runs the program with these words: a folder, a command and its options.
///
/// | Command | What it does |
/// |---|---|
/// | `run` | does the lines of a script one after the other on the stored index, and commits at the end what changed |
/// | `load` | adds all points of a CSV file, commits, and says how many |
/// | `explain` | says of each query how much of the stored segments it tests and touches, and how much it finds |
/// | `check` | reads every page of the listed files, and says how large the index is, or ends with the first damage |
/// | `generate` | makes an index of drawn documents, commits, and says what drawn queries find in it |
/// | `session` | does the lines of a script as `run` does, each as soon as it has come |
/// | `count` | says how many live points lie in a box, or in each bucket of a grid |
/// | `ranges` | does the lines of a script over documents that have ranges, as `run` does those over points |
/// | `batch` | answers queries from a copy of the index in memory by threads; segments may be merged beside that |
/// | `export` | writes all live documents as CSV, a record for each point |
/// | `info` | says how large the index is, by what opening it reads |
///
/// **The headline.** On a folder that stores an index, or none, what `run` writes is, line for line, what a scan of the
/// live documents answers to the script's adds, deletes and queries, whatever flushes, merges, snapshots and
/// reopenings stand between, and the folder stores the documents then live. The status is Done, or SomeRefused with
/// the number of the refused lines, whichever call failed. The other commands write and leave what their definitions
/// say (`specs/Commands`).
pub fn run<S: Source, F: Folder, K: Sink, R: Threads + Sync, G: Gate>(
    rt: &R,
    alloc: Global,
    words: &[String],
    input: &mut S,
    folder: &mut F,
    out: &mut K,
    gate: &G,
) -> Status
    ensures all { Promises (IsTrue F.told) (task_in (map string_bytes words.now))
        (record {
          source = S.told;
          sink = K.told;
          input = S.left input.old;
          old = F.files folder.old;
          new = F.files folder.new;
          written = K.written out.old;
          written_now = K.written out.new;
          before = F.reads folder.old;
          now = F.reads folder.new;
        })
        (S.left input.new)
        (record { source = S.faults input.old; folder = F.faults folder.old; sink = K.faults out.old })
        (record { source = S.faults input.new; folder = F.faults folder.new; sink = K.faults out.new }) result }
    // what a scan of the live documents answers, line for line, and a folder that stores the documents then live
    ensures headline { IsTrue F.told → IsTrue S.told → IsTrue K.told → IsRun (task_in (map string_bytes words.now))
        → (state : State) → IsStored (F.files folder.old) state → IsAnswer result
        → (K.written out.new ≡ K.written out.old ++ script_text state (S.left input.old))
        × IsStored (F.files folder.new) (script_end state (S.left input.old)) }
    // what reads no input leaves it, what does nothing leaves all three, and so do words of no command
    ensures unread { does (λ a. reads_input a) (task_in (map string_bytes words.now)) ≡ false → input.new ≡ input.old }
    ensures untouched { does (λ a. is_session a) (task_in (map string_bytes words.now)) ≡ false → DoesNothing result
        → (folder.new ≡ folder.old) × (out.new ≡ out.old) }
    ensures unasked { task_in (map string_bytes words.now) ≡ None → (folder.new ≡ folder.old) × (out.new ≡ out.old) }
{
    match read_words(alloc, words) {
        Ok(words) => run_command(rt, alloc, words, input, folder, out, gate),
        Err(WordsFault::Usage) => Status::Usage,
        Err(WordsFault::Memory) => Status::Memory,
    }
}

/// Runs the command that the words ask for.
fn run_command<S: Source, F: Folder, K: Sink, R: Threads + Sync, G: Gate>(
    rt: &R,
    alloc: Global,
    words: Words,
    input: &mut S,
    folder: &mut F,
    out: &mut K,
    gate: &G,
) -> Status
    requires { IsWithin words }
    ensures never_usage { result ≡ Status.Usage → ⊥ }
    ensures ends { IsTrue F.told → (state : State) → IsStored (F.files folder.old) state
        → (reads_input (task_of words) ≡ true → IsTrue S.told)
        → EndsTask (IsTrue K.told) (task_of words)
        (record { state = state; files = F.files folder.old; input = S.left input.old; written = K.written out.old })
        (F.files folder.new) (K.written out.new) result }
    ensures input { IsTrue S.told → TakesInput (task_of words) (S.left input.old) (S.left input.new) result }
    ensures unread { reads_input (task_of words) ≡ false → input.new ≡ input.old }
    ensures large { result ≡ Status.TooLarge → reads_whole (task_of words) ≡ true }
    ensures untouched { is_session (task_of words) ≡ false → DoesNothing result → (folder.new ≡ folder.old)
        × (out.new ≡ out.old) }
    ensures canon { IsTrue F.told → (state : State) → IsStored (F.files folder.old) state → IsAnswer result
        → HasNewCanonical (F.files folder.old) (F.files folder.new) }
    ensures leaves { IsTrue F.told → LeavesTask (task_of words)
        (record {
          source = S.told;
          sink = K.told;
          input = S.left input.old;
          old = F.files folder.old;
          new = F.files folder.new;
          written = K.written out.old;
          written_now = K.written out.new;
          before = F.reads folder.old;
          now = F.reads folder.new;
        }) result }
    ensures lasting { IsTrue F.told → KeepsCommit (F.files folder.old) (F.files folder.new) }
    ensures opened { IsTrue F.told
        → OpensTask (task_of words) (F.files folder.old) (F.files folder.new) result }
    ensures damage { TellsDamage (IsTrue F.told) (F.files folder.old) (F.files folder.new) result }
    ensures causes { HasCauses
        (record { source = S.faults input.old; folder = F.faults folder.old; sink = K.faults out.old })
        (record { source = S.faults input.new; folder = F.faults folder.new; sink = K.faults out.new }) result }
{
    match words {
        Words::Run { cache_pages, forks } => {
            let settings = Settings { cache_pages, forks };
            run_script(rt, alloc, settings, input, folder, out, gate)
        }
        Words::Load { columns, forks } => {
            run_load(
                rt,
                alloc,
                columns.as_slice(),
                forks,
                input,
                folder,
                out,
                gate,
            )
        }
        Words::Explain { cache_pages } => run_explain(alloc, cache_pages, input, folder, out),
        Words::Check => run_check(alloc, folder, out),
        Words::Generate { docs, seed, forks } => {
            run_generate(rt, alloc, docs, seed, forks, folder, out, gate)
        }
        Words::Session { cache_pages, forks } => {
            let settings = Settings { cache_pages, forks };
            run_session(rt, alloc, settings, input, folder, out, gate)
        }
        Words::Count { cache_pages } => run_count(alloc, cache_pages, input, folder, out),
        Words::Ranges { cache_pages, forks } => {
            let settings = Settings { cache_pages, forks };
            run_ranges(rt, alloc, settings, input, folder, out, gate)
        }
        Words::Batch { forks } => run_batch(rt, alloc, forks, input, folder, out, gate),
        Words::MergingBatch { forks } => {
            run_merging_batch(rt, alloc, forks, input, folder, out, gate)
        }
        Words::Export { as_ranges } => run_export(alloc, as_ranges, folder, out),
        Words::Info => run_info(alloc, folder, out),
    }
}
