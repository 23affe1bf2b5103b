//! The words of the command line: which command they name, and what its options say. They are read by a simple command
//! of
//! `clap`, and what it refuses for another cause than memory is wrong use, `--help` and `--version` among it.
#![tactic(auto)]

mod options;
mod reading;

ghost use Rattle.std.specs.Prelude.{◌≡◌, Some, None, IfOk, Err, map, string_bytes};
ghost use Rattle.command_words.specs.Commands.{IsWithin, task_in, task_of};

use byte_cursor::Bytes;
pub use reading::CACHE_PAGES;
use reading::{
    read_batch, read_check, read_count, read_explain, read_export, read_generate, read_info,
    read_load, read_ranges, read_run, read_session,
};
use std::alloc::{AllocError, AllocFailed, Global};

/// A command with what its options say. Every number and list is within the range of its option.
#[derive(Debug, Drop)]
pub enum Words {
    /// Does the lines of a script: pages that are kept at most, 1 to 65,536, and levels of a build that fork, 0 to 6.
    Run { cache_pages: u32, forks: u8 },
    /// Adds the points in these columns of a CSV file: 1 to 8 names, none of them empty.
    Load { columns: Vec<Bytes>, forks: u8 },
    /// Counts what queries would touch.
    Explain { cache_pages: u32 },
    /// Reads every page of the files that the commit lists.
    Check,
    /// Makes an index of 1 to 1,000,000 drawn points, from a seed of 1 to 2,147,483,646.
    Generate { docs: u32, seed: u32, forks: u8 },
    /// Does the lines of a script as they come, with the options of `Run`.
    Session { cache_pages: u32, forks: u8 },
    /// Counts live points in boxes and in the buckets of grids.
    Count { cache_pages: u32 },
    /// Does the lines of a script of ranges, with the options of `Run`.
    Ranges { cache_pages: u32, forks: u8 },
    /// Answers a list of queries at once: levels of the list that fork, 0 to 6.
    Batch { forks: u8 },
    /// The same, and merges the segments beside it.
    MergingBatch { forks: u8 },
    /// Writes all live documents as CSV, those of ranges by their lower and upper ends.
    Export { as_ranges: bool },
    /// Says how large the index is, and reads no leaf.
    Info,
}

/// Why words are no command.
#[derive(Clone, Copy, PartialEq, Eq, Debug)]
pub enum WordsFault {
    /// They are not those of a command.
    Usage,
    /// There was not enough memory.
    Memory,
}

impl From<AllocError> for WordsFault {
    ghost use Rattle.command_words.specs.declared.WordsFault.TheVariants as fault;

    ghost from_gives = { λ _ e. e ≡ fault.Memory };

    fn from(_failed: AllocError) -> WordsFault {
        WordsFault::Memory
    }
}

impl<T: Drop> From<AllocFailed<T>> for WordsFault {
    ghost use Rattle.command_words.specs.declared.WordsFault.TheVariants as fault;

    ghost from_gives = { λ _ e. e ≡ fault.Memory };

    fn from(_failed: AllocFailed<T>) -> WordsFault {
        WordsFault::Memory
    }
}

/// What the words after the program's own name ask for: `FOLDER COMMAND [options]`. Usage exactly where they ask for
/// nothing.
///
/// | Words | Left out |
/// |---|---|
/// | `FOLDER run [--cache N] [--forks N]` | cache 1,024; forks 1 |
/// | `FOLDER load --columns A,B [--forks N]` | forks 1 |
/// | `FOLDER explain [--cache N]` | cache 1,024 |
/// | `FOLDER check` | |
/// | `FOLDER generate --docs N --seed N [--forks N]` | forks 1 |
/// | `FOLDER session [--cache N] [--forks N]` | cache 1,024; forks 1 |
/// | `FOLDER count [--cache N]` | cache 1,024 |
/// | `FOLDER ranges [--cache N] [--forks N]` | cache 1,024; forks 1 |
/// | `FOLDER batch [--forks N] [--merge]` | forks 1; nothing is merged |
/// | `FOLDER export [--as-ranges]` | columns of points |
/// | `FOLDER info` | |
pub fn read_words(alloc: Global, words: &[String]) -> Result<Words, WordsFault>
    ensures words { IfOk result (λ w. task_in (map string_bytes words.now) ≡ Some (task_of w)) }
    ensures usage { result ≡ Err WordsFault.Usage → task_in (map string_bytes words.now) ≡ None }
    ensures ranges { IfOk result IsWithin }
{
    let [_folder, name, ..] = words else {
        return Err(WordsFault::Usage);
    };
    let command = &words[1..];
    match name.as_str() {
        "run" => read_run(alloc, command),
        "load" => read_load(alloc, command),
        "explain" => read_explain(alloc, command),
        "check" => read_check(alloc, command),
        "generate" => read_generate(alloc, command),
        "session" => read_session(alloc, command),
        "count" => read_count(alloc, command),
        "ranges" => read_ranges(alloc, command),
        "batch" => read_batch(alloc, command),
        "export" => read_export(alloc, command),
        "info" => read_info(alloc, command),
        _ => Err(WordsFault::Usage),
    }
}
