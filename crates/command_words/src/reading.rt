//! The options of each command, as `clap` finds them.

ghost use Rattle.std.specs.Prelude.{◌≡◌, ◌≢◌, Some, None, true, IfOk, Err, map, string_bytes};
ghost use Rattle.clap.specs.Words.{app_of, found_of, kind_of, rows_of};
ghost use Rattle.command_words.specs.Commands.{IsWithin, task_by, command_of, task_of, found_by, run, load, explain};
ghost use Rattle.command_words.specs.Commands.{check, generate, session, count, ranges, batch};
ghost use Rattle.command_words.specs.Commands.{export, info};
ghost use Rattle.command_words.specs.Found.{AreOptionTexts, is_plain};

use crate::options::{
    AS_RANGES, CACHE, COLUMNS, DOCS, FORKS, MERGE, SEED, columns_by, flag, has_flag, text_option,
};
use crate::{Words, WordsFault};
use clap::error::ErrorKind;
use clap::{ArgMatches, Command, Error};
use std::alloc::{AllocError, Global};

/// Pages that are kept where the words don't say how many.
pub const CACHE_PAGES: u32 = 1_024;

/// Levels that fork where the words don't say how many.
const FORK_LEVELS: u32 = 1;

/// `run [--cache N] [--forks N]`
pub(crate) fn read_run(alloc: Global, words: &[String]) -> Result<Words, WordsFault>
    ensures words { IfOk result (λ w. task_by run (map string_bytes words.now) ≡ Some (task_of w)) }
    ensures usage { result ≡ Err WordsFault.Usage → task_by run (map string_bytes words.now) ≡ None }
    ensures ranges { IfOk result IsWithin }
{
    let command = run_command(alloc)?;
    let matches = parse(command, words)?;
    Ok(Words::Run {
        cache_pages: CACHE.read(&matches).unwrap_or(CACHE_PAGES),
        forks: FORKS.read(&matches).unwrap_or(FORK_LEVELS) as u8,
    })
}

/// `load --columns A,B [--forks N]`
pub(crate) fn read_load(alloc: Global, words: &[String]) -> Result<Words, WordsFault>
    ensures words { IfOk result (λ w. task_by load (map string_bytes words.now) ≡ Some (task_of w)) }
    ensures usage { result ≡ Err WordsFault.Usage → task_by load (map string_bytes words.now) ≡ None }
    ensures ranges { IfOk result IsWithin }
{
    let command = load_command(alloc)?;
    let matches = parse(command, words)?;
    Ok(Words::Load {
        columns: columns_by(alloc, &matches)?,
        forks: FORKS.read(&matches).unwrap_or(FORK_LEVELS) as u8,
    })
}

/// Reads the words `explain [--cache N]`. Where no `N` is given it is `CACHE_PAGES`.
pub(crate) fn read_explain(alloc: Global, words: &[String]) -> Result<Words, WordsFault>
    ensures words { IfOk result (λ w. task_by explain (map string_bytes words.now) ≡ Some (task_of w)) }
    ensures usage { result ≡ Err WordsFault.Usage → task_by explain (map string_bytes words.now) ≡ None }
    ensures ranges { IfOk result IsWithin }
{
    let command = explain_command(alloc)?;
    let matches = parse(command, words)?;
    Ok(Words::Explain {
        cache_pages: CACHE.read(&matches).unwrap_or(CACHE_PAGES),
    })
}

/// Reads the word `check`, which has no options.
pub(crate) fn read_check(alloc: Global, words: &[String]) -> Result<Words, WordsFault>
    ensures words { IfOk result (λ w. task_by check (map string_bytes words.now) ≡ Some (task_of w)) }
    ensures usage { result ≡ Err WordsFault.Usage → task_by check (map string_bytes words.now) ≡ None }
    ensures ranges { IfOk result IsWithin }
{
    parse(Command::new(alloc, "check"), words)?;
    Ok(Words::Check)
}

/// `generate --docs N --seed N [--forks N]`
pub(crate) fn read_generate(alloc: Global, words: &[String]) -> Result<Words, WordsFault>
    ensures words { IfOk result (λ w. task_by generate (map string_bytes words.now) ≡ Some (task_of w)) }
    ensures usage { result ≡ Err WordsFault.Usage → task_by generate (map string_bytes words.now) ≡ None }
    ensures ranges { IfOk result IsWithin }
{
    let command = generate_command(alloc)?;
    let matches = parse(command, words)?;
    let docs = DOCS.read(&matches).ok_or(WordsFault::Usage)?;
    let seed = SEED.read(&matches).ok_or(WordsFault::Usage)?;
    let forks = FORKS.read(&matches).unwrap_or(FORK_LEVELS) as u8;
    Ok(Words::Generate { docs, seed, forks })
}

/// `session [--cache N] [--forks N]`
pub(crate) fn read_session(alloc: Global, words: &[String]) -> Result<Words, WordsFault>
    ensures words { IfOk result (λ w. task_by session (map string_bytes words.now) ≡ Some (task_of w)) }
    ensures usage { result ≡ Err WordsFault.Usage → task_by session (map string_bytes words.now) ≡ None }
    ensures ranges { IfOk result IsWithin }
{
    let command = session_command(alloc)?;
    let matches = parse(command, words)?;
    Ok(Words::Session {
        cache_pages: CACHE.read(&matches).unwrap_or(CACHE_PAGES),
        forks: FORKS.read(&matches).unwrap_or(FORK_LEVELS) as u8,
    })
}

/// Reads the words `count [--cache N]`. Where no `N` is given it is `CACHE_PAGES`.
pub(crate) fn read_count(alloc: Global, words: &[String]) -> Result<Words, WordsFault>
    ensures words { IfOk result (λ w. task_by count (map string_bytes words.now) ≡ Some (task_of w)) }
    ensures usage { result ≡ Err WordsFault.Usage → task_by count (map string_bytes words.now) ≡ None }
    ensures ranges { IfOk result IsWithin }
{
    let command = count_command(alloc)?;
    let matches = parse(command, words)?;
    Ok(Words::Count {
        cache_pages: CACHE.read(&matches).unwrap_or(CACHE_PAGES),
    })
}

/// `ranges [--cache N] [--forks N]`
pub(crate) fn read_ranges(alloc: Global, words: &[String]) -> Result<Words, WordsFault>
    ensures words { IfOk result (λ w. task_by ranges (map string_bytes words.now) ≡ Some (task_of w)) }
    ensures usage { result ≡ Err WordsFault.Usage → task_by ranges (map string_bytes words.now) ≡ None }
    ensures ranges { IfOk result IsWithin }
{
    let command = ranges_command(alloc)?;
    let matches = parse(command, words)?;
    Ok(Words::Ranges {
        cache_pages: CACHE.read(&matches).unwrap_or(CACHE_PAGES),
        forks: FORKS.read(&matches).unwrap_or(FORK_LEVELS) as u8,
    })
}

/// Reads the words `batch [--forks N] [--merge]`. Where no `N` is given it is `FORK_LEVELS`.
pub(crate) fn read_batch(alloc: Global, words: &[String]) -> Result<Words, WordsFault>
    ensures words { IfOk result (λ w. task_by batch (map string_bytes words.now) ≡ Some (task_of w)) }
    ensures usage { result ≡ Err WordsFault.Usage → task_by batch (map string_bytes words.now) ≡ None }
    ensures ranges { IfOk result IsWithin }
{
    let command = batch_command(alloc)?;
    let matches = parse(command, words)?;
    let forks = FORKS.read(&matches).unwrap_or(FORK_LEVELS) as u8;
    if has_flag(&matches, MERGE) {
        Ok(Words::MergingBatch { forks })
    } else {
        Ok(Words::Batch { forks })
    }
}

/// Reads the words `export [--as-ranges]`.
pub(crate) fn read_export(alloc: Global, words: &[String]) -> Result<Words, WordsFault>
    ensures words { IfOk result (λ w. task_by export (map string_bytes words.now) ≡ Some (task_of w)) }
    ensures usage { result ≡ Err WordsFault.Usage → task_by export (map string_bytes words.now) ≡ None }
    ensures ranges { IfOk result IsWithin }
{
    let command = export_command(alloc)?;
    let matches = parse(command, words)?;
    Ok(Words::Export {
        as_ranges: has_flag(&matches, AS_RANGES),
    })
}

/// Reads the word `info`, which has no options.
pub(crate) fn read_info(alloc: Global, words: &[String]) -> Result<Words, WordsFault>
    ensures words { IfOk result (λ w. task_by info (map string_bytes words.now) ≡ Some (task_of w)) }
    ensures usage { result ≡ Err WordsFault.Usage → task_by info (map string_bytes words.now) ≡ None }
    ensures ranges { IfOk result IsWithin }
{
    parse(Command::new(alloc, "info"), words)?;
    Ok(Words::Info)
}

fn run_command<'a>(alloc: Global) -> Result<Command<'a>, AllocError>
    ensures { IfOk result (λ c. app_of c ≡ command_of run) }
{
    Command::new(alloc, "run")
        .arg(CACHE.arg(alloc))?
        .arg(FORKS.arg(alloc))
}

fn load_command<'a>(alloc: Global) -> Result<Command<'a>, AllocError>
    ensures { IfOk result (λ c. app_of c ≡ command_of load) }
{
    Command::new(alloc, "load")
        .arg(text_option(alloc, COLUMNS).required(true))?
        .arg(FORKS.arg(alloc))
}

fn explain_command<'a>(alloc: Global) -> Result<Command<'a>, AllocError>
    ensures { IfOk result (λ c. app_of c ≡ command_of explain) }
{
    Command::new(alloc, "explain").arg(CACHE.arg(alloc))
}

fn generate_command<'a>(alloc: Global) -> Result<Command<'a>, AllocError>
    ensures { IfOk result (λ c. app_of c ≡ command_of generate) }
{
    Command::new(alloc, "generate")
        .arg(DOCS.arg(alloc).required(true))?
        .arg(SEED.arg(alloc).required(true))?
        .arg(FORKS.arg(alloc))
}

fn session_command<'a>(alloc: Global) -> Result<Command<'a>, AllocError>
    ensures { IfOk result (λ c. app_of c ≡ command_of session) }
{
    Command::new(alloc, "session")
        .arg(CACHE.arg(alloc))?
        .arg(FORKS.arg(alloc))
}

fn count_command<'a>(alloc: Global) -> Result<Command<'a>, AllocError>
    ensures { IfOk result (λ c. app_of c ≡ command_of count) }
{
    Command::new(alloc, "count").arg(CACHE.arg(alloc))
}

fn ranges_command<'a>(alloc: Global) -> Result<Command<'a>, AllocError>
    ensures { IfOk result (λ c. app_of c ≡ command_of ranges) }
{
    Command::new(alloc, "ranges")
        .arg(CACHE.arg(alloc))?
        .arg(FORKS.arg(alloc))
}

fn batch_command<'a>(alloc: Global) -> Result<Command<'a>, AllocError>
    ensures { IfOk result (λ c. app_of c ≡ command_of batch) }
{
    Command::new(alloc, "batch")
        .arg(FORKS.arg(alloc))?
        .arg(flag(alloc, MERGE))
}

fn export_command<'a>(alloc: Global) -> Result<Command<'a>, AllocError>
    ensures { IfOk result (λ c. app_of c ≡ command_of export) }
{
    Command::new(alloc, "export").arg(flag(alloc, AS_RANGES))
}

/// What the command finds in the words.
fn parse<'a>(command: Command<'a>, words: &'a [String]) -> Result<ArgMatches<'a>, WordsFault>
    requires plain { is_plain (app_of command) ≡ true }
    ensures rows { IfOk result
        (λ m. found_by (app_of command.entry) (map string_bytes words.entry.now) ≡ Some (rows_of (found_of m))) }
    ensures found { IfOk result (λ m. AreOptionTexts (found_of m) (app_of command.entry).top.rules) }
    ensures usage { result ≡ Err WordsFault.Usage
        → found_by (app_of command.entry) (map string_bytes words.entry.now) ≡ None }
{
    match command.try_get_matches_from(words) {
        Ok(matches) => Ok(matches),
        Err(error) => Err(fault_of(&error)),
    }
}

/// Whether `clap` had too little memory, or the words are wrong.
fn fault_of(error: &Error) -> WordsFault
    ensures { result ≡ WordsFault.Usage → kind_of error.now ≢ ErrorKind.OutOfMemory }
{
    match error.kind() {
        ErrorKind::OutOfMemory => WordsFault::Memory,
        _ => WordsFault::Usage,
    }
}
