//! The options of the commands.

ghost use Rattle.std.specs.Prelude.{◌≡◌, ◌≢◌, ◌≤◌, ◌==◌, false, Some, None, IfOk, IfSome, Err, option_map, map};
ghost use Rattle.std.specs.List.{slice_split};
ghost use Rattle.clap.specs.Words.{first_of, found_of, rows_of, rule_of};
ghost use Rattle.command_words.specs.Commands.{AreColumns, text_option, number_option, number_of, are_names};
ghost use Rattle.command_words.specs.Commands.{columns_by, flag, is_set, names_of};
ghost use Rattle.command_words.specs.Found.{IsOptionText};

use crate::WordsFault;
use byte_cursor::Bytes;
use clap::{Arg, ArgAction, ArgMatches, value_parser};
use std::alloc::{AllocError, Global};

/// How many columns a point may have.
const MOST_COLUMNS: usize = 8;

/// The option that names columns.
pub(crate) const COLUMNS: &str = "columns";

/// The flag that merges segments beside a batch.
pub(crate) const MERGE: &str = "merge";

/// The flag that names the columns of an export as those of ranges.
pub(crate) const AS_RANGES: &str = "as-ranges";

/// An option that takes a number from `least` to `greatest`, as `--cache 16`.
#[derive(Clone, Copy)]
pub(crate) struct NumberOption {
    name: &'static str,
    least: u32,
    greatest: u32,
}

pub(crate) const CACHE: NumberOption = NumberOption {
    name: "cache",
    least: 1,
    greatest: 65_536,
};

pub(crate) const FORKS: NumberOption = NumberOption {
    name: "forks",
    least: 0,
    greatest: 6,
};

pub(crate) const DOCS: NumberOption = NumberOption {
    name: "docs",
    least: 1,
    greatest: 1_000_000,
};

pub(crate) const SEED: NumberOption = NumberOption {
    name: "seed",
    least: 1,
    greatest: 2_147_483_646,
};

impl NumberOption {
    /// The option as an argument of `clap`.
    pub(crate) fn arg<'a>(self, alloc: Global) -> Arg<'a>
        ensures rule { rule_of result ≡ number_option self.name.now self.least self.greatest }
        ensures local { result.global ≡ false }
    {
        let range = i64::from(self.least)..=i64::from(self.greatest);
        text_option(alloc, self.name).value_parser(value_parser!(u32).range(range))
    }

    /// The number that the words give, if they have the option.
    pub(crate) fn read(self, matches: &ArgMatches<'_>) -> Option<u32>
        requires { IsOptionText (found_of matches.now) (number_option self.name.now self.least self.greatest) }
        ensures number { result ≡ option_map number_of (first_of self.name.now (rows_of (found_of matches.now))) }
        ensures range { IfSome result (λ n. (self.least ≤ n) × (n ≤ self.greatest)) }
    {
        matches.get_one::<u32>(self.name)
    }
}

/// An option that takes a text.
pub(crate) fn text_option<'a>(alloc: Global, name: &'a str) -> Arg<'a>
    ensures rule { rule_of result ≡ text_option name.entry.now }
    ensures local { result.global ≡ false }
{
    Arg::new(alloc, name).long(name)
}

/// An option without a value, which is set or not.
pub(crate) fn flag<'a>(alloc: Global, name: &'a str) -> Arg<'a>
    ensures rule { rule_of result ≡ flag name.entry.now }
    ensures local { result.global ≡ false }
{
    text_option(alloc, name).action(ArgAction::SetTrue)
}

/// Whether the words set a flag.
pub(crate) fn has_flag(matches: &ArgMatches<'_>, name: &str) -> bool
    ensures { result ≡ is_set name.now (rows_of (found_of matches.now)) }
{
    match matches.get_str(name) {
        Some(text) => text == "true",
        None => false,
    }
}

/// The columns that the words name.
pub(crate) fn columns_by(alloc: Global, matches: &ArgMatches<'_>) -> Result<Vec<Bytes>, WordsFault>
    ensures names { IfOk result (λ names. columns_by (rows_of (found_of matches.now)) ≡ Some names.items) }
    ensures usage { result ≡ Err WordsFault.Usage → columns_by (rows_of (found_of matches.now)) ≡ None }
    ensures range { IfOk result (λ names. AreColumns names.items) }
{
    match matches.get_str(COLUMNS) {
        Some(text) => names_of(alloc, text),
        None => Err(WordsFault::Usage),
    }
}

/// The names between the commas: 1 to 8, none of them empty.
fn names_of(alloc: Global, text: &str) -> Result<Vec<Bytes>, WordsFault>
    ensures names { IfOk result (λ names. names_of text.now ≡ Some names.items) }
    ensures usage { result ≡ Err WordsFault.Usage → names_of text.now ≡ None }
    ensures range { IfOk result (λ names. AreColumns names.items) }
{
    let parts = parts_of(alloc, text)?;
    if are_names(parts.as_slice()) {
        bytes_of(alloc, parts.as_slice())
    } else {
        Err(WordsFault::Usage)
    }
}

/// What stands between the commas.
fn parts_of(alloc: Global, text: &str) -> Result<Vec<&str>, AllocError>
    ensures { IfOk result (λ parts. map (λ part. part.now) parts.items ≡ slice_split (λ b. b == 44) text.now) }
{
    text.split(',').collect(alloc)
}

/// Whether there are few enough, and none is empty.
fn are_names(parts: &[&str]) -> bool
    ensures { result ≡ are_names (map (λ part. part.now) parts.now) }
{
    (parts.len() <= MOST_COLUMNS) & parts.iter().all(|part| !part.is_empty())
}

/// Copies of the texts, in their order. Only want of memory is answered as a fault.
fn bytes_of(alloc: Global, parts: &[&str]) -> Result<Vec<Bytes>, WordsFault>
    ensures texts { IfOk result (λ texts. texts.items ≡ map (λ part. part.now) parts.now) }
    ensures memory { result ≢ Err WordsFault.Usage }
{
    let mut texts = Vec::with_capacity(alloc, parts.len())?;
    for part in parts {
        texts.push(Bytes::new(part.as_bytes().to_vec(alloc)?))?;
    }
    Ok(texts)
}
