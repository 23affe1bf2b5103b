//! What a line of ranges says, or its first fault.

ghost use Rattle.std.specs.Prelude.{◌≡◌, ◌≤◌, ◌≢◌, ◌/◌, ◌%◌, Some, None, Err, IfOk};
ghost use Rattle.script_lang.specs.Parts.{words_left};
ghost use Rattle.script_lang.specs.Reading.{read};
ghost use Rattle.script_lang.specs.Seen.{request_of, first_request_of, IsReadAs, IsWithinLimits};
ghost use Rattle.range_docs.specs.Reading.{range_read, read_range_command, read_without_ranges, if_blank};
ghost use Rattle.range_docs.specs.Seen.{AgreesOnRanges, AddsRanges};

use crate::changes::{add, create, delete};
use crate::faults::RangeFault;
use crate::queries::find;
use crate::ranges::Question;
use script_lang::changes::{merge, name_at, word_alone};
use script_lang::lines::words_of;
use script_lang::reading::is_note;
use script_lang::words::Words;
use script_lang::{Command, First, LineFault, read_first};
use std::alloc::Global;

/// What a line of ranges says where an index of `D` dimensions is there, or the first of its faults.
#[tactic(auto, unfolding(crate::specs::Reading::range_read))]
pub fn read_range_line<const D: usize>(alloc: Global, b: &[u8]) -> Result<Command<D>, RangeFault>
    requires some { 1 ≤ D }
    requires few { D ≤ 8 }
    ensures reads { AgreesOnRanges request_of result (range_read (Some D) b.now) }
    ensures limits { IfOk result (λ command. IsWithinLimits (request_of command)) }
    ensures ranges { IfOk result (λ command. AddsRanges (D / 2) (request_of command)) }
{
    if D % 2 != 0 {
        return blank(b);
    }
    let mut words = words_of(b)?;
    let Some(verb) = words.next() else {
        return Ok(Command::Blank);
    };
    if is_note(verb) {
        return Ok(Command::Blank);
    }
    read_command(alloc, verb, words)
}

/// What a line of ranges says where no index is there, or the first of its faults. It takes no memory.
#[tactic(auto, unfolding(crate::specs::Reading::range_read))]
pub fn read_range_first(b: &[u8]) -> Result<First, RangeFault>
    ensures reads { AgreesOnRanges first_request_of result (range_read None b.now) }
    ensures limits { IfOk result (λ first. IsWithinLimits (first_request_of first)) }
    ensures no_memory { result ≢ Err RangeFault.Memory }
{
    let mut words = words_of(b)?;
    let Some(verb) = words.next() else {
        return Ok(First::Blank);
    };
    if is_note(verb) {
        return Ok(First::Blank);
    }
    if verb != "create" {
        return Err(RangeFault::Line(LineFault::NoIndex));
    }
    Ok(create(words)?)
}

/// A line on points that are no ranges: it is blank, or is refused.
fn blank<const D: usize>(b: &[u8]) -> Result<Command<D>, RangeFault>
    ensures { AgreesOnRanges request_of result (if_blank (read None b.now)) }
{
    match read_first(b) {
        Ok(First::Blank) => Ok(Command::Blank),
        _ => Err(RangeFault::NotRanges),
    }
}

/// A line by its first word and the words behind it.
#[tactic(auto, unfolding(crate::specs::Reading::read_range_command))]
fn read_command<const D: usize>(
    alloc: Global,
    verb: &str,
    words: Words<'_>,
) -> Result<Command<D>, RangeFault>
    requires some { 1 ≤ D }
    requires few { D ≤ 8 }
    requires even { D % 2 ≡ 0 }
    requires second { words.place ≡ 2 }
    ensures { AgreesOnRanges request_of result (read_range_command D verb.now (words_left words.entry)) }
{
    if verb == "add" {
        return add(alloc, words);
    }
    if verb == "intersects" {
        return find(Question::Intersects, words);
    }
    if verb == "within" {
        return find(Question::Within, words);
    }
    if verb == "contains" {
        return find(Question::Contains, words);
    }
    Ok(without_ranges(alloc, verb, words)?)
}

/// A line that names no range, by its first word and the words behind it.
#[tactic(auto, unfolding(crate::specs::Reading::read_without_ranges))]
fn without_ranges<const D: usize>(
    alloc: Global,
    verb: &str,
    words: Words<'_>,
) -> Result<Command<D>, LineFault>
    requires { words.place ≡ 2 }
    ensures { IsReadAs request_of result (read_without_ranges verb.now (words_left words.entry)) }
{
    if verb == "create" {
        return Ok(create(words)?.into());
    }
    if verb == "delete" {
        return delete(words);
    }
    if verb == "flush" {
        return word_alone(words, Command::Flush);
    }
    if verb == "merge" {
        return merge(alloc, words);
    }
    if verb == "snapshot" {
        return Ok(Command::Snapshot(name_at(words)?));
    }
    if verb == "release" {
        return Ok(Command::Release(name_at(words)?));
    }
    if verb == "commit" {
        return word_alone(words, Command::Commit);
    }
    if verb == "reopen" {
        return word_alone(words, Command::Reopen);
    }
    Err(LineFault::Unknown)
}
