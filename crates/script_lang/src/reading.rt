//! What a line says, or its first fault.

ghost use Rattle.std.specs.Prelude.{◌≡◌, ◌≤◌, ◌≢◌, Some, None, Err, IfOk, ◌==◌, slice_index};
ghost use Rattle.script_lang.specs.Parts.{words_left};
ghost use Rattle.script_lang.specs.Reading.{read, read_command};
ghost use Rattle.script_lang.specs.Seen.{request_of, first_request_of, IsReadAs, IsWithinLimits};

use crate::changes::{add, create, delete, merge, name_at, word_alone};
use crate::commands::{Command, First};
use crate::faults::LineFault;
use crate::lines::words_of;
use crate::queries::{in_box, nearest, polygon};
use crate::words::Words;
use std::alloc::Global;

/// What a line of a script says where an index of `D` dimensions is there, or the first of its faults.
#[tactic(auto, unfolding(crate::specs::Reading::read))]
pub fn read_line<const D: usize>(alloc: Global, b: &[u8]) -> Result<Command<D>, LineFault>
    requires some { 1 ≤ D }
    requires few { D ≤ 8 }
    ensures reads { IsReadAs request_of result (read (Some D) b.now) }
    ensures limits { IfOk result (λ command. IsWithinLimits (request_of command)) }
{
    let mut words = words_of(b)?;
    let Some(verb) = words.next() else {
        return Ok(Command::Blank);
    };
    if is_note(verb) {
        return Ok(Command::Blank);
    }
    read_command(alloc, verb, words)
}

/// What a line of a script says where no index is there, or the first of its faults. It takes no memory.
#[tactic(auto, unfolding(crate::specs::Reading::read))]
pub fn read_first(b: &[u8]) -> Result<First, LineFault>
    ensures reads { IsReadAs first_request_of result (read None b.now) }
    ensures limits { IfOk result (λ first. IsWithinLimits (first_request_of first)) }
    ensures no_memory { result ≢ Err LineFault.Memory }
{
    let mut words = words_of(b)?;
    let Some(verb) = words.next() else {
        return Ok(First::Blank);
    };
    if is_note(verb) {
        return Ok(First::Blank);
    }
    if verb != "create" {
        return Err(LineFault::NoIndex);
    }
    create(words)
}

/// Whether a line that begins with this word is a note.
pub fn is_note(verb: &str) -> bool
    ensures { result ≡ (slice_index verb.now 0 == 35) }
{
    matches!(verb.as_bytes(), [b'#', ..])
}

/// A line by its first word and the words behind it.
#[tactic(auto, unfolding(crate::specs::Reading::read_command))]
fn read_command<const D: usize>(
    alloc: Global,
    verb: &str,
    words: Words<'_>,
) -> Result<Command<D>, LineFault>
    requires some { 1 ≤ D }
    requires few { D ≤ 8 }
    requires second { words.place ≡ 2 }
    ensures { IsReadAs request_of result (read_command D verb.now (words_left words.entry) words.entry.text.now) }
{
    if verb == "create" {
        return Ok(create(words)?.into());
    }
    if verb == "add" {
        return add(alloc, words);
    }
    if verb == "delete" {
        return delete(words);
    }
    if verb == "box" {
        return in_box(words);
    }
    if verb == "polygon" {
        return polygon(alloc, words);
    }
    if verb == "nearest" {
        return nearest(words);
    }
    if verb == "flush" {
        return word_alone(words, Command::Flush);
    }
    if verb == "merge" {
        return merge(alloc, words);
    }
    if verb == "snapshot" {
        return Ok(Command::Snapshot(name_at(words)?));
    }
    if verb == "release" {
        return Ok(Command::Release(name_at(words)?));
    }
    if verb == "commit" {
        return word_alone(words, Command::Commit);
    }
    if verb == "reopen" {
        return word_alone(words, Command::Reopen);
    }
    Err(LineFault::Unknown)
}
