//! The words of a line of counts.

ghost use Rattle.std.specs.Prelude.{◌≡◌, ◌≤◌, None, Some};
ghost use Rattle.script_lang.specs.Parts.{words_left};
ghost use Rattle.count_queries.specs.Asks.{read_counts, read_grid, read_points, read_verb};
ghost use Rattle.count_queries.specs.Seen.{bare_reading, reading_of};

use point_codec::Point;
use script_lang::LineFault;
use script_lang::lines::words_of;
use script_lang::numbers::{box_at, number_at};
use script_lang::reading::is_note;
use script_lang::words::Words;

/// What the words of a line want of an index of `D` dimensions, which may not have such a grid.
#[derive(Debug, Drop)]
pub(crate) enum Wanted<const D: usize> {
    /// A line without words, or a note.
    Blank,
    /// How many points lie in the box.
    Points {
        lo: Point<D>,
        hi: Point<D>,
    },
    /// How many lie in each bucket: the dimensions are `x` and `y`, each with its step.
    Grid {
        lo: Point<D>,
        hi: Point<D>,
        x: u32,
        step_x: u32,
        y: u32,
        step_y: u32,
    },
}

/// What a line wants, or the first of its faults.
#[tactic(auto, unfolding(crate::specs::Asks::read_counts))]
pub(crate) fn read_wanted<const D: usize>(line: &[u8]) -> Result<Wanted<D>, LineFault>
    requires some { 1 ≤ D }
    requires few { D ≤ 8 }
    ensures { reading_of result ≡ read_counts (Some D) line.now }
{
    let mut words = words_of(line)?;
    let Some(verb) = words.next() else {
        return Ok(Wanted::Blank);
    };
    if is_note(verb) {
        return Ok(Wanted::Blank);
    }
    behind_verb(verb, words)
}

/// A line by its first word and the words behind it.
#[tactic(auto, unfolding(crate::specs::Asks::read_verb))]
fn behind_verb<const D: usize>(verb: &str, words: Words<'_>) -> Result<Wanted<D>, LineFault>
    requires some { 1 ≤ D }
    requires few { D ≤ 8 }
    requires second { words.place ≡ 2 }
    ensures { reading_of result ≡ read_verb (Some D) verb.now (words_left words.entry) }
{
    if verb == "points" {
        return points(words);
    }
    if verb == "grid" {
        return grid(words);
    }
    Err(LineFault::Unknown)
}

/// Reads what stands behind `points`: `LO HI`, the corners of a box.
#[tactic(auto, unfolding(crate::specs::Asks::read_points))]
fn points<const D: usize>(words: Words<'_>) -> Result<Wanted<D>, LineFault>
    requires some { 1 ≤ D }
    requires few { D ≤ 8 }
    requires second { words.place ≡ 2 }
    ensures { reading_of result ≡ read_points D (words_left words.entry) }
{
    let (lo, hi) = box_at(words)?;
    Ok(Wanted::Points { lo, hi })
}

/// `X STEPX Y STEPY LO HI`
#[tactic(auto, unfolding(crate::specs::Asks::read_grid))]
fn grid<const D: usize>(mut words: Words<'_>) -> Result<Wanted<D>, LineFault>
    requires some { 1 ≤ D }
    requires few { D ≤ 8 }
    requires second { words.place ≡ 2 }
    ensures { reading_of result ≡ read_grid D (words_left words.entry) }
{
    let Some(x) = words.next() else {
        return Err(LineFault::Words);
    };
    let Some(step_x) = words.next() else {
        return Err(LineFault::Words);
    };
    let Some(y) = words.next() else {
        return Err(LineFault::Words);
    };
    let Some(step_y) = words.next() else {
        return Err(LineFault::Words);
    };
    if words.count() != 2 * D {
        return Err(LineFault::Words);
    }
    let x = number_at(x, 2)?;
    let step_x = number_at(step_x, 3)?;
    let y = number_at(y, 4)?;
    let step_y = number_at(step_y, 5)?;
    let (lo, hi) = box_at(words)?;
    Ok(Wanted::Grid {
        lo,
        hi,
        x,
        step_x,
        y,
        step_y,
    })
}

/// Reads a line where no index is there: nothing where it has no words or is a note, else its fault.
#[tactic(auto, unfolding(crate::specs::Asks::read_counts, crate::specs::Asks::read_verb))]
pub(crate) fn read_bare(line: &[u8]) -> Result<(), LineFault>
    ensures { bare_reading result ≡ read_counts None line.now }
{
    let mut words = words_of(line)?;
    let Some(verb) = words.next() else {
        return Ok(());
    };
    if is_note(verb) {
        return Ok(());
    }
    Err(LineFault::NoIndex)
}
