//! The lines that change what is there.

ghost use Rattle.std.specs.Prelude.{◌≡◌, ◌≤◌, ◌<◌, ◌+◌, ◌*◌, ◌%◌, ◌/◌, length, Ok, Err, MatchResult, IfOk};
ghost use Rattle.std.specs.Prelude.{◌==◌, ◌&&◌, ◌≢◌, ℕ};
ghost use Rattle.number_text.specs.Number.{number, coordinate};
ghost use Rattle.point_codec.specs.Seen.{coordinates_of};
ghost use Rattle.script_lang.specs.Parts.{words_left, IsRestOf, ReadsAs, first_reading_of};
ghost use Rattle.script_lang.specs.Reading.{read_create, create_reading, read_add, read_delete, read_merge, name_of};
ghost use Rattle.script_lang.specs.Reading.{word_alone};
ghost use Rattle.script_lang.specs.Reading.{greatest_leaf, is_from_to, values_of, points_of, document_of};
ghost use Rattle.script_lang.specs.Seen.{request_of, IsReadAs};

use crate::commands::{Command, First, Positions};
use crate::faults::LineFault;
use crate::numbers::{box_at, number_at, point_at};
use crate::words::Words;
use point_codec::{Name, Point, Points};
use std::alloc::Global;

/// `DIMS` or `DIMS leaf SIZE`
#[tactic(auto, unfolding(crate::specs::Reading::read_create))]
pub(crate) fn create(mut words: Words<'_>) -> Result<First, LineFault>
    requires { words.place ≡ 2 }
    ensures { first_reading_of result ≡ read_create (words_left words.entry) }
{
    let Some(dims) = words.next() else {
        return Err(LineFault::Words);
    };
    let Some(leaf) = words.next() else {
        let dims = number_at(dims, 2)?;
        return created(dims, greatest_leaf(dims));
    };
    let Some(size) = words.next() else {
        return Err(LineFault::Words);
    };
    if leaf != "leaf" {
        return Err(LineFault::Words);
    }
    if words.next().is_some() {
        return Err(LineFault::Words);
    }
    let dims = number_at(dims, 2)?;
    let leaf_size = number_at(size, 4)?;
    created(dims, leaf_size)
}

/// The greatest leaf size in so many dimensions: 4,000 over the bytes of an entry, 4 and 4 for each dimension.
fn greatest_leaf(dims: u32) -> u32
    ensures { result ≡ greatest_leaf dims }
{
    (4_000 / (4 + 4 * u64::from(dims))) as u32
}

fn created(dims: u32, leaf_size: u32) -> Result<First, LineFault>
    ensures { first_reading_of result ≡ create_reading dims leaf_size }
{
    if !(1..=8).contains(&dims) {
        return Err(LineFault::Dims);
    }
    if !(2..=greatest_leaf(dims)).contains(&leaf_size) {
        return Err(LineFault::LeafSize);
    }
    Ok(First::Create {
        dims: dims as u8,
        leaf_size: leaf_size as u16,
    })
}

/// The coordinates of 1 to 16 points, point after point.
#[tactic(auto, unfolding(crate::specs::Reading::read_add))]
pub(crate) fn add<const D: usize>(alloc: Global, words: Words<'_>) -> Result<Command<D>, LineFault>
    requires some { 1 ≤ D }
    requires few { D ≤ 8 }
    requires second { words.place ≡ 2 }
    ensures { IsReadAs request_of result (read_add D (words_left words.entry)) }
{
    let points = points_at(alloc, words)?;
    Ok(Command::Add(Points::of(points)))
}

/// The points of a document, 1 to 16, which all words that are left write.
pub fn points_at<const D: usize>(
    alloc: Global,
    mut words: Words<'_>,
) -> Result<Vec<Point<D>>, LineFault>
    requires some { 1 ≤ D }
    requires few { D ≤ 8 }
    ensures points { ReadsAs (λ points. coordinates_of points.items) result
        (document_of D words.entry.place (words_left words.entry)) }
    ensures some { IfOk result (λ points. 1 ≤ length points.items) }
    ensures few { IfOk result (λ points. length points.items ≤ 16) }
{
    let first = words.place;
    let points = next_points(alloc, &mut words);
    let count = words.count_from(first);
    if !are_points(count, D) {
        return Err(LineFault::Words);
    }
    points
}

/// Whether so many words write 1 to 16 points.
fn are_points(count: usize, dims: usize) -> bool
    requires { 1 ≤ dims }
    ensures { result ≡ (count % dims == 0 && is_from_to 1 16 (count / dims)) }
{
    if count % dims != 0 {
        return false;
    }
    let points = count / dims;
    points >= 1 && points <= 16
}

/// The points that the words that are left write, up to 16. It stops behind the first word that is no coordinate.
fn next_points<const D: usize>(
    alloc: Global,
    words: &mut Words<'_>,
) -> Result<Vec<Point<D>>, LineFault>
    requires some { 1 ≤ D }
    requires few { D ≤ 8 }
    ensures points { (count : ℕ) → length (words_left words.old) ≡ count * D → count ≤ 16 → MatchResult result
        (λ points. points_of count D (values_of coordinate words.old.place (words_left words.old))
        ≡ Ok (coordinates_of points.items))
        (λ f. f ≢ LineFault.Memory
        → points_of count D (values_of coordinate words.old.place (words_left words.old)) ≡ Err f) }
    ensures some { 0 < length (words_left words.old) → IfOk result (λ points. 1 ≤ length points.items) }
    ensures few { IfOk result (λ points. length points.items ≤ 16) }
    ensures rest { IsRestOf words.new words.old }
{
    let mut points = Vec::new(alloc);
    'document: while points.len() < 16 {
        if words.is_empty() {
            return Ok(points);
        }
        points.push(point_at(words)?)?;
    }
    Ok(points)
}

/// `NUMBER` or `box LO HI`
#[tactic(auto, unfolding(crate::specs::Reading::read_delete))]
pub(crate) fn delete<const D: usize>(mut words: Words<'_>) -> Result<Command<D>, LineFault>
    requires some { 1 ≤ D }
    requires few { D ≤ 8 }
    requires second { words.place ≡ 2 }
    ensures { IsReadAs request_of result (read_delete D (words_left words.entry)) }
{
    let Some(word) = words.next() else {
        return Err(LineFault::Words);
    };
    if word == "box" {
        let (lo, hi) = box_at(words)?;
        return Ok(Command::DeleteBox { lo, hi });
    }
    if words.next().is_some() {
        return Err(LineFault::Words);
    }
    let doc = number_at(word, 2)?;
    Ok(Command::Delete(doc))
}

/// Nothing, `begin` with any positions, or `end`
#[tactic(auto, unfolding(crate::specs::Reading::read_merge))]
pub fn merge<const D: usize>(alloc: Global, mut words: Words<'_>) -> Result<Command<D>, LineFault>
    requires { words.place ≡ 2 }
    ensures { IsReadAs request_of result (read_merge (words_left words.entry)) }
{
    let Some(word) = words.next() else {
        return Ok(Command::Merge);
    };
    if word == "begin" {
        let positions = positions_at(alloc, words)?;
        return Ok(Command::MergeBegin(Positions::new(positions)));
    }
    if word == "end" {
        return word_alone(words, Command::MergeEnd);
    }
    Err(LineFault::Words)
}

/// The numbers that all words that are left write.
fn positions_at(alloc: Global, mut words: Words<'_>) -> Result<Vec<u32>, LineFault>
    ensures { ReadsAs (λ positions. positions.items) result
        (values_of number words.entry.place (words_left words.entry)) }
{
    let mut positions = Vec::new(alloc);
    let mut place = words.place;
    while let Some(word) = words.next() {
        positions.push(number_at(word, place)?)?;
        place = words.place;
    }
    Ok(positions)
}

/// Reads `NAME`, behind which no word may stand.
#[tactic(auto, unfolding(crate::specs::Reading::name_of))]
pub fn name_at(mut words: Words<'_>) -> Result<Name, LineFault>
    ensures { MatchResult result (λ name. name_of (words_left words.entry) ≡ Ok name)
        (λ f. name_of (words_left words.entry) ≡ Err f) }
{
    let Some(word) = words.next() else {
        return Err(LineFault::Words);
    };
    let name = Name::new(word.as_bytes()).ok_or(LineFault::BadName)?;
    if words.next().is_some() {
        return Err(LineFault::Words);
    }
    Ok(name)
}

/// A command, where no words are left.
pub fn word_alone<const D: usize>(
    mut words: Words<'_>,
    command: Command<D>,
) -> Result<Command<D>, LineFault>
    ensures { IsReadAs request_of result (word_alone (words_left words.entry) (request_of command.entry)) }
{
    if words.next().is_some() {
        return Err(LineFault::Words);
    }
    Ok(command)
}
