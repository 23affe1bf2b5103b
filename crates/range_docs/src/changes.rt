//! The lines that change what is there.

ghost use Rattle.std.specs.Prelude.{◌≡◌, ◌+◌, ◌*◌, ◌/◌, ◌%◌, ◌≤◌};
ghost use Rattle.script_lang.specs.Parts.{words_left, first_reading_of};
ghost use Rattle.script_lang.specs.Reading.{create_reading, greatest_leaf, read_add};
ghost use Rattle.script_lang.specs.Seen.{request_of, IsReadAs};
ghost use Rattle.range_docs.specs.Reading.{read_create_ranges, read_delete_number, if_ranges};
ghost use Rattle.range_docs.specs.Seen.{AgreesOnRanges};

use crate::faults::RangeFault;
use crate::ranges::are_ranges;
use point_codec::Points;
use script_lang::changes::points_at;
use script_lang::numbers::number_at;
use script_lang::words::Words;
use script_lang::{Command, First, LineFault};
use std::alloc::Global;

/// `R` or `R leaf SIZE`
#[tactic(auto, unfolding(crate::specs::Reading::read_create_ranges))]
pub(crate) fn create(mut words: Words<'_>) -> Result<First, LineFault>
    requires { words.place ≡ 2 }
    ensures { first_reading_of result ≡ read_create_ranges (words_left words.entry) }
{
    let Some(dims) = words.next() else {
        return Err(LineFault::Words);
    };
    let Some(leaf) = words.next() else {
        let r = number_at(dims, 2)?;
        return created(r, greatest_leaf(r));
    };
    let Some(size) = words.next() else {
        return Err(LineFault::Words);
    };
    if leaf != "leaf" || words.next().is_some() {
        return Err(LineFault::Words);
    }
    let r = number_at(dims, 2)?;
    let leaf_size = number_at(size, 4)?;
    created(r, leaf_size)
}

/// The greatest leaf size of an index of ranges of so many dimensions.
fn greatest_leaf(r: u32) -> u32
    ensures { result ≡ greatest_leaf (2 * r) }
{
    (4_000 / (4 + 8 * u64::from(r))) as u32
}

fn created(r: u32, leaf_size: u32) -> Result<First, LineFault>
    ensures { first_reading_of result ≡ create_reading (2 * r) leaf_size }
{
    if !(1..=4).contains(&r) {
        return Err(LineFault::Dims);
    }
    if !(2..=greatest_leaf(r)).contains(&leaf_size) {
        return Err(LineFault::LeafSize);
    }
    Ok(First::Create {
        dims: 2 * r as u8,
        leaf_size: leaf_size as u16,
    })
}

/// The ends of 1 to 16 ranges, range after range.
#[tactic(auto, unfolding(script_lang::specs::Reading::read_add))]
pub(crate) fn add<const D: usize>(alloc: Global, words: Words<'_>) -> Result<Command<D>, RangeFault>
    requires some { 1 ≤ D }
    requires few { D ≤ 8 }
    requires even { D % 2 ≡ 0 }
    requires second { words.place ≡ 2 }
    ensures { AgreesOnRanges request_of result (if_ranges (D / 2) (read_add D (words_left words.entry))) }
{
    let points = Points::of(points_at(alloc, words)?);
    if !are_ranges(points.as_slice()) {
        return Err(RangeFault::NotRange);
    }
    Ok(Command::Add(points))
}

/// Reads what stands behind `delete`: `NUMBER` alone.
#[tactic(auto, unfolding(crate::specs::Reading::read_delete_number))]
pub(crate) fn delete<const D: usize>(mut words: Words<'_>) -> Result<Command<D>, LineFault>
    requires { words.place ≡ 2 }
    ensures { IsReadAs request_of result (read_delete_number (words_left words.entry)) }
{
    let Some(word) = words.next() else {
        return Err(LineFault::Words);
    };
    if word == "box" || words.next().is_some() {
        return Err(LineFault::Words);
    }
    Ok(Command::Delete(number_at(word, 2)?))
}
