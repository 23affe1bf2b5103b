//! The lines that ask which ranges are there.

ghost use Rattle.std.specs.Prelude.{◌≡◌, ◌/◌, ◌%◌, ◌≤◌, take, drop, length, MatchResult, Ok, Err};
ghost use Rattle.script_lang.specs.Parts.{words_left, IsRestOf};
ghost use Rattle.script_lang.specs.Seen.{request_of};
ghost use Rattle.script_lang.specs.Reading.{box_of};
ghost use Rattle.range_docs.specs.Reading.{read_question};
ghost use Rattle.range_docs.specs.Seen.{AgreesOnRanges};

use crate::faults::RangeFault;
use crate::ranges::{Question, bounds, is_range};
use point_codec::Point;
use script_lang::numbers::point_at;
use script_lang::queries::view_at;
use script_lang::words::Words;
use script_lang::{Command, LineFault};

/// Reads what stands behind a question's word: `[@NAME] LO HI`, which has to be a range.
#[tactic(auto, unfolding(crate::specs::Reading::read_question))]
pub(crate) fn find<const D: usize>(
    question: Question,
    mut words: Words<'_>,
) -> Result<Command<D>, RangeFault>
    requires some { 1 ≤ D }
    requires few { D ≤ 8 }
    requires even { D % 2 ≡ 0 }
    requires second { words.place ≡ 2 }
    ensures { AgreesOnRanges request_of result (read_question question (D / 2) (words_left words.entry)) }
{
    let view = view_at(&mut words)?;
    let ends = ends_at(words)?;
    if !is_range(&ends) {
        return Err(RangeFault::NotRange);
    }
    let (lo, hi) = bounds(question, &ends);
    Ok(Command::InBox { view, lo, hi })
}

/// The lower ends and then the upper ends, which all words that are left write.
fn ends_at<const D: usize>(mut words: Words<'_>) -> Result<Point<D>, LineFault>
    requires some { 1 ≤ D }
    requires few { D ≤ 8 }
    requires even { D % 2 ≡ 0 }
    ensures { let read = box_of (D / 2) words.entry.place (words_left words.entry) in
        MatchResult result (λ p. read ≡ Ok (take (D / 2) p.c, drop (D / 2) p.c)) (λ f. read ≡ Err f) }
{
    let first = words.place;
    let ends = next_ends(&mut words);
    let count = words.count_from(first);
    if count != D {
        return Err(LineFault::Words);
    }
    ends
}

/// The lower ends and then the upper ends, which the next words write. It stops as `point_at` does.
fn next_ends<const D: usize>(words: &mut Words<'_>) -> Result<Point<D>, LineFault>
    requires some { 1 ≤ D }
    requires few { D ≤ 8 }
    requires even { D % 2 ≡ 0 }
    ensures ends { length (words_left words.old) ≡ D → MatchResult result
        (λ p. box_of (D / 2) words.old.place (words_left words.old) ≡ Ok (take (D / 2) p.c, drop (D / 2) p.c))
        (λ f. box_of (D / 2) words.old.place (words_left words.old) ≡ Err f) }
    ensures rest { IsRestOf words.new words.old }
{
    let ends = point_at(words)?;
    Ok(ends)
}
