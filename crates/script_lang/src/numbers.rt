//! The numbers and the points that words write.

ghost use Rattle.std.specs.Prelude.{◌≡◌, ◌*◌, ◌<◌, ◌≤◌, length, MatchResult, Ok};
ghost use Rattle.std.specs.Prelude.{Err};
ghost use Rattle.script_lang.specs.Reading.{value_of, values_of, box_of};
ghost use Rattle.script_lang.specs.Parts.{words_left, Writes, IsRestOf};
ghost use Rattle.number_text.specs.Number.{number, coordinate};

use crate::faults::LineFault;
use crate::words::Words;
use point_codec::Point;

/// The number that a word writes. The word has this place in its line.
pub fn number_at(word: &str, place: u32) -> Result<u32, LineFault>
    ensures { result ≡ value_of number place word.now }
{
    number_text::number(word.as_bytes()).ok_or(LineFault::Number { word: place })
}

/// The point that the next `D` words write. It stops behind the first of them that is no coordinate, and where none is
/// left.
pub fn point_at<const D: usize>(words: &mut Words<'_>) -> Result<Point<D>, LineFault>
    requires some { 1 ≤ D }
    requires few { D ≤ 8 }
    ensures reads { MatchResult result (λ point. Writes coordinate point.c words.old words.new)
        (λ f. D ≤ length (words_left words.old)
        → values_of coordinate words.old.place (words_left words.old) ≡ Err f) }
    ensures rest { IsRestOf words.new words.old }
{
    let mut c = [0; D];
    for i in 0..D {
        let place = words.place;
        let Some(word) = words.next() else {
            return Err(LineFault::Words);
        };
        let x = coordinate_at(word, place)?;
        c[i] = x;
    }
    Ok(Point { c })
}

fn coordinate_at(word: &str, place: u32) -> Result<i32, LineFault>
    ensures { result ≡ value_of coordinate place word.now }
{
    number_text::coordinate(word.as_bytes()).ok_or(LineFault::Number { word: place })
}

/// The ends of a box, which all words that are left write.
pub fn box_at<const D: usize>(mut words: Words<'_>) -> Result<(Point<D>, Point<D>), LineFault>
    requires some { 1 ≤ D }
    requires few { D ≤ 8 }
    ensures { MatchResult result (λ ends. box_of D words.entry.place (words_left words.entry) ≡ Ok (ends.0.c, ends.1.c))
        (λ f. box_of D words.entry.place (words_left words.entry) ≡ Err f) }
{
    let first = words.place;
    let ends = corners_at(&mut words);
    let count = words.count_from(first);
    if count != 2 * D {
        return Err(LineFault::Words);
    }
    ends
}

/// The two points that the next words write. It stops as `point_at` does.
fn corners_at<const D: usize>(words: &mut Words<'_>) -> Result<(Point<D>, Point<D>), LineFault>
    requires some { 1 ≤ D }
    requires few { D ≤ 8 }
    ensures ends { length (words_left words.old) ≡ 2 * D → MatchResult result
        (λ ends. box_of D words.old.place (words_left words.old) ≡ Ok (ends.0.c, ends.1.c))
        (λ f. box_of D words.old.place (words_left words.old) ≡ Err f) }
    ensures rest { IsRestOf words.new words.old }
{
    let lo = point_at(words)?;
    let hi = point_at(words)?;
    Ok((lo, hi))
}
