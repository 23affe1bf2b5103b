//! The lines that ask what is there.

ghost use Rattle.std.specs.Prelude.{◌≡◌, ◌≤◌, ◌+◌, length, MatchResult, IfOk, Ok, Err};
ghost use Rattle.script_lang.specs.Parts.{words_left, IsRestOf};
ghost use Rattle.script_lang.specs.Reading.{query_of, behind_view, sought_of, read_box, read_polygon, read_nearest};
ghost use Rattle.script_lang.specs.Seen.{view_name, request_of, IsReadAs};

use crate::commands::Command;
use crate::faults::LineFault;
use crate::numbers::{box_at, number_at, point_at};
use crate::words::Words;
use point_codec::{Name, Point, View};
use polygon_query::read_polygon;
use std::alloc::Global;

/// `[@NAME]`: what a query looks at. No word is cut where none is named.
pub fn view_at(words: &mut Words<'_>) -> Result<View, LineFault>
    requires { words.old.place ≡ 2 }
    ensures query { MatchResult result
        (λ view. query_of (words_left words.old) ≡ Ok
        (record { view = view_name view; place = words.new.place; words = words_left words.new }))
        (λ f. query_of (words_left words.old) ≡ Err f) }
    ensures behind { IfOk result (λ view. words.new.text.now ≡ behind_view (view_name view) words.old.text.now) }
{
    if !words.names_view() {
        return Ok(View::Now);
    }
    named_view(words)
}

/// The view that the next word names, which is cut.
#[tactic(auto, unfolding(crate::specs::Reading::query_of))]
fn named_view(words: &mut Words<'_>) -> Result<View, LineFault>
    requires { words.old.place ≡ 2 }
    ensures query { MatchResult result
        (λ view. query_of (words_left words.old) ≡ Ok
        (record { view = view_name view; place = words.new.place; words = words_left words.new }))
        (λ f. query_of (words_left words.old) ≡ Err f) }
    ensures behind { IfOk result (λ view. words.new.text.now ≡ behind_view (view_name view) words.old.text.now) }
{
    let mut behind = *words;
    let Some(word) = behind.next() else {
        return Ok(View::Now);
    };
    let [b'@', name @ ..] = word.as_bytes() else {
        return Ok(View::Now);
    };
    *words = behind;
    let name = Name::new(name).ok_or(LineFault::BadName)?;
    Ok(View::Named(name))
}

/// Reads what stands behind `box`: `[@NAME] LO HI`, the corners of a box.
#[tactic(auto, unfolding(crate::specs::Reading::read_box))]
pub(crate) fn in_box<const D: usize>(mut words: Words<'_>) -> Result<Command<D>, LineFault>
    requires some { 1 ≤ D }
    requires few { D ≤ 8 }
    requires second { words.place ≡ 2 }
    ensures { IsReadAs request_of result (read_box D (words_left words.entry)) }
{
    let view = view_at(&mut words)?;
    let (lo, hi) = box_at(words)?;
    Ok(Command::InBox { view, lo, hi })
}

/// Reads what stands behind `polygon`: `[@NAME] JSON`, in two dimensions only.
#[tactic(auto, unfolding(crate::specs::Reading::read_polygon))]
pub(crate) fn polygon<const D: usize>(
    alloc: Global,
    mut words: Words<'_>,
) -> Result<Command<D>, LineFault>
    requires { words.place ≡ 2 }
    ensures { IsReadAs request_of result (read_polygon D (words_left words.entry) words.entry.text.now) }
{
    let view = view_at(&mut words)?;
    if D != 2 {
        return Err(LineFault::NotTwo);
    }
    let text = words.text;
    if words.next().is_none() {
        return Err(LineFault::Words);
    }
    let rings = read_polygon(alloc, text)?;
    Ok(Command::Polygon { view, rings })
}

/// `[@NAME] K C1 .. CD`
#[tactic(auto, unfolding(crate::specs::Reading::read_nearest))]
pub(crate) fn nearest<const D: usize>(mut words: Words<'_>) -> Result<Command<D>, LineFault>
    requires some { 1 ≤ D }
    requires few { D ≤ 8 }
    requires second { words.place ≡ 2 }
    ensures { IsReadAs request_of result (read_nearest D (words_left words.entry)) }
{
    let view = view_at(&mut words)?;
    let (k, at) = sought_at(words)?;
    if !(1..=10_000).contains(&k) {
        return Err(LineFault::BadK);
    }
    Ok(Command::Nearest {
        view,
        k: k as u16,
        at,
    })
}

/// `K C1 .. CD`, which all words that are left write.
fn sought_at<const D: usize>(mut words: Words<'_>) -> Result<(u32, Point<D>), LineFault>
    requires some { 1 ≤ D }
    requires few { D ≤ 8 }
    ensures { MatchResult result
        (λ sought. sought_of D words.entry.place (words_left words.entry) ≡ Ok (sought.0, sought.1.c))
        (λ f. sought_of D words.entry.place (words_left words.entry) ≡ Err f) }
{
    let first = words.place;
    let sought = next_sought(&mut words);
    let count = words.count_from(first);
    if count != D + 1 {
        return Err(LineFault::Words);
    }
    sought
}

/// The number and the point that the next words write. It stops as `point_at` does.
fn next_sought<const D: usize>(words: &mut Words<'_>) -> Result<(u32, Point<D>), LineFault>
    requires some { 1 ≤ D }
    requires few { D ≤ 8 }
    ensures sought { length (words_left words.old) ≡ D + 1 → MatchResult result
        (λ sought. sought_of D words.old.place (words_left words.old) ≡ Ok (sought.0, sought.1.c))
        (λ f. sought_of D words.old.place (words_left words.old) ≡ Err f) }
    ensures rest { IsRestOf words.new words.old }
{
    let place = words.place;
    let Some(word) = words.next() else {
        return Err(LineFault::Words);
    };
    let k = number_at(word, place)?;
    let at = point_at(words)?;
    Ok((k, at))
}
