//! A text cut into lines.

ghost use Rattle.std.specs.Prelude.{◌≡◌, ◌==◌, ◌<◌, ◌≤◌, ◌∷◌, length, MatchResult, MatchOption, Ok, Err, true, false};
ghost use Rattle.std.specs.List.{position_or_len};
ghost use Rattle.std.specs.Str.{is_utf8};
ghost use Rattle.std.specs.Str.Lines.{strip_carriage_return};
ghost use Rattle.script_lang.specs.Lines.{lines_of};
ghost use Rattle.script_lang.specs.Reading.{text_of};

use crate::faults::LineFault;
use crate::words::Words;

/// The first line of a text, without its byte 10, and what stands behind that. A byte 13 at the line's end stays:
/// the reader of the line drops it.
pub fn first_line(bytes: &[u8]) -> (&[u8], &[u8])
    requires { 0 < length bytes.now }
    ensures line { lines_of bytes.now ≡ result.0.now ∷ lines_of result.1.now }
    ensures shorter { length result.1.now < length bytes.now }
{
    let (line, behind) = bytes.split_at(line_len(bytes));
    match behind {
        [] => (line, behind),
        [_, rest @ ..] => (line, rest),
    }
}

/// How many bytes stand before the first byte 10 of a text.
fn line_len(bytes: &[u8]) -> usize
    ensures value { result ≡ position_or_len (λ b. b == 10) bytes.now }
    ensures bound { result ≤ length bytes.now }
{
    bytes
        .iter()
        .position(|b| *b == b'\n')
        .unwrap_or(bytes.len())
}

/// All words of a line, if it is a text that is not too long.
#[tactic(auto, using(crate::proofs::WordsOf::words_fit), unfolding(crate::specs::Reading::text_of))]
pub fn words_of(line: &[u8]) -> Result<Words<'_>, LineFault>
    ensures { MatchResult result (λ words. (words.place ≡ 1) × (text_of line.now ≡ Ok words.text.now))
        (λ f. text_of line.now ≡ Err f) }
{
    let line = without_return(line);
    if line.len() > 4_194_304 {
        return Err(LineFault::TooLong);
    }
    let Some(text) = text_in(line) else {
        return Err(LineFault::NotUtf8);
    };
    Ok(Words { text, place: 1 })
}

/// The line without the one byte 13 that may stand at its end.
fn without_return(line: &[u8]) -> &[u8]
    ensures { result.now ≡ strip_carriage_return line.now }
{
    match line {
        [front @ .., b'\r'] => front,
        _ => line,
    }
}

/// The text of UTF-8 bytes.
fn text_in(bytes: &[u8]) -> Option<&str>
    ensures { MatchOption result (is_utf8 bytes.now ≡ false)
        (λ text. (is_utf8 bytes.now ≡ true) × (text.now ≡ bytes.now)) }
{
    match std::str::from_utf8(bytes) {
        Ok(text) => Some(text),
        Err(_) => None,
    }
}
