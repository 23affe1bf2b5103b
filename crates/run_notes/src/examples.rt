//! The forms of lines, and examples of them.

use crate::forms::{LINES, LineForm};
use std::alloc::AllocError;

/// How many dimensions an example has where none are known.
const EXAMPLE_DIMS: usize = 2;

const POLYGON: &str = r#"{"type":"Polygon","coordinates":[[[0,0],[4,0],[4,4],[0,0]]]}"#;

/// The first word of a form or of a line.
pub(crate) fn verb_of(form: &str) -> &str {
    form.split_ascii_whitespace().next().unwrap_or("")
}

/// Whether lines of this form are read by a command.
fn is_read_by(commands: &str, command: &str) -> bool {
    commands.split(' ').any(|it| it == command)
}

/// Appends the first words of the lines that a command reads, each once.
pub(crate) fn put_verbs(note: &mut String, command: &str) -> Result<(), AllocError> {
    let mut is_first = true;
    for (i, it) in LINES.iter().enumerate() {
        if is_read_by(it.commands, command) && !is_repeated(i, it.form) {
            note.push_str(if is_first { "" } else { ", " })?;
            note.push_str(verb_of(it.form))?;
            is_first = false;
        }
    }
    Ok(())
}

/// Whether the form before this place of the table begins with the same word as this one.
fn is_repeated(at: usize, form: &str) -> bool {
    match LINES.get(at.wrapping_sub(1)) {
        Some(before) => verb_of(before.form) == verb_of(form),
        None => false,
    }
}

/// The first word of a line that a command reads which begins as this one does.
pub(crate) fn nearest_verb(command: &str, begun: &str) -> Option<&'static str> {
    if begun.is_empty() {
        return None;
    }
    for it in LINES {
        let verb = verb_of(it.form);
        if is_read_by(it.commands, command)
            && (verb.starts_with(begun) || begun.starts_with(verb))
        {
            return Some(verb);
        }
    }
    None
}

/// Appends the forms of a line that begins with these two words, with an example of the first.
pub(crate) fn put_forms(
    note: &mut String,
    command: &str,
    dims: usize,
    verb: &str,
    second: &str,
) -> Result<(), AllocError> {
    let mut is_first = true;
    for it in LINES {
        if is_meant(&it, command, verb, second) {
            note.push_str(if is_first { "expected: " } else { "; " })?;
            note.push_str(it.form)?;
            is_first = false;
        }
    }
    match LINES.iter().find(|it| is_meant(it, command, verb, second)) {
        Some(first) => put_shown(note, first.form, dims),
        None => Ok(()),
    }
}

/// Appends how many dimensions points have, and an example of a form.
fn put_shown(note: &mut String, form: &str, dims: usize) -> Result<(), AllocError> {
    put_dims(note, dims)?;
    note.push_str(", as in: ")?;
    put_example(note, form, dims)
}

/// Whether a form of the command may be meant by a line that begins with these two words.
fn is_meant(it: &LineForm, command: &str, verb: &str, second: &str) -> bool {
    verb_of(it.form) == verb
        && is_read_by(it.commands, command)
        && !has_other(verb, it.form, second)
}

/// Whether another form of this first word has the second word, and this one hasn't.
fn has_other(verb: &str, form: &str, second: &str) -> bool {
    let has = |form: &str| form.split_ascii_whitespace().nth(1) == Some(second);
    !has(form)
        && LINES
            .iter()
            .any(|it| verb_of(it.form) == verb && has(it.form))
}

/// Appends of how many dimensions points are, where it is known.
pub(crate) fn put_dims(note: &mut String, dims: usize) -> Result<(), AllocError> {
    if dims > 0 {
        write!(note, ", D is {dims} here")?;
    }
    Ok(())
}

/// Appends a line of a form: what may be left out is left out.
pub(crate) fn put_example(note: &mut String, form: &str, dims: usize) -> Result<(), AllocError> {
    let dims = if dims == 0 { EXAMPLE_DIMS } else { dims };
    let (mut is_first, mut is_left_out) = (true, false);
    for piece in form.split(' ') {
        // (C1 stands for all of the point)
        is_left_out = is_left_out || piece.starts_with('[') || piece == "..";
        if !is_left_out {
            note.push_str(if is_first { "" } else { " " })?;
            is_first = false;
            put_piece(note, piece, dims)?;
        }
        is_left_out = is_left_out && !piece.ends_with(']') && piece != "CD";
    }
    Ok(())
}

/// Appends what stands for a piece of a form.
fn put_piece(note: &mut String, piece: &str, dims: usize) -> Result<(), AllocError> {
    match piece {
        "C1" => put_point(note, dims, 1, 1),
        "LO" => put_point(note, dims, 0, 0),
        "HI" => put_point(note, dims, 9, 0),
        "D" | "R" => note.push('2'),
        "N" => note.push('0'),
        "K" => note.push('3'),
        "X" => note.push_str("0"),
        "Y" => note.push_str("1"),
        "STEPX" | "STEPY" => note.push_str("10"),
        "NAME" => note.push_str("monday"),
        "POSITIONS" => note.push_str("0 1"),
        "JSON" => note.push_str(POLYGON),
        word => note.push_str(word),
    }
}

/// Appends a point: so many numbers, from the first on, by this step.
fn put_point(note: &mut String, dims: usize, first: usize, step: usize) -> Result<(), AllocError> {
    let mut number = first;
    for i in 0..dims {
        let before = if i == 0 { "" } else { " " };
        write!(note, "{before}{number}")?;
        number = number.saturating_add(step);
    }
    Ok(())
}
