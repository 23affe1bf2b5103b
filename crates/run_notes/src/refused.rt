//! Notes on lines that were refused: the word that is wrong, what is allowed there, and an example.

use crate::examples::{nearest_verb, put_example, put_forms, put_verbs, verb_of};
use crate::polygons::put_polygon;
use crate::shown::Shown;
use std::alloc::{AllocError, Global};

/// Where a line was refused.
#[derive(Clone, Copy)]
pub struct Scene<'c, 'l> {
    pub command: &'c str,
    /// The dimensions of the points, 0 where they aren't known.
    pub dims: usize,
    /// The line; no text where it isn't there.
    pub line: &'l str,
}

impl<'l> Scene<'_, 'l> {
    /// A word of the line, counted from 1; no text where it isn't there.
    fn word(&self, place: usize) -> &'l str {
        let at = place.saturating_sub(1);
        self.line.split_ascii_whitespace().nth(at).unwrap_or("")
    }

    /// Dimensions as a line of the command counts them: ranges have half as many as their points.
    fn own_dims(&self) -> usize {
        if self.command == "ranges" {
            self.dims / 2
        } else {
            self.dims
        }
    }
}

/// What is said of a line that was refused for this cause.
pub fn line_note(
    alloc: Global,
    scene: &Scene<'_, '_>,
    number: u64,
    cause: &str,
) -> Result<String, AllocError> {
    let mut note = format!(in alloc; "bkd: line {number}: ")?;
    let begun = note.len();
    match known(cause) {
        Some(text) => note.push_str(text)?,
        None if scene.line.is_empty() && cause != "no index" => {}
        None => put_cause(&mut note, scene, cause)?,
    }
    if note.len() == begun {
        return Ok(String::new(alloc));
    }
    note.push('\n')?;
    Ok(note)
}

/// What is said of a cause whatever the line is.
fn known(cause: &str) -> Option<&'static str> {
    match cause {
        "too long" => Some("a line has at most 4,194,304 bytes"),
        "not utf-8" => Some("a line is UTF-8 text"),
        "full" => Some(
            "an index gives 16,777,216 points for ever, and so many are not left: begin another one in another folder",
        ),
        "merge begun" => Some("a merge is begun: merge end comes first"),
        "no merge begun" => Some("merge begin comes first, as in: merge begin 0 1"),
        "too many snapshots" => Some(
            "16 snapshots are held, which are the most: release one first",
        ),
        "not a range" => Some("a range is LO HI, and no number of LO is greater than that of HI"),
        "not ranges" => Some("the index holds points, and no ranges: run asks it"),
        "too many buckets" => Some("a grid has 65,536 buckets at most: take greater steps"),
        "bad grid" => Some("X and Y are two dimensions, counted from 0, and their steps 1 or more"),
        _ => None,
    }
}

/// Appends what is said of a cause and a line.
fn put_cause(note: &mut String, scene: &Scene<'_, '_>, cause: &str) -> Result<(), AllocError> {
    match cause {
        "no index" => put_no_index(note, scene),
        "unknown command" | "not a query" => put_unknown(note, scene),
        "wrong words" => put_wrong_words(note, scene),
        "leaf size" => put_leaf_size(note, scene),
        "bad k" => put_bad_k(note, scene),
        "index exists" => put_exists(note, scene),
        "unknown snapshot" => put_unknown_snapshot(note, scene),
        _ => match cause.strip_prefix("bad number in word ") {
            Some(place) => put_number(note, scene, place.parse::<usize>().unwrap_or(0)),
            None if cause.contains("polygon") => put_polygon(note, scene.line, cause),
            None => put_of_second(note, scene, cause),
        },
    }
}

/// Appends what is said of a cause that lies in the second word.
fn put_of_second(note: &mut String, scene: &Scene<'_, '_>, cause: &str) -> Result<(), AllocError> {
    let (second, dims) = (Shown(scene.word(2)), scene.dims);
    match cause {
        "bad name" => write!(
            note,
            "'{second}': a name has 1 to 32 letters, digits, _ or -"
        ),
        "dims" => {
            let most = if scene.command == "ranges" { 4 } else { 8 };
            write!(
                note,
                "'{second}': dimensions are 1 to {most}, as in: create 2"
            )
        }
        "not two dimensions" => {
            write!(
                note,
                "a polygon is asked of 2 dimensions, and the index has {dims}"
            )
        }
        "name taken" => {
            write!(
                note,
                "a snapshot {second} is held: release {second} comes first"
            )
        }
        _ => Ok(()),
    }
}

/// Appends the forms of the line.
fn put_wrong_words(note: &mut String, scene: &Scene<'_, '_>) -> Result<(), AllocError> {
    let (verb, second) = (scene.word(1), scene.word(2));
    put_forms(note, scene.command, scene.own_dims(), verb, second)
}

/// Appends that an index is to be made first.
fn put_no_index(note: &mut String, scene: &Scene<'_, '_>) -> Result<(), AllocError> {
    match scene.command {
        "run" | "session" | "ranges" => note.push_str("begin with create, as in: create 2"),
        _ => note.push_str(
            "there is no index; load or generate makes one, or a line create of run",
        ),
    }
}

/// Appends which lines there are.
fn put_unknown(note: &mut String, scene: &Scene<'_, '_>) -> Result<(), AllocError> {
    let verb = scene.word(1);
    let (command, shown) = (scene.command, Shown(verb));
    write!(note, "'{shown}' is no line of {command}")?;
    match nearest_verb(command, verb) {
        Some(meant) => write!(note, ": did you mean {meant}?"),
        None => {
            note.push_str("; these are: ")?;
            put_verbs(note, command)
        }
    }
}

/// Appends how large a leaf may be.
fn put_leaf_size(note: &mut String, scene: &Scene<'_, '_>) -> Result<(), AllocError> {
    let size = Shown(scene.word(4));
    let dims = scene.word(2).parse::<u32>().unwrap_or(0).min(8);
    let of_point = if scene.command == "ranges" {
        dims.saturating_mul(2)
    } else {
        dims
    };
    let most = 4_000 / (4 + 4 * of_point.min(8));
    write!(
        note,
        "'{size}': a leaf of {dims} dimensions holds 2 to {most} entries"
    )
}

/// Appends how many documents may be nearest.
fn put_bad_k(note: &mut String, scene: &Scene<'_, '_>) -> Result<(), AllocError> {
    let k = Shown(scene.word(k_place(scene)));
    write!(note, "'{k}': K is 1 to 10,000, as in: ")?;
    put_example(note, "nearest K C1 .. CD", scene.dims)
}

/// Where the K of a line `nearest` stands.
fn k_place(scene: &Scene<'_, '_>) -> usize {
    if scene.word(2).starts_with('@') { 3 } else { 2 }
}

/// Appends that `create` is one too many.
fn put_exists(note: &mut String, scene: &Scene<'_, '_>) -> Result<(), AllocError> {
    let dims = scene.own_dims();
    if dims > 0 {
        write!(
            note,
            "an index of {dims} dimensions is here: leave create out"
        )
    } else {
        note.push_str("an index is here: leave create out")
    }
}

/// Appends how a snapshot is made.
fn put_unknown_snapshot(note: &mut String, scene: &Scene<'_, '_>) -> Result<(), AllocError> {
    let word = scene.word(2);
    let name = Shown(word.strip_prefix("@").unwrap_or(word));
    match scene.command {
        "run" | "session" | "ranges" => {
            write!(
                note,
                "no snapshot {name} is held: snapshot {name} makes one, until the run ends"
            )
        }
        command => write!(note, "{command} has no snapshots: leave @{name} out"),
    }
}

/// Appends what is wanted in place of a word that is no such number.
fn put_number(note: &mut String, scene: &Scene<'_, '_>, place: usize) -> Result<(), AllocError> {
    let wanted = match (verb_of(scene.line), place) {
        ("create", 2) => "number of dimensions, 1 to 8",
        ("create", _) => "number of entries of a leaf",
        ("delete", 2) => "number of a document, 0 to 16777215",
        ("nearest", _) if place == k_place(scene) => "number of documents, 1 to 10000",
        ("merge", _) => "place of a segment, counted from 0",
        ("grid", 2 | 4) => "dimension, counted from 0",
        ("grid", 3 | 5) => "step, 1 or more",
        _ => "whole number from -2147483648 to 2147483647",
    };
    let word = Shown(scene.word(place));
    write!(note, "'{word}' is no {wanted}")
}
