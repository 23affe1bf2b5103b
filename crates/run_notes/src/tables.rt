//! Notes on a command that is refused as a whole: a CSV file that gives no points, and what is there already or isn't.

use crate::kept::Kept;
use crate::shown::Shown;
use csv::{ByteRecord, ReaderBuilder};
use std::alloc::{AllocError, Global};

/// What is said of this answer; nothing where it refuses nothing.
pub fn table_note(alloc: Global, kept: &Kept, answer: &[u8]) -> Result<String, AllocError> {
    let answer = match std::str::from_utf8(answer) {
        Ok(text) => text.trim_end_matches('\n'),
        Err(_) => "",
    };
    if answer == "no index" {
        return format!(in alloc;
            "bkd: no index is here; load or generate makes one, or a line create of run\n"
        );
    }
    if answer == "index exists" {
        return format!(in alloc;
            "bkd: generate makes an index where there is none: name another folder\n"
        );
    }
    if answer == "full" {
        return format!(in alloc;
            "bkd: an index gives 16,777,216 points for ever, and so many are not left: name another folder\n"
        );
    }
    if let Some(dims) = answer.strip_prefix("columns do not match dims ") {
        return format!(in alloc;
            "bkd: the index has {dims} dimensions, and each is a column: --columns takes {dims} names\n"
        );
    }
    match kept.whole() {
        Some(input) if answer.starts_with("no column ") => header_note(alloc, input),
        Some(input) => match record_of(answer) {
            Some((row, rest)) => record_note(alloc, input, row, rest),
            None => Ok(String::new(alloc)),
        },
        None => Ok(String::new(alloc)),
    }
}

/// The number of the record that an answer refuses, and what it says of it.
fn record_of(answer: &str) -> Option<(u64, &str)> {
    let (row, rest) = answer.strip_prefix("record ")?.split_once(" ")?;
    Some((row.parse::<u64>().ok()?, rest))
}

/// The record of this number, where the header is 0.
fn record(alloc: Global, input: &[u8], row: u64) -> Option<ByteRecord> {
    let mut reader = ReaderBuilder::new()
        .has_headers(false)
        .flexible(true)
        .from_reader(alloc, input);
    let mut fields = ByteRecord::new(alloc);
    for _ in 0..row.saturating_add(1) {
        if !reader.read_byte_record(&mut fields).unwrap_or(false) {
            return None;
        }
    }
    Some(fields)
}

/// Which columns there are.
fn header_note(alloc: Global, input: &[u8]) -> Result<String, AllocError> {
    let Some(header) = record(alloc, input, 0) else {
        return format!(in alloc;
            "bkd: the input is empty, and its first record is to name the columns\n"
        );
    };
    let mut note = format!(in alloc; "bkd: the first record has the columns ")?;
    put_fields(&mut note, &header)?;
    note.push('\n')?;
    Ok(note)
}

/// How many fields of a record are shown.
const MOST_FIELDS: usize = 12;

/// Appends the fields of a record.
fn put_fields(note: &mut String, fields: &ByteRecord) -> Result<(), AllocError> {
    for (i, field) in fields.iter().enumerate().take(MOST_FIELDS) {
        let text = Shown(std::str::from_utf8(field).unwrap_or("?"));
        let before = if i == 0 { "" } else { "," };
        write!(note, "{before}{text}")?;
    }
    if fields.len() > MOST_FIELDS {
        note.push_str(",..")?;
    }
    Ok(())
}

/// What is wrong with a record.
fn record_note(alloc: Global, input: &[u8], row: u64, rest: &str) -> Result<String, AllocError> {
    let (Some(header), Some(fields)) = (record(alloc, input, 0), record(alloc, input, row)) else {
        return Ok(String::new(alloc));
    };
    if rest == "has another length" {
        let (wanted, found) = (header.len(), fields.len());
        let mut note = format!(in alloc;
            "bkd: record {row} has {found} fields, and the first record names {wanted} columns: "
        )?;
        put_fields(&mut note, &fields)?;
        note.push('\n')?;
        return Ok(note);
    }
    let Some(name) = named(rest) else {
        return Ok(String::new(alloc));
    };
    let place = header.iter().position(|field| field == name.as_bytes());
    let Some(field) = place.and_then(|at| fields.get(at)) else {
        return Ok(String::new(alloc));
    };
    let (name, text) = (
        Shown(name),
        Shown(std::str::from_utf8(field).unwrap_or("?")),
    );
    format!(in alloc;
        "bkd: record {row}, column {name}: '{text}' is no whole number from -2147483648 to 2147483647\n"
    )
}

/// The column that an answer names.
fn named(rest: &str) -> Option<&str> {
    rest.strip_prefix("column ")?
        .strip_suffix(" is not a whole number")
}
