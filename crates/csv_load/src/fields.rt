//! Columns in the header, and points in the other records.

ghost use Rattle.std.specs.Prelude.{◌≡◌, ◌<◌, ◌≤◌, length, position, option_and_then, slice_get, slice_index_or};
ghost use Rattle.std.specs.Prelude.{[], Ok, Err, IfOk, IfErr};
ghost use Rattle.std.specs.Str.{bytes_eq};
ghost use Rattle.csv.specs.Records.{fields_of};
ghost use Rattle.number_text.specs.Number.{coordinate};
ghost use Rattle.csv_load.specs.Loading.{each_ok, column_of, value_of, point_of, is_blank, up_to_last, from_first};
ghost use Rattle.csv_load.specs.Loading.{without_blanks};

use crate::CsvFault;
use byte_cursor::Bytes;
use csv::ByteRecord;
use number_text::coordinate;
use point_codec::Point;

/// The place in the header of each column that is named, or the first name that it does not have.
pub fn columns_of<const D: usize>(
    header: &ByteRecord,
    names: &[Bytes],
) -> Result<[usize; D], CsvFault>
    requires few { D ≤ 8 }
    requires named { length names.now ≡ D }
    ensures places { IfOk result (λ places. each_ok (column_of (fields_of header.now)) 0 names.now ≡ Ok places) }
    ensures fault { IfErr result (λ fault. each_ok (column_of (fields_of header.now)) 0 names.now ≡ Err fault) }
{
    let mut places = [0; D];
    for (k, name) in names.iter().enumerate() {
        match place_of(header, name.as_slice()) {
            Some(place) => places[k] = place,
            None => return Err(CsvFault::NoColumn { column: k as u32 }),
        }
    }
    Ok(places)
}

/// The place of the first field that is equal to a name.
fn place_of(header: &ByteRecord, name: &[u8]) -> Option<usize>
    ensures { result ≡ position (λ field. bytes_eq field name.now) (fields_of header.now) }
{
    for i in 0..header.len() {
        if is_at(header, i, name) {
            return Some(i);
        }
    }
    None
}

/// Whether the field at a place is equal to a name.
fn is_at(header: &ByteRecord, i: usize, name: &[u8]) -> bool
    requires { i < length (fields_of header.now) }
    ensures { result ≡ bytes_eq (slice_index_or (fields_of header.now) i []) name.now }
{
    match header.get(i) {
        Some(field) => field == name,
        None => false,
    }
}

/// The point of a record, in the places that the columns have, or its first fault.
pub fn point_of<const D: usize>(
    fields: &ByteRecord,
    width: usize,
    places: &[usize; D],
    row: u64,
) -> Result<Point<D>, CsvFault>
    requires some { 1 ≤ D }
    requires few { D ≤ 8 }
    ensures point { IfOk result (λ point. point_of width places.now row (fields_of fields.now) ≡ Ok point.c) }
    ensures fault { IfErr result (λ fault. point_of width places.now row (fields_of fields.now) ≡ Err fault) }
{
    if fields.len() != width {
        return Err(CsvFault::Length { row });
    }
    let mut c = [0; D];
    for (k, place) in places.iter().enumerate() {
        match value_of(fields, *place) {
            Some(value) => c[k] = value,
            None => {
                return Err(CsvFault::Value {
                    row,
                    column: k as u32,
                });
            }
        }
    }
    Ok(Point { c })
}

/// The coordinate in a field of a record, between the spaces and tabs at its ends.
fn value_of(fields: &ByteRecord, place: usize) -> Option<i32>
    ensures { result ≡ option_and_then (λ field. coordinate (without_blanks field))
        (slice_get (fields_of fields.now) place) }
{
    let field = fields.get(place)?;
    coordinate(without_blanks(field))
}

fn without_blanks(field: &[u8]) -> &[u8]
    ensures { result.now ≡ without_blanks field.now }
{
    from_first(up_to_last(field))
}

fn from_first(field: &[u8]) -> &[u8]
    ensures { result.now ≡ from_first field.now }
{
    for (i, &c) in field.iter().enumerate() {
        if !is_blank(c) {
            return &field[i..];
        }
    }
    &field[field.len()..]
}

fn up_to_last(field: &[u8]) -> &[u8]
    ensures { result.now ≡ up_to_last field.now }
{
    let mut end = field.len();
    while end > 0 && is_blank(field[end - 1]) {
        end -= 1;
    }
    &field[..end]
}

fn is_blank(c: u8) -> bool
    ensures { result ≡ is_blank c }
{
    c == b' ' || c == b'\t'
}
