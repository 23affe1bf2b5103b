//! What a load answers. For want of memory a part of it may be appended.

ghost use Rattle.std.specs.Prelude.{◌≡◌, ◌≢◌, ◌++◌, [], OnOk, codes, decimal, slice_index_or};
ghost use Rattle.script_lang.specs.Replies.{text_line};
ghost use Rattle.load_points.specs.Loaded.{csv_text, dims_text, full_text, loaded_text};

use byte_cursor::Bytes;
use csv_load::CsvFault;
use itoa::Buffer;
use std::alloc::AllocError;

/// Appends how many documents came, and the number of the next one.
pub fn put_loaded(text: &mut Vec<u8>, count: u32, next: u32) -> Result<(), AllocError>
    ensures { OnOk result (text.new.items ≡ text.old.items ++ loaded_text count next) }
{
    let mut digits = Buffer::new();
    text.extend_from_slice(b"loaded ")?;
    text.extend_from_slice(digits.format(count).as_bytes())?;
    text.extend_from_slice(b"\nnext ")?;
    text.extend_from_slice(digits.format(next).as_bytes())?;
    text.push(b'\n')?;
    Ok(())
}

/// Appends that not all numbers fit.
pub fn put_full(text: &mut Vec<u8>) -> Result<(), AllocError>
    ensures { OnOk result (text.new.items ≡ text.old.items ++ text_line full_text) }
{
    text.extend_from_slice(b"full\n")
}

/// Appends that the index has so many dimensions, and the columns are not as many.
pub fn put_dims(text: &mut Vec<u8>, dims: u8) -> Result<(), AllocError>
    ensures { OnOk result (text.new.items ≡ text.old.items ++ text_line (dims_text dims)) }
{
    let mut digits = Buffer::new();
    text.extend_from_slice(b"columns do not match dims ")?;
    text.extend_from_slice(digits.format(dims).as_bytes())?;
    text.push(b'\n')?;
    Ok(())
}

/// Appends what is wrong with the file; want of memory is no fault of it.
pub fn put_csv_fault(
    text: &mut Vec<u8>,
    columns: &[Bytes],
    fault: &CsvFault,
) -> Result<(), AllocError>
    requires { fault.now ≢ CsvFault.Memory }
    ensures { OnOk result (text.new.items ≡ text.old.items ++ text_line (csv_text columns.now fault.now)) }
{
    match fault {
        CsvFault::NoColumn { column } => put_no_column(text, name_of(columns, *column)),
        CsvFault::Length { row } => put_other_length(text, *row),
        CsvFault::Value { row, column } => put_no_number(text, *row, name_of(columns, *column)),
        CsvFault::Memory => unreachable!(),
    }
}

/// Appends that no column has this name.
fn put_no_column(text: &mut Vec<u8>, name: &[u8]) -> Result<(), AllocError>
    ensures { OnOk result (text.new.items ≡ text.old.items ++ text_line (codes "no column " ++ name.now)) }
{
    text.extend_from_slice(b"no column ")?;
    text.extend_from_slice(name)?;
    text.push(b'\n')?;
    Ok(())
}

/// Appends that this record has not as many fields as the header.
fn put_other_length(text: &mut Vec<u8>, row: u64) -> Result<(), AllocError>
    ensures { OnOk result
        (text.new.items ≡ text.old.items ++ text_line (codes "record " ++ decimal row ++ codes " has another length")) }
{
    put_record(text, row)?;
    text.extend_from_slice(b" has another length\n")
}

/// Appends that what this record has in the column of this name is no coordinate.
fn put_no_number(text: &mut Vec<u8>, row: u64, name: &[u8]) -> Result<(), AllocError>
    ensures { OnOk result
        (text.new.items ≡ text.old.items ++ text_line
        (codes "record " ++ decimal row ++ codes " column " ++ name.now ++ codes " is not a whole number")) }
{
    put_record(text, row)?;
    text.extend_from_slice(b" column ")?;
    text.extend_from_slice(name)?;
    text.extend_from_slice(b" is not a whole number\n")?;
    Ok(())
}

/// Appends which record it is.
fn put_record(text: &mut Vec<u8>, row: u64) -> Result<(), AllocError>
    ensures { OnOk result (text.new.items ≡ text.old.items ++ (codes "record " ++ decimal row)) }
{
    let mut digits = Buffer::new();
    text.extend_from_slice(b"record ")?;
    text.extend_from_slice(digits.format(row).as_bytes())
}

/// The name of a column.
fn name_of(columns: &[Bytes], column: u32) -> &[u8]
    ensures { result.now ≡ slice_index_or columns.now column [] }
{
    match columns.get(column as usize) {
        Some(name) => name.as_slice(),
        None => b"",
    }
}
