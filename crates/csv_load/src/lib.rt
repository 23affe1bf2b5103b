//! Entries from the columns of a CSV file.
#![tactic(auto)]

mod fields;
mod records;

ghost use Rattle.std.specs.Prelude.{◌≡◌, ◌≢◌, ◌≤◌, ◌<◌, ◌+◌, ◌^◌, Ok, Err, IfOk, OnOk, IfErr, List, ℤ, length, map};
ghost use Rattle.std.specs.Prelude.{EachIndex, slice_index};
ghost use Rattle.csv_load.specs.Loading.{each_ok, point_of, points_of, records_of};
ghost use Rattle.csv_load.specs.Reading.{IsReading, bytes_left, records_left};

use byte_cursor::Bytes;
use csv::{ByteRecord, Reader};
use fields::{columns_of, point_of};
use point_codec::Entry;
use records::{next_record, open};
use std::alloc::{AllocFailed, Global};

/// Why a CSV file gives no points.
#[derive(Clone, Copy, PartialEq, Eq, Debug)]
pub enum CsvFault {
    /// No field of the header is the name at this place among those asked for, from 0.
    NoColumn { column: u32 },
    /// This record, counted from 1 after the header, has not as many fields as the header.
    Length { row: u64 },
    /// What this record has in a column is not a coordinate. Columns count from 0 as they were asked for.
    Value { row: u64, column: u32 },
    /// There was not enough memory.
    Memory,
}

impl<T: Drop> From<AllocFailed<T>> for CsvFault {
    ghost use Rattle.csv_load.specs.declared.CsvFault.TheVariants as fault;

    ghost from_gives = { λ _ e. e ≡ fault.Memory };

    fn from(_failed: AllocFailed<T>) -> CsvFault {
        CsvFault::Memory
    }
}

/// The entries of a file, one a record, with their coordinates in the columns that are named and their numbers from
/// `first` on, or the first fault: of the names in the order given, then of the records in turn, where a length comes
/// before a value.
pub fn read_entries<const D: usize>(
    alloc: Global,
    b: &[u8],
    columns: &[Bytes],
    first: u32,
) -> Result<Vec<Entry<D>>, CsvFault>
    requires some { 1 ≤ D }
    requires few { D ≤ 8 }
    requires named { length columns.now ≡ D }
    ensures points { IfOk result
        (λ entries. points_of columns.now (records_of b.now) ≡ Ok (map (λ e. e.point.c) entries.items)) }
    ensures numbers { IfOk result (λ entries. first + length entries.items ≤ 2 ^ 32
        → EachIndex entries.items (λ k. slice_index (map (λ e. e.doc) entries.items) k ≡ first + k)) }
    ensures fault { IfErr result
        (λ fault. fault ≢ CsvFault.Memory → points_of columns.now (records_of b.now) ≡ Err fault) }
{
    let mut reader = open(alloc, b);
    let mut fields = ByteRecord::new(alloc);
    if !next_record(&mut reader, &mut fields)? {
        return Err(CsvFault::NoColumn { column: 0 });
    }
    let width = fields.len();
    let places = columns_of::<D>(&fields, columns)?;
    let mut entries = Vec::new(alloc);
    let mut doc = first;
    let mut row: u64 = 0;
    while next_record(&mut reader, &mut fields)? {
        row += 1;
        let point = point_of(&fields, width, &places, row)?;
        entries.push(Entry { doc, point })?;
        doc = doc.saturating_add(1);
    }
    Ok(entries)
}

/// Reads all records of a file for their faults alone: it keeps no point. The fault is that of `read_entries`.
pub fn check_points<const D: usize>(
    alloc: Global,
    b: &[u8],
    columns: &[Bytes],
) -> Result<(), CsvFault>
    requires some { 1 ≤ D }
    requires few { D ≤ 8 }
    requires named { length columns.now ≡ D }
    ensures on_ok { OnOk result ((points : List (List ℤ)) × (points_of columns.now (records_of b.now) ≡ Ok points)) }
    ensures fault { IfErr result
        (λ fault. fault ≢ CsvFault.Memory → points_of columns.now (records_of b.now) ≡ Err fault) }
{
    let mut reader = open(alloc, b);
    let mut fields = ByteRecord::new(alloc);
    if !next_record(&mut reader, &mut fields)? {
        return Err(CsvFault::NoColumn { column: 0 });
    }
    let width = fields.len();
    let places = columns_of::<D>(&fields, columns)?;
    check_rows(&mut reader, &mut fields, width, &places)
}

/// Reads the records that are left for their faults alone; they count from 1. Each is read into `fields`.
fn check_rows<const D: usize>(
    reader: &mut Reader<&[u8]>,
    fields: &mut ByteRecord,
    width: usize,
    places: &[usize; D],
) -> Result<(), CsvFault>
    requires some { 1 ≤ D }
    requires few { D ≤ 8 }
    requires reading { IsReading reader.old }
    requires short { length (bytes_left reader.old) < 2 ^ 63 }
    ensures on_ok { OnOk result
        ((points : List (List ℤ)) × (each_ok (point_of width places.now) 1 (records_left reader.old) ≡ Ok points)) }
    ensures fault { IfErr result (λ fault. fault ≢ CsvFault.Memory
        → each_ok (point_of width places.now) 1 (records_left reader.old) ≡ Err fault) }
{
    let mut row: u64 = 0;
    'records: while next_record(reader, fields)? {
        row += 1;
        point_of::<D>(fields, width, places, row)?;
    }
    Ok(())
}
