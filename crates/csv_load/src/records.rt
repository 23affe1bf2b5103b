//! The records of a file, one after the other.

ghost use Rattle.std.specs.Prelude.{◌≡◌, ◌≤◌, true, false, [], IfOk, OnErr, Err, length};
ghost use Rattle.csv.specs.Records.{fields_of};
ghost use Rattle.csv_load.specs.Loading.{records_of};
ghost use Rattle.csv_load.specs.Reading.{IsReading, GaveRecord, records_left, bytes_left};

use crate::CsvFault;
use csv::{ByteRecord, Reader, ReaderBuilder};
use std::alloc::Global;

/// A reader of all records of a file, the header among them, whatever their lengths.
pub fn open(alloc: Global, b: &[u8]) -> Reader<&[u8]>
    ensures reading { IsReading result }
    ensures records { records_left result ≡ records_of b.now }
    ensures short { length (bytes_left result) ≤ length b.now }
{
    ReaderBuilder::new()
        .has_headers(false)
        .flexible(true)
        .from_reader(alloc, b)
}

/// Reads the next record into `fields`, if there is one. A slice never fails, so an error of the reader is one of
/// memory.
pub fn next_record(reader: &mut Reader<&[u8]>, fields: &mut ByteRecord) -> Result<bool, CsvFault>
    requires { IsReading reader.old }
    ensures more { IfOk result (λ found. found ≡ true → GaveRecord reader.old reader.new (fields_of fields.new)) }
    ensures end { IfOk result (λ found. found ≡ false → records_left reader.old ≡ []) }
    ensures memory { OnErr result (result ≡ Err CsvFault.Memory) }
{
    let Ok(found) = reader.read_byte_record(fields) else {
        return Err(CsvFault::Memory);
    };
    Ok(found)
}
