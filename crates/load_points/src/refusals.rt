//! Refuses a CSV file for its own fault, or for another number of columns than the index has dimensions.

ghost use Rattle.std.specs.Prelude.{◌≡◌, ◌≢◌, ◌≤◌, ◌<◌, ℕ, true, length, Ok, Err};
ghost use Rattle.std.specs.Prelude.{IfErr, OnOk, List, ℤ};
ghost use Rattle.outer_io.specs.Files.{Files};
ghost use Rattle.csv_load.specs.Loading.{points_of, records_of};
ghost use Rattle.stored_index.specs.Stored.{IsStored};
ghost use Rattle.load_points.specs.Loaded.{load_answer, loaded_by};
ghost use Rattle.load_points.specs.Loads.{HasIndexDims, Loads};

use crate::texts::{put_csv_fault, put_dims};
use byte_cursor::Bytes;
use csv_load::{CsvFault, check_points};
use page_cache::PageFault;
use std::alloc::Global;

/// Refuses a file whose columns are not as many as the dimensions, or for its own fault, which comes first.
pub(crate) fn refuse_dims(
    alloc: Global,
    dims: u8,
    columns: &[Bytes],
    input: &[u8],
    text: &mut Vec<u8>,
) -> Result<bool, PageFault>
    requires some { 1 ≤ length columns.now }
    requires few { length columns.now ≤ 8 }
    requires other { length columns.now ≢ dims }
    ensures { (files : Files) (faults : ℕ)
        → Loads (Unit {0}) (Unit {0}) (HasIndexDims files dims) (λ stored. load_answer stored input.now columns.now)
        (record { files = files; faults = faults; text = text.old.items })
        (record { files = files; faults = faults; text = text.new.items }) result }
{
    match look_through(alloc, columns, input) {
        Ok(()) => {
            put_dims(text, dims)?;
            Ok(true)
        }
        Err(CsvFault::Memory) => Err(PageFault::Memory),
        Err(fault) => refuse_file(text, columns, &fault),
    }
}

/// Refuses a file for its fault.
pub(crate) fn refuse_file(
    text: &mut Vec<u8>,
    columns: &[Bytes],
    fault: &CsvFault,
) -> Result<bool, PageFault>
    requires { fault.now ≢ CsvFault.Memory }
    ensures { (files : Files) (faults : ℕ)
        → Loads (Unit {0}) (Unit {0}) (IsStored files) (λ stored. loaded_by columns.now stored (Err fault.now))
        (record { files = files; faults = faults; text = text.old.items })
        (record { files = files; faults = faults; text = text.new.items }) result }
{
    put_csv_fault(text, columns, fault)?;
    Ok(true)
}

/// Reads all records for their faults alone.
fn look_through(alloc: Global, columns: &[Bytes], input: &[u8]) -> Result<(), CsvFault>
    requires some { 1 ≤ length columns.now }
    requires few { length columns.now ≤ 8 }
    ensures on_ok { OnOk result
        ((points : List (List ℤ)) × (points_of columns.now (records_of input.now) ≡ Ok points)) }
    ensures fault { IfErr result
        (λ fault. fault ≢ CsvFault.Memory → points_of columns.now (records_of input.now) ≡ Err fault) }
{
    match columns.len() {
        1 => check_points::<1>(alloc, input, columns),
        2 => check_points::<2>(alloc, input, columns),
        3 => check_points::<3>(alloc, input, columns),
        4 => check_points::<4>(alloc, input, columns),
        5 => check_points::<5>(alloc, input, columns),
        6 => check_points::<6>(alloc, input, columns),
        7 => check_points::<7>(alloc, input, columns),
        _ => check_points::<8>(alloc, input, columns),
    }
}
