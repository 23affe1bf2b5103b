//! The lines of an export. For want of memory a part of a line may be appended.

ghost use Rattle.std.specs.Prelude.{◌≡◌, ◌++◌, OnOk, codes};
ghost use Rattle.std.specs.Fmt.{signed_decimal};
ghost use Rattle.std.specs.List.{flat_map};
ghost use Rattle.leaf_codec.specs.LeafOrder.{item_of};
ghost use Rattle.export_points.specs.Exported.{columns_text, header_text, record_text};

use itoa::Buffer;
use point_codec::Entry;
use std::alloc::AllocError;

/// Appends the names of the columns.
#[tactic(auto, unfolding(crate::specs::Exported::header_text))]
pub(crate) fn put_header(text: &mut Vec<u8>, as_ranges: bool, dims: usize) -> Result<(), AllocError>
    ensures { OnOk result (text.new.items ≡ text.old.items ++ header_text as_ranges dims) }
{
    text.extend_from_slice(b"doc")?;
    if as_ranges {
        put_columns(text, b"l", dims / 2)?;
        put_columns(text, b"h", dims / 2)?;
    } else {
        put_columns(text, b"c", dims)?;
    }
    text.extend_from_slice(b"\n")?;
    Ok(())
}

/// Appends the names of so many columns of a letter.
fn put_columns(text: &mut Vec<u8>, letter: &[u8], count: usize) -> Result<(), AllocError>
    ensures { OnOk result (text.new.items ≡ text.old.items ++ columns_text letter.now count) }
{
    let mut digits = Buffer::new();
    for i in 0..count {
        text.extend_from_slice(b",")?;
        text.extend_from_slice(letter)?;
        text.extend_from_slice(digits.format(i + 1).as_bytes())?;
    }
    Ok(())
}

/// Appends a number with a point of it.
#[tactic(auto, unfolding(crate::specs::Exported::record_text))]
pub(crate) fn put_record<const D: usize>(
    text: &mut Vec<u8>,
    entry: &Entry<D>,
) -> Result<(), AllocError>
    ensures { OnOk result (text.new.items ≡ text.old.items ++ record_text (item_of entry.now)) }
{
    let mut digits = Buffer::new();
    text.extend_from_slice(digits.format(entry.doc).as_bytes())?;
    put_coordinates(text, &entry.point.c)?;
    text.extend_from_slice(b"\n")?;
    Ok(())
}

/// Appends the coordinates of a point, each behind a comma.
fn put_coordinates(text: &mut Vec<u8>, coordinates: &[i32]) -> Result<(), AllocError>
    ensures { OnOk result
        (text.new.items ≡ text.old.items ++ flat_map (λ n. codes "," ++ signed_decimal n) coordinates.now) }
{
    let mut digits = Buffer::new();
    for n in coordinates {
        text.extend_from_slice(b",")?;
        text.extend_from_slice(digits.format(*n).as_bytes())?;
    }
    Ok(())
}
