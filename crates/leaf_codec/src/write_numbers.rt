//! Writing the numbers of a leaf.

ghost use Rattle.std.specs.Prelude.{◌≡◌, ◌≤◌, ◌<◌, ◌^◌, ◌++◌, ◌-◌, length, All, OnOk};
ghost use Rattle.std.specs.List.{flat_map};
ghost use Rattle.leaf_codec.specs.Spelling.{least, greatest, is_row, width, low_bytes, numbers};
ghost use Rattle.leaf_codec.specs.Entries.{docs_of};

use byte_cursor::{Memory, put_slice, put_u8, put_vint};
use point_codec::Entry;

/// Appends the numbers of the entries.
pub fn put_numbers<const D: usize>(out: &mut Vec<u8>, entries: &[Entry<D>]) -> Result<(), Memory>
    requires dims { D ≤ 8 }
    requires some { 1 ≤ length entries.now }
    requires numbers { All (λ e. e.doc < 2 ^ 24) entries.now }
    ensures { OnOk result (out.new.items ≡ out.old.items ++ numbers (docs_of entries.now)) }
{
    let least = least(entries);
    if is_row(entries, least) {
        put_u8(out, 0)?;
        return put_vint(out, least);
    }
    let width = width(greatest(entries) - least);
    put_u8(out, width)?;
    put_vint(out, least)?;
    put_offsets(out, entries, least, width)
}

/// The least number of the entries, of which there is at least one.
fn least<const D: usize>(entries: &[Entry<D>]) -> u32
    requires dims { D ≤ 8 }
    requires some { 1 ≤ length entries.now }
    ensures { result ≡ least (docs_of entries.now) }
{
    let mut least = entries[0].doc;
    for entry in entries {
        least = least.min(entry.doc);
    }
    least
}

/// The greatest number of the entries, or 0 where there is none.
fn greatest<const D: usize>(entries: &[Entry<D>]) -> u32
    requires { D ≤ 8 }
    ensures { result ≡ greatest (docs_of entries.now) }
{
    let mut greatest = 0u32;
    for entry in entries {
        greatest = greatest.max(entry.doc);
    }
    greatest
}

/// Whether each number is the least one plus its place.
fn is_row<const D: usize>(entries: &[Entry<D>], first: u32) -> bool
    requires dims { D ≤ 8 }
    requires least { first ≡ least (docs_of entries.now) }
    ensures { result ≡ is_row (docs_of entries.now) }
{
    for (i, entry) in entries.iter().enumerate() {
        if u64::from(entry.doc) != u64::from(first) + i as u64 {
            return false;
        }
    }
    true
}

/// The least number of bytes, from 1 to 3, that holds the number.
pub fn width(n: u32) -> u8
    ensures value { result ≡ width n }
    ensures few { result ≤ 3 }
{
    if n < 0x100 {
        1
    } else if n < 0x1_0000 {
        2
    } else {
        3
    }
}

/// Appends each number less the least, in `width` bytes.
fn put_offsets<const D: usize>(
    out: &mut Vec<u8>,
    entries: &[Entry<D>],
    least: u32,
    width: u8,
) -> Result<(), Memory>
    requires dims { D ≤ 8 }
    requires least { All (λ e. least ≤ e.doc) entries.now }
    requires narrow { width ≤ 3 }
    ensures { OnOk result
        (out.new.items ≡ out.old.items ++ flat_map (λ n. low_bytes width (n - least)) (docs_of entries.now)) }
{
    for entry in entries {
        let bytes = (entry.doc - least).to_be_bytes();
        put_slice(out, &bytes[4 - width as usize..])?;
    }
    Ok(())
}
