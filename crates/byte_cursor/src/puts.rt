//! Appending fields to a vector.

ghost use Rattle.std.specs.Prelude.{◌≡◌, ◌+◌, ◌%◌, ◌++◌, ◌∷◌, [], OnOk, OnErr};
ghost use Rattle.std.specs.Int.{w16, w32, w64, to_be_bytes};
ghost use Rattle.byte_cursor.specs.Vint.{AppendsVint};

use byteorder::{BigEndian, ByteOrder};
use std::alloc::AllocError;

/// The error of a call for which no memory could be had.
pub type Memory = AllocError;

/// Appends one byte. For want of memory the bytes stay as they were.
pub fn put_u8(out: &mut Vec<u8>, v: u8) -> Result<(), Memory>
    ensures ok { OnOk result (out.new.items ≡ out.old.items ++ v ∷ []) }
    ensures err { OnErr result (out.new.items ≡ out.old.items) }
{
    out.push(v)?;
    Ok(())
}

/// Appends a number of 16 bits, the greatest byte first.
pub fn put_u16(out: &mut Vec<u8>, v: u16) -> Result<(), Memory>
    ensures ok { OnOk result (out.new.items ≡ out.old.items ++ to_be_bytes w16 v) }
    ensures err { OnErr result (out.new.items ≡ out.old.items) }
{
    let mut bytes = [0; 2];
    BigEndian::write_u16(&mut bytes, v);
    put_slice(out, &bytes)
}

/// Appends a number of 32 bits, the greatest byte first.
pub fn put_u32(out: &mut Vec<u8>, v: u32) -> Result<(), Memory>
    ensures ok { OnOk result (out.new.items ≡ out.old.items ++ to_be_bytes w32 v) }
    ensures err { OnErr result (out.new.items ≡ out.old.items) }
{
    let mut bytes = [0; 4];
    BigEndian::write_u32(&mut bytes, v);
    put_slice(out, &bytes)
}

/// Appends a number of 64 bits, the greatest byte first.
pub fn put_u64(out: &mut Vec<u8>, v: u64) -> Result<(), Memory>
    ensures ok { OnOk result (out.new.items ≡ out.old.items ++ to_be_bytes w64 v) }
    ensures err { OnErr result (out.new.items ≡ out.old.items) }
{
    let mut bytes = [0; 8];
    BigEndian::write_u64(&mut bytes, v);
    put_slice(out, &bytes)
}

/// Appends the bytes as they stand.
pub fn put_slice(out: &mut Vec<u8>, b: &[u8]) -> Result<(), Memory>
    ensures ok { OnOk result (out.new.items ≡ out.old.items ++ b.now) }
    ensures err { OnErr result (out.new.items ≡ out.old.items) }
{
    out.extend_from_slice(b)
}

/// Appends the one canonical vint of the number: one byte for each group of seven bits, five at most.
pub fn put_vint(out: &mut Vec<u8>, v: u32) -> Result<(), Memory>
    ensures ok { OnOk result (AppendsVint out.old.items out.new.items v) }
    ensures err { OnErr result (out.new.items ≡ out.old.items) }
{
    if v < 1 << 7 {
        put_slice(out, &[v as u8])
    } else if v < 1 << 14 {
        put_slice(out, &[group(v), (v >> 7) as u8])
    } else if v < 1 << 21 {
        put_slice(out, &[group(v), group(v >> 7), (v >> 14) as u8])
    } else if v < 1 << 28 {
        put_slice(
            out,
            &[group(v), group(v >> 7), group(v >> 14), (v >> 21) as u8],
        )
    } else {
        put_slice(
            out,
            &[
                group(v),
                group(v >> 7),
                group(v >> 14),
                group(v >> 21),
                (v >> 28) as u8,
            ],
        )
    }
}

/// The low seven bits, marked as not the last.
fn group(v: u32) -> u8
    ensures { result ≡ 128 + v % 128 }
{
    128 + (v % 128) as u8
}
