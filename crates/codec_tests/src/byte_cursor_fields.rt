//! Outside vectors, bad bytes, and each call that takes memory once.

use crate::asserts::{same, same_at};
use byte_cursor::{
    Bytes, Cursor, Short, VintFault, put_slice, put_u8, put_u16, put_u32, put_u64, put_vint,
};
use std::alloc::Global;
use std::test::Fail;

/// Vints with their numbers, and bytes that are none.
const VINTS: [(&[u8], Result<u32, VintFault>); 20] = [
    (&[0x00], Ok(0)),
    (&[0x7f], Ok(127)),
    (&[0x80, 0x01], Ok(128)),
    (&[0xac, 0x02], Ok(300)),
    (&[0xcd, 0x02], Ok(333)),
    (&[0xff, 0x7f], Ok(16_383)),
    (&[0x80, 0x80, 0x01], Ok(16_384)),
    (&[0xff, 0xff, 0x7f], Ok(2_097_151)),
    (&[0x80, 0x80, 0x80, 0x01], Ok(2_097_152)),
    (&[0xff, 0xff, 0xff, 0x7f], Ok(268_435_455)),
    (&[0x80, 0x80, 0x80, 0x80, 0x01], Ok(268_435_456)),
    (&[0xff, 0xff, 0xff, 0xff, 0x0f], Ok(4_294_967_295)),
    // a group of zero at the end
    (&[0x80, 0x00], Err(VintFault::NotCanonical)),
    (&[0xff, 0x80, 0x00], Err(VintFault::NotCanonical)),
    // 2^32, and a fifth byte that says that more follow
    (
        &[0x80, 0x80, 0x80, 0x80, 0x10],
        Err(VintFault::NotCanonical),
    ),
    (
        &[0x80, 0x80, 0x80, 0x80, 0x80],
        Err(VintFault::NotCanonical),
    ),
    (
        &[0x80, 0x80, 0x80, 0x80, 0x80, 0x01],
        Err(VintFault::NotCanonical),
    ),
    // no byte that ends the number
    (&[], Err(VintFault::Short)),
    (&[0x80], Err(VintFault::Short)),
    (&[0xff, 0xff, 0xff, 0xff], Err(VintFault::Short)),
];

#[test]
fn vints_are_taken(rt: HostRuntime) {
    for (bytes, want) in VINTS {
        let mut cursor = Cursor::new(bytes);
        same_at(&rt, cursor.take_vint(), want, &bytes);
        // what is refused is still there
        let left = if want.is_ok() { [].as_slice() } else { bytes };
        same_at(&rt, cursor.rest(), left, &bytes);
    }
}

/// The number as a vint, between two bytes.
fn put(alloc: Global, n: u32) -> Result<Vec<u8>, Fail> {
    let mut out = vec![in alloc; 9]?;
    put_vint(&mut out, n)?;
    put_u8(&mut out, 0xff)?;
    Ok(out)
}

/// The bytes between the same two.
fn framed(alloc: Global, bytes: &[u8]) -> Result<Vec<u8>, Fail> {
    let mut out = vec![in alloc; 9]?;
    out.extend_from_slice(bytes)?;
    out.push(0xff)?;
    Ok(out)
}

#[test]
fn vints_are_put(rt: HostRuntime) -> Result<(), Fail> {
    for (bytes, want) in VINTS {
        if let Ok(n) = want {
            let expected = framed(rt.alloc(), bytes)?;
            same_at(&rt, put(rt.alloc(), n)?.as_slice(), expected.as_slice(), &n);
        }
    }
    Ok(())
}

/// A field of each width, and two bytes as they stand.
const FIELDS: [u8; 17] = [
    1, 2, 3, 4, 5, 6, 7, 8, 9, 10, 11, 12, 13, 14, 15, b'a', b'b',
];

#[test]
fn fields_are_put(rt: HostRuntime) -> Result<(), Fail> {
    let mut out = Vec::new(rt.alloc());
    put_u8(&mut out, 0x01)?;
    put_u16(&mut out, 0x0203)?;
    put_u32(&mut out, 0x0405_0607)?;
    put_u64(&mut out, 0x0809_0a0b_0c0d_0e0f)?;
    put_slice(&mut out, b"ab")?;
    same(&rt, out.as_slice(), FIELDS.as_slice());
    Ok(())
}

#[test]
fn fields_are_taken(rt: HostRuntime) {
    let mut cursor = Cursor::new(&FIELDS);
    same(&rt, cursor.take_u8(), Ok(0x01));
    same(&rt, cursor.take_u16(), Ok(0x0203));
    same(&rt, cursor.take_u32(), Ok(0x0405_0607));
    same(&rt, cursor.take_u64(), Ok(0x0809_0a0b_0c0d_0e0f));
    same(&rt, cursor.rest(), b"ab".as_slice());
}

/// So many bytes of the last two, one after the other, and what is taken.
const SLICES: [(usize, Result<&[u8], Short>); 4] = [
    (3, Err(Short)),
    (2, Ok(b"ab")),
    (0, Ok(b"")),
    (1, Err(Short)),
];

#[test]
fn slices_are_taken(rt: HostRuntime) {
    let mut cursor = Cursor::new(&FIELDS[15..]);
    for (n, want) in SLICES {
        same_at(&rt, cursor.take_slice(n), want, &n);
    }
    same(&rt, cursor.take_u8(), Err(Short));
}

#[test]
fn bytes_are_kept(rt: HostRuntime) -> Result<(), Fail> {
    let kept = Bytes::new(FIELDS.to_vec(rt.alloc())?);
    same(&rt, kept.as_slice(), FIELDS.as_slice());
    same(&rt, kept.into_vec().as_slice(), FIELDS.as_slice());
    Ok(())
}

/// Too few bytes for a field: they are all still there.
#[test]
fn short(rt: HostRuntime) {
    let bytes = [0x11u8; 7];
    for len in 0..8usize {
        let front = &bytes[..len];
        let mut cursor = Cursor::new(front);
        if len < 2 {
            same(&rt, cursor.take_u16(), Err(Short));
        }
        if len < 4 {
            same(&rt, cursor.take_u32(), Err(Short));
        }
        same(&rt, cursor.take_u64(), Err(Short));
        same(&rt, cursor.rest(), front);
    }
}
