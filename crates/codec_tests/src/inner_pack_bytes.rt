//! Bodies with bytes changed. The counts come from a reader of bodies in another language.

ghost use Rattle.std.specs.Prelude.{◌≤◌};

use crate::asserts::{same, same_at};
use crate::samples::{OWN, PACKED, TABLE};
use byte_cursor::Bytes;
use inner_pack::{Index, NotIndex};
use std::alloc::Global;
use std::test::Fail;

/// Five leaves of two dimensions in four leaf pages, in each form.
const TABLE_OF_FIVE: [u8; 76] = [
    0x7f, 0xff, 0xfe, 0x0c, 0x7f, 0xff, 0xff, 0xf7, 0x80, 1, 0x11, 0x71, 0x80, 0, 0xea, 0x60, 0,
    0x80, 0, 0, 0x64, 1, 0x7f, 0xff, 0xff, 0xf9, 0, 0x7f, 0xff, 0xfe, 0xd4, 1, 0x80, 0, 0, 5, 0, 0,
    0, 0, 0, 0, 7, 0xd0, 0, 0, 0, 0, 7, 0xd0, 8, 0x10, 0, 0, 0, 1, 0, 0, 0, 1, 0, 0, 0, 2, 0, 0,
    0x0f, 0xe0, 0, 0, 0, 3, 0, 0, 1, 0x2c,
];

const PACKED_FIVE: [u8; 55] = [
    0x7f, 0xff, 0xfe, 0x0c, 0x7f, 0xff, 0xff, 0xf7, 0x80, 1, 0x11, 0x71, 0x80, 0, 0xea, 0x60, 0,
    0x80, 0, 0, 0x64, 2, 0, 0x13, 8, 0xf9, 1, 0, 0x0d, 0, 0x7f, 0xff, 0xfe, 0xd4, 0, 0xd0, 0x0f, 2,
    0xd0, 0x0f, 0x90, 0x10, 1, 5, 0x80, 0, 0, 5, 1, 0, 2, 0xe0, 0x1f, 0xac, 2,
];

const OWN_FIVE: [u8; 135] = [
    0x7f, 0xff, 0xfe, 0x0c, 0x7f, 0xff, 0xff, 0xf7, 0x80, 1, 0x11, 0x71, 0x80, 0, 0xea, 0x60, 0,
    0x80, 0, 0, 0x64, 2, 0, 0x43, 8, 0xf9, 1, 0, 0x2d, 0, 0x7f, 0xff, 0xfe, 0xd4, 0, 0xd0, 0x0f,
    0x12, 0xd0, 0x0f, 0x7f, 0xff, 0xfe, 0x0c, 0x7f, 0xff, 0xff, 0xf7, 0x7f, 0xff, 0xfe, 0xd4, 0x7f,
    0xff, 0xff, 0xf9, 0x90, 0x10, 0x7f, 0xff, 0xfe, 0xd4, 0x7f, 0xff, 0xff, 0xf7, 0x80, 0, 0, 0x63,
    0x7f, 0xff, 0xff, 0xf9, 1, 0x80, 0, 0, 0, 0x7f, 0xff, 0xff, 0xf9, 0x80, 0, 0, 0x64, 0x80, 0,
    0xea, 0x60, 5, 0x80, 0, 0, 5, 1, 0, 0x12, 0xe0, 0x1f, 0x80, 0, 0, 0x64, 0x7f, 0xff, 0xff, 0xf7,
    0x80, 1, 0x11, 0x70, 0x80, 0, 0, 5, 0xac, 2, 0x80, 0, 0, 0x64, 0x80, 0, 0, 5, 0x80, 1, 0x11,
    0x71, 0x80, 0, 0xea, 0x60,
];

/// One leaf of eight dimensions in form 3.
const ONE_LEAF: [u8; 129] = [
    0x7f, 0xff, 0xff, 0xfc, 0x7f, 0xff, 0xff, 0xfd, 0x7f, 0xff, 0xff, 0xfe, 0x7f, 0xff, 0xff, 0xff,
    0x80, 0, 0, 0, 0x80, 0, 0, 1, 0x80, 0, 0, 2, 0x80, 0, 0, 3, 0x80, 0, 0, 4, 0x80, 0, 0, 4, 0x80,
    0, 0, 4, 0x80, 0, 0, 4, 0x80, 0, 0, 4, 0x80, 0, 0, 4, 0x80, 0, 0, 4, 0x80, 0, 3, 0xe8, 0x4d,
    0x7f, 0xff, 0xff, 0xfc, 0x7f, 0xff, 0xff, 0xfd, 0x7f, 0xff, 0xff, 0xfe, 0x7f, 0xff, 0xff, 0xff,
    0x80, 0, 0, 0, 0x80, 0, 0, 1, 0x80, 0, 0, 2, 0x80, 0, 0, 3, 0x80, 0, 0, 4, 0x80, 0, 0, 4, 0x80,
    0, 0, 4, 0x80, 0, 0, 4, 0x80, 0, 0, 4, 0x80, 0, 0, 4, 0x80, 0, 0, 4, 0x80, 0, 3, 0xe8,
];

/// Whether the bytes are an index. Those that are none come back as they were.
fn is_index<const D: usize>(
    alloc: Global,
    form: u8,
    leaves: u32,
    bytes: &[u8],
) -> Result<bool, Fail>
    requires { (1 ≤ D) × (D ≤ 8) }
{
    let handed = Bytes::new(bytes.to_vec(alloc)?);
    match Index::<D>::read(form, leaves, handed) {
        Ok(_) => Ok(true),
        Err(NotIndex { b }) => {
            if b.as_slice() != bytes {
                Err("other bytes come back")?;
            }
            Ok(false)
        }
    }
}

/// How many of the byte strings that differ from the body in one byte, by one of these changes, are an index too.
fn one_byte_off<const D: usize>(
    alloc: Global,
    form: u8,
    leaves: u32,
    body: &[u8],
    changes: &[u8],
) -> Result<u32, Fail>
    requires { (1 ≤ D) × (D ≤ 8) }
{
    let mut found = 0u32;
    for at in 0..body.len() {
        for change in changes {
            let mut bytes = body.to_vec(alloc)?;
            bytes[at] ^= *change;
            let is_index = is_index::<D>(alloc, form, leaves, bytes.as_slice())?;
            found = found.saturating_add(u32::from(is_index));
        }
    }
    Ok(found)
}

/// How many fronts of the body, itself not counted, are an index too.
fn fronts<const D: usize>(alloc: Global, form: u8, leaves: u32, body: &[u8]) -> Result<u32, Fail>
    requires { (1 ≤ D) × (D ≤ 8) }
{
    let mut found = 0u32;
    for n in 0..body.len() {
        let is_index = is_index::<D>(alloc, form, leaves, &body[..n])?;
        found = found.saturating_add(u32::from(is_index));
    }
    Ok(found)
}

/// Each change of a byte.
fn every_change(alloc: Global) -> Result<Vec<u8>, Fail> {
    let mut all = Vec::new(alloc);
    for change in 1..=255u8 {
        all.push(change)?;
    }
    Ok(all)
}

/// Bodies of three leaves of one dimension: the form, the bytes, and how many that differ in one byte are an index too.
const BYTES_CHANGED: [(u8, &[u8], u32); 3] = [
    (1, &TABLE, 1291),
    (2, &PACKED, 1146),
    (3, &OWN, 1020),
];

#[test]
fn each_byte_changed(rt: HostRuntime) -> Result<(), Fail> {
    let alloc = rt.alloc();
    let all = every_change(alloc)?;
    for (form, body, expected) in BYTES_CHANGED {
        let found = one_byte_off::<1>(alloc, form, 3, body, all.as_slice())?;
        same_at(&rt, found, expected, &form);
    }
    Ok(())
}

/// One bit of a byte.
const BITS: [u8; 8] = [1, 2, 4, 8, 16, 32, 64, 128];

/// Bodies of five leaves of two dimensions: the form, the bytes, and how many that differ in one bit are an index too.
const BITS_CHANGED: [(u8, &[u8], u32); 3] = [
    (1, &TABLE_OF_FIVE, 191),
    (2, &PACKED_FIVE, 184),
    (3, &OWN_FIVE, 202),
];

#[test]
fn each_bit_changed(rt: HostRuntime) -> Result<(), Fail> {
    let alloc = rt.alloc();
    for (form, body, expected) in BITS_CHANGED {
        let found = one_byte_off::<2>(alloc, form, 5, body, &BITS)?;
        same_at(&rt, found, expected, &form);
    }
    Ok(())
}

#[test]
fn each_bit_of_eight_dimensions_changed(rt: HostRuntime) -> Result<(), Fail> {
    let found = one_byte_off::<8>(rt.alloc(), 3, 1, &ONE_LEAF, &BITS)?;
    same(&rt, found, 398);
    Ok(())
}

#[test]
fn no_front_of_three_leaves_is_an_index(rt: HostRuntime) -> Result<(), Fail> {
    let alloc = rt.alloc();
    same(&rt, fronts::<1>(alloc, 1, 3, &TABLE)?, 0);
    same(&rt, fronts::<1>(alloc, 2, 3, &PACKED)?, 0);
    Ok(())
}

#[test]
fn no_front_of_five_leaves_is_an_index(rt: HostRuntime) -> Result<(), Fail> {
    let alloc = rt.alloc();
    same(&rt, fronts::<2>(alloc, 1, 5, &TABLE_OF_FIVE)?, 0);
    same(&rt, fronts::<2>(alloc, 3, 5, &OWN_FIVE)?, 0);
    Ok(())
}

#[test]
fn no_front_of_eight_dimensions_is_an_index(rt: HostRuntime) -> Result<(), Fail> {
    same(&rt, fronts::<8>(rt.alloc(), 3, 1, &ONE_LEAF)?, 0);
    Ok(())
}
