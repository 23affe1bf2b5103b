//! Leaves against bytes that were computed by hand.

ghost use Rattle.std.specs.Prelude.{◌≤◌, ◌<◌, ◌^◌, length, All};
ghost use Rattle.point_codec.specs.Seen.{items_of};
ghost use Rattle.leaf_codec.specs.LeafOrder.{NoneTwice};
ghost use Rattle.leaf_codec.specs.Leaves.{leaf_limit};

use crate::asserts::same;
use crate::samples::{FIRST, SECOND, THIRD, entry};
use byte_cursor::Bytes;
use leaf_codec::{LeafView, arrange, encode_leaf, greatest_leaf};
use point_codec::{Cell, Entry, Point};
use std::test::Fail;

/// Five entries in two dimensions, in two pieces.
const PIECES: [u8; 29] = [
    0, 5, 1, 3, 0, 1, 6, 2, 5, 3, 3, 0x80, 0, 0, 0x80, 0, 0, 0, 1, 2, 1, 2, 2, 1, 0x14, 0x1e, 0x0a,
    0x32, 0x28,
];

/// The leaf of the entries.
fn leaf<const D: usize>(rt: HostRuntime, entries: &mut [Entry<D>]) -> Result<Bytes, Fail>
    requires dims { (1 ≤ D) × (D ≤ 8) }
    requires some { 1 ≤ length entries.now }
    requires few { length entries.now ≤ leaf_limit D }
    requires numbers { All (λ e. e.doc < 2 ^ 24) entries.now }
    requires once { NoneTwice (items_of entries.now) }
{
    arrange(entries);
    Ok(encode_leaf(rt.alloc(), entries)?)
}

#[test]
#[tactic(auto, using(leaf_codec::proofs::Apart::none_twice))]
fn spelled_in_order(rt: HostRuntime) -> Result<(), Fail> {
    let bytes = leaf(rt, &mut [entry(1, [7]), entry(0, [5])])?;
    same(&rt, bytes.as_slice(), FIRST.as_slice());
    Ok(())
}

#[test]
#[tactic(auto, using(leaf_codec::proofs::Apart::none_twice))]
fn spelled_at_one_point(rt: HostRuntime) -> Result<(), Fail> {
    let bytes = leaf(rt, &mut [entry(2, [7]), entry(3, [7])])?;
    same(&rt, bytes.as_slice(), SECOND.as_slice());
    Ok(())
}

#[test]
#[tactic(auto, using(leaf_codec::proofs::Apart::none_twice))]
fn spelled_alone(rt: HostRuntime) -> Result<(), Fail> {
    let bytes = leaf(rt, &mut [entry(4, [7])])?;
    same(&rt, bytes.as_slice(), THIRD.as_slice());
    Ok(())
}

#[test]
#[tactic(auto, using(leaf_codec::proofs::Apart::none_twice))]
fn spelled_in_pieces(rt: HostRuntime) -> Result<(), Fail> {
    let bytes = leaf(
        rt,
        &mut [
            entry(9, [1, 10]),
            entry(3, [1, 20]),
            entry(4, [1, 30]),
            entry(8, [2, 40]),
            entry(5, [2, 50]),
        ],
    )?;
    same(&rt, bytes.as_slice(), PIECES.as_slice());
    Ok(())
}

#[test]
fn limits(rt: HostRuntime) -> Result<(), Fail> {
    for (dims, limit) in [
        (1, 500),
        (2, 333),
        (3, 250),
        (4, 200),
        (5, 166),
        (6, 142),
        (7, 125),
        (8, 111),
    ] {
        same(&rt, greatest_leaf(dims), limit);
    }
    Ok(())
}

/// How many entries the bytes spell in the cell, with the sum of their numbers; none is (0, 0).
fn shown<const D: usize>(bytes: &[u8], lo: [i32; D], hi: [i32; D], count: u16) -> (u16, u64)
    requires { (1 ≤ D) × (D ≤ 8) }
{
    let Some(cell) = Cell::new(Point { c: lo }, Point { c: hi }) else {
        return (0, 0);
    };
    let Some(view) = LeafView::read(bytes, &cell, count) else {
        return (0, 0);
    };
    let mut sum = 0u64;
    for i in 0..view.count() {
        sum = sum.wrapping_add(u64::from(view.doc(i)));
        for x in view.point(i).c {
            sum = sum
                .wrapping_mul(31)
                .wrapping_add(u64::from(x.cast_unsigned()));
        }
    }
    (view.count(), sum)
}

/// A cell and a count, and what the leaf shows then.
const CELLS: [(i32, i32, u16, (u16, u64)); 5] = [
    (0, 9, 2, (2, (5 + 1) * 31 + 7)),
    (0, 9, 1, (0, 0)),
    (0, 9, 0, (0, 0)),
    (0, 9, 501, (0, 0)),
    (5, 6, 2, (0, 0)),
];

#[test]
fn read_in_cells(rt: HostRuntime) -> Result<(), Fail> {
    for (lo, hi, count, expected) in CELLS {
        same(&rt, shown(&FIRST, [lo], [hi], count), expected);
    }
    Ok(())
}

/// Leaves of two entries at 5 and 7, and their numbers: in a row, and in one, two and three bytes each.
const NUMBERS: [(&[u8], [u32; 2]); 4] = [
    (&FIRST, [0, 1]),
    (&[0, 2, 1, 4, 5, 0, 3, 0x80, 0, 0, 0, 0, 5, 7], [9, 4]),
    (
        &[0, 2, 2, 4, 1, 44, 0, 0, 3, 0x80, 0, 0, 0, 0, 5, 7],
        [304, 4],
    ),
    (
        &[
            0, 2, 3, 4, 0, 0, 0, 1, 0x11, 0x70, 3, 0x80, 0, 0, 0, 0, 5, 7,
        ],
        [4, 70_004],
    ),
];

#[test]
fn numbers_of_each_width(rt: HostRuntime) -> Result<(), Fail> {
    let cell = Cell::new(Point { c: [0] }, Point { c: [9] }).ok_or("no cell")?;
    for (bytes, numbers) in NUMBERS {
        let view = LeafView::<1>::read(bytes, &cell, 2).ok_or("no leaf")?;
        let mut out = vec![in rt.alloc(); 77u32]?;
        view.push_numbers(&mut out)?;
        let expected = [77, numbers[0], numbers[1]];
        same(&rt, out.as_slice(), expected.as_slice());
    }
    Ok(())
}

#[test]
fn no_front_is_read(rt: HostRuntime) -> Result<(), Fail> {
    for n in 0..FIRST.len() {
        same(&rt, shown(&FIRST[..n], [0], [9], 2), (0, 0));
    }
    Ok(())
}

/// No leaves of two entries.
const REFUSED: [&[u8]; 7] = [
    &[0, 2, 1, 0, 3, 0x80, 0, 0, 0, 0, 5, 7],
    &[0, 2, 1, 0, 0, 1, 3, 0x80, 0, 0, 0, 0, 5, 7],
    &[0, 2, 0, 0, 3, 0x80, 0, 0, 0, 0, 7, 5],
    &[0, 2, 0, 0, 3, 0x80, 0, 0, 0, 0, 5, 7, 0],
    &[0, 2, 0, 0x80, 0, 3, 0x80, 0, 0, 0, 0, 5, 7],
    &[0, 2, 0, 0xff, 0xff, 0xff, 7, 3, 0x80, 0, 0, 0, 0, 5, 7],
    &[0, 2, 0, 0, 2, 0x80, 0, 0, 0, 0, 0, 5, 7],
];

#[test]
fn others_are_refused(rt: HostRuntime) -> Result<(), Fail> {
    for bytes in REFUSED {
        same(&rt, shown(bytes, [0], [9], 2), (0, 0));
    }
    Ok(())
}

/// The five entries again, as none are spelled.
const OTHER_PIECES: [u8; 29] = [
    0, 5, 1, 3, 0, 1, 6, 2, 5, 3, 3, 0x80, 0, 0, 0x80, 0, 0, 0, 0, 1, 1, 1, 2, 2, 0x14, 0x1e, 0x0a,
    0x32, 0x28,
];

#[test]
fn pieces_are_read(rt: HostRuntime) -> Result<(), Fail> {
    same(&rt, shown(&PIECES, [0, 0], [9, 90], 5).0, 5);
    same(&rt, shown(&OTHER_PIECES, [0, 0], [9, 90], 5), (0, 0));
    Ok(())
}

/// How many of the byte strings that differ from the leaf in one byte are a leaf of as many entries. No other answer
/// than that or none is given.
fn leaves_one_byte_off<const D: usize>(
    rt: HostRuntime,
    leaf: &[u8],
    count: u16,
) -> Result<u32, Fail>
    requires { (1 ≤ D) × (D ≤ 8) }
{
    let mut found = 0u32;
    for at in 0..leaf.len() {
        let mut bytes = leaf.to_vec(rt.alloc())?;
        for byte in 0..=255 {
            bytes[at] = byte;
            let (entries, _) = shown(bytes.as_slice(), [i32::MIN; D], [i32::MAX; D], count);
            found = found.saturating_add(u32::from(entries == count && byte != leaf[at]));
        }
    }
    Ok(found)
}

/// The counts come from a reader and a writer of leaves in another language.
#[test]
fn one_byte_changed(rt: HostRuntime) -> Result<(), Fail> {
    same(&rt, leaves_one_byte_off::<1>(rt, &FIRST, 2)?, 1147);
    same(&rt, leaves_one_byte_off::<2>(rt, &PIECES, 5)?, 3701);
    Ok(())
}
