//! Indexes in the three forms with bytes from outside of the code: these are read, and changed ones are refused.

use crate::asserts::{holds_at, same};
use crate::samples::{OWN, PACKED, TABLE};
use byte_cursor::Bytes;
use inner_pack::{Index, LeafPlace, NodeAt};
use std::process::Abort;
use std::test::Fail;

/// The form, the number of leaves and bytes that are no index of them: the first leaf's cell outside its path cell; a
/// shared prefix that is not the greatest; another length of a left child; a byte behind the last field; another
/// offset; a split outside the cell; another place in the table; another number of leaves.
const REFUSED: [(u8, u32, &[u8]); 9] = [
    (
        3,
        3,
        &[
            0x80, 0, 0, 5, 0x80, 0, 0, 7, 3, 7, 0, 21, 22, 4, 0, 12, 9, 12, 0x80, 0, 0, 4, 0x80, 0,
            0, 7, 9, 0x80, 0, 0, 7, 0x80, 0, 0, 7, 9, 0x80, 0, 0, 7, 0x80, 0, 0, 7,
        ],
    ),
    (
        2,
        3,
        &[
            0x80, 0, 0, 5, 0x80, 0, 0, 7, 2, 0, 7, 0, 21, 6, 4, 0, 12, 1, 12, 9, 9,
        ],
    ),
    (
        2,
        3,
        &[
            0x80, 0, 0, 5, 0x80, 0, 0, 7, 3, 7, 0, 21, 5, 4, 0, 12, 1, 12, 9, 9,
        ],
    ),
    (
        2,
        3,
        &[
            0x80, 0, 0, 5, 0x80, 0, 0, 7, 3, 7, 0, 21, 6, 4, 0, 12, 1, 12, 9, 9, 0,
        ],
    ),
    (
        2,
        3,
        &[
            0x80, 0, 0, 5, 0x80, 0, 0, 7, 3, 7, 0, 20, 6, 4, 0, 12, 1, 12, 9, 9,
        ],
    ),
    (
        2,
        3,
        &[
            0x80, 0, 0, 5, 0x80, 0, 0, 7, 3, 8, 0, 21, 6, 3, 7, 0, 12, 1, 12, 9, 9,
        ],
    ),
    (
        1,
        1,
        &[0x80, 0, 0, 5, 0x80, 0, 0, 7, 0, 0, 0, 0, 0, 1, 0, 12],
    ),
    (2, 2, &PACKED),
    (2, 8_388_608, &PACKED),
];

/// The three leaves in each form.
const FORMS: [(u8, &[u8]); 3] = [(1, &TABLE), (2, &PACKED), (3, &OWN)];

#[test]
fn vectors_are_read(rt: HostRuntime) -> Result<(), Fail> {
    for (form, b) in FORMS {
        let index = read(&rt, form, 3, b)?;
        shows(&rt, &index.walk());
    }
    Ok(())
}

#[test]
fn pages_are_counted(rt: HostRuntime) -> Result<(), Fail> {
    let table = read(&rt, 1, 3, &TABLE)?;
    same(&rt, table.leaf_pages(), 1);
    Ok(())
}

#[test]
fn a_copy_has_the_body(rt: HostRuntime) -> Result<(), Fail> {
    let packed = read(&rt, 2, 3, &PACKED)?;
    same(&rt, packed.copy(rt.alloc())?.body(), PACKED.as_slice());
    Ok(())
}

#[test]
fn others_are_refused(rt: HostRuntime) -> Result<(), Fail> {
    for (form, leaves, b) in REFUSED {
        holds_at(&rt, !is_read(&rt, form, leaves, b)?, &b);
    }
    Ok(())
}

#[test]
fn fronts_are_refused(rt: HostRuntime) -> Result<(), Fail> {
    for n in 0..OWN.len() {
        holds_at(&rt, !is_read(&rt, 3, 3, &OWN[..n])?, &n);
    }
    Ok(())
}

fn read(rt: &HostRuntime, form: u8, leaves: u32, b: &[u8]) -> Result<Index<1>, Fail> {
    let bytes = Bytes::new(b.to_vec(rt.alloc())?);
    Ok(Index::<1>::read(form, leaves, bytes)?)
}

fn is_read(rt: &HostRuntime, form: u8, leaves: u32, b: &[u8]) -> Result<bool, Fail> {
    let bytes = Bytes::new(b.to_vec(rt.alloc())?);
    Ok(Index::<1>::read(form, leaves, bytes).is_ok())
}

/// The last leaf of the three stands at 21, and its cell begins at 7.
fn shows(rt: &impl Abort, root: &NodeAt<'_, 1>) {
    same(rt, root.leaf_count(), 3);
    let Some((left, last)) = root.children() else {
        return holds_at(rt, false, &"no children");
    };
    same(rt, last.first_leaf(), 2);
    same(rt, last.cell().lo.c, [7]);
    stands(rt, &last, 21);
    shows_left(rt, &left);
}

/// The leaf before the last one stands at 12, and its cell is one value alone.
fn shows_left(rt: &impl Abort, left: &NodeAt<'_, 1>) {
    same(rt, left.cell().lo.c, [5]);
    let Some((_, middle)) = left.children() else {
        return holds_at(rt, false, &"no children");
    };
    same(rt, middle.cell().lo.c, [7]);
    same(rt, middle.cell().hi.c, [7]);
    stands(rt, &middle, 12);
}

fn stands(rt: &impl Abort, leaf: &NodeAt<'_, 1>, offset: u16) {
    let place = LeafPlace {
        page: 0,
        offset,
        length: 9,
    };
    same(rt, leaf.leaf_place(), Some(place));
}
