//! Packed bodies against bytes that were put together by hand.

ghost use Rattle.std.specs.Prelude.{◌≡◌, ◌≤ℤ◌, ◌∷◌, []};
ghost use Rattle.point_codec.specs.Seen.{region_of};

use crate::asserts::same;
use crate::samples::OWN;
use inner_pack::Index;
use point_codec::{Cell, Point};
use std::test::Fail;

/// One leaf of 300 bytes over the cell from (0, 0) to (0, 0).
const ONE: [u8; 34] = [
    0x80, 0, 0, 0, 0x80, 0, 0, 0, 0x80, 0, 0, 0, 0x80, 0, 0, 0, 0xac, 0x02, 0x80, 0, 0, 0, 0x80, 0,
    0, 0, 0x80, 0, 0, 0, 0x80, 0, 0, 0,
];

/// Four leaves of one dimension, of 4064, 1, 4063 and 2 bytes, all at 0: the second begins a page, which the third
/// fills, and the fourth begins another one. Three splits at 0.
const PAGES: [u8; 58] = [
    0x80, 0, 0, 0, 0x80, 0, 0, 0, 4, 1, 1, 23, 4, 1, 0, 10, 0xe0, 0x1f, 0x80, 0, 0, 0, 0x80, 0, 0,
    0, 1, 0x80, 0, 0, 0, 0x80, 0, 0, 0, 4, 1, 0, 10, 0xdf, 0x1f, 0x80, 0, 0, 0, 0x80, 0, 0, 0, 2,
    0x80, 0, 0, 0, 0x80, 0, 0, 0,
];

/// The cell from `lo` to `hi` in one dimension.
fn line(lo: i32, hi: i32) -> Cell<1>
    requires { lo ≤ℤ hi }
    ensures { region_of result ≡ record { lo = lo ∷ []; hi = hi ∷ [] } }
{
    Cell {
        lo: Point { c: [lo] },
        hi: Point { c: [hi] },
    }
}

#[test]
fn three_leaves(rt: HostRuntime) -> Result<(), Fail> {
    let cells = [line(5, 7), line(7, 7), line(7, 7)];
    let index = Index::pack(
        rt.alloc(),
        line(5, 7),
        &[(0, 7), (0, 7)],
        &[12, 9, 9],
        &cells,
    )?;
    same(&rt, index.body(), OWN.as_slice());
    same(&rt, index.leaf_pages(), 1);
    Ok(())
}

#[test]
fn one_leaf(rt: HostRuntime) -> Result<(), Fail> {
    let cell = Cell {
        lo: Point { c: [0, 0] },
        hi: Point { c: [0, 0] },
    };
    let index = Index::pack(rt.alloc(), cell, &[], &[300], &[cell])?;
    same(&rt, index.body(), ONE.as_slice());
    Ok(())
}

#[test]
fn pages_end(rt: HostRuntime) -> Result<(), Fail> {
    let cells = [line(0, 0), line(0, 0), line(0, 0), line(0, 0)];
    let index = Index::pack(
        rt.alloc(),
        line(0, 0),
        &[(0, 0), (0, 0), (0, 0)],
        &[4064, 1, 4063, 2],
        &cells,
    )?;
    same(&rt, index.body(), PAGES.as_slice());
    same(&rt, index.leaf_pages(), 3);
    Ok(())
}

#[test]
fn eight_dimensions(rt: HostRuntime) -> Result<(), Fail> {
    let cell = Cell {
        lo: Point { c: [0; 8] },
        hi: Point { c: [0; 8] },
    };
    let index = Index::pack(rt.alloc(), cell, &[(7, 0)], &[1, 1], &[cell, cell])?;
    // The code of dimension 7 with all four bytes shared, the place, and a left child of 65 bytes.
    same(
        &rt,
        index.body().get(64..68),
        Some([39u8, 0, 1, 65].as_slice()),
    );
    same(&rt, index.body().len(), 64 + 4 + 2 * 65);
    Ok(())
}
